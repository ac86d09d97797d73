//! The commands of a host, and the frames that come to the source of a move.

ghost use Rattle.std.specs.Prelude.{◌≡◌, ◌<◌, ℕ, true, false, [], IfOk, OnErr, None, Some};
ghost use Rattle.rvm_guest.specs.TheGuest.{board};
ghost use Rattle.rvm_message.specs.Answers.{Answers};
ghost use Rattle.rvm_message.specs.Events.{command_of};
ghost use Rattle.rvm_message.specs.Replies.{is_refused_outright};
ghost use Rattle.rvm_message.specs.Sendable.{CanBeSent};
ghost use Rattle.rvm_message.specs.Steps.{reply_to_step};
ghost use Rattle.rvm_message.specs.Exchanges.{dry_exchange};
ghost use Rattle.rvm_board.specs.declared.event.BoardEvent.TheVariants.{Drain, Step};
ghost use Rattle.rvm_board.specs.Events.{answered, leaves};
ghost use Rattle.rvm_precopy.specs.Policies.{policy_of};
ghost use Rattle.rvm_protocol.specs.Frames as frames;
ghost use Rattle.rvm_protocol.specs.Modes as protocol;
ghost use Rattle.rvm_protocol.specs.Obeying as obeying;
ghost use Rattle.rvm_protocol.specs.Receiving as receiving;
ghost use Rattle.rvm_source.specs.Sources as sources;
ghost use Rattle.rvm_host.specs.Bounds.{HasNumber, copy_body, resend_body};
ghost use Rattle.rvm_host.specs.Modes.{mode_of, plain_of};
ghost use Rattle.rvm_host.specs.Retiring.{ModeRetires};
ghost use Rattle.rvm_host.specs.Turns.{HasLog, turned};

use crate::mode::Mode;
use rvm_board::{BoardEvent, BoardReply, DRAIN_SIZE, Debugged, NO_STEPS, Retired, Turns};
use rvm_frame::Frame;
use rvm_mem::PagedMemory;
use rvm_message::{
    Answer, Command, HostRefusal, HostReply, NO_TURNS, StepReply, apply_event, step_guest,
    turn_guest,
};
use rvm_precopy::Policy;
use rvm_source::Source;
use std::alloc::{AllocError, Global};

impl<M: PagedMemory + Drop> Mode<M> {
    /// Gives the guest an event, if it runs here; else refuses. Takes no memory.
    pub(crate) fn board(&mut self, event: &BoardEvent) -> HostReply
        ensures { (version : ℕ) → Answers version
            (obeying.board board event.now (mode_of (plain_of self.old)))
            (result, None) (mode_of (plain_of self.new)) }
    {
        match self {
            Mode::Run { guest, .. } => HostReply::Board(apply_event(guest, event)),
            Mode::Leaving(source) => source.apply(event),
            Mode::Held { .. } => HostReply::Refused(HostRefusal::Paused),
            Mode::Empty { .. } | Mode::Given { .. } | Mode::Staging { .. } => HostReply::Refused(
                HostRefusal::NotHere,
            ),
        }
    }

    /// Gives the guest the event of a step of a hart, as `board` does. Takes no memory.
    pub(crate) fn step(&mut self, hart: u32) -> StepReply
        ensures { (version : ℕ) → Answers version
            (obeying.board board (Step hart) (mode_of (plain_of self.old)))
            (reply_to_step result, None) (mode_of (plain_of self.new)) }
    {
        match self {
            Mode::Run { guest, .. } => step_guest(guest, hart),
            Mode::Leaving(source) => source.step(hart),
            Mode::Held { .. } => StepReply::Refused(HostRefusal::Paused),
            Mode::Empty { .. } | Mode::Given { .. } | Mode::Staging { .. } => StepReply::Refused(
                HostRefusal::NotHere,
            ),
        }
    }

    /// Whether the guest runs here and a drain of at most `count` bytes, up to 256, finds none.
    #[tactic(auto, using(crate::proofs::Drying::run_dry))]
    pub(crate) fn finds_nothing(&self, count: u32) -> bool
        ensures { result ≡ true → (version : ℕ) → Answers version
            (obeying.board board (Drain count) (mode_of (plain_of self.now)))
            ((dry_exchange count).reply, None) (mode_of (plain_of self.now)) }
    {
        match self {
            Mode::Run { guest, .. } => is_dry(guest, count),
            Mode::Leaving(source) => is_dry_source(source, count),
            _ => false,
        }
    }

    /// Makes at most `count` consecutive turns of a hart; none unless the guest runs here. Takes no memory.
    pub(crate) fn turns(&mut self, hart: u32, count: u32) -> Turns
        ensures mode { plain_of self.new ≡ (turned hart count (plain_of self.old)).mode }
        ensures made { result.made ≡ (turned hart count (plain_of self.old)).made }
        ensures stop { result.stop ≡ (turned hart count (plain_of self.old)).stop }
        ensures log { HasLog (plain_of self.old) }
    {
        match self {
            Mode::Run { guest, .. } => turn_guest(guest, hart, count),
            Mode::Leaving(source) => source.turns(hart, count),
            _ => NO_TURNS,
        }
    }

    /// Makes at most `count` steps of the guest's `harts` harts in turn, as `Debugged::retire` does; none unless the
    /// guest runs here. Takes no memory.
    pub(crate) fn retire(&mut self, turn: u64, harts: u32, count: u32) -> Retired
        ensures { ModeRetires harts turn count (plain_of self.old) (plain_of self.new) result }
    {
        match self {
            Mode::Run { guest, .. } => guest.retire(turn, harts, count),
            Mode::Leaving(source) => source.retire(turn, harts, count),
            Mode::Empty { .. } | Mode::Given { .. } | Mode::Staging { .. } | Mode::Held { .. } =>
                NO_STEPS,
        }
    }

    /// Whether a command would be refused, whatever the target of Begin is. Takes no memory.
    pub(crate) fn refuses(&self, command: &Command) -> bool
        ensures { (version : ℕ) → result ≡ is_refused_outright
            (obeying.obey board version (command_of command.now) (mode_of (plain_of self.now))).reply }
    {
        match command {
            Command::Board(_) => self.refuses_events(),
            Command::Begin { policy, .. } => self.refuses_begin(*policy),
            Command::Copy => self.refuses_copy(),
            Command::Resend => self.refuses_resend(),
            Command::Abort => self.refuses_abort(),
        }
    }

    /// Whether an event of the guest would be refused.
    fn refuses_events(&self) -> bool
        ensures { (event : BoardEvent) → result
            ≡ is_refused_outright (obeying.board board event (mode_of (plain_of self.now))).reply }
    {
        match self {
            Mode::Run { .. } => false,
            Mode::Leaving(source) => source.refuses_events(),
            _ => true,
        }
    }

    /// Whether Abort would be refused.
    #[tactic(auto, using(crate::proofs::Refused::leaving_aborts))]
    fn refuses_abort(&self) -> bool
        ensures { result ≡ is_refused_outright (obeying.abort board (mode_of (plain_of self.now))).reply }
    {
        match self {
            Mode::Leaving(_) => false,
            _ => true,
        }
    }

    /// Whether Begin would be refused: the guest does not run here, a move is going on, the policy is not allowed,
    /// or no move number is left.
    #[tactic(auto, using(crate::proofs::Refused::run_begins, crate::proofs::Refused::leaving_busy))]
    pub(crate) fn refuses_begin(&self, policy: Policy) -> bool
        ensures { result ≡ is_refused_outright
            (obeying.begin board (policy_of policy) (mode_of (plain_of self.now))).reply }
    {
        match self {
            Mode::Run { move_number, .. } => !policy.is_allowed() || *move_number == u64::MAX,
            _ => true,
        }
    }

    /// Whether Copy would be refused.
    fn refuses_copy(&self) -> bool
        ensures { (version : ℕ) → result
            ≡ is_refused_outright (obeying.copy board version (mode_of (plain_of self.now))).reply }
    {
        match self {
            Mode::Leaving(source) => source.refuses_copy(),
            _ => true,
        }
    }

    /// Whether Resend would be refused.
    fn refuses_resend(&self) -> bool
        ensures { (version : ℕ) → result
            ≡ is_refused_outright (obeying.resend board version (mode_of (plain_of self.now))).reply }
    {
        match self {
            Mode::Leaving(source) => source.refuses_resend(),
            Mode::Given { .. } | Mode::Held { .. } => false,
            _ => true,
        }
    }

    /// Begins a move to another host. If memory runs out, changes nothing.
    pub(crate) fn begin(&mut self, alloc: Global, policy: Policy) -> Result<Answer, AllocError>
        ensures answer { IfOk result (λ a. (version : ℕ) → Answers version
            (obeying.begin board (policy_of policy) (mode_of (plain_of self.old)))
            a (mode_of (plain_of self.new))) }
        ensures err { OnErr result (self.new ≡ self.old) }
        ensures refused { OnErr result (is_refused_outright
            (obeying.begin board (policy_of policy) (mode_of (plain_of self.old))).reply ≡ false) }
        ensures sent { IfOk result (λ a. (version : ℕ) → CanBeSent version (Some 3) a.1) }
    {
        match self.take() {
            Mode::Run { move_number, guest } => self.begin_run(alloc, policy, move_number, guest),
            Mode::Leaving(source) => Ok(self.stay(Mode::Leaving(source), HostRefusal::Busy)),
            mode => Ok(self.stay(mode, HostRefusal::NotHere)),
        }
    }

    /// Begins a move of a guest that runs. If memory runs out, the guest runs on in the same mode.
    fn begin_run(
        &mut self,
        alloc: Global,
        policy: Policy,
        move_number: u64,
        guest: Debugged<M>,
    ) -> Result<Answer, AllocError>
        ensures answer { IfOk result (λ a. (version : ℕ) → Answers version
            (obeying.begin board (policy_of policy) (protocol.Run move_number guest.guest))
            a (mode_of (plain_of self.new))) }
        ensures err { OnErr result (self.new ≡ Mode.Run move_number guest) }
        ensures refused { OnErr result (is_refused_outright
            (obeying.begin board (policy_of policy) (protocol.Run move_number guest.guest)).reply ≡ false) }
        ensures sent { IfOk result (λ a. (version : ℕ) → CanBeSent version (Some 3) a.1) }
    {
        if !policy.is_allowed() {
            return Ok(self.stay(Mode::Run { move_number, guest }, HostRefusal::BadSize));
        }
        if move_number == u64::MAX {
            return Ok(self.stay(Mode::Run { move_number, guest }, HostRefusal::EpochsSpent));
        }
        match Source::begin(alloc, move_number + 1, guest, policy) {
            Ok(source) => {
                let offer = source.offer();
                self.set(Mode::Leaving(source));
                Ok(HostReply::Begun(move_number + 1).with(offer))
            }
            Err(guest) => {
                self.set(Mode::Run { move_number, guest });
                Err(AllocError)
            }
        }
    }

    /// Copies the next page, or takes the next action of the move. If memory runs out, changes nothing.
    pub(crate) fn copy(&mut self, alloc: Global, version: u32) -> Result<Answer, AllocError>
        ensures answer { IfOk result (λ a. Answers version
            (obeying.copy board version (mode_of (plain_of self.old)))
            a (mode_of (plain_of self.new))) }
        ensures err { OnErr result (self.new ≡ self.old) }
        ensures refused { OnErr result (is_refused_outright
            (obeying.copy board version (mode_of (plain_of self.old))).reply ≡ false) }
        ensures sent { IfOk result (λ a. CanBeSent version (copy_body version (plain_of self.old)) a.1) }
    {
        match self {
            Mode::Leaving(source) => source.copy(alloc, version),
            Mode::Run { .. } => Ok(HostReply::refused(HostRefusal::NoMove)),
            _ => Ok(HostReply::refused(HostRefusal::NotHere)),
        }
    }

    /// Makes again the frame that the other host may not have heard: the offer, the state, Go or Ready. If memory runs
    /// out, changes nothing.
    pub(crate) fn resend(&mut self, alloc: Global, version: u32) -> Result<Answer, AllocError>
        requires { HasNumber (plain_of self.old) }
        ensures answer { IfOk result (λ a. Answers version
            (obeying.resend board version (mode_of (plain_of self.old)))
            a (mode_of (plain_of self.new))) }
        ensures err { OnErr result (self.new ≡ self.old) }
        ensures refused { OnErr result (is_refused_outright
            (obeying.resend board version (mode_of (plain_of self.old))).reply ≡ false) }
        ensures sent { IfOk result (λ a. CanBeSent version (resend_body version (plain_of self.old)) a.1) }
    {
        match self {
            Mode::Leaving(source) => source.resend(alloc, version),
            Mode::Given { move_number, .. } => {
                let move_number = *move_number;
                Ok(HostReply::Resent.with(Frame::Go { move_number }))
            }
            Mode::Held { move_number, .. } => {
                let move_number = *move_number;
                Ok(HostReply::Resent.with(Frame::Ready { move_number }))
            }
            _ => Ok(HostReply::refused(HostRefusal::NoMove)),
        }
    }

    /// Gives up the move of a guest that is leaving: the guest runs on here. Refuses in any other mode.
    pub(crate) fn abort(&mut self) -> Answer
        ensures answer { (version : ℕ) → Answers version
            (obeying.abort board (mode_of (plain_of self.old)))
            result (mode_of (plain_of self.new)) }
        ensures sent { (version : ℕ) → CanBeSent version (Some 0) result.1 }
    {
        match self.take() {
            Mode::Leaving(source) => {
                let move_number = source.move_number();
                let guest = source.into_guest();
                self.set(Mode::Run { move_number, guest });
                HostReply::Aborted.with(Frame::Abort { move_number })
            }
            Mode::Run { move_number, guest } => {
                self.stay(Mode::Run { move_number, guest }, HostRefusal::NoMove)
            }
            mode => self.stay(mode, HostRefusal::NotHere),
        }
    }

    /// Handles Accept: the target takes the guest, and its first round begins.
    pub(crate) fn accepted(&mut self, move_number: u64) -> HostReply
        ensures { (limit version : ℕ) → Answers version
            (receiving.came board limit (frames.Accept move_number) (mode_of (plain_of self.old)))
            (result, None) (mode_of (plain_of self.new)) }
    {
        match self {
            Mode::Leaving(source) => source.accepted(move_number),
            _ => HostReply::Refused(HostRefusal::Ignored),
        }
    }

    /// Handles Refuse: the target takes at most `most` pages, and the guest runs on here.
    pub(crate) fn declined(&mut self, move_number: u64, most: u16) -> Answer
        ensures answer { (limit version : ℕ) → Answers version
            (receiving.came board limit (frames.Refuse move_number most) (mode_of (plain_of self.old)))
            result (mode_of (plain_of self.new)) }
        ensures frame { result.1 ≡ None }
    {
        match self.take() {
            Mode::Leaving(source) => {
                if !source.is_offering(move_number) {
                    return self.stay(Mode::Leaving(source), HostRefusal::Ignored);
                }
                let guest = source.into_guest();
                self.set(Mode::Run { move_number, guest });
                HostReply::MoveDeclined(most).alone()
            }
            mode => self.stay(mode, HostRefusal::Ignored),
        }
    }

    /// Handles Lost: the target lacks copies of pages, which are to be copied again. If memory runs out, changes
    /// nothing. Allocates nothing for a frame that is ignored.
    pub(crate) fn lost(
        &mut self,
        alloc: Global,
        move_number: u64,
        pages: &[u16],
    ) -> Result<HostReply, AllocError>
        ensures answer { IfOk result (λ r. (limit version : ℕ) → Answers version
            (receiving.came board limit (frames.Lost move_number pages.now)
            (mode_of (plain_of self.old)))
            (r, None) (mode_of (plain_of self.new))) }
        ensures err { OnErr result (self.new ≡ self.old) }
        ensures refused { OnErr result ((limit : ℕ) → is_refused_outright (receiving.came board limit
            (frames.Lost move_number pages.now) (mode_of (plain_of self.old))).reply ≡ false) }
    {
        match self {
            Mode::Leaving(source) => {
                if !source.is_stopped(move_number) {
                    return Ok(HostReply::Refused(HostRefusal::Ignored));
                }
                source.lost(alloc, move_number, pages)
            }
            _ => Ok(HostReply::Refused(HostRefusal::Ignored)),
        }
    }

    /// Handles Ready: the target has the whole guest, which is given up here.
    pub(crate) fn ready(&mut self, move_number: u64) -> Answer
        requires { 0 < move_number }
        ensures answer { (limit version : ℕ) → Answers version
            (receiving.came board limit (frames.Ready move_number) (mode_of (plain_of self.old)))
            result (mode_of (plain_of self.new)) }
        ensures sent { (version : ℕ) → CanBeSent version (Some 0) result.1 }
    {
        match self.take() {
            Mode::Leaving(remains) => {
                if !remains.is_stopped(move_number) {
                    return self.stay(Mode::Leaving(remains), HostRefusal::Ignored);
                }
                self.set(Mode::Given {
                    move_number,
                    remains,
                });
                HostReply::Committed(move_number).with(Frame::Go { move_number })
            }
            mode => self.stay(mode, HostRefusal::Ignored),
        }
    }

    /// Handles Started: the guest runs at the target, and what remains of it here is dropped.
    pub(crate) fn started(&mut self, move_number: u64) -> HostReply
        ensures { (limit version : ℕ) → Answers version
            (receiving.came board limit (frames.Started move_number) (mode_of (plain_of self.old)))
            (result, None) (mode_of (plain_of self.new)) }
    {
        match self {
            Mode::Given {
                move_number: given,
                ..
            } if *given == move_number => {
                self.set(Mode::Empty { move_number });
                HostReply::Finished
            }
            _ => HostReply::Refused(HostRefusal::Ignored),
        }
    }
}

/// Whether a drain of at most `count` bytes, up to 256, finds none and leaves the guest as it is.
#[tactic(auto, using(crate::proofs::Drying::dry_guest))]
fn is_dry<M: PagedMemory>(guest: &Debugged<M>, count: u32) -> bool
    ensures { result ≡ true → answered (Drain count) guest.now.guest
        ≡ leaves guest.now.guest (BoardReply.Bytes []) }
{
    count <= DRAIN_SIZE && guest.waiting() == 0
}

/// Whether the guest of a source runs, and a drain of at most `count` bytes, up to 256, finds none and leaves it as it
/// is.
fn is_dry_source<M: PagedMemory>(from: &Source<M>, count: u32) -> bool
    ensures { result ≡ true → (version : ℕ) → Answers version
        (obeying.board board (Drain count) (sources.mode_of from.now))
        ((dry_exchange count).reply, None) (sources.mode_of from.now) }
{
    count <= DRAIN_SIZE && from.is_quiet()
}
