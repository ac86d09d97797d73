//! The source of a move.

ghost use Rattle.std.specs.Prelude.{◌≡◌, [], ◌≤◌, ◌<◌, ◌&&◌, ℕ, length, nat_lt, true, false, IfOk, IfErr, OnErr, None, Some};
ghost use Rattle.rvm_mem.specs.Pages.{has};
ghost use Rattle.rvm_protocol.specs.Commands.{is_allowed};
ghost use Rattle.rvm_protocol.specs.Frames as frames;
ghost use Rattle.rvm_protocol.specs.Modes as protocol;
ghost use Rattle.rvm_protocol.specs.Obeying as obeying;
ghost use Rattle.rvm_protocol.specs.Pages.{is_in};
ghost use Rattle.rvm_protocol.specs.Receiving as receiving;
ghost use Rattle.rvm_protocol.specs.Rounds.{page_of};
ghost use Rattle.rvm_precopy.specs.Policies.{policy_of};
ghost use Rattle.rvm_guest.specs.Pages.{count_of};
ghost use Rattle.rvm_guest.specs.TheGuest.{board};
ghost use Rattle.rvm_message.specs.Answers.{Answers};
ghost use Rattle.rvm_message.specs.Frames.{frame_made, frame_of};
ghost use Rattle.rvm_message.specs.Replies.{is_refused_outright, is_seq_spent};
ghost use Rattle.rvm_message.specs.Sendable.{CanBeSent};
ghost use Rattle.rvm_message.specs.Steps.{reply_to_step};
ghost use Rattle.rvm_board.specs.declared.event.BoardEvent.TheVariants.{Step};
ghost use Rattle.rvm_source.specs.Bounds.{body_bound, is_copied};
ghost use Rattle.rvm_source.specs.Looks.{IsLook, source_asked};
ghost use Rattle.rvm_source.specs.Sources.{HasPages, is_offering, is_stopped, mode_of};
ghost use Rattle.rvm_source.specs.Quiet.{IsQuiet};
ghost use Rattle.rvm_source.specs.Retiring.{SourceRetires};
ghost use Rattle.rvm_source.specs.Turns.{source_turned};

use crate::page::{COPY_BODY, page_frame};
use crate::phase::Phase;
use crate::state::{send_state, state_bound};
use rvm_board::{BoardEvent, Debugged, NO_STEPS, Retired, Snapshot, Turns};
use rvm_frame::{Frame, PagePart};
use rvm_mem::{Memory, PageSet, PagedMemory};
use rvm_message::{
    Answer, HostRefusal, HostReply, NO_TURNS, StepReply, apply_event, step_guest, turn_guest,
};
use rvm_precopy::{LastNext, Next, Policy, Rounds};
use std::alloc::{AllocError, Global};
use std::marker::Model;

/// A guest that is being moved to another host, and what its source keeps beside it.
#[derive(Drop)]
pub struct Source<M: PagedMemory> {
    move_number: u64,
    guest: Debugged<M>,
    rounds: Rounds,
    phase: Phase,
}

impl<M: PagedMemory> Model for Source<M> {
    ghost use Rattle.std.specs.Prelude.{◌≡◌, ◌<◌, length};
    ghost use Rattle.rvm_source.specs.Sources.{HasTurn, IsCovered, PlainSource};

    ghost Value = { PlainSource };

    ghost view = { λ s. record {
      move_number = s.move_number;
      guest = s.guest;
      plan = s.rounds;
      phase = s.phase;
    } };

    ghost invariant = { λ s. (0 < s.move_number)
        × ((length s.guest.dirty ≡ length s.rounds.to_send)
        × (HasTurn s.phase s.guest s.rounds
        × IsCovered s.phase s.guest.dirty s.rounds)) };
}

impl<M: PagedMemory> Source<M> {
    /// Begins the move with this number, at least 1: the guest is then on offer. If memory runs out, returns the guest
    /// unchanged.
    pub fn begin(
        alloc: Global,
        move_number: u64,
        guest: Debugged<M>,
        policy: Policy,
    ) -> Result<Source<M>, Debugged<M>>
        requires number { 0 < move_number }
        requires policy { is_allowed (policy_of policy) ≡ true }
        ensures source { IfOk result (λ s. mode_of s
            ≡ protocol.Offering move_number guest.guest (policy_of policy)) }
        ensures guest { IfErr result (λ g. g ≡ guest) }
    {
        let _size = guest.memory().len();
        let Ok(rounds) = Rounds::begin(alloc, guest.memory().pages(), policy) else {
            return Err(guest);
        };
        Ok(Source {
            move_number,
            guest,
            rounds,
            phase: Phase::Offering,
        })
    }

    /// Returns the number of the move, at least 1.
    pub fn move_number(&self) -> u64
        ensures number { result ≡ protocol.move_of (mode_of self.now) }
        ensures some { 0 < result }
    {
        self.move_number
    }

    /// Returns the number of the guest's harts, 1 to 8.
    pub fn harts(&self) -> u32
        ensures count { result ≡ length self.now.guest.guest.board.harts }
        ensures some { 0 < result }
        ensures bound { result ≤ 8 }
    {
        self.guest.harts()
    }

    /// Returns the phase of the move.
    pub fn phase(&self) -> Phase
        ensures { result ≡ self.now.phase }
    {
        self.phase
    }

    /// Whether the guest is offered for the move with this number.
    pub fn is_offering(&self, move_number: u64) -> bool
        ensures { result ≡ is_offering move_number (mode_of self.now) }
    {
        move_number == self.move_number && matches!(self.phase, Phase::Offering)
    }

    /// Whether the guest is paused for the move with this number.
    pub fn is_stopped(&self, move_number: u64) -> bool
        ensures { result ≡ is_stopped move_number (mode_of self.now) }
    {
        move_number == self.move_number && matches!(self.phase, Phase::Stopped { .. })
    }

    /// Ends the source and returns the guest.
    pub fn into_guest(self) -> Debugged<M>
        ensures { Some result.guest ≡ protocol.guest_in (mode_of self) }
    {
        self.guest
    }

    /// The number of the guest's pages.
    fn pages(&self) -> u32
        ensures { HasPages result self.now }
    {
        let _size = self.guest.memory().len();
        let _copies = self.rounds.copies();
        self.rounds.pages()
    }

    /// Returns the most body bytes that the next frame of this source can have in a stream of this version, at most
    /// 32768. Takes no memory.
    pub fn body_bound(&self, version: u32) -> usize
        ensures bound { result ≡ body_bound version self.now }
        ensures short { result ≤ 32768 }
    {
        if version < 2 && self.is_copied() {
            state_bound(self.rounds.pages())
        } else {
            COPY_BODY
        }
    }

    /// Whether the guest is paused and no page is left to be copied.
    fn is_copied(&self) -> bool
        ensures { result ≡ is_copied self.now.phase self.now.plan }
    {
        matches!(self.phase, Phase::Stopped { .. }) && !self.rounds.is_left()
    }

    /// Makes the frame that offers the guest. Takes no memory.
    pub fn offer(&self) -> Frame
        ensures frame { frame_of result
            ≡ obeying.offer_frame board self.now.move_number self.now.guest.guest }
        ensures sent { (version : ℕ) → CanBeSent version (Some 3) (Some result) }
    {
        offer_frame(self.move_number, &self.guest)
    }

    /// Gives the guest an event and returns its answer; refuses with `Paused` if the guest is paused. Takes no memory.
    pub fn apply(&mut self, event: &BoardEvent) -> HostReply
        ensures { (version : ℕ) → Answers version (obeying.board board event.now (mode_of self.old))
            (result, None) (mode_of self.new) }
    {
        match self.phase {
            Phase::Stopped { .. } => HostReply::Refused(HostRefusal::Paused),
            Phase::Offering | Phase::Copying => HostReply::Board(apply_event(
                &mut self.guest,
                event,
            )),
        }
    }

    /// Gives the guest the event of a step of a hart, as `apply` does. Takes no memory.
    pub fn step(&mut self, hart: u32) -> StepReply
        ensures { (version : ℕ) → Answers version (obeying.board board (Step hart) (mode_of self.old))
            (reply_to_step result, None) (mode_of self.new) }
    {
        match self.phase {
            Phase::Stopped { .. } => StepReply::Refused(HostRefusal::Paused),
            Phase::Offering | Phase::Copying => step_guest(&mut self.guest, hart),
        }
    }

    /// Returns all that the guest keeps beside its RAM; refuses with `Paused` if the guest is paused. Takes no memory.
    pub fn snapshot(&self) -> Result<Snapshot, HostRefusal>
        ensures { IsLook (source_asked self.now) result }
    {
        match self.phase {
            Phase::Stopped { .. } => Err(HostRefusal::Paused),
            Phase::Offering | Phase::Copying => Ok(self.guest.snapshot()),
        }
    }

    /// Whether the guest runs and all output that it sent has been drained.
    pub fn is_quiet(&self) -> bool
        ensures quiet { result ≡ true → IsQuiet self.now.phase
            (length self.now.guest.guest.board.shared.devices.output) }
        ensures log { length self.now.guest.dirty ≡ count_of self.now.guest.guest }
    {
        let _size = self.guest.memory().len();
        let waiting = self.guest.waiting();
        match self.phase {
            Phase::Stopped { .. } => false,
            Phase::Offering | Phase::Copying => waiting == 0,
        }
    }

    /// Makes at most `count` consecutive turns of a hart of the guest, as `Debugged::turns` does; none if the guest is
    /// paused or has no such hart. Takes no memory.
    pub fn turns(&mut self, hart: u32, count: u32) -> Turns
        ensures source { self.new ≡ (source_turned hart count self.old).source }
        ensures made { result.made ≡ (source_turned hart count self.old).made }
        ensures stop { result.stop ≡ (source_turned hart count self.old).stop }
        ensures log { length self.old.guest.dirty ≡ count_of self.old.guest.guest }
    {
        let _size = self.guest.memory().len();
        match self.phase {
            Phase::Stopped { .. } => NO_TURNS,
            Phase::Offering | Phase::Copying => turn_guest(&mut self.guest, hart, count),
        }
    }

    /// Makes at most `count` steps of the guest's `harts` harts in turn, as `Debugged::retire` does; none if the guest
    /// is paused. Takes no memory.
    pub fn retire(&mut self, turn: u64, harts: u32, count: u32) -> Retired
        ensures { SourceRetires harts turn count self.old self.new result }
    {
        let _size = self.guest.memory().len();
        match self.phase {
            Phase::Stopped { .. } => NO_STEPS,
            Phase::Offering | Phase::Copying => self.guest.retire(turn, harts, count),
        }
    }

    /// Handles Accept: if the move with this number is on offer, opens its first round; otherwise refuses with
    /// `Ignored`.
    pub fn accepted(&mut self, move_number: u64) -> HostReply
        ensures { (limit version : ℕ) → Answers version
            (receiving.came board limit (frames.Accept move_number) (mode_of self.old))
            (result, None) (mode_of self.new) }
    {
        if !self.is_offering(move_number) {
            return HostReply::Refused(HostRefusal::Ignored);
        }
        let _pages = self.pages();
        self.rounds.open(&mut self.guest);
        self.phase = Phase::Copying;
        HostReply::Open
    }

    /// Whether Copy would be refused: the move is on offer, or no copy number is left for the page that is due.
    /// Takes no memory.
    pub fn refuses_copy(&self) -> bool
        ensures { (version : ℕ) → result
            ≡ is_refused_outright (obeying.copy board version (mode_of self.now)).reply }
    {
        match self.phase {
            Phase::Offering => true,
            Phase::Copying | Phase::Stopped { .. } => self.is_spent(),
        }
    }

    /// Whether Resend would be refused: the guest runs and is being copied, or it is paused and a page is left to be
    /// copied. Takes no memory.
    pub fn refuses_resend(&self) -> bool
        ensures { (version : ℕ) → result
            ≡ is_refused_outright (obeying.resend board version (mode_of self.now)).reply }
    {
        let _pages = self.pages();
        match self.phase {
            Phase::Offering => false,
            Phase::Copying => true,
            Phase::Stopped { .. } => self.rounds.is_left(),
        }
    }

    /// Whether an event of the guest would be refused: the guest is paused.
    pub fn refuses_events(&self) -> bool
        ensures { (event : BoardEvent) → result
            ≡ is_refused_outright (obeying.board board event (mode_of self.now)).reply }
    {
        matches!(self.phase, Phase::Stopped { .. })
    }

    /// Whether Copy would find a page to copy and no copy number left for it.
    fn is_spent(&self) -> bool
        ensures { (version : ℕ) → result
            ≡ is_seq_spent (obeying.copy board version (mode_of self.now)).reply }
    {
        let _pages = self.pages();
        match self.phase {
            Phase::Offering => false,
            Phase::Copying => self.rounds.is_spent(&self.guest),
            Phase::Stopped { .. } => self.rounds.is_last_spent(),
        }
    }

    /// Handles Copy: copies the next page, or takes the next action of the move, for a stream of this version. If
    /// memory runs out, changes nothing. A refusal allocates nothing.
    pub fn copy(&mut self, alloc: Global, version: u32) -> Result<Answer, AllocError>
        ensures answer { IfOk result (λ a. Answers version
            (obeying.copy board version (mode_of self.old)) a (mode_of self.new)) }
        ensures err { OnErr result (self.new ≡ self.old) }
        ensures refused { OnErr result
            (is_refused_outright (obeying.copy board version (mode_of self.old)).reply ≡ false) }
        ensures sent { IfOk result (λ a. CanBeSent version
            (Some (body_bound version self.old)) a.1) }
    {
        if self.is_spent() {
            return Ok(HostReply::refused(HostRefusal::SeqSpent));
        }
        match self.phase {
            Phase::Offering => Ok(HostReply::refused(HostRefusal::Busy)),
            Phase::Copying => self.copy_running(alloc, version),
            Phase::Stopped { turn } => self.copy_paused(alloc, version, turn),
        }
    }

    /// Handles Copy while the guest runs and is being copied. The caller must have checked that `is_spent` is false.
    fn copy_running(&mut self, alloc: Global, version: u32) -> Result<Answer, AllocError>
        requires phase { self.old.phase ≡ Phase.Copying }
        requires left { is_seq_spent (obeying.copy board version (mode_of self.old)).reply ≡ false }
        ensures answer { IfOk result (λ a. Answers version
            (obeying.copy board version (mode_of self.old)) a (mode_of self.new)) }
        ensures err { OnErr result (self.new ≡ self.old) }
        ensures refused { OnErr result
            (is_refused_outright (obeying.copy board version (mode_of self.old)).reply ≡ false) }
        ensures sent { IfOk result (λ a. CanBeSent version
            (Some (body_bound version self.old)) a.1) }
    {
        let part = PagePart::new(alloc)?;
        let _pages = self.pages();
        let number = self.move_number;
        Ok(match self.rounds.next(&mut self.guest) {
            Next::Copied { page, number: copy } => {
                copied(version, part, number, &self.guest, page as u16, copy)
            }
            Next::RoundEnded {
                round,
                sent,
                skipped,
                left,
            } => round_ended(
                number,
                round as u16,
                sent as u16,
                skipped as u16,
                left as u16,
            ),
            Next::Stopping => {
                self.phase = Phase::Stopped { turn: 0 };
                HostReply::Stopping.alone()
            }
            Next::SeqSpent => HostReply::refused(HostRefusal::SeqSpent),
        })
    }

    /// Handles Copy once the guest is paused. The caller must have checked that `is_spent` is false.
    fn copy_paused(&mut self, alloc: Global, version: u32, turn: u8) -> Result<Answer, AllocError>
        requires phase { self.old.phase ≡ Phase.Stopped turn }
        requires left { is_seq_spent (obeying.copy board version (mode_of self.old)).reply ≡ false }
        ensures answer { IfOk result (λ a. Answers version
            (obeying.copy board version (mode_of self.old)) a (mode_of self.new)) }
        ensures err { OnErr result (self.new ≡ self.old) }
        ensures refused { OnErr result
            (is_refused_outright (obeying.copy board version (mode_of self.old)).reply ≡ false) }
        ensures sent { IfOk result (λ a. CanBeSent version
            (Some (body_bound version self.old)) a.1) }
    {
        let part = PagePart::new(alloc)?;
        let _pages = self.pages();
        let number = self.move_number;
        match self.rounds.next_last() {
            LastNext::Copied { page, number: copy } => {
                self.phase = Phase::Stopped { turn: 0 };
                Ok(copied(version, part, number, &self.guest, page as u16, copy))
            }
            LastNext::SeqSpent => Ok(HostReply::refused(HostRefusal::SeqSpent)),
            LastNext::NothingLeft => {
                let sent = send_state(alloc, version, number, &self.rounds, &self.guest, turn)?;
                self.phase = sent.next;
                Ok(sent.reply.with(sent.frame))
            }
        }
    }

    /// Handles Resend: makes the offer or the paused guest's state again, for a stream of this version; in versions 2
    /// and 3, the next piece of the state. If memory runs out, changes nothing. A refusal allocates nothing.
    pub fn resend(&mut self, alloc: Global, version: u32) -> Result<Answer, AllocError>
        ensures answer { IfOk result (λ a. Answers version
            (obeying.resend board version (mode_of self.old)) a (mode_of self.new)) }
        ensures err { OnErr result (self.new ≡ self.old) }
        ensures refused { OnErr result
            (is_refused_outright (obeying.resend board version (mode_of self.old)).reply ≡ false) }
        ensures sent { IfOk result (λ a. CanBeSent version
            (Some (body_bound version self.old)) a.1) }
    {
        match self.phase {
            Phase::Offering => Ok(HostReply::Resent.with(self.offer())),
            Phase::Copying => Ok(HostReply::refused(HostRefusal::NoMove)),
            Phase::Stopped { turn } => self.resend_state(alloc, version, turn),
        }
    }

    /// Handles Resend once the guest is paused: sends the state again if no page is left to be copied.
    fn resend_state(&mut self, alloc: Global, version: u32, turn: u8) -> Result<Answer, AllocError>
        requires { self.old.phase ≡ Phase.Stopped turn }
        ensures answer { IfOk result (λ a. Answers version
            (obeying.resend board version (mode_of self.old)) a (mode_of self.new)) }
        ensures err { OnErr result (self.new ≡ self.old) }
        ensures refused { OnErr result
            (is_refused_outright (obeying.resend board version (mode_of self.old)).reply ≡ false) }
        ensures sent { IfOk result (λ a. CanBeSent version
            (Some (body_bound version self.old)) a.1) }
    {
        let _pages = self.pages();
        if self.rounds.is_left() {
            return Ok(HostReply::refused(HostRefusal::NoMove));
        }
        let number = self.move_number;
        let sent = send_state(alloc, version, number, &self.rounds, &self.guest, turn)?;
        self.phase = sent.next;
        Ok(HostReply::Resent.with(sent.frame))
    }

    /// Handles Lost: if the guest is paused for the move with this number, marks the listed pages for another copy,
    /// except those that the guest does not have, and returns how many it marked; otherwise refuses with `Ignored`. If
    /// memory runs out, changes nothing.
    pub fn lost(
        &mut self,
        alloc: Global,
        move_number: u64,
        pages: &[u16],
    ) -> Result<HostReply, AllocError>
        ensures answer { IfOk result (λ r. (limit version : ℕ) → Answers version
            (receiving.came board limit (frames.Lost move_number pages.now) (mode_of self.old))
            (r, None) (mode_of self.new)) }
        ensures err { OnErr result (self.new ≡ self.old) }
        ensures refused { OnErr result ((limit : ℕ) → is_refused_outright (receiving.came board limit
            (frames.Lost move_number pages.now) (mode_of self.old)).reply ≡ false) }
    {
        if !self.is_stopped(move_number) {
            return Ok(HostReply::Refused(HostRefusal::Ignored));
        }
        let lost = set_of(alloc, self.pages(), pages)?;
        self.rounds.lost(&lost);
        Ok(HostReply::Fixing(lost.count() as u16))
    }
}

/// The frame that offers a guest.
fn offer_frame<M: PagedMemory>(move_number: u64, guest: &Debugged<M>) -> Frame
    requires { 0 < move_number }
    ensures frame { frame_of result ≡ obeying.offer_frame board move_number guest.now.guest }
    ensures sent { (version : ℕ) → CanBeSent version (Some 3) (Some result) }
{
    let _size = guest.memory().len();
    Frame::Offer {
        move_number,
        pages: guest.memory().pages() as u16,
        harts: guest.harts() as u8,
    }
}

/// The answer that a page was copied, with the frame of the copy.
fn copied<M: PagedMemory>(
    version: u32,
    part: PagePart,
    move_number: u64,
    guest: &Debugged<M>,
    page: u16,
    copy_number: u32,
) -> Answer
    requires empty { part ≡ [] }
    requires page { page < length guest.now.dirty }
    requires move_number { 0 < move_number }
    requires copy_number { 0 < copy_number }
    ensures reply { result.0 ≡ HostReply.Copied page copy_number }
    ensures frame { frame_made result.1 ≡ Some (frames.written board version
        (frames.Page move_number page copy_number (page_of board guest.now.guest page))) }
    ensures sent { CanBeSent version (Some 4102) result.1 }
{
    let frame = page_frame(version, part, move_number, guest, page, copy_number);
    let reply = HostReply::Copied { page, copy_number };
    reply.with(frame)
}

/// The answer that a round has ended, with its frame.
fn round_ended(move_number: u64, round: u16, sent: u16, skipped: u16, left: u16) -> Answer
    requires { 0 < move_number }
    ensures reply { result.0 ≡ HostReply.RoundEnded round sent skipped left }
    ensures frame { result.1 ≡ Some (Frame.RoundEnd move_number round sent skipped left) }
    ensures sent { (version : ℕ) → CanBeSent version (Some 4102) result.1 }
{
    let reply = HostReply::RoundEnded {
        round,
        sent,
        skipped,
        left,
    };
    reply.with(Frame::RoundEnd {
        move_number,
        round,
        sent,
        skipped,
        left,
    })
}

/// Makes the set of those numbers that are below a count of pages. Fails if memory runs out.
fn set_of(alloc: Global, pages: u32, numbers: &[u16]) -> Result<PageSet, AllocError>
    requires { pages ≤ 4096 }
    ensures set { IfOk result (λ s. (p : ℕ) → has p s ≡ (is_in numbers.now p && nat_lt p pages)) }
    ensures size { IfOk result (λ s. length s ≡ pages) }
{
    let mut set = PageSet::new(alloc, pages)?;
    for number in numbers {
        if u32::from(*number) < pages {
            set.insert(u32::from(*number));
        }
    }
    Ok(set)
}
