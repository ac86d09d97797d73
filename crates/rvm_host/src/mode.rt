//! The modes of a host.

ghost use Rattle.std.specs.Prelude.{◌≡◌, ◌≤◌, ℕ, true, false, IfOk, OnErr, None, option_map};
ghost use Rattle.rvm_board.specs.Guest.{GuestState};
ghost use Rattle.rvm_guest.specs.TheGuest.{board};
ghost use Rattle.rvm_message.specs.Answers.{Answers};
ghost use Rattle.rvm_message.specs.Events.{command_of};
ghost use Rattle.rvm_message.specs.Frames.{frame_heard};
ghost use Rattle.rvm_message.specs.Replies.{is_refused_outright};
ghost use Rattle.rvm_message.specs.Sendable.{CanBeSent};
ghost use Rattle.rvm_protocol.specs.Frames.{plain};
ghost use Rattle.rvm_protocol.specs.Modes.{guest_in, move_of};
ghost use Rattle.rvm_protocol.specs.Obeying as obeying;
ghost use Rattle.rvm_protocol.specs.Receiving as receiving;
ghost use Rattle.rvm_host.specs.Bounds.{HasNumber, came_body, command_body};
ghost use Rattle.rvm_host.specs.Memory.{asks_memory, takes_memory};
ghost use Rattle.rvm_host.specs.Modes.{mode_of, plain_of, runs};

use rvm_board::Debugged;
use rvm_frame::Frame;
use rvm_handover::Staging;
use rvm_mem::PagedMemory;
use rvm_message::{Answer, Command, HostRefusal, HostReply, can_come};
use rvm_source::Source;
use std::alloc::{AllocError, Global};
use std::mem;

/// A number that no move has. A host hears a frame that cannot come as an Accept of a move with this number, for which
/// no host waits.
const NO_MOVE: u64 = 0;

/// The mode of a host, with the highest number of a move that it has begun or staged.
#[derive(Drop)]
pub(crate) enum Mode<M: PagedMemory> {
    /// No guest is here.
    Empty {
        move_number: u64,
    },
    /// The guest runs, and no move is going on.
    Run {
        move_number: u64,
        guest: Debugged<M>,
    },
    /// The guest is here, and is being moved to another host.
    Leaving(Source<M>),
    /// The guest was committed to the target. What remains of it here is dropped only once the guest runs there:
    /// freeing much memory takes long, and the guest is paused until the target hears of the commit.
    Given {
        move_number: u64,
        remains: Source<M>,
    },
    /// The pages of another host's guest are arriving.
    Staging {
        move_number: u64,
        staging: Staging<M>,
    },
    /// The whole guest is here, paused until the source commits.
    Held {
        move_number: u64,
        guest: Debugged<M>,
    },
}

impl<M: PagedMemory + Drop> Mode<M> {
    /// Takes the mode out, and leaves `Empty` in its place.
    pub(crate) fn take(&mut self) -> Mode<M>
        ensures { result ≡ self.old }
    {
        mem::replace(self, Mode::Empty { move_number: 0 })
    }

    /// Changes to this mode.
    pub(crate) fn set(&mut self, mode: Mode<M>)
        ensures { self.new ≡ mode }
    {
        *self = mode;
    }

    /// The highest number of a move that the host has begun or staged.
    pub(crate) fn move_number(&self) -> u64
        ensures { result ≡ move_of (mode_of (plain_of self.now)) }
    {
        match self {
            Mode::Empty { move_number }
            | Mode::Run { move_number, .. }
            | Mode::Given { move_number, .. }
            | Mode::Staging { move_number, .. }
            | Mode::Held { move_number, .. } => *move_number,
            Mode::Leaving(source) => source.move_number(),
        }
    }

    /// Whether the guest runs here, and no move is going on.
    pub(crate) fn runs(&self) -> bool
        ensures { result ≡ runs (plain_of self.now) }
    {
        matches!(self, Mode::Run { .. })
    }

    /// The whole guest, if it is here: whether it runs, leaves, or waits for the source to commit.
    pub(crate) fn into_guest(self) -> Option<Debugged<M>>
        ensures { option_map (λ (g : GuestState). g.guest) result ≡ guest_in (mode_of (plain_of self)) }
    {
        match self {
            Mode::Run { guest, .. } | Mode::Held { guest, .. } => Some(guest),
            Mode::Leaving(source) => Some(source.into_guest()),
            Mode::Empty { .. } | Mode::Given { .. } | Mode::Staging { .. } => None,
        }
    }

    /// Changes to this mode, and makes the answer that is this refusal.
    pub(crate) fn stay(&mut self, mode: Mode<M>, why: HostRefusal) -> Answer
        ensures reply { result.0 ≡ HostReply.Refused why }
        ensures frame { result.1 ≡ None }
        ensures mode { self.new ≡ mode }
    {
        self.set(mode);
        HostReply::refused(why)
    }

    /// Applies a command. Does not check that the target of Begin is another host. If memory runs out, changes nothing.
    pub(crate) fn obey(
        &mut self,
        alloc: Global,
        version: u32,
        command: &Command,
    ) -> Result<Answer, AllocError>
        requires { HasNumber (plain_of self.old) }
        ensures answer { IfOk result (λ a. Answers version
            (obeying.obey board version (command_of command.now) (mode_of (plain_of self.old)))
            a (mode_of (plain_of self.new))) }
        ensures err { OnErr result (self.new ≡ self.old) }
        ensures memory { OnErr result (asks_memory (command_of command.now) ≡ true) }
        ensures refused { OnErr result (is_refused_outright (obeying.obey board version
            (command_of command.now) (mode_of (plain_of self.old))).reply ≡ false) }
        ensures sent { IfOk result (λ a. CanBeSent version
            (command_body version (plain_of self.old) (command_of command.now)) a.1) }
    {
        match command {
            Command::Board(event) => Ok(self.board(event).alone()),
            Command::Begin { policy, .. } => self.begin(alloc, *policy),
            Command::Copy => self.copy(alloc, version),
            Command::Resend => self.resend(alloc, version),
            Command::Abort => Ok(self.abort()),
        }
    }

    /// Applies a frame that comes. Does not check that the host hears its sender. If memory runs out, changes nothing.
    pub(crate) fn came(
        &mut self,
        alloc: Global,
        limit: u16,
        frame: &Frame,
    ) -> Result<Answer, AllocError>
        requires some { 1 ≤ limit }
        requires limit { limit ≤ 4096 }
        ensures answer { IfOk result (λ a. (version : ℕ) → Answers version
            (receiving.came board limit (plain board (frame_heard frame.now))
            (mode_of (plain_of self.old))) a (mode_of (plain_of self.new))) }
        ensures err { OnErr result (self.new ≡ self.old) }
        ensures memory { OnErr result (takes_memory (frame_heard frame.now) ≡ true) }
        ensures refused { OnErr result (is_refused_outright (receiving.came board limit
            (plain board (frame_heard frame.now)) (mode_of (plain_of self.old))).reply ≡ false) }
        ensures sent { IfOk result (λ a. (version : ℕ)
            → CanBeSent version (came_body (frame_heard frame.now)) a.1) }
    {
        if !can_come(frame) {
            return Ok(self.accepted(NO_MOVE).alone());
        }
        match frame {
            Frame::Hello { .. } => unreachable!(),
            Frame::Offer {
                move_number,
                pages,
                harts,
            } => self.offered(alloc, limit, *move_number, *pages, *harts),
            Frame::Accept { move_number } => Ok(self.accepted(*move_number).alone()),
            Frame::Refuse { move_number, limit } => Ok(self.declined(*move_number, *limit)),
            Frame::Page {
                move_number,
                page,
                copy_number,
                bytes,
            } => Ok(self.page(*move_number, *page, *copy_number, bytes).alone()),
            Frame::RoundEnd { move_number, .. } => Ok(self.round_ended(*move_number).alone()),
            Frame::Lost { move_number, pages } => Ok(
                self.lost(alloc, *move_number, pages.as_slice())?.alone(),
            ),
            Frame::State {
                move_number,
                copy_numbers,
                state,
            } => self.state(
                alloc,
                *move_number,
                copy_numbers.as_slice(),
                state.as_slice(),
            ),
            Frame::Ready { move_number } => Ok(self.ready(*move_number)),
            Frame::Go { move_number } => Ok(self.go(*move_number)),
            Frame::Started { move_number } => Ok(self.started(*move_number).alone()),
            Frame::Abort { move_number } => Ok(self.dropped(*move_number).alone()),
            Frame::Zero {
                move_number,
                page,
                copy_number,
            } => Ok(self.zero(*move_number, *page, *copy_number).alone()),
            Frame::Part {
                move_number,
                stamp,
                part,
                parts,
                bytes,
            } => self.part(alloc, *move_number, *stamp, *part, *parts, bytes),
        }
    }
}
