//! A thread's access to a host.

ghost use Rattle.std.specs.Prelude.{◌≤◌, ◌∷◌, [], List, Option, None, IfOk, OnErr};
ghost use Rattle.rvm_station.specs.Asked.{AreAllOf, AreAnswered, IsCopy, IsTurn};
ghost use Rattle.rvm_station.specs.Halts.{HaltsSo};
ghost use Rattle.rvm_station.specs.Looks.{HasLooked};
ghost use Rattle.rvm_message.specs.Exchanges.{PlainExchange, exchange};
ghost use Rattle.rvm_message.specs.declared.event.Command.TheVariants.{Copy};
ghost use Rattle.rvm_message.specs.declared.event.HostEvent.TheVariants.{Came, Do};

use crate::cell::HostCell;
use crate::log::{EventLog, Meeting};
use crate::origin::{Hosting, Of, Opening};
use crate::turns::Slice;
use rvm_board::Snapshot;
use rvm_frame::Frame;
use rvm_host::HostStatus;
use rvm_link::Made;
use rvm_mem::PagedMemory;
use rvm_message::{Command, HostRefusal, HostReply};
use std::alloc::{AllocError, Global};
use std::sync::Wait;

/// One thread's access to a host that others have access to as well. Each call may wait for another thread.
pub trait Access<L: Hosting> {
    /// What this access asked the host, in order, with its replies, if a list of that is kept.
    ghost asked: { Self → Option (List PlainExchange) } = { λ _. None };

    /// Gives the host a command. Returns the reply, and the frame that the host made, if it made one. If memory runs
    /// out, nothing has changed.
    fn obey(&mut self, command: &Command) -> Result<(HostReply, Option<Made<L>>), AllocError>
        ensures asked { IfOk result (λ a. AreAnswered L.gave (asked self.old) (asked self.new)
            (exchange (Do command.now) a.0 ∷ [])) }
        ensures err { OnErr result (AreAnswered L.gave (asked self.old) (asked self.new) []) };

    /// Has the host make consecutive copies of pages, with no other thread's call between them: at least one and at
    /// most `most`, up to the first reply that is no copy. Returns the last reply, and the number of copies before it.
    /// Appends the frames that the host made to `made`. If memory runs out, the copies before have been made, and their
    /// frames are in `made`.
    fn copy(&mut self, most: u32, made: &mut Vec<Made<L>>) -> Result<(HostReply, u32), AllocError>
        ensures asked { AreAllOf IsCopy L.gave (asked self.old) (asked self.new) }
        ensures last { IfOk result (λ a. L.gave (Do Copy) a.0) };

    /// Gives the host a frame that came from host `from`. Returns the reply, and the frame that this host made, if it
    /// made one. If memory runs out, nothing has changed.
    fn came(&mut self, from: u8, frame: &Frame) -> Result<(HostReply, Option<Made<L>>), AllocError>
        ensures asked { IfOk result (λ a. AreAnswered L.gave (asked self.old) (asked self.new)
            (exchange (Came from frame.now) a.0 ∷ [])) }
        ensures err { OnErr result (AreAnswered L.gave (asked self.old) (asked self.new) []) };

    /// Makes consecutive turns of the harts, with no other thread's call between them: at most `count`, from turn
    /// `turn` on. If the slice ends with a halted board, the host gave that reply to a step.
    fn slice(&mut self, turn: u64, count: u32) -> Slice
        ensures asked { AreAllOf IsTurn L.gave (asked self.old) (asked self.new) }
        ensures most { result.made ≤ count }
        ensures halted { HaltsSo L.gave result.then };

    /// Has the log of the host keep that another host was met, which is no event.
    fn met(&mut self, meeting: Meeting)
        ensures { AreAnswered L.gave (asked self.old) (asked self.new) [] };

    /// The status of the host at the time of the call.
    fn status(&self) -> HostStatus;

    /// All that the guest keeps beside its RAM at the time of the call, or why the host gives it no events. The host
    /// stays as it is, and its log keeps nothing of the call.
    fn snapshot(&self) -> Result<Snapshot, HostRefusal>
        ensures { HasLooked L.showed result };
}

/// A thread's access to a host under a lock. It keeps no list of what it asked.
#[derive(Drop)]
pub struct CellAccess<'c, L: Opening, M: PagedMemory + Drop, J: EventLog + Drop, R: Wait> {
    rt: &'c R,
    alloc: Global,
    cell: &'c HostCell<L, M, J>,
}

impl<'c, L: Opening, M: PagedMemory + Drop, J: EventLog + Drop, R: Wait> CellAccess<
    'c,
    L,
    M,
    J,
    R,
> {
    /// An access that has asked nothing.
    pub fn new(
        rt: &'c R,
        alloc: Global,
        cell: &'c HostCell<L, M, J>,
    ) -> CellAccess<'c, L, M, J, R> {
        CellAccess { rt, alloc, cell }
    }
}

impl<'c, L: Opening, M: PagedMemory + Drop, J: EventLog + Drop, R: Wait> Access<Of<L>>
    for CellAccess<'c, L, M, J, R> {
    fn obey(&mut self, command: &Command) -> Result<(HostReply, Option<Made<Of<L>>>), AllocError> {
        self.cell.obey(self.rt, self.alloc, command)
    }

    fn copy(
        &mut self,
        most: u32,
        made: &mut Vec<Made<Of<L>>>,
    ) -> Result<(HostReply, u32), AllocError> {
        self.cell.copy(self.rt, self.alloc, most, made)
    }

    fn came(
        &mut self,
        from: u8,
        frame: &Frame,
    ) -> Result<(HostReply, Option<Made<Of<L>>>), AllocError> {
        self.cell.came(self.rt, self.alloc, from, frame)
    }

    fn slice(&mut self, turn: u64, count: u32) -> Slice {
        self.cell.slice(self.rt, turn, count)
    }

    fn met(&mut self, meeting: Meeting) {
        self.cell.met(self.rt, meeting);
    }

    fn status(&self) -> HostStatus {
        self.cell.status(self.rt)
    }

    fn snapshot(&self) -> Result<Snapshot, HostRefusal> {
        self.cell.snapshot(self.rt)
    }
}
