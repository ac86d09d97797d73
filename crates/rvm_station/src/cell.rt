//! A host under a lock.

ghost use Rattle.std.specs.Prelude.{◌≡◌, ◌≤◌, IfOk};
ghost use Rattle.rvm_station.specs.Events.{IsAnswer};
ghost use Rattle.rvm_station.specs.Halts.{HaltsSo};
ghost use Rattle.rvm_station.specs.Looks.{HasLooked, IsShown};
ghost use Rattle.rvm_station.specs.Logs.{IsEmpty};
ghost use Rattle.rvm_message.specs.declared.event.Command.TheVariants.{Copy};
ghost use Rattle.rvm_message.specs.declared.event.HostEvent.TheVariants.{Came, Do};

use crate::copies::copy_some;
use crate::log::{EventLog, Meeting};
use crate::origin::{Of, Opening};
use crate::reached::Reached;
use crate::turns::{Slice, make_slice};
use rvm_board::Snapshot;
use rvm_frame::Frame;
use rvm_host::{Host, HostStatus};
use rvm_link::Made;
use rvm_mem::PagedMemory;
use rvm_message::{Command, HostRefusal, HostReply};
use rvm_refusal::LinkFault;
use std::alloc::{AllocError, Global};
use std::sync::{Mutex, Wait};

/// A host under a lock, which several threads call, and the log of the events that happen at it. Each call may wait for
/// another thread.
#[derive(Drop)]
pub struct HostCell<L: Opening, M: PagedMemory + Drop, J: EventLog + Drop> {
    lock: Mutex<Reached<L, M, J>>,
}

impl<L: Opening, M: PagedMemory + Drop, J: EventLog + Drop> HostCell<L, M, J> {
    /// A cell with the host that its process begins with, and a log that has kept nothing yet.
    pub fn new(host: Host<M>, log: J) -> HostCell<L, M, J>
        requires host { host ≡ L.opening }
        requires log { IsEmpty (J.kept log) }
    {
        HostCell {
            lock: Mutex::new(Reached::new(host, log)),
        }
    }

    /// Gives the host a command. Returns the reply, and the frame that the host made, if it made one. If memory runs
    /// out, nothing has changed.
    pub fn obey<R: Wait>(
        &self,
        rt: &R,
        alloc: Global,
        command: &Command,
    ) -> Result<(HostReply, Option<Made<Of<L>>>), AllocError>
        ensures { IfOk result (λ a. IsAnswer L.opening (Do command.now) a.0) }
    {
        self.lock.lock(rt).obey(alloc, command)
    }

    /// Has the host make consecutive copies of pages under one hold of the lock: at least one and at most `most`, up to
    /// the first reply that is no copy. Returns the last reply, and the number of copies before it. Appends the frames
    /// that the host made to `made`. If memory runs out, the copies before have been made, and their frames are in
    /// `made`.
    pub fn copy<R: Wait>(
        &self,
        rt: &R,
        alloc: Global,
        most: u32,
        made: &mut Vec<Made<Of<L>>>,
    ) -> Result<(HostReply, u32), AllocError>
        ensures { IfOk result (λ a. IsAnswer L.opening (Do Copy) a.0) }
    {
        copy_some(&mut self.lock.lock(rt), alloc, most, made)
    }

    /// Gives the host a frame that came from host `from`. Returns the reply, and the frame that this host made, if it
    /// made one. If memory runs out, nothing has changed.
    pub fn came<R: Wait>(
        &self,
        rt: &R,
        alloc: Global,
        from: u8,
        frame: &Frame,
    ) -> Result<(HostReply, Option<Made<Of<L>>>), AllocError>
        ensures { IfOk result (λ a. IsAnswer L.opening (Came from frame.now) a.0) }
    {
        self.lock.lock(rt).came(alloc, from, frame)
    }

    /// Makes consecutive turns of the harts under one hold of the lock: at most `count`, from turn `turn` on.
    pub fn slice<R: Wait>(&self, rt: &R, turn: u64, count: u32) -> Slice
        ensures most { result.made ≤ count }
        ensures halted { HaltsSo (IsAnswer L.opening) result.then }
    {
        make_slice(&mut self.lock.lock(rt), turn, count)
    }

    /// Has the host's log keep that another host was met.
    pub fn met<R: Wait>(&self, rt: &R, meeting: Meeting) {
        self.lock.lock(rt).met(meeting);
    }

    /// Hands what was kept of the events at the host to whoever reads it. `LinkFault` if it is not all that happened.
    pub fn finish<R: Wait>(&self, rt: &R) -> Result<(), LinkFault> {
        self.lock.lock(rt).finish()
    }

    /// The status of the host at the time of the call.
    pub fn status<R: Wait>(&self, rt: &R) -> HostStatus {
        self.lock.lock(rt).status()
    }

    /// All that the guest keeps beside its RAM at the time of the call, or why the host gives it no events. The host
    /// stays as it is, and its log keeps nothing of the call.
    pub fn snapshot<R: Wait>(&self, rt: &R) -> Result<Snapshot, HostRefusal>
        ensures { HasLooked (IsShown L.opening) result }
    {
        self.lock.lock(rt).snapshot()
    }
}
