//! A host as events reached it from the one that its process began with.

ghost use Rattle.std.specs.Prelude.{◌≡◌, ◌-◌, ◌%◌, ◌^◌, ◌<◌, ◌≤◌, IfOk, IfSome, OnErr, None, is_some, true};
ghost use Rattle.rvm_station.specs.Events.{IsAnswer, IsMade};
ghost use Rattle.rvm_station.specs.Halts.{IsOfStep};
ghost use Rattle.rvm_station.specs.Logged.{made_in};
ghost use Rattle.rvm_station.specs.Looks.{HasLooked, IsShown};
ghost use Rattle.rvm_station.specs.Logs.{IsEmpty};
ghost use Rattle.rvm_host.specs.Hosts.{Steps};
ghost use Rattle.rvm_host.specs.Retiring.{HostRetires};
ghost use Rattle.rvm_host.specs.Statuses.{harts_of, status_of};
ghost use Rattle.rvm_message.specs.declared.event.HostEvent.TheVariants.{Came, Do};
ghost use Rattle.rvm_message.specs.Events.{event_of};
ghost use Rattle.rvm_message.specs.Exchanges.{dry_exchange, step_of_hart};
ghost use Rattle.rvm_message.specs.Steps.{reply_to_step};
ghost use Rattle.rvm_message.specs.declared.step.StepReply.TheVariants.{Stepped};

use crate::log::{EventLog, Meeting};
use crate::origin::{Of, Opening};
use rvm_board::{Retired, Snapshot};
use rvm_frame::{Addressed, Frame};
use rvm_host::{Host, HostStatus};
use rvm_link::Made;
use rvm_mem::PagedMemory;
use rvm_message::{Command, HostRefusal, HostReply, StepReply};
use rvm_refusal::LinkFault;
use std::alloc::{AllocError, Global};
use std::marker::{Model, PhantomData};

/// A host that events reached from the one that its process began with, and the log of these events.
#[derive(Drop)]
pub(crate) struct Reached<L: Opening, M: PagedMemory + Drop, J: EventLog + Drop> {
    host: Host<M>,
    log: J,
    hosting: PhantomData<L>,
}

impl<L: Opening, M: PagedMemory + Drop, J: EventLog + Drop> Model for Reached<L, M, J> {
    ghost use Rattle.rvm_host.specs.Hosts.{PlainHost};
    ghost use Rattle.rvm_station.specs.Logged.{IsLogged};

    ghost Value = { PlainHost };

    ghost view = { λ r. r.host };

    ghost invariant = { λ r. IsLogged (J.kept r.log) L.opening r.host };
}

impl<L: Opening, M: PagedMemory + Drop, J: EventLog + Drop> Reached<L, M, J> {
    /// The host that the process begins with, and a log that has kept nothing yet.
    #[tactic(auto, using(crate::proofs::Logged::at_first))]
    pub(crate) fn new(host: Host<M>, log: J) -> Reached<L, M, J>
        requires host { host ≡ L.opening }
        requires log { IsEmpty (J.kept log) }
        ensures { result ≡ host }
    {
        Reached {
            host,
            log,
            hosting: PhantomData,
        }
    }

    /// Gives the host a command, and keeps it. Returns the reply, and the frame that was made, if one was. If memory
    /// runs out, nothing has changed, and nothing is kept.
    #[tactic(auto, using(crate::proofs::Events::answered))]
    pub(crate) fn obey(
        &mut self,
        alloc: Global,
        command: &Command,
    ) -> Result<(HostReply, Option<Made<Of<L>>>), AllocError>
        ensures steps { IfOk result (λ a. Steps self.old (event_of (Do command.now)) a self.new) }
        ensures answer { IfOk result (λ a. IsAnswer L.opening (Do command.now) a.0) }
        ensures err { OnErr result (self.new ≡ self.old) }
    {
        let (reply, frame) = self.host.obey(alloc, command)?;
        self.log.command(command);
        Ok((reply, handed_out(frame)))
    }

    /// Gives the host a frame that came from host `from`, and keeps it. Returns the reply, and the frame that was made,
    /// if one was. If memory runs out, nothing has changed, and nothing is kept.
    #[tactic(auto, using(crate::proofs::Events::answered))]
    pub(crate) fn came(
        &mut self,
        alloc: Global,
        from: u8,
        frame: &Frame,
    ) -> Result<(HostReply, Option<Made<Of<L>>>), AllocError>
        ensures steps { IfOk result (λ a. Steps self.old (event_of (Came from frame.now)) a self.new) }
        ensures answer { IfOk result (λ a. IsAnswer L.opening (Came from frame.now) a.0) }
        ensures err { OnErr result (self.new ≡ self.old) }
    {
        let (reply, made) = self.host.came(alloc, from, frame)?;
        self.log.came(from, frame);
        Ok((reply, handed_out(made)))
    }

    /// Makes turn `turn` of this many harts by a step of hart `turn` modulo `harts`, and keeps it.
    #[tactic(auto, using(crate::proofs::Events::step_given))]
    pub(crate) fn step(&mut self, turn: u64, harts: u32) -> StepReply
        requires { 0 < harts }
        ensures steps { Steps self.old (event_of (step_of_hart (turn % harts))) (reply_to_step result, None) self.new }
        ensures given { IsOfStep (IsAnswer L.opening) (reply_to_step result) }
    {
        let reply = self.host.step((turn % u64::from(harts)) as u32);
        self.log.turns(turn, harts, 1);
        reply
    }

    /// Has this many harts step in turn, at most `count` times, from turn `turn` on, as long as each step retires an
    /// instruction; the first that does not is the last. It may make no step. Keeps the steps that were made.
    pub(crate) fn retire(&mut self, turn: u64, harts: u32, count: u32) -> Retired
        ensures steps { HostRetires harts turn count self.old self.new result }
        ensures given { IfSome result.last (λ s. IsOfStep (IsAnswer L.opening) (reply_to_step (Stepped s))) }
    {
        let retired = self.host.retire(turn, harts, count);
        self.log.turns(turn, harts, made_in(&retired));
        retired
    }

    /// Whether a drain of at most this many bytes finds none at a guest that runs here.
    pub(crate) fn finds_nothing(&self, count: u32) -> bool
        ensures { result ≡ true → Steps self.now (event_of (dry_exchange count).event)
            ((dry_exchange count).reply, None) self.now }
    {
        self.host.finds_nothing(count)
    }

    /// The number of harts of the guest that runs here or is leaving; none if there is no such guest.
    pub(crate) fn harts(&self) -> Option<u32>
        ensures count { result ≡ harts_of self.now.mode }
        ensures bound { IfSome result (λ n. (0 < n) × (n ≤ 8)) }
    {
        self.host.harts()
    }

    /// Keeps that another host was met.
    pub(crate) fn met(&mut self, meeting: Meeting)
        ensures { self.new ≡ self.old }
    {
        self.log.met(meeting);
    }

    /// Hands what was kept to whoever reads it. `LinkFault` if it is not all that happened.
    pub(crate) fn finish(&mut self) -> Result<(), LinkFault>
        ensures { self.new ≡ self.old }
    {
        self.log.finish()
    }

    /// The status of the host.
    pub(crate) fn status(&self) -> HostStatus
        ensures { result ≡ status_of self.now }
    {
        self.host.status()
    }

    /// All that the guest keeps beside its RAM, or why the host gives it no events.
    #[tactic(auto, using(crate::proofs::Events::shown))]
    pub(crate) fn snapshot(&self) -> Result<Snapshot, HostRefusal>
        ensures { HasLooked (IsShown L.opening) result }
    {
        self.host.snapshot()
    }
}

/// The number of steps that were made.
fn made_in(retired: &Retired) -> u32
    requires { is_some retired.now.last ≡ true → retired.now.count < 2 ^ 32 - 1 }
    ensures { result ≡ made_in retired.now }
{
    match retired.last {
        Some(_) => retired.count + 1,
        None => retired.count,
    }
}

/// The frame that the host made, if it made one, as one that is known to be made by it.
fn handed_out<L: Opening>(frame: Option<Addressed>) -> Option<Made<Of<L>>>
    requires { IfSome frame (IsMade L.opening) }
    ensures { result ≡ frame }
{
    match frame {
        None => None,
        Some(addressed) => Some(Made::new(addressed)),
    }
}
