//! What is kept of the events that happen at a host, for whoever reads them later.

ghost use Rattle.std.specs.Prelude.{◌∷◌, [], List, Option, None};
ghost use Rattle.rvm_station.specs.Logs.{KeepsOn, steps_from};
ghost use Rattle.rvm_message.specs.declared.event.HostEvent.{HostEvent};
ghost use Rattle.rvm_message.specs.declared.event.HostEvent.TheVariants.{Came, Do};

use rvm_frame::Frame;
use rvm_message::Command;
use rvm_refusal::LinkFault;

/// A host that was met, as its greeting told.
#[derive(Clone, Copy, Debug, PartialEq, Eq)]
pub struct Meeting {
    /// The number of the host, from 0.
    pub host: u8,
    /// The number that the host's process drew at its start.
    pub process: u64,
    /// The number of the world to which both hosts belong; 0 if neither knows it.
    pub world: u64,
}

/// Keeps the events that happen at a host, in their order.
pub trait EventLog {
    /// The events that were kept, oldest first; none if not all of them were, or if it is not known which.
    ghost kept: { Self → Option (List HostEvent) } = { λ _. None };

    /// Keeps a command that the host was given.
    fn command(&mut self, command: &Command)
        ensures { KeepsOn (kept self.old) (kept self.new) (Do command.now ∷ []) };

    /// Keeps a frame that came from host `from`.
    fn came(&mut self, from: u8, frame: &Frame)
        ensures { KeepsOn (kept self.old) (kept self.new) (Came from frame.now ∷ []) };

    /// Keeps `count` consecutive turns of this many harts, from turn `turn` on, which may be none: as many steps, of one
    /// hart after the other.
    fn turns(&mut self, turn: u64, harts: u32, count: u32)
        ensures { KeepsOn (kept self.old) (kept self.new) (steps_from turn harts count) };

    /// Keeps that another host was met, which is no event.
    fn met(&mut self, meeting: Meeting)
        ensures { KeepsOn (kept self.old) (kept self.new) [] };

    /// Hands what was kept to whoever reads it. `LinkFault` if it is not all that happened: from some event on nothing
    /// was kept, since it could not be.
    fn finish(&mut self) -> Result<(), LinkFault>
        ensures { KeepsOn (kept self.old) (kept self.new) [] };
}

/// Keeps nothing.
#[derive(Clone, Copy, Debug)]
pub struct NoLog;

impl EventLog for NoLog {
    fn command(&mut self, _command: &Command) {}

    fn came(&mut self, _from: u8, _frame: &Frame) {}

    fn turns(&mut self, _turn: u64, _harts: u32, _count: u32) {}

    fn met(&mut self, _meeting: Meeting) {}

    #[tactic(auto, using(crate::proofs::Logs::nothing_kept))]
    fn finish(&mut self) -> Result<(), LinkFault> {
        Ok(())
    }
}

/// A log, or none, which keeps nothing.
impl<J: EventLog> EventLog for Option<J> {
    ghost use Rattle.std.specs.Option.{option_and_then};

    ghost kept = { λ log. option_and_then J.kept log };

    fn command(&mut self, command: &Command) {
        if let Some(log) = self {
            log.command(command);
        }
    }

    fn came(&mut self, from: u8, frame: &Frame) {
        if let Some(log) = self {
            log.came(from, frame);
        }
    }

    fn turns(&mut self, turn: u64, harts: u32, count: u32) {
        if let Some(log) = self {
            log.turns(turn, harts, count);
        }
    }

    #[tactic(auto, using(crate::proofs::Logs::nothing_kept))]
    fn met(&mut self, meeting: Meeting) {
        if let Some(log) = self {
            log.met(meeting);
        }
    }

    #[tactic(auto, using(crate::proofs::Logs::nothing_kept))]
    fn finish(&mut self) -> Result<(), LinkFault> {
        match self {
            Some(log) => log.finish(),
            None => Ok(()),
        }
    }
}
