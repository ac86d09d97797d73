//! What has a host do events one after the other.

ghost use Rattle.std.specs.Prelude.{◌≡◌, ◌≤◌, ◌∷◌, [], IfErr, IfOk, OnErr, OnOk};
ghost use Rattle.rvm_recorder.specs.History.{Recording};
ghost use Rattle.rvm_station.specs.Logs.{steps_from};
ghost use Rattle.rvm_journal.specs.Recorders.{IsFull, Records};
ghost use Rattle.rvm_recorder.specs.Replay.{IsReplay};

use crate::replay_error::ReplayError;
use rvm_mem::PagedMemory;
use rvm_message::HostEvent;
use rvm_recorder::Recorded;
use std::alloc::Global;

/// A host that does events one after the other.
pub trait Recorder {
    /// What the host answered, and how many events it may be asked for.
    ghost recording: { Self → Recording };

    /// Has the host do an event. If it fails, nothing has changed.
    fn event(&mut self, alloc: Global, event: HostEvent) -> Result<(), ReplayError>
        ensures done { OnOk result (Records (recording self.old) (event ∷ []) (recording self.new)) }
        ensures err { OnErr result (recording self.new ≡ recording self.old) }
        ensures full { IfErr result (λ why. IsFull why (recording self.old)) };

    /// Has the harts of the host take turns, from turn `turn` on: at least one, and at most `most`. Returns how many they
    /// took. If it fails, nothing has changed.
    fn turns(&mut self, alloc: Global, turn: u32, harts: u32, most: u32) -> Result<u32, ReplayError>
        requires harts { 1 ≤ harts }
        requires some { 1 ≤ most }
        ensures done { IfOk result (λ made. Records (recording self.old) (steps_from turn harts made)
            (recording self.new)) }
        ensures made { IfOk result (λ made. (1 ≤ made) × (made ≤ most)) }
        ensures err { OnErr result (recording self.new ≡ recording self.old) }
        ensures full { IfErr result (λ why. IsFull why (recording self.old)) };

    /// Proves that each reply and each frame is the one that the protocol gives at its place.
    fn know_answers(&self)
        ensures { IsReplay (recording self.now).journal.opening (recording self.now).journal.entries };
}

impl<M: PagedMemory + Drop> Recorder for Recorded<M> {
    ghost recording = { λ r. r };

    #[tactic(auto, using(crate::proofs::Recorders::of_entry, crate::proofs::Recorders::is_full))]
    fn event(&mut self, alloc: Global, event: HostEvent) -> Result<(), ReplayError> {
        match self.record(alloc, event) {
            Ok(_) => Ok(()),
            Err((why, _)) => Err(ReplayError::from(why)),
        }
    }

    #[tactic(auto, using(crate::proofs::Recorders::of_turns, crate::proofs::Recorders::is_full))]
    fn turns(
        &mut self,
        alloc: Global,
        turn: u32,
        harts: u32,
        most: u32,
    ) -> Result<u32, ReplayError> {
        match self.record_turns(alloc, turn, harts, most) {
            Ok(made) => Ok(made),
            Err(why) => Err(ReplayError::from(why)),
        }
    }

    fn know_answers(&self) {
        self.journal().know_answers();
    }
}
