//! How the workers of a move ended.

ghost use Rattle.std.specs.Prelude.{◌≡◌};
ghost use Rattle.rvm_move.specs.Ends.{failure, fails_copying, fails_hearing};

use rvm_cell::{TurnsEnd, WorkEnd};

/// How each worker of a move ended.
#[derive(Clone, Copy, Debug, PartialEq, Eq)]
pub struct Ends {
    pub harts: Result<TurnsEnd, WorkEnd>,
    pub copier: WorkEnd,
    pub receiver_a: WorkEnd,
    pub receiver_b: WorkEnd,
}

impl Ends {
    /// The first of these ends, in the order of the fields, with which the move fails; none if it succeeds. The turns
    /// must come to their end, and no worker may run out of memory, find its journal full, be stopped at its gate, or
    /// have no thread. A link that fails stops the move but not the guest: the copier fails with it only if its host
    /// had given up the guest.
    pub fn failure(&self) -> Option<WorkEnd>
        ensures { result ≡ failure self.now }
    {
        if let Err(end) = self.harts {
            return Some(end);
        }
        if fails_copying(self.copier) {
            return Some(self.copier);
        }
        if fails_hearing(self.receiver_a) {
            return Some(self.receiver_a);
        }
        if fails_hearing(self.receiver_b) {
            return Some(self.receiver_b);
        }
        None
    }
}

/// Whether the copier ended in another way than with the move, done or given up.
fn fails_copying(end: WorkEnd) -> bool
    ensures { result ≡ fails_copying end }
{
    match end {
        WorkEnd::Done | WorkEnd::GivenUp => false,
        _ => true,
    }
}

/// Whether a receiver ran out of memory, found its journal full, was stopped at its gate, or had no thread for the
/// workers that it was to hear.
fn fails_hearing(end: WorkEnd) -> bool
    ensures { result ≡ fails_hearing end }
{
    match end {
        WorkEnd::OutOfMemory | WorkEnd::RecorderFull(_) | WorkEnd::Stopped | WorkEnd::NoThread =>
            true,
        _ => false,
    }
}
