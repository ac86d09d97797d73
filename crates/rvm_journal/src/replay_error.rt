//! Why an event was not done again.

ghost use Rattle.std.specs.Prelude.{◌≡◌};
ghost use Rattle.rvm_journal.specs.Recorders.{replay_error};

use rvm_recorder::RecordError;
use std::alloc::AllocError;
use thiserror::Error;

/// Why an event was not done again. Nothing changed.
#[derive(Clone, Copy, Debug, PartialEq, Eq, Error)]
pub enum ReplayError {
    /// Memory ran out.
    #[error("out of memory")]
    OutOfMemory,
    /// There are more events than this, and no more can be counted.
    #[error("more than {0} events")]
    TooMany(u64),
}

impl From<AllocError> for ReplayError {
    ghost use Rattle.rvm_journal.specs.declared.replay_error.ReplayError.TheVariants.{OutOfMemory};

    ghost from_gives = { λ _ why. why ≡ OutOfMemory };

    fn from(_refused: AllocError) -> ReplayError {
        ReplayError::OutOfMemory
    }
}

impl From<RecordError> for ReplayError {
    ghost from_gives = { λ why told. told ≡ replay_error why };

    fn from(why: RecordError) -> ReplayError {
        match why {
            RecordError::OutOfMemory => ReplayError::OutOfMemory,
            RecordError::RecorderFull(most) => ReplayError::TooMany(u64::from(most)),
        }
    }
}
