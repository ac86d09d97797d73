//! Why an event or a slice was not recorded.

ghost use Rattle.std.specs.Prelude.{◌≡◌};
ghost use Rattle.rvm_recorder.specs.Errors.{record_refusal, slice_refusal};

use rvm_refusal::Refusal;
use thiserror::Error;

/// Why an event was not recorded, or no room was made for more entries. Nothing changed.
#[derive(Clone, Copy, Debug, PartialEq, Eq, Error)]
pub enum RecordError {
    /// Memory ran out.
    #[error("out of memory")]
    OutOfMemory,
    /// The journal is full, or has fewer free places than were asked for; it takes this many entries.
    #[error("the journal takes no more than {0} entries")]
    RecorderFull(u32),
}

/// Why no step of a slice was recorded. Nothing changed.
#[derive(Clone, Copy, Debug, PartialEq, Eq, Error)]
pub enum SliceError {
    /// The number of steps is not 1 to 64, or the number of harts is not 1 to 8.
    #[error("a slice has 1 to 64 steps of 1 to 8 harts")]
    OutOfRange,
    /// Memory ran out.
    #[error("out of memory")]
    OutOfMemory,
    /// The journal is full; it takes this many entries.
    #[error("the journal takes no more than {0} entries")]
    RecorderFull(u32),
}

impl From<RecordError> for Refusal {
    ghost from_gives = { λ why told. told ≡ record_refusal why };

    fn from(why: RecordError) -> Refusal {
        match why {
            RecordError::OutOfMemory => Refusal::OutOfMemory,
            RecordError::RecorderFull(_) => Refusal::RecorderFull,
        }
    }
}

impl From<SliceError> for Refusal {
    ghost from_gives = { λ why told. told ≡ slice_refusal why };

    fn from(why: SliceError) -> Refusal {
        match why {
            SliceError::OutOfRange => Refusal::OutOfRange,
            SliceError::OutOfMemory => Refusal::OutOfMemory,
            SliceError::RecorderFull(_) => Refusal::RecorderFull,
        }
    }
}
