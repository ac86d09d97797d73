//! Why a world was not made.

ghost use Rattle.std.specs.Prelude.{◌≡◌};
ghost use Rattle.rvm_core.specs.Refusals.{refusal_of_world};

use rvm_refusal::Refusal;
use thiserror::Error;

/// Why a world was not made.
#[derive(Clone, Copy, Debug, PartialEq, Eq, Error)]
pub enum WorldError {
    /// There are fewer than 2 or more than 8 hosts, the limit of a host is not 1 to 4096 pages, or this many hosts
    /// cannot speak the version of the stream.
    #[error("hosts, their pages or the stream's version are outside limits")]
    BadSize,
    /// Memory ran out.
    #[error("out of memory")]
    OutOfMemory,
}

impl From<WorldError> for Refusal {
    ghost from_gives = { λ error told. told ≡ refusal_of_world error };

    fn from(error: WorldError) -> Refusal {
        match error {
            WorldError::BadSize => Refusal::BadSize,
            WorldError::OutOfMemory => Refusal::OutOfMemory,
        }
    }
}
