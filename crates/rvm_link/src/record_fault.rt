//! Why no record was read.

ghost use Rattle.std.specs.Prelude.{◌≡◌};
ghost use Rattle.rvm_link.specs.declared.record_fault.RecordFault.TheVariants as fault;

use std::io;
use thiserror::Error;

/// Why no record was read.
#[derive(Clone, Copy, Debug, PartialEq, Eq, Error)]
pub enum RecordFault {
    /// The connection failed or ended, or nothing came in time.
    #[error("the connection broke")]
    Broken,
    /// The bytes that came are no record.
    #[error("no record came")]
    NotRecord,
}

impl From<io::Error> for RecordFault {
    ghost from_gives = { λ _ told. told ≡ fault.Broken };

    fn from(_error: io::Error) -> RecordFault {
        RecordFault::Broken
    }
}
