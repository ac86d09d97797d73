//! Why bytes made no guest.

ghost use Rattle.std.specs.Prelude.{◌≡◌};
ghost use Rattle.rvm_state.specs.Refusals.{refusal_of};

use rvm_refusal::Refusal;
use thiserror::Error;

/// Why bytes made no guest.
#[derive(Clone, Copy, Debug, PartialEq, Eq, Error)]
pub enum StateFault {
    /// The bytes are the encoding of no guest with a RAM of this size.
    #[error("the bytes spell no guest with a RAM of this size")]
    BadState,
    /// Memory ran out.
    #[error("out of memory")]
    OutOfMemory,
}

impl From<StateFault> for Refusal {
    ghost from_gives = { λ fault told. told ≡ refusal_of fault };

    fn from(fault: StateFault) -> Refusal {
        match fault {
            StateFault::BadState => Refusal::BadState,
            StateFault::OutOfMemory => Refusal::OutOfMemory,
        }
    }
}
