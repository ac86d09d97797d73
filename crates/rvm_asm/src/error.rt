//! Why a text has no image.

ghost use Rattle.std.specs.Prelude.{◌≡◌};
ghost use Rattle.rvm_asm.specs.Refusals.{error_at, refusal_of};

use crate::faults::{Fault, LineError};
use rvm_refusal::Refusal;
use std::alloc::AllocError;
use thiserror::Error;

/// Why a text has no image.
#[derive(Debug, Clone, Copy, PartialEq, Eq, Error)]
pub enum AsmError {
    /// Memory ran out.
    #[error("out of memory")]
    OutOfMemory,
    /// The line with this number, counted from 1, has this fault.
    #[error("line {0}: {1}")]
    Line(usize, Fault),
    /// No line has a fault, but all lines together have more than 2^24 bytes, in at most 16
    /// segments.
    #[error("more than 2^24 bytes")]
    TooLarge,
    /// No line has a fault, but all lines together have more than 2^24 bytes, in more than 16
    /// segments.
    #[error("more than 16 segments")]
    TooMany,
}

impl AsmError {
    /// The error of the line with this number.
    pub fn at(line: usize, error: LineError) -> AsmError
        ensures { result ≡ error_at line error }
    {
        match error {
            LineError::OutOfMemory => AsmError::OutOfMemory,
            LineError::Faulty(fault) => AsmError::Line(line, fault),
        }
    }
}

impl From<AllocError> for AsmError {
    ghost use Rattle.std.specs.Prelude.{◌≡◌};
    ghost use Rattle.rvm_asm.specs.declared.error.AsmError.TheVariants.{OutOfMemory};

    ghost from_gives = { λ _ e. e ≡ OutOfMemory };

    fn from(_error: AllocError) -> AsmError {
        AsmError::OutOfMemory
    }
}

impl From<AsmError> for Refusal {
    ghost from_gives = { λ error told. told ≡ refusal_of error };

    fn from(error: AsmError) -> Refusal {
        match error {
            AsmError::OutOfMemory => Refusal::OutOfMemory,
            AsmError::Line(_, fault) => Refusal::from(fault),
            AsmError::TooLarge => Refusal::OutOfReach,
            AsmError::TooMany => Refusal::TooMany,
        }
    }
}
