//! Why a line can't be assembled.

ghost use Rattle.std.specs.Prelude.{◌≡◌};
ghost use Rattle.rvm_asm.specs.LineRefusals.{refusal_of_fault, refusal_of_line};
ghost use Rattle.rvm_asm.specs.declared.faults.LineError.TheVariants.{Faulty, OutOfMemory};

use rvm_refusal::Refusal;
use std::alloc::{AllocError, AllocFailed};
use thiserror::Error;

/// What is wrong with a line.
#[derive(Debug, Clone, Copy, PartialEq, Eq, Error)]
pub enum Fault {
    /// The line is not in the grammar.
    #[error("not in the grammar")]
    BadToken,
    /// A name has no value; or its value decides the place of the next line or the value of an `.equ`, and no earlier
    /// line gives it one.
    #[error("a name has no value")]
    UnknownName,
    /// A value is outside the range of its field, an instruction does not stand at a multiple of four, or a place is
    /// above 2^32.
    #[error("a value is out of reach")]
    OutOfReach,
    /// A name is given twice.
    #[error("a name is given twice")]
    Defined,
    /// A byte is placed twice.
    #[error("a byte is placed twice")]
    Overlap,
}

impl From<Fault> for Refusal {
    ghost from_gives = { λ fault told. told ≡ refusal_of_fault fault };

    fn from(fault: Fault) -> Refusal {
        match fault {
            Fault::BadToken => Refusal::BadToken,
            Fault::UnknownName => Refusal::UnknownName,
            Fault::OutOfReach => Refusal::OutOfReach,
            Fault::Defined => Refusal::Defined,
            Fault::Overlap => Refusal::Overlap,
        }
    }
}

/// Why a line has no bytes.
#[derive(Debug, Clone, Copy, PartialEq, Eq, Error)]
pub enum LineError {
    /// Memory ran out.
    #[error("out of memory")]
    OutOfMemory,
    /// The line has this fault.
    #[error("{0}")]
    Faulty(Fault),
}

impl From<LineError> for Refusal {
    ghost from_gives = { λ error told. told ≡ refusal_of_line error };

    fn from(error: LineError) -> Refusal {
        match error {
            LineError::OutOfMemory => Refusal::OutOfMemory,
            LineError::Faulty(fault) => Refusal::from(fault),
        }
    }
}

impl From<Fault> for LineError {
    ghost from_gives = { λ fault e. e ≡ Faulty fault };

    fn from(fault: Fault) -> LineError {
        LineError::Faulty(fault)
    }
}

impl From<AllocError> for LineError {
    ghost from_gives = { λ _ e. e ≡ OutOfMemory };

    fn from(_error: AllocError) -> LineError {
        LineError::OutOfMemory
    }
}

impl<T: Drop> From<AllocFailed<T>> for LineError {
    ghost from_gives = { λ _ e. e ≡ OutOfMemory };

    fn from(_error: AllocFailed<T>) -> LineError {
        LineError::OutOfMemory
    }
}
