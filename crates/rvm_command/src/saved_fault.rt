//! Why a guest was not saved, and why bytes are no saved guest.

ghost use Rattle.std.specs.Prelude.{◌≡◌};
ghost use Rattle.rvm_command.specs.SavedRefusals.{restore_refusal, save_refusal};
ghost use Rattle.rvm_command.specs.declared.saved_fault.SaveFault.TheVariants as saving;

use rvm_refusal::Refusal;
use std::alloc::AllocError;
use std::io;
use thiserror::Error;

/// Why a guest was not saved.
#[derive(Clone, Copy, Debug, PartialEq, Eq, Error)]
pub enum SaveFault {
    /// Memory ran out.
    #[error("out of memory")]
    OutOfMemory,
    /// A write failed.
    #[error("a read, a write or a link failed")]
    LinkFault,
}

/// Why bytes are no saved guest.
#[derive(Clone, Copy, Debug, PartialEq, Eq, Error)]
pub enum RestoreFault {
    /// Memory ran out.
    #[error("out of memory")]
    OutOfMemory,
    /// What comes next is no frame that may come there.
    #[error("no frame that may stand there")]
    BadFrame,
    /// The body of a frame is longer than its stream has it.
    #[error("the body is longer than a frame of the stream may have")]
    TooLong,
    /// The bytes end inside a frame, or before a guest runs.
    #[error("the bytes end before the guest does")]
    Truncated,
}

impl From<AllocError> for SaveFault {
    ghost from_gives = { λ _ fault. fault ≡ saving.OutOfMemory };

    fn from(_error: AllocError) -> SaveFault {
        SaveFault::OutOfMemory
    }
}

impl From<io::Error> for SaveFault {
    ghost from_gives = { λ _ fault. fault ≡ saving.LinkFault };

    fn from(_error: io::Error) -> SaveFault {
        SaveFault::LinkFault
    }
}

impl From<SaveFault> for Refusal {
    ghost from_gives = { λ fault told. told ≡ save_refusal fault };

    fn from(fault: SaveFault) -> Refusal {
        match fault {
            SaveFault::OutOfMemory => Refusal::OutOfMemory,
            SaveFault::LinkFault => Refusal::LinkFault,
        }
    }
}

impl From<RestoreFault> for Refusal {
    ghost from_gives = { λ fault told. told ≡ restore_refusal fault };

    fn from(fault: RestoreFault) -> Refusal {
        match fault {
            RestoreFault::OutOfMemory => Refusal::OutOfMemory,
            RestoreFault::BadFrame => Refusal::BadFrame,
            RestoreFault::TooLong => Refusal::TooLong,
            RestoreFault::Truncated => Refusal::Truncated,
        }
    }
}
