//! Why two journals were not put in order.

ghost use Rattle.std.specs.Prelude.{◌≡◌};
ghost use Rattle.rvm_audit.specs.Errors.{audit_refusal};

use rvm_refusal::Refusal;
use std::alloc::AllocError;
use thiserror::Error;

/// Why two journals were not put in order.
#[derive(Clone, Copy, Debug, PartialEq, Eq, Error)]
pub enum AuditError {
    /// Memory ran out.
    #[error("out of memory")]
    OutOfMemory,
    /// There is no order: after the first `i` entries of the first journal and the first `j` of the second one, neither
    /// can go on.
    #[error("the journals have no order behind entries {i} and {j}")]
    NoOrder { i: usize, j: usize },
}

impl From<AllocError> for AuditError {
    ghost use Rattle.rvm_audit.specs.declared.error.AuditError.TheVariants.{OutOfMemory};

    ghost from_gives = { λ _ why. why ≡ OutOfMemory };

    fn from(_refused: AllocError) -> AuditError {
        AuditError::OutOfMemory
    }
}

impl From<AuditError> for Refusal {
    ghost from_gives = { λ why told. told ≡ audit_refusal why };

    fn from(why: AuditError) -> Refusal {
        match why {
            AuditError::OutOfMemory => Refusal::OutOfMemory,
            AuditError::NoOrder { .. } => Refusal::NoOrder,
        }
    }
}
