//! The error of a failed read or write.

ghost use Rattle.std.specs.Prelude.{◌≡◌};
ghost use Rattle.rvm_refusal.specs.declared.refusal.Refusal.TheVariants as refusal;

use crate::refusal::Refusal;
use std::io;
use thiserror::Error;

/// A read, a write or a link failed. After a failed write, any part of the bytes may have been written.
#[derive(Clone, Copy, Debug, PartialEq, Eq, Error)]
#[error("a read, a write or a link failed")]
pub struct LinkFault;

impl From<io::Error> for LinkFault {
    fn from(_error: io::Error) -> LinkFault {
        LinkFault
    }
}

impl From<LinkFault> for Refusal {
    ghost from_gives = { λ _ told. told ≡ refusal.LinkFault };

    fn from(_fault: LinkFault) -> Refusal {
        Refusal::LinkFault
    }
}
