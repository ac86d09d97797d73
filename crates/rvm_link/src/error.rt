//! Why a frame was not sent.

ghost use Rattle.std.specs.Prelude.{◌≡◌};
ghost use Rattle.rvm_link.specs.Errors.{send_refusal};

use rvm_refusal::Refusal;
use thiserror::Error;

/// Why a frame was not sent.
#[derive(Clone, Copy, Debug, PartialEq, Eq, Error)]
pub enum SendError {
    /// Memory ran out.
    #[error("out of memory")]
    OutOfMemory,
    /// The link failed, now or before, or was closed.
    #[error("a read, a write or a link failed")]
    LinkFault,
    /// The frame has no spelling in this stream.
    #[error("the frame has no spelling in this stream")]
    BadFrame,
}

impl From<SendError> for Refusal {
    ghost from_gives = { λ why told. told ≡ send_refusal why };

    fn from(why: SendError) -> Refusal {
        match why {
            SendError::OutOfMemory => Refusal::OutOfMemory,
            SendError::LinkFault => Refusal::LinkFault,
            SendError::BadFrame => Refusal::BadFrame,
        }
    }
}
