//! The bytes of a frame, and whether they may wait.

ghost use Rattle.std.specs.Prelude.{◌≡◌, ◌≢◌, IfErr, OnOk};
ghost use Rattle.rvm_frame.specs.Grammar.{HasSpelling, sent, spelling};
ghost use Rattle.rvm_link.specs.Waiting.{may_wait};

use crate::error::SendError;
use rvm_frame::{Addressed, Frame, append_frame, frame_len, has_spelling};

/// Whether a frame may wait for the next one. The copy of a page may, since another frame always follows it.
pub fn may_wait(frame: &Frame) -> bool
    ensures { result ≡ may_wait frame.now }
{
    match frame {
        Frame::Page { .. } | Frame::Zero { .. } => true,
        _ => false,
    }
}

/// Replaces `bytes` by the bytes of a frame in a stream of this version. `BadFrame` if the frame has no spelling there,
/// `OutOfMemory` if an allocation fails.
pub fn spell(version: u32, addressed: &Addressed, bytes: &mut Vec<u8>) -> Result<(), SendError>
    ensures bytes { OnOk result (bytes.new.items ≡ spelling (sent version addressed.now)) }
    ensures fault { IfErr result (λ e. e ≡ SendError.BadFrame → HasSpelling (sent version addressed.now) → ⊥) }
    ensures unsent { IfErr result (λ e. e ≢ SendError.LinkFault) }
{
    if !has_spelling(version, addressed) {
        return Err(SendError::BadFrame);
    }
    bytes.clear();
    if bytes.reserve(frame_len(version, addressed)).is_err() {
        return Err(SendError::OutOfMemory);
    }
    append_frame(version, addressed, bytes);
    Ok(())
}
