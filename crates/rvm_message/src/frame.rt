//! Frames that come to a host.

ghost use Rattle.std.specs.Prelude.{◌≡◌};
ghost use Rattle.rvm_message.specs.Frames.{can_come};

use rvm_frame::Frame;

/// Whether a frame can come to a host: it has a move number, an offer is of at least one page, and a piece of a state
/// is one of at most six. After Hello, a stream has only such frames.
pub fn can_come(frame: &Frame) -> bool
    ensures { result ≡ can_come frame.now }
{
    0 < frame.move_number()
        && match frame {
            Frame::Offer { pages, .. } => 0 < *pages,
            Frame::Part { parts, .. } => *parts <= 6,
            _ => true,
        }
}
