//! Whether a frame has a spelling.

ghost use Rattle.std.specs.Prelude.{◌≡◌, ◌↔◌, true};
ghost use Rattle.rvm_frame.specs.Grammar.{HasSpelling, known_at, sent};
ghost use Rattle.rvm_frame.specs.Kinds.{hosts_fit, names_hosts};
ghost use Rattle.rvm_frame.specs.Spelled.{is_spelled};

use crate::addressed::Addressed;
use crate::frame::Frame;
use crate::spelling_limits::{body_fits, is_short, move_fits};

/// Whether the header of a frame names hosts in a stream of this version.
fn names_hosts(version: u32, frame: &Frame) -> bool
    ensures { result ≡ names_hosts (known_at version frame.now) }
{
    match frame {
        Frame::Hello { .. } => false,
        _ => version == 3,
    }
}

/// Whether the header can name the hosts that a frame goes between, if it names hosts at all.
fn hosts_fit(version: u32, addressed: &Addressed) -> bool
    ensures { result ≡ hosts_fit (sent version addressed.now).0 }
{
    if names_hosts(version, &addressed.frame) {
        addressed.from < 8 && addressed.to < 8 && addressed.from != addressed.to
    } else {
        true
    }
}

/// Whether all values of a frame are within their limits, and its body is not too long.
fn is_spelled(version: u32, addressed: &Addressed) -> bool
    ensures { result ≡ is_spelled version addressed.now }
{
    hosts_fit(version, addressed)
        && move_fits(&addressed.frame)
        && body_fits(&addressed.frame)
        && is_short(&addressed.frame)
}

/// Whether a frame with its hosts has a spelling in streams of this version: its values are within their limits, and
/// its body has at most 32768 bytes. This does not say that a stream of this version may have a frame of its kind.
#[tactic(auto, using(crate::proofs::Exactly::spelled_exactly))]
pub fn has_spelling(version: u32, addressed: &Addressed) -> bool
    ensures { (result ≡ true) ↔ HasSpelling (sent version addressed.now) }
{
    is_spelled(version, addressed)
}
