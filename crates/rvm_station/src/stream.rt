//! Which frames of a stream come to a host.

ghost use Rattle.std.specs.Prelude.{◌≡◌, ◌∷◌, [], true, false};
ghost use Rattle.rvm_station.specs.Streams.{for_host, is_between};

use rvm_frame::Frame;

/// Whether a frame that names these hosts, or none, may go from host `from` to host `to`.
pub fn is_between(from: u8, to: u8, hosts: Option<(u8, u8)>) -> bool
    ensures { result ≡ is_between from to hosts }
{
    match hosts {
        None => true,
        Some(hosts) => hosts.0 == from && hosts.1 == to,
    }
}

/// Whether a frame is Hello, which begins a stream and does not come to the host.
pub fn is_hello(frame: &Frame) -> bool
    ensures yes { result ≡ true → for_host frame.now ≡ [] }
    ensures no { result ≡ false → for_host frame.now ≡ frame.now ∷ [] }
{
    match frame {
        Frame::Hello { .. } => true,
        _ => false,
    }
}
