//! The limits of a world's hosts, and the versions of the stream that they speak.

ghost use Rattle.std.specs.Prelude.{◌≡◌};
ghost use Rattle.rvm_host.specs.Hosts.{is_spoken, version_of};

use rvm_refusal::Refusal;
use thiserror::Error;

/// The most hosts of a world.
pub const MAX_HOSTS: usize = 8;

/// A number of a host is outside its limits: the number of hosts, the host's own number, the most pages that it takes,
/// or the version of its streams.
#[derive(Clone, Copy, Debug, PartialEq, Eq, Error)]
#[error("a number of a host is outside its limits")]
pub struct BadSize;

impl From<BadSize> for Refusal {
    ghost use Rattle.rvm_refusal.specs.declared.refusal.Refusal.TheVariants as refusal;

    ghost from_gives = { λ _ told. told ≡ refusal.BadSize };

    fn from(_error: BadSize) -> Refusal {
        Refusal::BadSize
    }
}

/// Whether `count` hosts can speak this version of the stream: there are 2 to 8 of them, and the version is 1, 2 or
/// 3 for two hosts and 3 for more.
pub fn is_spoken(version: u32, count: usize) -> bool
    ensures { result ≡ is_spoken version count }
{
    2 <= count && count <= MAX_HOSTS && (version == 3 || count == 2 && 1 <= version && version <= 2)
}

/// Returns the version of the stream that `count` hosts speak unless another one is asked for: 1 for two hosts, and
/// 3 for more.
pub fn version_of(count: usize) -> u32
    ensures { result ≡ version_of count }
{
    if count == 2 { 1 } else { 3 }
}
