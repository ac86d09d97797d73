//! Why a greeting fails.

ghost use Rattle.std.specs.Prelude.{◌≡◌};
ghost use Rattle.rvm_link.specs.declared.greeting_fault.GreetingFault.TheVariants as fault;

use std::io;
use thiserror::Error;

/// Why a greeting failed.
#[derive(Clone, Copy, Debug, PartialEq, Eq, Error)]
pub enum GreetingFault {
    /// The connection failed or ended, or nothing arrived in time.
    #[error("the connection broke")]
    Broken,
    /// The bytes that arrived are no greeting.
    #[error("no greeting came")]
    NotGreeting,
    /// The greeting is to another host, from another host, or of a world with another number of hosts.
    #[error("the greeting is between other hosts")]
    OtherHosts,
    /// The other end does not know the secret.
    #[error("the other end does not know the secret")]
    WrongSecret,
    /// The other host is of another world.
    #[error("the other host is of another world")]
    OtherWorld,
    /// The process of the host with this number is not the one that was met before: what that one knew of the world is
    /// gone.
    #[error("host {0} began anew")]
    BeganAnew(u8),
}

impl From<io::Error> for GreetingFault {
    ghost from_gives = { λ _ told. told ≡ fault.Broken };

    fn from(_error: io::Error) -> GreetingFault {
        GreetingFault::Broken
    }
}
