//! What each end of a connection says first.

ghost use Rattle.std.specs.Prelude.{◌≡◌, ◌+◌, ◌≤◌, ◌++◌, length};
ghost use Rattle.rvm_link.specs.Openings.{answers, opening_bytes, role_number};

use crate::message::Message;

/// The name and the version of greetings.
pub(crate) const MAGIC: [u8; 8] = *b"rvmove1\n";

/// The role of an end: the connector made the connection, the acceptor accepted it.
#[derive(Clone, Copy, Debug, PartialEq, Eq)]
pub enum Role {
    Connector,
    Acceptor,
}

impl Role {
    /// The number that stands for this role in a proof.
    pub(crate) fn number(self) -> u8
        ensures { result ≡ role_number self }
    {
        match self {
            Role::Connector => 0,
            Role::Acceptor => 1,
        }
    }
}

/// What an end says first: who speaks, to which host, how many hosts their world has, and a nonce drawn at random for
/// this connection alone.
#[derive(Clone, Copy, Debug, PartialEq, Eq)]
pub struct Opening {
    pub from: u8,
    pub to: u8,
    pub hosts: u8,
    pub nonce: [u8; 32],
}

impl Opening {
    /// The message with the 43 bytes of this opening after it. Both together have at most 96 bytes.
    pub(crate) fn append_to(&self, message: Message) -> Message
        requires { length message + 43 ≤ 96 }
        ensures { result ≡ message ++ opening_bytes self.now }
    {
        message
            .with(&MAGIC)
            .with(&[self.from, self.to, self.hosts])
            .with(&self.nonce)
    }

    /// Whether another opening answers this one: it goes the opposite way between the same two hosts, and names as many
    /// hosts.
    pub fn is_answered_by(&self, other: &Opening) -> bool
        ensures { result ≡ answers self.now other.now }
    {
        other.from == self.to && other.to == self.from && other.hosts == self.hosts
    }
}
