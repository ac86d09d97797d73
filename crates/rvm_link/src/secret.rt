//! The secret of a world.

ghost use Rattle.std.specs.Prelude.{◌≡◌, ◌≤◌, ◌++◌, drop, length};
ghost use Rattle.rvm_link.specs.Hmac.{block_of, code_with, padded, zero_padded};
ghost use Rattle.rvm_link.specs.Openings.{message, message_by, proof_by};

use crate::message::Message;
use crate::opening::{Opening, Role};
use arrayvec::ArrayVec;
use sha2::{Digest, Sha256};
use std::marker::Model;

/// The length of a block of SHA-256, in bytes.
const BLOCK: usize = 64;

/// A secret that all hosts of a world know, and nobody else. Contracts see it as a key block of HMAC-SHA-256 (RFC
/// 2104).
#[derive(Drop)]
pub struct Secret {
    block: [u8; BLOCK],
}

impl Model for Secret {
    ghost use Rattle.std.specs.Prelude.{List, ℕ};

    ghost Value = { List ℕ };

    ghost view = { λ s. s.block };
}

impl Secret {
    /// The secret with these bytes, of any number.
    pub fn new(bytes: &[u8]) -> Secret
        ensures { result ≡ block_of bytes.now }
    {
        if bytes.len() > BLOCK {
            let digest = Sha256::digest(bytes);
            return Secret {
                block: zero_padded(&digest),
            };
        }
        Secret {
            block: zero_padded(bytes),
        }
    }

    /// The proof that the end with this role, whose opening is `own`, knows the secret: the HMAC of its role and of
    /// both openings.
    pub fn proof(&self, role: Role, own: &Opening, other: &Opening) -> [u8; 32]
        ensures { result ≡ proof_by self.now role own.now other.now }
    {
        self.code(message_by(role, own, other).as_slice())
    }

    /// The HMAC of a message under this secret.
    fn code(&self, message: &[u8]) -> [u8; 32]
        ensures { result ≡ code_with self.now message.now }
    {
        let mut inner = Sha256::new();
        inner.update(padded(&self.block, 0x36).as_slice());
        inner.update(message);
        let digest = inner.finalize();
        let mut outer = Sha256::new();
        outer.update(padded(&self.block, 0x5C).as_slice());
        outer.update(digest.as_slice());
        outer.finalize()
    }
}

/// The message that the end with a role proves, from its own opening and the other end's.
fn message_by(role: Role, own: &Opening, other: &Opening) -> Message
    ensures { result ≡ message_by role own.now other.now }
{
    match role {
        Role::Connector => message(role, own, other),
        Role::Acceptor => message(role, other, own),
    }
}

/// The message whose HMAC proves that the end with a role knows the secret: the role, the connector's opening, the
/// acceptor's opening.
fn message(role: Role, connector: &Opening, acceptor: &Opening) -> Message
    ensures { result ≡ message role connector.now acceptor.now }
{
    let message = Message::new().with(&[role.number()]);
    acceptor.append_to(connector.append_to(message))
}

/// The block with these bytes, at most 64, and zeros after them.
#[tactic(auto, using(crate::proofs::GreetingPieces::zeros_left))]
fn zero_padded(bytes: &[u8]) -> [u8; BLOCK]
    requires { length bytes.now ≤ 64 }
    ensures { result ≡ zero_padded bytes.now }
{
    let mut block = [0u8; BLOCK];
    put_front(&mut block, bytes);
    block
}

/// Overwrites the first bytes of a block with these, at most 64.
fn put_front(block: &mut [u8; BLOCK], bytes: &[u8])
    requires { length bytes.now ≤ 64 }
    ensures { block.new ≡ bytes.now ++ drop (length bytes.now) block.old }
{
    block[..bytes.len()].copy_from_slice(bytes);
}

/// The bytes of a block, each combined with a pad by exclusive or.
fn padded(block: &[u8; BLOCK], pad: u8) -> ArrayVec<u8, BLOCK>
    ensures { result.items ≡ padded block.now pad }
{
    let mut out = ArrayVec::new();
    for byte in block {
        out.push(*byte ^ pad);
    }
    out
}
