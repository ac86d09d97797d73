//! The digests of the lines of a journal.

ghost use Rattle.std.specs.Prelude.{◌≡◌, ◌++◌, codes};
ghost use Rattle.rvm_journal.specs.Told.{digest_after, mark, no_digest};

use hex::encode_to_slice;
use sha2::{Digest, Sha256};

/// How many bytes a line shows of its digest.
const SHOWN: usize = 8;

/// The length of what a line shows of its digest: two hexadecimal digits a byte, and a space.
pub(crate) const MARK: usize = 2 * SHOWN + 1;

/// The digest of a line and of all lines before it: the SHA-256 of the digest before the line and of its text.
#[derive(Clone, Copy, Debug, PartialEq, Eq)]
pub struct LineDigest {
    pub bytes: [u8; 32],
}

impl LineDigest {
    /// The digest before the first line.
    pub fn none() -> LineDigest
        ensures { result.bytes ≡ no_digest }
    {
        LineDigest { bytes: [0; 32] }
    }

    /// The digest after one more line with this text, which comes without its line feed.
    pub fn after(&self, text: &[u8]) -> LineDigest
        ensures { result.bytes ≡ digest_after self.now.bytes (text.now ++ codes "\n") }
    {
        let mut hasher = Sha256::new();
        hasher.update(self.bytes.as_slice());
        hasher.update(text);
        hasher.update(b"\n".as_slice());
        LineDigest {
            bytes: hasher.finalize(),
        }
    }

    /// What the line with this digest shows of it: sixteen hexadecimal digits and a space.
    pub fn mark(&self) -> [u8; MARK]
        ensures { result ≡ mark self.now.bytes }
    {
        let mut mark = [b' '; MARK];
        let digits = &mut mark[..2 * SHOWN];
        let fits = encode_to_slice(&self.bytes[..SHOWN], digits).is_ok();
        prove!(fits);
        mark
    }
}
