//! Consecutive little-endian numbers in an array: a header, or the numbers at the front of a body.

ghost use Rattle.std.specs.Prelude.{◌≡◌, ◌+◌, ◌≤◌, ◌++◌, [], length};
ghost use Rattle.byteorder.specs.Endian.{little_bytes};

use arrayvec::ArrayVec;
use byteorder::{ByteOrder, LittleEndian};
use std::marker::Model;

/// Consecutive little-endian numbers, at most 15 bytes in all. Contracts see their bytes.
#[derive(Drop)]
pub struct Fields {
    bytes: ArrayVec<u8, 15>,
}

impl Model for Fields {
    ghost use Rattle.std.specs.Prelude.{List, ℕ};

    ghost Value = { List ℕ };

    ghost view = { λ s. s.bytes.items };
}

impl Fields {
    /// Fields without a number.
    pub(crate) fn new() -> Fields
        ensures { result ≡ [] }
    {
        Fields {
            bytes: ArrayVec::new(),
        }
    }

    /// These numbers, then the bytes of another one.
    fn with(mut self, bytes: &[u8]) -> Fields
        requires { length self + length bytes.now ≤ 15 }
        ensures { result ≡ self ++ bytes.now }
    {
        let done = self.bytes.try_extend_from_slice(bytes);
        let is_done = done.is_ok();
        prove!(is_done);
        self
    }

    /// These numbers, then a number of one byte.
    pub(crate) fn with_u8(self, n: u8) -> Fields
        requires { length self + 1 ≤ 15 }
        ensures { result ≡ self ++ little_bytes 1 n }
    {
        self.with(&[n])
    }

    /// These numbers, then a number of two bytes.
    pub(crate) fn with_u16(self, n: u16) -> Fields
        requires { length self + 2 ≤ 15 }
        ensures { result ≡ self ++ little_bytes 2 n }
    {
        let mut bytes = [0u8; 2];
        LittleEndian::write_u16(&mut bytes, n);
        self.with(&bytes)
    }

    /// These numbers, then a number of four bytes.
    pub(crate) fn with_u32(self, n: u32) -> Fields
        requires { length self + 4 ≤ 15 }
        ensures { result ≡ self ++ little_bytes 4 n }
    {
        let mut bytes = [0u8; 4];
        LittleEndian::write_u32(&mut bytes, n);
        self.with(&bytes)
    }

    /// These numbers, then a number of eight bytes.
    pub(crate) fn with_u64(self, n: u64) -> Fields
        requires { length self + 8 ≤ 15 }
        ensures { result ≡ self ++ little_bytes 8 n }
    {
        let mut bytes = [0u8; 8];
        LittleEndian::write_u64(&mut bytes, n);
        self.with(&bytes)
    }

    /// The bytes in order.
    pub(crate) fn as_slice(&self) -> &[u8]
        ensures value { result.now ≡ self.now }
        ensures small { length self.now ≤ 15 }
    {
        self.bytes.as_slice()
    }
}
