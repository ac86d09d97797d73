//! Appending fields to a vector, in room that the caller made: no function takes memory, and the capacity does not
//! change.

ghost use Rattle.std.specs.Prelude.{◌≡◌, ◌+◌, ◌*◌, ◌≤◌, ◌++◌, length, vec_len, vec_capacity};
ghost use Rattle.std.specs.List.{flat_map};
ghost use Rattle.byteorder.specs.Endian.{little_bytes};
ghost use Rattle.rvm_codec.specs.Codec.{flag};

use byteorder::{ByteOrder, LittleEndian};
use std::mem;

/// Appends bytes, for which there must be room.
pub fn append_bytes(out: &mut Vec<u8>, bytes: &[u8])
    requires { vec_len out.old + length bytes.now ≤ vec_capacity out.old }
    ensures items { out.new.items ≡ out.old.items ++ bytes.now }
    ensures len { vec_len out.new ≡ vec_len out.old + length bytes.now }
    ensures capacity { vec_capacity out.new ≡ vec_capacity out.old }
{
    let none = Vec::new(*out.allocator());
    let before = mem::replace(out, none);
    *out = with_bytes(before, bytes);
}

/// Appends bytes to a vector, which it owns, so that the compiler copies them at once.
fn with_bytes(before: Vec<u8>, bytes: &[u8]) -> Vec<u8>
    requires { vec_len before + length bytes.now ≤ vec_capacity before }
    ensures items { result.items ≡ before.items ++ bytes.now }
    ensures len { vec_len result ≡ vec_len before + length bytes.now }
    ensures capacity { vec_capacity result ≡ vec_capacity before }
{
    let mut out = before;
    for byte in bytes {
        out.push_reserved(*byte);
    }
    out
}

/// Appends a byte, for which there must be room.
pub fn append_u8(out: &mut Vec<u8>, n: u8)
    requires { vec_len out.old + 1 ≤ vec_capacity out.old }
    ensures items { out.new.items ≡ out.old.items ++ little_bytes 1 n }
    ensures len { vec_len out.new ≡ vec_len out.old + 1 }
    ensures capacity { vec_capacity out.new ≡ vec_capacity out.old }
{
    append_bytes(out, &[n]);
}

/// Appends a flag as a byte, 0 or 1, for which there must be room.
pub fn append_flag(out: &mut Vec<u8>, is_set: bool)
    requires { vec_len out.old + 1 ≤ vec_capacity out.old }
    ensures items { out.new.items ≡ out.old.items ++ flag.write is_set }
    ensures len { vec_len out.new ≡ vec_len out.old + 1 }
    ensures capacity { vec_capacity out.new ≡ vec_capacity out.old }
{
    if is_set {
        append_u8(out, 1);
    } else {
        append_u8(out, 0);
    }
}

/// Appends a number of two bytes, for which there must be room.
pub fn append_u16(out: &mut Vec<u8>, n: u16)
    requires { vec_len out.old + 2 ≤ vec_capacity out.old }
    ensures items { out.new.items ≡ out.old.items ++ little_bytes 2 n }
    ensures len { vec_len out.new ≡ vec_len out.old + 2 }
    ensures capacity { vec_capacity out.new ≡ vec_capacity out.old }
{
    let mut bytes = [0u8; 2];
    LittleEndian::write_u16(&mut bytes, n);
    append_bytes(out, &bytes);
}

/// Appends a number of four bytes, for which there must be room.
pub fn append_u32(out: &mut Vec<u8>, n: u32)
    requires { vec_len out.old + 4 ≤ vec_capacity out.old }
    ensures items { out.new.items ≡ out.old.items ++ little_bytes 4 n }
    ensures len { vec_len out.new ≡ vec_len out.old + 4 }
    ensures capacity { vec_capacity out.new ≡ vec_capacity out.old }
{
    let mut bytes = [0u8; 4];
    LittleEndian::write_u32(&mut bytes, n);
    append_bytes(out, &bytes);
}

/// Appends a number of eight bytes, for which there must be room.
pub fn append_u64(out: &mut Vec<u8>, n: u64)
    requires { vec_len out.old + 8 ≤ vec_capacity out.old }
    ensures items { out.new.items ≡ out.old.items ++ little_bytes 8 n }
    ensures len { vec_len out.new ≡ vec_len out.old + 8 }
    ensures capacity { vec_capacity out.new ≡ vec_capacity out.old }
{
    let mut bytes = [0u8; 8];
    LittleEndian::write_u64(&mut bytes, n);
    append_bytes(out, &bytes);
}

/// Appends numbers of two bytes each, for which there must be room.
pub fn append_u16s(out: &mut Vec<u8>, numbers: &[u16])
    requires { vec_len out.old + 2 * length numbers.now ≤ vec_capacity out.old }
    ensures items { out.new.items ≡ out.old.items ++ flat_map (little_bytes 2) numbers.now }
    ensures len { vec_len out.new ≡ vec_len out.old + 2 * length numbers.now }
    ensures capacity { vec_capacity out.new ≡ vec_capacity out.old }
{
    for n in numbers {
        append_u16(out, *n);
    }
}

/// Appends numbers of four bytes each, for which there must be room.
pub fn append_u32s(out: &mut Vec<u8>, numbers: &[u32])
    requires { vec_len out.old + 4 * length numbers.now ≤ vec_capacity out.old }
    ensures items { out.new.items ≡ out.old.items ++ flat_map (little_bytes 4) numbers.now }
    ensures len { vec_len out.new ≡ vec_len out.old + 4 * length numbers.now }
    ensures capacity { vec_capacity out.new ≡ vec_capacity out.old }
{
    for n in numbers {
        append_u32(out, *n);
    }
}
