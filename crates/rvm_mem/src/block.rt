//! Numbers and pages in a block of bytes.

ghost use Rattle.std.specs.Prelude.{◌≡◌, ◌+◌, ◌*◌, ◌≤◌, length};
ghost use Rattle.rvm_mem.specs.Bytes.{store, replaced};
ghost use Rattle.rvm_mem.specs.Pages.{page_of};

use crate::memory::PAGE_SIZE;
use byteorder::{ByteOrder, LittleEndian};

/// Writes a number in two bytes at a place, the lower first.
#[inline(always)]
pub fn put16(bytes: &mut [u8], at: usize, value: u16)
    requires { at + 2 ≤ length bytes.old }
    ensures { bytes.new ≡ store 2 at value bytes.old }
{
    LittleEndian::write_u16(&mut bytes[at..at + 2], value);
}

/// Writes a number in four bytes at a place, the lowest first.
#[inline(always)]
pub fn put32(bytes: &mut [u8], at: usize, value: u32)
    requires { at + 4 ≤ length bytes.old }
    ensures { bytes.new ≡ store 4 at value bytes.old }
{
    LittleEndian::write_u32(&mut bytes[at..at + 4], value);
}

/// Writes bytes from a place on.
pub fn put_bytes(bytes: &mut [u8], at: usize, from: &[u8])
    requires { at + length from.now ≤ length bytes.old }
    ensures bytes { bytes.new ≡ replaced at from.now bytes.old }
    ensures length { length bytes.new ≡ length bytes.old }
{
    bytes[at..at + from.len()].copy_from_slice(from);
}

/// The bytes of a page in a block of whole pages.
pub fn page(bytes: &[u8], page: u32) -> &[u8; PAGE_SIZE as usize]
    requires { 4096 * page + 4096 ≤ length bytes.now }
    ensures { result.now ≡ page_of page bytes.now }
{
    let start = page as usize * PAGE_SIZE as usize;
    let part = &bytes[start..start + PAGE_SIZE as usize];
    let Ok(found) = <&[u8; PAGE_SIZE as usize]>::try_from(part) else {
        unreachable!();
    };
    found
}

/// Replaces a page in a block of whole pages.
pub fn put_page(bytes: &mut [u8], page: u32, from: &[u8; PAGE_SIZE as usize])
    requires { 4096 * page + 4096 ≤ length bytes.old }
    ensures { bytes.new ≡ replaced (4096 * page) from.now bytes.old }
{
    put_bytes(bytes, page as usize * PAGE_SIZE as usize, from);
}
