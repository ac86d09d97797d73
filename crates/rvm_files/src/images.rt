//! Reads the file of an image, at most one byte more than it may have.

ghost use Rattle.std.specs.Prelude.{◌≡◌, ◌⊎◌, ◌+◌, ◌<◌, ◌≤◌, IfErr, IfOk, OnOk, length};
ghost use Rattle.rvm_files.specs.Files.{IsFile, IsFileRefusal, IsFirst, IsLongImage, image_limit, long_image};

use crate::files::{MAX_FILE_SIZE, NamedFiles, read_beginning, read_file, within};
use rvm_arguments::GuestArguments;
use rvm_refusal::Refusal;
use std::alloc::Global;

/// The most bytes of the file of an image: the size of RAM if it is plain bytes, else `MAX_FILE_SIZE`.
pub(crate) fn image_limit(guest: &GuestArguments) -> u32
    ensures { result ≡ image_limit guest.now }
{
    let pages = guest.pages;
    if guest.raw {
        4096 * pages
    } else {
        MAX_FILE_SIZE
    }
}

/// The refusal of an image whose file has more bytes than it may have.
fn long_image(raw: bool) -> Refusal
    ensures { result ≡ long_image raw }
{
    if raw {
        Refusal::OutsideRam
    } else {
        Refusal::TooLong
    }
}

/// All bytes of the file of an image. `OutOfMemory` if memory runs out, `LinkFault` if it cannot be opened or read. If
/// it has more bytes than it may have, `OutsideRam` for plain bytes and `TooLong` for an ELF file.
pub fn read_image<F: NamedFiles>(
    files: &F,
    alloc: Global,
    guest: &GuestArguments,
) -> Result<Vec<u8>, Refusal>
    ensures bytes { IfOk result (λ v. IsFile (F.bytes_of files.now guest.now.image.now) v.items) }
    ensures refused { IfErr result (λ r. IsFileRefusal r ⊎ IsLongImage (F.bytes_of files.now) guest.now r) }
{
    read_file(
        files,
        alloc,
        guest.image,
        image_limit(guest),
        long_image(guest.raw),
    )
}

/// The first bytes of the file of an image: at most one more than it may have. `check_image` refuses the bytes if they
/// are too many, once the other files of the command are open, so that the refusal of one of those counts first.
pub fn begin_image<F: NamedFiles>(
    files: &F,
    alloc: Global,
    guest: &GuestArguments,
) -> Result<Vec<u8>, Refusal>
    ensures bytes { IfOk result (λ v. IsFirst (F.bytes_of files.now guest.now.image.now) (image_limit guest.now + 1) v.items) }
    ensures refused { IfErr result IsFileRefusal }
{
    read_beginning(files, alloc, guest.image, u64::from(image_limit(guest)) + 1)
}

/// Refuses an image whose file has more bytes than it may have: with `OutsideRam` for plain bytes, and with `TooLong`
/// for an ELF file.
pub fn check_image(guest: &GuestArguments, image: &[u8]) -> Result<(), Refusal>
    ensures few { OnOk result (length image.now ≤ image_limit guest.now) }
    ensures many { IfErr result (λ r. (r ≡ long_image guest.now.raw) × (image_limit guest.now < length image.now)) }
{
    within(image, image_limit(guest), long_image(guest.raw))
}
