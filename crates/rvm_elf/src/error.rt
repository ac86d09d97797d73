//! Why a file has no image, and why an image has no file.

ghost use Rattle.std.specs.Prelude.{◌≡◌};
ghost use Rattle.rvm_elf.specs.Refusals.{refusal_of_file, refusal_of_image};
ghost use Rattle.rvm_elf.specs.declared.error.ReadError.TheVariants as read;
ghost use Rattle.rvm_elf.specs.declared.error.WriteError.TheVariants as write;

use rvm_refusal::Refusal;
use std::alloc::AllocError;
use thiserror::Error;

/// Why a file has no image.
#[derive(Clone, Copy, Debug, PartialEq, Eq, Error)]
pub enum ReadError {
    /// Memory ran out.
    #[error("out of memory")]
    OutOfMemory,
    /// The file does not begin with the four magic bytes.
    #[error("not an ELF file")]
    BadMagic,
    /// The file is no executable for 32-bit RISC-V, or a program header names more bytes in the file than in memory.
    #[error("not an executable for 32-bit RISC-V")]
    NotRiscV32,
    /// The file ends before its headers, or before the bytes that they name.
    #[error("the file is cut short")]
    Truncated,
    /// There are more than 16 program headers.
    #[error("more than 16 program headers")]
    TooMany,
}

impl From<AllocError> for ReadError {
    ghost from_gives = { λ _ error. error ≡ read.OutOfMemory };

    fn from(_error: AllocError) -> ReadError {
        ReadError::OutOfMemory
    }
}

impl From<ReadError> for Refusal {
    ghost from_gives = { λ error told. told ≡ refusal_of_file error };

    fn from(error: ReadError) -> Refusal {
        match error {
            ReadError::OutOfMemory => Refusal::OutOfMemory,
            ReadError::BadMagic => Refusal::BadMagic,
            ReadError::NotRiscV32 => Refusal::NotRiscV32,
            ReadError::Truncated => Refusal::Truncated,
            ReadError::TooMany => Refusal::TooMany,
        }
    }
}

/// Why an image has no file.
#[derive(Clone, Copy, Debug, PartialEq, Eq, Error)]
pub enum WriteError {
    /// Memory ran out.
    #[error("out of memory")]
    OutOfMemory,
    /// There are more than 16 segments.
    #[error("more than 16 segments")]
    TooMany,
    /// The segments together have more than 2^24 bytes, or the bytes and zeros of one segment are 2^32 or more.
    #[error("a segment is too large for a file")]
    OutOfReach,
}

impl From<AllocError> for WriteError {
    ghost from_gives = { λ _ error. error ≡ write.OutOfMemory };

    fn from(_error: AllocError) -> WriteError {
        WriteError::OutOfMemory
    }
}

impl From<WriteError> for Refusal {
    ghost from_gives = { λ error told. told ≡ refusal_of_image error };

    fn from(error: WriteError) -> Refusal {
        match error {
            WriteError::OutOfMemory => Refusal::OutOfMemory,
            WriteError::TooMany => Refusal::TooMany,
            WriteError::OutOfReach => Refusal::OutOfReach,
        }
    }
}
