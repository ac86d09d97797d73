//! Why a file cannot be opened, read or written.

ghost use Rattle.std.specs.Prelude.{◌≡◌};
ghost use Rattle.rvm_files.specs.FileFaults.{file_fault, file_refusal, file_words};

use rvm_refusal::Refusal;
use std::io::ErrorKind;

/// Why a file cannot be opened, read or written.
#[derive(Clone, Copy, Debug, PartialEq, Eq)]
pub enum FileFault {
    /// There is no file of this name.
    Missing,
    /// The directory in which the file would be made is missing.
    NoDirectory,
    /// A part of the path before its last is no directory.
    NotADirectory,
    /// The name is that of a directory.
    IsADirectory,
    /// The system does not permit it.
    NotPermitted,
    /// The file system is read-only.
    ReadOnly,
    /// The system takes no such name: it is too long, or has a byte that no name may have.
    BadName,
    /// The disk is full.
    Full,
    /// Memory ran out while the file was read.
    OutOfMemory,
    /// The system refuses it for another reason.
    Other,
}

impl FileFault {
    /// The fault that an error of this kind stands for, if the file was to be read.
    pub fn of(kind: ErrorKind) -> FileFault
        ensures { result ≡ file_fault kind }
    {
        match kind {
            ErrorKind::NotFound => FileFault::Missing,
            ErrorKind::NotADirectory => FileFault::NotADirectory,
            ErrorKind::IsADirectory => FileFault::IsADirectory,
            ErrorKind::PermissionDenied => FileFault::NotPermitted,
            ErrorKind::ReadOnlyFilesystem => FileFault::ReadOnly,
            ErrorKind::InvalidFilename | ErrorKind::InvalidInput => FileFault::BadName,
            ErrorKind::StorageFull | ErrorKind::QuotaExceeded => FileFault::Full,
            ErrorKind::OutOfMemory => FileFault::OutOfMemory,
            _ => FileFault::Other,
        }
    }

    /// What the fault is called in a report.
    pub fn words(self) -> &'static str
        ensures { result.now ≡ file_words self }
    {
        match self {
            FileFault::Missing => "no such file",
            FileFault::NoDirectory => "the directory for it does not exist",
            FileFault::NotADirectory => "a part of its path is no directory",
            FileFault::IsADirectory => "this is a directory",
            FileFault::NotPermitted => "permission denied",
            FileFault::ReadOnly => "the file system is read-only",
            FileFault::BadName => "the system takes no such name",
            FileFault::Full => "the disk is full",
            FileFault::OutOfMemory => "there is no memory to read it",
            FileFault::Other => "the system cannot read or write it",
        }
    }

    /// The refusal of a command whose file has this fault.
    pub fn refusal(self) -> Refusal
        ensures { result ≡ file_refusal self }
    {
        match self {
            FileFault::OutOfMemory => Refusal::OutOfMemory,
            _ => Refusal::LinkFault,
        }
    }
}
