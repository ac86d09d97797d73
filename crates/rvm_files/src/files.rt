//! The files that a command line names.

ghost use Rattle.std.specs.Prelude.{◌≡◌, ◌≢◌, ◌⊎◌, ◌<◌, ◌≤◌, ℕ, List, [], Option, None, IfErr, IfOk, IfSome, IsNone, OnOk, false, length};
ghost use Rattle.std.specs.IoError.{error_kind};
ghost use Rattle.std.specs.declared.io.ErrorKind.TheVariants as kind;
ghost use Rattle.rvm_files.specs.Files.{IsApart, IsCreated, IsFile, IsFileRefusal, IsFirst, IsLong, IsOpened, max_size};
ghost use Rattle.rvm_refusal.specs.declared.refusal.Refusal.TheVariants as refusal;

use crate::file_fault::FileFault;
use rvm_refusal::Refusal;
use std::alloc::Global;
use std::fs::{File, OpenOptions};
use std::io::{Error, ErrorKind, Read, Write};
use std::rt::Files;
use std::{fs, io};

/// The most bytes of a file that is read as a whole: an assembly text, an ELF file, the bytes for a console, and each
/// file of `host`. The limit of a script is its own, and is the same.
pub const MAX_FILE_SIZE: u32 = 1 << 26;

/// The most bytes of the file of a journal.
pub const MAX_JOURNAL_SIZE: u32 = 1 << 30;

/// Files that are opened by name, such as those of the machine.
pub trait NamedFiles {
    /// The bytes of the file with a name, if they are known.
    ghost bytes_of: { Self → List ℕ → Option (List ℕ) } = { λ _ _. None };

    /// What a file with a name holds when it is new or emptied, if that is known.
    ghost created_of: { Self → List ℕ → Option (List ℕ) } = { λ _ _. None };

    /// A file that is read.
    type Opened: Read + Drop;

    /// A file that is written.
    type Created: Write + Drop;

    /// Opens the file with a name, to read it from its beginning. `OutOfMemory` if memory runs out, else `LinkFault`.
    fn open(&self, path: &str) -> Result<Self::Opened, Refusal>
        ensures bytes { IfOk result (λ file. IsOpened (bytes_of self.now path.now) (Self.Opened.remaining file)) }
        ensures refused { IfErr result IsFileRefusal };

    /// Opens the file with a name, to read it from its beginning, if it keeps its bytes and may be read. Devices, pipes
    /// and terminals are not opened: opening one may block, and what is read from it is gone.
    fn open_kept(&self, path: &str) -> Option<Self::Opened>
        ensures bytes { IfSome result (λ file. IsOpened (bytes_of self.now path.now) (Self.Opened.remaining file)) }
        ensures none { IsNone result → bytes_of self.now path.now ≡ None };

    /// Why the file with a name cannot be opened for reading, if the system says so now. Devices, pipes and terminals are
    /// not opened.
    fn read_fault(&self, path: &str) -> Option<FileFault>
        ensures some { IfSome result (λ fault. bytes_of self.now path.now ≡ None) };

    /// Why the file with a name cannot be opened for writing, if the system says so now. Devices, pipes and terminals are
    /// not opened. A file that is there keeps its bytes; one that is not there is not made.
    fn write_fault(&self, path: &str) -> Option<FileFault>
        ensures some { IfSome result (λ fault. created_of self.now path.now ≡ None) };

    /// Why a file with a name cannot be made, if the system says so now. If it can be made, it is there, and is empty. A
    /// file that is there stays as it is.
    fn make_fault(&self, path: &str) -> Option<FileFault>
        ensures some { IfSome result (λ fault. created_of self.now path.now ≡ None) };

    /// Creates or empties the file with a name, to write it. `OutOfMemory` if memory runs out, else `LinkFault`.
    fn create(&self, path: &str) -> Result<Self::Created, Refusal>
        ensures named { IfOk result (λ file. IsCreated (created_of self.now path.now) (Self.Created.contents file)) }
        ensures refused { IfErr result IsFileRefusal };
}

/// The files of a runtime. Contracts know none of their bytes.
#[derive(Drop)]
pub struct HostFiles<'a, R> {
    rt: &'a R,
}

impl<'a, R> HostFiles<'a, R> {
    /// The files of this runtime.
    pub fn new(rt: &'a R) -> HostFiles<'a, R> {
        HostFiles { rt }
    }
}

impl<'a, R: Files> NamedFiles for HostFiles<'a, R> {
    type Opened = R::File;

    type Created = R::File;

    fn open(&self, path: &str) -> Result<R::File, Refusal> {
        File::open(self.rt, path).map_err(refusal_of)
    }

    fn open_kept(&self, path: &str) -> Option<R::File> {
        match fs::metadata(self.rt, path) {
            Ok(metadata) if metadata.is_file() => File::open(self.rt, path).ok(),
            _ => None,
        }
    }

    fn read_fault(&self, path: &str) -> Option<FileFault> {
        match fs::metadata(self.rt, path) {
            Ok(metadata) if metadata.is_dir() => Some(FileFault::IsADirectory),
            Ok(metadata) if metadata.is_file() => fault_of(File::open(self.rt, path)),
            Ok(_) => None,
            Err(error) => Some(FileFault::of(error.kind())),
        }
    }

    fn write_fault(&self, path: &str) -> Option<FileFault> {
        match fs::metadata(self.rt, path) {
            Ok(metadata) if metadata.is_dir() => Some(FileFault::IsADirectory),
            Ok(metadata) if metadata.is_file() => open_fault(self.rt, path),
            Ok(_) => None,
            Err(error) if error.kind() == ErrorKind::NotFound => directory_fault(self.rt, path),
            Err(error) => Some(FileFault::of(error.kind())),
        }
    }

    fn make_fault(&self, path: &str) -> Option<FileFault> {
        match File::create_new(self.rt, path) {
            Ok(_) => None,
            Err(error) if error.kind() == ErrorKind::AlreadyExists => None,
            Err(error) => Some(FileFault::of(error.kind())),
        }
    }

    fn create(&self, path: &str) -> Result<R::File, Refusal> {
        File::create(self.rt, path).map_err(refusal_of)
    }
}

/// Why a file was not opened, if it was not.
fn fault_of<T: Drop>(opened: io::Result<T>) -> Option<FileFault> {
    match opened {
        Ok(_) => None,
        Err(error) => Some(FileFault::of(error.kind())),
    }
}

/// Why a file that is there cannot be opened for writing, if it cannot. It keeps its bytes.
fn open_fault<R: Files>(rt: &R, path: &str) -> Option<FileFault> {
    fault_of(OpenOptions::new().write(true).open(rt, path))
}

/// Why a file that is not there cannot be made, if its directory is missing or is none.
fn directory_fault<R: Files>(rt: &R, path: &str) -> Option<FileFault> {
    match path.rsplit_once("/") {
        Some((directory, _name)) if !directory.is_empty() => fault_of_directory(rt, directory),
        _ => None,
    }
}

/// What is wrong with the directory in which a file is to be made, if something is.
fn fault_of_directory<R: Files>(rt: &R, directory: &str) -> Option<FileFault> {
    match fs::metadata(rt, directory) {
        Ok(metadata) if metadata.is_dir() => None,
        Ok(_) => Some(FileFault::NotADirectory),
        Err(error) if error.kind() == ErrorKind::NotFound => Some(FileFault::NoDirectory),
        Err(error) => Some(FileFault::of(error.kind())),
    }
}

/// All bytes of a file, at most `limit`. `OutOfMemory` if memory runs out, `LinkFault` if it cannot be opened or read,
/// and `long` if it has more bytes. At most `limit` + 1 bytes are read.
#[tactic(auto, using(crate::proofs::Reading::whole, crate::proofs::Reading::longer))]
pub fn read_file<F: NamedFiles>(
    files: &F,
    alloc: Global,
    path: &str,
    limit: u32,
    long: Refusal,
) -> Result<Vec<u8>, Refusal>
    ensures bytes { IfOk result (λ v. IsFile (F.bytes_of files.now path.now) v.items) }
    ensures few { IfOk result (λ v. length v.items ≤ limit) }
    ensures refused { IfErr result (λ r. IsFileRefusal r ⊎ IsLong (F.bytes_of files.now path.now) limit long r) }
{
    let bytes = read_beginning(files, alloc, path, u64::from(limit) + 1)?;
    within(&bytes, limit, long)?;
    Ok(bytes)
}

/// All bytes of a file, at most `MAX_FILE_SIZE`. Fails as `read_file` does, with `TooLong` if it has more bytes.
pub fn read_whole<F: NamedFiles>(files: &F, alloc: Global, path: &str) -> Result<Vec<u8>, Refusal>
    ensures bytes { IfOk result (λ v. IsFile (F.bytes_of files.now path.now) v.items) }
    ensures few { IfOk result (λ v. length v.items ≤ max_size) }
    ensures refused { IfErr result (λ r. IsFileRefusal r
        ⊎ IsLong (F.bytes_of files.now path.now) max_size refusal.TooLong r) }
{
    read_file(files, alloc, path, MAX_FILE_SIZE, Refusal::TooLong)
}

/// The first `count` bytes of a file, or all if it has no more. `OutOfMemory` if memory runs out, and `LinkFault` if
/// the file cannot be opened or read.
pub fn read_beginning<F: NamedFiles>(
    files: &F,
    alloc: Global,
    path: &str,
    count: u64,
) -> Result<Vec<u8>, Refusal>
    ensures bytes { IfOk result (λ v. IsFirst (F.bytes_of files.now path.now) count v.items) }
    ensures refused { IfErr result IsFileRefusal }
{
    read_first(alloc, &mut files.open(path)?, count)
}

/// The first `count` bytes that a reader gives, or all if it gives no more. `OutOfMemory` if memory runs out, and
/// `LinkFault` if a read fails.
pub(crate) fn read_first<R: Read>(
    alloc: Global,
    reader: &mut R,
    count: u64,
) -> Result<Vec<u8>, Refusal>
    ensures bytes { IfOk result (λ v. IsFirst (R.remaining reader.old) count v.items) }
    ensures refused { IfErr result IsFileRefusal }
{
    let mut bytes = Vec::new(alloc);
    let mut limited = reader.take(count);
    match limited.read_to_end(&mut bytes) {
        Ok(_) => Ok(bytes),
        Err(error) => Err(refusal_of(error)),
    }
}

/// Refuses with `long` if there are more than `limit` bytes.
pub(crate) fn within(bytes: &[u8], limit: u32, long: Refusal) -> Result<(), Refusal>
    ensures few { OnOk result (length bytes.now ≤ limit) }
    ensures many { IfErr result (λ r. (r ≡ long) × (limit < length bytes.now)) }
{
    if bytes.len() > limit as usize {
        return Err(long);
    }
    Ok(())
}

/// Whether a file keeps its bytes, may be read, and has exactly these bytes.
fn holds<F: NamedFiles>(files: &F, alloc: Global, path: &str, bytes: &[u8]) -> Result<bool, Refusal>
    ensures apart { IfOk result (λ same. same ≡ false → IsApart (F.bytes_of files.now path.now) bytes.now) }
    ensures refused { IfErr result IsFileRefusal }
{
    match files.open_kept(path) {
        Some(file) => gives(alloc, file, bytes),
        None => Ok(false),
    }
}

/// Refuses with `LinkFault` a file that is to be written and has exactly these bytes.
pub fn keep_apart<F: NamedFiles>(
    files: &F,
    alloc: Global,
    path: &str,
    bytes: &[u8],
) -> Result<(), Refusal>
    ensures apart { OnOk result (IsApart (F.bytes_of files.now path.now) bytes.now) }
    ensures refused { IfErr result IsFileRefusal }
{
    if holds(files, alloc, path, bytes)? {
        return Err(Refusal::LinkFault);
    }
    Ok(())
}

/// Refuses with `LinkFault` a file that is to be written and has exactly these bytes, which were read: it may be the file
/// that they were read from, under another name. A file without a byte has nothing to lose.
pub fn keep_read<F: NamedFiles>(
    files: &F,
    alloc: Global,
    path: &str,
    bytes: &[u8],
) -> Result<(), Refusal>
    ensures apart { OnOk result ((bytes.now ≡ []) ⊎ IsApart (F.bytes_of files.now path.now) bytes.now) }
    ensures refused { IfErr result IsFileRefusal }
{
    if bytes.is_empty() {
        return Ok(());
    }
    keep_apart(files, alloc, path, bytes)
}

/// Whether a reader gives these bytes, and nothing after them.
#[tactic(auto, using(crate::proofs::Reading::apart))]
fn gives<R: Read + Drop>(alloc: Global, mut reader: R, bytes: &[u8]) -> Result<bool, Refusal>
    ensures apart { IfOk result (λ same. same ≡ false → IsApart (R.remaining reader) bytes.now) }
    ensures refused { IfErr result IsFileRefusal }
{
    let given = read_first(alloc, &mut reader, bytes.len() as u64 + 1)?;
    Ok(are_same(&given, bytes))
}

/// Whether two runs of bytes are equal.
fn are_same(some: &[u8], others: &[u8]) -> bool
    ensures { result ≡ false → some.now ≡ others.now → ⊥ }
{
    some == others
}

/// The refusal for an error of the system: `OutOfMemory` if memory ran out, else `LinkFault`.
pub fn refusal_of(error: Error) -> Refusal
    ensures memory { error_kind error ≡ kind.OutOfMemory → result ≡ refusal.OutOfMemory }
    ensures others { error_kind error ≢ kind.OutOfMemory → result ≡ refusal.LinkFault }
    ensures either { IsFileRefusal result }
{
    if error.kind() == ErrorKind::OutOfMemory {
        Refusal::OutOfMemory
    } else {
        Refusal::LinkFault
    }
}
