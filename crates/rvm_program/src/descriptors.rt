//! The descriptors of standard input, standard output and standard error.

ghost use Rattle.std.specs.Prelude.{IfErr};
ghost use Rattle.rvm_files.specs.Files.{IsFileRefusal};

use rvm_files::refusal_of;
use rvm_refusal::Refusal;
use std::fs::File;
use std::rt::Files;

/// The null device: a read of it gives no bytes.
const NULL_DEVICE: &str = "/dev/null";

/// The null device, opened three times for reading. A file or a connection gets the lowest free descriptor, so while
/// these three are open, no other gets 0, 1 or 2. A program that was started with one of these closed thus never writes
/// its output into a file or a connection of its own, and a write to the closed output fails.
#[derive(Drop)]
pub struct Descriptors<F: Drop> {
    _first: F,
    _second: F,
    _third: F,
}

/// Takes the descriptors 0, 1 and 2 so far as they are free. Refuses if the null device cannot be opened.
pub fn take_descriptors<R: Files>(rt: &R) -> Result<Descriptors<R::File>, Refusal>
    ensures refused { IfErr result IsFileRefusal }
{
    Ok(Descriptors {
        _first: open_null_device(rt)?,
        _second: open_null_device(rt)?,
        _third: open_null_device(rt)?,
    })
}

/// Opens the null device for reading.
fn open_null_device<R: Files>(rt: &R) -> Result<R::File, Refusal>
    ensures refused { IfErr result IsFileRefusal }
{
    match File::open(rt, NULL_DEVICE) {
        Ok(file) => Ok(file),
        Err(error) => Err(refusal_of(error)),
    }
}
