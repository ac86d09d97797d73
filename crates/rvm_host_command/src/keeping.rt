//! The journal that a process keeps of its host.

ghost use Rattle.std.specs.Prelude.{IfOk};
ghost use Rattle.std.specs.Option.{option_and_then};
ghost use Rattle.rvm_station.specs.Logs.{IsEmpty};

use crate::fault::HostFault;
use rvm_board::Debugged;
use rvm_journal::{Header, Image, JournalWriter};
use rvm_mem::{Memory, PAGE_SIZE};
use rvm_refusal::LinkFault;
use std::alloc::Global;
use std::fs::File;
use std::io::Write;
use std::rt::Files;

/// Begins the journal of a host with its first line, if a file is named for one. What the file had is lost. Fails with
/// `NoJournal` if the file cannot be created or written.
pub(crate) fn begin_journal<R: Files>(
    rt: &R,
    alloc: Global,
    path: Option<&str>,
    header: &Header,
) -> Result<Option<JournalWriter<R::File>>, HostFault>
    ensures { IfOk result (λ log. IsEmpty (option_and_then (λ j. j) log)) }
{
    let Some(path) = path else {
        return Ok(None);
    };
    let Ok(file) = File::create(rt, path) else {
        return Err(HostFault::NoJournal);
    };
    match JournalWriter::new(alloc, file, header) {
        Ok(log) => Ok(Some(log)),
        Err(_) => Err(HostFault::NoJournal),
    }
}

/// The guest with which a host begins, as a journal names it: by its harts and pages, and the file that has it, which is
/// plain bytes if it is `raw`.
pub(crate) fn image_of<M: Memory + Drop>(raw: bool, bytes: &[u8], guest: &Debugged<M>) -> Image {
    let pages = guest.memory().len() / PAGE_SIZE;
    Image::of(raw, guest.harts(), pages, bytes)
}

/// Reports that not all events were kept, if it is so. What cannot be written is lost.
pub(crate) fn tell_kept<E: Write>(kept: Result<(), LinkFault>, errors: &mut E) {
    if kept.is_err() {
        let _untold = writeln!(
            errors,
            "the journal ended early: a line could not be written"
        );
    }
}
