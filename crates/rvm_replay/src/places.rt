//! How far the journals of hosts are in order, in lines.

ghost use Rattle.std.specs.Prelude.{◌≡◌, ◌≤◌, OnOk, length};
ghost use Rattle.std.specs.Io.KnownBytes.{Appends};
ghost use Rattle.rvm_audit.specs.Parts.{taken};
ghost use Rattle.rvm_journal.specs.Headers.{header_at};
ghost use Rattle.rvm_replay.specs.Audited.{is_wanted};
ghost use Rattle.rvm_replay.specs.PlaceLines.{journal_name, place_line, place_lines, place_text};
ghost use Rattle.rvm_replay.specs.declared.headers.Wanted.TheVariants.{OfHost};

use crate::file::ReadFile;
use crate::headers::{Wanted, is_wanted};
use rvm_audit::Place;
use rvm_refusal::LinkFault;
use std::io::Write;

/// Reports for each host how many events of its journal are in order, of those that it has.
pub(crate) fn write_places<E: Write>(
    files: &[ReadFile<'_>],
    places: &[Place],
    counts: &[u64],
    errors: &mut E,
) -> Result<(), LinkFault>
    requires { length counts.now ≤ 8 }
    ensures { OnOk result (Appends (E.contents errors.old) (E.contents errors.new)
        (place_lines files.now (taken places.now) 0 counts.now)) }
{
    for host in 0..counts.len() {
        let place = taken(places, host);
        write_place(files, host as u8, place, counts[host], errors)?;
    }
    Ok(())
}

/// How many events of the journal of a host were taken.
fn taken(places: &[Place], host: usize) -> usize
    ensures { result ≡ taken places.now host }
{
    match places.get(host) {
        Some(place) => place.entries,
        None => 0,
    }
}

/// Reports how many events of the journal of a host are in order, of these.
fn write_place<E: Write>(
    files: &[ReadFile<'_>],
    host: u8,
    place: usize,
    count: u64,
    errors: &mut E,
) -> Result<(), LinkFault>
    requires { host ≤ 8 }
    ensures { OnOk result (Appends (E.contents errors.old) (E.contents errors.new)
        (place_line files.now host place count)) }
{
    let name = journal_name(files, host);
    let letter = [b'A' + host];
    errors.write_all(&letter)?;
    write_text(place, count, name, errors)
}

/// Writes how many events of the journal in a file are in order, and that it has `count`.
fn write_text<E: Write>(
    place: usize,
    count: u64,
    name: &str,
    errors: &mut E,
) -> Result<(), LinkFault>
    ensures { OnOk result (Appends (E.contents errors.old) (E.contents errors.new) (place_text place count name.now)) }
{
    writeln!(errors, ": {place} of {count} events in order ({name})")?;
    Ok(())
}

/// The name of the file of a host's journal.
fn journal_name<'a>(files: &[ReadFile<'a>], host: u8) -> &'a str
    ensures { result.now ≡ journal_name host files.now }
{
    for file in files {
        if is_of(file, host) {
            return file.name();
        }
    }
    "no journal"
}

/// Whether a journal is that of a host.
pub(crate) fn is_of(file: &ReadFile<'_>, host: u8) -> bool
    ensures { result ≡ is_wanted (OfHost host) (header_at file.now.text) }
{
    is_wanted(Wanted::OfHost(host), &file.journal().header())
}
