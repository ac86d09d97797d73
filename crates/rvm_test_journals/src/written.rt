//! Writes the journal of a recorded host as its process would have done.

use rvm_board::BoardEvent;
use rvm_journal::{Header, JournalWriter};
use rvm_message::{Command, Exchange, ExchangeRef, HostEvent};
use rvm_paged::PagedRam;
use rvm_recorder::{Item, ItemRef, Journal};
use rvm_station::{EventLog, Meeting};
use std::alloc::Global;
use std::io::Write;

/// The bytes of the file of a journal, with the host that was met first, if one was. If memory runs out, it is written
/// once more.
pub fn write_journal(
    alloc: Global,
    header: &Header,
    met: Option<Meeting>,
    journal: &Journal<PagedRam>,
) -> Option<Vec<u8>> {
    for _ in 0..2 {
        let mut bytes = Vec::new(alloc);
        if write_items(alloc, header, met, journal.items(), &mut bytes).is_some() {
            return Some(bytes);
        }
    }
    None
}

/// Writes the header, the line of the host that was met, if one was, and a line for each entry.
fn write_items(
    alloc: Global,
    header: &Header,
    met: Option<Meeting>,
    items: &[Item],
    bytes: &mut Vec<u8>,
) -> Option<()> {
    let mut writer = JournalWriter::new(alloc, bytes, header).ok()?;
    if let Some(meeting) = met {
        writer.met(meeting);
    }
    for item in items {
        write_item(&mut writer, item);
    }
    writer.finish().ok()
}

/// Writes the lines of an item.
fn write_item<W: Write + Drop>(writer: &mut JournalWriter<W>, item: &Item) {
    match item.look() {
        ItemRef::Entry(entry) => write_exchange(writer, entry.exchange()),
        ItemRef::Steps(steps) => writer.turns(steps.turn, steps.harts, steps.count),
        ItemRef::Rounds(_) => {}
    }
}

/// Writes the line of an entry.
fn write_exchange<W: Write + Drop>(writer: &mut JournalWriter<W>, exchange: &Exchange) {
    match exchange.look() {
        ExchangeRef::Step { .. } => writer.turns(0, 1, 1),
        ExchangeRef::Dry(count) => writer.command(&Command::Board(BoardEvent::Drain(count))),
        ExchangeRef::Copied { .. } => writer.command(&Command::Copy),
        ExchangeRef::Stored { from, frame, .. } => writer.came(from, frame.get()),
        ExchangeRef::Other { event, reply: _ } => write_event(writer, event),
    }
}

/// Writes the line of an event.
fn write_event<W: Write + Drop>(writer: &mut JournalWriter<W>, event: &HostEvent) {
    match event {
        HostEvent::Do(command) => writer.command(command),
        HostEvent::Came(from, frame) => writer.came(*from, frame.get()),
    }
}

/// Takes the last line of a file away.
pub fn cut(bytes: &mut Vec<u8>) -> Option<()> {
    let _feed = bytes.pop()?;
    for _ in 0..bytes.len() {
        if bytes.last() == Some(&b'\n') {
            return Some(());
        }
        let _byte = bytes.pop()?;
    }
    None
}

/// Changes the last bit of the line with this number, from 1.
pub fn damage(bytes: &mut Vec<u8>, line: usize) -> Option<()> {
    let mut left = line;
    for index in 1..bytes.len() {
        if bytes.get(index) == Some(&b'\n') {
            left = left.checked_sub(1)?;
            if left == 0 {
                let last = bytes.get_mut(index.checked_sub(1)?)?;
                *last ^= 1;
                return Some(());
            }
        }
    }
    None
}
