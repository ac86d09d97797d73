//! What the guest of a host sent, by its journal.

ghost use Rattle.std.specs.Prelude.{◌≡◌, OnOk};
ghost use Rattle.std.specs.Io.KnownBytes.{Appends};
ghost use Rattle.rvm_message.specs.Taken.{bytes_in, taken_by};
ghost use Rattle.rvm_replay.specs.Consoles.{console_of, taken_in};
ghost use Rattle.rvm_recorder.specs.Items.{all_of};

use rvm_audit::Observer;
use rvm_board::{BoardEvent, BoardReply};
use rvm_message::{Command, ExchangeRef, HostEvent, HostReply};
use rvm_recorder::{Entry, Item, ItemRef};
use rvm_refusal::LinkFault;
use std::alloc::{AllocError, Global};
use std::io::Write;

/// The bytes that the guest of a host sent: those that drains took.
#[derive(Drop)]
pub(crate) struct Console {
    pub bytes: Vec<u8>,
}

impl Observer for Console {
    ghost shows = { λ c entries. c.bytes.items ≡ console_of entries };

    fn begin(alloc: Global) -> Console {
        Console {
            bytes: Vec::new(alloc),
        }
    }

    #[tactic(auto, using(crate::proofs::Showing::shown_more))]
    fn observe(&mut self, _alloc: Global, items: &[Item]) -> Result<(), AllocError> {
        match write_console(&mut self.bytes, items) {
            Ok(()) => Ok(()),
            Err(_) => Err(AllocError),
        }
    }
}

/// Writes the bytes that the drains among these entries took, in order. `LinkFault` if a write fails.
fn write_console<O: Write>(output: &mut O, items: &[Item]) -> Result<(), LinkFault>
    ensures { OnOk result (Appends (O.contents output.old) (O.contents output.new) (console_of (all_of items.now))) }
{
    for item in items {
        write_item(output, item)?;
    }
    Ok(())
}

/// Writes the bytes that the drains of an item took; steps and rounds took none.
#[tactic(auto, using(crate::proofs::Showing::console_of_entry))]
fn write_item<O: Write>(output: &mut O, item: &Item) -> Result<(), LinkFault>
    ensures { OnOk result (Appends (O.contents output.old) (O.contents output.new) (console_of item.now)) }
{
    match item.look() {
        ItemRef::Entry(entry) => write_entry(output, entry),
        ItemRef::Steps(_steps) => Ok(()),
        ItemRef::Rounds(_rounds) => Ok(()),
    }
}

/// Writes the bytes that an entry took, if its event was a drain.
fn write_entry<O: Write>(output: &mut O, entry: &Entry) -> Result<(), LinkFault>
    ensures { OnOk result (Appends (O.contents output.old) (O.contents output.new) (taken_in entry.now)) }
{
    match entry.exchange().look() {
        ExchangeRef::Step { .. }
        | ExchangeRef::Dry(_)
        | ExchangeRef::Copied { .. }
        | ExchangeRef::Stored { .. } => Ok(()),
        ExchangeRef::Other { event, reply } => write_taken(output, event, reply),
    }
}

/// Writes the bytes that an event took, if it was a drain.
fn write_taken<O: Write>(
    output: &mut O,
    event: &HostEvent,
    reply: &HostReply,
) -> Result<(), LinkFault>
    ensures { OnOk result (Appends (O.contents output.old) (O.contents output.new) (taken_by event.now reply.now)) }
{
    let HostEvent::Do(command) = event else {
        return Ok(());
    };
    match command {
        Command::Board(BoardEvent::Drain(_count)) => write_bytes(output, reply),
        _ => Ok(()),
    }
}

/// Writes the bytes in a reply, if it has any.
fn write_bytes<O: Write>(output: &mut O, reply: &HostReply) -> Result<(), LinkFault>
    ensures { OnOk result (Appends (O.contents output.old) (O.contents output.new) (bytes_in reply.now)) }
{
    match reply {
        HostReply::Board(BoardReply::Bytes(bytes)) => Ok(output.write_all(bytes.as_slice())?),
        _ => Ok(()),
    }
}
