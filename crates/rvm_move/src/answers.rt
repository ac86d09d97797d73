//! The replies of a host, as text.

ghost use Rattle.std.specs.Prelude.{◌≡◌, [], OnOk};
ghost use Rattle.std.specs.Io.KnownBytes.{Appends, append_known};
ghost use Rattle.rvm_recorder.specs.History.{is_board};
ghost use Rattle.rvm_recorder.specs.Items.{all_of};
ghost use Rattle.rvm_move.specs.Answers.{answer_text, answers_text, reply_text};

use rvm_core::write_move_reply;
use rvm_message::{Command, ExchangeRef, HostEvent, HostReply};
use rvm_recorder::{Entry, Item, ItemRef};
use rvm_refusal::LinkFault;
use std::alloc::Global;
use std::io::Write;

/// The most bytes of replies that are written at once.
const PIECE: usize = 1 << 13;

/// The size above which a piece is written: below it, one more line, of at most 128 bytes, still finds room.
const FULL: usize = PIECE - 128;

/// Whether an event is the guest's own: a step, input, a drain, or one of its debugger.
fn is_of_guest(event: &HostEvent) -> bool
    ensures { result ≡ is_board event.now }
{
    match event {
        HostEvent::Do(Command::Board(_)) => true,
        _ => false,
    }
}

/// Writes the reply in an entry, unless its event is the guest's own.
fn write_answer<E: Write>(errors: &mut E, entry: &Entry) -> Result<(), LinkFault>
    ensures { OnOk result (Appends (E.contents errors.old) (E.contents errors.new) (answer_text entry.now)) }
{
    match entry.exchange().look() {
        ExchangeRef::Step { .. } | ExchangeRef::Dry(_) => Ok(()),
        ExchangeRef::Copied { .. } | ExchangeRef::Stored { .. } => {
            write_move_reply(errors, &entry.exchange().reply(), None)
        }
        ExchangeRef::Other { event, reply } => write_unless_of_guest(errors, event, reply),
    }
}

/// Writes the reply to an event, unless it is the guest's own.
fn write_unless_of_guest<E: Write>(
    errors: &mut E,
    event: &HostEvent,
    reply: &HostReply,
) -> Result<(), LinkFault>
    ensures { OnOk result (Appends (E.contents errors.old) (E.contents errors.new)
        (reply_text event.now reply.now)) }
{
    if is_of_guest(event) {
        return Ok(());
    }
    write_move_reply(errors, reply, None)
}

/// Writes the replies in an item; steps and rounds have none to write.
#[tactic(auto, using(crate::proofs::Answered::text_of_entry))]
fn write_item<E: Write>(errors: &mut E, item: &Item) -> Result<(), LinkFault>
    ensures { OnOk result (Appends (E.contents errors.old) (E.contents errors.new) (answers_text item.now)) }
{
    match item.look() {
        ItemRef::Entry(entry) => write_answer(errors, entry),
        ItemRef::Steps(_steps) => Ok(()),
        ItemRef::Rounds(_rounds) => Ok(()),
    }
}

/// Writes the replies to the commands of a move and to the frames that came, a line each. They are written in pieces of
/// up to `PIECE` bytes, or each by itself if there is no memory for a piece. `LinkFault` if a write fails.
pub(crate) fn write_answers<E: Write>(
    alloc: Global,
    errors: &mut E,
    items: &[Item],
) -> Result<(), LinkFault>
    ensures { OnOk result (Appends (E.contents errors.old) (E.contents errors.new) (answers_text (all_of items.now))) }
{
    match Vec::with_capacity(alloc, PIECE) {
        Ok(piece) => write_together(errors, piece, items),
        Err(_) => write_each(errors, items),
    }
}

/// Writes the replies in each item by itself.
fn write_each<E: Write>(errors: &mut E, items: &[Item]) -> Result<(), LinkFault>
    ensures { OnOk result (Appends (E.contents errors.old) (E.contents errors.new) (answers_text (all_of items.now))) }
{
    for item in items {
        write_item(errors, item)?;
    }
    Ok(())
}

/// Writes the replies in all items by way of a piece, which is empty at first.
#[tactic(auto, using(crate::proofs::Pieces::gone))]
fn write_together<E: Write>(errors: &mut E, piece: Vec<u8>, items: &[Item]) -> Result<(), LinkFault>
    requires { piece.items ≡ [] }
    ensures { OnOk result (Appends (E.contents errors.old) (E.contents errors.new) (answers_text (all_of items.now))) }
{
    let mut piece = piece;
    for item in items {
        put(errors, &mut piece, item)?;
    }
    send(errors, &mut piece)
}

/// Appends the replies in an item to a piece, and writes the piece if it is full.
#[tactic(auto, using(crate::proofs::Pieces::kept, crate::proofs::Pieces::sent))]
fn put<E: Write>(errors: &mut E, piece: &mut Vec<u8>, item: &Item) -> Result<(), LinkFault>
    ensures { OnOk result (Appends (append_known (E.contents errors.old) piece.old.items)
        (append_known (E.contents errors.new) piece.new.items) (answers_text item.now)) }
{
    write_item(piece, item)?;
    if piece.len() > FULL {
        return send(errors, piece);
    }
    Ok(())
}

/// Writes a piece, and empties it.
fn send<E: Write>(errors: &mut E, piece: &mut Vec<u8>) -> Result<(), LinkFault>
    ensures written { OnOk result (Appends (E.contents errors.old) (E.contents errors.new) piece.old.items) }
    ensures emptied { OnOk result (piece.new.items ≡ []) }
{
    errors.write_all(piece)?;
    piece.clear();
    Ok(())
}
