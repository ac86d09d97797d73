//! The texts of the replies of a world.

ghost use Rattle.std.specs.Prelude.{◌≡◌, OnOk};
ghost use Rattle.std.specs.Io.KnownBytes.{Appends};
ghost use Rattle.rvm_message.specs.Replies.{refusal_of, reply_of};
ghost use Rattle.rvm_core.specs.Replies.{guest_text, listed, move_text, steps_text};

use rvm_debug::{InWords, write_reply, write_steps};
use rvm_message::{HostRefusal, HostReply};
use rvm_refusal::{LinkFault, Refusal};
use std::fmt;
use std::io::Write;

/// A reply, shown in words; nothing for bytes, registers and words of RAM.
#[derive(Clone, Copy)]
struct ReplyInWords<'a>(&'a HostReply);

impl<'a> fmt::Display for ReplyInWords<'a> {
    ghost use Rattle.std.specs.Prelude.{Some};
    ghost use Rattle.rvm_message.specs.Replies.{reply_of};
    ghost use Rattle.rvm_core.specs.Replies.{words_of};

    ghost output = { λ words. Some (words_of (reply_of words.0.now)) };

    fn fmt<W: fmt::Write>(&self, f: &mut fmt::Formatter<W>) -> fmt::Result {
        match self.0 {
            HostReply::Board(answer) => write!(f, "{}", InWords(answer)),
            HostReply::Begun(number) => write!(f, "begun {number}"),
            HostReply::Copied { page, copy_number } => write!(f, "copied {page} {copy_number}"),
            HostReply::RoundEnded {
                round,
                sent,
                skipped,
                left,
            } => write!(f, "round {round} sent {sent} skipped {skipped} left {left}"),
            HostReply::Stopping => f.write_str("stopping"),
            HostReply::StateSent => f.write_str("state sent"),
            HostReply::PartSent { part, parts } => write!(f, "part {part} of {parts} sent"),
            HostReply::Resent => f.write_str("resent"),
            HostReply::Aborted => f.write_str("aborted"),
            HostReply::Open => f.write_str("open"),
            HostReply::MoveDeclined(limit) => write!(f, "move declined {limit}"),
            HostReply::Fixing(count) => write!(f, "fixing {count}"),
            HostReply::Committed(number) => write!(f, "committed {number}"),
            HostReply::Finished => f.write_str("finished"),
            HostReply::Accepted => f.write_str("accepted"),
            HostReply::Declined(limit) => write!(f, "declined {limit}"),
            HostReply::Stored { page, copy_number } => write!(f, "stored {page} {copy_number}"),
            HostReply::Noted => f.write_str("noted"),
            HostReply::Kept { part, parts } => write!(f, "kept {part} of {parts}"),
            HostReply::Lacking(count) => write!(f, "lacking {count}"),
            HostReply::ReadySent => f.write_str("ready"),
            HostReply::Started => f.write_str("started"),
            HostReply::Dropped => f.write_str("dropped"),
            HostReply::Refused(why) => write!(f, "{}", listed(*why)),
        }
    }
}

/// A refusal in the list of all refusals.
fn listed(why: HostRefusal) -> Refusal
    ensures { result ≡ listed (refusal_of why) }
{
    Refusal::from(why)
}

/// The place of a frame, shown as ` -> K`, if one was made.
#[derive(Clone, Copy)]
struct Place(Option<usize>);

impl fmt::Display for Place {
    ghost use Rattle.std.specs.Prelude.{Some};
    ghost use Rattle.rvm_core.specs.Replies.{place_text};

    ghost output = { λ p. Some (place_text p.0) };

    fn fmt<W: fmt::Write>(&self, f: &mut fmt::Formatter<W>) -> fmt::Result {
        match self.0 {
            Some(place) => write!(f, " -> {place}"),
            None => Ok(()),
        }
    }
}

/// Writes the reply to an event of a move or to a frame that came, and the place of the frame that it made, if any,
/// as a line. Fails with `LinkFault` if the writer fails.
pub fn write_move_reply<W: Write>(
    writer: &mut W,
    reply: &HostReply,
    place: Option<usize>,
) -> Result<(), LinkFault>
    ensures { OnOk result (Appends (W.contents writer.old) (W.contents writer.new)
        (move_text (reply_of reply.now) place)) }
{
    writeln!(writer, "{}{}", ReplyInWords(reply), Place(place))?;
    Ok(())
}

/// Writes the reply to an event of the guest other than a step. If there is an address, the reply's bytes are those
/// of RAM from that address on. Fails with `LinkFault` if the writer fails.
pub fn write_guest_reply<W: Write>(
    writer: &mut W,
    address: Option<u32>,
    reply: &HostReply,
) -> Result<(), LinkFault>
    ensures { OnOk result (Appends (W.contents writer.old) (W.contents writer.new)
        (guest_text address (reply_of reply.now))) }
{
    match reply {
        HostReply::Board(answer) => write_reply(writer, address, answer),
        _ => write_move_reply(writer, reply, None),
    }
}

/// Writes the number of steps that a hart made, and what the last one did, or only why it was refused. Fails with
/// `LinkFault` if the writer fails.
pub fn write_steps_reply<W: Write>(
    writer: &mut W,
    hart: u32,
    count: u32,
    last: &HostReply,
) -> Result<(), LinkFault>
    ensures { OnOk result (Appends (W.contents writer.old) (W.contents writer.new)
        (steps_text hart count (reply_of last.now))) }
{
    match last {
        HostReply::Board(answer) => write_steps(writer, hart, count, answer),
        _ => write_move_reply(writer, last, None),
    }
}
