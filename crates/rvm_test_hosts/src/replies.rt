//! Replies as names and numbers, by which tables of expected answers are written.

use rvm_board::BoardReply;
use rvm_message::HostReply;
use rvm_refusal::Refusal;

/// A reply: its name, and up to four numbers.
pub type Said = (&'static str, [u64; 4]);

/// One number.
fn one(name: &'static str, number: u64) -> Said {
    (name, [number, 0, 0, 0])
}

/// Two numbers.
fn two(name: &'static str, first: u64, second: u64) -> Said {
    (name, [first, second, 0, 0])
}

/// An answer of the guest.
fn of_board(reply: &BoardReply) -> Said {
    match reply {
        BoardReply::Retired => one("retired", 0),
        BoardReply::Break(address) => one("break", u64::from(*address)),
        BoardReply::Done => one("done", 0),
        BoardReply::Refused(why) => refused(Refusal::from(*why)),
        _ => one("other", 0),
    }
}

/// A refusal, with its number.
fn refused(why: Refusal) -> Said {
    one(why.name(), u64::from(why.number()))
}

/// A reply of a host.
pub fn said(reply: &HostReply) -> Said {
    match reply {
        HostReply::Board(reply) => of_board(reply),
        HostReply::Begun(move_number) => one("begun", *move_number),
        HostReply::Copied { page, copy_number } => {
            two("copied", u64::from(*page), u64::from(*copy_number))
        }
        HostReply::RoundEnded {
            round,
            sent,
            skipped,
            left,
        } => (
            "round",
            [
                u64::from(*round),
                u64::from(*sent),
                u64::from(*skipped),
                u64::from(*left),
            ],
        ),
        HostReply::Stopping => one("stopping", 0),
        HostReply::StateSent => one("state sent", 0),
        HostReply::PartSent { part, parts } => two(
            "part sent",
            u64::from(*part),
            u64::from(*parts),
        ),
        HostReply::Resent => one("resent", 0),
        HostReply::Aborted => one("aborted", 0),
        HostReply::Open => one("open", 0),
        HostReply::MoveDeclined(limit) => one("move declined", u64::from(*limit)),
        HostReply::Fixing(count) => one("fixing", u64::from(*count)),
        HostReply::Committed(move_number) => one("committed", *move_number),
        HostReply::Finished => one("finished", 0),
        HostReply::Accepted => one("accepted", 0),
        HostReply::Declined(limit) => one("declined", u64::from(*limit)),
        HostReply::Stored { page, copy_number } => {
            two("stored", u64::from(*page), u64::from(*copy_number))
        }
        HostReply::Noted => one("noted", 0),
        HostReply::Kept { part, parts } => two("kept", u64::from(*part), u64::from(*parts)),
        HostReply::Lacking(count) => one("lacking", u64::from(*count)),
        HostReply::ReadySent => one("ready", 0),
        HostReply::Started => one("started", 0),
        HostReply::Dropped => one("dropped", 0),
        HostReply::Refused(why) => refused(Refusal::from(*why)),
    }
}
