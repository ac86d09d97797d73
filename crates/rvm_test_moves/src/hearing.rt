//! How receivers end, by what their links give.

ghost use Rattle.std.specs.Prelude.{◌≡◌, [], IfSome};

use rvm_cell::{Side, WorkEnd, Worker, receiver_worker};
use rvm_frame::{Addressed, Frame};
use rvm_host::Host;
use rvm_link::{Link, LinkRead, Outgoing, SendError};
use rvm_move::OpenGate;
use rvm_paged::PagedRam;
use rvm_recorder::{MAX_CAPACITY, Recorded, Seat, Seating, SharedHost, share};
use rvm_refusal::LinkFault;
use std::alloc::Global;
use std::marker::Brand;
use std::sync::Wait;
use std::sync::ledger::Blank;

/// Hello of version 1; of move 1 the offer of a guest of four pages and one hart, the end of a round, and Ready.
const STREAM: [u8; 67] = [
    0, 0, 0, 0, 0, 0, 0, 0, 0, 4, 0, 0, 0, 1, 0, 0, 0, //
    1, 1, 0, 0, 0, 0, 0, 0, 0, 3, 0, 0, 0, 4, 0, 1, //
    5, 1, 0, 0, 0, 0, 0, 0, 0, 8, 0, 0, 0, 1, 0, 4, 0, 0, 0, 0, 0, //
    8, 1, 0, 0, 0, 0, 0, 0, 0, 0, 0, 0, 0,
];

/// The number of bytes before each of these frames, and of all of them.
const WHOLE: [usize; 5] = [0, 17, 33, 54, 67];

/// Hello twice.
const TWICE: [u8; 34] = [
    0, 0, 0, 0, 0, 0, 0, 0, 0, 4, 0, 0, 0, 1, 0, 0, 0, //
    0, 0, 0, 0, 0, 0, 0, 0, 0, 4, 0, 0, 0, 1, 0, 0, 0,
];

/// Hello, and a kind that version 1 does not have.
const ZERO: [u8; 18] = [0, 0, 0, 0, 0, 0, 0, 0, 0, 4, 0, 0, 0, 1, 0, 0, 0, 12];

/// Hello, and a state of 32769 bytes.
const LONG: [u8; 30] = [
    0, 0, 0, 0, 0, 0, 0, 0, 0, 4, 0, 0, 0, 1, 0, 0, 0, //
    7, 1, 0, 0, 0, 0, 0, 0, 0, 1, 128, 0, 0,
];

/// Hello, the offer, and the end of the move.
const DROPPED: [u8; 46] = [
    0, 0, 0, 0, 0, 0, 0, 0, 0, 4, 0, 0, 0, 1, 0, 0, 0, //
    1, 1, 0, 0, 0, 0, 0, 0, 0, 3, 0, 0, 0, 4, 0, 1, //
    11, 1, 0, 0, 0, 0, 0, 0, 0, 0, 0, 0, 0,
];

/// Hello of version 2, and an offer.
const SECOND: [u8; 33] = [
    0, 0, 0, 0, 0, 0, 0, 0, 0, 4, 0, 0, 0, 2, 0, 0, 0, //
    1, 1, 0, 0, 0, 0, 0, 0, 0, 3, 0, 0, 0, 4, 0, 1,
];

/// Hello of version 3, and an offer of host 0 to host 1.
const THIRD: [u8; 35] = [
    0, 0, 0, 0, 0, 0, 0, 0, 0, 4, 0, 0, 0, 3, 0, 0, 0, //
    1, 0, 1, 1, 0, 0, 0, 0, 0, 0, 0, 3, 0, 0, 0, 4, 0, 1,
];

/// The same of host 2 to host 1.
const OF_OTHERS: [u8; 35] = [
    0, 0, 0, 0, 0, 0, 0, 0, 0, 4, 0, 0, 0, 3, 0, 0, 0, //
    1, 2, 1, 1, 0, 0, 0, 0, 0, 0, 0, 3, 0, 0, 0, 4, 0, 1,
];

/// The same of host 0 to host 2.
const FOR_OTHERS: [u8; 35] = [
    0, 0, 0, 0, 0, 0, 0, 0, 0, 4, 0, 0, 0, 3, 0, 0, 0, //
    1, 0, 2, 1, 0, 0, 0, 0, 0, 0, 0, 3, 0, 0, 0, 4, 0, 1,
];

/// What host 1 hears in streams of each version.
const VERSIONS: [(&str, u32, &[u8]); 4] = [
    ("an offer in version 2", 2, &SECOND),
    ("an offer in version 3", 3, &THIRD),
    ("an offer of another host", 3, &OF_OTHERS),
    ("an offer to another host", 3, &FOR_OTHERS),
];

/// What links give: their stream, how many reads before each of its bytes and before its end give nothing, and whether
/// they fail instead of ending.
const LINKS: [(&str, &[u8], u32, bool); 10] = [
    ("999 reads of nothing, and the end", &[], 999, false),
    ("1000 reads of nothing, and the end", &[], 1000, false),
    ("reads of nothing without end", &[], u32::MAX, false),
    ("999 reads of nothing before each byte", &STREAM, 999, false),
    ("a link that fails", &[], 0, true),
    ("a link that fails behind frames", &STREAM, 0, true),
    (
        "a link that fails behind the end of a move",
        &DROPPED,
        0,
        true,
    ),
    ("Hello twice", &TWICE, 0, false),
    ("a kind of another version", &ZERO, 0, false),
    ("a body of 32769 bytes", &LONG, 0, false),
];

/// A link that takes all bytes, and gives those of a stream, at most `at_once` with each read. Before each read that
/// gives bytes, and before the end, `pauses` reads give nothing. Instead of ending it may fail, or give other bytes
/// again and again. A mute one takes no bytes. It counts reads.
#[derive(Drop)]
struct Given<'s> {
    stream: &'s [u8],
    again: &'s [u8],
    at_once: usize,
    pauses: u32,
    paused: u32,
    fails: bool,
    is_mute: bool,
    reads: u32,
}

impl<'s> Given<'s> {
    /// A link that gives these bytes, at most this many with each read, and ends.
    fn new(stream: &'s [u8], at_once: usize) -> Given<'s> {
        Given {
            stream,
            again: &[],
            at_once,
            pauses: 0,
            paused: 0,
            fails: false,
            is_mute: false,
            reads: 0,
        }
    }
}

impl Link for Given<'_> {
    fn send(&mut self, _bytes: &[u8]) -> Result<(), LinkFault> {
        if self.is_mute {
            return Err(LinkFault);
        }
        Ok(())
    }

    fn flush(&mut self) -> Result<(), LinkFault> {
        Ok(())
    }

    fn recv(&mut self, buffer: &mut [u8]) -> LinkRead {
        self.reads = self.reads.wrapping_add(1);
        if self.paused < self.pauses {
            self.paused += 1;
            return LinkRead::Idle;
        }
        self.paused = 0;
        if self.stream.is_empty() {
            self.stream = self.again;
        }
        if self.stream.is_empty() {
            return if self.fails {
                LinkRead::LinkFault
            } else {
                LinkRead::End
            };
        }
        let count = self.at_once.min(self.stream.len()).min(buffer.len());
        let (piece, rest) = self.stream.split_at(count);
        buffer[..count].copy_from_slice(piece);
        self.stream = rest;
        LinkRead::Bytes(count)
    }
}

/// Hears streams that are cut and links of all kinds, and prints how the receivers end.
pub fn hear_links<R: AllocGlobal + Print + Wait>(rt: &R) -> anyhow::Result<()> {
    let is_cut_well = ends_at_each_cut(rt, 1) && ends_at_each_cut(rt, STREAM.len());
    println!(rt; "a stream cut at each of its 67 bytes: ends as it must {is_cut_well}")?;
    hear_each(rt, LINKS.as_slice())?;
    hear_versions(rt, VERSIONS.as_slice())?;
    hear_without_end(rt)?;
    hear_without_answer(rt)?;
    hear_without_room(rt)
}

/// Hears the stream at a host whose journal takes one entry, and prints how the receiver ends, and whether its side
/// sends nothing more.
fn hear_without_room<R: AllocGlobal + Print + Wait>(rt: &R) -> anyhow::Result<()> {
    let stream = STREAM;
    let mut given = Given::new(&stream, 1);
    let heard = hear_with(rt, 1, 1, &mut given);
    print_end(rt, "a journal of 1 entry", heard.end, given.reads)?;
    println!(rt; "its side is closed {}", heard.is_closed)?;
    Ok(())
}

/// Hears the stream while no frame can be sent back, and prints how the receiver ends.
fn hear_without_answer<R: AllocGlobal + Print + Wait>(rt: &R) -> anyhow::Result<()> {
    let stream = STREAM;
    let mut given = Given::new(&stream, 1);
    given.is_mute = true;
    let end = hear(rt, &mut given);
    print_end(rt, "an answer that cannot be sent", end, given.reads)
}

/// Hears the stream, and then its last frame again and again, and prints how the receiver ends.
fn hear_without_end<R: AllocGlobal + Print + Wait>(rt: &R) -> anyhow::Result<()> {
    let stream = STREAM;
    let mut given = Given::new(&stream, 1);
    given.again = &stream[WHOLE[3]..];
    let end = hear(rt, &mut given);
    print_end(rt, "Ready without end", end, given.reads)
}

/// Hears links of all kinds, and prints how the receivers end.
fn hear_each<R: AllocGlobal + Print + Wait>(
    rt: &R,
    links: &[(&str, &[u8], u32, bool)],
) -> anyhow::Result<()> {
    for (name, stream, pauses, fails) in links {
        let mut given = Given::new(stream, 1);
        given.pauses = *pauses;
        given.fails = *fails;
        let end = hear(rt, &mut given);
        print_end(rt, name, end, given.reads)?;
    }
    Ok(())
}

/// Hears streams of each version, and prints how the receivers end.
fn hear_versions<R: AllocGlobal + Print + Wait>(
    rt: &R,
    streams: &[(&str, u32, &[u8])],
) -> anyhow::Result<()> {
    for (name, version, stream) in streams {
        let mut given = Given::new(stream, 1);
        let end = hear_with(rt, *version, MAX_CAPACITY, &mut given).end;
        print_end(rt, name, end, given.reads)?;
    }
    Ok(())
}

/// Prints how the receiver ended that heard this link, and after how many reads.
fn print_end<R: Print>(rt: &R, name: &str, end: WorkEnd, reads: u32) -> anyhow::Result<()> {
    println!(rt; "{name}: {end:?} after {reads} reads")?;
    Ok(())
}

/// Whether a receiver that hears the first bytes of the stream, `at_once` with each read, ends as it must, however many
/// they are: with its link between two frames, and with a fault of the link inside a frame.
fn ends_at_each_cut<R: AllocGlobal + Wait>(rt: &R, at_once: usize) -> bool {
    let stream = STREAM;
    for count in 0..=stream.len() {
        let must = if WHOLE.contains(&count) {
            WorkEnd::LinkEnded
        } else {
            WorkEnd::LinkFault
        };
        let mut given = Given::new(&stream[..count], at_once);
        if hear(rt, &mut given) != must {
            return false;
        }
    }
    true
}

/// How a receiver ended, and whether its side can send nothing more.
#[derive(Clone, Copy)]
struct Heard {
    end: WorkEnd,
    is_closed: bool,
}

/// What stands for a receiver that was not made.
const UNHEARD: Heard = Heard {
    end: WorkEnd::OutOfMemory,
    is_closed: false,
};

/// How a receiver at a new host ends that hears a link.
fn hear<R: AllocGlobal + Wait>(rt: &R, given: &mut Given<'_>) -> WorkEnd {
    hear_with(rt, 1, MAX_CAPACITY, given).end
}

/// How a receiver ends that hears a link at a new host of this version whose journal takes this many entries.
fn hear_with<R: AllocGlobal + Wait>(
    rt: &R,
    version: u32,
    capacity: u32,
    given: &mut Given<'_>,
) -> Heard {
    match recorded(rt.alloc(), version, capacity) {
        Some(recorded) => hear_at::<Brand, R>(rt, Blank::new(1), recorded, version, given),
        None => UNHEARD,
    }
}

/// The second of two hosts of this version, without a guest and with an empty journal for this many entries.
fn recorded(alloc: Global, version: u32, capacity: u32) -> Option<Recorded<PagedRam>>
    ensures { IfSome result (λ r. r.journal.entries ≡ []) }
{
    let host = Host::with_version(None, 1, 2, 4096, version).ok()?;
    Recorded::new(alloc, host, capacity).ok()
}

/// How a receiver at this host ends.
fn hear_at<L: Seating, R: AllocGlobal + Wait>(
    rt: &R,
    blank: Blank,
    recorded: Recorded<PagedRam>,
    version: u32,
    given: &mut Given<'_>,
) -> Heard
    requires ledger { (blank.name ≡ L.name) × (blank.parts ≡ L.parts) × (L.seats ≡ L.parts) }
    requires seats { blank.parts ≡ 1 }
    requires empty { recorded.journal.entries ≡ [] }
    requires opening { recorded.journal.opening ≡ L.opening }
    requires capacity { recorded.capacity ≡ L.capacity }
{
    match share::<L, PagedRam>(rt.alloc(), blank, recorded, 1) {
        Ok((host, seats)) => {
            let heard = hear_by(rt, &host, seats, version, given);
            drop(host);
            heard
        }
        Err((_, _, recorded)) => {
            drop(recorded);
            UNHEARD
        }
    }
}

/// How the receiver ends that has the one seat.
fn hear_by<L: Seating, R: AllocGlobal + Wait>(
    rt: &R,
    host: &SharedHost<L, PagedRam>,
    seats: Vec<Seat<L>>,
    version: u32,
    given: &mut Given<'_>,
) -> Heard {
    let mut seats = seats;
    match seats.pop() {
        Some(seat) => hear_in(rt, host, seat, version, given),
        None => UNHEARD,
    }
}

/// How the receiver ends that has this seat.
fn hear_in<L: Seating, R: AllocGlobal + Wait>(
    rt: &R,
    host: &SharedHost<L, PagedRam>,
    seat: Seat<L>,
    version: u32,
    given: &mut Given<'_>,
) -> Heard {
    let mut answers = Given::new(&[], 1);
    answers.is_mute = given.is_mute;
    let Ok(outgoing) = Outgoing::open(rt.alloc(), answers, version) else {
        drop(seat);
        return UNHEARD;
    };
    let side = Side {
        host,
        outgoing: &outgoing,
    };
    let worker = Worker::ReceiverAtB;
    let end = receiver_worker(rt, rt.alloc(), &side, seat, &OpenGate, worker, 0, 1, given).end;
    let accept = Addressed {
        from: 1,
        to: 0,
        frame: Frame::Accept { move_number: 1 },
    };
    Heard {
        end,
        is_closed: outgoing.send(rt, &accept) == Err(SendError::LinkFault),
    }
}
