//! Receivers: each hears the frames of the other side.

ghost use Rattle.std.specs.Prelude.{◌≡◌, ◌⊎◌, ◌<◌, ◌≤◌, ◌∷◌, true, false, [], length, take, None, Some, Ok, Err, IfErr, IfOk, IfSome, MatchOption, OnOk, if◌then◌else◌};
ghost use Rattle.std.specs.Io.KnownBytes.{Consumes, IsAtEnd, Keeps};
ghost use Rattle.rvm_recorder.specs.Runs.{all_of};
ghost use Rattle.rvm_frame.specs.Reader.{at_start};
ghost use Rattle.rvm_frame.specs.Verdict.{verdict};
ghost use Rattle.rvm_cell.specs.Endings.{last_of};
ghost use Rattle.rvm_cell.specs.Heard.{AreHeard, Hears, IsFrameEnd, IsHeard, IsHeardOf, IsHeardUpTo, IsReceiverEnd, frames_in};
ghost use Rattle.rvm_station.specs.Streams.{is_between};
ghost use Rattle.rvm_cell.specs.Work.{AreOfReceiver, IsWork};

use crate::end::{WorkEnd, Worked};
use crate::gate::{Gate, Watch, Worker};
use crate::hearing::Hearing;
use crate::next::ends_hearing;
use crate::telling::Side;
use rvm_frame::{Frame, FrameReader};
use rvm_link::{Link, LinkRead};
use rvm_mem::PagedMemory;
use rvm_message::Shared;
use rvm_recorder::{Seat, Seating};
use rvm_station::is_hello;
use std::alloc::Global;
use std::sync::Wait;

/// The most reads of a receiver.
const READS: u32 = 1048576;

/// The number of consecutive reads with nothing after which a receiver ends.
const IDLE_READS: u32 = 1000;

/// The most bytes of one read.
const BUFFER_SIZE: usize = 1 << 16;

/// The reader of a stream of frames, and whether it stands inside a frame.
#[derive(Drop)]
struct Stream {
    reader: FrameReader,
    is_inside: bool,
}

/// Hears the frames that host `from` sends to host `to` over a link: each but Hello comes to this side's host, and the
/// frame that the host makes is sent back.
///
/// The receiver ends with `Done` when the move is over; with `LinkEnded` at the end of the stream, if that is between
/// two frames; with `LinkFault` if the link fails, ends inside a frame, or gives nothing for 1000 consecutive reads, if
/// a frame cannot be sent back, and after 1,048,576 reads; with `BadFrame` if a frame names other hosts, or if the next
/// bytes are no frame that may stand there; with `TooLong` or `Failed` if the stream is refused for that. If memory
/// runs out or the journal is full, it also closes the end at which frames are sent.
#[tactic(auto, using(crate::proofs::Heard::heard_of))]
pub fn receiver_worker<
    L: Seating,
    M: PagedMemory + Drop,
    K: Link + Drop,
    I: Link,
    G: Gate,
    R: Wait,
>(
    rt: &R,
    alloc: Global,
    side: &Side<'_, L, M, K>,
    seat: Seat<L>,
    gate: &G,
    worker: Worker,
    from: u8,
    to: u8,
    link: &mut I,
) -> Worked<L>
    ensures work { IsWork seat result.seat (all_of result.receipts.items) }
    ensures of { AreOfReceiver from (all_of result.receipts.items) }
    ensures heard { IfSome (I.remaining link.old) (λ bytes.
        IsHeardOf from to bytes result.end (frames_in (all_of result.receipts.items))) }
    ensures ended { IsReceiverEnd from to result.end (last_of (all_of result.receipts.items)) (I.remaining link.old)
        (frames_in (all_of result.receipts.items)) }
    ensures link { result.end ≡ WorkEnd.LinkEnded → I.has_ended link.new }
{
    let mut hearing = Hearing::new(alloc, seat, from, to);
    let mut watch = Watch::new(gate, worker);
    let end = hear(rt, alloc, side, &mut hearing, &mut watch, link);
    if end.is_short_of_room() {
        side.outgoing.close(rt);
    }
    hearing.end(end)
}

/// Reads a link until the receiver ends. Returns how it ended.
#[tactic(auto, using(crate::proofs::Heard::hears_none, crate::proofs::Heard::hears_more, crate::proofs::Heard::hears_up_to, crate::proofs::Heard::ends_heard, crate::proofs::Heard::waits_hears,))]
fn hear<L: Seating, M: PagedMemory + Drop, K: Link + Drop, I: Link, G: Gate, R: Wait>(
    rt: &R,
    alloc: Global,
    side: &Side<'_, L, M, K>,
    hearing: &mut Hearing<L>,
    watch: &mut Watch<'_, G>,
    link: &mut I,
) -> WorkEnd
    requires { hearing.old.heard ≡ [] }
    ensures same { hearing.new ≡ record hearing.old { heard = hearing.new.heard; last = hearing.new.last } }
    ensures heard { IfSome (I.remaining link.old) (λ bytes.
        IsHeardUpTo hearing.old.from hearing.old.to result at_start bytes [] hearing.new.heard) }
    ensures end { IsReceiverEnd hearing.old.from hearing.old.to result hearing.new.last (I.remaining link.old)
        hearing.new.heard }
    ensures link { result ≡ WorkEnd.LinkEnded → I.has_ended link.new }
{
    let mut stream = Stream {
        reader: FrameReader::new(alloc),
        is_inside: false,
    };
    let mut buffer = [0u8; BUFFER_SIZE];
    let mut idle = 0;
    for _read in 0..READS {
        let came = match hear_once(
            rt,
            alloc,
            side,
            hearing,
            watch,
            link,
            &mut stream,
            &mut buffer,
        ) {
            Ok(came) => came,
            Err(end) => return end,
        };
        idle = if came { 0 } else { idle + 1 };
        if idle >= IDLE_READS {
            return WorkEnd::LinkFault;
        }
    }
    WorkEnd::LinkFault
}

/// Reads a link once, and takes the frames of what came. Returns whether anything came; an error is how the receiver
/// ends.
#[tactic(auto, using(crate::proofs::Heard::hears_nothing, crate::proofs::Heard::hears_piece, crate::proofs::Heard::piece_up_to, crate::proofs::Heard::ends_heard, crate::proofs::Endings::not_the_links, crate::proofs::Endings::read_end))]
fn hear_once<L: Seating, M: PagedMemory + Drop, K: Link + Drop, I: Link, G: Gate, R: Wait>(
    rt: &R,
    alloc: Global,
    side: &Side<'_, L, M, K>,
    hearing: &mut Hearing<L>,
    watch: &mut Watch<'_, G>,
    link: &mut I,
    stream: &mut Stream,
    buffer: &mut [u8],
) -> Result<bool, WorkEnd>
    requires waits { verdict stream.old.reader.version stream.old.reader.bytes ≡ Ok None }
    requires between { stream.old.is_inside ≡ false → stream.old.reader.bytes ≡ [] }
    requires room { 0 < length buffer.old }
    ensures same { hearing.new ≡ record hearing.old { heard = hearing.new.heard; last = hearing.new.last } }
    ensures heard { IfOk result (λ came. Hears hearing.old.from hearing.old.to (I.remaining link.old) (I.remaining link.new)
        stream.old.reader hearing.old.heard hearing.new.heard stream.new.reader) }
    ensures some { IfErr result (λ end. IfSome (I.remaining link.old) (λ bytes.
        IsHeardUpTo hearing.old.from hearing.old.to end stream.old.reader bytes hearing.old.heard
        hearing.new.heard)) }
    ensures between { IfOk result (λ came. stream.new.is_inside ≡ false → stream.new.reader.bytes ≡ []) }
    ensures end { IfErr result (λ end. IsFrameEnd end hearing.new.last ⊎ (end ≡ WorkEnd.LinkEnded)) }
    ensures ended { result ≡ Err WorkEnd.LinkEnded → IsAtEnd (I.remaining link.old)
        × (hearing.new ≡ hearing.old) × (stream.old.reader.bytes ≡ []) }
    ensures link { result ≡ Err WorkEnd.LinkEnded → I.has_ended link.new }
{
    match read_link(link, buffer, stream.is_inside)? {
        None => Ok(false),
        Some(piece) => {
            take(rt, alloc, side, hearing, watch, stream, piece)?;
            Ok(true)
        }
    }
}

/// Reads a link once. Returns what came, which stands at the front of the buffer; none if nothing came yet. An error is
/// how the receiver ends.
#[tactic(auto, using(crate::proofs::Heard::kept_end))]
fn read_link<'b, I: Link>(
    link: &mut I,
    buffer: &'b mut [u8],
    is_inside: bool,
) -> Result<Option<&'b [u8]>, WorkEnd>
    requires { 0 < length buffer.old }
    ensures bytes { IfOk result (λ o. MatchOption o
        (Keeps (I.remaining link.old) (I.remaining link.new))
        (λ piece. Consumes (I.remaining link.old) (I.remaining link.new) piece.now)) }
    ensures none { IfErr result (λ end. Keeps (I.remaining link.old) (I.remaining link.new)) }
    ensures end { result ≡ Err WorkEnd.LinkEnded → IsAtEnd (I.remaining link.old) × (is_inside ≡ false) }
    ensures link { result ≡ Err WorkEnd.LinkEnded → I.has_ended link.new }
    ensures fault { IfErr result (λ end. (end ≡ WorkEnd.LinkFault) ⊎ (end ≡ WorkEnd.LinkEnded)) }
{
    match link.recv(buffer) {
        LinkRead::Bytes(count) => Ok(Some(&buffer[..count])),
        LinkRead::Idle => Ok(None),
        LinkRead::End => Err(end_of_stream(is_inside)),
        LinkRead::LinkFault => Err(WorkEnd::LinkFault),
    }
}

/// How a receiver ends at the end of its link: the stream stands inside a frame or between two.
fn end_of_stream(is_inside: bool) -> WorkEnd
    ensures { result ≡ (if is_inside then WorkEnd.LinkFault else WorkEnd.LinkEnded) }
{
    if is_inside {
        WorkEnd::LinkFault
    } else {
        WorkEnd::LinkEnded
    }
}

/// Tells the host the frames that end in a piece of the stream, until the receiver ends.
fn take<L: Seating, M: PagedMemory + Drop, K: Link + Drop, G: Gate, R: Wait>(
    rt: &R,
    alloc: Global,
    side: &Side<'_, L, M, K>,
    hearing: &mut Hearing<L>,
    watch: &mut Watch<'_, G>,
    stream: &mut Stream,
    piece: &[u8],
) -> Result<(), WorkEnd>
    requires waits { verdict stream.old.reader.version stream.old.reader.bytes ≡ Ok None }
    requires between { stream.old.is_inside ≡ false → stream.old.reader.bytes ≡ [] }
    ensures same { hearing.new ≡ record hearing.old { heard = hearing.new.heard; last = hearing.new.last } }
    ensures all { IfOk result (λ u. AreHeard hearing.old.from hearing.old.to stream.old.reader piece.now
        hearing.old.heard hearing.new.heard stream.new.reader) }
    ensures between { IfOk result (λ u. stream.new.is_inside ≡ false → stream.new.reader.bytes ≡ []) }
    ensures some { IfErr result (λ end. IsHeardUpTo hearing.old.from hearing.old.to end stream.old.reader piece.now
        hearing.old.heard hearing.new.heard) }
    ensures end { IfErr result (λ end. IsFrameEnd end hearing.new.last) }
{
    let mut rest = piece;
    while !rest.is_empty() {
        let taken = feed(rt, alloc, side, hearing, watch, stream, rest)?;
        rest = &rest[taken..];
    }
    Ok(())
}

/// Feeds the reader up to the end of the next frame, or of the piece; a frame that ends comes to the host. Returns how
/// many bytes the reader took.
#[tactic(auto, using(crate::proofs::Endings::unread_end, crate::proofs::Endings::unread_is_undone))]
fn feed<L: Seating, M: PagedMemory + Drop, K: Link + Drop, G: Gate, R: Wait>(
    rt: &R,
    alloc: Global,
    side: &Side<'_, L, M, K>,
    hearing: &mut Hearing<L>,
    watch: &mut Watch<'_, G>,
    stream: &mut Stream,
    piece: &[u8],
) -> Result<usize, WorkEnd>
    requires waits { verdict stream.old.reader.version stream.old.reader.bytes ≡ Ok None }
    requires some { 0 < length piece.now }
    ensures same { hearing.new ≡ record hearing.old { heard = hearing.new.heard; last = hearing.new.last } }
    ensures taken { IfOk result (λ n. (0 < n) × (n ≤ length piece.now)) }
    ensures all { IfOk result (λ n. AreHeard hearing.old.from hearing.old.to stream.old.reader (take n piece.now)
        hearing.old.heard hearing.new.heard stream.new.reader) }
    ensures between { IfOk result (λ n. stream.new.is_inside ≡ false → stream.new.reader.bytes ≡ []) }
    ensures some { IfErr result (λ end. IsHeardUpTo hearing.old.from hearing.old.to end stream.old.reader piece.now
        hearing.old.heard hearing.new.heard) }
    ensures end { IfErr result (λ end. IsFrameEnd end hearing.new.last) }
{
    let (taken, received) = stream.reader.feed(alloc, piece)?;
    stream.is_inside = received.is_none();
    if let Some((hosts, frame)) = received {
        came(rt, alloc, side, hearing, watch, hosts, frame)?;
    }
    Ok(taken)
}

/// Tells the host that a frame came, unless it is Hello. `BadFrame` if it names other hosts than the link's; `Done` if
/// the move is over after it.
#[tactic(auto, using(crate::proofs::Endings::uncalled_is_undone, crate::proofs::Endings::unsent_is_undone, crate::proofs::Endings::uncalled_end, crate::proofs::Endings::unsent_end))]
fn came<L: Seating, M: PagedMemory + Drop, K: Link + Drop, G: Gate, R: Wait>(
    rt: &R,
    alloc: Global,
    side: &Side<'_, L, M, K>,
    hearing: &mut Hearing<L>,
    watch: &mut Watch<'_, G>,
    hosts: Option<(u8, u8)>,
    frame: Frame,
) -> Result<(), WorkEnd>
    ensures same { hearing.new ≡ record hearing.old { heard = hearing.new.heard; last = hearing.new.last } }
    ensures heard { IsHeard hearing.old.from hearing.old.to result (hosts, frame) hearing.old.heard
        hearing.new.heard }
    ensures between { OnOk result (is_between hearing.old.from hearing.old.to hosts ≡ true) }
    ensures named { is_between hearing.old.from hearing.old.to hosts ≡ false → result ≡ Err WorkEnd.BadFrame }
    ensures end { IfErr result (λ end. IsFrameEnd end hearing.new.last) }
{
    if !hearing.is_between(hosts) {
        return Err(WorkEnd::BadFrame);
    }
    if is_hello(&frame) {
        return Ok(());
    }
    let Ok(frame) = Shared::new(alloc, frame) else {
        return Err(WorkEnd::OutOfMemory);
    };
    let told = hearing.came(rt, alloc, side, watch, frame)?;
    told.sent?;
    if ends_hearing(&told.reply) {
        return Err(WorkEnd::Done);
    }
    Ok(())
}
