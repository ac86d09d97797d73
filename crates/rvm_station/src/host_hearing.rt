//! Hears another host on its connection.

ghost use Rattle.std.specs.Prelude.{◌≡◌, ◌<◌, ◌≤◌, ◌∷◌, true, false, [], length, take, None, Ok, Err, IfErr, IfOk, IfSome, OnErr, OnOk};
ghost use Rattle.rvm_frame.specs.Verdict.{verdict};
ghost use Rattle.rvm_station.specs.Hearing.{AreRead, AreReadUpTo, AreTold, AreToldUpTo, HaveCome, IsHeardOn, of_frame, of_record};
ghost use Rattle.rvm_station.specs.Streams.{comes, is_between};

use crate::access::Access;
use crate::origin::Hosting;
use crate::station::Station;
use crate::stream::{is_between, is_hello};
use rvm_frame::{Frame, FrameFault, FrameReader};
use rvm_link::{MAX_DATA, RecordFault, RecordRead, read_record};
use std::io::{Read, Write};
use std::sync::Wait;

/// Why a host is no longer heard on a connection.
#[derive(Clone, Copy, Debug, PartialEq, Eq)]
pub enum HearEnd {
    /// The connection ended or failed, or nothing arrived in time.
    Closed,
    /// The bytes that arrived are no records, what the records carry are no frames, or a frame names other hosts.
    BadStream,
    /// Memory ran out.
    OutOfMemory,
}

impl From<RecordFault> for HearEnd {
    ghost from_gives = { λ fault end. end ≡ of_record fault };

    fn from(fault: RecordFault) -> HearEnd {
        match fault {
            RecordFault::Broken => HearEnd::Closed,
            RecordFault::NotRecord => HearEnd::BadStream,
        }
    }
}

impl From<FrameFault> for HearEnd {
    ghost from_gives = { λ fault end. end ≡ of_frame fault };

    fn from(fault: FrameFault) -> HearEnd {
        match fault {
            FrameFault::OutOfMemory => HearEnd::OutOfMemory,
            FrameFault::BadFrame | FrameFault::TooLong | FrameFault::Failed => HearEnd::BadStream,
        }
    }
}

/// Hears host `from` until its connection ends: each of its frames but Hello comes to this host; each question is
/// answered, after all before it has come; each answer is told to whoever waits for it. Returns why the host is no
/// longer heard.
#[tactic(auto, using(crate::proofs::Records::none_read, crate::proofs::Records::read_more))]
pub fn hear<L: Hosting, A: Access<L>, W: Write + Drop, I: Read, R: Wait>(
    rt: &R,
    station: &Station<L, W>,
    access: &mut A,
    from: u8,
    input: &mut I,
) -> HearEnd
    ensures { IfSome (I.remaining input.old) (IsHeardOn L.gave from station.now.id result
        (A.asked access.old) (A.asked access.new)) }
{
    let mut reader = FrameReader::new(station.alloc);
    let mut buffer = [0u8; MAX_DATA];
    for _record in rt.forever() {
        if let Err(end) = hear_record(rt, station, access, from, input, &mut reader, &mut buffer) {
            return end;
        }
    }
    unreachable!()
}

/// Hears one record: a piece of the stream, a question or an answer.
#[tactic(auto, using(crate::proofs::Records::answer_read, crate::proofs::Records::data_read, crate::proofs::Records::data_up_to, crate::proofs::Records::question_read))]
fn hear_record<L: Hosting, A: Access<L>, W: Write + Drop, I: Read, R: Wait>(
    rt: &R,
    station: &Station<L, W>,
    access: &mut A,
    from: u8,
    input: &mut I,
    reader: &mut FrameReader,
    buffer: &mut [u8],
) -> Result<(), HearEnd>
    requires waits { verdict reader.old.version reader.old.bytes ≡ Ok None }
    requires unfailed { reader.old.failed ≡ false }
    requires room { 65535 ≤ length buffer.old }
    ensures read { OnOk result (AreRead L.gave from station.now.id (A.asked access.old) (A.asked access.new)
        (I.remaining input.old) (I.remaining input.new) reader.old reader.new) }
    ensures some { IfErr result (λ end. IfSome (I.remaining input.old)
        (AreReadUpTo L.gave from station.now.id end (A.asked access.old) (A.asked access.new) reader.old)) }
    ensures size { length buffer.new ≡ length buffer.old }
{
    match read_record(input, buffer)? {
        RecordRead::Data(count) => take(rt, station, access, from, reader, &buffer[..count])?,
        RecordRead::Question(number) => {
            let _lost = station.routes.answer(rt, from, number);
        }
        RecordRead::Answer(number) => station.news.answer(rt, from, number),
    }
    Ok(())
}

/// Tells the host the frames that end in a piece of the stream.
fn take<L: Hosting, A: Access<L>, W: Write + Drop, R: Wait>(
    rt: &R,
    station: &Station<L, W>,
    access: &mut A,
    from: u8,
    reader: &mut FrameReader,
    piece: &[u8],
) -> Result<(), HearEnd>
    requires waits { verdict reader.old.version reader.old.bytes ≡ Ok None }
    requires unfailed { reader.old.failed ≡ false }
    ensures all { OnOk result (AreTold L.gave from station.now.id (A.asked access.old) (A.asked access.new)
        reader.old piece.now reader.new) }
    ensures some { IfErr result (λ end. AreToldUpTo L.gave from station.now.id end (A.asked access.old) (A.asked access.new)
        reader.old piece.now) }
{
    let mut rest = piece;
    while !rest.is_empty() {
        let taken = feed(rt, station, access, from, reader, rest)?;
        rest = &rest[taken..];
    }
    Ok(())
}

/// Feeds the reader up to the end of the next frame, or of the piece; a frame that ends comes to the host. Returns how
/// many bytes the reader took.
#[tactic(auto, using(crate::proofs::Records::not_fed))]
fn feed<L: Hosting, A: Access<L>, W: Write + Drop, R: Wait>(
    rt: &R,
    station: &Station<L, W>,
    access: &mut A,
    from: u8,
    reader: &mut FrameReader,
    piece: &[u8],
) -> Result<usize, HearEnd>
    requires waits { verdict reader.old.version reader.old.bytes ≡ Ok None }
    requires unfailed { reader.old.failed ≡ false }
    requires some { 0 < length piece.now }
    ensures taken { IfOk result (λ n. (0 < n) × (n ≤ length piece.now)) }
    ensures all { IfOk result (λ n. AreTold L.gave from station.now.id (A.asked access.old) (A.asked access.new)
        reader.old (take n piece.now) reader.new) }
    ensures some { IfErr result (λ end. AreToldUpTo L.gave from station.now.id end (A.asked access.old) (A.asked access.new)
        reader.old piece.now) }
{
    let (taken, received) = reader.feed(station.alloc, piece)?;
    if let Some((hosts, frame)) = received {
        came(rt, station, access, from, hosts, &frame)?;
    }
    Ok(taken)
}

/// Tells the host that a frame came, unless it is Hello. `BadStream` if it names other hosts.
#[tactic(auto, using(crate::proofs::Records::none_came, crate::proofs::Records::one_came, crate::proofs::Records::unasked))]
fn came<L: Hosting, A: Access<L>, W: Write + Drop, R: Wait>(
    rt: &R,
    station: &Station<L, W>,
    access: &mut A,
    from: u8,
    hosts: Option<(u8, u8)>,
    frame: &Frame,
) -> Result<(), HearEnd>
    ensures told { OnOk result (HaveCome L.gave from (A.asked access.old) (A.asked access.new)
        (comes from station.now.id (hosts, frame.now))) }
    ensures untold { OnErr result (HaveCome L.gave from (A.asked access.old) (A.asked access.new) []) }
    ensures between { OnOk result (is_between from station.now.id hosts ≡ true) }
    ensures others { result ≡ Err HearEnd.BadStream → is_between from station.now.id hosts ≡ false }
{
    if !is_between(from, station.id, hosts) {
        return Err(HearEnd::BadStream);
    }
    if is_hello(frame) {
        return Ok(());
    }
    match station.came(rt, access, from, frame) {
        Ok(_reply) => Ok(()),
        Err(_) => Err(HearEnd::OutOfMemory),
    }
}
