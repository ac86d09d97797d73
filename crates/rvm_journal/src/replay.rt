//! Has a host do again what a line of a journal tells.

ghost use Rattle.std.specs.Prelude.{◌≡◌, ◌+◌, ◌%◌, ◌<◌, ◌≤◌, ◌∷◌, [], false, length, take, true, IfErr, IfOk, IfSome, MatchOption, None, OnErr, OnOk, Some};
ghost use Rattle.std.specs.Str.{bytes_eq};
ghost use Rattle.rvm_station.specs.Logs.{steps_from};
ghost use Rattle.rvm_journal.specs.Recorders.{HasMore, IsFull, Records, room_of};
ghost use Rattle.rvm_message.specs.declared.event.HostEvent.TheVariants.{Came};
ghost use Rattle.rvm_journal.specs.Noting.{events_of};
ghost use Rattle.rvm_journal.specs.Replaying.{HasHarts, IsLineFault, IsRoomFault, IsSpent, IsWanted, LacksRoom, first_of, left_of, noted_at};
ghost use Rattle.rvm_journal.specs.Told.{header_told, mark, text_in};

use crate::digest::{LineDigest, MARK};
use crate::noted::Noted;
use crate::recorder::Recorder;
use crate::replay_error::ReplayError;
use crate::run::Run;
use rvm_frame::Frame;
use rvm_message::{HostEvent, Shared};
use std::alloc::{AllocError, Global};
use std::fmt;

/// Why not all that is wanted of a journal was done.
#[derive(Clone, Copy, Debug, PartialEq, Eq)]
pub enum JournalFault {
    /// Memory ran out.
    OutOfMemory,
    /// A read failed.
    LinkFault,
    /// The journal tells more events than this, and no more can be counted.
    TooLong(u64),
    /// The line with this number, from 1, has more than 2^17 bytes.
    LongLine(usize),
    /// The line with this number, from 1, does not show the digest of all lines up to it, or its text tells nothing.
    BadLine(usize),
}

/// What is reported of a fault.
impl fmt::Display for JournalFault {
    ghost use Rattle.std.specs.Prelude.{Some};
    ghost use Rattle.rvm_journal.specs.Replaying.{fault_text};

    ghost output = { λ fault. Some (fault_text fault) };

    fn fmt<W: fmt::Write>(&self, f: &mut fmt::Formatter<W>) -> fmt::Result {
        match *self {
            JournalFault::OutOfMemory => f.write_str("out of memory"),
            JournalFault::LinkFault => f.write_str("refused 31 LinkFault"),
            JournalFault::TooLong(most) => write!(f, "more than {most} events"),
            JournalFault::LongLine(number) => write!(f, "line {number}: more than 131072 bytes"),
            JournalFault::BadLine(number) => write!(f, "line {number}: no line of this journal"),
        }
    }
}

/// Whether another event is wanted.
pub(crate) fn is_wanted(left: Option<u64>) -> bool
    ensures wanted { result ≡ true → IsWanted left }
    ensures none { result ≡ false → left ≡ Some 0 }
{
    match left {
        Some(left) => left > 0,
        None => true,
    }
}

/// The digest of the first line of a journal. None if the line does not show it.
#[tactic(auto, using(crate::proofs::Replayed::header_shown))]
pub(crate) fn begin(line: &[u8]) -> Option<LineDigest>
    ensures { MatchOption result (header_told line.now ≡ None)
        (λ digest. header_told line.now ≡ Some (record { digest = digest.bytes; events = [] })) }
{
    let digest = LineDigest::none().after(text_in(line));
    if shows(line, &digest) {
        Some(digest)
    } else {
        None
    }
}

/// What the line with this number tells, which is to show this digest.
pub(crate) fn read_line(
    alloc: Global,
    hosts: u8,
    host: u8,
    number: usize,
    digest: &LineDigest,
    line: &[u8],
) -> Result<Noted, JournalFault>
    ensures noted { IfOk result (λ noted. noted_at hosts host digest.now.bytes line.now ≡ Some noted) }
    ensures harts { IfOk result HasHarts }
    ensures fault { IfErr result (λ why. IsLineFault why hosts host number digest.now.bytes line.now) }
{
    let Ok(noted) = noted_in(alloc, hosts, host, digest, line) else {
        return Err(JournalFault::OutOfMemory);
    };
    match noted {
        Some(noted) => Ok(noted),
        None => Err(JournalFault::BadLine(number)),
    }
}

/// What the text of a line tells. None if the line does not show this digest, or if its text tells nothing.
#[tactic(auto, using(crate::proofs::Replayed::harts_of_noted))]
fn noted_in(
    alloc: Global,
    hosts: u8,
    host: u8,
    digest: &LineDigest,
    line: &[u8],
) -> Result<Option<Noted>, AllocError>
    ensures noted { IfOk result (λ noted. noted ≡ noted_at hosts host digest.now.bytes line.now) }
    ensures harts { IfOk result (λ noted. IfSome noted HasHarts) }
{
    if !shows(line, digest) {
        return Ok(None);
    }
    Noted::read(alloc, hosts, host, text_in(line))
}

/// Whether a line shows this digest.
#[tactic(auto, using(crate::proofs::Replayed::take_short))]
fn shows(line: &[u8], digest: &LineDigest) -> bool
    ensures { result ≡ bytes_eq (take 17 line.now) (mark digest.now.bytes) }
{
    let mark = digest.mark();
    let shown = &line[..line.len().min(MARK)];
    shown == mark.as_slice()
}

/// The text of a line, after what it shows of its digest; nothing if the line is shorter than that.
#[tactic(auto, using(crate::proofs::Replayed::drop_short))]
pub(crate) fn text_in(line: &[u8]) -> &[u8]
    ensures { result.now ≡ text_in line.now }
{
    &line[line.len().min(MARK)..]
}

/// Has a host do the events that a line tells, up to as many as are wanted, one or more, or all. Returns how many are
/// wanted after the line.
pub(crate) fn do_first<R: Recorder>(
    alloc: Global,
    noted: Noted,
    left: Option<u64>,
    recorder: &mut R,
) -> Result<Option<u64>, JournalFault>
    requires harts { HasHarts noted }
    requires wanted { IsWanted left }
    ensures done { OnOk result (Records (R.recording recorder.old) (first_of left (events_of noted))
        (R.recording recorder.new)) }
    ensures left { IfOk result (λ after. after ≡ left_of left (events_of noted)) }
    ensures room { IfErr result (λ why. IsRoomFault why (length (first_of left (events_of noted)))
        (R.recording recorder.old)) }
    ensures spent { IfErr result (λ why. IsSpent why (R.recording recorder.new)) }
    ensures more { OnErr result (HasMore (R.recording recorder.old) (R.recording recorder.new)) }
{
    let after = left_after(left, &noted);
    match do_noted(alloc, noted.up_to(left), recorder) {
        Ok(()) => Ok(after),
        Err(ReplayError::OutOfMemory) => Err(JournalFault::OutOfMemory),
        Err(ReplayError::TooMany(most)) => Err(JournalFault::TooLong(most)),
    }
}

/// How many events are wanted after those that a line tells.
fn left_after(left: Option<u64>, noted: &Noted) -> Option<u64>
    ensures { result ≡ left_of left (events_of noted.now) }
{
    match left {
        Some(left) => Some(left.saturating_sub(u64::from(noted.count()))),
        None => None,
    }
}

/// Has a host do what a line tells. Fails if memory runs out, or if the recorder takes no more events.
#[tactic(auto, using(crate::proofs::Replayed::none_done, crate::proofs::Replayed::lacks_room))]
fn do_noted<R: Recorder>(alloc: Global, noted: Noted, recorder: &mut R) -> Result<(), ReplayError>
    requires { HasHarts noted }
    ensures done { OnOk result (Records (R.recording recorder.old) (events_of noted) (R.recording recorder.new)) }
    ensures room { IfErr result (λ why. LacksRoom why (R.recording recorder.old) (length (events_of noted))) }
    ensures full { IfErr result (λ why. IsFull why (R.recording recorder.new)) }
    ensures more { OnErr result (HasMore (R.recording recorder.old) (R.recording recorder.new)) }
{
    match noted {
        Noted::Turns(run) => do_turns(alloc, run, recorder),
        Noted::Command(command) => recorder.event(alloc, HostEvent::Do(command)),
        Noted::Came { from, frame } => do_came(alloc, from, frame, recorder),
        Noted::Met(_) | Noted::End => Ok(()),
    }
}

/// Has a host hear a frame from host `from`.
fn do_came<R: Recorder>(
    alloc: Global,
    from: u8,
    frame: Frame,
    recorder: &mut R,
) -> Result<(), ReplayError>
    ensures done { OnOk result (Records (R.recording recorder.old) (Came from frame ∷ []) (R.recording recorder.new)) }
    ensures full { IfErr result (λ why. IsFull why (R.recording recorder.old)) }
    ensures same { OnErr result (R.recording recorder.new ≡ R.recording recorder.old) }
{
    match Shared::new(alloc, frame) {
        Ok(frame) => recorder.event(alloc, HostEvent::Came(from, frame)),
        Err(_) => Err(ReplayError::OutOfMemory),
    }
}

/// Has the harts of a host take turns.
fn do_turns<R: Recorder>(alloc: Global, run: Run, recorder: &mut R) -> Result<(), ReplayError>
    requires { (1 ≤ run.harts) × (run.harts ≤ 8) }
    ensures done { OnOk result (Records (R.recording recorder.old) (steps_from run.first run.harts run.count)
        (R.recording recorder.new)) }
    ensures room { IfErr result (λ why. LacksRoom why (R.recording recorder.old)
        (length (steps_from run.first run.harts run.count))) }
    ensures full { IfErr result (λ why. IsFull why (R.recording recorder.new)) }
    ensures more { OnErr result (HasMore (R.recording recorder.old) (R.recording recorder.new)) }
{
    let harts = run.harts;
    let mut turn = run.first;
    let mut left = run.count;
    while left > 0 {
        let made = recorder.turns(alloc, turn, harts, left)?;
        turn = turn_behind(turn, made, harts);
        left -= made;
    }
    Ok(())
}

/// The number of the turn that comes `made` turns after turn `turn`; if it is too large, that of an earlier turn of the
/// same hart.
#[tactic(auto, using(crate::proofs::Runs::twice))]
fn turn_behind(turn: u32, made: u32, harts: u32) -> u32
    requires { 1 ≤ harts }
    ensures { result % harts ≡ (turn + made) % harts }
{
    match turn.checked_add(made) {
        Some(turn) => turn,
        None => ((u64::from(turn) + u64::from(made)) % u64::from(harts)) as u32,
    }
}
