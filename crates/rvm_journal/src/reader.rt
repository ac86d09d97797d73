//! A journal that is read line by line, as long as it may be.

ghost use Rattle.std.specs.Prelude.{◌≡◌, ◌++◌, IfErr, IfOk, IfSome, List, None, Ok, OnErr, OnOk, Some, codes, false, length, true, ℕ};
ghost use Rattle.std.specs.Io.KnownBytes.{Consumes};
ghost use Rattle.std.specs.List.{list_all};
ghost use Rattle.rvm_debug.specs.Words.{lines};
ghost use Rattle.rvm_journal.specs.Headers.{IsRanged, header_at};
ghost use Rattle.rvm_journal.specs.Reading.{IfLong, IsAllRead, IsAtLastLine, IsPiece, IsReadFault, IsSizeOfLine, IsSystemFault, IsTextOf};
ghost use Rattle.rvm_journal.specs.Recorders.{HasMore, room_of};
ghost use Rattle.rvm_journal.specs.Replaying.{IsJournalFault, IsReplayedTo, IsSpent};
ghost use Rattle.rvm_journal.specs.Whole.{IsJournal};
ghost use Rattle.rvm_journal.specs.Written.{is_no_feed};
ghost use Rattle.rvm_journal.specs.declared.reader.Piece.TheVariants.{Part};

use crate::digest::LineDigest;
use crate::header::Header;
use crate::read_journal::ReadJournal;
use crate::recorder::Recorder;
use crate::replay::{JournalFault, begin, do_first, is_wanted, read_line, text_in};
use memchr::memchr;
use std::alloc::Global;
use std::io::{BufRead, Error, ErrorKind};
use std::marker::Model;
use std::snapshot::Snapshot;

/// The most bytes of a line, without its line feed: more than the line of any event has.
const MAX_LINE: usize = 1 << 17;

/// A journal of which the first line was read, which is its header's. The other lines are read one after the other, and none is
/// kept. What comes after the last line feed is part of a line that could not be written to its end, and is ignored.
#[derive(Drop)]
pub struct JournalReader<I: BufRead + Drop> {
    alloc: Global,
    input: I,
    header: Header,
    /// The first line.
    read: ReadJournal,
    /// The digest of that line.
    digest: LineDigest,
    /// The input as it was before that line.
    began: Snapshot<I>,
}

impl<I: BufRead + Drop> Model for JournalReader<I> {
    ghost use Rattle.rvm_journal.specs.Reading.{Opened};
    ghost use Rattle.rvm_journal.specs.Reading.{IsOpened};

    ghost Value = { Opened };

    ghost view = { λ r. record { known = I.remaining r.began.value; header = r.header } };

    ghost invariant = { λ r. IsOpened (I.remaining r.began.value) (I.remaining r.input) r.header r.read r.digest.bytes };
}

/// What was read of a line.
#[derive(Clone, Copy)]
enum Piece {
    /// All up to its line feed, which was read with it.
    Line,
    /// Some of its bytes, or none.
    Part,
    /// No bytes, since none are left.
    End,
}

impl<I: BufRead + Drop> JournalReader<I> {
    /// Reads the first line. Returns None if there is none, if it does not show its digest, or if its text tells no header.
    /// Fails with `LongLine` if it has more than 2^17 bytes, with `LinkFault` if a read fails, and with `OutOfMemory` if
    /// memory runs out.
    #[tactic(auto, using(crate::proofs::Reading::none_first, crate::proofs::Reading::other_first, crate::proofs::Reading::unshown, crate::proofs::Reading::untold, crate::proofs::Reading::told_header))]
    pub fn open(alloc: Global, input: I) -> Result<Option<JournalReader<I>>, JournalFault>
        ensures none { result ≡ Ok None
            → (text : List ℕ) × IsJournal (I.remaining input) text × (header_at text ≡ None) }
        ensures some { IfOk result (λ o. IfSome o (λ r. r.known ≡ I.remaining input)) }
        ensures text { IfOk result (λ o. IfSome o (λ r. (text : List ℕ) × IsTextOf r text)) }
        ensures fault { IfErr result (IsReadFault (I.remaining input) 1) }
    {
        let mut input = input;
        let began = Snapshot::of(&input);
        let mut line = Vec::new(alloc);
        if !next_line(&mut input, &mut line, 1)? {
            return Ok(None);
        }
        let digest = match begin(&line) {
            Some(digest) => digest,
            None => return Ok(None),
        };
        let Some(header) = Header::read(text_in(&line)) else {
            return Ok(None);
        };
        match ReadJournal::begin(alloc, header, &line) {
            Ok(read) => Ok(Some(JournalReader {
                alloc,
                input,
                header,
                read,
                digest,
                began,
            })),
            Err(_) => Err(JournalFault::OutOfMemory),
        }
    }

    /// Returns the header.
    pub fn header(&self) -> Header
        ensures header { result ≡ self.now.header }
        ensures range { IsRanged result }
        ensures text { (text : List ℕ) × IsTextOf self.now text }
    {
        self.header
    }

    /// Has a host do what the lines after the first tell of host `host` of this many hosts: the events in order, up to `most`
    /// of them, or all. No line is looked at after these events, and the last line that is looked at may tell more of them.
    /// Returns what was read.
    ///
    /// Fails with `BadLine` at the first line that does not show the digest of all lines up to it, or whose text tells
    /// nothing; with `LongLine` at one of more than 2^17 bytes; with `TooLong` if the recorder takes no more entries; with
    /// `LinkFault` if a read fails; with `OutOfMemory` if memory runs out. What the lines before tell has been recorded then.
    pub fn replay<R: Recorder>(
        self,
        hosts: u8,
        host: u8,
        most: Option<u64>,
        recorder: &mut R,
    ) -> Result<ReadJournal, JournalFault>
        ensures told { IfOk result (λ read. (text : List ℕ) × IsTextOf self text × IsAllRead most read text
            × IsReplayedTo most hosts host text (R.recording recorder.old) (R.recording recorder.new)) }
        ensures fault { IfErr result (λ why. (text : List ℕ) × IsTextOf self text
            × IsJournalFault why most hosts host (lines text) (R.recording recorder.old).capacity
            (room_of (R.recording recorder.old))) }
        ensures long { IfErr result (IfLong self.known) }
        ensures spent { IfErr result (λ why. IsSpent why (R.recording recorder.new)) }
        ensures more { OnErr result (HasMore (R.recording recorder.old) (R.recording recorder.new)) }
    {
        let JournalReader {
            alloc,
            mut input,
            header: _,
            mut read,
            mut digest,
            began: _,
        } = self;
        let mut line = Vec::new(alloc);
        let mut left = most;
        // Nobody waits for the last of these lines.
        for before in 1..usize::MAX {
            if !is_wanted(left) {
                return Ok(read);
            }
            if !next_line(&mut input, &mut line, before + 1)? {
                return Ok(read);
            }
            digest = digest.after(text_in(&line));
            let noted = read_line(alloc, hosts, host, before + 1, &digest, &line)?;
            left = do_first(alloc, noted, left, recorder)?;
            if read.add(&line).is_err() {
                return Err(JournalFault::OutOfMemory);
            }
        }
        Err(JournalFault::LinkFault)
    }
}

/// Reads the next line, without its line feed, into `line`. Returns false if no whole line is left. Fails with `LongLine` if
/// more than 2^17 bytes come without a line feed, with `LinkFault` if a read fails, and with `OutOfMemory` if memory runs out.
fn next_line<I: BufRead>(
    input: &mut I,
    line: &mut Vec<u8>,
    number: usize,
) -> Result<bool, JournalFault>
    ensures line { result ≡ Ok true
        → Consumes (I.remaining input.old) (I.remaining input.new) (line.new.items ++ codes "\n") }
    ensures one { result ≡ Ok true → list_all is_no_feed line.new.items ≡ true }
    ensures end { result ≡ Ok false → IsAtLastLine (I.remaining input.old) }
    ensures fault { IfErr result (IsReadFault (I.remaining input.old) number) }
{
    line.clear();
    // Nobody waits for the last of these reads.
    for _ in 0..u64::MAX {
        match read_piece(input, line)? {
            Piece::Line => return Ok(true),
            Piece::End => return Ok(false),
            Piece::Part => {}
        }
        if line.len() > MAX_LINE {
            return Err(JournalFault::LongLine(number));
        }
    }
    Err(JournalFault::LinkFault)
}

/// Appends to `line` what a reader has at hand of it.
fn read_piece<I: BufRead>(input: &mut I, line: &mut Vec<u8>) -> Result<Piece, JournalFault>
    ensures piece { IfOk result (λ p. IsPiece p (I.remaining input.old) (I.remaining input.new)
        line.old.items line.new.items) }
    ensures fault { IfErr result IsSystemFault }
{
    let bytes = match input.fill_buf() {
        Ok(bytes) => bytes,
        Err(error) => return fault_of(error),
    };
    if bytes.is_empty() {
        return Ok(Piece::End);
    }
    let all = bytes.len();
    let size = size_of_line(bytes);
    append(line, &bytes[..size])?;
    if size == all {
        input.consume(size);
        return Ok(Piece::Part);
    }
    input.consume(size + 1);
    Ok(Piece::Line)
}

/// How many of these bytes come before the first line feed; all if there is none.
#[tactic(auto, using(crate::proofs::Pieces::size_of_all))]
fn size_of_line(bytes: &[u8]) -> usize
    ensures { IsSizeOfLine bytes.now result }
{
    match memchr(b'\n', bytes) {
        Some(size) => size,
        None => bytes.len(),
    }
}

/// Appends bytes to a line. Fails if memory runs out.
fn append(line: &mut Vec<u8>, bytes: &[u8]) -> Result<(), JournalFault>
    ensures items { OnOk result (line.new.items ≡ line.old.items ++ bytes.now) }
    ensures fault { IfErr result IsSystemFault }
{
    match line.extend_from_slice(bytes) {
        Ok(()) => Ok(()),
        Err(_) => Err(JournalFault::OutOfMemory),
    }
}

/// What is reported of an error of the system. A read that was interrupted is made again.
fn fault_of(error: Error) -> Result<Piece, JournalFault>
    ensures part { IfOk result (λ piece. piece ≡ Part) }
    ensures fault { IfErr result IsSystemFault }
{
    match error.kind() {
        ErrorKind::Interrupted => Ok(Piece::Part),
        ErrorKind::OutOfMemory => Err(JournalFault::OutOfMemory),
        _ => Err(JournalFault::LinkFault),
    }
}
