//! `rvmove tell`: tells a host lines, and writes its answers.

ghost use Rattle.std.specs.Io.KnownBytes.{Appends};
ghost use Rattle.std.specs.Prelude.{◌≡◌, ◌⊎◌, ◌++◌, List, ℕ, None, Some, IfErr, IfOk, IfSome, IsOkAnd, OnOk, codes};
ghost use Rattle.rvm_refusal.specs.Refusal.{text_of};
ghost use Rattle.rvm_refusal.specs.declared.refusal.Refusal.TheVariants as refusal;
ghost use Rattle.rvm_host_command.specs.Answered.{AreAnswered, GoesOn, Grows, HasTold, IsCutShort, Says, both_done, last_line};

use crate::address::is_path;
use crate::next_line::{NextLine, read_line};
use crate::operators::Operator;
use rvm_refusal::Refusal;
use std::alloc::Global;
use std::io;
use std::io::{BufRead, BufReader, Read, Write};
use std::net::{Net, OpenStream, Shutdown, TcpStream};
use std::os::unix::net::UnixStream;

/// Connects to a host as an operator: at a Unix socket if the text is a path, else at an address.
pub fn connect_to<R: Net>(rt: &R, control: &str) -> io::Result<Operator<R::Stream>> {
    if is_path(control) {
        Ok(Operator::Unix(UnixStream::connect(rt, control)?))
    } else {
        Ok(Operator::Tcp(TcpStream::connect(rt, control)?))
    }
}

/// Whether what was asked happened.
#[derive(Clone, Copy, Debug, PartialEq, Eq)]
enum Told {
    Done,
    NotDone,
}

/// The status if an answer was lost.
pub const LOST: u8 = 3;

/// How a line begins that reports how far a move has come.
const PROGRESS: &[u8] = b"progress ";

/// Tells a host lines over a connection, each after the answer to the one before, and writes the answers to `output`.
/// The lines that report how far a move has come go to `progress`. A line that is too long for a host ends it: of that
/// line and those after it nothing is sent, and `output` gets what the host would answer. Returns the status: 0 if all
/// that was asked happened, 1 if something did not, and 3 if that is not known, since an answer was lost or could not be
/// written, or a line could not be read or sent.
pub fn tell_command<S: Read + Write + OpenStream + Drop, I: BufRead, O: Write, P: Write>(
    alloc: Global,
    stream: S,
    lines: &mut I,
    output: &mut O,
    progress: &mut P,
) -> u8
    ensures done { result ≡ 0 → AreAnswered (I.remaining lines.old) (S.remaining stream) Told.Done }
    ensures not_done { result ≡ 1 → AreAnswered (I.remaining lines.old) (S.remaining stream) Told.NotDone
        ⊎ IsCutShort (I.remaining lines.old) (S.remaining stream) (O.contents output.old) (O.contents output.new) }
    ensures others { (result ≡ 0) ⊎ ((result ≡ 1) ⊎ (result ≡ 3)) }
{
    status_of(tell_lines(alloc, stream, lines, output, progress))
}

/// The status that says whether what was asked happened.
fn status_of(told: io::Result<Told>) -> u8
    ensures done { result ≡ 0 → IsOkAnd told (λ t. t ≡ Told.Done) }
    ensures not_done { result ≡ 1 → IsOkAnd told (λ t. t ≡ Told.NotDone) }
    ensures lost { IfErr told (λ fault. result ≡ 3) }
    ensures others { (result ≡ 0) ⊎ ((result ≡ 1) ⊎ (result ≡ 3)) }
{
    match told {
        Ok(Told::Done) => 0,
        Ok(Told::NotDone) => 1,
        Err(_) => LOST,
    }
}

/// Tells a host lines, and writes its answers. Returns whether all that was asked happened, and all lines were told.
#[tactic(auto, using(crate::proofs::Answered::all_answered))]
fn tell_lines<S: Read + Write + OpenStream + Drop, I: BufRead, O: Write, P: Write>(
    alloc: Global,
    stream: S,
    lines: &mut I,
    output: &mut O,
    progress: &mut P,
) -> io::Result<Told>
    ensures { IfOk result (HasTold (I.remaining lines.old) (S.remaining stream)
        (O.contents output.old) (O.contents output.new)) }
{
    let mut sending = stream.try_clone()?;
    let mut answers = BufReader::new(alloc, stream)?;
    let mut line = Vec::new(alloc);
    let mut told = Told::Done;
    for _line in 0..u64::MAX {
        match read_line(lines, &mut line)? {
            NextLine::Line => {}
            NextLine::End => {
                sending.shutdown(Shutdown::Write)?;
                return Ok(told);
            }
            NextLine::TooLong => {
                refuse_line(output)?;
                return Ok(Told::NotDone);
            }
        }
        sending.write_all(&line)?;
        sending.flush()?;
        let answer = read_answer(&mut answers, &mut line, output, progress)?;
        told = both(told, answer);
    }
    Err(io::Error::from(io::ErrorKind::UnexpectedEof))
}

/// Whether both happened.
fn both(one: Told, other: Told) -> Told
    ensures { result ≡ both_done one other }
{
    match other {
        Told::Done => one,
        Told::NotDone => Told::NotDone,
    }
}

/// Writes that a line is too long, as a host does.
fn refuse_line<O: Write>(output: &mut O) -> io::Result<()>
    ensures { OnOk result (Appends (O.contents output.old) (O.contents output.new)
        (text_of refusal.TooLong ++ codes "\n")) }
{
    writeln!(output, "{}", Refusal::TooLong)?;
    output.flush()
}

/// Reads an answer, and writes all of it but its last line. Returns what that line says: whether what was asked
/// happened. Fails if the answer ends before it.
#[tactic(auto, using(crate::proofs::Answered::says_so))]
fn read_answer<I: BufRead, O: Write, P: Write>(
    answers: &mut I,
    line: &mut Vec<u8>,
    output: &mut O,
    progress: &mut P,
) -> io::Result<Told>
    ensures says { IfOk result (λ told. IfSome (I.remaining answers.old)
        (λ bytes. (after : List ℕ) × (I.remaining answers.new ≡ Some after) × Says told bytes after)) }
    ensures shown { OnOk result (Grows (O.contents output.old) (O.contents output.new)) }
{
    for _line in 0..u64::MAX {
        line.clear();
        if answers.read_until(b'\n', line)? == 0 {
            break;
        }
        match end_of(line) {
            Some(told) => {
                output.flush()?;
                return Ok(told);
            }
            None => show_line(line, output, progress)?,
        }
    }
    Err(io::Error::from(io::ErrorKind::UnexpectedEof))
}

/// What a line says if it is the last one of an answer; none if it is another.
fn end_of(line: &[u8]) -> Option<Told>
    ensures says { IfSome result (λ told. line.now ≡ last_line told) }
    ensures none { result ≡ None → GoesOn line.now }
{
    if line == b"end 0\n".as_slice() {
        return Some(Told::Done);
    }
    if line == b"end 1\n".as_slice() {
        return Some(Told::NotDone);
    }
    None
}

/// Writes a line of an answer. One that reports how far a move has come goes to `progress`, and is lost if it cannot be
/// written.
#[tactic(auto, using(crate::proofs::Answered::grows_not))]
fn show_line<O: Write, P: Write>(line: &[u8], output: &mut O, progress: &mut P) -> io::Result<()>
    ensures { OnOk result (Grows (O.contents output.old) (O.contents output.new)) }
{
    match line.strip_prefix(PROGRESS) {
        Some(text) => {
            let _untold = progress.write_all(text);
            Ok(())
        }
        None => output.write_all(line),
    }
}
