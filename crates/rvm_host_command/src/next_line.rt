//! The lines that a host is told, read one after another in bounded memory.

ghost use Rattle.std.specs.Io.BufRead.{drop_through};
ghost use Rattle.std.specs.Io.KnownBytes.{IsAtEnd, Keeps};
ghost use Rattle.std.specs.Prelude.{◌≡◌, ◌≢◌, ◌≤◌, ◌+◌, [], Ok, Some, IfOk, IfSome, OnErr, length};
ghost use Rattle.rvm_host_command.specs.Lines.{GivesByte, IsLongLine, IsToldLine};

use std::io;
use std::io::{ErrorKind, Read};

/// The most bytes of a line, without its line feed.
pub(crate) const MAX_LINE: usize = 1 << 12;

/// The most bytes of a line, with its line feed.
const WHOLE_LINE: usize = MAX_LINE + 1;

/// What was read.
#[derive(Clone, Copy, Debug, PartialEq, Eq)]
pub(crate) enum NextLine {
    /// A line of at most `MAX_LINE` bytes.
    Line,
    /// The end: no line is left.
    End,
    /// The beginning of a line that has more bytes.
    TooLong,
}

/// Reads the next line, and adds a line feed if it has none. Reads and keeps `MAX_LINE` bytes and one more at
/// most.
pub(crate) fn read_line<I: Read>(lines: &mut I, line: &mut Vec<u8>) -> io::Result<NextLine>
    ensures end { result ≡ Ok NextLine.End → IsAtEnd (I.remaining lines.old) }
    ensures one { result ≡ Ok NextLine.Line → IfSome (I.remaining lines.old)
        (λ bytes. IsToldLine bytes × (I.remaining lines.new ≡ Some (drop_through 10 bytes))) }
    ensures long { result ≡ Ok NextLine.TooLong → IfSome (I.remaining lines.old) IsLongLine }
    ensures few { length line.new.items ≤ 4097 }
{
    line.clear();
    for _byte in 0..WHOLE_LINE {
        let Some(byte) = read_byte(lines)? else {
            return end_line(line);
        };
        line.push(byte)?;
        if byte == b'\n' {
            return Ok(NextLine::Line);
        }
    }
    Ok(NextLine::TooLong)
}

/// Ends the last line of all, which has no line feed, if there is one.
fn end_line(line: &mut Vec<u8>) -> io::Result<NextLine>
    ensures end { result ≡ Ok NextLine.End → line.old.items ≡ [] }
    ensures one { result ≡ Ok NextLine.Line → line.old.items ≢ [] }
    ensures short { result ≢ Ok NextLine.TooLong }
    ensures few { length line.new.items ≤ length line.old.items + 1 }
{
    if line.is_empty() {
        return Ok(NextLine::End);
    }
    line.push(b'\n')?;
    Ok(NextLine::Line)
}

/// Reads a byte; none at the end. A read that was interrupted is made again.
fn read_byte<I: Read>(lines: &mut I) -> io::Result<Option<u8>>
    ensures { IfOk result (λ byte. IfSome (I.remaining lines.old) (GivesByte byte (I.remaining lines.new))) }
{
    for _try in 0..u64::MAX {
        match read_once(lines) {
            Err(error) if error.kind() == ErrorKind::Interrupted => {}
            read => return read,
        }
    }
    Err(io::Error::from(ErrorKind::Interrupted))
}

/// Reads a byte; none at the end. Fails if the read fails.
fn read_once<I: Read>(lines: &mut I) -> io::Result<Option<u8>>
    ensures byte { IfOk result (λ byte. IfSome (I.remaining lines.old) (GivesByte byte (I.remaining lines.new))) }
    ensures none { OnErr result (Keeps (I.remaining lines.old) (I.remaining lines.new)) }
{
    let mut byte = [0u8];
    match lines.read(&mut byte)? {
        0 => Ok(None),
        _ => Ok(Some(byte[0])),
    }
}
