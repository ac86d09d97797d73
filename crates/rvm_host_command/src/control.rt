//! The threads that answer operators.

ghost use Rattle.std.specs.Prelude.{◌≤◌, length, IfOk, IfSome};

use crate::answers::{Outcome, answer_line, refuse};
use crate::next_line::MAX_LINE;
use crate::operators::Operators;
use crate::process::Process;
use rvm_refusal::{LinkFault, Refusal};
use rvm_station::{Access, Hosting};
use std::io::{ErrorKind, Read, Write};
use std::net::{Net, OpenStream};
use std::sync::Wait;
use std::thread;
use std::time::{Clock, Duration};

/// The milliseconds between two looks for a connection, and whether the process is to end.
const LOOK: u64 = 10;

/// The milliseconds that a read waits before the thread looks whether the process is to end.
const READ: u64 = 100;

/// The milliseconds that a write waits for the operator to read.
const WRITE: u64 = 2000;

/// Answers operators, one connection after another, until the process is to end.
pub(crate) fn control_worker<L: Hosting, A: Access<L>, R: Net + Wait + Clock>(
    rt: &R,
    process: &Process<L, R::Stream>,
    access: &mut A,
    operators: &Operators<R::Listener>,
) {
    for _look in rt.forever() {
        if process.is_stopping() {
            return;
        }
        match operators.accept() {
            Ok(stream) => {
                let _ended = answer(rt, process, access, stream);
            }
            Err(_) => thread::sleep(rt, Duration::from_millis(LOOK)),
        }
    }
    unreachable!()
}

/// Answers the lines of a connection, until it ends or the process is to end. `LinkFault` if a read or a write fails,
/// or if a line was refused before its end.
fn answer<
    L: Hosting,
    A: Access<L>,
    S: Read + Write + OpenStream + Drop,
    C: Read + Write + OpenStream + Drop,
    R: Wait + Clock,
>(rt: &R, process: &Process<L, S>, access: &mut A, stream: C) -> Result<(), LinkFault> {
    let mut stream = stream;
    stream.set_nonblocking(false)?;
    stream.set_read_timeout(Some(Duration::from_millis(READ)))?;
    stream.set_write_timeout(Some(Duration::from_millis(WRITE)))?;
    let mut output = stream.try_clone()?;
    let mut line = Vec::new(process.station.alloc);
    let mut buffer = [0u8; 1024];
    for _read in rt.forever() {
        if process.is_stopping() {
            return Ok(());
        }
        let Some(count) = read_some(&mut stream, &mut buffer)? else {
            continue;
        };
        if count == 0 {
            return answer_last(rt, process, access, line.as_slice(), &mut output);
        }
        take_bytes(
            rt,
            process,
            access,
            &buffer[..count],
            &mut line,
            &mut output,
        )?;
    }
    unreachable!()
}

/// Reads what came. Returns the number of bytes, 0 at the end of the connection; none if nothing has come yet.
/// `LinkFault` if the read fails.
fn read_some<C: Read>(stream: &mut C, buffer: &mut [u8]) -> Result<Option<usize>, LinkFault>
    ensures { IfOk result (λ o. IfSome o (λ n. n ≤ length buffer.new)) }
{
    match stream.read(buffer) {
        Ok(count) => Ok(Some(count)),
        Err(error) => {
            match error.kind() {
                ErrorKind::WouldBlock | ErrorKind::Interrupted => Ok(None),
                _ => Err(LinkFault),
            }
        }
    }
}

/// Takes bytes that came, and answers each line that they end. A line that is too long, or for which memory runs out,
/// is refused, and ends the connection.
fn take_bytes<
    L: Hosting,
    A: Access<L>,
    S: Read + Write + OpenStream + Drop,
    O: Write,
    R: Wait + Clock,
>(
    rt: &R,
    process: &Process<L, S>,
    access: &mut A,
    bytes: &[u8],
    line: &mut Vec<u8>,
    output: &mut O,
) -> Result<(), LinkFault> {
    for byte in bytes {
        if *byte == b'\n' {
            answer_and_end(rt, process, access, line.as_slice(), output)?;
            line.clear();
        } else if line.len() >= MAX_LINE {
            return refuse_and_end(output, Refusal::TooLong);
        } else if line.push(*byte).is_err() {
            return refuse_and_end(output, Refusal::OutOfMemory);
        }
    }
    Ok(())
}

/// Refuses a line whose end has not come. Returns `LinkFault`, which ends the connection.
fn refuse_and_end<O: Write>(output: &mut O, why: Refusal) -> Result<(), LinkFault> {
    let outcome = refuse(output, why)?;
    end_answer(output, outcome)?;
    Err(LinkFault)
}

/// Answers the last line of a connection, if it has no line feed.
fn answer_last<
    L: Hosting,
    A: Access<L>,
    S: Read + Write + OpenStream + Drop,
    O: Write,
    R: Wait + Clock,
>(
    rt: &R,
    process: &Process<L, S>,
    access: &mut A,
    line: &[u8],
    output: &mut O,
) -> Result<(), LinkFault> {
    if line.is_empty() {
        return Ok(());
    }
    answer_and_end(rt, process, access, line, output)
}

/// Answers a line. The last line of the answer says whether what was asked happened: `end 0` if it did, else `end 1`.
fn answer_and_end<
    L: Hosting,
    A: Access<L>,
    S: Read + Write + OpenStream + Drop,
    O: Write,
    R: Wait + Clock,
>(
    rt: &R,
    process: &Process<L, S>,
    access: &mut A,
    line: &[u8],
    output: &mut O,
) -> Result<(), LinkFault> {
    let outcome = answer_line(rt, process, access, line, output)?;
    end_answer(output, outcome)
}

/// Writes the last line of an answer.
fn end_answer<O: Write>(output: &mut O, outcome: Outcome) -> Result<(), LinkFault> {
    let status = match outcome {
        Outcome::Done => 0,
        Outcome::Refused => 1,
    };
    writeln!(output, "end {status}")?;
    output.flush()?;
    Ok(())
}
