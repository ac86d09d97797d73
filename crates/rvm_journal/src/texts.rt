//! The texts of the lines of a journal.

use crate::noted::STREAM_VERSION;
use crate::run::Run;
use rvm_core::{Event, write_event};
use rvm_frame::{Addressed, Frame, frame_bytes, has_spelling};
use rvm_message::Command;
use rvm_refusal::LinkFault;
use rvm_station::Meeting;
use std::alloc::{AllocError, Global};
use std::io::Write;

/// The text of the last line of a journal that is whole.
pub(crate) const END: &[u8] = b"end";

/// The text of turns.
pub(crate) fn turns_text(alloc: Global, run: Run) -> Result<Vec<u8>, LinkFault> {
    let mut text = Vec::new(alloc);
    write!(text, "turns {} {} {}", run.first, run.harts, run.count)?;
    Ok(text)
}

/// The text of a command that host `host` of this many hosts was given: the line of a world's script that gives it.
pub(crate) fn command_text(
    alloc: Global,
    hosts: u8,
    host: u8,
    command: &Command,
) -> Result<Vec<u8>, LinkFault> {
    let mut text = Vec::new(alloc);
    write_event(&mut text, hosts, &Event::At(host, command.copy()))?;
    let _line_feed = text.pop();
    Ok(text)
}

/// The text of a frame that came from host `from` to host `host`. Fails if the frame has no spelling, or if memory runs
/// out.
pub(crate) fn came_text(
    alloc: Global,
    host: u8,
    from: u8,
    frame: &Frame,
) -> Result<Vec<u8>, LinkFault> {
    let Ok(bytes) = bytes_of(alloc, host, from, frame) else {
        return Err(LinkFault);
    };
    let Ok(digits) = hex::encode(alloc, bytes) else {
        return Err(LinkFault);
    };
    let mut text = Vec::new(alloc);
    write!(text, "came ")?;
    text.write_all(digits.as_bytes())?;
    Ok(text)
}

/// The text of another host that was met.
pub(crate) fn met_text(alloc: Global, meeting: Meeting) -> Result<Vec<u8>, LinkFault> {
    let mut text = Vec::new(alloc);
    write!(
        text,
        "met {} process {} world {}",
        meeting.host, meeting.process, meeting.world
    )?;
    Ok(text)
}

/// The bytes of a frame from host `from` to host `host`; none if it has no spelling.
fn bytes_of(alloc: Global, host: u8, from: u8, frame: &Frame) -> Result<Vec<u8>, AllocError> {
    let addressed = Addressed {
        from,
        to: host,
        frame: frame.copy(alloc)?,
    };
    if !has_spelling(STREAM_VERSION, &addressed) {
        return Err(AllocError);
    }
    frame_bytes(alloc, STREAM_VERSION, &addressed)
}
