//! What the bytes from the beginning of a frame are, and reading one whole frame.

ghost use Rattle.std.specs.Prelude.{◌≡◌, Option, Some, IfOk, option_map};
ghost use Rattle.rvm_frame.specs.Grammar.{Received, Spells};
ghost use Rattle.rvm_frame.specs.Faults.{Finds, Gives};
ghost use Rattle.rvm_frame.specs.Verdict.{after_header, header_at, hosts_at, numbers_at, one_frame_of, verdict};

use crate::addressed::Received;
use crate::body::read_body;
use crate::fault::ReadFault;
use crate::kind::{Kind, hosts_fit, limit_of, names_hosts};
use rvm_codec::{u8_at, u32_at, u64_at};
use std::alloc::Global;

/// A header after its kind: from and to if it names them, the move number, and the number of bytes of the body.
#[derive(Clone, Copy)]
pub struct Header {
    pub(crate) hosts: Option<(u8, u8)>,
    pub(crate) move_number: u64,
    pub(crate) len: u32,
}

/// From and to, if headers name them, and the bytes after them; none if there are too few bytes.
fn hosts_of(named: bool, bytes: &[u8]) -> Option<(Option<(u8, u8)>, &[u8])>
    ensures { option_map (λ x. (x.0, x.1.now)) result ≡ hosts_at named bytes.now }
{
    if !named {
        return Some((None, bytes));
    }
    let (from, rest) = u8_at(bytes)?;
    let (to, rest) = u8_at(rest)?;
    Some((Some((from, to)), rest))
}

/// The move number, the number of bytes of the body, and the bytes after these two; none if there are too few bytes.
fn numbers_of(bytes: &[u8]) -> Option<(u64, u32, &[u8])>
    ensures { option_map (λ x. (x.0, x.1, x.2.now)) result ≡ numbers_at bytes.now }
{
    let (move_number, rest) = u64_at(bytes)?;
    let (len, rest) = u32_at(rest)?;
    Some((move_number, len, rest))
}

/// The header after its kind, and the bytes after it; none if there are too few bytes.
pub(crate) fn header_of(named: bool, bytes: &[u8]) -> Option<(Header, &[u8])>
    ensures { option_map (λ x. (x.0.hosts, x.0.move_number, x.0.len, x.1.now)) result
        ≡ header_at named bytes.now }
{
    let (hosts, rest) = hosts_of(named, bytes)?;
    let (move_number, len, rest) = numbers_of(rest)?;
    let header = Header {
        hosts,
        move_number,
        len,
    };
    Some((header, rest))
}

/// What the bytes after a header are: the body of a frame, or None as long as it is not whole.
#[tactic(auto, unfolding(crate::specs::Verdict::after_header))]
fn judge_body(
    alloc: Global,
    version: Option<u32>,
    kind: Kind,
    header: Header,
    body: &[u8],
) -> Result<Option<Received>, ReadFault>
    ensures { Finds result (after_header version kind header.hosts header.move_number header.len
        body.now) }
{
    if limit_of(version) < header.len {
        return Err(ReadFault::TooLong);
    }
    if !kind.may_have_length(header.len) {
        return Err(ReadFault::BadFrame);
    }
    if !kind.may_have_move(header.move_number) {
        return Err(ReadFault::BadFrame);
    }
    if !hosts_fit(header.hosts) {
        return Err(ReadFault::BadFrame);
    }
    if body.len() < header.len as usize {
        return Ok(None);
    }
    if (header.len as usize) < body.len() {
        return Err(ReadFault::BadFrame);
    }
    match read_body(alloc, kind, header.move_number, body)? {
        None => Err(ReadFault::BadFrame),
        Some(frame) => Ok(Some((header.hosts, frame))),
    }
}

/// What the bytes from the beginning of a frame are: a whole frame, or None if they only begin one.
pub(crate) fn judge(
    alloc: Global,
    version: Option<u32>,
    bytes: &[u8],
) -> Result<Option<Received>, ReadFault>
    ensures { Finds result (verdict version bytes.now) }
{
    match bytes {
        [] => Ok(None),
        [byte, rest @ ..] => match Kind::of_byte(*byte) {
            None => Err(ReadFault::BadFrame),
            Some(kind) => {
                if !kind.may_stand(version) {
                    return Err(ReadFault::BadFrame);
                }
                match header_of(names_hosts(version), rest) {
                    None => Ok(None),
                    Some((header, body)) => judge_body(alloc, version, kind, header, body),
                }
            }
        },
    }
}

/// The frame that all of the bytes spell in a stream of this version.
fn one_frame(alloc: Global, version: u32, bytes: &[u8]) -> Result<Received, ReadFault>
    ensures { Gives result (one_frame_of (verdict (Some version) bytes.now)) }
{
    match judge(alloc, Some(version), bytes) {
        Ok(Some(received)) => Ok(received),
        Ok(None) => Err(ReadFault::BadFrame),
        Err(fault) => Err(fault),
    }
}

/// The one frame that the bytes spell in a stream of this version, with from and to in version 3; it is never a Hello.
/// `TooLong` if the header's length is above the version's limit; `BadFrame` if the bytes are no such frame, end inside
/// it or go on after it; `OutOfMemory` only if they are such a frame.
pub fn read_frame(alloc: Global, version: u32, bytes: &[u8]) -> Result<Received, ReadFault>
    // What is read is spelled so.
    ensures found { IfOk result (λ x. Spells (Some version) bytes.now x) }
    // What is spelled so is read, unless memory runs out.
    ensures only { (x : Received) → Spells (Some version) bytes.now x → Gives result (Ok x) }
    // Which fault it is.
    ensures exact { Gives result (one_frame_of (verdict (Some version) bytes.now)) }
{
    one_frame(alloc, version, bytes)
}
