//! The frames of a paused guest's state.

ghost use Rattle.std.specs.Prelude.{◌≡◌, ◌+◌, ◌*◌, ◌<◌, ◌≤◌, [], get_or, if◌then◌else◌, length, nat_lt, None, Some, IfOk, OnOk};
ghost use Rattle.rvm_state.specs.Spelling.{longest};
ghost use Rattle.rvm_guest.specs.Body.{body_of};
ghost use Rattle.rvm_guest.specs.Pieces.{cut, pieces};
ghost use Rattle.rvm_precopy.specs.Coverage.{CoversLast};
ghost use Rattle.rvm_precopy.specs.Plans.{last_found, last_of};
ghost use Rattle.rvm_message.specs.Answers.{Answers};
ghost use Rattle.rvm_message.specs.Sendable.{CanBeSent};
ghost use Rattle.rvm_source.specs.Bounds.{state_bound, state_frame_bound};
ghost use Rattle.rvm_source.specs.Sources.{HasTurn, IsCovered, mode_in};
ghost use Rattle.rvm_source.specs.States.{sends_state_of};

use crate::phase::Phase;
use rvm_board::Debugged;
use rvm_frame::{Bytes, CopyNumbers, Frame, state_body};
use rvm_mem::{Memory, PagedMemory};
use rvm_message::HostReply;
use rvm_precopy::Rounds;
use rvm_state::{MAX_STATE_LEN, write_state};
use std::alloc::{AllocError, Global};

/// The number of bytes of each piece of a state; the last one may have fewer, but has at least one.
const PIECE: usize = 4096;

/// What one command sends of a state: the reply, if the command is Copy; the frame; and the phase after it.
#[derive(Drop)]
pub(crate) struct Sent {
    pub(crate) reply: HostReply,
    pub(crate) frame: Frame,
    pub(crate) next: Phase,
}

/// The most body bytes of a State frame of a guest of this many pages: the number of each page's newest copy, and the
/// state.
pub(crate) fn state_bound(pages: u32) -> usize
    ensures { result ≡ state_bound pages }
{
    2 + 4 * pages as usize + MAX_STATE_LEN
}

/// Makes the frame of a paused guest's state for a stream of this version: the whole state in version 1, and from
/// version 2 on the piece with index `turn`. Fails if memory runs out.
pub(crate) fn send_state<M: PagedMemory>(
    alloc: Global,
    version: u32,
    move_number: u64,
    rounds: &Rounds,
    guest: &Debugged<M>,
    turn: u8,
) -> Result<Sent, AllocError>
    requires size { length guest.now.dirty ≡ length rounds.now.to_send }
    requires turn { HasTurn (Phase.Stopped turn) guest.now rounds.now }
    requires move_number { 0 < move_number }
    requires covered { CoversLast rounds.now }
    requires copied { last_found rounds.now ≡ None }
    ensures sent { IfOk result (λ s. Answers version
        (sends_state_of version move_number (last_of guest.now.guest turn rounds.now))
        (s.reply, Some s.frame) (mode_in move_number guest.now rounds.now s.next)) }
    ensures turn { IfOk result (λ s. HasTurn s.next guest.now rounds.now) }
    ensures covered { IfOk result (λ s. IsCovered s.next guest.now.dirty rounds.now) }
    ensures spelled { IfOk result (λ s. CanBeSent version
        (Some (state_frame_bound version (length rounds.now.to_send))) (Some s.frame)) }
{
    let _pages = rounds.pages();
    let _size = guest.memory().len();
    let stamp = rounds.copies();
    if version < 2 {
        return Ok(Sent {
            reply: HostReply::StateSent,
            frame: state_frame(alloc, move_number, rounds.newest(), guest)?,
            next: Phase::Stopped { turn },
        });
    }
    let piece = cut_piece(alloc, rounds.newest(), guest, turn)?;
    Ok(Sent {
        reply: HostReply::PartSent {
            part: turn,
            parts: piece.parts,
        },
        frame: Frame::Part {
            move_number,
            stamp,
            part: turn,
            parts: piece.parts,
            bytes: piece.bytes,
        },
        next: Phase::Stopped {
            turn: turn_after(turn, piece.parts),
        },
    })
}

/// The index of the piece that is sent after this one; after the last, the first is sent again.
fn turn_after(turn: u8, parts: u8) -> u8
    requires { turn < parts }
    ensures next { result ≡ (if nat_lt (turn + 1) parts then turn + 1 else 0) }
    ensures there { result < parts }
{
    let next = turn + 1;
    if next < parts { next } else { 0 }
}

/// Makes the State frame of a guest: its state, with the number of each page's newest copy. Fails if memory runs out.
fn state_frame<M: PagedMemory>(
    alloc: Global,
    move_number: u64,
    numbers: &[u32],
    guest: &Debugged<M>,
) -> Result<Frame, AllocError>
    ensures frame { IfOk result (λ frame. frame
        ≡ Frame.State move_number numbers.now (body_of guest.now.guest)) }
    ensures size { OnOk result (length (body_of guest.now.guest) ≤ longest) }
{
    let state = body_of(alloc, guest)?;
    Ok(Frame::State {
        move_number,
        copy_numbers: CopyNumbers::from_vec(Vec::from_slice(alloc, numbers)?),
        state: Bytes::from_vec(state),
    })
}

/// A piece of a state, and the number of pieces that the state has.
#[derive(Drop)]
struct Piece {
    parts: u8,
    bytes: Bytes,
}

/// Cuts the piece with index `turn` from a state, and counts the state's pieces: at most 6. Fails if memory runs out.
fn cut_piece<M: PagedMemory>(
    alloc: Global,
    numbers: &[u32],
    guest: &Debugged<M>,
    turn: u8,
) -> Result<Piece, AllocError>
    requires few { length numbers.now ≤ 4096 }
    requires there { turn < length (cut numbers.now (body_of guest.now.guest)) }
    ensures parts { IfOk result (λ piece. piece.parts
        ≡ length (cut numbers.now (body_of guest.now.guest))) }
    ensures bytes { IfOk result (λ piece. piece.bytes
        ≡ get_or (cut numbers.now (body_of guest.now.guest)) turn []) }
    ensures few { IfOk result (λ piece. piece.parts ≤ 6) }
{
    let body = frame_body(alloc, numbers, guest)?;
    let bytes = piece_of(body.as_slice(), turn);
    Ok(Piece {
        parts: body.len().div_ceil(PIECE) as u8,
        bytes: Bytes::from_vec(Vec::from_slice(alloc, bytes)?),
    })
}

/// The piece of a body with the index `place`.
fn piece_of(body: &[u8], place: u8) -> &[u8]
    requires { place < length (pieces (length body.now) body.now) }
    ensures { result.now ≡ get_or (pieces (length body.now) body.now) place [] }
{
    let first = PIECE * place as usize;
    &body[first..body.len().min(first + PIECE)]
}

/// Makes the body of a State frame, which is sent in pieces. Fails if memory runs out.
fn frame_body<M: PagedMemory>(
    alloc: Global,
    numbers: &[u32],
    guest: &Debugged<M>,
) -> Result<Vec<u8>, AllocError>
    requires { length numbers.now ≤ 4096 }
    ensures pieces { IfOk result (λ body. pieces (length body.items) body.items
        ≡ cut numbers.now (body_of guest.now.guest)) }
    ensures size { IfOk result (λ body. length body.items ≤ 2 + 4 * 4096 + longest) }
{
    let state = body_of(alloc, guest)?;
    state_body(alloc, numbers, state.as_slice())
}

/// Makes the bytes of a guest's state, as the protocol of live migration has them. Fails if memory runs out.
fn body_of<M: PagedMemory>(alloc: Global, guest: &Debugged<M>) -> Result<Vec<u8>, AllocError>
    ensures bytes { IfOk result (λ bytes. bytes.items ≡ body_of guest.now.guest) }
    ensures size { IfOk result (λ bytes. length bytes.items ≤ longest) }
{
    write_state(alloc, guest)
}
