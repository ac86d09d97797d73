//! The limits of the values of a frame.

ghost use Rattle.std.specs.Prelude.{◌≡◌};
ghost use Rattle.std.specs.List.{list_all};
ghost use Rattle.rvm_codec.specs.Numbers.{within};
ghost use Rattle.rvm_frame.specs.Bodies.{is_piece, lost, round_end, state};
ghost use Rattle.rvm_frame.specs.Grammar.{body_fits};
ghost use Rattle.rvm_frame.specs.Kinds.{kind_of, move_fits, move_of};
ghost use Rattle.rvm_frame.specs.Spelled.{is_short};

use crate::body::is_piece;
use crate::frame::Frame;
use rvm_codec::u16s_rise;

/// Whether all numbers are page numbers: at most 4095.
fn are_pages(numbers: &[u16]) -> bool
    ensures { result ≡ list_all (within 0 4095) numbers.now }
{
    for n in numbers {
        if *n > 4095 {
            return false;
        }
    }
    true
}

/// Whether no number is 0.
fn are_copies(numbers: &[u32]) -> bool
    ensures { result ≡ list_all (within 1 4294967295) numbers.now }
{
    for n in numbers {
        if *n == 0 {
            return false;
        }
    }
    true
}

/// Whether these can be the pages of a Lost.
fn lost_fits(pages: &[u16]) -> bool
    ensures { result ≡ lost.fits pages.now }
{
    1 <= pages.len() && pages.len() <= 4096 && are_pages(pages) && u16s_rise(pages)
}

/// Whether these can be the copy numbers of a State.
fn state_fits(copy_numbers: &[u32], bytes: &[u8]) -> bool
    ensures { result ≡ state.fits (copy_numbers.now, bytes.now) }
{
    1 <= copy_numbers.len() && copy_numbers.len() <= 4096 && are_copies(copy_numbers)
}

/// Whether these can be the numbers of a RoundEnd: any can.
fn round_end_fits(_round: u16, _sent: u16, _skipped: u16, _left: u16) -> bool
    ensures { result ≡ round_end.fits (_round, (_sent, (_skipped, _left))) }
{
    true
}

/// Whether the values of a frame, without its move number, are within their limits.
pub(crate) fn body_fits(frame: &Frame) -> bool
    ensures { result ≡ body_fits frame.now }
{
    match frame {
        Frame::Hello { version } => 1 <= *version && *version <= 3,
        Frame::Offer { pages, harts, .. } => {
            1 <= *pages && *pages <= 4096 && 1 <= *harts && *harts <= 8
        }
        Frame::Refuse { limit, .. } => 1 <= *limit && *limit <= 4096,
        Frame::Page {
            page,
            copy_number,
            bytes,
            ..
        } => *page <= 4095 && 1 <= *copy_number && bytes.as_array().len() == 4096,
        Frame::Zero {
            page,
            copy_number,
            ..
        } => *page <= 4095 && 1 <= *copy_number,
        Frame::Lost { pages, .. } => lost_fits(pages.as_slice()),
        Frame::State {
            copy_numbers,
            state,
            ..
        } => state_fits(copy_numbers.as_slice(), state.as_slice()),
        Frame::Part {
            stamp,
            part,
            parts,
            bytes,
            ..
        } => {
            1 <= *stamp
                && *part <= 5
                && 1 <= *parts
                && *parts <= 6
                && is_piece(*part, *parts, bytes.as_slice().len())
        }
        Frame::RoundEnd {
            round,
            sent,
            skipped,
            left,
            ..
        } => round_end_fits(*round, *sent, *skipped, *left),
        Frame::Accept { .. }
        | Frame::Ready { .. }
        | Frame::Go { .. }
        | Frame::Started { .. }
        | Frame::Abort { .. } => true,
    }
}

/// Whether a body whose values are within their limits has at most 32768 bytes.
pub(crate) fn is_short(frame: &Frame) -> bool
    ensures { result ≡ is_short frame.now }
{
    match frame {
        Frame::State {
            copy_numbers,
            state,
            ..
        } => 2 + 4 * copy_numbers.as_slice().len() + state.as_slice().len() <= 32768,
        _ => true,
    }
}

/// Whether a frame has a possible move number: not 0. Hello has none.
pub(crate) fn move_fits(frame: &Frame) -> bool
    ensures { result ≡ move_fits (kind_of frame.now) (move_of frame.now) }
{
    match frame {
        Frame::Hello { .. } => true,
        _ => frame.move_number() != 0,
    }
}
