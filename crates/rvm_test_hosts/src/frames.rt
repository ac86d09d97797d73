//! A frame of each kind.

use rvm_frame::{Bytes, CopyNumbers, Frame, PageBytes, PageNumbers};
use std::alloc::{AllocError, Global};

/// How many kinds of frames `frame` makes.
pub const KINDS: u32 = 13;

/// A frame of a move by its kind: all but Offer.
pub fn frame(alloc: Global, move_number: u64, kind: u32) -> Result<Frame, AllocError> {
    Ok(match kind {
        0 => Frame::Hello { version: 1 },
        1 => Frame::Accept { move_number },
        2 => Frame::Refuse {
            move_number,
            limit: 4,
        },
        3 => Frame::Page {
            move_number,
            page: 0,
            copy_number: 9,
            bytes: PageBytes::from_slice(alloc, &[0; 4096])?,
        },
        4 => Frame::RoundEnd {
            move_number,
            round: 1,
            sent: 4,
            skipped: 0,
            left: 0,
        },
        5 => Frame::Lost {
            move_number,
            pages: PageNumbers::from_vec(Vec::from_slice(alloc, &[0])?),
        },
        6 => Frame::State {
            move_number,
            copy_numbers: CopyNumbers::from_vec(Vec::from_slice(alloc, &[1, 2, 3, 4])?),
            state: Bytes::from_vec(Vec::new(alloc)),
        },
        7 => Frame::Ready { move_number },
        8 => Frame::Go { move_number },
        9 => Frame::Started { move_number },
        10 => Frame::Zero {
            move_number,
            page: 0,
            copy_number: 9,
        },
        11 => Frame::Part {
            move_number,
            stamp: 9,
            part: 0,
            parts: 1,
            bytes: Bytes::from_vec(Vec::from_slice(alloc, &[0])?),
        },
        _ => Frame::Abort { move_number },
    })
}
