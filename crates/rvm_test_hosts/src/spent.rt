//! A guest that came by the move with the highest number begins no other.

use crate::hosts::{Event, Hosts};
use crate::modes::MOVE;
use rvm_frame::Frame;
use std::alloc::{AllocError, Global};
use std::process::Abort;
use std::test::Fail;

const A: u8 = 0;

const B: u8 = 1;

/// The offer of a guest of one page and one hart.
const OFFER: Frame = Frame::Offer {
    move_number: u64::MAX,
    pages: 1,
    harts: 1,
};

/// The frames of a move that bring the guest, by their places, and the name of the target's reply to each.
static BROUGHT: [(usize, &str); 3] = [(2, "stored"), (4, "ready"), (6, "started")];

/// The same frame of the move with the highest number; Go for one that brings nothing.
fn of_the_last_move(alloc: Global, frame: &Frame) -> Result<Frame, AllocError> {
    Ok(match frame {
        Frame::Page {
            page,
            copy_number,
            bytes,
            ..
        } => Frame::Page {
            move_number: u64::MAX,
            page: *page,
            copy_number: *copy_number,
            bytes: bytes.copy(alloc)?,
        },
        Frame::State {
            copy_numbers,
            state,
            ..
        } => Frame::State {
            move_number: u64::MAX,
            copy_numbers: copy_numbers.copy(alloc)?,
            state: state.copy(alloc)?,
        },
        _ => Frame::Go {
            move_number: u64::MAX,
        },
    })
}

/// Plays a move, so that its frames are sent.
fn play(alloc: Global, hosts: &mut Hosts) -> Result<(), Fail> {
    for event in &MOVE {
        hosts.turn(alloc, *event)?;
    }
    Ok(())
}

/// Gives host B the frames of the move, as those of the move with the highest number.
fn bring(rt: &impl Abort, alloc: Global, source: &Hosts, hosts: &mut Hosts) -> Result<(), Fail> {
    assert_eq!(rt; hosts.hear(alloc, B, A, OFFER)?.0, "accepted");
    for (place, answer) in &BROUGHT {
        let Some(sent) = source.sent.get(*place) else {
            return Err(Fail::from("the frame was sent"));
        };
        let frame = of_the_last_move(alloc, &sent.frame)?;
        assert_eq!(rt; hosts.hear(alloc, B, A, frame)?.0, *answer);
    }
    Ok(())
}

/// Asserts that host B then has the guest, which runs, and begins no move.
fn assert_spent(rt: &impl Abort, alloc: Global, source: &Hosts) -> Result<(), Fail> {
    let mut hosts = Hosts::new(alloc, 1, &[1, 1])?;
    assert_none_begins(rt, alloc, source, &mut hosts)
}

/// Asserts the same of these hosts.
fn assert_none_begins(
    rt: &impl Abort,
    alloc: Global,
    source: &Hosts,
    hosts: &mut Hosts,
) -> Result<(), Fail> {
    bring(rt, alloc, source, hosts)?;
    assert_eq!(rt; hosts.turn(alloc, Event::Begin(B, A))?.0.0, "EpochsSpent");
    assert_eq!(rt; hosts.turn(alloc, Event::Step(B))?.0.0, "retired");
    Ok(())
}

#[test]
fn no_move_begins_after_the_last_number(rt: HostRuntime) -> Result<(), Fail> {
    let mut source = Hosts::new(rt.alloc(), 1, &[1, 1])?;
    play(rt.alloc(), &mut source)?;
    assert_spent(&rt, rt.alloc(), &source)
}
