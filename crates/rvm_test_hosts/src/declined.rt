//! A guest that is larger than a host takes: each event, the answer, and the place of the frame that was made.

use crate::hosts::{Event, Hosts};
use std::alloc::Global;
use std::test::Fail;

const A: u8 = 0;

/// An event, the name and the numbers of the reply to it, and the place of the frame that is made.
type Row = (Event, &'static str, [u64; 4], Option<usize>);

/// The offer of four pages to a host that takes three, and what comes of it.
static ROWS: [Row; 8] = [
    (Event::Begin(A, 1), "begun", [1, 0, 0, 0], Some(0)),
    (Event::Resend(A), "resent", [0; 4], Some(1)),
    (Event::Deliver(0), "declined", [3, 0, 0, 0], Some(2)),
    (Event::Deliver(2), "move declined", [3, 0, 0, 0], None),
    (Event::Deliver(1), "declined", [3, 0, 0, 0], Some(3)),
    (Event::Deliver(3), "Ignored", [27, 0, 0, 0], None),
    (Event::Copy(A), "NoMove", [25, 0, 0, 0], None),
    (Event::Begin(A, 0), "BadHost", [33, 0, 0, 0], None),
];

/// Plays these events. Returns the index of the first whose reply or frame is another one, if there is one.
fn first_other(alloc: Global, hosts: &mut Hosts, rows: &[Row]) -> Result<Option<usize>, Fail> {
    for (place, (event, name, numbers, frame)) in rows.iter().enumerate() {
        let (said, made) = hosts.turn(alloc, *event)?;
        if said.0 != *name || said.1 != *numbers || made != *frame {
            return Ok(Some(place));
        }
    }
    Ok(None)
}

/// Plays the events on new hosts, the first of which has a guest of four pages.
fn offer(alloc: Global) -> Result<Option<usize>, Fail> {
    let mut hosts = Hosts::new(alloc, 4, &[4, 3])?;
    first_other(alloc, &mut hosts, &ROWS)
}

#[test]
fn a_guest_that_is_too_large_is_declined(rt: HostRuntime) -> Result<(), Fail> {
    assert_eq!(rt; offer(rt.alloc())?, None);
    Ok(())
}
