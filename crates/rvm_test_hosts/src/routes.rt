//! Frames that go out to hosts.

use rvm_frame::{Addressed, Frame};
use rvm_link::{Made, Origin, Routes, SendError};
use std::test::Fail;

/// The origin of frames that were made anywhere.
#[derive(Drop)]
struct Anywhere;

impl Origin for Anywhere {
    ghost is_made = { λ _. Unit {0} };
}

/// A record with Hello of version 3, one with Ready of move 1 from host 0 to host 2, question 5, and its answer.
static STREAM: [u8; 56] = [
    0, 17, 0, 0, 0, 0, 0, 0, 0, 0, 0, 0, 4, 0, 0, 0, 3, 0, 0, 0, //
    0, 15, 0, 8, 0, 2, 1, 0, 0, 0, 0, 0, 0, 0, 0, 0, 0, 0, //
    1, 5, 0, 0, 0, 0, 0, 0, 0, //
    2, 5, 0, 0, 0, 0, 0, 0, 0,
];

/// Ready of move 1, from host 0.
fn ready_for(to: u8) -> Made<Anywhere> {
    Made::new(Addressed {
        from: 0,
        to,
        frame: Frame::Ready { move_number: 1 },
    })
}

#[test]
fn frames_go_to_their_host(rt: HostRuntime) -> Result<(), Fail> {
    let mut room = [0u8; 56];
    let routes: Routes<Anywhere, &mut [u8]> = Routes::new(rt.alloc(), 3, 3)?;
    assert!(rt; routes.open(&rt, 2, room.as_mut_slice()) == Ok(()));
    assert!(rt; routes.send(&rt, &ready_for(1)) == Err(SendError::LinkFault));
    assert!(rt; routes.send(&rt, &ready_for(2)) == Ok(()));
    assert!(rt; routes.ask(&rt, 2, 5).is_ok());
    assert!(rt; routes.answer(&rt, 2, 5).is_ok());
    assert!(rt; routes.is_open(&rt, 2));
    drop(routes);
    assert!(rt; room.as_slice() == STREAM.as_slice());
    Ok(())
}

#[test]
fn a_connection_that_fails_is_dropped(rt: HostRuntime) -> Result<(), Fail> {
    let mut room = [0u8; 20];
    let routes: Routes<Anywhere, &mut [u8]> = Routes::new(rt.alloc(), 3, 3)?;
    assert!(rt; routes.open(&rt, 2, room.as_mut_slice()) == Ok(()));
    assert!(rt; routes.send(&rt, &ready_for(2)) == Err(SendError::LinkFault));
    assert!(rt; !routes.is_open(&rt, 2));
    assert!(rt; routes.ask(&rt, 2, 5).is_err());
    Ok(())
}

#[test]
fn a_closed_route_sends_nothing(rt: HostRuntime) -> Result<(), Fail> {
    let mut room = [0u8; 56];
    let routes: Routes<Anywhere, &mut [u8]> = Routes::new(rt.alloc(), 3, 3)?;
    assert!(rt; routes.open(&rt, 2, room.as_mut_slice()) == Ok(()));
    routes.close(&rt, 2);
    assert!(rt; routes.send(&rt, &ready_for(2)) == Err(SendError::LinkFault));
    drop(routes);
    assert!(rt; room.ends_with(&[0; 36]));
    Ok(())
}
