//! Frames that a host does not wait for: each kind, of another move, in each mode.

use crate::frames::{KINDS, frame};
use crate::hosts::Hosts;
use crate::modes::MOVE;
use std::alloc::Global;
use std::process::Abort;
use std::test::Fail;

/// The first kind of frame of move 7 that a host does not ignore when another host sends it, if there is one.
fn first_heard(alloc: Global, hosts: &mut Hosts, host: u8, from: u8) -> Result<Option<u32>, Fail> {
    for kind in 0..KINDS {
        let frame = frame(alloc, 7, kind)?;
        let (name, _) = hosts.hear(alloc, host, from, frame)?;
        if name != "Ignored" {
            return Ok(Some(kind));
        }
    }
    Ok(None)
}

/// Asserts that both hosts ignore each kind of frame of move 7.
fn assert_ignored(rt: &impl Abort, alloc: Global, hosts: &mut Hosts) -> Result<(), Fail> {
    assert_eq!(rt; first_heard(alloc, hosts, 0, 1)?, None);
    assert_eq!(rt; first_heard(alloc, hosts, 1, 0)?, None);
    Ok(())
}

/// Asserts that both hosts ignore them before and after each event of a move.
fn assert_ignored_in_a_move(rt: &impl Abort, alloc: Global, hosts: &mut Hosts) -> Result<(), Fail> {
    for event in &MOVE {
        assert_ignored(rt, alloc, hosts)?;
        hosts.turn(alloc, *event)?;
    }
    assert_ignored(rt, alloc, hosts)
}

#[test]
fn frames_of_another_move_are_ignored_in_each_mode(rt: HostRuntime) -> Result<(), Fail> {
    let mut hosts = Hosts::new(rt.alloc(), 1, &[1, 1])?;
    assert_ignored_in_a_move(&rt, rt.alloc(), &mut hosts)
}
