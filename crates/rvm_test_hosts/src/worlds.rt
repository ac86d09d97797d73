//! Worlds: lists of events, and moves that are driven.

use crate::hosts::{Event, LOOP, POLICY, guest};
use crate::replies::{Said, said};
use rvm_core::{Driven, World, WorldReply, drive_move, run_world};
use rvm_mem::FlatMemory;
use rvm_message::Command;
use std::alloc::Global;
use std::process::Abort;
use std::test::Fail;

/// A world whose first host has a guest of this many pages that loops.
pub fn world(
    alloc: Global,
    pages: u32,
    limits: &[u16],
    version: u32,
) -> Result<World<FlatMemory>, Fail> {
    let guest = guest(alloc, pages, &[LOOP])?;
    match World::with_version(alloc, guest, limits, version) {
        Ok(world) => Ok(world),
        Err((error, _)) => Err(Fail::from(error)),
    }
}

/// Plays an event. Returns the reply, and the place of the frame that was made, if one was.
fn turn(
    alloc: Global,
    world: &mut World<FlatMemory>,
    event: &rvm_core::Event,
) -> Result<(Said, Option<usize>), Fail> {
    let reply = world.apply(alloc, event)?;
    Ok((said(&reply.reply), reply.frame))
}

/// The reply to an event.
fn answer(alloc: Global, world: &mut World<FlatMemory>, event: Event) -> Result<Said, Fail> {
    Ok(turn(alloc, world, &event.in_world())?.0)
}

/// Asserts the name of the reply to an event.
fn assert_answer(
    rt: &impl Abort,
    alloc: Global,
    world: &mut World<FlatMemory>,
    event: Event,
    name: &'static str,
) -> Result<(), Fail> {
    assert_eq!(rt; answer(alloc, world, event)?.0, name);
    Ok(())
}

/// Host 0 begins a move to host 1.
const BEGIN: rvm_core::Event = rvm_core::Event::At(
    0,
    Command::Begin {
        to: 1,
        policy: POLICY,
    },
);

/// Host 0 copies.
const COPY: rvm_core::Event = rvm_core::Event::At(0, Command::Copy);

/// The events of a move of four pages from host 0 to host 1 up to the commit.
const FIRST_EVENTS: [rvm_core::Event; 17] = [
    BEGIN,
    rvm_core::Event::Deliver(0),
    rvm_core::Event::Deliver(1),
    COPY,
    COPY,
    COPY,
    COPY,
    COPY,
    rvm_core::Event::Deliver(2),
    rvm_core::Event::Deliver(3),
    rvm_core::Event::Deliver(4),
    rvm_core::Event::Deliver(5),
    rvm_core::Event::Deliver(6),
    COPY,
    COPY,
    rvm_core::Event::Deliver(7),
    rvm_core::Event::Deliver(8),
];

/// An event, the reply to it, and the place of the frame that was made, if one was.
type Row = (Event, Said, Option<usize>);

/// The same move, of which the fourth copy never comes: host 1 lacks its page, which is copied again.
static LOST_COPY: [Row; 20] = [
    (Event::Begin(0, 1), ("begun", [1, 0, 0, 0]), Some(0)),
    (Event::Deliver(0), ("accepted", [0; 4]), Some(1)),
    (Event::Deliver(1), ("open", [0; 4]), None),
    (Event::Copy(0), ("copied", [0, 1, 0, 0]), Some(2)),
    (Event::Copy(0), ("copied", [1, 2, 0, 0]), Some(3)),
    (Event::Copy(0), ("copied", [2, 3, 0, 0]), Some(4)),
    (Event::Copy(0), ("copied", [3, 4, 0, 0]), Some(5)),
    (Event::Copy(0), ("round", [1, 4, 0, 0]), Some(6)),
    (Event::Deliver(2), ("stored", [0, 1, 0, 0]), None),
    (Event::Deliver(3), ("stored", [1, 2, 0, 0]), None),
    (Event::Deliver(4), ("stored", [2, 3, 0, 0]), None),
    (Event::Deliver(6), ("noted", [0; 4]), None),
    (Event::Copy(0), ("stopping", [0; 4]), None),
    (Event::Copy(0), ("state sent", [0; 4]), Some(7)),
    (Event::Deliver(7), ("lacking", [1, 0, 0, 0]), Some(8)),
    (Event::Deliver(8), ("fixing", [1, 0, 0, 0]), None),
    (Event::Copy(0), ("copied", [3, 5, 0, 0]), Some(9)),
    (Event::Copy(0), ("state sent", [0; 4]), Some(10)),
    (Event::Deliver(9), ("stored", [3, 5, 0, 0]), None),
    (Event::Deliver(10), ("ready", [0; 4]), Some(11)),
];

/// Plays these events. Returns the index of the first whose reply or frame is another one, if there is one.
fn first_other(
    alloc: Global,
    world: &mut World<FlatMemory>,
    rows: &[Row],
) -> Result<Option<usize>, Fail> {
    for (place, (event, answer, frame)) in rows.iter().enumerate() {
        let (said, made) = turn(alloc, world, &event.in_world())?;
        if said.0 != answer.0 || said.1 != answer.1 || made != *frame {
            return Ok(Some(place));
        }
    }
    Ok(None)
}

/// Plays the move that loses a copy, in a new world.
fn lose_a_copy(alloc: Global) -> Result<Option<usize>, Fail> {
    let mut world = world(alloc, 4, &[4, 4], 1)?;
    first_other(alloc, &mut world, &LOST_COPY)
}

/// The replies to events after the first ones, while the commit is on its way.
static LAST_EVENTS: [(Event, &str); 7] = [
    (Event::Step(0), "NotHere"),
    (Event::Step(1), "Paused"),
    (Event::Deliver(9), "started"),
    (Event::Step(1), "retired"),
    (Event::Deliver(10), "finished"),
    (Event::Deliver(11), "NoFrame"),
    (Event::Step(2), "BadHost"),
];

/// Asserts the names of the replies to these events.
fn assert_answers(
    rt: &impl Abort,
    alloc: Global,
    world: &mut World<FlatMemory>,
    rows: &'static [(Event, &'static str)],
) -> Result<(), Fail> {
    for (event, name) in rows {
        assert_answer(rt, alloc, world, *event, *name)?;
    }
    Ok(())
}

/// The lengths of the frames of the move.
static LENGTHS: [usize; 11] = [16, 13, 4115, 4115, 4115, 4115, 21, 235, 13, 13, 13];

/// Asserts that the frames have these lengths.
fn assert_lengths(rt: &impl Abort, world: &World<FlatMemory>) {
    for (place, length) in LENGTHS.iter().enumerate() {
        assert_eq!(rt; world.frame(place).map(|bytes| bytes.len()), Some(*length));
    }
}

/// The reply to the last event of a list.
fn last_said(replies: &[WorldReply]) -> Option<Said> {
    replies.last().map(|reply| said(&reply.reply))
}

/// A world of two hosts that take four pages, the first of which has a guest of four that loops.
fn new_world(alloc: Global) -> Result<World<FlatMemory>, Fail> {
    match World::new(alloc, guest(alloc, 4, &[LOOP])?, &[4, 4]) {
        Ok(world) => Ok(world),
        Err((error, _)) => Err(Fail::from(error)),
    }
}

/// Runs the events of a move as a list, and then the last ones.
fn run_list(rt: &impl Abort, alloc: Global, world: &mut World<FlatMemory>) -> Result<(), Fail> {
    let replies = run_world(alloc, world, &FIRST_EVENTS)?;
    assert_eq!(rt; last_said(&replies), Some(("committed", [1, 0, 0, 0])));
    assert_answers(rt, alloc, world, &LAST_EVENTS)?;
    assert_lengths(rt, world);
    Ok(())
}

#[test]
fn a_list_of_events_is_run(rt: HostRuntime) -> Result<(), Fail> {
    assert_eq!(rt; lose_a_copy(rt.alloc())?, None);
    let mut world = new_world(rt.alloc())?;
    run_list(&rt, rt.alloc(), &mut world)
}

/// The replies after a move.
static MOVED: [(Event, &str); 2] = [(Event::Step(0), "NotHere"), (Event::Step(1), "retired")];

/// Drives a move that takes this many events.
fn drive(
    rt: &impl Abort,
    alloc: Global,
    world: &mut World<FlatMemory>,
    events: u32,
) -> Result<(), Fail> {
    assert_eq!(rt;
        drive_move(alloc, world, 0, 1, POLICY)?,
        Driven::Moved(1, events)
    );
    assert_answers(rt, alloc, world, &MOVED)
}

#[test]
fn a_move_is_driven_in_each_version(rt: HostRuntime) -> Result<(), Fail> {
    for (pages, version, events) in [
        (4, 1, 19),
        (1, 1, 13),
        (4, 2, 19),
        (4, 3, 19),
        (1024, 2, 2061),
    ] {
        let mut world = world(rt.alloc(), pages, &[4096, 4096], version)?;
        drive(&rt, rt.alloc(), &mut world, events)?;
    }
    Ok(())
}

/// Moves that no host can make, and why.
static REFUSED: [(u8, u8, &str); 4] = [
    (1, 0, "NotHere"),
    (0, 0, "BadHost"),
    (0, 5, "BadHost"),
    (6, 0, "BadHost"),
];

/// Asserts that these moves are refused.
fn assert_refused(
    rt: &impl Abort,
    alloc: Global,
    world: &mut World<FlatMemory>,
) -> Result<(), Fail> {
    for (from, to, reason) in &REFUSED {
        let driven = drive_move(alloc, world, *from, *to, POLICY)?;
        let Driven::Refused(why) = driven else {
            return Err(Fail::from("the move is refused"));
        };
        assert_eq!(rt; rvm_refusal::Refusal::from(why).name(), *reason);
    }
    Ok(())
}

/// Asserts that a move to host 1 is declined, the guest runs on, and other moves are refused.
fn assert_stays(rt: &impl Abort, alloc: Global, world: &mut World<FlatMemory>) -> Result<(), Fail> {
    assert_eq!(rt;
        drive_move(alloc, world, 0, 1, POLICY)?,
        Driven::Declined(3)
    );
    assert_answer(rt, alloc, world, Event::Step(0), "retired")?;
    assert_refused(rt, alloc, world)
}

#[test]
fn a_driven_move_is_declined_or_refused(rt: HostRuntime) -> Result<(), Fail> {
    let mut world = world(rt.alloc(), 4, &[4, 3], 1)?;
    assert_stays(&rt, rt.alloc(), &mut world)
}
