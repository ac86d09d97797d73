//! Each command and each kind of frame at a host in each mode.

use crate::frames::{KINDS, frame};
use crate::hosts::{Event, Hosts};
use rvm_frame::Frame;
use std::alloc::Global;
use std::process::Abort;
use std::test::Fail;

const A: u8 = 0;

const B: u8 = 1;

/// A move of a guest of one page from A to B.
pub static MOVE: [Event; 12] = [
    Event::Begin(A, 1),
    Event::Deliver(0),
    Event::Deliver(1),
    Event::Copy(A),
    Event::Deliver(2),
    Event::Copy(A),
    Event::Copy(A),
    Event::Copy(A),
    Event::Deliver(4),
    Event::Deliver(5),
    Event::Deliver(6),
    Event::Deliver(7),
];

/// When a host is in a mode: after this many events of the move.
#[derive(Clone, Copy)]
struct Place {
    events: usize,
    host: u8,
}

const EMPTY: Place = Place { events: 0, host: B };

const RUN: Place = Place { events: 0, host: A };

const OFFERING: Place = Place { events: 1, host: A };

const COPYING: Place = Place { events: 3, host: A };

const STOPPED: Place = Place { events: 7, host: A };

const GIVEN: Place = Place {
    events: 10,
    host: A,
};

const STAGING: Place = Place { events: 2, host: B };

const HELD: Place = Place { events: 9, host: B };

const RUN_AFTER: Place = Place {
    events: 11,
    host: B,
};

const EMPTY_AFTER: Place = Place {
    events: 12,
    host: A,
};

/// Two hosts after the first events of the move.
fn at(alloc: Global, place: Place) -> Result<Hosts, Fail> {
    let mut hosts = Hosts::new(alloc, 1, &[1, 1])?;
    match play(alloc, &mut hosts, place.events) {
        Ok(()) => Ok(hosts),
        Err(fail) => {
            drop(hosts);
            Err(fail)
        }
    }
}

/// Plays this many events of the move.
fn play(alloc: Global, hosts: &mut Hosts, events: usize) -> Result<(), Fail> {
    for event in MOVE.iter().take(events) {
        hosts.turn(alloc, *event)?;
    }
    Ok(())
}

/// The name of the reply of the host at this place to an event.
fn turned(alloc: Global, place: Place, event: Event) -> Result<&'static str, Fail> {
    let mut hosts = at(alloc, place)?;
    turn(alloc, &mut hosts, event)
}

/// The name of the reply to an event.
fn turn(alloc: Global, hosts: &mut Hosts, event: Event) -> Result<&'static str, Fail> {
    let (said, _) = hosts.turn(alloc, event)?;
    Ok(said.0)
}

/// The name of the reply of the host at this place to a frame of the other one.
fn heard(alloc: Global, place: Place, frame: Frame) -> Result<&'static str, Fail> {
    let mut hosts = at(alloc, place)?;
    hear(alloc, &mut hosts, place.host, frame)
}

/// The name of the reply of a host to a frame of the other one.
fn hear(alloc: Global, hosts: &mut Hosts, host: u8, frame: Frame) -> Result<&'static str, Fail> {
    let from = if host == A { 1 } else { 0 };
    Ok(hosts.hear(alloc, host, from, frame)?.0)
}

/// The replies to Step, Begin, Copy, Resend and Abort in each mode.
static COMMANDS: [(Place, [&str; 5]); 10] = [
    (
        EMPTY,
        ["NotHere", "NotHere", "NotHere", "NoMove", "NotHere"],
    ),
    (RUN, ["retired", "begun", "NoMove", "NoMove", "NoMove"]),
    (OFFERING, ["retired", "Busy", "Busy", "resent", "aborted"]),
    (COPYING, ["retired", "Busy", "copied", "NoMove", "aborted"]),
    (
        STOPPED,
        ["Paused", "Busy", "state sent", "resent", "aborted"],
    ),
    (
        GIVEN,
        ["NotHere", "NotHere", "NotHere", "resent", "NotHere"],
    ),
    (
        STAGING,
        ["NotHere", "NotHere", "NotHere", "NoMove", "NotHere"],
    ),
    (HELD, ["Paused", "NotHere", "NotHere", "resent", "NotHere"]),
    (
        RUN_AFTER,
        ["retired", "begun", "NoMove", "NoMove", "NoMove"],
    ),
    (
        EMPTY_AFTER,
        ["NotHere", "NotHere", "NotHere", "NoMove", "NotHere"],
    ),
];

/// Asserts the name of the reply of the host at this place to an event.
fn assert_turned(
    rt: &impl Abort,
    alloc: Global,
    place: Place,
    event: Event,
    answer: &'static str,
) -> Result<(), Fail> {
    assert_eq!(rt; turned(alloc, place, event)?, answer);
    Ok(())
}

/// Asserts the names of the replies of the host at this place to each command.
fn assert_commands(
    rt: &impl Abort,
    alloc: Global,
    place: Place,
    answers: &[&'static str; 5],
) -> Result<(), Fail> {
    let host = place.host;
    let to = if host == A { 1 } else { 0 };
    let commands = [
        Event::Step(host),
        Event::Begin(host, to),
        Event::Copy(host),
        Event::Resend(host),
        Event::Abort(host),
    ];
    for (command, answer) in commands.iter().zip(answers) {
        assert_turned(rt, alloc, place, *command, *answer)?;
    }
    Ok(())
}

#[test]
fn each_command_is_answered_by_the_mode(rt: HostRuntime) -> Result<(), Fail> {
    for (place, answers) in &COMMANDS {
        assert_commands(&rt, rt.alloc(), *place, answers)?;
    }
    Ok(())
}

/// For each mode, the kinds of frames of the move that are not ignored, by their numbers in `frame`, and the replies to
/// them.
static FRAMES: [(Place, &[(u32, &str)]); 10] = [
    (EMPTY, &[]),
    (RUN, &[]),
    (OFFERING, &[(1, "open"), (2, "move declined")]),
    (COPYING, &[]),
    (STOPPED, &[(5, "fixing"), (7, "committed")]),
    (GIVEN, &[(9, "finished")]),
    (
        STAGING,
        &[
            (3, "stored"),
            (4, "noted"),
            (6, "BadState"),
            (10, "stored"),
            (11, "BadState"),
            (12, "dropped"),
        ],
    ),
    (
        HELD,
        &[(6, "ready"), (8, "started"), (11, "ready"), (12, "dropped")],
    ),
    (RUN_AFTER, &[(8, "resent")]),
    (EMPTY_AFTER, &[]),
];

/// The name of the reply to a kind of frame: Ignored if it is none of these.
fn answer_to(kind: u32, answers: &'static [(u32, &'static str)]) -> &'static str {
    for (heard, answer) in answers {
        if *heard == kind {
            return answer;
        }
    }
    "Ignored"
}

/// Asserts the name of the reply of the host at this place to a frame of the other one.
fn assert_heard(
    rt: &impl Abort,
    alloc: Global,
    place: Place,
    frame: Frame,
    answer: &'static str,
) -> Result<(), Fail> {
    assert_eq!(rt; heard(alloc, place, frame)?, answer);
    Ok(())
}

/// Asserts the names of the replies of the host at this place to each kind of frame.
fn assert_frames(
    rt: &impl Abort,
    alloc: Global,
    place: Place,
    answers: &'static [(u32, &'static str)],
) -> Result<(), Fail> {
    for kind in 0..KINDS {
        let frame = frame(alloc, 1, kind)?;
        assert_heard(rt, alloc, place, frame, answer_to(kind, answers))?;
    }
    Ok(())
}

#[test]
fn each_frame_is_answered_by_the_mode(rt: HostRuntime) -> Result<(), Fail> {
    for (place, answers) in &FRAMES {
        assert_frames(&rt, rt.alloc(), *place, *answers)?;
    }
    Ok(())
}

/// The replies to an offer of move 1, of move 2 and of too large a guest, in each mode.
static OFFERS: [(Place, [&str; 3]); 10] = [
    (EMPTY, ["accepted", "accepted", "declined"]),
    (RUN, ["Ignored", "Ignored", "Ignored"]),
    (OFFERING, ["Ignored", "Ignored", "Ignored"]),
    (COPYING, ["Ignored", "Ignored", "Ignored"]),
    (STOPPED, ["Ignored", "Ignored", "Ignored"]),
    (GIVEN, ["Ignored", "accepted", "declined"]),
    (STAGING, ["accepted", "accepted", "declined"]),
    (HELD, ["Ignored", "accepted", "declined"]),
    (RUN_AFTER, ["Ignored", "Ignored", "Ignored"]),
    (EMPTY_AFTER, ["Ignored", "accepted", "declined"]),
];

/// Asserts the names of the replies of the host at this place to the offers.
fn assert_offers(
    rt: &impl Abort,
    alloc: Global,
    place: Place,
    answers: &[&'static str; 3],
) -> Result<(), Fail> {
    for ((move_number, pages), answer) in [(1, 1), (2, 1), (3, 2)].iter().zip(answers) {
        let offer = Frame::Offer {
            move_number: *move_number,
            pages: *pages,
            harts: 1,
        };
        assert_heard(rt, alloc, place, offer, *answer)?;
    }
    Ok(())
}

#[test]
fn each_offer_is_answered_by_the_mode(rt: HostRuntime) -> Result<(), Fail> {
    for (place, answers) in &OFFERS {
        assert_offers(&rt, rt.alloc(), *place, answers)?;
    }
    Ok(())
}
