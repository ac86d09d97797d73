//! Each event of worked moves, in a world of two hosts.

use crate::heap::Heap;
use crate::single::{PAGES, guest};
use crate::trial::{Trial, Tried, try_until_made};
use rvm_board::{BoardEvent, BoardReply};
use rvm_core::{Event, World};
use rvm_hart::RAM_BASE;
use rvm_mem::{FlatMemory, PAGE_SIZE};
use rvm_message::{Command, HostReply};
use rvm_precopy::Policy;
use std::alloc::Global;

/// One round, and at most three copies for each page.
const POLICY: Policy = Policy {
    max_rounds: 1,
    min_left: 1,
    factor: 3,
};

/// The most events of a move.
const MOST_EVENTS: usize = 100;

/// The number of bytes of RAM in one reply.
const VIEW: u32 = 256;

/// A move: the version of its stream, and a frame that is lost, by its place, if one is.
#[derive(Clone, Copy)]
struct Worked {
    name: &'static str,
    version: u32,
    lost: Option<usize>,
}

/// The moves: in each version, and one whose third frame is lost, the copy of a page.
static MOVES: [Worked; 4] = [
    Worked {
        name: "a move in version 1",
        version: 1,
        lost: None,
    },
    Worked {
        name: "a move in version 2",
        version: 2,
        lost: None,
    },
    Worked {
        name: "a move in version 3",
        version: 3,
        lost: None,
    },
    Worked {
        name: "a move that loses a page",
        version: 2,
        lost: Some(2),
    },
];

/// The trial of an event of a world, and whether the guest runs at the other host after it.
#[derive(Drop)]
struct InWorld<'w> {
    world: &'w mut World<FlatMemory>,
    event: Event,
    has_started: bool,
}

impl Trial for InWorld<'_> {
    fn attempt(&mut self, alloc: Global, heap: &mut Heap, room: usize) -> Tried {
        let before = digest(alloc, self.world);
        if heap.leave(alloc, room).is_none() {
            return Tried::Wrong;
        }
        let answer = self.world.apply(alloc, &self.event);
        heap.release();
        match answer {
            Ok(told) => {
                self.has_started = told.reply == HostReply::Started;
                Tried::Made
            }
            Err(_) if before.is_some() && digest(alloc, self.world) == before => Tried::Refused,
            Err(_) => Tried::Wrong,
        }
    }
}

/// Makes the moves, and prints what became of each.
pub fn try_moves<R: AllocGlobal + Print>(rt: &R, heap: &mut Heap) -> Option<()> {
    for worked in &MOVES {
        let is_moved = try_move(rt.alloc(), heap, *worked) == Some(true);
        println!(rt;
            "{}: each event refused each growth, and then made {is_moved}",
            worked.name
        )
        .ok()?;
    }
    Some(())
}

/// Makes one move to its end. Returns whether it came there.
fn try_move(alloc: Global, heap: &mut Heap, worked: Worked) -> Option<bool> {
    let guest = guest(alloc)?;
    let limits = [PAGES as u16, PAGES as u16];
    match World::with_version(alloc, guest, &limits, worked.version) {
        Ok(mut world) => {
            let is_moved = are_made(alloc, heap, &mut world, worked.lost);
            drop(world);
            Some(is_moved)
        }
        Err(refused) => {
            drop(refused);
            None
        }
    }
}

/// Makes the events of a move, each with ever more bytes left. Returns whether the guest started at the other host, and
/// some events asked for memory.
fn are_made(
    alloc: Global,
    heap: &mut Heap,
    world: &mut World<FlatMemory>,
    lost: Option<usize>,
) -> bool {
    let mut came = 0;
    let mut asks = false;
    for events in 0..MOST_EVENTS {
        let event = next_event(world, events, &mut came, lost);
        let mut trial = InWorld {
            world,
            event,
            has_started: false,
        };
        match try_until_made(alloc, heap, &mut trial) {
            None => return false,
            Some(is_refused) => asks = asks || is_refused,
        }
        if trial.has_started {
            return asks;
        }
    }
    false
}

/// A number over what a world shows: the host of its guest, the bytes of each frame, and at each host the guest's
/// registers and RAM. None if it does not answer.
fn digest(alloc: Global, world: &mut World<FlatMemory>) -> Option<u64> {
    let mut sum = u64::from(world.current());
    for place in 0..world.sent() {
        sum = sum_bytes(sum, world.frame(place)?);
    }
    for host in 0..world.hosts() {
        sum = guest_digest(alloc, world, host, sum)?;
    }
    Some(sum)
}

/// A number over others and what the guest at a host shows.
fn guest_digest(alloc: Global, world: &mut World<FlatMemory>, host: u8, sum: u64) -> Option<u64> {
    let mut sum = reply_digest(alloc, world, host, BoardEvent::Regs(0), sum)?;
    for view in 0..PAGES * PAGE_SIZE / VIEW {
        let address = RAM_BASE.wrapping_add(view * VIEW);
        let event = BoardEvent::Mem {
            address,
            length: VIEW,
        };
        sum = reply_digest(alloc, world, host, event, sum)?;
    }
    Some(sum)
}

/// A number over others and one reply; a host that has no guest refuses.
fn reply_digest(
    alloc: Global,
    world: &mut World<FlatMemory>,
    host: u8,
    event: BoardEvent,
    sum: u64,
) -> Option<u64> {
    let told = world
        .apply(alloc, &Event::At(host, Command::Board(event)))
        .ok()?;
    match told.reply {
        HostReply::Board(BoardReply::Regs(registers)) => Some(
            registers
                .iter()
                .fold(sum, |sum, register| more(sum, u64::from(*register))),
        ),
        HostReply::Board(BoardReply::Bytes(bytes)) => Some(sum_bytes(sum, bytes.as_slice())),
        HostReply::Refused(_) => Some(more(sum, 1)),
        _ => None,
    }
}

/// A number over others and these bytes.
fn sum_bytes(sum: u64, bytes: &[u8]) -> u64 {
    bytes
        .iter()
        .fold(sum, |sum, byte| more(sum, u64::from(*byte)))
}

/// A number over others and one more, as FNV-1 has it.
fn more(sum: u64, number: u64) -> u64 {
    sum.wrapping_mul(0x0000_0100_0000_01B3).wrapping_add(number)
}

/// The next event of a move: it begins, the next frame comes, or the source copies on.
fn next_event(
    world: &World<FlatMemory>,
    events: usize,
    came: &mut usize,
    lost: Option<usize>,
) -> Event {
    if Some(*came) == lost {
        *came = came.saturating_add(1);
    }
    if events == 0 {
        return Event::At(
            0,
            Command::Begin {
                to: 1,
                policy: POLICY,
            },
        );
    }
    if *came < world.sent() {
        let place = *came as u64;
        *came = came.saturating_add(1);
        return Event::Deliver(place);
    }
    Event::At(0, Command::Copy)
}
