//! Plays events on hosts, in order, and keeps every frame that was sent.

use crate::replies::{Said, said};
use rvm_board::{Board, BoardEvent, Debugged};
use rvm_frame::{Addressed, Frame};
use rvm_hart::RAM_BASE;
use rvm_host::Host;
use rvm_mem::{FlatMemory, MAX_PAGES, PagedMemory, write_bytes};
use rvm_message::{Command, HostEvent, HostReply, Shared};
use rvm_precopy::Policy;
use std::alloc::{AllocError, Global};
use std::test::Fail;

/// At most three rounds, until fewer than one page is left, and at most three copies for each page.
pub const POLICY: Policy = Policy {
    max_rounds: 3,
    min_left: 1,
    factor: 3,
};

/// `jal zero, 0`.
pub const LOOP: u32 = 0x0000_006F;

/// The version of the stream that the hosts speak.
const VERSION: u32 = 1;

/// Why hosts of another number cannot be made.
const WRONG_COUNT: &str = "there are two to eight hosts";

/// An event at hosts.
#[derive(Clone, Copy)]
pub enum Event {
    /// A step of hart 0 at a host.
    Step(u8),
    /// A host begins a move to another one.
    Begin(u8, u8),
    Copy(u8),
    Resend(u8),
    Abort(u8),
    /// A frame comes, by its place among all that were sent.
    Deliver(usize),
}

impl Event {
    /// The event in a world of hosts.
    pub fn in_world(self) -> rvm_core::Event {
        let (host, command) = match self {
            Event::Step(host) => (host, Command::Board(BoardEvent::Step(0))),
            Event::Begin(host, to) => (host, Command::Begin { to, policy: POLICY }),
            Event::Copy(host) => (host, Command::Copy),
            Event::Resend(host) => (host, Command::Resend),
            Event::Abort(host) => (host, Command::Abort),
            Event::Deliver(place) => return rvm_core::Event::Deliver(place as u64),
        };
        rvm_core::Event::At(host, command)
    }
}

/// Hosts, and each frame that they sent, oldest first.
#[derive(Drop)]
pub struct Hosts {
    hosts: Vec<Host<FlatMemory>>,
    pub sent: Vec<Addressed>,
}

/// A guest of one hart with this many pages, whose RAM begins with these words.
pub fn guest(alloc: Global, pages: u32, words: &[u32]) -> Result<Debugged<FlatMemory>, Fail> {
    if pages > MAX_PAGES {
        return Err(Fail::from("a board has at most 4096 pages"));
    }
    let mut ram = FlatMemory::zeroed(alloc, pages)?;
    let mut place = 0u32;
    for word in words {
        write_bytes(&mut ram, place, &word.to_le_bytes())?;
        place = place.wrapping_add(4);
    }
    match Board::new(alloc, 1, ram, RAM_BASE) {
        Ok(board) => Ok(Debugged::new(board)),
        Err((error, _)) => Err(Fail::from(error)),
    }
}

/// Adds hosts with these limits, the first of which has a guest of this many pages that loops.
fn fill(
    alloc: Global,
    hosts: &mut Vec<Host<FlatMemory>>,
    pages: u32,
    count: u8,
    limits: &[u16],
) -> Result<(), Fail> {
    let mut id = 0u8;
    for limit in limits {
        let guest = match id {
            0 => Some(guest(alloc, pages, &[LOOP])?),
            _ => None,
        };
        match Host::with_version(guest, id, count, *limit, VERSION) {
            Ok(host) => hosts.push(host)?,
            Err(refused) => {
                drop(refused);
                return Err(Fail::from(WRONG_COUNT));
            }
        }
        id = id.wrapping_add(1);
    }
    Ok(())
}

impl Hosts {
    /// Hosts with these limits, the first of which has a guest of this many pages that loops.
    pub fn new(alloc: Global, pages: u32, limits: &[u16]) -> Result<Hosts, Fail> {
        let Ok(count) = u8::try_from(limits.len()) else {
            return Err(Fail::from(WRONG_COUNT));
        };
        let mut hosts = Vec::with_capacity(alloc, limits.len())?;
        match fill(alloc, &mut hosts, pages, count, limits) {
            Ok(()) => Ok(Hosts {
                hosts,
                sent: Vec::new(alloc),
            }),
            Err(fail) => {
                drop(hosts);
                Err(fail)
            }
        }
    }

    /// The host at which an event happens, and what it is there; none if no such frame was sent.
    fn meaning(&self, alloc: Global, event: Event) -> Result<Option<(u8, HostEvent)>, AllocError> {
        Ok(match event.in_world() {
            rvm_core::Event::At(host, command) => Some((host, HostEvent::Do(command))),
            rvm_core::Event::Deliver(place) => match self.sent.get(place as usize) {
                Some(sent) => {
                    let frame = shared(alloc, &sent.frame)?;
                    Some((sent.to, HostEvent::Came(sent.from, frame)))
                }
                None => None,
            },
        })
    }

    /// Plays an event. Returns the reply, and the place of the frame that was made, if one was.
    pub fn turn(&mut self, alloc: Global, event: Event) -> Result<(Said, Option<usize>), Fail> {
        let Some((host, event)) = self.meaning(alloc, event)? else {
            return Err(Fail::from("the frame was sent"));
        };
        self.sent.reserve(1)?;
        let (reply, frame) = answer(alloc, &mut self.hosts, host, &event)?;
        let Some(frame) = frame else {
            return Ok((said(&reply), None));
        };
        let place = self.sent.len();
        self.sent.push_reserved(frame);
        Ok((said(&reply), Some(place)))
    }

    /// Gives a host a frame that comes from another one. Returns the reply.
    pub fn hear(&mut self, alloc: Global, host: u8, from: u8, frame: Frame) -> Result<Said, Fail> {
        let event = came(alloc, from, &frame);
        drop(frame);
        let event = event?;
        let answered = answer(alloc, &mut self.hosts, host, &event);
        drop(event);
        let (reply, _) = answered?;
        Ok(said(&reply))
    }
}

/// The event that a copy of a frame comes.
fn came(alloc: Global, from: u8, frame: &Frame) -> Result<HostEvent, Fail> {
    let frame = shared(alloc, frame)?;
    Ok(HostEvent::Came(from, frame))
}

/// A copy of a frame, for an event.
fn shared(alloc: Global, frame: &Frame) -> Result<Shared<Frame>, AllocError> {
    Ok(Shared::new(alloc, frame.copy(alloc)?)?)
}

/// Gives a host an event. Returns the reply, and the frame that the host made, if it made one.
fn answer(
    alloc: Global,
    hosts: &mut Vec<Host<FlatMemory>>,
    host: u8,
    event: &HostEvent,
) -> Result<(HostReply, Option<Addressed>), Fail> {
    let Some(host) = hosts.get_mut(usize::from(host)) else {
        return Err(Fail::from("the host is there"));
    };
    Ok(host.apply(alloc, event)?)
}
