//! A host under its lock, and the log of its events.

ghost use Rattle.std.specs.Prelude.{◌≡◌};

use rvm_board::{Board, Debugged, Snapshot};
use rvm_frame::Frame;
use rvm_hart::RAM_BASE;
use rvm_host::{Host, ModeKind};
use rvm_mem::{FlatMemory, PagedMemory, write_bytes};
use rvm_message::{Command, HostRefusal, HostReply};
use rvm_precopy::Policy;
use rvm_refusal::LinkFault;
use rvm_station::{EventLog, HostCell, Meeting, NoLog, Opening, Slice, Then};
use std::alloc::Global;
use std::marker::Brand;
use std::process::Abort;
use std::sync::Wait;
use std::sync::atomic::{AtomicU64, Ordering};
use std::test::Fail;

/// `jal zero, 0`.
const LOOP: u32 = 0x0000_006F;

/// A guest of one hart and one page that jumps to where it is.
fn guest(alloc: Global) -> Result<Debugged<FlatMemory>, Fail> {
    let mut ram = FlatMemory::zeroed(alloc, 1)?;
    write_bytes(&mut ram, 0, &LOOP.to_le_bytes())?;
    match Board::new(alloc, 1, ram, RAM_BASE) {
        Ok(board) => Ok(Debugged::new(board)),
        Err((error, _)) => Err(Fail::from(error)),
    }
}

/// What a log was told to keep: a letter for each event, the newest in the lowest byte, and the number of turns.
/// Consecutive turns have one letter.
#[derive(Drop)]
struct Notes {
    letters: AtomicU64,
    turns: AtomicU64,
}

impl Notes {
    /// Nothing yet.
    fn new() -> Notes {
        Notes {
            letters: AtomicU64::new(0),
            turns: AtomicU64::new(0),
        }
    }

    /// Notes an event.
    fn note(&self, letter: u8) {
        let before = self.letters.load(Ordering::SeqCst);
        self.letters.store(
            before.wrapping_mul(256) | u64::from(letter),
            Ordering::SeqCst,
        );
    }

    /// Notes turns, if these are the next turns of one hart.
    fn note_turns(&self, turn: u64, harts: u32, count: u32) {
        let before = self.turns.load(Ordering::SeqCst);
        if harts != 1 || turn != before {
            self.note(b'?');
        } else if self.letters.load(Ordering::SeqCst) % 256 != u64::from(b'T') {
            self.note(b'T');
        }
        self.turns
            .store(before.wrapping_add(u64::from(count)), Ordering::SeqCst);
    }

    /// Whether just these events were noted, and this many turns.
    fn are(&self, letters: [u8; 8], turns: u64) -> bool {
        self.letters.load(Ordering::SeqCst) == u64::from_be_bytes(letters)
            && self.turns.load(Ordering::SeqCst) == turns
    }
}

/// A log that the test looks at.
#[derive(Drop)]
struct Noted<'n> {
    notes: &'n Notes,
}

impl<'n> EventLog for Noted<'n> {
    fn command(&mut self, command: &Command) {
        self.notes.note(match command {
            Command::Begin { to: 1, .. } => b'B',
            Command::Abort => b'A',
            _ => b'?',
        });
    }

    fn came(&mut self, from: u8, frame: &Frame) {
        self.notes.note(match (from, frame) {
            (1, Frame::Accept { move_number: 1 }) => b'F',
            _ => b'?',
        });
    }

    fn turns(&mut self, turn: u64, harts: u32, count: u32) {
        self.notes.note_turns(turn, harts, count);
    }

    fn met(&mut self, meeting: Meeting) {
        self.notes.note(match meeting {
            Meeting {
                host: 1,
                process: 7,
                world: 9,
            } => b'M',
            _ => b'?',
        });
    }

    fn finish(&mut self) -> Result<(), LinkFault> {
        self.notes.note(b'E');
        Ok(())
    }
}

/// What the timer of a guest says that was looked at, or why it was not shown.
fn time_in(seen: Result<Snapshot, HostRefusal>) -> Result<u64, HostRefusal> {
    match seen {
        Ok(snapshot) => Ok(snapshot.devices.mtime),
        Err(why) => Err(why),
    }
}

/// Plays a move that begins and is given up, under the lock of a host that has a guest and is host 0 of two. Looks at
/// what its log was told to keep.
fn play<L: Opening, R: Abort + Wait>(
    rt: &R,
    alloc: Global,
    host: Host<FlatMemory>,
) -> Result<(), Fail>
    requires { host ≡ L.opening }
{
    let notes = Notes::new();
    let cell: HostCell<L, FlatMemory, Noted<'_>> = HostCell::new(host, Noted { notes: &notes });
    let slice = Slice {
        made: 100,
        then: Then::GoOn,
        has_output: false,
    };
    assert!(rt; cell.slice(rt, 0, 100) == slice);
    let begin = Command::Begin {
        to: 1,
        policy: Policy::default(),
    };
    let (begun, offer) = cell.obey(rt, alloc, &begin)?;
    cell.met(
        rt,
        Meeting {
            host: 1,
            process: 7,
            world: 9,
        },
    );
    assert!(rt; begun == HostReply::Begun(1));
    assert!(rt; offer.is_some_and(|offer| offer.get().to == 1));
    let (open, _none) = cell.came(rt, alloc, 1, &Frame::Accept { move_number: 1 })?;
    assert!(rt; open == HostReply::Open);
    assert!(rt; cell.status(rt).kind == ModeKind::Copying);
    assert!(rt; time_in(cell.snapshot(rt)) == Ok(100));
    let (aborted, abort) = cell.obey(rt, alloc, &Command::Abort)?;
    assert!(rt; aborted == HostReply::Aborted);
    assert!(rt; abort.is_some());
    assert!(rt; cell.slice(rt, 100, 100) == slice);
    assert!(rt; notes.are(*b"\0\0TBMFAT", 200));
    Ok(())
}

#[test]
fn a_host_answers_under_its_lock(rt: HostRuntime) -> Result<(), Fail> {
    match Host::with_version(Some(guest(rt.alloc())?), 0, 2, 1, 3) {
        Ok(host) => play::<Brand, _>(&rt, rt.alloc(), host),
        Err(_) => Err(Fail::from("there are two hosts")),
    }
}

/// Plays an offer under the lock of a host without a guest.
fn play_empty<L: Opening, R: Abort + Wait>(
    rt: &R,
    alloc: Global,
    host: Host<FlatMemory>,
) -> Result<(), Fail>
    requires { host ≡ L.opening }
{
    let cell: HostCell<L, FlatMemory, NoLog> = HostCell::new(host, NoLog);
    let slice = cell.slice(rt, 0, 100);
    assert!(rt; slice.made == 0 && slice.then == Then::Elsewhere);
    assert!(rt; time_in(cell.snapshot(rt)) == Err(HostRefusal::NotHere));
    let offer = Frame::Offer {
        move_number: 1,
        pages: 1,
        harts: 1,
    };
    let (accepted, accept) = cell.came(rt, alloc, 0, &offer)?;
    assert!(rt; accepted == HostReply::Accepted);
    assert!(rt; accept.is_some_and(|accept| accept.get().to == 0));
    assert!(rt; cell.status(rt).kind == ModeKind::Staging);
    Ok(())
}

#[test]
fn an_empty_host_takes_an_offer(rt: HostRuntime) -> Result<(), Fail> {
    match Host::with_version(None, 1, 2, 1, 3) {
        Ok(host) => play_empty::<Brand, _>(&rt, rt.alloc(), host),
        Err(_) => Err(Fail::from("there are two hosts")),
    }
}
