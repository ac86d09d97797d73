//! A journal in a file that is done again, and audited, where its events, if they were kept, would take more memory than
//! there is.

ghost use Rattle.std.specs.Prelude.{◌≡◌, IfSome, length};

use crate::heap::Heap;
use crate::trial::{Trial, Tried, print_tried};
use rvm_board::BoardEvent;
use rvm_journal::{Header, Image, JournalWriter};
use rvm_mem::FlatMemory;
use rvm_message::Command;
use rvm_refusal::LinkFault;
use rvm_replay::audit::{AuditText, audit_journals};
use rvm_replay::replay_command::replay_command;
use rvm_station::EventLog;
use std::alloc::Global;
use std::io::{self, BufWriter};

/// How often the guest takes turns, and a drain finds nothing after them.
const ROUNDS: u64 = 2000;

/// How many turns it takes each time. Each traps, and is an event by itself. Kept, the events of all rounds would take
/// several times as much memory as a call finds at most.
const TURNS: u32 = 8;

/// What is reported of them.
const REPORT: &[u8] = b"replayed 18000 events\n";

/// The most bytes that a drain takes.
const DRAIN: u32 = 256;

/// The number of pages of the guest.
const PAGES: u32 = 1;

/// The image of the guest: no instruction. Its traps go to address 0, which is not in RAM, so that each turn traps.
static IMAGE: [u8; 4] = [0; 4];

/// The name of the journal's file.
const NAME: &str = "A.journal";

/// How many bytes each writer has room for.
const TEXT_SIZE: usize = 512;

/// Does the journal again, and audits it.
pub fn try_calls<R: AllocGlobal + Print>(rt: &R, heap: &mut Heap) -> Option<()> {
    let bytes = write_journal(rt.alloc())?;
    let journal = bytes.as_slice();
    print_tried(rt, heap, "replay_command", &mut Replay { journal })?;
    print_tried(rt, heap, "audit_journals", &mut Audit { journal })
}

/// The journal of the first of two hosts, where the guest takes its turns.
fn write_journal(alloc: Global) -> Option<Vec<u8>> {
    let header = Header {
        hosts: 2,
        host: 0,
        process: 1,
        world: 1,
        guest: Some(Image::of(true, 1, PAGES, &IMAGE)),
    };
    let mut bytes = Vec::new(alloc);
    let mut writer = JournalWriter::new(alloc, &mut bytes, &header).ok()?;
    for round in 0..ROUNDS {
        writer.turns(round * u64::from(TURNS), 1, TURNS);
        writer.command(&Command::Board(BoardEvent::Drain(DRAIN)));
    }
    let finished = writer.finish();
    drop(writer);
    finished.ok()?;
    Some(bytes)
}

/// What became of a command that is done if it answers 0 and all of this is so. Else memory ran out.
fn tried_by(told: Result<u8, LinkFault>, is_done: bool, errors: &[u8]) -> Tried {
    match told {
        Ok(0) if is_done => Tried::Made,
        Ok(1) => Tried::refused(tells_no_memory(errors)),
        _ => Tried::Wrong,
    }
}

/// Whether it was reported that memory ran out.
fn tells_no_memory(errors: &[u8]) -> bool {
    errors.ends_with(b"out of memory\n") || errors.ends_with(b"OutOfMemory\n")
}

/// The trial of doing a journal again.
#[derive(Drop)]
struct Replay<'a> {
    journal: &'a [u8],
}

impl Trial for Replay<'_> {
    fn attempt(&mut self, alloc: Global, heap: &mut Heap, room: usize) -> Tried {
        let Ok(mut errors) = Vec::with_capacity(alloc, TEXT_SIZE) else {
            return Tried::Wrong;
        };
        if heap.leave(alloc, room).is_none() {
            return Tried::Wrong;
        }
        let told = replay_command::<FlatMemory, &[u8], _, _>(
            alloc,
            NAME,
            self.journal,
            &IMAGE,
            None,
            &mut io::sink(),
            &mut errors,
        );
        heap.release();
        tried_by(told, errors.as_slice() == REPORT, errors.as_slice())
    }
}

/// The trial of auditing a journal. The other host has done nothing.
#[derive(Drop)]
struct Audit<'a> {
    journal: &'a [u8],
}

impl Trial for Audit<'_> {
    fn attempt(&mut self, alloc: Global, heap: &mut Heap, room: usize) -> Tried {
        let (Ok(mut errors), Ok(mut output)) = (
            Vec::with_capacity(alloc, TEXT_SIZE),
            BufWriter::with_capacity(alloc, TEXT_SIZE, io::sink()),
        ) else {
            return Tried::Wrong;
        };
        let Some(inputs) = alone(alloc, self.journal) else {
            return Tried::Wrong;
        };
        if heap.leave(alloc, room).is_none() {
            return Tried::Wrong;
        }
        let told = audit_journals::<FlatMemory, &[u8], _, _, _>(
            alloc,
            &[NAME],
            inputs,
            &IMAGE,
            AuditText::Summary,
            &mut output,
            &mut io::sink(),
            &mut errors,
        );
        heap.release();
        tried_by(told, errors.is_empty(), errors.as_slice())
    }
}

/// One journal.
fn alone(alloc: Global, journal: &[u8]) -> Option<Vec<&[u8]>>
    ensures { IfSome result (λ inputs. 1 ≡ length inputs.items) }
{
    let mut inputs = Vec::new(alloc);
    inputs.push(journal).ok()?;
    Some(inputs)
}
