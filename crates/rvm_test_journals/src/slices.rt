//! Slices of steps, and room for entries.

ghost use Rattle.std.specs.Prelude.{◌≤◌};

use crate::asked::{board, record, recorded};
use rvm_board::BoardEvent;
use rvm_hart::Stepped;
use rvm_message::StepReply;
use rvm_paged::PagedRam;
use rvm_recorder::{RecordError, Recorded, SliceError, StepRun};
use std::alloc::Global;

/// What a host is to show.
#[derive(Clone, Copy)]
enum Shown {
    Slices,
    Breakpoint,
    Room,
}

/// Records slices of the steps of four harts until the journal is full, and one that ends at a breakpoint, and makes
/// room for entries.
pub fn record_slices<R: AllocGlobal + Print>(rt: &R) -> Option<()> {
    show_at_a_host(rt, 4, 100, Shown::Slices)?;
    show_at_a_host(rt, 1, 100, Shown::Breakpoint)?;
    show_at_a_host(rt, 1, 4, Shown::Room)
}

/// Shows it at a new host with this many harts and a journal for this many entries.
fn show_at_a_host<R: AllocGlobal + Print>(
    rt: &R,
    harts: u32,
    capacity: u32,
    shown: Shown,
) -> Option<()>
    requires { (1 ≤ harts) × (harts ≤ 8) }
{
    let mut host = recorded(rt.alloc(), 0, harts, capacity)?;
    let done = show(rt, &mut host, shown);
    drop(host);
    done
}

/// Shows it at this host.
fn show<R: AllocGlobal + Print>(rt: &R, host: &mut Recorded<PagedRam>, shown: Shown) -> Option<()> {
    match shown {
        Shown::Slices => fill_with_slices(rt, host),
        Shown::Breakpoint => stop_at_a_breakpoint(rt, host),
        Shown::Room => make_room(rt, host),
    }
}

/// Records slices of four harts until a journal of 100 entries is full.
fn fill_with_slices<R: AllocGlobal + Print>(rt: &R, host: &mut Recorded<PagedRam>) -> Option<()> {
    record_a_slice(rt, host, 0)?;
    record_a_slice(rt, host, 64)?;
    let is_full = host.record_slice(rt.alloc(), 100, 4, 64) == Err(SliceError::RecorderFull(100));
    println!(rt; "the next slice: journal of 100 entries full {is_full}").ok()
}

/// Records a slice of four harts from a turn on, and prints what came of it.
fn record_a_slice<R: AllocGlobal + Print>(
    rt: &R,
    host: &mut Recorded<PagedRam>,
    turn: u32,
) -> Option<()> {
    let retired = StepReply::Stepped(Stepped::Retired);
    let (place, count, are_retired) = answered(host, rt.alloc(), turn, 4, retired)?;
    println!(rt;
        "slice of 4 harts from turn {turn}: {count} entries from place {place}, retired {are_retired}"
    ).ok()
}

/// Records a slice. Returns the place of its first entry, the number of its entries, and whether each has this reply.
fn answered(
    host: &mut Recorded<PagedRam>,
    alloc: Global,
    turn: u32,
    harts: u32,
    wanted: StepReply,
) -> Option<(u32, u64, bool)> {
    let (place, runs) = host.record_slice(alloc, turn, harts, 64).ok()?;
    Some((
        place,
        count_of(runs.as_slice()),
        are_all(runs.as_slice(), wanted),
    ))
}

/// The number of replies in these runs.
fn count_of(runs: &[StepRun]) -> u64 {
    let mut count: u64 = 0;
    for run in runs {
        count = count.wrapping_add(u64::from(run.retired));
        if run.last.is_some() {
            count = count.wrapping_add(1);
        }
    }
    count
}

/// Whether each reply is this one.
fn are_all(runs: &[StepRun], wanted: StepReply) -> bool {
    runs.iter().all(|run| is_all(run, wanted))
}

/// Whether each reply of a run is this one.
fn is_all(run: &StepRun, wanted: StepReply) -> bool {
    let is_retired = run.retired == 0 || wanted == StepReply::Stepped(Stepped::Retired);
    let is_last = match run.last {
        None => true,
        Some(reply) => reply == wanted,
    };
    is_retired && is_last
}

/// Records a slice that ends after a breakpoint, and prints what came of it.
fn stop_at_a_breakpoint<R: AllocGlobal + Print>(
    rt: &R,
    host: &mut Recorded<PagedRam>,
) -> Option<()> {
    let alloc = rt.alloc();
    drop(record(host, alloc, board(BoardEvent::Break(0x80000000)))?);
    let stopped = StepReply::Break(0x80000000);
    let (place, count, is_stopped) = answered(host, alloc, 0, 1, stopped)?;
    println!(rt;
        "slice at a breakpoint: {count} entry from place {place}, stopped {is_stopped}"
    ).ok()
}

/// Makes room for as many entries as the journal takes, and asks for one more.
fn make_room<R: AllocGlobal + Print>(rt: &R, host: &mut Recorded<PagedRam>) -> Option<()> {
    let alloc = rt.alloc();
    host.reserve(alloc, 4).ok()?;
    let is_full = host.reserve(alloc, 5) == Err(RecordError::RecorderFull(4));
    println!(rt; "room for 4 entries in a journal of 4; for 5: full {is_full}").ok()
}
