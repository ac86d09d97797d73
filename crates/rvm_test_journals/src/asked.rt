//! Hosts with journals, and what they are asked.

ghost use Rattle.std.specs.Prelude.{◌≡◌, ◌≤◌, [], IfSome};

use rvm_board::{Board, BoardEvent, Debugged};
use rvm_frame::{Addressed, Frame};
use rvm_hart::RAM_BASE;
use rvm_host::Host;
use rvm_mem::write_bytes;
use rvm_message::{Command, HostEvent, HostReply, Shared};
use rvm_paged::PagedRam;
use rvm_recorder::{RecordError, Recorded};
use std::alloc::Global;

/// The number of pages of a guest.
const PAGES: u32 = 4;

/// Jumps to itself.
const LOOP: u32 = 0x0000006f;

/// One of two hosts that speak version 1, with an empty journal for this many entries. Host 0 has a guest of `harts`
/// harts and four pages that jumps to itself, host 1 has none.
pub fn recorded(alloc: Global, id: u8, harts: u32, capacity: u32) -> Option<Recorded<PagedRam>>
    requires { (1 ≤ harts) × (harts ≤ 8) }
    ensures { IfSome result (λ r. r.journal.entries ≡ []) }
{
    let host = host(alloc, id, harts, 1)?;
    Recorded::new(alloc, host, capacity).ok()
}

/// One of two such hosts, in a version of the stream.
pub fn host(alloc: Global, id: u8, harts: u32, version: u32) -> Option<Host<PagedRam>>
    requires { (1 ≤ harts) × (harts ≤ 8) }
{
    host_among(alloc, id, 2, harts, version)
}

/// One of this many such hosts.
pub fn host_among(
    alloc: Global,
    id: u8,
    count: u8,
    harts: u32,
    version: u32,
) -> Option<Host<PagedRam>>
    requires { (1 ≤ harts) × (harts ≤ 8) }
{
    let guest = if id == 0 {
        Some(looping(alloc, harts)?)
    } else {
        None
    };
    Host::with_version(guest, id, count, 4096, version).ok()
}

/// A guest of this many harts and four pages that jumps to itself.
fn looping(alloc: Global, harts: u32) -> Option<Debugged<PagedRam>> {
    let mut ram = PagedRam::new(alloc, PAGES).ok()?;
    write_bytes(&mut ram, 0, &LOOP.to_le_bytes()).ok()?;
    Some(Debugged::new(Board::new(alloc, harts, ram, RAM_BASE).ok()?))
}

/// An event of the guest.
pub fn board(event: BoardEvent) -> HostEvent {
    HostEvent::Do(Command::Board(event))
}

/// Records an event.
pub fn record(
    recorded: &mut Recorded<PagedRam>,
    alloc: Global,
    event: HostEvent,
) -> Option<(u32, HostReply, Option<Addressed>)> {
    recorded.record(alloc, event).ok()
}

/// The event that a frame comes from a host.
pub fn came(alloc: Global, from: u8, frame: Frame) -> Option<HostEvent> {
    Some(HostEvent::Came(from, Shared::new(alloc, frame).ok()?))
}
