//! What is refused for its size: journals and shared hosts, outside their limits and at them.

ghost use Rattle.std.specs.Prelude.{◌≡◌, [], IfSome};

use crate::asked::{board, host, record, recorded};
use crate::sharing::share_host;
use rvm_board::{BoardEvent, BoardReply};
use rvm_host::{BadSize, Host};
use rvm_message::HostReply;
use rvm_paged::PagedRam;
use rvm_recorder::{Recorded, Seating, ShareError, share};
use std::alloc::Global;
use std::marker::Brand;
use std::sync::ledger::Blank;

/// Asks for journals of no entry, of too many and of the most, and for no seat, too many and the most.
pub fn refuse_sizes<R: AllocGlobal + Print>(rt: &R) -> Option<()> {
    ask_for_journals(rt)?;
    ask_for_seats(rt)
}

/// Asks for journals that are too small and too large, and then for the longest one, with the host that came back.
fn ask_for_journals<R: AllocGlobal + Print>(rt: &R) -> Option<()> {
    let host = host(rt.alloc(), 0, 1, 1)?;
    let host = refuse_journal(rt.alloc(), host, 0)?;
    let host = refuse_journal(rt.alloc(), host, 1048577)?;
    let mut recorded = Recorded::new(rt.alloc(), host, 1048576).ok()?;
    let done = tell_step(rt, &mut recorded);
    drop(recorded);
    done
}

/// The host, if a journal of this many entries is refused for its size.
fn refuse_journal(alloc: Global, host: Host<PagedRam>, capacity: u32) -> Option<Host<PagedRam>> {
    match Recorded::new(alloc, host, capacity) {
        Err((BadSize, host)) => Some(host),
        Ok(recorded) => {
            drop(recorded);
            None
        }
    }
}

/// Prints whether a host records a step of its guest.
fn tell_step<R: AllocGlobal + Print>(rt: &R, recorded: &mut Recorded<PagedRam>) -> Option<()> {
    let (_, reply, frame) = record(recorded, rt.alloc(), board(BoardEvent::Step(0)))?;
    drop(frame);
    let is_retired = reply == HostReply::Board(BoardReply::Retired);
    drop(reply);
    println!(rt;
        "journals of 0 and of 1048577 entries: BadSize, the host comes back; of 1048576: retired {is_retired}"
    ).ok()
}

/// Asks for no seat and for too many, and then shares the host that came back among the most seats.
fn ask_for_seats<R: AllocGlobal + Print>(rt: &R) -> Option<()> {
    let host = recorded(rt.alloc(), 0, 1, 100)?;
    let host = refuse_seats(rt.alloc(), host, 0)?;
    let host = refuse_seats(rt.alloc(), host, 17)?;
    tell_seats::<Brand, R>(rt, Blank::new(16), host)
}

/// The host, if this many seats are refused for their number.
fn refuse_seats(alloc: Global, host: Recorded<PagedRam>, seats: u32) -> Option<Recorded<PagedRam>>
    requires { host.journal.entries ≡ [] }
    ensures { IfSome result (λ r. r.journal.entries ≡ []) }
{
    refuse_share::<Brand>(alloc, Blank::new(u64::from(seats)), host, seats)
}

/// The host, if it cannot be shared among this many seats, for their number.
fn refuse_share<L: Seating>(
    alloc: Global,
    blank: Blank,
    host: Recorded<PagedRam>,
    seats: u32,
) -> Option<Recorded<PagedRam>>
    requires ledger { (blank.name ≡ L.name) × (blank.parts ≡ L.parts) × (L.seats ≡ L.parts) }
    requires seats { blank.parts ≡ seats }
    requires empty { host.journal.entries ≡ [] }
    requires opening { host.journal.opening ≡ L.opening }
    requires capacity { host.capacity ≡ L.capacity }
    ensures { IfSome result (λ r. r.journal.entries ≡ []) }
{
    match share::<L, PagedRam>(alloc, blank, host, seats) {
        Err((ShareError::BadSize, _, host)) => Some(host),
        other => {
            drop(other);
            None
        }
    }
}

/// Prints how many seats share a host.
fn tell_seats<L: Seating, R: AllocGlobal + Print>(
    rt: &R,
    blank: Blank,
    host: Recorded<PagedRam>,
) -> Option<()>
    requires ledger { (blank.name ≡ L.name) × (blank.parts ≡ L.parts) × (L.seats ≡ L.parts) }
    requires seats { blank.parts ≡ 16 }
    requires empty { host.journal.entries ≡ [] }
    requires opening { host.journal.opening ≡ L.opening }
    requires capacity { host.capacity ≡ L.capacity }
{
    let (host, seats) = share_host::<L>(rt.alloc(), blank, host, 16)?;
    drop(host);
    let count = seats.len();
    drop(seats);
    println!(rt; "0 and 17 seats: BadSize, the host comes back; shared by {count} seats").ok()
}
