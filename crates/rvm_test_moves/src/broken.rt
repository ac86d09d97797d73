//! Moves whose writers fail, and moves whose journals are full.

ghost use Rattle.std.specs.Prelude.{◌≡◌, ◌≤◌, [], IfSome};

use crate::asked::{HELLO, LOOP, STEPS, to_move};
use rvm_board::Debugged;
use rvm_command::guest::load_guest;
use rvm_host::Host;
use rvm_link::Link;
use rvm_move::move_over::move_over;
use rvm_move::{Ends, Links, OpenGate, connect_both, move_guest, plan_of};
use rvm_paged::PagedRam;
use rvm_recorder::Recorded;
use rvm_refusal::LinkFault;
use std::alloc::Global;
use std::io;
use std::io::Write;
use std::marker::Brand;
use std::net::Net;
use std::sync::Wait;
use std::sync::ledger::Blank;
use std::thread::Threads;
use std::time::Clock;

/// A writer that takes nothing.
#[derive(Drop)]
struct Broken;

impl Write for Broken {
    fn write(&mut self, _buf: &[u8]) -> io::Result<usize> {
        Err(io::Error::from_raw_os_error(5))
    }

    fn flush(&mut self) -> io::Result<()> {
        Ok(())
    }
}

/// Moves a guest that prints while one writer takes nothing, and prints what is returned.
pub fn break_writers<R: AllocGlobal + Print + Net + Threads + Wait + Clock + Sync>(
    rt: &R,
) -> anyhow::Result<()>
where
    R::Stream: Send,
{
    let mut errors = Vec::new(rt.alloc());
    let answer = moved_to(rt, &mut Broken, &mut errors);
    let told = errors.as_slice().ends_with(b"refused 31 LinkFault\n");
    let failed = answer == Some(Ok(1));
    println!(rt; "an output that takes nothing: status 1 {failed}, told as LinkFault {told}")?;
    let mut output = Vec::new(rt.alloc());
    let untold = moved_to(rt, &mut output, &mut Broken) == Some(Err(LinkFault));
    println!(rt; "errors that take nothing: answered LinkFault {untold}")?;
    Ok(())
}

/// The status of a move of a guest that prints, with these writers.
fn moved_to<O: Write, E: Write, R: AllocGlobal + Net + Threads + Wait + Clock + Sync>(
    rt: &R,
    output: &mut O,
    errors: &mut E,
) -> Option<Result<u8, LinkFault>>
where
    R::Stream: Send,
{
    let links = connect_both(rt, rt.alloc()).ok()?;
    Some(move_over::<PagedRam, _, _, _, _, _>(
        rt,
        rt.alloc(),
        &to_move(STEPS, 1),
        HELLO,
        links,
        &OpenGate,
        output,
        errors,
    ))
}

/// Moves a guest between hosts whose journals are soon full, and prints how the workers end.
pub fn fill_journals<R: AllocGlobal + Print + Net + Threads + Wait + Clock + Sync>(
    rt: &R,
) -> anyhow::Result<()>
where
    R::Stream: Send,
{
    if let Some(ends) = ends_at_a(rt, 64, 1000000) {
        let (harts, copier, receiver) = (ends.harts, ends.copier, ends.receiver_b);
        println!(rt;
            "64 entries at A: harts {harts:?}, copier {copier:?}, receiver at B {receiver:?}"
        )?;
    }
    if let Some(ends) = ends_at_a(rt, 1000000, 4) {
        let (receiver, copier) = (ends.receiver_b, ends.copier);
        println!(rt; "4 entries at B: receiver {receiver:?}, copier {copier:?}")?;
    }
    Ok(())
}

/// A host of this number with a guest or none, whose journal takes this many entries.
fn recorded(
    alloc: Global,
    guest: Option<Debugged<PagedRam>>,
    id: u8,
    capacity: u32,
) -> Option<Recorded<PagedRam>>
    ensures { IfSome result (λ r. r.journal.entries ≡ []) }
{
    let host = Host::with_version(guest, id, 2, 4096, 1).ok()?;
    Recorded::new(alloc, host, capacity).ok()
}

/// Moves a guest between hosts whose journals take this many entries. Returns how the workers ended.
fn ends_at_a<R: AllocGlobal + Net + Threads + Wait + Clock + Sync>(
    rt: &R,
    at_a: u32,
    at_b: u32,
) -> Option<Ends>
where
    R::Stream: Send,
{
    let guest = load_guest(rt.alloc(), &to_move(STEPS, 1).guest, LOOP).ok()?;
    match recorded(rt.alloc(), Some(guest), 0, at_a) {
        Some(a) => ends_at_b(rt, a, at_b),
        None => None,
    }
}

/// Does the same with this first host.
fn ends_at_b<R: AllocGlobal + Net + Threads + Wait + Clock + Sync>(
    rt: &R,
    a: Recorded<PagedRam>,
    at_b: u32,
) -> Option<Ends>
where
    R::Stream: Send,
    requires { a.journal.entries ≡ [] }
{
    match recorded(rt.alloc(), None, 1, at_b) {
        Some(b) => ends_of(rt, (a, b)),
        None => {
            drop(a);
            None
        }
    }
}

/// Does the same with these hosts.
fn ends_of<R: AllocGlobal + Net + Threads + Wait + Clock + Sync>(
    rt: &R,
    recorded: (Recorded<PagedRam>, Recorded<PagedRam>),
) -> Option<Ends>
where
    R::Stream: Send,
    requires { (recorded.0.journal.entries ≡ []) × (recorded.1.journal.entries ≡ []) }
{
    match connect_both(rt, rt.alloc()) {
        Ok(links) => ends_over(rt, recorded, links),
        Err(_) => {
            drop(recorded);
            None
        }
    }
}

/// Does the same with these hosts over links.
fn ends_over<K: Link + Drop + Send, R: AllocGlobal + Threads + Wait + Clock + Sync>(
    rt: &R,
    recorded: (Recorded<PagedRam>, Recorded<PagedRam>),
    links: (Links<K>, Links<K>),
) -> Option<Ends>
    requires { (recorded.0.journal.entries ≡ []) × (recorded.1.journal.entries ≡ []) }
{
    let plan = plan_of(&to_move(STEPS, 1));
    let blanks = (Blank::new(3), Blank::new(2));
    let mut sink = io::sink();
    match move_guest::<Brand, Brand, PagedRam, K, OpenGate, _, R>(
        rt,
        rt.alloc(),
        blanks,
        recorded,
        links,
        &OpenGate,
        &plan,
        &mut sink,
    ) {
        Ok(moved) => {
            let ends = moved.ends;
            drop(moved);
            Some(ends)
        }
        Err(_) => None,
    }
}
