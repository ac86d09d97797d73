//! Guests that run while they move, over TCP.

ghost use Rattle.std.specs.Prelude.{◌≤◌};

use crate::asked::{HELLO, STEPS, WRITER};
use crate::ended::MoveResult;
use std::net::Net;
use std::sync::Wait;
use std::thread::Threads;
use std::time::Clock;

/// Moves guests by streams of each version.
pub fn move_guests<R: AllocGlobal + Print + Net + Threads + Wait + Clock + Sync>(
    rt: &R,
) -> anyhow::Result<()>
where
    R::Stream: Send,
{
    for stream in 1..=3 {
        move_one(rt, "hello", HELLO, stream)?;
        move_one(rt, "writer", WRITER, stream)?;
    }
    Ok(())
}

/// Moves a guest, and prints what became of it.
fn move_one<R: AllocGlobal + Print + Net + Threads + Wait + Clock + Sync>(
    rt: &R,
    name: &str,
    image: &[u8],
    stream: u32,
) -> anyhow::Result<()>
where
    R::Stream: Send,
    requires { (1 ≤ stream) × (stream ≤ 3) }
{
    let ended = MoveResult::over_tcp(rt, image, STEPS, stream);
    print_end(rt, name, stream, image, &ended)
}

/// Prints what became of a move.
fn print_end<R: AllocGlobal + Print>(
    rt: &R,
    name: &str,
    stream: u32,
    image: &[u8],
    ended: &MoveResult,
) -> anyhow::Result<()> {
    let ends = ended.has("committed 1") && ended.has("started") && ended.has("finished");
    // The end of a round came too.
    let moved = ends && ended.has("noted");
    let is_as_run = ended.is_as_run(rt.alloc(), image);
    let good = ended.status == Ok(0);
    println!(rt;
        "{name} by stream {stream}: status 0 {good}, moved {moved}, output as of run {is_as_run}"
    )?;
    Ok(())
}
