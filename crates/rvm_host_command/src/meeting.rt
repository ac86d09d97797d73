//! How two hosts meet on a connection.

use crate::process::Process;
use crate::timed::Timed;
use rvm_link::{Greeted, GreetingFault, accept, greet};
use rvm_station::{Hosting, Meeting};
use std::io;
use std::io::{Read, Write};
use std::net::OpenStream;
use std::random::RandomSource;
use std::sync::Wait;
use std::time::{Clock, Duration};

/// The milliseconds that a whole greeting may take.
const GREETING: u64 = 1000;

/// The milliseconds that a write may take before the connection is given up.
const WRITE: u64 = 2000;

/// Draws a nonce of 32 bytes at random.
fn draw_nonce<R: RandomSource>(rt: &R) -> io::Result<[u8; 32]> {
    let mut nonce = [0u8; 32];
    rt.fill_bytes(&mut nonce)?;
    Ok(nonce)
}

/// Greets host `to` on a connection that was made to it, and notes that it was met.
pub(crate) fn meet_connected<
    L: Hosting,
    S: Read + Write + OpenStream + Drop,
    R: Wait + Clock + RandomSource,
>(rt: &R, process: &Process<L, S>, to: u8, stream: &mut S) -> Result<(), GreetingFault> {
    let nonce = draw_nonce(rt)?;
    let registry = *process.registry.lock(rt);
    let mut output = prepare(stream)?;
    let mut input = Timed::new(rt, stream, Duration::from_millis(GREETING));
    let greeted = greet(
        &mut input,
        &mut output,
        &process.secret,
        &registry,
        to,
        &nonce,
    )?;
    process.registry.lock(rt).meet(to, &greeted.facts)
}

/// Answers the greeting of a host that made a connection, and notes that it was met. Returns its number.
pub(crate) fn meet_accepted<
    L: Hosting,
    S: Read + Write + OpenStream + Drop,
    R: Wait + Clock + RandomSource,
>(rt: &R, process: &Process<L, S>, stream: &mut S) -> Result<u8, GreetingFault> {
    let nonce = draw_nonce(rt)?;
    let registry = *process.registry.lock(rt);
    let mut output = prepare(stream)?;
    let mut input = Timed::new(rt, stream, Duration::from_millis(GREETING));
    let Greeted {
        own: _,
        other,
        facts,
    } = accept(&mut input, &mut output, &process.secret, &registry, &nonce)?;
    process.registry.lock(rt).meet(other.from, &facts)?;
    Ok(other.from)
}

/// What this host knows of another one that it met.
pub(crate) fn meeting_with<L: Hosting, S: Read + Write + OpenStream + Drop, R: Wait>(
    rt: &R,
    process: &Process<L, S>,
    other: u8,
) -> Meeting {
    let facts = process.registry.lock(rt).facts_for(other);
    Meeting {
        host: other,
        process: facts.known,
        world: facts.world,
    }
}

/// Sets how long a write to a connection may take, and has the system hold nothing back. Returns another handle, to
/// write to it.
fn prepare<S: OpenStream>(stream: &S) -> io::Result<S> {
    stream.set_nodelay(true)?;
    stream.set_write_timeout(Some(Duration::from_millis(WRITE)))?;
    stream.try_clone()
}
