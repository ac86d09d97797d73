//! Links that note which version their streams have.

ghost use Rattle.std.specs.Prelude.{◌≤◌};

use crate::asked::HELLO;
use crate::ended::{MoveResult, print_no_connection};
use rvm_link::{Link, LinkRead};
use rvm_move::{Links, OpenGate, connect_both};
use rvm_refusal::LinkFault;
use std::net::Net;
use std::sync::Wait;
use std::sync::atomic::{AtomicU8, Ordering};
use std::thread::Threads;
use std::time::Clock;

/// The place of the version in Hello, which is sent first.
const VERSION: usize = 13;

/// A link that notes the version in the first bytes that are sent by it.
#[derive(Drop)]
struct Noting<'v, K: Link + Drop> {
    link: K,
    version: &'v AtomicU8,
    has_sent: bool,
}

impl<K: Link + Drop> Link for Noting<'_, K> {
    fn send(&mut self, bytes: &[u8]) -> Result<(), LinkFault> {
        if !self.has_sent {
            let version = bytes.get(VERSION).copied().unwrap_or(0);
            self.version.store(version, Ordering::SeqCst);
            self.has_sent = true;
        }
        self.link.send(bytes)
    }

    fn flush(&mut self) -> Result<(), LinkFault> {
        self.link.flush()
    }

    fn recv(&mut self, buffer: &mut [u8]) -> LinkRead {
        self.link.recv(buffer)
    }
}

/// Links of which the sending one notes its version here.
fn noting_links<K: Link + Drop>(links: Links<K>, version: &AtomicU8) -> Links<Noting<'_, K>> {
    let Links { sending, receiving } = links;
    Links {
        sending: Noting {
            link: sending,
            version,
            has_sent: false,
        },
        receiving: Noting {
            link: receiving,
            version,
            has_sent: true,
        },
    }
}

/// Moves a guest by a stream of each version, and prints which versions its hosts said.
pub fn note_versions<R: AllocGlobal + Print + Net + Threads + Wait + Clock + Sync>(
    rt: &R,
) -> anyhow::Result<()>
where
    R::Stream: Send,
{
    for stream in 1..=3 {
        note_version(rt, stream)?;
    }
    Ok(())
}

/// Moves a guest by a stream of this version, and prints which versions its hosts said.
fn note_version<R: AllocGlobal + Print + Net + Threads + Wait + Clock + Sync>(
    rt: &R,
    stream: u32,
) -> anyhow::Result<()>
where
    R::Stream: Send,
    requires { (1 ≤ stream) × (stream ≤ 3) }
{
    let (by_a, by_b) = (AtomicU8::new(0), AtomicU8::new(0));
    let Ok((a, b)) = connect_both(rt, rt.alloc()) else {
        return print_no_connection(rt);
    };
    let links = (noting_links(a, &by_a), noting_links(b, &by_b));
    let ended = MoveResult::over_links(rt, HELLO, stream, links, &OpenGate);
    let moved = ended.has("started");
    let (by_a, by_b) = (by_a.load(Ordering::SeqCst), by_b.load(Ordering::SeqCst));
    println!(rt; "moved by stream {stream} {moved}: A says version {by_a}, B says version {by_b}")?;
    Ok(())
}
