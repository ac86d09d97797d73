//! What became of a move.

ghost use Rattle.std.specs.Prelude.{◌≤◌};

use crate::asked::{STEPS, to_move, to_run};
use rvm_cell::Gate;
use rvm_command::run_command::{RunFiles, run_command};
use rvm_link::Link;
use rvm_move::Links;
use rvm_move::move_command::move_command;
use rvm_move::move_over::move_over;
use rvm_paged::PagedRam;
use rvm_refusal::LinkFault;
use std::alloc::Global;
use std::io;
use std::net::Net;
use std::sync::Wait;
use std::thread::Threads;
use std::time::Clock;

/// What a move returned and wrote.
#[derive(Drop)]
pub struct MoveResult {
    pub status: Result<u8, LinkFault>,
    pub output: Vec<u8>,
    pub errors: Vec<u8>,
}

impl MoveResult {
    /// Moves a guest by a stream of this version, over these links and past a gate. Returns what became of it.
    pub fn over_links<
        K: Link + Drop + Send,
        G: Gate + Sync,
        R: AllocGlobal + Threads + Wait + Clock + Sync,
    >(rt: &R, image: &[u8], stream: u32, links: (Links<K>, Links<K>), gate: &G) -> MoveResult
        requires { (1 ≤ stream) × (stream ≤ 3) }
    {
        let alloc = rt.alloc();
        let (mut output, mut errors) = (Vec::new(alloc), Vec::new(alloc));
        let arguments = to_move(STEPS, stream);
        let status = move_over::<PagedRam, _, _, _, _, _>(
            rt,
            alloc,
            &arguments,
            image,
            links,
            gate,
            &mut output,
            &mut errors,
        );
        MoveResult {
            status,
            output,
            errors,
        }
    }

    /// Moves a guest that makes this many turns, by a stream of this version, over TCP. Returns what became of it.
    pub fn over_tcp<R: AllocGlobal + Net + Threads + Wait + Clock + Sync>(
        rt: &R,
        image: &[u8],
        steps: u32,
        stream: u32,
    ) -> MoveResult
    where
        R::Stream: Send,
        requires steps { (1 ≤ steps) × (steps ≤ 100000) }
        requires stream { (1 ≤ stream) × (stream ≤ 3) }
    {
        let alloc = rt.alloc();
        let (mut output, mut errors) = (Vec::new(alloc), Vec::new(alloc));
        let arguments = to_move(steps, stream);
        let status = move_command::<PagedRam, _, _, _>(
            rt,
            alloc,
            &arguments,
            image,
            &mut output,
            &mut errors,
        );
        MoveResult {
            status,
            output,
            errors,
        }
    }

    /// Whether a host replied with this line.
    pub fn has(&self, line: &str) -> bool {
        self.errors
            .as_slice()
            .split(|byte| *byte == b'\n')
            .any(|told| told == line.as_bytes())
    }

    /// Whether the guest sent what it sends without a move.
    pub fn is_as_run(&self, alloc: Global, image: &[u8]) -> bool {
        let mut output = Vec::new(alloc);
        let mut errors = Vec::new(alloc);
        let run = run_command::<PagedRam, _, _, _, _>(
            alloc,
            &to_run(),
            image,
            &[],
            &[],
            &mut output,
            &mut RunFiles {
                trace: io::sink(),
                report: io::sink(),
            },
            &mut errors,
        );
        run == Ok(0) && output.as_slice() == self.output.as_slice()
    }
}

/// Prints that there is no connection to move by.
pub fn print_no_connection<R: Print>(rt: &R) -> anyhow::Result<()> {
    println!(rt; "no connection")?;
    Ok(())
}
