//! `rvm_bench IMAGE HARTS flat|paged STEPS` runs an image as `rvmove run` does, with 1 MiB of RAM over one of two
//! memories, so that a benchmark shows what a second instantiation of a step costs. What the guest sends goes to
//! standard output.
//!
//! `rvm_bench STREAM` reads a stream of frames, and prints how long that took.
//!
//! Stands on `rvm_command` for the run, on `rvm_mem` and `rvm_paged` for the two memories, on `rvm_board` and
//! `rvm_hart` for the guest, and on `rvm_frame` for streams. To be read in this order: `feed`, then this file.
#![tactic(auto)]

mod feed;

use crate::feed::feed;
use rvm_board::{Board, Debugged};
use rvm_command::run::run;
use rvm_hart::RAM_BASE;
use rvm_mem::{FlatMemory, PagedMemory, write_bytes};
use rvm_paged::PagedRam;
use std::process::ExitCode;
use std::{env, fs};

/// The number of pages of RAM, each of 4096 bytes.
const PAGES: u32 = 256;

fn main(rt: HostRuntime) -> anyhow::Result<ExitCode> {
    let words: Vec<String> = env::args(&rt)?.collect(rt.alloc())?;
    if let [_, stream] = words.as_slice() {
        feed(&rt, fs::read(&rt, stream.as_str())?.as_slice())?;
        return Ok(ExitCode::SUCCESS);
    }
    let [_, file, harts, memory, steps] = words.as_slice() else {
        return tell_usage(&rt);
    };
    let harts: u32 = harts.as_str().parse()?;
    let steps: u32 = steps.as_str().parse()?;
    match memory.as_str() {
        "flat" => run_over::<FlatMemory>(&rt, file.as_str(), harts, steps),
        "paged" => run_over::<PagedRam>(&rt, file.as_str(), harts, steps),
        _ => tell_usage(&rt),
    }
}

/// Writes the usage of the program to standard error. Returns the status 2.
fn tell_usage(rt: &HostRuntime) -> anyhow::Result<ExitCode> {
    eprintln!(rt; "usage: rvm_bench IMAGE HARTS flat|paged STEPS, or rvm_bench STREAM")?;
    Ok(ExitCode::from(2))
}

/// Makes at most `steps` turns of a board with `harts` harts, whose RAM of 1 MiB begins with the bytes of a file.
fn run_over<M: PagedMemory + Drop>(
    rt: &HostRuntime,
    file: &str,
    harts: u32,
    steps: u32,
) -> anyhow::Result<ExitCode> {
    let image = fs::read(rt, file)?;
    let mut ram = M::zeroed(rt.alloc(), PAGES)?;
    write_bytes(&mut ram, 0, image.as_slice())?;
    let board = match Board::new(rt.alloc(), harts, ram, RAM_BASE) {
        Ok(board) => board,
        Err((error, _)) => return Err(anyhow::Error::from(error)),
    };
    let mut guest = Debugged::new(board);
    let _ = run(&mut guest, steps, &[], &mut rt.stdout())?;
    Ok(ExitCode::SUCCESS)
}
