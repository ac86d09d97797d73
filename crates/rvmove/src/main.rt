//! `rvmove` assembles, disassembles, runs and debugs guests of a small RISC-V board, and moves them between hosts.
//! Takes the descriptors of the standard streams, and passes the command line and the streams to `rvm_program`.
//!
//! Stands on `rvm_program`, and on `rvm_paged` for the memory of guests.
#![tactic(auto)]

mod build;
mod version;

use build::BUILD;
use rvm_paged::PagedRam;
use rvm_program::{perform, take_descriptors, take_words, tell_words_fault, texts};
use std::process::ExitCode;
use version::{asks_for_version, write_version};

/// Takes the standard descriptors and the words of the command line, does the command, and exits with its status: 1 if
/// the descriptors are refused or memory runs out, 2 if a word is not UTF-8. A program that was told its commit tells it
/// with its version.
fn main(rt: HostRuntime) -> anyhow::Result<ExitCode> {
    let descriptors = match take_descriptors(&rt) {
        Ok(descriptors) => descriptors,
        Err(refusal) => {
            eprintln!(&rt; "{refusal}")?;
            return Ok(ExitCode::from(1));
        }
    };
    let words = match take_words(&rt) {
        Ok(words) => words,
        Err(fault) => {
            let status = tell_words_fault(rt.alloc(), fault, &mut rt.stderr());
            return Ok(ExitCode::from(status));
        }
    };
    let texts = match texts(rt.alloc(), words.as_slice()) {
        Ok(texts) => texts,
        Err(fault) => {
            let status = tell_words_fault(rt.alloc(), fault, &mut rt.stderr());
            return Ok(ExitCode::from(status));
        }
    };
    let status = match BUILD {
        Some(build) if asks_for_version(texts.as_slice()) => {
            let _untold = write_version(build, &mut rt.stdout());
            0
        }
        _ => perform::<PagedRam, _, _, _, _, _>(
            &rt,
            texts.as_slice(),
            &mut rt.stdin(),
            &mut rt.stdout(),
            &mut rt.stderr(),
        ),
    };
    drop(descriptors);
    Ok(ExitCode::from(status))
}
