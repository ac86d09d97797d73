//! Tests of the machine and its texts, for what no clause says: words and files that other programs made; layouts; what
//! the assembler and its readers make; both memories; and that each call that allocates succeeds, and tells it if an
//! allocation fails (`make faults` makes allocations fail, one at a time: at most 60 of a test, or, with `MOST=0`, each
//! one). What the program itself shows stands in the transcripts of `rvm_test_program`.
//!
//! Stands on the libraries, which have no tests of their own. What it expects comes from the definitions' worked cases
//! and from the manual's formats, never from this program.
//!
//! To be read in this order: `boards` makes boards; `memory`, `straight`, `assembler`, `disassembler`, `elf`, `state`,
//! `frames`, `scripts`, `worked`, `peers` and `greetings` each test one subject, and `limits` what is as long as it may be.
#![tactic(auto)]

#[cfg(test)]
mod assembler;
#[cfg(test)]
mod boards;
#[cfg(test)]
mod disassembler;
#[cfg(test)]
mod elf;
#[cfg(test)]
mod frames;
#[cfg(test)]
mod greetings;
#[cfg(test)]
mod limits;
#[cfg(test)]
mod memory;
#[cfg(test)]
mod peers;
#[cfg(test)]
mod scripts;
#[cfg(test)]
mod state;
#[cfg(test)]
mod straight;
#[cfg(test)]
mod worked;
