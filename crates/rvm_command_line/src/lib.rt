//! The command line: what its words ask for, within the limits of a board.
//!
//! Stands on `clap`, on the types of arguments, on the numbers of texts, and on the limits of reservations and memories.
//! It must not know what a command does.
//!
//! To be read in this order: `program`, `reading`.
#![tactic(auto)]

mod program;
mod reading;

pub use program::VERSION;
pub use reading::{MAX_STEPS, parse_args, word_fault};
