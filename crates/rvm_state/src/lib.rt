//! The bytes of a guest without its RAM: its harts, devices, reservations, breakpoints and which harts stand at one.
//! Each guest has exactly one encoding.
//!
//! Stands on `rvm_board` and `rvm_codec`, and must not know frames, files or hosts.
//!
//! The bytes hold, in this order (numbers are little-endian, flags are 0 or 1):
//!
//! - one byte each for the number of harts, 1 to 8, whether the board is halted, the status (0 unless halted), overrun,
//!   and interrupt enable; eight bytes for mtime;
//! - for each hart, four bytes each for pc, x1 to x31, mstatus (MIE and MPIE alone), mie, mtvec, mscratch, mepc,
//!   mcause and mtval; eight bytes each for mcycle and minstret; one byte for msip and eight for mtimecmp; one
//!   byte for whether it holds a reservation and four for the address of the reserved word, 0 for none; one byte
//!   for whether it stands at a breakpoint;
//! - the input that waits: a count in one byte, and the bytes, oldest first; the output that waits: a count in
//!   two bytes, and the bytes, oldest first; the breakpoints: a count in one byte, and four bytes for each address,
//!   in rising order.
//!
//! To be read in this order: `fault`, `fields`, `snapshot`, `read`, `put`, `write`, `laws`.
#![tactic(auto)]

mod fault;
mod fields;
pub mod laws;
mod put;
mod read;
mod snapshot;
mod write;

pub use fault::StateFault;
pub use read::read_state;
pub use write::{MAX_STATE_LEN, write_state};
