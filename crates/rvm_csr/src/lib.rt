//! The control and status registers of one hart, its traps and its counters (Privileged ISA,
//! chapters "Control and Status Registers" and "Machine-Level ISA").
//!
//! Stands on `rvm_word`, and must not know instructions, memory or devices: the caller passes the
//! interrupts that are pending at the hart, as an `Interrupts`.
//!
//! To be read in this order: `interrupts`, `cause`, `register`, `counters`, `fields`, `file`.
#![tactic(auto)]

pub mod cause;
mod counters;
pub mod fields;
pub mod file;
pub mod interrupts;
pub mod register;

pub use cause::{Cause, Exception, Interrupt};
pub use fields::CsrFields;
pub use file::CsrFile;
pub use interrupts::Interrupts;
pub use register::{Csr, is_read_only};
