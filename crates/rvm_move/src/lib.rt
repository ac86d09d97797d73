//! `rvmove move` and `rvmove audit`: moves a running guest between two recorded hosts, by threads. One thread makes the
//! turns of the guest's harts, one copies the guest from host A to host B, and one at each host receives the frames of
//! the other. When all have ended, both hosts are closed. And `rvmove script`, which answers a script for hosts between
//! which a guest moves event by event. The commands are functions over values: they take parsed arguments, the bytes of an
//! image, the links between both hosts or a network to make them, and writers, and return the status.
//!
//! Stands on `rvm_cell` for the workers, on `rvm_recorder` for recorded hosts, on `rvm_link`, on `rvm_audit` for the
//! order of journals, on `rvm_command` for guests and refusals, on `rvm_core` for worlds, their scripts and the texts of
//! replies, and on `rvm_arguments`. It must not know files, processes or the terminal.
//!
//! To be read in this order: `plan`, `ends`, `hosts`, `beside`, `turns`, `threads`, `moving`; `opening`, `answers`,
//! `ended`, `move_over`, `socket`, `move_command`, `order`, `audit_over`, `audit_command`; `script_refused`, `first_world`,
//! `script_command`.
#![tactic(auto)]

mod answers;
pub mod audit_command;
pub mod audit_over;
mod beside;
mod ended;
mod ends;
mod first_world;
mod hosts;
pub mod move_command;
pub mod move_over;
mod moving;
mod opening;
mod order;
mod plan;
pub mod script_command;
mod script_refused;
mod socket;
mod threads;
mod turns;

pub use ends::Ends;
pub use hosts::{HostEnd, Links};
pub use move_command::{OpenGate, connect_both};
pub use move_over::plan_of;
pub use moving::{Moved, SEATS_AT_A, SEATS_AT_B, move_guest};
pub use opening::new_hosts;
pub use plan::Plan;
pub use socket::Socket;
