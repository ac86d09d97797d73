//! `rvmove host` and `rvmove tell`: a host in a process of its own, whose guest can move to hosts in other processes
//! while it runs, and the command with which an operator tells it what to do. The live run of `rvmove run`, whose guest
//! begins at such a host and stays there. And the law that host processes are hosts of one world: whatever each of them did
//! by itself, if each frame that came to it had been sent to it before, then together they made a run of a world, in which
//! the guest is the guest of one board that never moves.
//!
//! Stands on `rvm_station` for the workers of a host, on `rvm_link` for greetings, on sockets of the runtime, and on
//! `rvm_journal` for the journal that it writes. It must not know files, but for the socket of operators
//! and the file of the host's own journal.
//!
//! To be read in this order: `fault`, `address`, `outbound`, `timed`, `door`, `process`, `meeting`, `peer`, `accepter`,
//! `ticker`, `operators`, `answers`, `looks`, `next_line`, `control`, `threads`, `turns`, `keeping`, `hosting`,
//! `host_command`, `live_command`, `tell_command`; `laws`, which calls no code.
#![tactic(auto)]

mod accepter;
mod address;
mod answers;
mod control;
mod door;
pub mod fault;
pub mod host_command;
pub mod hosting;
mod keeping;
pub mod laws;
pub mod live_command;
mod looks;
mod meeting;
mod next_line;
pub mod operators;
mod outbound;
mod peer;
mod process;
pub mod tell_command;
mod threads;
mod ticker;
mod timed;
mod turns;
