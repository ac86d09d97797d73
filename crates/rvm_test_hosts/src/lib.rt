//! Tests of hosts and worlds, of what stands between a host and a connection, and of commands, for what no clause says:
//! that each event that allocates succeeds, and tells it if an allocation fails (`make faults` makes allocations fail, one
//! at a time: at most 60 of a test, or, with `MOST=0`, each one); that calls succeed if there are memory and connections; which bytes are sent; the values of a command line; and what follows from a read or a write
//! that fails. Worked moves are cases (`moves.cases` of `rvm_test_program`).
//!
//! Stands on the libraries, which have no tests of their own. The replies and the bytes that it expects are worked out
//! by hand from the protocol's rules and from the layout of records and frames.
//!
//! To be read in this order: `hosts` plays events on hosts, `replies` writes a reply as a name and numbers, and
//! `frames` makes a frame of each kind; `rounds` tests rounds over a memory alone, `modes` each command and each kind
//! of frame in each mode, `declined` a guest that is too large, `strangers` frames that hosts do not wait for, `spent`
//! the last move number, `worlds` lists of events and driven moves, `scripts` a script that is too long; `records` reads
//! and writes records, `routes` sends frames to hosts, and `cells` plays events on a host under its lock; `journals`
//! writes the journal of a host; `command_line` and `writers` test the words and the streams of commands; `names` has the
//! public names that the names of the crates promise.
#![tactic(auto)]

#[cfg(test)]
mod cells;
#[cfg(test)]
mod command_line;
#[cfg(test)]
mod declined;
#[cfg(test)]
mod frames;
#[cfg(test)]
mod hosts;
#[cfg(test)]
mod journals;
#[cfg(test)]
mod modes;
pub mod names;
#[cfg(test)]
mod records;
#[cfg(test)]
mod replies;
#[cfg(test)]
mod rounds;
#[cfg(test)]
mod routes;
#[cfg(test)]
mod scripts;
#[cfg(test)]
mod spent;
#[cfg(test)]
mod strangers;
#[cfg(test)]
mod worlds;
#[cfg(test)]
mod writers;
