//! The reservations of the board's harts: the words that LR.W reserved (Unprivileged ISA,
//! "Load-Reserved/Store-Conditional Instructions"). The manual leaves the reservation set and what
//! ends a reservation to the implementation. Here each hart has reserved one aligned word or none:
//!
//! - LR reserves its word, in place of the hart's old one;
//! - SC ends its hart's reservation, whether it succeeds or not;
//! - a store of another hart to the word ends it, as does a debugger's write; the hart's own
//!   stores and its traps keep it.
//!
//! Stands on nothing. Addresses are the guest's; harts are numbered from 0.
#![tactic(auto)]

mod reservations;

pub use reservations::{MAX_HARTS, Reservations};
