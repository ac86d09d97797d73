//! What the source of a move keeps beside its guest: rounds of copies while the guest runs, then the last copies of the
//! paused guest.
//!
//! Stands on `rvm_mem` and on the definitions of `rvm_protocol`, and must not know guests, frames or hosts.
//!
//! To be read in this order: `policy`, `rounds`, `laws`.
#![tactic(auto)]

pub mod laws;
mod policy;
mod rounds;

pub use policy::Policy;
pub use rounds::{LastNext, Next, Rounds};
