//! The refusals of all calls, by number and name: what a user sees if a command, a line of a script or a file is
//! refused.
//!
//! Stands on no other crate of this repository. Each crate above has an error type of its own, which has just the
//! errors that its calls can return, and turns it into a `Refusal` by `From`. `LinkFault` is shared: a call that can
//! fail only since a write fails returns it.
#![tactic(auto)]

mod link_fault;
mod refusal;

pub use link_fault::LinkFault;
pub use refusal::Refusal;
