//! The source of a move: a guest that runs while its pages are copied, and is paused for the last copies and its state.
//!
//! Stands on `rvm_message`, `rvm_precopy` and `rvm_state`, and must not know targets, hosts or worlds.
//!
//! To be read in this order: `phase`, `page`, `state`, `source`.
#![tactic(auto)]

mod page;
mod phase;
mod source;
mod state;

pub use phase::Phase;
pub use source::Source;
