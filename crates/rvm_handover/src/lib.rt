//! The target's side of a move: keeps the pages of a guest as their copies come, each replaced only by a newer one,
//! until a state comes that names only copies that are here, or older ones; then makes the guest of them.
//!
//! Stands on `rvm_mem`, `rvm_board`, `rvm_frame` and `rvm_state`, and on `rvm_guest` for what the protocol of live
//! migration says. It must not know hosts, rounds or streams: the layers above know which frame belongs to which move.
//!
//! To be read in this order: `not_ready`, `not_joined`, `staging`.
#![tactic(auto)]

mod not_joined;
mod not_ready;
mod staging;

pub use not_joined::NotJoined;
pub use not_ready::NotReady;
pub use staging::Staging;
