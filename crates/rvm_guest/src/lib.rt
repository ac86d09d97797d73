//! The debugged board as a guest of the protocol of live migration: the laws of `rvm_protocol` hold for any guest, and
//! this is the one that hosts run. Its next state is the one that its debugger gives (`answered` of `rvm_board`). All
//! that the protocol asks of a guest is proved here, for every event and without a range for any number, so the calls
//! of the layers above need not ask for any of it.
//!
//! Stands on `rvm_protocol`, `rvm_board`, `rvm_state` and `rvm_frame`, and must not know hosts. Its definitions lie in
//! `specs/`: the guest is `board` in `specs/TheGuest.antt`, which the layers above name in their contracts. `laws`
//! proves that it is a guest.
//!
//! To be read in this order: `valid`, `laws`.
#![tactic(auto)]

pub mod laws;
mod valid;

pub use valid::valid_guest;
