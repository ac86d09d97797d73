//! Live migration by pre-copy, as definitions, and its laws for every guest that says which pages
//! it wrote: the host relation, worlds of hosts whose frames may be lost, repeated and reordered,
//! and the guest that never moves.
//!
//! Stands on std alone, and must not know processors, boards, memories or bytes: the crates above
//! give the guest, and hosts that take the host relation's steps.
//!
//! `laws` has the laws. The definitions are in `specs/`, to be read in this order: Guest; Frames,
//! Commands, Replies; Pages, Rounds, Staging, Modes; Obeying, Receiving, Host; World; Told,
//! NeverMoving; then one file for each law.
#![tactic(auto)]

pub mod laws;
