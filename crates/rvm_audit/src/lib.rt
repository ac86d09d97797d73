//! Puts the journals of the hosts of one world in order: one list of the world's events, which gives each host the
//! replies that its journal keeps. Any sequence of what the hosts did, each by itself, is a run of one world if each
//! frame that came was made before, so the guest of all of them never moved. Of journals whose last entries are missing
//! it says whether they contradict one another.
//!
//! Stands on `rvm_recorder` for journals, on the events of `rvm_core`, and on `rvm_frame` for the bytes of frames. It
//! must not know threads or locks. The laws of any number of hosts know no code: their definitions are in `specs/`, in
//! Hosts, Orders, Worlds and Cuts.
//!
//! To be read in this order: `laws`; `error`, `places`, `frames`, `placed`, `part`, `merge`, `merging`, `order`, `list`,
//! `observer`, `past`, `stretch`, `known`, `passing`, `outline`, `cuts`, `lines`.
#![tactic(auto)]

mod cuts;
mod error;
mod frames;
mod known;
pub mod laws;
mod lines;
mod list;
mod merge;
mod merging;
mod observer;
mod order;
mod outline;
mod part;
mod passing;
mod past;
mod placed;
mod places;
mod stretch;

pub use cuts::are_contradictory;
pub use error::AuditError;
pub use lines::write_order;
pub use list::{Audit, audit_all};
pub use observer::Observer;
pub use order::{audit, audit_in_runs, dead_ends_have_no_order, the_guest_of_an_order_never_moves};
pub use outline::{Outline, OutlineAudit, are_outlines_contradictory, audit_outlines};
pub use part::Place;
pub use past::Past;
pub use placed::{Events, HostTurns, Order, Piece};
pub use stretch::{Stretch, Stretches};
