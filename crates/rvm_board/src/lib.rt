//! The board, its debugger and the events that a host hands it: harts over one RAM and the devices, of which one takes
//! a step at a time; breakpoints, answers, the loops of turns, and all that a board keeps beside its RAM as one value.
//!
//! Stands on `rvm_hart`, and must not know scripts, files or hosts. No event takes memory.
//!
//! To be read in this order: `error`, `board`, `view`, `breakpoints`, `event`, `part`, `debugged`, `snapshot`, `rounds`,
//! `turns`, `while_full`, `computing`, `retiring`, `laws`.
#![tactic(auto)]

mod board;
mod breakpoints;
mod computing;
mod debugged;
mod error;
mod event;
pub mod laws;
mod part;
mod retiring;
mod rounds;
mod snapshot;
mod turns;
mod view;
mod while_full;

pub use board::{Board, MAX_HARTS, VIEW_SIZE};
pub use breakpoints::MAX_BREAKPOINTS;
pub use debugged::Debugged;
pub use error::{BoardError, PokeError};
pub use event::{BoardEvent, BoardRefusal, BoardReply};
pub use part::HartPart;
pub use retiring::{NO_STEPS, Retired};
pub use snapshot::Snapshot;
pub use turns::{DRAIN_EVERY, DRAIN_SIZE, Order, Stop, Turns};
pub use view::View;
