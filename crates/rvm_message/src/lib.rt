//! The events of a host, its replies and the frames that it makes, with what each of them is in the protocol of live
//! migration; and the calls that give a guest an event, a step or turns.
//!
//! Stands on `rvm_board`, `rvm_precopy`, `rvm_frame` and `rvm_guest`, and must not know modes or hosts.
//!
//! To be read in this order: `shared`, `event`, `frame`, `reply`, `step`, `turns`, `exchange`, `guest`.
#![tactic(auto)]

mod event;
mod exchange;
mod frame;
mod guest;
mod reply;
mod shared;
mod step;
mod turns;

pub use event::{Command, HostEvent};
pub use exchange::{Exchange, ExchangeRef, ExchangeRoom};
pub use frame::can_come;
pub use guest::apply_event;
pub use reply::{Answer, HostRefusal, HostReply};
pub use shared::Shared;
pub use step::{StepReply, step_guest};
pub use turns::{NO_TURNS, turn_guest};
