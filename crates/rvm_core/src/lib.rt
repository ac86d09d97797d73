//! Worlds of hosts between which a guest moves. Each event is a step of the protocol of live migration; over any list
//! of events, the guest is that of a board that never moves. A script makes a world's events from lines of text, and
//! events are written as lines that make them again.
//!
//! Stands on `rvm_host` for hosts, on `rvm_frame` for the bytes of frames, and on `rvm_text` and `rvm_debug` for the
//! lines of a script. It must not know threads, links or files.
//!
//! To be read in this order: `event`, `error`, `sent`, `hosts`, `world`, `steps`, `run`, `drive`; then scripts:
//! `world_command`, `world_line`, `replies`, `script_lines`, `script`, `event_lines`, `laws`.
#![tactic(auto)]

mod drive;
mod error;
mod event;
mod event_lines;
mod hosts;
pub mod laws;
mod replies;
mod run;
mod script;
mod script_lines;
mod sent;
mod steps;
mod world;
mod world_command;
mod world_line;

pub use drive::{Driven, drive_move};
pub use error::WorldError;
pub use event::{Event, WorldReply, WorldReply as Reply};
pub use event_lines::{write_event, write_events};
pub use replies::{write_guest_reply, write_move_reply, write_steps_reply};
pub use run::run_world;
pub use rvm_host::Host;
pub use rvm_message::{Command, HostEvent, HostRefusal, HostReply};
pub use script::{WorldScriptError, run_world_script};
pub use steps::Steps;
pub use world::World;
pub use world_line::{Asked, WorldLine};

/// The number of a host in its world, from 0.
pub type HostId = u8;
