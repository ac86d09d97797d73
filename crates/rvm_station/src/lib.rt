//! The workers of a host process, and what they share. A host lies in a cell: under a lock, with a log of the events that
//! happen at it. Workers have access to it: one hears each other host, one makes turns and writes what the guest sends,
//! and one moves the guest away. To code that is generic over that access, only what a call gave is a reply or a frame.
//! The station has the routes to the other hosts and the news of moves.
//!
//! Stands on `rvm_host` and `rvm_link`. It must not know sockets, files or operators, how workers are started, or who
//! reads the log.
//!
//! To be read in this order: `log`, `origin`, `turn`, `reached`, `turns`, `copies`, `cell`, `access`; `task`, `news`,
//! `station`, `stream`, `host_hearing`, `input`, `console`, `course`, `pace`, `host_harts`, `mover`.
#![tactic(auto)]

mod access;
mod cell;
mod console;
mod copies;
mod course;
mod host_harts;
mod host_hearing;
mod input;
mod log;
mod mover;
mod news;
mod origin;
mod pace;
mod reached;
mod station;
mod stream;
mod task;
mod turn;
mod turns;

pub use access::{Access, CellAccess};
pub use cell::HostCell;
pub use course::{Figures, Progress, ProgressReporter};
pub use host_harts::{HartsEnd, HartsPlan, harts_worker};
pub use host_hearing::{HearEnd, hear};
pub use input::{InputQueue, read_input};
pub use log::{EventLog, Meeting, NoLog};
pub use mover::{MoveEnd, MovePlan, move_away};
pub use news::{MoveNews, News};
pub use origin::{Hosting, Of, Opening};
pub use pace::CopyPace;
pub use station::{STREAM_VERSION, Station};
pub use stream::{is_between, is_hello};
pub use task::{Task, take_back};
pub use turn::Then;
pub use turns::Slice;
