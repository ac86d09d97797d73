//! The workers of a move between two recorded hosts, each in a thread of its own. Each has a seat, a gate that may hold
//! each of its calls, and an end: one copies the guest, one receives the frames of the other side, and one makes the turns
//! of the guest's harts, wherever the guest is.
//!
//! Stands on `rvm_recorder` for the hosts, on `rvm_link`, and on `rvm_station` for what they have in common with the
//! workers of a host process. It must not know sockets, files or operators, how workers are started, or what becomes of
//! their receipts.
//!
//! To be read in this order: `gate`, `end`, `steps`, `heap`, `caller`, `telling`, `next`, `copying`, `copier`, `hearing`,
//! `receiver`; `slices`, `pair`, `harts`.
#![tactic(auto)]

mod caller;
mod copier;
mod copying;
mod end;
mod gate;
mod harts;
mod heap;
mod hearing;
mod next;
mod pair;
mod receiver;
mod slices;
mod steps;
mod telling;

pub use caller::Caller;
pub use copier::{CopyPlan, copier_worker};
pub use end::{WorkEnd, Worked};
pub use gate::{Gate, Watch, Worker};
pub use harts::{HartsWorked, TurnsEnd, hart_worker};
pub use pair::Hosts;
pub use receiver::receiver_worker;
pub use rvm_link::{Link, LinkRead, Outgoing};
pub use rvm_recorder::{
    CloseError as CloseFault, Journal, Receipt, RecordError as RecordFault, Recorded, Seat,
    Seating, SharedHost, close, share,
};
pub use steps::SliceSteps;
pub use telling::Side;
