//! Recorded hosts: the journal of a host keeps each event, its reply and the bytes of the frame that it made. Several
//! threads call the host under a lock, each from its seat, and get a receipt for each call; at the end the journal is
//! compared with the receipts.
//!
//! Stands on `rvm_host`, `rvm_message` and `rvm_frame`, and knows nothing of links, workers or the audit.
//!
//! To be read in this order: `frame_bytes`, `entry`, `steps`, `rounds`, `item`, `left`, `run`, `journal`, `error`,
//! `recorded`, `slice`; then `seat`, `receipt`, `step_receipts`, `round_receipts`, `items`, `locked`, `shared`,
//! `closing`.
#![tactic(auto)]

mod closing;
mod entry;
mod error;
mod frame_bytes;
mod item;
mod items;
mod journal;
mod left;
mod locked;
mod receipt;
mod recorded;
mod round_receipts;
mod rounds;
mod run;
mod seat;
mod shared;
mod slice;
mod step_receipts;
mod steps;

pub use closing::{CloseError, CloseKind, close};
pub use entry::Entry;
pub use error::{RecordError, SliceError};
pub use frame_bytes::FrameBytes;
pub use item::{Item, ItemRef, joined};
pub use items::{ReceiptItem, push_receipt};
pub use journal::Journal;
pub use left::{Left, Told, exchange_in, hart_behind, row_at};
pub use locked::Locked;
pub use receipt::Receipt;
pub use recorded::{MAX_CAPACITY, Recorded};
pub use round_receipts::RoundReceipts;
pub use rounds::Rounds;
pub use run::StepRun;
pub use seat::{Seat, Seating};
pub use shared::{ShareError, SharedHost, share};
pub use slice::{MAX_SLICE, hart_of_turn, is_slice_in_range};
pub use step_receipts::StepReceipts;
pub use steps::Steps;
