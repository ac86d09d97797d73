//! The frames that two hosts send each other during a move, as bytes: each frame's one spelling, a test whether a frame
//! has one, and a reader that takes a stream in pieces of any size.
//!
//! Stands on `rvm_codec` and the numbered refusals, and must not know guests, moves or hosts: the crates above define
//! what a frame means.
//!
//! To be read in this order: `items`, `page`, `part`, `frame`, `addressed`, `kind`, `fault`, `body`, `read`, `fields`,
//! `layout`, `write`, `spelling_limits`, `spelling`, `unfinished`, `reader`, `laws`.
#![tactic(auto)]

mod addressed;
mod body;
mod fault;
mod fields;
mod frame;
mod items;
mod kind;
pub mod laws;
mod layout;
mod page;
mod part;
mod read;
mod reader;
mod spelling;
mod spelling_limits;
mod unfinished;
mod write;

pub use addressed::{Addressed, Received};
pub use body::{is_piece, state_body, state_parts};
pub use fault::{FrameFault, ReadFault};
pub use frame::Frame;
pub use items::{Bytes, CopyNumbers, Items, PageNumbers};
pub use page::PageBytes;
pub use part::PagePart;
pub use read::read_frame;
pub use reader::FrameReader;
pub use spelling::has_spelling;
pub use write::{append_frame, frame_bytes, frame_len, write_frame};
