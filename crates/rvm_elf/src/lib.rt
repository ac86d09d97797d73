//! Reads ELF files of RV32 programs and raw files as images, writes images as ELF files, and loads images into a board.
//!
//! Stands on `rvm_asm` and `rvm_board`, and knows nothing of text, runs or the operating system's
//! files.
//!
//! To be read in this order: `error`, `layout`, `read`, `raw`, `write`, `loading`, `laws`.
#![tactic(auto)]

mod error;
pub mod laws;
mod layout;
mod loading;
mod raw;
mod read;
mod write;

pub use error::{ReadError, WriteError};
pub use loading::{OutsideRam, load};
pub use raw::raw_image;
pub use read::read_image;
pub use write::write_image;
