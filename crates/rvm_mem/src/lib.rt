//! A guest's memory: what every memory promises, what a memory promises whose pages are copied while the guest runs,
//! what has a dirty log, sets of pages, and a memory over one vector.
//!
//! Stands on `byteorder` and the numbered refusals, and must not know addresses, harts or hosts: a place is an offset
//! from the first byte of RAM. The layers above use only what `Memory` and `PagedMemory` promise.
//!
//! To be read in this order: `memory`, `word`, `page_set`, `page_flags`, `paged`, `dirty_log`, `block`, `flat`,
//! `bytes`, `laws`.
#![tactic(auto)]

pub mod block;
mod bytes;
mod dirty_log;
mod flat;
pub mod laws;
mod memory;
mod page_flags;
mod page_set;
mod paged;
mod word;

pub use bytes::{OutOfRange, clear_bytes, read_bytes, write_bytes};
pub use dirty_log::DirtyLog;
pub use flat::FlatMemory;
pub use memory::{MAX_PAGES, Memory, PAGE_SIZE};
pub use page_flags::PageFlags;
pub use page_set::PageSet;
pub use paged::PagedMemory;
pub use word::WORD_PAGES;
