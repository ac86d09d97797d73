//! The memory of a guest that migrates.
//!
//! Stands on `rvm_mem`, and must not know hosts or harts: the layers above use only what `Memory`
//! and `PagedMemory` promise.
#![tactic(auto)]

mod paged_ram;

pub use paged_ram::{PagedError, PagedRam};
