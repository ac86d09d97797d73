//! Why no guest was made when a piece of its state came.

use rvm_frame::PageNumbers;
use thiserror::Error;

/// Why no guest was made when a piece of its state came.
#[derive(Debug, Drop, Error)]
pub enum NotJoined {
    /// The piece's index is not below its count of parts, its stamp is below that of the pieces kept, or it has that
    /// stamp but another count of parts. Nothing changes.
    #[error("the piece does not belong to the newest state")]
    Ignored,
    /// Other pieces of the state are missing. The piece is kept.
    #[error("pieces of the state are lacking")]
    Kept,
    /// All pieces are there, but these pages, in rising order, have no copy here or an older one than the state
    /// names. The piece is kept.
    #[error("copies of pages are lacking")]
    Lacking(PageNumbers),
    /// The pieces join to no state, or to one that makes no guest of what was offered. Nothing changes.
    #[error("the pieces join to no state that fits what was offered")]
    BadState,
    /// Memory ran out. Nothing changes.
    #[error("out of memory")]
    OutOfMemory,
}
