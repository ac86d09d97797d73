//! What a step did, and what a retired instruction wrote.

use rvm_csr::{Exception, Interrupt};

/// What a step of a hart did.
#[derive(Clone, Copy, Debug, PartialEq, Eq)]
pub enum Stepped {
    /// An instruction retired.
    Retired,
    /// The instruction trapped.
    Trapped(Exception),
    /// An interrupt was taken, and no instruction ran.
    Interrupted(Interrupt),
    /// The board is halted with this status: this step halted it, or found it halted and changed
    /// nothing.
    Halted(u8),
}

/// What a retired instruction wrote, as the end of its step must know it: a counter does not rise
/// in the step that wrote one of its halves.
#[derive(Clone, Copy, Debug, PartialEq, Eq)]
pub enum Written {
    /// No counter and no halt word.
    Other,
    /// A half of mcycle.
    Mcycle,
    /// A half of minstret.
    Minstret,
    /// A half of mtime.
    Mtime,
    /// The halt word, with this status.
    Halt(u8),
}
