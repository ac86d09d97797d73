//! The plan of a move.

use rvm_precopy::Policy;

/// What is asked of a move: the turns that the guest makes meanwhile, when pre-copy ends, how fast pages are copied, and the
/// version of the streams.
#[derive(Clone, Copy, Debug, PartialEq, Eq)]
pub struct Plan {
    /// How many harts take turns, 1 to 8.
    pub harts: u32,
    /// The most turns.
    pub steps: u32,
    pub policy: Policy,
    /// The most megabytes of pages, each of 1000000 bytes, that are copied in a second while the guest runs, if there is a
    /// limit.
    pub bandwidth: Option<u32>,
    /// The version of the streams, 1 to 3.
    pub version: u32,
}
