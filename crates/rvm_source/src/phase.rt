//! The phase of a move at its source.

/// How far a move is at its source.
#[derive(Clone, Copy, Debug)]
pub enum Phase {
    /// The guest runs, and the target was asked to take it.
    Offering,
    /// The guest runs, and its pages are copied in rounds.
    Copying,
    /// The guest is paused, and its last pages and its state are sent; `turn` is the index of the piece of the state
    /// that is sent next.
    Stopped { turn: u8 },
}
