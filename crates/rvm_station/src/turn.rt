//! What comes after turns.

/// What comes after the turns that a host made.
#[derive(Clone, Copy, Debug, PartialEq, Eq)]
pub enum Then {
    /// The next turn.
    GoOn,
    /// The same turn, at another host: no guest runs at this one.
    Elsewhere,
    /// No turn: the board is halted, with this status.
    Halted(u8),
}
