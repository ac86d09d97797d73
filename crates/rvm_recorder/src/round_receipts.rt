//! Receipts of rounds of steps.

ghost use Rattle.std.specs.Prelude.{◌+◌, ◌*◌, ◌<◌, ◌≤◌, ◌^◌};

use crate::rounds::Rounds;

/// Receipts of rounds: steps in turn, and after each round's steps a drain that found nothing. The places are
/// consecutive, and so are the counts of the seat.
#[derive(Drop)]
pub struct RoundReceipts {
    pub(crate) place: u32,
    pub(crate) seat: u32,
    pub(crate) count: u64,
    pub(crate) rounds: Rounds,
    ghost some: { 1 ≤ rounds.count * (rounds.steps + 1) },
    ghost counts: { count + rounds.count * (rounds.steps + 1) < 2 ^ 64 },
}
