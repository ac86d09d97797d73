//! Receipts of steps.

ghost use Rattle.std.specs.Prelude.{◌+◌, ◌<◌, ◌≤◌, ◌^◌};

use crate::steps::Steps;

/// Receipts of steps of harts in turn, each of which retired an instruction. The places are consecutive, and so are the
/// counts of the seat.
#[derive(Drop)]
pub struct StepReceipts {
    pub(crate) place: u32,
    pub(crate) seat: u32,
    pub(crate) count: u64,
    pub(crate) steps: Steps,
    ghost some: { 1 ≤ steps.count },
    ghost counts: { count + steps.count < 2 ^ 64 },
}
