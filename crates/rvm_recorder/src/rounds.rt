//! Rounds of steps, each with a drain after it.

ghost use Rattle.std.specs.Prelude.{◌≡◌, ◌+◌, ◌*◌, ◌<◌, ◌≤◌, ◌^◌};

use crate::steps::Steps;

/// `count` rounds from a turn on. A round is `steps` steps of `harts` harts in turn, each of which retired an
/// instruction, and a drain of at most `drain` bytes after them, which found none.
#[derive(Clone, Copy)]
pub struct Rounds {
    pub turn: u64,
    pub harts: u32,
    pub steps: u32,
    pub drain: u32,
    pub count: u32,
    ghost some_harts: { 1 ≤ harts },
    ghost short: { steps + 1 < 2 ^ 32 },
    ghost few: { count * (steps + 1) < 2 ^ 32 },
}

impl Rounds {
    /// Returns how many entries the rounds have.
    pub fn len(&self) -> u32
        ensures { result ≡ self.now.count * (self.now.steps + 1) }
    {
        self.count * (self.steps + 1)
    }

    /// Returns how many turns the rounds have.
    #[tactic(auto, using(crate::proofs::InRounds::without_drains))]
    pub fn turns(&self) -> u32
        ensures { result ≡ self.now.count * self.now.steps }
    {
        self.len() - self.count
    }

    /// Returns the steps of the first round.
    pub fn first(&self) -> Steps
        ensures turn { result.turn ≡ self.now.turn }
        ensures harts { result.harts ≡ self.now.harts }
    {
        Steps {
            turn: self.turn,
            harts: self.harts,
            count: self.steps,
        }
    }
}
