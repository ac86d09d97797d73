//! Steps of harts in turn.

ghost use Rattle.std.specs.Prelude.{◌≤◌};

/// `count` steps of `harts` harts in turn, from a turn on, each of which retired an instruction.
#[derive(Clone, Copy)]
pub struct Steps {
    pub turn: u64,
    pub harts: u32,
    pub count: u32,
    ghost some_harts: { 1 ≤ harts },
}
