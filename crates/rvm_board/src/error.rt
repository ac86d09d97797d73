//! Why there is no board, and why a write from outside was refused.

ghost use Rattle.std.specs.Prelude.{◌≡◌};
ghost use Rattle.rvm_board.specs.Refusals.{refusal_of_board, refusal_of_poke};

use rvm_refusal::Refusal;
use thiserror::Error;

/// Why there is no board.
#[derive(Clone, Copy, Debug, PartialEq, Eq, Error)]
pub enum BoardError {
    /// There are no harts or more than 8, RAM has no page, or the entry is no multiple of four.
    #[error("harts, RAM or entry are outside limits")]
    BadSize,
    /// Memory ran out.
    #[error("out of memory")]
    OutOfMemory,
}

impl From<BoardError> for Refusal {
    ghost from_gives = { λ error told. told ≡ refusal_of_board error };

    fn from(error: BoardError) -> Refusal {
        match error {
            BoardError::BadSize => Refusal::BadSize,
            BoardError::OutOfMemory => Refusal::OutOfMemory,
        }
    }
}

/// Why a write from outside was refused.
#[derive(Clone, Copy, Debug, PartialEq, Eq, Error)]
pub enum PokeError {
    /// There is no such hart.
    #[error("there is no such hart")]
    BadHart,
    /// There is no such register, or the range has no byte, has more than 256, or is not wholly in
    /// RAM.
    #[error("register, address or length are out of range")]
    OutOfRange,
}

impl From<PokeError> for Refusal {
    ghost from_gives = { λ error told. told ≡ refusal_of_poke error };

    fn from(error: PokeError) -> Refusal {
        match error {
            PokeError::BadHart => Refusal::BadHart,
            PokeError::OutOfRange => Refusal::OutOfRange,
        }
    }
}
