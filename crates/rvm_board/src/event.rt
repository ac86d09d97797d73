//! What a host asks of a board, and what the board answers.

ghost use Rattle.std.specs.Prelude.{◌≡◌};
ghost use Rattle.rvm_board.specs.Events.{ends_steps, reply_of};
ghost use Rattle.rvm_board.specs.EventRefusals.{refusal_of};

use crate::view::View;
use rvm_csr::{Exception, Interrupt};
use rvm_hart::Stepped;
use rvm_refusal::Refusal;
use thiserror::Error;

/// What a host asks of its board. Harts are numbered from 0; addresses are the guest's.
#[derive(Drop, PartialEq, Eq)]
pub enum BoardEvent {
    /// A hart takes one step, or stops at a breakpoint instead.
    Step(u32),
    /// The console gets a byte of input, if fewer than 16 wait.
    Input(u8),
    /// The oldest bytes that the guest sent are taken, at most this many, which is at most 256.
    Drain(u32),
    /// A breakpoint is set at an address, if fewer than 64 others are set.
    Break(u32),
    /// The breakpoint at an address is removed, if there is one.
    Clear(u32),
    /// The registers of a hart are read.
    Regs(u32),
    /// 1 to 256 bytes of RAM are read.
    Mem {
        address: u32,
        length: u32,
    },
    /// The word of RAM at an aligned address is read.
    Dis(u32),
    /// A register of a hart is set: x0 to x31 by 0 to 31, or pc by 32.
    PokeReg {
        hart: u32,
        register: u32,
        value: u32,
    },
    /// 1 to 256 bytes of RAM are written.
    PokeMem {
        address: u32,
        bytes: View,
    },
}

impl BoardEvent {
    /// A copy of the event.
    pub fn copy(&self) -> BoardEvent
        ensures { result ≡ self.now }
    {
        match self {
            BoardEvent::Step(hart) => BoardEvent::Step(*hart),
            BoardEvent::Input(byte) => BoardEvent::Input(*byte),
            BoardEvent::Drain(count) => BoardEvent::Drain(*count),
            BoardEvent::Break(address) => BoardEvent::Break(*address),
            BoardEvent::Clear(address) => BoardEvent::Clear(*address),
            BoardEvent::Regs(hart) => BoardEvent::Regs(*hart),
            BoardEvent::Mem { address, length } => BoardEvent::Mem {
                address: *address,
                length: *length,
            },
            BoardEvent::Dis(address) => BoardEvent::Dis(*address),
            BoardEvent::PokeReg {
                hart,
                register,
                value,
            } => BoardEvent::PokeReg {
                hart: *hart,
                register: *register,
                value: *value,
            },
            BoardEvent::PokeMem { address, bytes } => BoardEvent::PokeMem {
                address: *address,
                bytes: bytes.copy(),
            },
        }
    }
}

/// What a board answers.
#[derive(Drop, PartialEq, Eq)]
pub enum BoardReply {
    /// The instruction retired.
    Retired,
    /// The instruction trapped.
    Trapped(Exception),
    /// An interrupt was taken.
    Interrupted(Interrupt),
    /// The board is halted with this status.
    Halted(u8),
    /// The hart stopped at the breakpoint at its pc, and did not step.
    Break(u32),
    /// The event was done; it has no other answer.
    Done,
    /// Bytes of RAM, or bytes that the guest sent.
    Bytes(View),
    /// Registers x0 to x31, then pc.
    Regs([u32; 33]),
    /// The word of RAM at an address.
    Line { address: u32, word: u32 },
    /// The event was refused, and nothing changed.
    Refused(BoardRefusal),
}

/// Why an event was refused.
#[derive(Clone, Copy, Debug, PartialEq, Eq, Error)]
pub enum BoardRefusal {
    /// An address, length or register is outside its range.
    #[error("address, length or register are out of range")]
    OutOfRange,
    /// 16 input bytes wait.
    #[error("16 input bytes wait")]
    InputFull,
    /// There is no such hart.
    #[error("there is no such hart")]
    BadHart,
    /// 64 breakpoints are set.
    #[error("64 breakpoints are set")]
    TooManyBreaks,
}

impl From<BoardRefusal> for Refusal {
    ghost from_gives = { λ why told. told ≡ refusal_of why };

    fn from(why: BoardRefusal) -> Refusal {
        match why {
            BoardRefusal::OutOfRange => Refusal::OutOfRange,
            BoardRefusal::InputFull => Refusal::InputFull,
            BoardRefusal::BadHart => Refusal::BadHart,
            BoardRefusal::TooManyBreaks => Refusal::TooManyBreaks,
        }
    }
}

impl BoardReply {
    /// A copy of the answer.
    pub fn copy(&self) -> BoardReply
        ensures { result ≡ self.now }
    {
        match self {
            BoardReply::Retired => BoardReply::Retired,
            BoardReply::Trapped(exception) => BoardReply::Trapped(*exception),
            BoardReply::Interrupted(interrupt) => BoardReply::Interrupted(*interrupt),
            BoardReply::Halted(status) => BoardReply::Halted(*status),
            BoardReply::Break(address) => BoardReply::Break(*address),
            BoardReply::Done => BoardReply::Done,
            BoardReply::Bytes(bytes) => BoardReply::Bytes(bytes.copy()),
            BoardReply::Regs(registers) => BoardReply::Regs(*registers),
            BoardReply::Line { address, word } => BoardReply::Line {
                address: *address,
                word: *word,
            },
            BoardReply::Refused(why) => BoardReply::Refused(*why),
        }
    }

    /// The answer to a step that did this.
    pub fn of_step(stepped: Stepped) -> BoardReply
        ensures { result ≡ reply_of stepped }
    {
        match stepped {
            Stepped::Retired => BoardReply::Retired,
            Stepped::Trapped(exception) => BoardReply::Trapped(exception),
            Stepped::Interrupted(interrupt) => BoardReply::Interrupted(interrupt),
            Stepped::Halted(status) => BoardReply::Halted(status),
        }
    }

    /// Whether steps end with this answer to one: the hart stopped at a breakpoint, the board is halted, or the step
    /// was refused.
    pub fn ends_steps(&self) -> bool
        ensures { result ≡ ends_steps self.now }
    {
        matches!(
            self,
            BoardReply::Halted(_) | BoardReply::Break(_) | BoardReply::Refused(_)
        )
    }
}
