//! The numbered list of refusals.

ghost use Rattle.std.specs.Prelude.{◌≡◌};
ghost use Rattle.rvm_refusal.specs.Refusal.{name_of, number_of};

use std::fmt;

/// Why a call was refused.
#[derive(Clone, Copy, Debug, PartialEq, Eq)]
pub enum Refusal {
    /// Memory ran out.
    OutOfMemory,
    /// An address, length or register is outside its range.
    OutOfRange,
    /// Pages, harts, an entry, a policy, a host's limit, a capacity or seats are outside limits.
    BadSize,
    /// 16 input bytes wait.
    InputFull,
    /// There is no such hart.
    BadHart,
    /// A line is not in the grammar.
    BadToken,
    /// A name has no value where it is needed.
    UnknownName,
    /// A value does not fit its field, a place is above 2^32, or a program has too many bytes.
    OutOfReach,
    /// A name is given twice.
    Defined,
    /// A byte is placed twice.
    Overlap,
    /// The file does not begin as an ELF file.
    BadMagic,
    /// The file is no ELF executable for 32-bit RISC-V.
    NotRiscV32,
    /// The file ends before a header or a segment does.
    Truncated,
    /// Bytes or the entry are not in RAM, or the entry is no multiple of four.
    OutsideRam,
    /// There are more than 16 program headers or segments.
    TooMany,
    /// 64 breakpoints are set.
    TooManyBreaks,
    /// The bytes begin no frame that may stand there.
    BadFrame,
    /// The frame or script is longer than it may be.
    TooLong,
    /// The reader has refused an earlier part of the stream.
    Failed,
    /// The bytes are not the state of a board for that RAM.
    BadState,
    /// The copy numbers of the move are spent.
    SeqSpent,
    /// The host has no guest.
    NotHere,
    /// The guest is paused.
    Paused,
    /// A move is under way.
    Busy,
    /// There is no move to go on with.
    NoMove,
    /// The move numbers are spent.
    EpochsSpent,
    /// The frame changes nothing in this mode.
    Ignored,
    /// There is no such frame.
    NoFrame,
    /// The journal is full.
    RecorderFull,
    /// The receipts are not those of the journal.
    Mismatch,
    /// A read, write or link failed.
    LinkFault,
    /// The journals have no common order.
    NoOrder,
    /// There is no such host.
    BadHost,
}

impl Refusal {
    /// The number of the refusal, 1 to 33.
    pub fn number(self) -> u32
        ensures { result ≡ number_of self }
    {
        match self {
            Refusal::OutOfMemory => 1,
            Refusal::OutOfRange => 2,
            Refusal::BadSize => 3,
            Refusal::InputFull => 4,
            Refusal::BadHart => 5,
            Refusal::BadToken => 6,
            Refusal::UnknownName => 7,
            Refusal::OutOfReach => 8,
            Refusal::Defined => 9,
            Refusal::Overlap => 10,
            Refusal::BadMagic => 11,
            Refusal::NotRiscV32 => 12,
            Refusal::Truncated => 13,
            Refusal::OutsideRam => 14,
            Refusal::TooMany => 15,
            Refusal::TooManyBreaks => 16,
            Refusal::BadFrame => 17,
            Refusal::TooLong => 18,
            Refusal::Failed => 19,
            Refusal::BadState => 20,
            Refusal::SeqSpent => 21,
            Refusal::NotHere => 22,
            Refusal::Paused => 23,
            Refusal::Busy => 24,
            Refusal::NoMove => 25,
            Refusal::EpochsSpent => 26,
            Refusal::Ignored => 27,
            Refusal::NoFrame => 28,
            Refusal::RecorderFull => 29,
            Refusal::Mismatch => 30,
            Refusal::LinkFault => 31,
            Refusal::NoOrder => 32,
            Refusal::BadHost => 33,
        }
    }

    /// The name of the refusal, as it is printed.
    pub fn name(self) -> &'static str
        ensures { result.now ≡ name_of self }
    {
        match self {
            Refusal::OutOfMemory => "OutOfMemory",
            Refusal::OutOfRange => "OutOfRange",
            Refusal::BadSize => "BadSize",
            Refusal::InputFull => "InputFull",
            Refusal::BadHart => "BadHart",
            Refusal::BadToken => "BadToken",
            Refusal::UnknownName => "UnknownName",
            Refusal::OutOfReach => "OutOfReach",
            Refusal::Defined => "Defined",
            Refusal::Overlap => "Overlap",
            Refusal::BadMagic => "BadMagic",
            Refusal::NotRiscV32 => "NotRiscV32",
            Refusal::Truncated => "Truncated",
            Refusal::OutsideRam => "OutsideRam",
            Refusal::TooMany => "TooMany",
            Refusal::TooManyBreaks => "TooManyBreaks",
            Refusal::BadFrame => "BadFrame",
            Refusal::TooLong => "TooLong",
            Refusal::Failed => "Failed",
            Refusal::BadState => "BadState",
            Refusal::SeqSpent => "SeqSpent",
            Refusal::NotHere => "NotHere",
            Refusal::Paused => "Paused",
            Refusal::Busy => "Busy",
            Refusal::NoMove => "NoMove",
            Refusal::EpochsSpent => "EpochsSpent",
            Refusal::Ignored => "Ignored",
            Refusal::NoFrame => "NoFrame",
            Refusal::RecorderFull => "RecorderFull",
            Refusal::Mismatch => "Mismatch",
            Refusal::LinkFault => "LinkFault",
            Refusal::NoOrder => "NoOrder",
            Refusal::BadHost => "BadHost",
        }
    }
}

/// A refusal is shown as `refused N NAME`.
impl fmt::Display for Refusal {
    ghost use Rattle.rvm_refusal.specs.Refusal.{text_of};
    ghost use Rattle.std.specs.Prelude.{Some};

    ghost output = { λ r. Some (text_of r) };

    fn fmt<W: fmt::Write>(&self, f: &mut fmt::Formatter<W>) -> fmt::Result {
        write!(f, "refused {} {}", self.number(), self.name())
    }
}
