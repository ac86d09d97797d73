//! The words of the devices, and their addresses.

ghost use Rattle.std.specs.Prelude.{◌≡◌, ◌≤◌, ◌<◌, ◌+◌, ◌*◌, ◌^◌, if◌then◌else◌, Some, None};
ghost use Rattle.rvm_dev.specs.Map.{register_at, is_word_of, hart_of};

/// The address of the word that halts the board.
pub const HALT: u32 = 0x0010_0000;

/// The address of hart 0's software interrupt; each next hart has the next word.
pub const MSIP: u32 = 0x0200_0000;

/// The address of hart 0's mtimecmp, low half first; each next hart has the next two words.
pub const MTIMECMP: u32 = 0x0200_4000;

/// The address of mtime, low half first.
pub const MTIME: u32 = 0x0200_BFF8;

/// The address of the high half of mtime.
pub const MTIME_HIGH: u32 = MTIME + 4;

/// The address of the console's words: transmit, receive, status and interrupt enable.
pub const CONSOLE: u32 = 0x1000_0000;

const RECEIVE: u32 = CONSOLE + 4;

const STATUS: u32 = CONSOLE + 8;

const INTERRUPT_ENABLE: u32 = CONSOLE + 12;

/// A word of a device.
#[derive(Clone, Copy, Debug, PartialEq, Eq)]
pub enum Register {
    /// A store halts the board with its low 8 bits.
    Halt,
    /// Bit 0: the software interrupt of a hart.
    Msip(u32),
    /// The low half of a hart's mtimecmp, the time from which on its timer interrupt is pending.
    MtimecmpLow(u32),
    /// The high half of a hart's mtimecmp.
    MtimecmpHigh(u32),
    /// The low half of mtime, in steps of the board.
    MtimeLow,
    /// The high half of mtime.
    MtimeHigh,
    /// A store sends its low 8 bits.
    Transmit,
    /// A load takes the oldest byte of input, or gives all ones if there is none.
    Receive,
    /// Bit 0: a byte of input waits; bit 1: the output queue has room; bit 2: a byte was dropped
    /// because it had none, until a store with bit 2 set.
    Status,
    /// Bit 0: the console interrupts hart 0 while a byte of input waits.
    InterruptEnable,
}

impl Register {
    /// The device word at an address, on a board of this many harts, at most 8, if there is one.
    #[tactic(auto, unfolding(crate::specs::Map::register_at))]
    pub fn at(harts: u32, address: u32) -> Option<Register>
        requires { harts ≤ 8 }
        ensures { result ≡ register_at harts address }
    {
        if let Some(hart) = hart_at(MSIP, 4, harts, address) {
            return Some(Register::Msip(hart));
        }
        if let Some(hart) = hart_at(MTIMECMP, 8, harts, address) {
            return Some(Register::MtimecmpLow(hart));
        }
        if let Some(hart) = hart_at(MTIMECMP + 4, 8, harts, address) {
            return Some(Register::MtimecmpHigh(hart));
        }
        match address {
            HALT => Some(Register::Halt),
            MTIME => Some(Register::MtimeLow),
            MTIME_HIGH => Some(Register::MtimeHigh),
            CONSOLE => Some(Register::Transmit),
            RECEIVE => Some(Register::Receive),
            STATUS => Some(Register::Status),
            INTERRUPT_ENABLE => Some(Register::InterruptEnable),
            _ => None,
        }
    }
}

/// The hart whose word is at an address, in a row that has one for each hart, begins at `first` and
/// has a word every `stride` bytes.
fn hart_at(first: u32, stride: u32, harts: u32, address: u32) -> Option<u32>
    requires some { 0 < stride }
    requires fits { first + stride * harts < 2 ^ 32 }
    ensures { result ≡
        (if is_word_of first stride harts address then Some (hart_of first stride address)
        else None) }
{
    let offset = address.checked_sub(first)?;
    if offset < stride * harts && offset % stride == 0 {
        Some(offset / stride)
    } else {
        None
    }
}
