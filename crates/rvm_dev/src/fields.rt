//! The devices' registers as plain values.

/// What the devices keep for all harts, without the queues.
#[derive(Clone, Copy, Default)]
pub struct DeviceFields {
    /// The value of mtime, in steps of the board.
    pub mtime: u64,
    /// Whether the console interrupts hart 0 while a byte of input waits.
    pub interrupt_enable: bool,
    /// Whether a byte was dropped because the output queue was full.
    pub overrun: bool,
    /// The status that the board was halted with, if it was.
    pub halted: Option<u8>,
}
