//! What a guest keeps for one hart, as plain values.

use rvm_hart::HartFields;

/// What a guest keeps for one hart, without its number.
#[derive(Clone, Copy, Default)]
pub struct HartPart {
    /// The hart's registers, pc and CSRs.
    pub fields: HartFields,
    /// Whether its software interrupt is pending.
    pub msip: bool,
    /// The value of mtime from which on its timer interrupt is pending.
    pub mtimecmp: u64,
    /// The address of the aligned word of RAM that it has reserved, if any.
    pub reserved: Option<u32>,
    /// Whether it stopped at a breakpoint at its pc and has not stepped since.
    pub stopped: bool,
}
