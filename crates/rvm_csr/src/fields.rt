//! The registers of one hart as plain values.

use crate::interrupts::Interrupts;

/// What the CSRs of a hart hold, without its number. Bit 1 of `mtvec` and bits 1 and 0 of `mepc`
/// are always 0.
#[derive(Clone, Copy, Default)]
pub struct CsrFields {
    /// `mstatus.MIE`.
    pub interrupts_enabled: bool,
    /// `mstatus.MPIE`.
    pub enabled_before: bool,
    /// The interrupts that `mie` enables.
    pub mie: Interrupts,
    /// `mtvec`, whose bit 1 is 0.
    pub mtvec: u32,
    /// `mscratch`.
    pub mscratch: u32,
    /// `mepc`, a multiple of four.
    pub mepc: u32,
    /// `mcause`.
    pub mcause: u32,
    /// `mtval`.
    pub mtval: u32,
    /// `mcycle`, all 64 bits.
    pub mcycle: u64,
    /// `minstret`, all 64 bits.
    pub minstret: u64,
}
