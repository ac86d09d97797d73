//! A hart as plain values.

use rvm_csr::CsrFields;

/// What a hart keeps, without its number. CSRs have only values that they can hold, and pc is a
/// multiple of four.
#[derive(Clone, Copy, Default)]
pub struct HartFields {
    /// Registers x1 to x31, in order.
    pub registers: [u32; 31],
    /// The address of the next instruction.
    pub pc: u32,
    /// The control and status registers.
    pub csrs: CsrFields,
}
