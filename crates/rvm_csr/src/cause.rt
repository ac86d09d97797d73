//! Why a hart traps.

ghost use Rattle.std.specs.Prelude.{◌≡◌};
ghost use Rattle.rvm_csr.specs.Cause.{cause_number, exception_code, interrupt_code};

/// A synchronous exception (Privileged ISA, "Machine Cause (mcause) Register").
#[derive(Clone, Copy, Debug, PartialEq, Eq)]
pub enum Exception {
    InstructionAddressMisaligned,
    InstructionAccessFault,
    IllegalInstruction,
    Breakpoint,
    LoadAddressMisaligned,
    LoadAccessFault,
    StoreAddressMisaligned,
    StoreAccessFault,
    EnvironmentCall,
}

/// A machine-level interrupt.
#[derive(Clone, Copy, Debug, PartialEq, Eq)]
pub enum Interrupt {
    Software,
    Timer,
    External,
}

/// The cause of a trap.
#[derive(Clone, Copy, Debug, PartialEq, Eq)]
pub enum Cause {
    Exception(Exception),
    Interrupt(Interrupt),
}

impl Exception {
    /// The exception's number in `mcause`: 0 to 7, or 11 for an environment call from machine mode.
    pub fn code(self) -> u32
        ensures { result ≡ exception_code self }
    {
        match self {
            Exception::InstructionAddressMisaligned => 0,
            Exception::InstructionAccessFault => 1,
            Exception::IllegalInstruction => 2,
            Exception::Breakpoint => 3,
            Exception::LoadAddressMisaligned => 4,
            Exception::LoadAccessFault => 5,
            Exception::StoreAddressMisaligned => 6,
            Exception::StoreAccessFault => 7,
            Exception::EnvironmentCall => 11,
        }
    }
}

impl Interrupt {
    /// The interrupt's number in `mcause`, and its bit in `mip` and `mie`: 3, 7 or 11.
    pub fn code(self) -> u32
        ensures { result ≡ interrupt_code self }
    {
        match self {
            Interrupt::Software => 3,
            Interrupt::Timer => 7,
            Interrupt::External => 11,
        }
    }
}

impl Cause {
    /// The value of `mcause` for this cause: its number, with bit 31 set for an interrupt.
    pub fn number(self) -> u32
        ensures { result ≡ cause_number self }
    {
        match self {
            Cause::Exception(exception) => exception.code(),
            Cause::Interrupt(interrupt) => (1 << 31) + interrupt.code(),
        }
    }
}
