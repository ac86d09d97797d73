//! The fields of an instruction that are plain numbers, each in its range.

ghost use Rattle.std.specs.Prelude.{◌≡◌, ◌<◌, ◌^◌};

use std::marker::Model;

/// The number of a register, below 32.
#[derive(Clone, Copy, PartialEq, Eq, Debug)]
pub struct Reg(u32);

impl Model for Reg {
    ghost use Rattle.std.specs.Prelude.{ℕ, ◌<◌};

    ghost Value = { ℕ };

    ghost view = { λ a. a.0 };

    ghost inverse = { λ v. record { 0 = v } };

    ghost invariant = { λ a. a.0 < 32 };
}

impl Reg {
    /// The register of this number.
    #[inline(always)]
    pub fn new(bits: u32) -> Reg
        requires { bits < 32 }
        ensures { result ≡ bits }
    {
        Reg(bits)
    }

    /// The number.
    #[inline(always)]
    pub fn bits(self) -> u32
        ensures value { result ≡ self }
        ensures below { result < 32 }
    {
        self.0
    }

    /// The number, to index the registers with.
    #[inline(always)]
    pub fn index(self) -> usize
        ensures value { result ≡ self }
        ensures below { result < 32 }
    {
        self.0 as usize
    }
}

/// The amount of a shift, in bits, below 32.
#[derive(Clone, Copy, PartialEq, Eq, Debug)]
pub struct Shamt(u32);

impl Model for Shamt {
    ghost use Rattle.std.specs.Prelude.{ℕ, ◌<◌};

    ghost Value = { ℕ };

    ghost view = { λ a. a.0 };

    ghost inverse = { λ v. record { 0 = v } };

    ghost invariant = { λ a. a.0 < 32 };
}

impl Shamt {
    /// A shift by this many bits.
    #[inline(always)]
    pub fn new(bits: u32) -> Shamt
        requires { bits < 32 }
        ensures { result ≡ bits }
    {
        Shamt(bits)
    }

    /// The number.
    #[inline(always)]
    pub fn bits(self) -> u32
        ensures value { result ≡ self }
        ensures below { result < 32 }
    {
        self.0
    }
}

/// The immediate of a CSR instruction, below 32, which stands at the place of rs1.
#[derive(Clone, Copy, PartialEq, Eq, Debug)]
pub struct Imm5(u32);

impl Model for Imm5 {
    ghost use Rattle.std.specs.Prelude.{ℕ, ◌<◌};

    ghost Value = { ℕ };

    ghost view = { λ a. a.0 };

    ghost inverse = { λ v. record { 0 = v } };

    ghost invariant = { λ a. a.0 < 32 };
}

impl Imm5 {
    /// The immediate of this number.
    #[inline(always)]
    pub fn new(bits: u32) -> Imm5
        requires { bits < 32 }
        ensures { result ≡ bits }
    {
        Imm5(bits)
    }

    /// The number.
    #[inline(always)]
    pub fn bits(self) -> u32
        ensures value { result ≡ self }
        ensures below { result < 32 }
    {
        self.0
    }
}

/// The upper twenty bits of a word, as a number below 2^20.
#[derive(Clone, Copy, PartialEq, Eq, Debug)]
pub struct Imm20(u32);

impl Model for Imm20 {
    ghost use Rattle.std.specs.Prelude.{ℕ, ◌<◌, ◌^◌};

    ghost Value = { ℕ };

    ghost view = { λ a. a.0 };

    ghost inverse = { λ v. record { 0 = v } };

    ghost invariant = { λ a. a.0 < 2 ^ 20 };
}

impl Imm20 {
    /// The upper twenty bits of a word, given as this number.
    #[inline(always)]
    pub fn new(bits: u32) -> Imm20
        requires { bits < 2 ^ 20 }
        ensures { result ≡ bits }
    {
        Imm20(bits)
    }

    /// The number.
    #[inline(always)]
    pub fn bits(self) -> u32
        ensures value { result ≡ self }
        ensures below { result < 2 ^ 20 }
    {
        self.0
    }
}

/// The number of a control and status register, below 4096.
#[derive(Clone, Copy, PartialEq, Eq, Debug)]
pub struct CsrNo(u32);

impl Model for CsrNo {
    ghost use Rattle.std.specs.Prelude.{ℕ, ◌<◌, ◌^◌};

    ghost Value = { ℕ };

    ghost view = { λ a. a.0 };

    ghost inverse = { λ v. record { 0 = v } };

    ghost invariant = { λ a. a.0 < 2 ^ 12 };
}

impl CsrNo {
    /// The CSR of this number.
    #[inline(always)]
    pub fn new(bits: u32) -> CsrNo
        requires { bits < 2 ^ 12 }
        ensures { result ≡ bits }
    {
        CsrNo(bits)
    }

    /// The number.
    #[inline(always)]
    pub fn bits(self) -> u32
        ensures value { result ≡ self }
        ensures below { result < 2 ^ 12 }
    {
        self.0
    }
}
