//! The signed immediates and offsets of an instruction, each in its range.

ghost use Rattle.std.specs.Prelude.{◌≡◌, ◌<◌, ◌%◌, ◌^◌};
ghost use Rattle.rvm_word.specs.Word.{signed_value, signed, modulo, FitsSignedBits};
ghost use Rattle.rvm_isa.specs.Fields.{IsEven};

use std::marker::Model;

/// A signed immediate of twelve bits, -2048 to 2047.
#[derive(Clone, Copy, PartialEq, Eq, Debug)]
pub struct Imm12(i32);

impl Model for Imm12 {
    ghost use Rattle.std.specs.Prelude.{ℤ};
    ghost use Rattle.rvm_word.specs.Word.{FitsSignedBits};

    ghost Value = { ℤ };

    ghost view = { λ a. a.0 };

    ghost inverse = { λ v. record { 0 = v } };

    ghost invariant = { λ a. FitsSignedBits 12 a.0 };
}

impl Imm12 {
    /// The immediate of this number.
    #[inline(always)]
    pub fn new(value: i32) -> Imm12
        requires { FitsSignedBits 12 value }
        ensures { result ≡ value }
    {
        Imm12(value)
    }

    /// The immediate whose two's complement bits these are.
    #[inline(always)]
    #[tactic(auto, unfolding(rvm_word::specs::Word::signed_value))]
    pub fn from_bits(bits: u32) -> Imm12
        requires { bits < 2 ^ 12 }
        ensures value { result ≡ signed_value 12 bits }
        ensures bits { modulo 12 result ≡ bits }
    {
        Imm12((bits << 20).cast_signed() >> 20)
    }

    /// The number.
    #[inline(always)]
    pub fn value(self) -> i32
        ensures value { result ≡ self }
        ensures in_range { FitsSignedBits 12 result }
    {
        self.0
    }

    /// The number as a word, sign-extended.
    #[inline(always)]
    #[tactic(auto, using(crate::proofs::Immediates::values))]
    pub fn word(self) -> u32
        ensures word { result ≡ modulo 32 self }
        ensures value { signed result ≡ self }
    {
        self.value().cast_unsigned()
    }

    /// The 12 bits of the number in two's complement.
    #[inline(always)]
    #[tactic(auto, using(crate::proofs::Immediates::values))]
    pub fn bits(self) -> u32
        ensures bits { result ≡ modulo 12 self }
        ensures value { signed_value 12 result ≡ self }
        ensures below { result < 2 ^ 12 }
    {
        self.value().cast_unsigned() & 0xFFF
    }
}

/// The offset of a branch, in bytes: even, -4096 to 4094.
#[derive(Clone, Copy, PartialEq, Eq, Debug)]
pub struct Off13(i32);

impl Model for Off13 {
    ghost use Rattle.std.specs.Prelude.{ℤ};
    ghost use Rattle.rvm_word.specs.Word.{FitsSignedBits};
    ghost use Rattle.rvm_isa.specs.Fields.{IsEven};

    ghost Value = { ℤ };

    ghost view = { λ a. a.0 };

    ghost inverse = { λ v. record { 0 = v } };

    ghost invariant = { λ a. FitsSignedBits 13 a.0 × IsEven a.0 };
}

impl Off13 {
    /// The offset of this number.
    #[inline(always)]
    pub fn new(value: i32) -> Off13
        requires in_range { FitsSignedBits 13 value }
        requires even { IsEven value }
        ensures { result ≡ value }
    {
        Off13(value)
    }

    /// The offset whose two's complement bits these are.
    #[inline(always)]
    #[tactic(auto, unfolding(rvm_word::specs::Word::signed_value))]
    pub fn from_bits(bits: u32) -> Off13
        requires below { bits < 2 ^ 13 }
        requires even { bits % 2 ≡ 0 }
        ensures value { result ≡ signed_value 13 bits }
        ensures bits { modulo 13 result ≡ bits }
    {
        Off13((bits << 19).cast_signed() >> 19)
    }

    /// The offset that a word holds, sign-extended.
    #[inline(always)]
    #[tactic(auto, using(rvm_word::proofs::Casts::casts))]
    pub(crate) fn of_word(word: u32) -> Off13
        requires in_range { FitsSignedBits 13 (signed word) }
        requires even { IsEven (signed word) }
        ensures { result ≡ signed word }
    {
        Off13(word.cast_signed())
    }

    /// The number.
    #[inline(always)]
    pub fn value(self) -> i32
        ensures value { result ≡ self }
        ensures in_range { FitsSignedBits 13 result }
        ensures even { IsEven result }
    {
        self.0
    }

    /// The 13 bits of the number in two's complement.
    #[inline(always)]
    #[tactic(auto, using(crate::proofs::Immediates::values))]
    pub fn bits(self) -> u32
        ensures bits { result ≡ modulo 13 self }
        ensures value { signed_value 13 result ≡ self }
        ensures below { result < 2 ^ 13 }
        ensures even { result % 2 ≡ 0 }
    {
        self.value().cast_unsigned() & 0x1FFF
    }
}

/// The offset of a jump, in bytes: even, -2^20 to 2^20 - 2.
#[derive(Clone, Copy, PartialEq, Eq, Debug)]
pub struct Off21(i32);

impl Model for Off21 {
    ghost use Rattle.std.specs.Prelude.{ℤ};
    ghost use Rattle.rvm_word.specs.Word.{FitsSignedBits};
    ghost use Rattle.rvm_isa.specs.Fields.{IsEven};

    ghost Value = { ℤ };

    ghost view = { λ a. a.0 };

    ghost inverse = { λ v. record { 0 = v } };

    ghost invariant = { λ a. FitsSignedBits 21 a.0 × IsEven a.0 };
}

impl Off21 {
    /// The offset of this number.
    #[inline(always)]
    pub fn new(value: i32) -> Off21
        requires in_range { FitsSignedBits 21 value }
        requires even { IsEven value }
        ensures { result ≡ value }
    {
        Off21(value)
    }

    /// The offset whose two's complement bits these are.
    #[inline(always)]
    #[tactic(auto, unfolding(rvm_word::specs::Word::signed_value))]
    pub fn from_bits(bits: u32) -> Off21
        requires below { bits < 2 ^ 21 }
        requires even { bits % 2 ≡ 0 }
        ensures value { result ≡ signed_value 21 bits }
        ensures bits { modulo 21 result ≡ bits }
    {
        Off21((bits << 11).cast_signed() >> 11)
    }

    /// The number.
    #[inline(always)]
    pub fn value(self) -> i32
        ensures value { result ≡ self }
        ensures in_range { FitsSignedBits 21 result }
        ensures even { IsEven result }
    {
        self.0
    }

    /// The 21 bits of the number in two's complement.
    #[inline(always)]
    #[tactic(auto, using(crate::proofs::Immediates::values))]
    pub fn bits(self) -> u32
        ensures bits { result ≡ modulo 21 self }
        ensures value { signed_value 21 result ≡ self }
        ensures below { result < 2 ^ 21 }
        ensures even { result % 2 ≡ 0 }
    {
        self.value().cast_unsigned() & 0x1FFFFF
    }
}
