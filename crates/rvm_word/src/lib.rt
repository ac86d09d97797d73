//! Arithmetic of 32-bit words, as in RV32IM: each function is one formula over whole numbers,
//! reduced modulo 2^32; and the bits of words and the halves of longer numbers. Stands on nothing,
//! and must not know instructions or registers.
#![tactic(auto)]

ghost use Rattle.std.specs.Prelude.{◌≡◌, ◌<◌, ◌≤◌, ◌^◌, ◌*◌, ◌/◌, ◌%◌, ◌*ℤ◌, ◌+ℤ◌, pos, int_lt};
ghost use Rattle.rvm_word.specs.Word.{signed_value, signed, modulo, high, floor_shift};
ghost use Rattle.rvm_word.specs.Word.{quotient, remainder, unsigned_quotient, unsigned_remainder};

mod bits;

pub use bits::{bit, high_half, is_set, low_half, with_high, with_low};

/// The lowest `bits` bits of `value`, 1 to 32 of them, sign-extended to a word.
#[inline(always)]
pub fn sext(value: u32, bits: u32) -> u32
    requires some { 0 < bits }
    requires within { bits ≤ 32 }
    ensures { result ≡ modulo 32 (signed_value bits (value % 2 ^ bits)) }
{
    let unused = 32 - bits;
    ((value << unused).cast_signed() >> unused).cast_unsigned()
}

/// The sum of a word and a signed number, modulo 2^32, as for an address and an offset.
#[inline(always)]
pub fn add_signed(a: u32, b: i32) -> u32
    ensures { result ≡ modulo 32 (pos a +ℤ b) }
{
    a.wrapping_add(b.cast_unsigned())
}

/// Whether `a` is less than `b` as signed words (Unprivileged ISA, "Integer Computational
/// Instructions": SLT).
#[inline(always)]
#[tactic(auto, using(crate::proofs::Casts::casts))]
pub fn less_signed(a: u32, b: u32) -> bool
    ensures { result ≡ int_lt (signed a) (signed b) }
{
    a.cast_signed() < b.cast_signed()
}

/// `value` shifted right by `amount` bits, filled with copies of its sign (SRA).
#[inline(always)]
#[tactic(auto, using(crate::proofs::Casts::casts))]
pub fn sra(value: u32, amount: u32) -> u32
    requires { amount < 32 }
    ensures { result ≡ modulo 32 (floor_shift (signed value) amount) }
{
    (value.cast_signed() >> amount).cast_unsigned()
}

/// The upper word of the product of two signed words (MULH).
#[inline(always)]
#[tactic(auto, using(crate::proofs::Casts::casts))]
pub fn mulh(a: u32, b: u32) -> u32
    ensures { result ≡ high (signed a *ℤ signed b) }
{
    let product = i64::from(a.cast_signed()) * i64::from(b.cast_signed());
    (product.cast_unsigned() >> 32) as u32
}

/// The upper word of the product of a signed and an unsigned word (MULHSU).
#[inline(always)]
#[tactic(auto, using(crate::proofs::Casts::casts))]
pub fn mulhsu(a: u32, b: u32) -> u32
    ensures { result ≡ high (signed a *ℤ pos b) }
{
    let product = i64::from(a.cast_signed()) * i64::from(b);
    (product.cast_unsigned() >> 32) as u32
}

/// The upper word of the product of two unsigned words (MULHU).
#[inline(always)]
pub fn mulhu(a: u32, b: u32) -> u32
    ensures { result ≡ a * b / 2 ^ 32 }
{
    (u64::from(a) * u64::from(b) >> 32) as u32
}

/// The signed quotient, rounded towards zero; all ones if `b` is 0 (DIV).
#[inline(always)]
#[tactic(auto, using(crate::proofs::Casts::casts))]
pub fn div(a: u32, b: u32) -> u32
    ensures { result ≡ quotient a b }
{
    if b == 0 {
        return u32::MAX;
    }
    a.cast_signed()
        .wrapping_div(b.cast_signed())
        .cast_unsigned()
}

/// The unsigned quotient; all ones if `b` is 0 (DIVU).
#[inline(always)]
pub fn divu(a: u32, b: u32) -> u32
    ensures { result ≡ unsigned_quotient a b }
{
    if b == 0 { u32::MAX } else { a / b }
}

/// The signed remainder, with the sign of the dividend; the dividend if `b` is 0 (REM).
#[inline(always)]
#[tactic(auto, using(crate::proofs::Casts::casts))]
pub fn rem(a: u32, b: u32) -> u32
    ensures { result ≡ remainder a b }
{
    if b == 0 {
        return a;
    }
    a.cast_signed()
        .wrapping_rem(b.cast_signed())
        .cast_unsigned()
}

/// The unsigned remainder; the dividend if `b` is 0 (REMU).
#[inline(always)]
pub fn remu(a: u32, b: u32) -> u32
    ensures { result ≡ unsigned_remainder a b }
{
    if b == 0 { a } else { a % b }
}
