//! Readers of the fields at the front of state bytes. Each returns the field and the bytes after it, or None if
//! the bytes begin with no such field.

ghost use Rattle.std.specs.Prelude.{◌≡◌, option_map};
ghost use Rattle.rvm_hart.specs.Fields.{is_ram_word};
ghost use Rattle.rvm_codec.specs.Codec.{any, optional};
ghost use Rattle.rvm_state.specs.Formats.{aligned, anything, csrs, mie, mstatus, mtvec, shared};

use rvm_codec::{flag_at, u8_at, u32_at, u64_at};
use rvm_csr::{CsrFields, Interrupts};
use rvm_dev::DeviceFields;
use rvm_hart::RAM_BASE;
use rvm_word::{bit, is_set};

/// Reads a number of four bytes that is a multiple of four.
pub(crate) fn aligned_at(bytes: &[u8]) -> Option<(u32, &[u8])>
    ensures { option_map (λ x. (x.0, x.1.now)) result ≡ aligned.read bytes.now }
{
    let (n, rest) = u32_at(bytes)?;
    if n % 4 == 0 { Some((n, rest)) } else { None }
}

/// Reads MIE and MPIE from an mstatus in which no other bit is set.
#[tactic(auto, unfolding(crate::specs::Formats::mstatus))]
fn mstatus_at(bytes: &[u8]) -> Option<((bool, bool), &[u8])>
    ensures { option_map (λ x. (x.0, x.1.now)) result ≡ mstatus.read bytes.now }
{
    let (n, rest) = u32_at(bytes)?;
    let (enabled, before) = (is_set(n, 3), is_set(n, 7));
    if bit(1 << 3, enabled) + bit(1 << 7, before) == n {
        Some(((enabled, before), rest))
    } else {
        None
    }
}

/// Reads the interrupts that mie enables; no other bits of it are set.
#[tactic(auto, unfolding(crate::specs::Formats::mie))]
fn mie_at(bytes: &[u8]) -> Option<(Interrupts, &[u8])>
    ensures { option_map (λ x. (x.0, x.1.now)) result ≡ mie.read bytes.now }
{
    let (n, rest) = u32_at(bytes)?;
    let interrupts = Interrupts::from_bits(n);
    if interrupts.bits() == n {
        Some((interrupts, rest))
    } else {
        None
    }
}

/// Reads mtvec: a base, and a mode whose bit 1 is 0.
fn mtvec_at(bytes: &[u8]) -> Option<(u32, &[u8])>
    ensures { option_map (λ x. (x.0, x.1.now)) result ≡ mtvec.read bytes.now }
{
    let (n, rest) = u32_at(bytes)?;
    if n / 2 % 2 == 0 {
        Some((n, rest))
    } else {
        None
    }
}

/// Reads the control and status registers.
#[tactic(auto, unfolding(crate::specs::Formats::csrs))]
pub(crate) fn csrs_at(bytes: &[u8]) -> Option<(CsrFields, &[u8])>
    ensures { option_map (λ x. (x.0, x.1.now)) result ≡ csrs.read bytes.now }
{
    let ((interrupts_enabled, enabled_before), rest) = mstatus_at(bytes)?;
    let (mie, rest) = mie_at(rest)?;
    let (mtvec, rest) = mtvec_at(rest)?;
    let (mscratch, rest) = u32_at(rest)?;
    let (mepc, rest) = aligned_at(rest)?;
    let (mcause, rest) = u32_at(rest)?;
    let (mtval, rest) = u32_at(rest)?;
    let (mcycle, rest) = u64_at(rest)?;
    let (minstret, rest) = u64_at(rest)?;
    let fields = CsrFields {
        interrupts_enabled,
        enabled_before,
        mie,
        mtvec,
        mscratch,
        mepc,
        mcause,
        mtval,
        mcycle,
        minstret,
    };
    Some((fields, rest))
}

/// Reads the address of the word that a hart has reserved in a RAM of `size` bytes, if any; a hart without one has
/// address 0.
pub(crate) fn reserved_at(size: u32, bytes: &[u8]) -> Option<(Option<u32>, &[u8])>
    ensures { option_map (λ x. (x.0, x.1.now)) result
        ≡ (optional (any 4) (is_ram_word size)).read bytes.now }
{
    let (is_held, rest) = flag_at(bytes)?;
    let (address, rest) = u32_at(rest)?;
    if is_held {
        if is_ram_word(size, address) {
            Some((Some(address), rest))
        } else {
            None
        }
    } else if address == 0 {
        Some((None, rest))
    } else {
        None
    }
}

/// Whether this is the address of an aligned word in a RAM of `size` bytes.
fn is_ram_word(size: u32, address: u32) -> bool
    ensures { result ≡ is_ram_word size address }
{
    let end = u64::from(RAM_BASE) + u64::from(size);
    address % 4 == 0 && RAM_BASE <= address && u64::from(address) + 4 <= end
}

/// Reads the status with which the board halted, if it has; a board that has not halted has status 0.
fn status_at(bytes: &[u8]) -> Option<(Option<u8>, &[u8])>
    ensures { option_map (λ x. (x.0, x.1.now)) result
        ≡ (optional (any 1) anything).read bytes.now }
{
    let (is_halted, rest) = flag_at(bytes)?;
    let (status, rest) = u8_at(rest)?;
    if is_halted {
        Some((Some(status), rest))
    } else if status == 0 {
        Some((None, rest))
    } else {
        None
    }
}

/// Reads what the devices keep for all harts together.
#[tactic(auto, unfolding(crate::specs::Formats::shared))]
pub(crate) fn shared_at(bytes: &[u8]) -> Option<(DeviceFields, &[u8])>
    ensures { option_map (λ x. (x.0, x.1.now)) result ≡ shared.read bytes.now }
{
    let (halted, rest) = status_at(bytes)?;
    let (overrun, rest) = flag_at(rest)?;
    let (interrupt_enable, rest) = flag_at(rest)?;
    let (mtime, rest) = u64_at(rest)?;
    let fields = DeviceFields {
        mtime,
        interrupt_enable,
        overrun,
        halted,
    };
    Some((fields, rest))
}
