//! Reads the snapshot of a guest from state bytes.

ghost use Rattle.std.specs.Prelude.{◌≡◌, ◌≤◌, length, option_map, IfSome};
ghost use Rattle.rvm_codec.specs.Numbers.{within};
ghost use Rattle.rvm_codec.specs.Codec.{any, bytes_at, counted_bytes, read_each, times};
ghost use Rattle.rvm_board.specs.Snapshot.{state_in};
ghost use Rattle.rvm_state.specs.Formats.{breakpoints, hart, head, state};

use crate::fields::{aligned_at, csrs_at, reserved_at, shared_at};
use arrayvec::ArrayVec;
use rvm_board::{HartPart, MAX_BREAKPOINTS, MAX_HARTS, Snapshot};
use rvm_codec::{bytes_at, flag_at, u8_within, u16_within, u32_at, u32s_rise, u64_at};
use rvm_dev::{DeviceFields, INPUT_CAPACITY, OUTPUT_CAPACITY};
use rvm_hart::HartFields;

/// The most harts that a board has.
const HARTS: usize = MAX_HARTS as usize;

/// The number of a hart's registers other than x0.
const REGISTERS: usize = 31;

/// Reads `count` consecutive numbers of four bytes.
fn words_at<const CAP: usize>(count: usize, bytes: &[u8]) -> Option<(ArrayVec<u32, CAP>, &[u8])>
    requires { count ≤ CAP }
    ensures words { option_map (λ x. (x.0.items, x.1.now)) result
        ≡ read_each (any 4).read count bytes.now }
    ensures length { IfSome result (λ x. length x.0.items ≡ count) }
{
    let mut words = ArrayVec::new();
    let mut rest = bytes;
    for _ in 0..count {
        match u32_at(rest) {
            None => return None,
            Some((word, behind)) => {
                words.push(word);
                rest = behind;
            }
        }
    }
    Some((words, rest))
}

/// Reads x1 to x31.
fn registers_at(bytes: &[u8]) -> Option<([u32; REGISTERS], &[u8])>
    ensures { option_map (λ x. (x.0, x.1.now)) result ≡ (times 31 (any 4)).read bytes.now }
{
    let (words, rest) = words_at::<REGISTERS>(REGISTERS, bytes)?;
    match words.into_inner() {
        Ok(registers) => Some((registers, rest)),
        Err(_) => None,
    }
}

/// Reads what is kept of one hart of a board with a RAM of `size` bytes.
#[tactic(auto, unfolding(crate::specs::Formats::hart))]
fn hart_at(size: u32, bytes: &[u8]) -> Option<(HartPart, &[u8])>
    ensures { option_map (λ x. (x.0, x.1.now)) result ≡ (hart size).read bytes.now }
{
    let (pc, rest) = aligned_at(bytes)?;
    let (registers, rest) = registers_at(rest)?;
    let (csrs, rest) = csrs_at(rest)?;
    let (msip, rest) = flag_at(rest)?;
    let (mtimecmp, rest) = u64_at(rest)?;
    let (reserved, rest) = reserved_at(size, rest)?;
    let (stopped, rest) = flag_at(rest)?;
    let part = HartPart {
        fields: HartFields {
            registers,
            pc,
            csrs,
        },
        msip,
        mtimecmp,
        reserved,
        stopped,
    };
    Some((part, rest))
}

/// Reads what is kept of `count` harts of a board with a RAM of `size` bytes.
fn harts_at(size: u32, count: usize, bytes: &[u8]) -> Option<(ArrayVec<HartPart, HARTS>, &[u8])>
    requires { count ≤ 8 }
    ensures harts { option_map (λ x. (x.0.items, x.1.now)) result
        ≡ read_each (hart size).read count bytes.now }
    ensures length { IfSome result (λ x. length x.0.items ≡ count) }
{
    let mut harts = ArrayVec::new();
    let mut rest = bytes;
    for _ in 0..count {
        match hart_at(size, rest) {
            None => return None,
            Some((part, behind)) => {
                harts.push(part);
                rest = behind;
            }
        }
    }
    Some((harts, rest))
}

/// Reads the number of harts, and what the devices keep for all of them together.
#[tactic(auto, unfolding(crate::specs::Formats::head))]
fn head_at(bytes: &[u8]) -> Option<((u8, DeviceFields), &[u8])>
    ensures head { option_map (λ x. ((x.0.0, x.0.1), x.1.now)) result ≡ head.read bytes.now }
    ensures bound { IfSome result (λ x. x.0.0 ≤ 8) }
{
    let (count, rest) = u8_within(1, 8, bytes)?;
    let (shared, rest) = shared_at(rest)?;
    Some(((count, shared), rest))
}

/// Reads a queue of `count` bytes.
fn queue_at<const CAP: usize>(count: usize, bytes: &[u8]) -> Option<(ArrayVec<u8, CAP>, &[u8])>
    requires { count ≤ CAP }
    ensures { option_map (λ x. (x.0.items, x.1.now)) result ≡ bytes_at count bytes.now }
{
    let (front, rest) = bytes_at(count, bytes)?;
    let mut queue = ArrayVec::new();
    let fits = queue.try_extend_from_slice(front).is_ok();
    prove!(fits);
    Some((queue, rest))
}

/// Reads the input that waits for the guest: at most 16 bytes.
fn input_at(bytes: &[u8]) -> Option<(ArrayVec<u8, INPUT_CAPACITY>, &[u8])>
    ensures { option_map (λ x. (x.0.items, x.1.now)) result
        ≡ (counted_bytes 1 (within 0 16)).read bytes.now }
{
    let (count, rest) = u8_within(0, 16, bytes)?;
    queue_at(count as usize, rest)
}

/// Reads the output that waits for a drain: at most 4096 bytes.
fn output_at(bytes: &[u8]) -> Option<(ArrayVec<u8, OUTPUT_CAPACITY>, &[u8])>
    ensures { option_map (λ x. (x.0.items, x.1.now)) result
        ≡ (counted_bytes 2 (within 0 4096)).read bytes.now }
{
    let (count, rest) = u16_within(0, 4096, bytes)?;
    queue_at(count as usize, rest)
}

/// Reads the breakpoints: at most 64 addresses, in rising order.
#[tactic(auto, unfolding(crate::specs::Formats::breakpoints))]
fn breakpoints_at(bytes: &[u8]) -> Option<(ArrayVec<u32, MAX_BREAKPOINTS>, &[u8])>
    ensures { option_map (λ x. (x.0.items, x.1.now)) result ≡ breakpoints.read bytes.now }
{
    let (count, rest) = u8_within(0, 64, bytes)?;
    let (addresses, rest) = words_at::<MAX_BREAKPOINTS>(count as usize, rest)?;
    if u32s_rise(addresses.as_slice()) {
        Some((addresses, rest))
    } else {
        None
    }
}

/// The snapshot that all of these bytes encode, for a RAM of `size` bytes; None if there is none.
#[tactic(auto, unfolding(crate::specs::Formats::state, crate::specs::Formats::parts))]
pub(crate) fn snapshot_of(size: u32, bytes: &[u8]) -> Option<Snapshot>
    ensures { option_map state_in result ≡ (state size).read bytes.now }
{
    let ((count, devices), rest) = head_at(bytes)?;
    let (harts, rest) = harts_at(size, count as usize, rest)?;
    let (input, rest) = input_at(rest)?;
    let (output, rest) = output_at(rest)?;
    let (breakpoints, rest) = breakpoints_at(rest)?;
    if !rest.is_empty() {
        return None;
    }
    Some(Snapshot {
        harts,
        devices,
        input,
        output,
        breakpoints,
    })
}
