//! Writers that append the values of a snapshot to a vector, in room that the caller reserved: no call takes memory,
//! and the capacity stays as it is.

ghost use Rattle.std.specs.Prelude.{◌≡◌, ◌+◌, ◌*◌, ◌≤◌, ℕ, true, length, vec_len, vec_capacity};
ghost use Rattle.rvm_csr.specs.Fields.{CanBeHeld as CsrsHeld};
ghost use Rattle.rvm_hart.specs.Fields.{is_in_ram, is_ram_word};
ghost use Rattle.rvm_codec.specs.Numbers.{within};
ghost use Rattle.rvm_codec.specs.Codec.{any, counted_bytes, flag, optional, times};
ghost use Rattle.rvm_board.specs.Guest.{AreRising};
ghost use Rattle.rvm_board.specs.Parts.{CanBeHeld};
ghost use Rattle.rvm_board.specs.Restoring.{AreHeld};
ghost use Rattle.rvm_board.specs.Snapshot.{state_in};
ghost use Rattle.rvm_state.specs.Formats.{anything, breakpoints, csrs, hart, head, mie, mstatus, parts, shared, whole_parts};
ghost use Rattle.rvm_state.specs.Writing.{Writes, WritesEach, length_of};

use rvm_board::{HartPart, Snapshot};
use rvm_codec::{append_bytes, append_flag, append_u8, append_u16, append_u32, append_u64};
use rvm_csr::{CsrFields, Interrupts};
use rvm_dev::DeviceFields;
use rvm_word::bit;

fn put_u8(out: &mut Vec<u8>, n: u8)
    requires { vec_len out.old + 1 ≤ vec_capacity out.old }
    ensures written { Writes (any 1) n out.old.items out.new.items }
    ensures len { vec_len out.new ≡ vec_len out.old + 1 }
    ensures capacity { vec_capacity out.new ≡ vec_capacity out.old }
{
    append_u8(out, n);
}

fn put_u16(out: &mut Vec<u8>, n: u16)
    requires { vec_len out.old + 2 ≤ vec_capacity out.old }
    ensures written { Writes (any 2) n out.old.items out.new.items }
    ensures len { vec_len out.new ≡ vec_len out.old + 2 }
    ensures capacity { vec_capacity out.new ≡ vec_capacity out.old }
{
    append_u16(out, n);
}

fn put_u32(out: &mut Vec<u8>, n: u32)
    requires { vec_len out.old + 4 ≤ vec_capacity out.old }
    ensures written { Writes (any 4) n out.old.items out.new.items }
    ensures len { vec_len out.new ≡ vec_len out.old + 4 }
    ensures capacity { vec_capacity out.new ≡ vec_capacity out.old }
{
    append_u32(out, n);
}

fn put_u64(out: &mut Vec<u8>, n: u64)
    requires { vec_len out.old + 8 ≤ vec_capacity out.old }
    ensures written { Writes (any 8) n out.old.items out.new.items }
    ensures len { vec_len out.new ≡ vec_len out.old + 8 }
    ensures capacity { vec_capacity out.new ≡ vec_capacity out.old }
{
    append_u64(out, n);
}

fn put_flag(out: &mut Vec<u8>, is_set: bool)
    requires { vec_len out.old + 1 ≤ vec_capacity out.old }
    ensures written { Writes flag is_set out.old.items out.new.items }
    ensures len { vec_len out.new ≡ vec_len out.old + 1 }
    ensures capacity { vec_capacity out.new ≡ vec_capacity out.old }
{
    append_flag(out, is_set);
}

fn put_words(out: &mut Vec<u8>, words: &[u32])
    requires { vec_len out.old + 4 * length words.now ≤ vec_capacity out.old }
    ensures written { WritesEach (any 4) words.now out.old.items out.new.items }
    ensures len { vec_len out.new ≡ vec_len out.old + 4 * length words.now }
    ensures capacity { vec_capacity out.new ≡ vec_capacity out.old }
{
    for word in words {
        put_u32(out, *word);
    }
}

/// Appends x1 to x31.
fn put_registers(out: &mut Vec<u8>, registers: &[u32; 31])
    requires { vec_len out.old + 124 ≤ vec_capacity out.old }
    ensures written { Writes (times 31 (any 4)) registers.now out.old.items out.new.items }
    ensures len { vec_len out.new ≡ vec_len out.old + 124 }
    ensures capacity { vec_capacity out.new ≡ vec_capacity out.old }
{
    put_words(out, registers);
}

/// Appends mstatus, in which only MIE and MPIE may be set.
fn put_mstatus(out: &mut Vec<u8>, enabled: bool, before: bool)
    requires { vec_len out.old + 4 ≤ vec_capacity out.old }
    ensures written { Writes mstatus (enabled, before) out.old.items out.new.items }
    ensures len { vec_len out.new ≡ vec_len out.old + 4 }
    ensures capacity { vec_capacity out.new ≡ vec_capacity out.old }
{
    put_u32(out, bit(1 << 3, enabled) + bit(1 << 7, before));
}

fn put_mie(out: &mut Vec<u8>, interrupts: Interrupts)
    requires { vec_len out.old + 4 ≤ vec_capacity out.old }
    ensures written { Writes mie interrupts out.old.items out.new.items }
    ensures len { vec_len out.new ≡ vec_len out.old + 4 }
    ensures capacity { vec_capacity out.new ≡ vec_capacity out.old }
{
    put_u32(out, interrupts.bits());
}

/// Appends the control and status registers.
fn put_csrs(out: &mut Vec<u8>, fields: &CsrFields)
    requires { vec_len out.old + 44 ≤ vec_capacity out.old }
    ensures written { CsrsHeld fields.now → Writes csrs fields.now out.old.items out.new.items }
    ensures len { vec_len out.new ≡ vec_len out.old + 44 }
    ensures capacity { vec_capacity out.new ≡ vec_capacity out.old }
{
    put_mstatus(out, fields.interrupts_enabled, fields.enabled_before);
    put_mie(out, fields.mie);
    put_u32(out, fields.mtvec);
    put_u32(out, fields.mscratch);
    put_u32(out, fields.mepc);
    put_u32(out, fields.mcause);
    put_u32(out, fields.mtval);
    put_u64(out, fields.mcycle);
    put_u64(out, fields.minstret);
}

/// Appends whether a hart has a reservation, and the address of the reserved word, 0 for none.
fn put_reserved(out: &mut Vec<u8>, reserved: Option<u32>)
    requires { vec_len out.old + 5 ≤ vec_capacity out.old }
    ensures written { (size : ℕ) → is_in_ram size reserved ≡ true
        → Writes (optional (any 4) (is_ram_word size)) reserved out.old.items out.new.items }
    ensures len { vec_len out.new ≡ vec_len out.old + 5 }
    ensures capacity { vec_capacity out.new ≡ vec_capacity out.old }
{
    match reserved {
        None => {
            put_flag(out, false);
            put_u32(out, 0);
        }
        Some(address) => {
            put_flag(out, true);
            put_u32(out, address);
        }
    }
}

/// Appends what is kept of a hart.
fn put_hart(out: &mut Vec<u8>, part: &HartPart)
    requires { vec_len out.old + 187 ≤ vec_capacity out.old }
    ensures written { (size : ℕ) → CanBeHeld size part.now
        → Writes (hart size) part.now out.old.items out.new.items }
    ensures len { vec_len out.new ≡ vec_len out.old + 187 }
    ensures capacity { vec_capacity out.new ≡ vec_capacity out.old }
{
    put_u32(out, part.fields.pc);
    put_registers(out, &part.fields.registers);
    put_csrs(out, &part.fields.csrs);
    put_flag(out, part.msip);
    put_u64(out, part.mtimecmp);
    put_reserved(out, part.reserved);
    put_flag(out, part.stopped);
}

/// Appends what is kept of each hart.
fn put_harts(out: &mut Vec<u8>, harts: &[HartPart])
    requires { vec_len out.old + 187 * length harts.now ≤ vec_capacity out.old }
    ensures written { (size : ℕ) → AreHeld size harts.now
        → WritesEach (hart size) harts.now out.old.items out.new.items }
    ensures len { vec_len out.new ≡ vec_len out.old + 187 * length harts.now }
    ensures capacity { vec_capacity out.new ≡ vec_capacity out.old }
{
    for part in harts {
        put_hart(out, part);
    }
}

/// Appends whether the board is halted, and its status, 0 if it is not halted.
fn put_status(out: &mut Vec<u8>, halted: Option<u8>)
    requires { vec_len out.old + 2 ≤ vec_capacity out.old }
    ensures written { Writes (optional (any 1) anything) halted out.old.items out.new.items }
    ensures len { vec_len out.new ≡ vec_len out.old + 2 }
    ensures capacity { vec_capacity out.new ≡ vec_capacity out.old }
{
    match halted {
        None => {
            put_flag(out, false);
            put_u8(out, 0);
        }
        Some(status) => {
            put_flag(out, true);
            put_u8(out, status);
        }
    }
}

/// Appends what the devices keep for all harts together.
fn put_shared(out: &mut Vec<u8>, fields: &DeviceFields)
    requires { vec_len out.old + 12 ≤ vec_capacity out.old }
    ensures written { Writes shared fields.now out.old.items out.new.items }
    ensures len { vec_len out.new ≡ vec_len out.old + 12 }
    ensures capacity { vec_capacity out.new ≡ vec_capacity out.old }
{
    put_status(out, fields.halted);
    put_flag(out, fields.overrun);
    put_flag(out, fields.interrupt_enable);
    put_u64(out, fields.mtime);
}

/// Appends the number of harts, and what the devices keep for all of them together.
fn put_head(out: &mut Vec<u8>, count: u8, fields: &DeviceFields)
    requires some { 1 ≤ count }
    requires bound { count ≤ 8 }
    requires room { vec_len out.old + 13 ≤ vec_capacity out.old }
    ensures written { Writes head (count, fields.now) out.old.items out.new.items }
    ensures len { vec_len out.new ≡ vec_len out.old + 13 }
    ensures capacity { vec_capacity out.new ≡ vec_capacity out.old }
{
    put_u8(out, count);
    put_shared(out, fields);
}

/// Appends the breakpoints: their count, and each address.
fn put_breakpoints(out: &mut Vec<u8>, addresses: &[u32])
    requires few { length addresses.now ≤ 64 }
    requires rising { AreRising addresses.now }
    requires room { vec_len out.old + (1 + 4 * length addresses.now) ≤ vec_capacity out.old }
    ensures { Writes breakpoints addresses.now out.old.items out.new.items }
{
    put_u8(out, addresses.len() as u8);
    put_words(out, addresses);
}

/// Appends the input that waits for the guest: its count, and its bytes.
fn put_input(out: &mut Vec<u8>, bytes: &[u8])
    requires few { length bytes.now ≤ 16 }
    requires room { vec_len out.old + (1 + length bytes.now) ≤ vec_capacity out.old }
    ensures written { Writes (counted_bytes 1 (within 0 16)) bytes.now
        out.old.items out.new.items }
    ensures len { vec_len out.new ≡ vec_len out.old + (1 + length bytes.now) }
    ensures capacity { vec_capacity out.new ≡ vec_capacity out.old }
{
    put_u8(out, bytes.len() as u8);
    append_bytes(out, bytes);
}

/// Appends the output that waits for a drain: its count, and its bytes.
fn put_output(out: &mut Vec<u8>, bytes: &[u8])
    requires few { length bytes.now ≤ 4096 }
    requires room { vec_len out.old + (2 + length bytes.now) ≤ vec_capacity out.old }
    ensures written { Writes (counted_bytes 2 (within 0 4096)) bytes.now
        out.old.items out.new.items }
    ensures len { vec_len out.new ≡ vec_len out.old + (2 + length bytes.now) }
    ensures capacity { vec_capacity out.new ≡ vec_capacity out.old }
{
    put_u16(out, bytes.len() as u16);
    append_bytes(out, bytes);
}

/// The number of bytes of the encoding of a snapshot.
pub(crate) fn snapshot_len(snapshot: &Snapshot) -> usize
    ensures { result ≡ length_of (state_in snapshot.now) }
{
    13 + 187 * snapshot.harts.len()
        + (1 + snapshot.input.len())
        + (2 + snapshot.output.len())
        + (1 + 4 * snapshot.breakpoints.len())
}

/// Appends all that a guest keeps beside its RAM.
pub(crate) fn put_snapshot(out: &mut Vec<u8>, snapshot: &Snapshot)
    requires some { 1 ≤ length snapshot.now.harts.items }
    requires rising { AreRising snapshot.now.breakpoints.items }
    requires room { vec_len out.old + length_of (state_in snapshot.now) ≤ vec_capacity out.old }
    ensures { (size : ℕ) → AreHeld size snapshot.now.harts.items
        → Writes (parts size) (whole_parts (state_in snapshot.now)) out.old.items out.new.items }
{
    let harts = snapshot.harts.as_slice();
    put_head(out, harts.len() as u8, &snapshot.devices);
    put_harts(out, harts);
    put_input(out, snapshot.input.as_slice());
    put_output(out, snapshot.output.as_slice());
    put_breakpoints(out, snapshot.breakpoints.as_slice());
}
