//! The devices of one board.

ghost use Rattle.std.specs.Prelude.{◌≡◌, ◌==◌, ◌<◌, ◌≤◌, ◌%◌, ◌^◌, ◌+◌, ◌++◌, [], ◌∷◌, ◌↔◌, is_some, unwrap_or, length, min, take, drop, false, OnOk, OnErr, IfOk, IfSome, IsErr, get_or, slice_set};
ghost use Rattle.rvm_dev.specs.Devices.{at_reset, loaded, stored, value_loaded, timer_is_pending, external_is_pending, value_of, after_load, after_store, received, register_of, sent};
ghost use Rattle.rvm_dev.specs.Map.{IsOfHart};
ghost use Rattle.rvm_dev.specs.Shared.{fields_of, hart_restored, restored};

use crate::fields::DeviceFields;
use crate::register::Register;
use circular_buffer::HeapCircularBuffer;
use rvm_refusal::Refusal;
use rvm_word::{bit, high_half, is_set, low_half, with_high, with_low};
use std::alloc::{AllocError, Global};
use std::marker::Model;
use thiserror::Error;

/// The most bytes of input that wait for the guest.
pub const INPUT_CAPACITY: usize = 16;

/// The most bytes that the guest sent and that were not taken.
pub const OUTPUT_CAPACITY: usize = 4096;

/// The most harts that a board has.
const MAX_HARTS: usize = 8;

/// 16 bytes of input wait; the byte was not taken.
#[derive(Clone, Copy, Debug, PartialEq, Eq, Error)]
#[error("{INPUT_CAPACITY} input bytes wait")]
pub struct InputFull;

impl From<InputFull> for Refusal {
    ghost use Rattle.rvm_refusal.specs.declared.refusal.Refusal.TheVariants as refusal;

    ghost from_gives = { λ _ told. told ≡ refusal.InputFull };

    fn from(_error: InputFull) -> Refusal {
        Refusal::InputFull
    }
}

/// The devices of a board of 1 to 8 harts.
#[derive(Drop)]
pub struct Devices {
    harts: u32,
    msip: [bool; MAX_HARTS],
    mtimecmp: [u64; MAX_HARTS],
    mtime: u64,
    input: HeapCircularBuffer<u8>,
    output: HeapCircularBuffer<u8>,
    interrupt_enable: bool,
    overrun: bool,
    halted: Option<u8>,
}

impl Model for Devices {
    ghost use Rattle.rvm_dev.specs.Devices.{DeviceState};

    ghost Value = { DeviceState };

    ghost use Rattle.rvm_dev.specs.Fields.{state_of, IsKept};

    ghost view = { state_of };

    ghost invariant = { IsKept };
}

impl Devices {
    /// The devices at reset: mtimecmp is all ones, all else 0. It is the only function here that takes memory.
    #[tactic(auto, using(crate::proofs::Harts::harts))]
    pub fn new(alloc: Global, harts: u32) -> Result<Devices, AllocError>
        requires { harts ≤ 8 }
        ensures { IfOk result (λ d. d ≡ at_reset harts) }
    {
        Ok(Devices {
            harts,
            msip: [false; MAX_HARTS],
            mtimecmp: [u64::MAX; MAX_HARTS],
            mtime: 0,
            input: HeapCircularBuffer::with_capacity(alloc, INPUT_CAPACITY)?,
            output: HeapCircularBuffer::with_capacity(alloc, OUTPUT_CAPACITY)?,
            interrupt_enable: false,
            overrun: false,
            halted: None,
        })
    }

    /// Loads the word at an aligned address, if a device has one there. A load of the receive word takes the oldest
    /// byte of input.
    #[cold]
    #[inline(never)]
    pub fn load(&mut self, address: u32) -> Option<u32>
        ensures value { result ≡ value_loaded address self.old }
        ensures devices { self.new ≡ loaded address self.old }
    {
        let register = self.register_at(address)?;
        Some(self.load_register(register))
    }

    /// Stores a word at an aligned address. Returns which word it was; none, and nothing changes, if no device has one
    /// there.
    #[cold]
    #[inline(never)]
    pub fn store(&mut self, address: u32, value: u32) -> Option<Register>
        ensures devices { self.new ≡ unwrap_or (stored address value self.old) self.old }
        ensures register { result ≡ register_of address self.old }
    {
        let register = self.register_at(address)?;
        self.store_register(register, value);
        Some(register)
    }

    /// Advances mtime by one step; it wraps at 2^64.
    #[inline(always)]
    pub fn tick(&mut self)
        ensures { self.new ≡ record self.old { mtime = (self.old.mtime + 1) % 2 ^ 64 } }
    {
        self.mtime = self.mtime.wrapping_add(1);
    }

    /// Advances mtime by this many steps; it wraps at 2^64.
    #[inline(always)]
    pub fn tick_many(&mut self, steps: u32)
        ensures { self.new ≡ record self.old { mtime = (self.old.mtime + steps) % 2 ^ 64 } }
    {
        self.mtime = self.mtime.wrapping_add(u64::from(steps));
    }

    /// The number of steps, at most `count`, that can be made before mtime reaches a hart's mtimecmp.
    #[inline(always)]
    pub fn steps_to_timer(&self, hart: u32, count: u32) -> u32
        requires { hart < length self.now.msip }
        ensures within { result ≤ count }
        ensures time { 0 < result → self.now.mtime + result ≤ get_or self.now.mtimecmp hart 0 }
        ensures range { get_or self.now.mtimecmp hart 0 < 2 ^ 64 }
    {
        steps_between(self.mtime, self.mtimecmp(hart), count)
    }

    /// Gives the console a byte of input. `InputFull`, and nothing changes, if 16 bytes wait.
    pub fn input(&mut self, byte: u8) -> Result<(), InputFull>
        ensures taken { OnOk result
            (self.new ≡ record self.old { input = self.old.input ++ byte ∷ [] }) }
        ensures full { IsErr result ↔ (length self.old.input ≡ 16) }
        ensures err { OnErr result (self.new ≡ self.old) }
    {
        self.input.try_push_back(byte).map_err(|_| InputFull)
    }

    /// Whether 16 bytes of input wait, so that no more can come.
    #[inline(always)]
    pub fn input_is_full(&self) -> bool
        ensures { result ≡ (length self.now.input == 16) }
    {
        self.input.is_full()
    }

    /// Takes the oldest bytes that the guest sent, as many as fit into `bytes`. Returns their number.
    pub fn drain(&mut self, bytes: &mut [u8]) -> usize
        ensures count { result ≡ min (length bytes.old) (length self.old.output) }
        ensures bytes { bytes.new ≡ take result self.old.output ++ drop result bytes.old }
        ensures devices { self.new ≡ record self.old { output = drop result self.old.output } }
    {
        self.output.read_into(bytes)
    }

    /// The number of bytes that the guest sent and that were not taken.
    #[inline(always)]
    pub fn waiting(&self) -> usize
        ensures { result ≡ length self.now.output }
    {
        self.output.len()
    }

    /// The status that the board was halted with, if it was.
    #[inline(always)]
    pub fn halted(&self) -> Option<u8>
        ensures { result ≡ self.now.halted }
    {
        self.halted
    }

    /// The number of the board's harts.
    #[tactic(auto, using(crate::proofs::Harts::harts))]
    pub fn harts(&self) -> u32
        ensures { result ≡ length self.now.msip }
    {
        self.harts
    }

    /// Whether the software interrupt of a hart is pending.
    #[inline(always)]
    pub fn software_is_pending(&self, hart: u32) -> bool
        requires { hart < length self.now.msip }
        ensures { result ≡ get_or self.now.msip hart false }
    {
        let msip = &self.msip;
        msip[hart as usize]
    }

    /// Whether the timer interrupt of a hart is pending: mtime has reached its mtimecmp.
    #[inline(always)]
    pub fn timer_is_pending(&self, hart: u32) -> bool
        requires { hart < length self.now.msip }
        ensures { result ≡ timer_is_pending hart self.now }
    {
        self.mtimecmp(hart) <= self.mtime
    }

    /// Whether the external interrupt of a hart is pending. The console interrupts hart 0 alone, while it is enabled
    /// and a byte of input waits.
    #[inline(always)]
    pub fn external_is_pending(&self, hart: u32) -> bool
        ensures { result ≡ external_is_pending hart self.now }
    {
        hart == 0 && self.interrupt_enable && !self.input.is_empty()
    }

    /// What the devices keep for all harts, without the queues.
    #[tactic(auto, using(crate::proofs::Harts::harts))]
    pub fn fields(&self) -> DeviceFields
        ensures fields { result ≡ fields_of self.now }
        ensures harts { length self.now.mtimecmp ≡ length self.now.msip }
    {
        DeviceFields {
            mtime: self.mtime,
            interrupt_enable: self.interrupt_enable,
            overrun: self.overrun,
            halted: self.halted,
        }
    }

    /// The bytes of input that wait for the guest, at most 16, oldest first: those of the first slice, then those of
    /// the second.
    pub fn input_bytes(&self) -> (&[u8], &[u8])
        ensures bytes { result.0.now ++ result.1.now ≡ self.now.input }
        ensures bound { length self.now.input ≤ 16 }
    {
        self.input.as_slices()
    }

    /// The bytes that the guest sent and that were not taken, at most 4096, oldest first: those of the first slice,
    /// then those of the second.
    pub fn output_bytes(&self) -> (&[u8], &[u8])
        ensures bytes { result.0.now ++ result.1.now ≡ self.now.output }
        ensures bound { length self.now.output ≤ 4096 }
    {
        self.output.as_slices()
    }

    /// Sets what the devices keep for all harts, and the bytes that wait in both queues.
    pub fn restore(&mut self, fields: DeviceFields, input: &[u8], output: &[u8])
        requires input { length input.now ≤ 16 }
        requires output { length output.now ≤ 4096 }
        ensures { self.new ≡ restored fields input.now output.now self.old }
    {
        self.mtime = fields.mtime;
        self.interrupt_enable = fields.interrupt_enable;
        self.overrun = fields.overrun;
        self.halted = fields.halted;
        self.input.clear();
        self.input.fill_from_slice(input);
        self.output.clear();
        self.output.fill_from_slice(output);
    }

    /// Sets whether the software interrupt of a hart is pending, and its mtimecmp.
    pub fn restore_hart(&mut self, hart: u32, msip: bool, mtimecmp: u64)
        requires { hart < length self.old.msip }
        ensures { self.new ≡ hart_restored hart msip mtimecmp self.old }
    {
        self.set_msip(hart, msip);
        self.set_mtimecmp(hart, mtimecmp);
    }

    /// The device word at an address, if there is one.
    fn register_at(&self, address: u32) -> Option<Register>
        ensures register { result ≡ register_of address self.now }
        ensures hart { IfSome result (IsOfHart (length self.now.msip)) }
    {
        Register::at(self.harts, address)
    }

    /// Loads a device word.
    fn load_register(&mut self, register: Register) -> u32
        requires { IsOfHart (length self.old.msip) register }
        ensures value { result ≡ value_of register self.old }
        ensures devices { self.new ≡ after_load register self.old }
    {
        match register {
            Register::Msip(hart) => bit(1, self.software_is_pending(hart)),
            Register::MtimecmpLow(hart) => low_half(self.mtimecmp(hart)),
            Register::MtimecmpHigh(hart) => high_half(self.mtimecmp(hart)),
            Register::MtimeLow => low_half(self.mtime),
            Register::MtimeHigh => high_half(self.mtime),
            Register::Receive => self.receive(),
            Register::Status => self.status(),
            Register::InterruptEnable => bit(1, self.interrupt_enable),
            Register::Halt | Register::Transmit => 0,
        }
    }

    /// A hart's mtimecmp, the time from which on its timer interrupt is pending.
    #[inline(always)]
    #[tactic(auto, using(crate::proofs::Harts::harts))]
    pub fn mtimecmp(&self, hart: u32) -> u64
        requires { hart < length self.now.msip }
        ensures { result ≡ get_or self.now.mtimecmp hart 0 }
    {
        let mtimecmp = &self.mtimecmp;
        mtimecmp[hart as usize]
    }

    /// Sets a hart's mtimecmp.
    #[tactic(auto, using(crate::proofs::Harts::harts))]
    fn set_mtimecmp(&mut self, hart: u32, time: u64)
        requires { hart < length self.old.msip }
        ensures { self.new ≡ record self.old { mtimecmp = slice_set self.old.mtimecmp hart time } }
    {
        let mtimecmp = &mut self.mtimecmp;
        mtimecmp[hart as usize] = time;
    }

    /// Sets whether the software interrupt of a hart is pending.
    #[tactic(auto, using(crate::proofs::Harts::harts))]
    fn set_msip(&mut self, hart: u32, pending: bool)
        requires { hart < length self.old.msip }
        ensures { self.new ≡ record self.old { msip = slice_set self.old.msip hart pending } }
    {
        let msip = &mut self.msip;
        msip[hart as usize] = pending;
    }

    /// Takes the oldest byte of input; all ones if none waits.
    fn receive(&mut self) -> u32
        ensures value { result ≡ received self.old.input }
        ensures devices { self.new ≡ record self.old { input = drop 1 self.old.input } }
    {
        match self.input.pop_front() {
            Some(byte) => u32::from(byte),
            None => u32::MAX,
        }
    }

    /// The console's status word.
    fn status(&self) -> u32
        ensures { result ≡ value_of Register.Status self.now }
    {
        bit(1, !self.input.is_empty()) + bit(2, !self.output.is_full()) + bit(4, self.overrun)
    }

    /// Stores a device word.
    fn store_register(&mut self, register: Register, value: u32)
        requires { IsOfHart (length self.old.msip) register }
        ensures { self.new ≡ after_store register value self.old }
    {
        match register {
            Register::Halt => self.halted = Some((value & 0xFF) as u8),
            Register::Msip(hart) => self.set_msip(hart, is_set(value, 0)),
            Register::MtimecmpLow(hart) => {
                self.set_mtimecmp(hart, with_low(self.mtimecmp(hart), value));
            }
            Register::MtimecmpHigh(hart) => {
                self.set_mtimecmp(hart, with_high(self.mtimecmp(hart), value));
            }
            Register::MtimeLow => self.mtime = with_low(self.mtime, value),
            Register::MtimeHigh => self.mtime = with_high(self.mtime, value),
            Register::Transmit => self.send((value & 0xFF) as u8),
            Register::Receive => {}
            Register::Status => self.overrun = self.overrun && !is_set(value, 2),
            Register::InterruptEnable => self.interrupt_enable = is_set(value, 0),
        }
    }

    /// Sends a byte to the console. If the output queue is full, drops the byte and sets overrun.
    fn send(&mut self, byte: u8)
        ensures { self.new ≡ sent byte self.old }
    {
        if self.output.try_push_back(byte).is_err() {
            self.overrun = true;
        }
    }
}

/// The number of steps from time `now` to time `then`, at most `count`; 0 if `then` is not after `now`.
#[inline(always)]
fn steps_between(now: u64, then: u64, count: u32) -> u32
    ensures within { result ≤ count }
    ensures time { 0 < result → now + result ≤ then }
    ensures range { then < 2 ^ 64 }
{
    let left = then.saturating_sub(now);
    if left < u64::from(count) {
        left as u32
    } else {
        count
    }
}
