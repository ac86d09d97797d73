//! What a hart reaches: RAM, devices and reservations.

ghost use Rattle.std.specs.Prelude.{◌≡◌, ◌%◌, ◌<◌, ◌^◌, ◌+◌, ◌*◌, ◌-◌, ◌++◌, ◌∷◌, [], ◌↔◌, length, min, take, drop, IfNone, IfSome, OnOk, OnErr, IsErr, ◌≤◌, false, true, None, get_or, is_some, replicate, Some};
ghost use Rattle.rvm_mem.specs.Bytes.{slice};
ghost use Rattle.rvm_res.specs.Reservations as res;
ghost use Rattle.rvm_dev.specs.Shared.{restored};
ghost use Rattle.rvm_hart.specs.Kinds.{atomic_value};
ghost use Rattle.rvm_hart.specs.Machine.{BusState, with_devices, with_reservations};
ghost use Rattle.rvm_hart.specs.Straight.{based, is_offset};
ghost use Rattle.rvm_hart.specs.Pokes.{bus_cleared, bus_poked, poked_each};
ghost use Rattle.rvm_hart.specs.Fields.{are_in_ram, hart_restored, is_in_ram, is_ram_word};
ghost use Rattle.rvm_hart.specs.Bus.{in_ram, ram_base, ram_load, word_loaded, after_word_load, ram_stored, word_stored, device_stored, left_by, wrote_by, wrote_of, mip_of};

use crate::atomics::Amo;
use crate::outcome::Written;
use crate::straight::offset_of;
use rvm_csr::Interrupts;
use rvm_dev::{DeviceFields, Devices, InputFull, Register};
use rvm_mem::{Memory, OutOfRange, PageSet, PagedMemory, clear_bytes, read_bytes, write_bytes};
use rvm_res::Reservations;
use std::marker::Model;

/// The address of RAM's first byte.
pub const RAM_BASE: u32 = 0x8000_0000;

/// RAM, devices and reservations of one board. Each reservation is of an aligned word of RAM.
#[derive(Drop)]
pub struct Bus<M: Memory> {
    ram: M,
    devices: Devices,
    reservations: Reservations,
}

impl<M: Memory> Model for Bus<M> {
    ghost use Rattle.std.specs.Prelude.{◌≡◌, true, length};
    ghost use Rattle.rvm_hart.specs.Machine.{BusState};
    ghost use Rattle.rvm_hart.specs.Fields.{are_in_ram};

    ghost Value = { BusState };

    ghost view = { λ b. record {
      shared = record { bytes = M.bytes b.ram; devices = b.devices; reservations = b.reservations };
      dirty = M.dirty b.ram;
    } };

    ghost invariant = { λ b. are_in_ram (length (M.bytes b.ram)) b.reservations ≡ true };
}

impl<M: Memory> Bus<M> {
    /// The bus of these parts.
    pub fn new(ram: M, devices: Devices, reservations: Reservations) -> Bus<M>
        requires { are_in_ram (length (M.bytes ram)) reservations ≡ true }
        ensures { result ≡ record {
          shared = record { bytes = M.bytes ram; devices = devices; reservations = reservations };
          dirty = M.dirty ram;
        } }
    {
        Bus {
            ram,
            devices,
            reservations,
        }
    }

    /// The devices.
    pub fn devices(&self) -> &Devices
        ensures { result.now ≡ self.now.shared.devices }
    {
        &self.devices
    }

    /// The RAM.
    pub fn memory(&self) -> &M
        ensures bytes { M.bytes result.now ≡ self.now.shared.bytes }
        ensures dirty { M.dirty result.now ≡ self.now.dirty }
    {
        &self.ram
    }

    /// The word that a hart has reserved, if any.
    pub fn reserved(&self, hart: u32) -> Option<u32>
        requires { hart < length self.now.shared.reservations }
        ensures word { result ≡ get_or self.now.shared.reservations hart None }
        ensures in_ram { is_in_ram (length self.now.shared.bytes) result ≡ true }
    {
        self.reservations.reserved(hart as usize)
    }

    /// Sets what the devices keep for all harts, and the bytes that wait in both queues of the console.
    pub fn restore(&mut self, fields: DeviceFields, input: &[u8], output: &[u8])
        requires input { length input.now ≤ 16 }
        requires output { length output.now ≤ 4096 }
        ensures { self.new ≡ with_devices (restored fields input.now output.now self.old.shared.devices) self.old }
    {
        self.devices.restore(fields, input, output);
    }

    /// Sets what the devices keep for one hart, and its reservation.
    pub fn restore_hart(&mut self, hart: u32, msip: bool, mtimecmp: u64, reserved: Option<u32>)
        requires reservations { hart < length self.old.shared.reservations }
        requires devices { hart < length self.old.shared.devices.msip }
        requires in_ram { is_in_ram (length self.old.shared.bytes) reserved ≡ true }
        ensures { self.new ≡ record self.old { shared = hart_restored hart msip mtimecmp reserved self.old.shared } }
    {
        self.devices.restore_hart(hart, msip, mtimecmp);
        self.reservations.restore(hart as usize, reserved);
    }

    /// The status that the board was halted with, if it was.
    #[inline(always)]
    pub fn halted(&self) -> Option<u8>
        ensures { result ≡ self.now.shared.devices.halted }
    {
        self.devices.halted()
    }

    /// The interrupts that are pending at a hart, as mip shows them (Privileged ISA, "Machine Interrupt (mip and mie)
    /// Registers").
    #[inline(always)]
    pub fn interrupts(&self, hart: u32) -> Interrupts
        requires { hart < length self.now.shared.devices.msip }
        ensures { result ≡ mip_of hart self.now.shared.devices }
    {
        Interrupts {
            software: self.devices.software_is_pending(hart),
            timer: self.devices.timer_is_pending(hart),
            external: self.devices.external_is_pending(hart),
        }
    }

    /// Advances mtime by one step, modulo 2 ^ 64.
    #[inline(always)]
    pub fn tick(&mut self)
        ensures { self.new ≡ with_devices (record self.old.shared.devices { mtime = (self.old.shared.devices.mtime + 1) % 2 ^ 64 })
            self.old }
    {
        self.devices.tick();
    }

    /// Advances mtime by this many steps, modulo 2 ^ 64.
    #[inline(always)]
    pub fn tick_many(&mut self, steps: u32)
        ensures { self.new ≡ with_devices
            (record self.old.shared.devices { mtime = (self.old.shared.devices.mtime + steps) % 2 ^ 64 }) self.old }
    {
        self.devices.tick_many(steps);
    }

    /// The number of steps, at most `count`, that can be made before mtime reaches a hart's mtimecmp.
    #[inline(always)]
    pub fn steps_to_timer(&self, hart: u32, count: u32) -> u32
        requires { hart < length self.now.shared.devices.msip }
        ensures within { result ≤ count }
        ensures time { 0 < result → self.now.shared.devices.mtime + result
            ≤ get_or self.now.shared.devices.mtimecmp hart 0 }
        ensures range { get_or self.now.shared.devices.mtimecmp hart 0 < 2 ^ 64 }
    {
        self.devices.steps_to_timer(hart, count)
    }

    /// Gives the console a byte of input. `InputFull`, and nothing changes, if 16 bytes wait.
    pub fn input(&mut self, byte: u8) -> Result<(), InputFull>
        ensures taken { OnOk result (self.new ≡ with_devices
            (record self.old.shared.devices { input = self.old.shared.devices.input ++ byte ∷ [] }) self.old) }
        ensures full { IsErr result ↔ (length self.old.shared.devices.input ≡ 16) }
        ensures err { OnErr result (self.new ≡ self.old) }
    {
        self.devices.input(byte)
    }

    /// Takes the oldest bytes that the guest sent, as many as fit into `bytes`. Returns their number.
    pub fn drain(&mut self, bytes: &mut [u8]) -> usize
        ensures count { result ≡ min (length bytes.old) (length self.old.shared.devices.output) }
        ensures bytes { bytes.new
            ≡ take result self.old.shared.devices.output ++ drop result bytes.old }
        ensures bus { self.new ≡ with_devices
            (record self.old.shared.devices { output = drop result self.old.shared.devices.output }) self.old }
    {
        self.devices.drain(bytes)
    }

    /// The number of bytes that the guest sent and that were not taken.
    #[inline(always)]
    pub fn waiting(&self) -> usize
        ensures { result ≡ length self.now.shared.devices.output }
    {
        self.devices.waiting()
    }

    /// The byte at an address, if it is in RAM.
    #[inline(always)]
    pub fn ram_load8(&self, address: u32) -> Option<u8>
        ensures { result ≡ ram_load 1 address self.now.shared.bytes }
    {
        self.ram_byte(offset_of(address))
    }

    /// The two bytes at an aligned address, if they are in RAM.
    #[inline(always)]
    pub fn ram_load16(&self, address: u32) -> Option<u16>
        requires { address % 2 ≡ 0 }
        ensures { result ≡ ram_load 2 address self.now.shared.bytes }
    {
        self.ram_half(offset_of(address))
    }

    /// The word at an aligned address, if it is in RAM.
    #[inline(always)]
    pub fn ram_load32(&self, address: u32) -> Option<u32>
        requires { address % 4 ≡ 0 }
        ensures { result ≡ ram_load 4 address self.now.shared.bytes }
    {
        self.ram_word(offset_of(address))
    }

    /// The word at an aligned offset from RAM's first byte, if it is in RAM.
    #[inline(always)]
    #[tactic(auto, unfolding(crate::specs::Straight::based))]
    pub(crate) fn ram_word(&self, at: u32) -> Option<u32>
        requires { at % 4 ≡ 0 }
        ensures { result ≡ ram_load 4 (based at) self.now.shared.bytes }
    {
        if self.ram.has(at) {
            Some(self.ram.load32(at))
        } else {
            None
        }
    }

    /// The word at an aligned offset from RAM's first byte, if it is in RAM. The offset has 64 bits, so that the
    /// compiler need not narrow it: a host instruction of each step.
    #[inline(always)]
    #[tactic(auto, unfolding(crate::specs::Straight::based, crate::specs::Straight::is_offset))]
    pub(crate) fn fetch(&self, at: u64) -> Option<u32>
        requires { at % 4 ≡ 0 }
        ensures word { IfSome result (λ word. ram_load 4 (based at) self.now.shared.bytes ≡ Some word) }
        ensures none { is_offset at ≡ true → result ≡ ram_load 4 (based at) self.now.shared.bytes }
    {
        self.ram.try_load32(at)
    }

    /// The byte at an offset from RAM's first byte, if it is in RAM.
    #[inline(always)]
    #[tactic(auto, unfolding(crate::specs::Straight::based))]
    pub(crate) fn ram_byte(&self, at: u32) -> Option<u8>
        ensures { result ≡ ram_load 1 (based at) self.now.shared.bytes }
    {
        if self.ram.has(at) {
            Some(self.ram.load8(at))
        } else {
            None
        }
    }

    /// The two bytes at an aligned offset from RAM's first byte, if they are in RAM.
    #[inline(always)]
    #[tactic(auto, unfolding(crate::specs::Straight::based))]
    pub(crate) fn ram_half(&self, at: u32) -> Option<u16>
        requires { at % 2 ≡ 0 }
        ensures { result ≡ ram_load 2 (based at) self.now.shared.bytes }
    {
        if self.ram.has(at) {
            Some(self.ram.load16(at))
        } else {
            None
        }
    }

    /// Loads the word at an aligned address, of RAM or a device; none if neither has it. A load may change the device.
    #[inline(always)]
    pub fn load32(&mut self, address: u32) -> Option<u32>
        requires { address % 4 ≡ 0 }
        ensures value { result ≡ word_loaded address self.old.shared }
        ensures bus { self.new ≡ record self.old { shared = after_word_load address self.old.shared } }
        ensures none { IfNone result (self.new ≡ self.old) }
    {
        let at = address.wrapping_sub(RAM_BASE);
        if self.ram.has(at) {
            Some(self.ram.load32(at))
        } else {
            self.devices.load(address)
        }
    }

    /// Stores a byte of RAM for hart `hart`. False, and nothing changes, if the address is not in RAM.
    #[inline(always)]
    pub fn ram_store8(&mut self, hart: u32, address: u32, value: u8) -> bool
        requires { hart < length self.old.shared.reservations }
        ensures bus { self.new ≡ left_by (ram_stored 1 hart address value self.old.shared) self.old }
        ensures stored { result ≡ is_some (ram_stored 1 hart address value self.old.shared) }
    {
        self.store_byte(hart, offset_of(address), value)
    }

    /// Stores two bytes of RAM at an aligned address for hart `hart`. False, and nothing changes, if the address is not
    /// in RAM.
    #[inline(always)]
    pub fn ram_store16(&mut self, hart: u32, address: u32, value: u16) -> bool
        requires aligned { address % 2 ≡ 0 }
        requires hart { hart < length self.old.shared.reservations }
        ensures bus { self.new ≡ left_by (ram_stored 2 hart address value self.old.shared) self.old }
        ensures stored { result ≡ is_some (ram_stored 2 hart address value self.old.shared) }
    {
        self.store_half(hart, offset_of(address), value)
    }

    /// Stores a word of RAM at an aligned address for hart `hart`. False, and nothing changes, if the address is not in
    /// RAM.
    #[inline(always)]
    pub fn ram_store32(&mut self, hart: u32, address: u32, value: u32) -> bool
        requires aligned { address % 4 ≡ 0 }
        requires hart { hart < length self.old.shared.reservations }
        ensures bus { self.new ≡ left_by (ram_stored 4 hart address value self.old.shared) self.old }
        ensures stored { result ≡ is_some (ram_stored 4 hart address value self.old.shared) }
    {
        self.store_word(hart, offset_of(address), value)
    }

    /// Stores a byte of RAM at an offset from its first byte for hart `hart`. False, and nothing changes, if the offset
    /// is not in RAM.
    #[inline(always)]
    #[tactic(auto, unfolding(crate::specs::Straight::based))]
    pub(crate) fn store_byte(&mut self, hart: u32, at: u32, value: u8) -> bool
        requires { hart < length self.old.shared.reservations }
        ensures bus { self.new ≡ left_by (ram_stored 1 hart (based at) value self.old.shared) self.old }
        ensures stored { result ≡ is_some (ram_stored 1 hart (based at) value self.old.shared) }
    {
        if !self.ram.has(at) {
            return false;
        }
        self.ram.store8(at, value);
        self.reservations
            .stored(hart as usize, at.wrapping_add(RAM_BASE));
        true
    }

    /// Stores two bytes of RAM at an aligned offset from its first byte for hart `hart`. False, and nothing changes, if
    /// the offset is not in RAM.
    #[inline(always)]
    #[tactic(auto, unfolding(crate::specs::Straight::based))]
    pub(crate) fn store_half(&mut self, hart: u32, at: u32, value: u16) -> bool
        requires aligned { at % 2 ≡ 0 }
        requires hart { hart < length self.old.shared.reservations }
        ensures bus { self.new ≡ left_by (ram_stored 2 hart (based at) value self.old.shared) self.old }
        ensures stored { result ≡ is_some (ram_stored 2 hart (based at) value self.old.shared) }
    {
        if !self.ram.has(at) {
            return false;
        }
        self.ram.store16(at, value);
        self.reservations
            .stored(hart as usize, at.wrapping_add(RAM_BASE));
        true
    }

    /// Stores a word of RAM at an aligned offset from its first byte for hart `hart`. False, and nothing changes, if
    /// the offset is not in RAM.
    #[inline(always)]
    #[tactic(auto, unfolding(crate::specs::Straight::based))]
    pub(crate) fn store_word(&mut self, hart: u32, at: u32, value: u32) -> bool
        requires aligned { at % 4 ≡ 0 }
        requires hart { hart < length self.old.shared.reservations }
        ensures bus { self.new ≡ left_by (ram_stored 4 hart (based at) value self.old.shared) self.old }
        ensures stored { result ≡ is_some (ram_stored 4 hart (based at) value self.old.shared) }
    {
        if !self.ram.has(at) {
            return false;
        }
        self.ram.store32(at, value);
        self.reservations
            .stored(hart as usize, at.wrapping_add(RAM_BASE));
        true
    }

    /// Stores a word at an aligned address, in RAM or a device, for hart `hart`. Returns what it wrote; none, and
    /// nothing changes, if neither has the address.
    #[inline(always)]
    pub fn store32(&mut self, hart: u32, address: u32, value: u32) -> Option<Written>
        requires aligned { address % 4 ≡ 0 }
        requires hart { hart < length self.old.shared.reservations }
        ensures bus { self.new ≡ left_by (word_stored hart address value self.old.shared) self.old }
        ensures wrote { result ≡ wrote_by (word_stored hart address value self.old.shared) }
    {
        let at = address.wrapping_sub(RAM_BASE);
        if self.ram.has(at) {
            self.ram.store32(at, value);
            self.reservations.stored(hart as usize, address);
            Some(Written::Other)
        } else {
            self.store_device(address, value)
        }
    }

    /// Reads the bytes of RAM from an address on, from outside. `OutOfRange`, and nothing changes, if they are not
    /// wholly in RAM.
    pub fn read(&self, address: u32, bytes: &mut [u8]) -> Result<(), OutOfRange>
        ensures read { OnOk result (bytes.new
            ≡ slice (length bytes.old) (address - ram_base) self.now.shared.bytes) }
        ensures out { IsErr result
            ↔ (in_ram (length bytes.old) address self.now.shared.bytes ≡ false) }
        ensures err { OnErr result (bytes.new ≡ bytes.old) }
    {
        if address < RAM_BASE || address - RAM_BASE > self.ram.len() {
            return Err(OutOfRange);
        }
        read_bytes(&self.ram, address - RAM_BASE, bytes)
    }

    /// Writes bytes of RAM from an address on, from outside. Adds their pages to the dirty log, and ends each
    /// reservation of a word that they touch. `OutOfRange`, and nothing changes, if they are not wholly in RAM.
    pub fn poke(&mut self, address: u32, bytes: &[u8]) -> Result<(), OutOfRange>
        ensures poked { OnOk result (self.new ≡ bus_poked address bytes.now self.old) }
        ensures out { IsErr result
            ↔ (in_ram (length bytes.now) address self.old.shared.bytes ≡ false) }
        ensures err { OnErr result (self.new ≡ self.old) }
    {
        if address < RAM_BASE || address - RAM_BASE > self.ram.len() {
            return Err(OutOfRange);
        }
        write_bytes(&mut self.ram, address - RAM_BASE, bytes)?;
        poke_each(&mut self.reservations, address, bytes.len());
        Ok(())
    }

    /// The number of bytes of RAM: at most 4096 whole pages.
    pub fn ram_size(&self) -> u32
        ensures bytes { result ≡ length self.now.shared.bytes }
        ensures pages { result ≡ 4096 * length self.now.dirty }
        ensures bound { result ≤ 2 ^ 24 }
    {
        self.ram.len()
    }

    /// Clears RAM to zeros, adds each page to the dirty log, and ends each reservation.
    pub fn clear(&mut self)
        ensures { self.new ≡ bus_cleared self.old }
    {
        clear_bytes(&mut self.ram);
        self.reservations.clear();
    }

    /// Stores a word in a device. Returns what it wrote; none, and nothing changes, if no device has the address.
    #[cold]
    #[inline(never)]
    fn store_device(&mut self, address: u32, value: u32) -> Option<Written>
        ensures bus { self.new ≡ left_by (device_stored address value self.old.shared) self.old }
        ensures wrote { result ≡ wrote_by (device_stored address value self.old.shared) }
    {
        let register = self.devices.store(address, value)?;
        Some(written_by(register, value))
    }

    /// Makes an AMO on the word of RAM at an aligned address for hart `hart`. Returns the old word; none, and nothing
    /// changes, if the address is not in RAM. It is a function of its own, so that it costs other instructions nothing.
    #[inline(never)]
    pub(crate) fn exchange(
        &mut self,
        hart: u32,
        operation: Amo,
        address: u32,
        source: u32,
    ) -> Option<u32>
        requires aligned { address % 4 ≡ 0 }
        requires hart { hart < length self.old.shared.reservations }
        ensures old { result ≡ ram_load 4 address self.old.shared.bytes }
        ensures bus { IfSome result (λ old. self.new
            ≡ left_by (ram_stored 4 hart address (atomic_value operation old source) self.old.shared) self.old) }
        ensures none { IfNone result (self.new ≡ self.old) }
    {
        match self.ram_load32(address) {
            Some(old) => {
                let _ = self.ram_store32(hart, address, operation.of(old, source));
                Some(old)
            }
            None => None,
        }
    }

    /// Reserves the word of RAM at an aligned address for a hart.
    #[inline(always)]
    pub fn hold(&mut self, hart: u32, address: u32)
        requires hart { hart < length self.old.shared.reservations }
        requires word { is_ram_word (length self.old.shared.bytes) address ≡ true }
        ensures { self.new ≡ with_reservations (res.held hart address self.old.shared.reservations) self.old }
    {
        self.reservations.hold(hart as usize, address);
    }

    /// Ends a hart's reservation. Returns whether it was for the word at an address.
    #[inline(always)]
    pub fn take(&mut self, hart: u32, address: u32) -> bool
        requires hart { hart < length self.old.shared.reservations }
        requires aligned { address % 4 ≡ 0 }
        ensures bus { self.new ≡ with_reservations (res.released hart self.old.shared.reservations) self.old }
        ensures takes { result ≡ res.holds hart address self.old.shared.reservations }
    {
        self.reservations.take(hart as usize, address)
    }
}

impl<M: PagedMemory> Bus<M> {
    /// Moves the dirty log into `into`, which loses its old pages; the log is then empty.
    pub fn take_dirty(&mut self, into: &mut PageSet)
        requires { length into.old ≡ length self.old.dirty }
        ensures taken { into.new ≡ self.old.dirty }
        ensures bus { self.new
            ≡ record self.old { dirty = replicate (length self.old.dirty) false } }
    {
        self.ram.take_dirty(into);
    }
}

/// What a store to a device's register wrote.
fn written_by(register: Register, value: u32) -> Written
    ensures { result ≡ wrote_of register value }
{
    match register {
        Register::Halt => Written::Halt((value & 0xFF) as u8),
        Register::MtimeLow | Register::MtimeHigh => Written::Mtime,
        _ => Written::Other,
    }
}

/// Ends the reservations of the words that `count` bytes from an address on touch.
fn poke_each(reservations: &mut Reservations, address: u32, count: usize)
    requires { address + count ≤ 2 ^ 32 }
    ensures { reservations.new ≡ poked_each address count reservations.old }
{
    for i in 0..count {
        reservations.poked(address + i as u32);
    }
}
