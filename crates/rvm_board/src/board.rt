//! The board of 1 to 8 harts.

ghost use Rattle.std.specs.List.{range_with_len};
ghost use Rattle.std.specs.Prelude.{◌≡◌, ◌%◌, ◌*◌, ◌^◌, map, ◌<◌, ◌≤◌, ◌++◌, ◌∷◌, [], ◌↔◌, true, false, ◌-◌, length, min, take, drop, IfOk, IfErr, OnOk, OnErr, IsErr, ◌≢◌, None, get_or, replicate};
ghost use Rattle.rvm_mem.specs.Bytes.{slice};
ghost use Rattle.rvm_mem.specs.Pages.{mark_all};
ghost use Rattle.rvm_hart.specs.Bus.{in_ram, ram_base, ram_load};
ghost use Rattle.rvm_hart.specs.Running.{ends_so};
ghost use Rattle.rvm_hart.specs.Straight.{DevicesStay, all_pass, steps};
ghost use Rattle.rvm_hart.specs.Fields.{CanBeHeld, fields_of, is_in_ram, with_number};
ghost use Rattle.rvm_board.specs.declared.error.BoardError.TheVariants.{BadSize};
ghost use Rattle.rvm_board.specs.declared.error.PokeError.TheVariants.{BadHart, OutOfRange};
ghost use Rattle.rvm_board.specs.Pokes.{cleared, register_poked, memory_poked, is_view};
ghost use Rattle.rvm_board.specs.Restored.{hart_restored, restored};
ghost use Rattle.rvm_board.specs.Board.{at_reset, new_hart, hart_at, machine_at, stepped, with_machine, with_input, with_output, is_allowed};

use crate::error::{BoardError, PokeError};
use rvm_dev::{DeviceFields, Devices, InputFull};
use rvm_hart::{Bus, Hart, HartFields, Marks, PC, Ran, Stepped};
use rvm_mem::{Memory, PageSet, PagedMemory};
use rvm_res::Reservations;
use std::alloc::{AllocError, Global};
use std::marker::Model;

/// The most bytes that are written from outside at once, and that a read event or a drain event gives.
pub const VIEW_SIZE: usize = 256;

/// The most harts that a board has.
pub const MAX_HARTS: u32 = rvm_res::MAX_HARTS as u32;

/// Harts, RAM and devices.
#[derive(Drop)]
pub struct Board<M: Memory> {
    pub(crate) harts: Vec<Hart>,
    pub(crate) bus: Bus<M>,
}

impl<M: Memory> Model for Board<M> {
    ghost use Rattle.rvm_board.specs.Board.{BoardState, IsBoard};

    ghost Value = { BoardState };

    ghost view = { λ b. record {
      plain = record { harts = b.harts.items; shared = b.bus.shared };
      dirty = b.bus.dirty;
    } };

    ghost invariant = { λ b. IsBoard (record { harts = b.harts.items; shared = b.bus.shared }) };
}

impl<M: Memory> Board<M> {
    /// A board at reset: each hart starts at `entry` with its number in a0, mtimecmp is all ones, and all else is 0.
    /// RAM is taken unchanged. `BadSize` if there are no harts or more than 8, RAM has no page, or the entry is no
    /// multiple of four; `OutOfMemory` if an allocation fails. Each error returns the RAM.
    pub fn new(alloc: Global, harts: u32, ram: M, entry: u32) -> Result<Board<M>, (BoardError, M)>
        ensures board { IfOk result (λ b. b.plain ≡ at_reset harts entry (M.bytes ram)) }
        ensures dirty { IfOk result (λ b. b.dirty ≡ M.dirty ram) }
        ensures allowed { OnOk result (is_allowed harts entry (M.bytes ram) ≡ true) }
        ensures size { IfErr result
            (λ e. (e.0 ≡ BadSize) ↔ (is_allowed harts entry (M.bytes ram) ≡ false)) }
        ensures ram { IfErr result (λ e. e.1 ≡ ram) }
    {
        if harts == 0 || harts > MAX_HARTS || ram.len() == 0 || entry % 4 != 0 {
            return Err((BoardError::BadSize, ram));
        }
        let Ok(harts_at_reset) = new_harts(alloc, harts, entry) else {
            return Err((BoardError::OutOfMemory, ram));
        };
        let Ok(devices) = Devices::new(alloc, harts) else {
            return Err((BoardError::OutOfMemory, ram));
        };
        let reservations = Reservations::new(harts as usize);
        Ok(Board {
            harts: harts_at_reset,
            bus: Bus::new(ram, devices, reservations),
        })
    }

    /// The number of harts, 1 to 8.
    #[inline(always)]
    pub fn harts(&self) -> u32
        ensures count { result ≡ length self.now.plain.harts }
        ensures some { 0 < result }
        ensures bound { result ≤ 8 }
    {
        self.harts.len() as u32
    }

    /// The status that the board was halted with, if it was.
    #[inline(always)]
    pub fn halted(&self) -> Option<u8>
        ensures { result ≡ self.now.plain.shared.devices.halted }
    {
        self.bus.halted()
    }

    /// The values that a hart keeps.
    pub fn hart_fields(&self, hart: u32) -> HartFields
        requires { hart < length self.now.plain.harts }
        ensures fields { result ≡ fields_of (hart_at hart self.now.plain) }
        ensures held { CanBeHeld result }
        ensures whole { with_number hart result ≡ hart_at hart self.now.plain }
    {
        self.harts[hart as usize].fields()
    }

    /// The word of RAM that a hart has reserved, if any.
    pub fn reserved(&self, hart: u32) -> Option<u32>
        requires { hart < length self.now.plain.harts }
        ensures word { result ≡ get_or self.now.plain.shared.reservations hart None }
        ensures in_ram { is_in_ram (length self.now.plain.shared.bytes) result ≡ true }
    {
        self.bus.reserved(hart)
    }

    /// The RAM, of at least one page.
    pub fn memory(&self) -> &M
        ensures bytes { M.bytes result.now ≡ self.now.plain.shared.bytes }
        ensures dirty { M.dirty result.now ≡ self.now.dirty }
        ensures some { 0 < length self.now.plain.shared.bytes }
    {
        self.bus.memory()
    }

    /// The devices.
    pub fn devices(&self) -> &Devices
        ensures devices { result.now ≡ self.now.plain.shared.devices }
        ensures harts { length self.now.plain.shared.devices.msip ≡ length self.now.plain.harts }
        ensures reservations { length self.now.plain.shared.reservations
            ≡ length self.now.plain.harts }
    {
        self.bus.devices()
    }

    /// Sets what the devices keep for all harts, and the bytes that wait in both queues. Takes no memory.
    pub fn restore(&mut self, fields: DeviceFields, input: &[u8], output: &[u8])
        requires input { length input.now ≤ 16 }
        requires output { length output.now ≤ 4096 }
        ensures { self.new ≡ record self.old {
          plain = restored fields input.now output.now self.old.plain;
        } }
    {
        self.bus.restore(fields, input, output);
    }

    /// Sets what the board keeps for a hart: the hart itself, whether its software interrupt is pending, the value of
    /// mtime from which on its timer interrupt is pending, and its reservation. Takes no memory.
    pub fn restore_hart(
        &mut self,
        hart: u32,
        fields: HartFields,
        msip: bool,
        mtimecmp: u64,
        reserved: Option<u32>,
    )
        requires hart { hart < length self.old.plain.harts }
        requires held { CanBeHeld fields }
        requires in_ram { is_in_ram (length self.old.plain.shared.bytes) reserved ≡ true }
        ensures { self.new ≡ record self.old {
          plain = hart_restored hart fields msip mtimecmp reserved self.old.plain;
        } }
    {
        self.harts[hart as usize] = Hart::restored(hart, fields);
        self.bus.restore_hart(hart, msip, mtimecmp, reserved);
    }

    /// Registers x0 to x31 of a hart, in order.
    pub fn registers(&self, hart: u32) -> &[u32; 32]
        requires { hart < length self.now.plain.harts }
        ensures { result.now ≡ (hart_at hart self.now.plain).regs }
    {
        self.harts[hart as usize].registers()
    }

    /// The address of a hart's next instruction.
    #[inline(always)]
    pub fn pc(&self, hart: u32) -> u32
        requires { hart < length self.now.plain.harts }
        ensures { result ≡ (hart_at hart self.now.plain).pc }
    {
        self.harts[hart as usize].pc()
    }

    /// The number of bytes of RAM: 1 to 4096 whole pages.
    pub fn ram_size(&self) -> u32
        ensures bytes { result ≡ length self.now.plain.shared.bytes }
        ensures pages { result ≡ 4096 * length self.now.dirty }
        ensures some { 0 < result }
        ensures bound { result ≤ 2 ^ 24 }
    {
        self.bus.ram_size()
    }

    /// Makes one step of a hart.
    #[inline(always)]
    pub fn step(&mut self, hart: u32) -> Stepped
        requires { hart < length self.old.plain.harts }
        ensures board { self.new.plain ≡ (stepped hart self.old.plain).board }
        ensures dirty { self.new.dirty
            ≡ mark_all (stepped hart self.old.plain).pages self.old.dirty }
        ensures answer { result ≡ (stepped hart self.old.plain).answer }
    {
        let stepping = &mut self.harts[hart as usize];
        stepping.step(&mut self.bus)
    }

    /// Makes the same step as `step`, on the straight path if possible. `LOOP` is the number of the caller's loop, as
    /// in `Hart::run_straight`.
    #[inline(always)]
    pub fn step_straight<const LOOP: u8>(&mut self, hart: u32) -> Stepped
        requires { hart < length self.old.plain.harts }
        ensures board { self.new.plain ≡ (stepped hart self.old.plain).board }
        ensures dirty { self.new.dirty
            ≡ mark_all (stepped hart self.old.plain).pages self.old.dirty }
        ensures answer { result ≡ (stepped hart self.old.plain).answer }
    {
        let stepping = &mut self.harts[hart as usize];
        stepping.step_straight::<M, LOOP>(&mut self.bus)
    }

    /// Makes at most `count` steps of a hart on the straight path. Ends early before a step whose instruction reaches
    /// more than registers, RAM and reservations, before an interrupt, or, if `watched`, before a step that begins at a
    /// mark. Returns how many are left. `LOOP` is the number of the caller's loop, as in `Hart::run_straight`.
    #[inline(always)]
    pub fn run_straight<const LOOP: u8>(
        &mut self,
        hart: u32,
        count: u32,
        marks: &Marks,
        watched: bool,
    ) -> u32
        requires { hart < length self.old.plain.harts }
        ensures left { result ≤ count }
        ensures board { self.new.plain ≡ with_machine hart
            (steps (count - result) (machine_at hart self.old.plain)).machine self.old.plain }
        ensures dirty { self.new.dirty ≡ mark_all
            (steps (count - result) (machine_at hart self.old.plain)).pages self.old.dirty }
        ensures retired { (steps (count - result) (machine_at hart self.old.plain)).retired ≡ true }
        ensures pass { all_pass watched marks.now (count - result) (machine_at hart self.old.plain)
            ≡ true }
        ensures devices { DevicesStay (count - result) (machine_at hart self.old.plain) }
    {
        let stepping = &mut self.harts[hart as usize];
        let straight = stepping.run_straight::<M, LOOP>(&mut self.bus, count, marks, watched);
        straight.left
    }

    /// Makes at most `count` steps of a hart. Ends early after a step that halts the board or finds it halted, or, if
    /// `watched`, before a step that begins at a mark. `LOOP` is the number of the caller's loop, as in
    /// `Hart::run_straight`.
    #[inline(always)]
    pub fn run<const LOOP: u8>(
        &mut self,
        hart: u32,
        count: u32,
        marks: &Marks,
        watched: bool,
    ) -> Ran
        requires { hart < length self.old.plain.harts }
        ensures left { result.left ≤ count }
        ensures board { self.new.plain ≡ with_machine hart
            (steps (count - result.left) (machine_at hart self.old.plain)).machine self.old.plain }
        ensures dirty { self.new.dirty ≡ mark_all
            (steps (count - result.left) (machine_at hart self.old.plain)).pages self.old.dirty }
        ensures pass { all_pass watched marks.now (count - result.left)
            (machine_at hart self.old.plain) ≡ true }
        ensures ends { ends_so result.halted (count - result.left) (machine_at hart self.old.plain)
            ≡ true }
    {
        let stepping = &mut self.harts[hart as usize];
        stepping.run::<M, LOOP>(&mut self.bus, count, marks, watched)
    }

    /// Gives the console a byte of input. `InputFull`, and nothing changes, if 16 bytes wait.
    pub fn input(&mut self, byte: u8) -> Result<(), InputFull>
        ensures taken { OnOk result (self.new ≡ record self.old {
          plain = with_input (self.old.plain.shared.devices.input ++ byte ∷ []) self.old.plain;
        }) }
        ensures full { IsErr result ↔ (length self.old.plain.shared.devices.input ≡ 16) }
        ensures err { OnErr result (self.new ≡ self.old) }
    {
        self.bus.input(byte)
    }

    /// The number of bytes that the guest sent and that were not taken.
    #[inline(always)]
    pub fn waiting(&self) -> usize
        ensures { result ≡ length self.now.plain.shared.devices.output }
    {
        self.bus.waiting()
    }

    /// Takes the oldest bytes that the guest sent, as many as fit into `bytes`. Returns their number.
    pub fn drain(&mut self, bytes: &mut [u8]) -> usize
        ensures count { result
            ≡ min (length bytes.old) (length self.old.plain.shared.devices.output) }
        ensures bytes { bytes.new
            ≡ take result self.old.plain.shared.devices.output ++ drop result bytes.old }
        ensures board { self.new ≡ record self.old {
          plain = with_output (drop result self.old.plain.shared.devices.output) self.old.plain;
        } }
    {
        self.bus.drain(bytes)
    }

    /// Sets a register of a hart: x0 to x31 by 0 to 31, or pc by 32. Bits 1 and 0 of pc are cleared; a write to x0 is
    /// dropped. `BadHart` if there is no such hart, else `OutOfRange` if there is no such register; then nothing
    /// changes.
    pub fn poke_reg(&mut self, hart: u32, register: u32, value: u32) -> Result<(), PokeError>
        ensures poked { OnOk result (self.new
            ≡ record self.old { plain = register_poked hart register value self.old.plain }) }
        ensures hart { (result ≡ Err BadHart) ↔ (length self.old.plain.harts ≤ hart) }
        ensures range { (result ≡ Err OutOfRange)
            ↔ ((hart < length self.old.plain.harts) × (32 < register)) }
        ensures err { OnErr result (self.new ≡ self.old) }
    {
        if hart as usize >= self.harts.len() {
            return Err(PokeError::BadHart);
        }
        if register > PC {
            return Err(PokeError::OutOfRange);
        }
        let poked = &mut self.harts[hart as usize];
        poked.poke(register, value);
        Ok(())
    }

    /// The word at an aligned address, if it is in RAM.
    pub fn word(&self, address: u32) -> Option<u32>
        requires { address % 4 ≡ 0 }
        ensures { result ≡ ram_load 4 address self.now.plain.shared.bytes }
    {
        self.bus.ram_load32(address)
    }

    /// Reads the bytes of RAM from an address on. `OutOfRange`, and nothing changes, if they are not wholly in RAM.
    pub fn read(&self, address: u32, bytes: &mut [u8]) -> Result<(), rvm_mem::OutOfRange>
        ensures read { OnOk result (bytes.new
            ≡ slice (length bytes.old) (address - ram_base) self.now.plain.shared.bytes) }
        ensures out { IsErr result
            ↔ (in_ram (length bytes.old) address self.now.plain.shared.bytes ≡ false) }
        ensures err { OnErr result (bytes.new ≡ bytes.old) }
    {
        self.bus.read(address, bytes)
    }

    /// Writes 1 to 256 bytes of RAM from an address on, adds their pages to the dirty log, and ends each reservation of
    /// a word that they touch. `OutOfRange`, and nothing changes, if there are no bytes, more than 256, or they are not
    /// wholly in RAM.
    pub fn poke_mem(&mut self, address: u32, bytes: &[u8]) -> Result<(), PokeError>
        ensures poked { OnOk result (self.new ≡ memory_poked address bytes.now self.old) }
        ensures range { (result ≡ Err OutOfRange)
            ↔ (is_view address (length bytes.now) self.old.plain ≡ false) }
        ensures hart { result ≢ Err BadHart }
        ensures err { OnErr result (self.new ≡ self.old) }
    {
        if bytes.is_empty() || bytes.len() > VIEW_SIZE {
            return Err(PokeError::OutOfRange);
        }
        match self.bus.poke(address, bytes) {
            Ok(()) => {}
            Err(_) => return Err(PokeError::OutOfRange),
        }
        Ok(())
    }

    /// Clears RAM to zeros, adds each page to the dirty log, and ends each reservation.
    pub fn clear(&mut self)
        ensures { self.new ≡ cleared self.old }
    {
        self.bus.clear();
    }
}

impl<M: PagedMemory> Board<M> {
    /// Moves the dirty log into `into`, which loses its old pages; the log is then empty.
    pub fn take_dirty(&mut self, into: &mut PageSet)
        requires { length into.old ≡ length self.old.dirty }
        ensures taken { into.new ≡ self.old.dirty }
        ensures board { self.new
            ≡ record self.old { dirty = replicate (length self.old.dirty) false } }
    {
        self.bus.take_dirty(into);
    }
}

/// The harts of a board at reset.
fn new_harts(alloc: Global, count: u32, entry: u32) -> Result<Vec<Hart>, AllocError>
    requires { entry % 4 ≡ 0 }
    ensures { IfOk result (λ harts. harts.items ≡ map (new_hart entry) (range_with_len 0 count)) }
{
    let mut harts = Vec::with_capacity(alloc, count as usize)?;
    for number in 0..count {
        harts.push(Hart::new(number, entry))?;
    }
    Ok(harts)
}
