//! A board with its breakpoints.

ghost use Rattle.std.specs.Prelude.{◌≡◌, ◌<◌, ◌≤◌, ◌++◌, ◌∷◌, [], ◌↔◌, false, length, min, take, drop, replicate, OnOk, OnErr, IsErr, get_or, MatchOption, refl};
ghost use Rattle.rvm_mem.specs.Pages.{mark_all};
ghost use Rattle.rvm_board.specs.Board.{hart_at, with_input, with_output};
ghost use Rattle.rvm_board.specs.Guest.{fresh, is_in};
ghost use Rattle.rvm_board.specs.Events.{answered, clears_breakpoint, drains, pc_of, sets_breakpoint, sets_register, step_reply, steps, steps_if_there, stops, takes_input, tells_bytes, tells_line, tells_registers, with_board, with_stopped, writes_bytes};

use crate::board::{Board, MAX_HARTS, VIEW_SIZE};
use crate::breakpoints::Breakpoints;
use crate::error::PokeError;
use crate::event::{BoardEvent, BoardRefusal, BoardReply};
use crate::view::View;
use arrayvec::ArrayVec;
use rvm_dev::InputFull;
use rvm_hart::{PC, Stepped};
use rvm_mem::{DirtyLog, Memory, PageSet, PagedMemory};
use std::marker::Model;

/// The most harts that a board has.
pub(crate) const HARTS: usize = MAX_HARTS as usize;

/// A board with at most 64 breakpoints. A hart that comes to one stops there once instead of
/// stepping, and steps in its next turn.
#[derive(Drop)]
pub struct Debugged<M: Memory> {
    pub(crate) board: Board<M>,
    pub(crate) breakpoints: Breakpoints,
    /// For each hart, whether it stopped at its pc and has not stepped since.
    pub(crate) stopped: ArrayVec<bool, HARTS>,
}

impl<M: Memory> Model for Debugged<M> {
    ghost use Rattle.std.specs.Prelude.{◌≡◌, length};
    ghost use Rattle.rvm_board.specs.Guest.{GuestState};

    ghost Value = { GuestState };

    ghost view = { λ d. record {
      guest = record {
        board = d.board.plain;
        breakpoints = d.breakpoints;
        stopped = d.stopped.items;
      };
      dirty = d.board.dirty;
    } };

    ghost invariant = { λ d. length d.stopped.items ≡ length d.board.plain.harts };
}

impl<M: Memory> Debugged<M> {
    /// A board without breakpoints.
    pub fn new(board: Board<M>) -> Debugged<M>
        ensures guest { result.guest ≡ fresh board.plain }
        ensures dirty { result.dirty ≡ board.dirty }
    {
        let stopped = none_of(board.harts());
        Debugged {
            board,
            breakpoints: Breakpoints::new(),
            stopped,
        }
    }

    /// The number of harts, 1 to 8.
    #[inline(always)]
    pub fn harts(&self) -> u32
        ensures count { result ≡ length self.now.guest.board.harts }
        ensures some { 0 < result }
        ensures bound { result ≤ 8 }
    {
        self.board.harts()
    }

    /// The address of the next instruction of a hart.
    #[inline(always)]
    pub fn pc(&self, hart: u32) -> u32
        requires { hart < length self.now.guest.board.harts }
        ensures { result ≡ pc_of hart self.now.guest }
    {
        self.board.pc(hart)
    }

    /// The RAM, of at least one page.
    pub fn memory(&self) -> &M
        ensures bytes { M.bytes result.now ≡ self.now.guest.board.shared.bytes }
        ensures dirty { M.dirty result.now ≡ self.now.dirty }
        ensures some { 0 < length self.now.guest.board.shared.bytes }
    {
        self.board.memory()
    }

    /// Makes one step of a hart. Returns none if the hart stopped at a breakpoint instead.
    #[inline(always)]
    pub fn step(&mut self, hart: u32) -> Option<Stepped>
        requires { hart < length self.old.guest.board.harts }
        ensures guest { self.new.guest ≡ (steps hart self.old.guest).guest }
        ensures dirty { self.new.dirty ≡ mark_all (steps hart self.old.guest).pages self.old.dirty }
        ensures answer { step_reply (pc_of hart self.old.guest) result
            ≡ (steps hart self.old.guest).reply }
    {
        if self.may_stop(hart) && self.stop(hart) {
            return None;
        }
        Some(self.board.step(hart))
    }

    /// Whether a hart may stop instead of its next step, or stands at a breakpoint. False is
    /// certain.
    #[inline(always)]
    pub(crate) fn may_stop(&self, hart: u32) -> bool
        requires { hart < length self.now.guest.board.harts }
        ensures { result ≡ false
            → (is_in (pc_of hart self.now.guest) self.now.guest.breakpoints ≡ false)
            × (get_or self.now.guest.stopped hart false ≡ false) }
    {
        self.breakpoints.may_have(self.board.pc(hart)) || self.stopped[hart as usize]
    }

    /// Whether a hart stops instead of its next step. Notes that it then stands at its breakpoint,
    /// or else at none. A hart of a halted board does not stop, and nothing changes.
    #[cold]
    #[inline(never)]
    pub(crate) fn stop(&mut self, hart: u32) -> bool
        requires { hart < length self.old.guest.board.harts }
        ensures { MatchOption self.old.guest.board.shared.devices.halted
            ((result ≡ stops hart self.old.guest) × (self.new ≡ record self.old {
              guest = with_stopped hart result self.old.guest;
            }))
            (λ status. (result ≡ false) × (self.new ≡ self.old)) }
    {
        if self.board.halted().is_some() {
            return false;
        }
        let stopped = &mut self.stopped;
        let stops = self.breakpoints.has(self.board.pc(hart)) && !stopped[hart as usize];
        stopped[hart as usize] = stops;
        stops
    }

    /// Gives the console a byte of input. `InputFull`, and nothing changes, if 16 bytes wait.
    pub fn input(&mut self, byte: u8) -> Result<(), InputFull>
        ensures taken { OnOk result (self.new ≡ record self.old {
          guest = with_board
              (with_input (self.old.guest.board.shared.devices.input ++ byte ∷ []) self.old.guest.board)
              self.old.guest;
        }) }
        ensures full { IsErr result ↔ (length self.old.guest.board.shared.devices.input ≡ 16) }
        ensures err { OnErr result (self.new ≡ self.old) }
    {
        self.board.input(byte)
    }

    /// The number of bytes that the guest sent and that were not taken.
    #[inline(always)]
    pub fn waiting(&self) -> usize
        ensures { result ≡ length self.now.guest.board.shared.devices.output }
    {
        self.board.waiting()
    }

    /// Takes the oldest bytes that the guest sent, as many as fit into `bytes`. Returns their
    /// number.
    pub fn drain(&mut self, bytes: &mut [u8]) -> usize
        ensures count { result
            ≡ min (length bytes.old) (length self.old.guest.board.shared.devices.output) }
        ensures bytes { bytes.new
            ≡ take result self.old.guest.board.shared.devices.output ++ drop result bytes.old }
        ensures guest { self.new ≡ record self.old {
          guest = with_board
              (with_output (drop result self.old.guest.board.shared.devices.output)
              self.old.guest.board)
              self.old.guest;
        } }
    {
        self.board.drain(bytes)
    }

    /// Does what an event asks for, and answers it. Takes no memory.
    pub fn apply(&mut self, event: BoardEvent) -> BoardReply
        ensures guest { self.new.guest ≡ (answered event self.old.guest).guest }
        ensures dirty { self.new.dirty
            ≡ mark_all (answered event self.old.guest).pages self.old.dirty }
        ensures reply { result ≡ (answered event self.old.guest).reply }
    {
        match event {
            BoardEvent::Step(hart) => self.step_if_there(hart),
            BoardEvent::Input(byte) => self.take_input(byte),
            BoardEvent::Drain(count) => self.drain_some(count),
            BoardEvent::Break(address) => self.set_breakpoint(address),
            BoardEvent::Clear(address) => self.clear_breakpoint(address),
            BoardEvent::Regs(hart) => self.registers(hart),
            BoardEvent::Mem { address, length } => self.bytes(address, length),
            BoardEvent::Dis(address) => self.line(address),
            BoardEvent::PokeReg {
                hart,
                register,
                value,
            } => self.set_register(hart, register, value),
            BoardEvent::PokeMem { address, bytes } => self.write_bytes(address, &bytes),
        }
    }

    /// Makes a step of a hart, if there is one of this number.
    #[inline(always)]
    fn step_if_there(&mut self, hart: u32) -> BoardReply
        ensures guest { self.new.guest ≡ (steps_if_there hart self.old.guest).guest }
        ensures dirty { self.new.dirty
            ≡ mark_all (steps_if_there hart self.old.guest).pages self.old.dirty }
        ensures reply { result ≡ (steps_if_there hart self.old.guest).reply }
    {
        if hart >= self.harts() {
            return BoardReply::Refused(BoardRefusal::BadHart);
        }
        let pc = self.pc(hart);
        match self.step(hart) {
            None => BoardReply::Break(pc),
            Some(stepped) => BoardReply::of_step(stepped),
        }
    }

    /// Gives the console a byte of input, if fewer than 16 wait.
    #[inline(never)]
    fn take_input(&mut self, byte: u8) -> BoardReply
        ensures guest { self.new.guest ≡ (takes_input byte self.old.guest).guest }
        ensures dirty { self.new.dirty ≡ self.old.dirty }
        ensures reply { result ≡ (takes_input byte self.old.guest).reply }
    {
        match self.board.input(byte) {
            Ok(()) => BoardReply::Done,
            Err(_) => BoardReply::Refused(BoardRefusal::InputFull),
        }
    }

    /// Takes the oldest bytes that the guest sent, at most `count`. Refuses more than 256.
    #[inline(never)]
    fn drain_some(&mut self, count: u32) -> BoardReply
        ensures guest { self.new.guest ≡ (drains count self.old.guest).guest }
        ensures dirty { self.new.dirty ≡ self.old.dirty }
        ensures reply { result ≡ (drains count self.old.guest).reply }
    {
        if count as usize > VIEW_SIZE {
            return BoardReply::Refused(BoardRefusal::OutOfRange);
        }
        if self.board.waiting() == 0 {
            return BoardReply::Bytes(View::empty());
        }
        let mut bytes = [0; VIEW_SIZE];
        let taken = self.board.drain(&mut bytes[..count as usize]);
        BoardReply::Bytes(View::of(&bytes[..taken]))
    }

    /// Sets a breakpoint at an address. Refuses it if 64 others are set.
    #[inline(never)]
    fn set_breakpoint(&mut self, address: u32) -> BoardReply
        ensures guest { self.new.guest ≡ (sets_breakpoint address self.old.guest).guest }
        ensures dirty { self.new.dirty ≡ self.old.dirty }
        ensures reply { result ≡ (sets_breakpoint address self.old.guest).reply }
    {
        match self.breakpoints.set(address) {
            Ok(()) => BoardReply::Done,
            Err(_) => BoardReply::Refused(BoardRefusal::TooManyBreaks),
        }
    }

    /// Removes the breakpoint at an address, if there is one.
    #[inline(never)]
    fn clear_breakpoint(&mut self, address: u32) -> BoardReply
        ensures guest { self.new.guest ≡ (clears_breakpoint address self.old.guest).guest }
        ensures dirty { self.new.dirty ≡ self.old.dirty }
        ensures reply { result ≡ (clears_breakpoint address self.old.guest).reply }
    {
        self.breakpoints.clear(address);
        BoardReply::Done
    }

    /// The registers of a hart, if there is one of this number.
    #[inline(never)]
    fn registers(&self, hart: u32) -> BoardReply
        ensures { result ≡ (tells_registers hart self.now.guest).reply }
    {
        if hart >= self.harts() {
            return BoardReply::Refused(BoardRefusal::BadHart);
        }
        BoardReply::Regs(self.registers_of(hart))
    }

    /// Registers x0 to x31, then pc, of a hart.
    fn registers_of(&self, hart: u32) -> [u32; 33]
        requires { hart < length self.now.guest.board.harts }
        ensures { result ≡ (hart_at hart self.now.guest.board).regs ++ pc_of hart self.now.guest ∷ [] }
    {
        let mut registers = [0; 33];
        registers[..32].copy_from_slice(self.board.registers(hart));
        registers[32] = self.board.pc(hart);
        registers
    }

    /// The bytes of RAM from an address on. Refuses a length outside 1 to 256, and a range that is
    /// not wholly in RAM.
    #[inline(never)]
    fn bytes(&self, address: u32, length: u32) -> BoardReply
        ensures { result ≡ (tells_bytes address length self.now.guest).reply }
    {
        let mut bytes = [0; VIEW_SIZE];
        if length == 0 || length as usize > VIEW_SIZE {
            return BoardReply::Refused(BoardRefusal::OutOfRange);
        }
        match self.board.read(address, &mut bytes[..length as usize]) {
            Ok(()) => BoardReply::Bytes(View::of(&bytes[..length as usize])),
            Err(_) => BoardReply::Refused(BoardRefusal::OutOfRange),
        }
    }

    /// The word of RAM at an address. Refuses one that is no multiple of four or not in RAM.
    #[inline(never)]
    fn line(&self, address: u32) -> BoardReply
        ensures { result ≡ (tells_line address self.now.guest).reply }
    {
        if address % 4 != 0 {
            return BoardReply::Refused(BoardRefusal::OutOfRange);
        }
        match self.board.word(address) {
            Some(word) => BoardReply::Line { address, word },
            None => BoardReply::Refused(BoardRefusal::OutOfRange),
        }
    }

    /// Sets a register of a hart. A hart whose pc is set no longer stands at a breakpoint.
    #[inline(never)]
    fn set_register(&mut self, hart: u32, register: u32, value: u32) -> BoardReply
        ensures guest { self.new.guest ≡ (sets_register hart register value self.old.guest).guest }
        ensures dirty { self.new.dirty ≡ self.old.dirty }
        ensures reply { result ≡ (sets_register hart register value self.old.guest).reply }
    {
        match self.board.poke_reg(hart, register, value) {
            Ok(()) => {}
            Err(PokeError::BadHart) => return BoardReply::Refused(BoardRefusal::BadHart),
            Err(PokeError::OutOfRange) => return BoardReply::Refused(BoardRefusal::OutOfRange),
        }
        if register == PC {
            let stopped = &mut self.stopped;
            stopped[hart as usize] = false;
        }
        BoardReply::Done
    }

    /// Writes bytes of RAM from an address on. Refuses a write of no bytes, and one of a range that
    /// is not wholly in RAM.
    #[inline(never)]
    fn write_bytes(&mut self, address: u32, bytes: &View) -> BoardReply
        ensures guest { self.new.guest ≡ (writes_bytes address bytes.now self.old.guest).guest }
        ensures dirty { self.new.dirty
            ≡ mark_all (writes_bytes address bytes.now self.old.guest).pages self.old.dirty }
        ensures reply { result ≡ (writes_bytes address bytes.now self.old.guest).reply }
    {
        match self.board.poke_mem(address, bytes.as_slice()) {
            Ok(()) => BoardReply::Done,
            Err(_) => BoardReply::Refused(BoardRefusal::OutOfRange),
        }
    }
}

impl<M: PagedMemory> DirtyLog for Debugged<M> {
    ghost log = { λ d. d.dirty };

    ghost beside = { λ old new. new.guest ≡ old.guest };

    ghost beside_same = { λ d. refl };

    fn peek_dirty(&self, first: u32) -> u64 {
        PagedMemory::peek_dirty(self.board.memory(), first)
    }

    fn dirty_count(&self) -> u32 {
        PagedMemory::dirty_count(self.board.memory())
    }

    fn take_dirty(&mut self, into: &mut PageSet) {
        self.board.take_dirty(into);
    }
}

/// For each of this many harts, that it stands at no breakpoint.
fn none_of(harts: u32) -> ArrayVec<bool, HARTS>
    requires { harts ≤ 8 }
    ensures { result.items ≡ replicate harts false }
{
    let mut stopped = ArrayVec::new();
    for _ in 0..harts {
        stopped.push(false);
    }
    stopped
}
