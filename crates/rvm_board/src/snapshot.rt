//! A guest without its RAM, as one value.

ghost use Rattle.std.specs.Prelude.{◌≡◌, ◌+◌, ◌<◌, ◌≤◌, ◌++◌, ℕ, length, IfErr, IfOk};
ghost use Rattle.rvm_board.specs.Board.{hart_at};
ghost use Rattle.rvm_hart.specs.Fields.{fields_of, with_number};
ghost use Rattle.rvm_board.specs.Guest.{AreRising, fresh};
ghost use Rattle.rvm_board.specs.Parts.{CanBeHeld, hart_restored, part_of, restored};
ghost use Rattle.rvm_board.specs.Restoring.{AreHeld, CanBeRestored, IsOf, harts_restored};
ghost use Rattle.rvm_board.specs.Snapshot.{state_in};
ghost use Rattle.rvm_board.specs.State.{guest_of, parts_of, state_of};

use crate::board::Board;
use crate::breakpoints::{Breakpoints, MAX_BREAKPOINTS};
use crate::debugged::{Debugged, HARTS};
use crate::part::HartPart;
use arrayvec::ArrayVec;
use rvm_dev::{DeviceFields, Devices, INPUT_CAPACITY, OUTPUT_CAPACITY};
use rvm_mem::Memory;
use std::alloc::{AllocError, Global};

/// All that a guest keeps beside its RAM.
#[derive(Drop)]
pub struct Snapshot {
    /// What the guest keeps for each hart, in the order of their numbers.
    pub harts: ArrayVec<HartPart, HARTS>,
    /// What the devices keep for all harts together, without the queues.
    pub devices: DeviceFields,
    /// The bytes that wait for the guest, oldest first.
    pub input: ArrayVec<u8, INPUT_CAPACITY>,
    /// The bytes that the guest sent and that were not taken, oldest first.
    pub output: ArrayVec<u8, OUTPUT_CAPACITY>,
    /// The breakpoints, in rising order.
    pub breakpoints: ArrayVec<u32, MAX_BREAKPOINTS>,
}

impl<M: Memory> Debugged<M> {
    /// All that the guest keeps beside its RAM; with the RAM, it is the guest. Takes no memory.
    pub fn snapshot(&self) -> Snapshot
        ensures state { state_in result ≡ state_of self.now.guest }
        ensures whole { guest_of self.now.guest.board.shared.bytes (state_of self.now.guest)
            ≡ self.now.guest }
        ensures held { CanBeRestored (length self.now.guest.board.shared.bytes) (state_in result) }
    {
        let devices = self.devices();
        let fields = devices.fields();
        let (input, more_input) = devices.input_bytes();
        let (output, more_output) = devices.output_bytes();
        Snapshot {
            harts: self.hart_parts(),
            devices: fields,
            input: joined(input, more_input),
            output: joined(output, more_output),
            breakpoints: self.breakpoints.copied(),
        }
    }

    /// What the guest keeps for a hart.
    fn hart_part(&self, hart: u32) -> HartPart
        requires { hart < length self.now.guest.board.harts }
        ensures part { result ≡ part_of hart self.now.guest }
        ensures held { CanBeHeld (length self.now.guest.board.shared.bytes) result }
        ensures whole { with_number hart result.fields ≡ hart_at hart self.now.guest.board }
    {
        let devices = self.board.devices();
        HartPart {
            fields: self.board.hart_fields(hart),
            msip: devices.software_is_pending(hart),
            mtimecmp: devices.mtimecmp(hart),
            reserved: self.board.reserved(hart),
            stopped: self.stopped[hart as usize],
        }
    }

    /// The devices, which have words for each hart.
    fn devices(&self) -> &Devices
        ensures devices { result.now ≡ self.now.guest.board.shared.devices }
        ensures msip { length self.now.guest.board.shared.devices.msip
            ≡ length self.now.guest.board.harts }
        ensures reservations { length self.now.guest.board.shared.reservations
            ≡ length self.now.guest.board.harts }
        ensures stopped { length self.now.guest.stopped ≡ length self.now.guest.board.harts }
    {
        self.board.devices()
    }

    /// What the guest keeps for each hart.
    fn hart_parts(&self) -> ArrayVec<HartPart, HARTS>
        ensures parts { result.items ≡ parts_of self.now.guest }
        ensures some { 1 ≤ length result.items }
        ensures few { length result.items ≤ 8 }
        ensures held { AreHeld (length self.now.guest.board.shared.bytes) result.items }
        ensures whole { (k : ℕ) → k < length self.now.guest.board.harts
            → with_number k (fields_of (hart_at k self.now.guest.board))
            ≡ hart_at k self.now.guest.board }
    {
        let mut parts = ArrayVec::new();
        for hart in 0..self.harts() {
            parts.push(self.hart_part(hart));
        }
        parts
    }

    /// The guest of a snapshot, with this RAM and its dirty log. A failed allocation returns the
    /// RAM.
    pub fn restore(
        alloc: Global,
        snapshot: &Snapshot,
        ram: M,
    ) -> Result<Debugged<M>, (AllocError, M)>
        requires some { 0 < length (M.bytes ram) }
        requires held { CanBeRestored (length (M.bytes ram)) (state_in snapshot.now) }
        ensures guest { IfOk result
            (λ d. d.guest ≡ guest_of (M.bytes ram) (state_in snapshot.now)) }
        ensures dirty { IfOk result (λ d. d.dirty ≡ M.dirty ram) }
        ensures ram { IfErr result (λ e. e.1 ≡ ram) }
    {
        match Board::new(alloc, snapshot.harts.len() as u32, ram, 0) {
            Ok(board) => Ok(restored(board, snapshot)),
            Err((_, ram)) => Err((AllocError, ram)),
        }
    }

    /// Sets what the devices keep for all harts, and the bytes that wait in both queues.
    fn restore_devices(&mut self, fields: DeviceFields, input: &[u8], output: &[u8])
        requires input { length input.now ≤ 16 }
        requires output { length output.now ≤ 4096 }
        ensures { self.new ≡ record self.old {
          guest = restored fields input.now output.now self.old.guest;
        } }
    {
        self.board.restore(fields, input, output);
    }

    /// Sets what the guest keeps for a hart.
    fn restore_hart(&mut self, hart: u32, part: HartPart)
        requires hart { hart < length self.old.guest.board.harts }
        requires held { CanBeHeld (length self.old.guest.board.shared.bytes) part }
        ensures { self.new ≡ record self.old { guest = hart_restored hart part self.old.guest } }
    {
        let stopped = &mut self.stopped;
        stopped[hart as usize] = part.stopped;
        self.board
            .restore_hart(hart, part.fields, part.msip, part.mtimecmp, part.reserved);
    }

    /// Sets what the guest keeps for each hart.
    fn restore_harts(&mut self, harts: &[HartPart])
        requires count { length self.old.guest.board.harts ≡ length harts.now }
        requires few { length harts.now ≤ 8 }
        requires held { AreHeld (length self.old.guest.board.shared.bytes) harts.now }
        ensures { self.new
            ≡ record self.old { guest = harts_restored 0 harts.now self.old.guest } }
    {
        for i in 0..harts.len() {
            self.restore_hart(i as u32, harts[i]);
        }
    }

    /// Sets the breakpoints.
    fn restore_breakpoints(&mut self, addresses: &[u32])
        requires few { length addresses.now ≤ 64 }
        requires rising { AreRising addresses.now }
        ensures { self.new ≡ record self.old {
          guest = record self.old.guest { breakpoints = addresses.now };
        } }
    {
        self.breakpoints = Breakpoints::of(addresses);
    }
}

/// The guest that keeps a board's RAM and has all other values from a snapshot.
fn restored<M: Memory>(board: Board<M>, snapshot: &Snapshot) -> Debugged<M>
    requires count { IsOf (length snapshot.now.harts.items) (fresh board.plain) }
    requires held { CanBeRestored (length board.plain.shared.bytes) (state_in snapshot.now) }
    ensures guest { result.guest ≡ guest_of board.plain.shared.bytes (state_in snapshot.now) }
    ensures dirty { result.dirty ≡ board.dirty }
{
    let mut guest = Debugged::new(board);
    guest.restore_harts(snapshot.harts.as_slice());
    guest.restore_devices(
        snapshot.devices,
        snapshot.input.as_slice(),
        snapshot.output.as_slice(),
    );
    guest.restore_breakpoints(snapshot.breakpoints.as_slice());
    guest
}

/// The bytes of `front`, then those of `back`.
fn joined<const CAP: usize>(front: &[u8], back: &[u8]) -> ArrayVec<u8, CAP>
    requires { length front.now + length back.now ≤ CAP }
    ensures { result.items ≡ front.now ++ back.now }
{
    let mut bytes = ArrayVec::new();
    let has_front = bytes.try_extend_from_slice(front).is_ok();
    prove!(has_front);
    let has_all = bytes.try_extend_from_slice(back).is_ok();
    prove!(has_all);
    bytes
}
