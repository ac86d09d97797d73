//! Turns of several harts on the straight path. One loop makes them, and the counters of all harts rise after it.

ghost use Rattle.std.specs.Prelude.{◌≡◌, ℕ, ◌<◌, ◌≤◌, ◌+◌, ◌-◌, ◌%◌, ◌^◌, List, ◌++◌, All, None, if◌then◌else◌, length};
ghost use Rattle.rvm_hart.specs.Machine.{HartState, with_devices};
ghost use Rattle.rvm_hart.specs.Straight.{at_time, risen};
ghost use Rattle.rvm_board.specs.Board.{BoardState, IsBoard};
ghost use Rattle.rvm_board.specs.Computing.{Compute};
ghost use Rattle.rvm_board.specs.Rounds.{AreQuiet, Row, board_of, guest_on, risen_after, risen_up_to, share};

use crate::board::Board;
use rvm_hart::{Bus, Hart};
use rvm_isa::Decoder;
use rvm_mem::Memory;

/// The most turns that are made before the counters rise, so that their number and a hart's have a sum.
const MOST: u32 = 1 << 30;

/// How turns on the straight path ended.
#[derive(Clone, Copy)]
pub(crate) struct Rounds {
    /// The number of turns that were not made.
    pub(crate) left: u32,
    /// The hart that has the next turn.
    pub(crate) hart: u32,
}

impl<M: Memory> Board<M> {
    /// Makes at most `count` turns of the harts in their order on the straight path, in whole rows from hart 0 on: none
    /// if hart `first`, which has the next turn, is another one, and none on a halted board. Ends early before a turn that
    /// leaves the path, or in which some hart may take an interrupt. `LOOP` is the number of the caller's loop, as in
    /// `Hart::run_straight`.
    #[inline(always)]
    pub(crate) fn run_rounds<const LOOP: u8>(&mut self, first: u32, count: u32) -> Rounds
        requires { first < length self.old.plain.harts }
        ensures left { result.left ≤ count }
        ensures inside { result.hart < length self.new.plain.harts }
        ensures hart { result.hart ≡ (first + (count - result.left)) % length self.old.plain.harts }
        ensures harts { length self.new.plain.harts ≡ length self.old.plain.harts }
        ensures computes { Compute (length self.old.plain.harts) (count - result.left) first
            (guest_on self.old) (guest_on self.new) }
    {
        let harts = self.harts.as_mut_slice();
        turns_of_all::<M, LOOP>(harts, &mut self.bus, first, count)
    }
}

/// Makes these turns of the harts of a board.
#[inline(always)]
fn turns_of_all<M: Memory, const LOOP: u8>(
    harts: &mut [Hart],
    bus: &mut Bus<M>,
    first: u32,
    count: u32,
) -> Rounds
    requires first { first < length harts.old }
    requires board { IsBoard (record { harts = harts.old; shared = bus.old.shared }) }
    ensures left { result.left ≤ count }
    ensures inside { result.hart < length harts.new }
    ensures hart { result.hart ≡ (first + (count - result.left)) % length harts.old }
    ensures board { IsBoard (record { harts = harts.new; shared = bus.new.shared }) }
    ensures size { length harts.new ≡ length harts.old }
    ensures computes { Compute (length harts.old) (count - result.left) first
        (guest_on (board_of harts.old bus.old))
        (guest_on (board_of harts.new bus.new)) }
{
    if bus.halted().is_some() {
        return Rounds {
            left: count,
            hart: first,
        };
    }
    let quiet = quiet_turns(harts, bus, count.min(MOST));
    let rows = rows_in_turn::<M, LOOP>(harts, bus, first, quiet);
    let made = quiet - rows.left;
    count_turns(harts, bus, first, made);
    Rounds {
        left: count - made,
        hart: rows.hart,
    }
}

/// The number of turns, at most `count`, that can be made before an interrupt is pending at any hart, if mtime alone
/// changes in the devices.
#[inline(always)]
fn quiet_turns<M: Memory>(harts: &[Hart], bus: &Bus<M>, count: u32) -> u32
    requires { IsBoard (record { harts = harts.now; shared = bus.now.shared }) }
    ensures within { result ≤ count }
    ensures quiet { AreQuiet result (record { harts = harts.now; shared = bus.now.shared }) }
{
    let mut quiet = count;
    for hart in 0..harts.len() {
        quiet = harts[hart].quiet_steps(bus, quiet);
    }
    quiet
}

/// Runs at most `count` instructions of the path, one of each hart in turn: whole rows of harts, from hart 0 on, and none
/// if hart `first` is another one. Ends early before one that leaves the path. No counter rises.
#[inline(always)]
fn rows_in_turn<M: Memory, const LOOP: u8>(
    harts: &mut [Hart],
    bus: &mut Bus<M>,
    first: u32,
    count: u32,
) -> Rounds
    requires first { first < length harts.old }
    requires board { IsBoard (record { harts = harts.old; shared = bus.old.shared }) }
    requires on { bus.old.shared.devices.halted ≡ None }
    requires quiet { AreQuiet count (record { harts = harts.old; shared = bus.old.shared }) }
    ensures left { result.left ≤ count }
    ensures inside { result.hart < length harts.new }
    ensures hart { result.hart ≡ (first + (count - result.left)) % length harts.old }
    ensures board { IsBoard (record { harts = harts.new; shared = bus.new.shared }) }
    ensures size { length harts.new ≡ length harts.old }
    ensures computes { Compute (length harts.old) (count - result.left) first
        (guest_on (board_of harts.old bus.old))
        (guest_on (record { plain = risen_after first (count - result.left) (board_of harts.new bus.new).plain; dirty = bus.new.dirty })) }
{
    if first != 0 {
        return Rounds {
            left: count,
            hart: first,
        };
    }
    let number = harts.len() as u32;
    let decoder = harts[0].decoder();
    let mut left = count;
    while left >= number {
        let behind = row_of_harts::<M, LOOP>(decoder, harts, bus) as u32;
        left -= number - behind;
        if behind > 0 {
            return Rounds {
                left,
                hart: number - behind,
            };
        }
    }
    Rounds { left, hart: 0 }
}

/// Runs one instruction of the path of each of these harts, one after the other. Ends early before one that leaves the
/// path, and returns how many harts ran none. No counter rises.
fn row_of_harts<M: Memory, const LOOP: u8>(
    decoder: Decoder,
    harts: &mut [Hart],
    bus: &mut Bus<M>,
) -> usize
    requires reservations { All (λ x. x.csrs.hart < length bus.old.shared.reservations) harts.old }
    ensures behind { result ≤ length harts.old }
    ensures size { length harts.new ≡ length harts.old }
    ensures turns { (front : List HartState) → (old : BoardState) → Row (length front) old (front ++ harts.old) bus.old
        → Row (length front + (length harts.old - result)) old (front ++ harts.new) bus.new }
{
    let behind = harts.len();
    let Some((hart, others)) = harts.split_first_mut() else {
        return 0;
    };
    if !hart.row_straight::<M, LOOP>(decoder, bus) {
        return behind;
    }
    row_of_harts::<M, LOOP>(decoder, others, bus)
}

/// Raises the counters of each hart by its number of turns, if `made` turns were made and hart `first` had the first,
/// and mtime by all turns.
#[inline(always)]
fn count_turns<M: Memory>(harts: &mut [Hart], bus: &mut Bus<M>, first: u32, made: u32)
    requires first { first < length harts.old }
    requires few { length harts.old ≤ 8 }
    requires made { made ≤ 2 ^ 30 }
    ensures harts { harts.new ≡ risen_up_to (λ k. share (length harts.old) first made k) (length harts.old) harts.old }
    ensures bus { bus.new ≡ with_devices (at_time (risen made bus.old.shared.devices.mtime) bus.old.shared.devices) bus.old }
{
    if made == 0 {
        return;
    }
    let number = harts.len() as u32;
    for hart in 0..harts.len() {
        let turns = share_of(number, first, made, hart as u32);
        harts[hart].rise(turns);
    }
    bus.rise(made);
}

/// How many of `made` turns hart `hart` has, of this many harts, if hart `first` has the first.
#[inline(always)]
#[tactic(auto, using(crate::proofs::Shares::quotient), unfolding(crate::specs::Rounds::share))]
fn share_of(harts: u32, first: u32, made: u32, hart: u32) -> u32
    requires harts { 0 < harts }
    requires first { first < 8 }
    requires made { made ≤ 2 ^ 30 }
    ensures { result ≡ share harts first made hart }
{
    let turns = first + made;
    (turns / harts + one_if(hart < turns % harts)).saturating_sub(one_if(hart < first))
}

/// 1 if a test holds, else 0.
#[inline(always)]
fn one_if(test: bool) -> u32
    ensures value { result ≡ (if test then 1 else 0) }
    ensures small { result ≤ 1 }
{
    if test { 1 } else { 0 }
}
