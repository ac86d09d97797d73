//! The addresses at which steps stop.

ghost use Rattle.std.specs.Prelude.{◌≡◌, ◌≤◌, ◌↔◌, [], length, OnOk, OnErr, IsErr, false, count_by, nat_lt, if◌then◌else◌, IsTrue};
ghost use Rattle.rvm_board.specs.Guest.{AreRising, is_in, with, without};
ghost use Rattle.rvm_board.specs.Marks.{marks_of};

use arrayvec::ArrayVec;
use rvm_hart::Marks;
use std::marker::Model;

/// The most breakpoints that can be set at once.
pub const MAX_BREAKPOINTS: usize = 64;

/// 64 other breakpoints are set already.
#[derive(Drop)]
pub(crate) struct Full;

/// At most 64 addresses in rising order. Each is marked, so that most other addresses need no
/// search.
#[derive(Drop)]
pub(crate) struct Breakpoints {
    addresses: ArrayVec<u32, MAX_BREAKPOINTS>,
    marks: Marks,
}

impl Model for Breakpoints {
    ghost use Rattle.std.specs.Prelude.{List, ℕ, ◌≡◌, ◌≤◌, length};
    ghost use Rattle.rvm_board.specs.Guest.{AreRising};
    ghost use Rattle.rvm_board.specs.Marks.{marks_of};

    ghost Value = { List ℕ };

    ghost view = { λ b. b.addresses.items };

    ghost invariant = { λ b. (length b.addresses.items ≤ 64) × AreRising b.addresses.items
        × (b.marks ≡ marks_of b.addresses.items) };
}

impl Breakpoints {
    /// No breakpoints.
    pub(crate) fn new() -> Breakpoints
        ensures { result ≡ [] }
    {
        Breakpoints {
            addresses: ArrayVec::new(),
            marks: marks_for(&[]),
        }
    }

    /// Breakpoints at these addresses.
    pub(crate) fn of(addresses: &[u32]) -> Breakpoints
        requires few { length addresses.now ≤ 64 }
        requires rising { AreRising addresses.now }
        ensures { result ≡ addresses.now }
    {
        let mut breakpoints = ArrayVec::new();
        let fits = breakpoints.try_extend_from_slice(addresses).is_ok();
        prove!(fits);
        Breakpoints {
            addresses: breakpoints,
            marks: marks_for(addresses),
        }
    }

    /// A copy of the addresses, in rising order.
    pub(crate) fn copied(&self) -> ArrayVec<u32, MAX_BREAKPOINTS>
        ensures addresses { result.items ≡ self.now }
        ensures few { length self.now ≤ 64 }
        ensures rising { AreRising self.now }
    {
        let mut addresses = ArrayVec::new();
        let fits = addresses.try_extend_from_slice(&self.addresses).is_ok();
        prove!(fits);
        addresses
    }

    /// Whether no breakpoint is set.
    #[inline(always)]
    pub(crate) fn is_empty(&self) -> bool
        ensures { IsTrue result ↔ (self.now ≡ []) }
    {
        self.addresses.is_empty()
    }

    /// The marks of the breakpoints.
    #[inline(always)]
    pub(crate) fn marks(&self) -> &Marks
        ensures { result.now ≡ marks_of self.now }
    {
        &self.marks
    }

    /// Whether a breakpoint may be set at an address. False is certain; true needs a search.
    #[inline(always)]
    #[tactic(auto, using(crate::proofs::Marking::not_in))]
    pub(crate) fn may_have(&self, address: u32) -> bool
        ensures { result ≡ false → is_in address self.now ≡ false }
    {
        self.marks.has(address)
    }

    /// Whether a breakpoint is set at an address.
    pub(crate) fn has(&self, address: u32) -> bool
        ensures { result ≡ is_in address self.now }
    {
        self.addresses.contains(&address)
    }

    /// Sets a breakpoint at an address, if there is none. `Full`, and nothing changes, if 64 others
    /// are set.
    pub(crate) fn set(&mut self, address: u32) -> Result<(), Full>
        ensures set { OnOk result (self.new ≡ (if is_in address self.old then self.old
            else with address self.old)) }
        ensures full { IsErr result
            ↔ ((is_in address self.old ≡ false) × (length self.old ≡ 64)) }
        ensures err { OnErr result (self.new ≡ self.old) }
    {
        if self.addresses.contains(&address) {
            return Ok(());
        }
        if self.addresses.len() == MAX_BREAKPOINTS {
            return Err(Full);
        }
        let index = count_below(&self.addresses, address);
        self.addresses.insert(index, address);
        self.marks = marks_for(&self.addresses);
        Ok(())
    }

    /// Removes the breakpoint at an address, if there is one.
    pub(crate) fn clear(&mut self, address: u32)
        ensures { self.new ≡ without address self.old }
    {
        let index = count_below(&self.addresses, address);
        if self.has(address) {
            self.addresses.remove(index);
            self.marks = marks_for(&self.addresses);
        }
    }
}

/// The number of addresses below `address`.
fn count_below(addresses: &[u32], address: u32) -> usize
    ensures { result ≡ count_by (λ b. nat_lt b address) addresses.now }
{
    addresses.iter().filter(|set| **set < address).count()
}

/// The marks of these addresses.
#[tactic(auto, unfolding(crate::specs::Marks::marks_of))]
fn marks_for(addresses: &[u32]) -> Marks
    ensures { result ≡ marks_of addresses.now }
{
    let mut marks = Marks::new();
    for address in addresses {
        marks.add(*address);
    }
    marks
}
