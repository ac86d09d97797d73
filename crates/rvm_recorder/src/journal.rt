//! A journal.

ghost use Rattle.std.specs.Prelude.{◌≡◌, ◌+◌, ◌<◌, ◌≤◌, ◌^◌, [], length, IsOk, OnOk, vec_capacity, vec_len};
ghost use Rattle.rvm_recorder.specs.Items.{all_of};
ghost use Rattle.rvm_recorder.specs.Replay.{IsReplay};

use crate::item::Item;
use rvm_host::Host;
use rvm_mem::PagedMemory;
use rvm_message::ExchangeRoom;
use std::alloc::{AllocError, Global};
use std::marker::Model;
use std::snapshot::Snapshot;

/// A journal: what a host answered since the journal was opened. The opening host is a value that only contracts see.
#[derive(Drop)]
pub struct Journal<M: PagedMemory + Drop> {
    pub(crate) opening: Snapshot<Host<M>>,
    /// The version of the host's streams.
    pub(crate) version: u32,
    pub(crate) items: Vec<Item>,
    /// How many entries the items have.
    pub(crate) count: u32,
    /// For how many more entries there is room.
    pub(crate) reserved: u32,
    /// Room for exchanges, at least `reserved` times.
    pub(crate) rooms: Vec<ExchangeRoom>,
}

impl<M: PagedMemory + Drop> Model for Journal<M> {
    ghost use Rattle.std.specs.Prelude.{◌≡◌, ◌+◌, ◌≤◌, length, vec_len, vec_capacity};
    ghost use Rattle.rvm_recorder.specs.History.{History};
    ghost use Rattle.rvm_recorder.specs.Items.{all_of};
    ghost use Rattle.rvm_recorder.specs.Replay.{IsReplay};

    ghost Value = { History };

    ghost view = { λ j. record { opening = j.opening.value; entries = all_of j.items.items; reserved = j.reserved } };

    ghost invariant = { λ j. IsReplay j.opening.value (all_of j.items.items) × (j.version ≡ j.opening.value.version)
        × (vec_len j.items + j.reserved ≤ vec_capacity j.items) × (j.reserved ≤ vec_len j.rooms)
        × (j.count ≡ length (all_of j.items.items)) };
}

impl<M: PagedMemory + Drop> Journal<M> {
    /// An empty journal, opened with this host.
    pub(crate) fn new(alloc: Global, host: &Host<M>) -> Journal<M>
        ensures { result ≡ record { opening = host.now; entries = []; reserved = 0 } }
    {
        Journal {
            opening: Snapshot::of(host),
            version: host.version(),
            items: Vec::new(alloc),
            count: 0,
            reserved: 0,
            rooms: Vec::new(alloc),
        }
    }

    /// Returns the version of the host's streams, in which the frames are encoded.
    pub fn version(&self) -> u32
        ensures { result ≡ self.now.opening.version }
    {
        self.version
    }

    /// Returns the entries, oldest first, in items. Each reply and frame is what the protocol says at its place.
    pub fn items(&self) -> &[Item]
        ensures items { all_of result.now ≡ self.now.entries }
        ensures replay { IsReplay self.now.opening self.now.entries }
        ensures count { length result.now < 2 ^ 63 }
    {
        self.items.as_slice()
    }

    /// Proves that each reply and each frame is the one that the protocol gives at its place.
    pub fn know_answers(&self)
        ensures { IsReplay self.now.opening self.now.entries }
    {
        let _items = self.items();
    }

    /// Returns how many entries there are.
    pub fn count(&self) -> u32
        ensures { result ≡ length self.now.entries }
    {
        self.count
    }
}

/// Makes room for `n` more items and their exchanges. If memory runs out, there may be room for some of them.
pub(crate) fn make_room(
    alloc: Global,
    items: &mut Vec<Item>,
    rooms: &mut Vec<ExchangeRoom>,
    n: usize,
) -> Result<(), AllocError>
    ensures same { items.new.items ≡ items.old.items }
    ensures capacity { vec_capacity items.old ≤ vec_capacity items.new }
    ensures more { vec_len rooms.old ≤ vec_len rooms.new }
    ensures room { OnOk result ((vec_len items.new + n ≤ vec_capacity items.new) × (n ≤ vec_len rooms.new)) }
    ensures ready { vec_len items.old + n ≤ vec_capacity items.old → n ≤ vec_len rooms.old → IsOk result }
{
    items.reserve(n)?;
    for _room in rooms.len()..n {
        rooms.push(ExchangeRoom::new(alloc)?)?;
    }
    Ok(())
}
