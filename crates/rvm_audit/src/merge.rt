//! The events that a merge has put in order so far.

ghost use Rattle.std.specs.Prelude.{◌≡◌, ◌<◌, ◌^◌, ◌-◌, IfOk, OnOk, MatchOption, [], ℕ, List, None, drop, length};
ghost use Rattle.rvm_audit.specs.Merging.{AreTaken, AreWaiting, Becomes, IsEntryTaken, IsPlaced, IsTaken, IsUnmade, IsUnplaced, Takes, Waits, counted, key_of, noted, places_of};
ghost use Rattle.rvm_recorder.specs.Items.{entries_at};
ghost use Rattle.rvm_message.specs.declared.event.HostEvent.TheVariants.{Came};

use crate::frames::{key_of_coming, note_made};
use crate::placed::Order;
use crate::places::{Places, lookup};
use rvm_board::BoardEvent;
use rvm_core::Event;
use rvm_frame::Frame;
use rvm_message::{Command, Exchange, ExchangeRef, HostEvent, Shared};
use rvm_recorder::{Entry, Item, ItemRef};
use std::alloc::{AllocError, Global};
use std::collections::BTreeMap;

/// The events that were put in order, and the place of the first frame of each maker and bytes.
#[derive(Drop)]
pub(crate) struct Merge {
    pub(crate) order: Order,
    pub(crate) places: Places,
    /// How many frames were made.
    pub(crate) made: u64,
}

impl Merge {
    /// A merge that has taken nothing.
    pub(crate) fn new(alloc: Global) -> Merge
        ensures order { result.order ≡ [] }
        ensures places { (key : List ℕ) → places_of result.places key ≡ None }
        ensures made { result.made ≡ 0 }
    {
        Merge {
            order: Order::new(alloc),
            places: BTreeMap::new(alloc),
            made: 0,
        }
    }

    /// Appends the events of the host's item with this index, if there is one and it can stand. Returns how many
    /// entries it has; none if nothing was taken.
    pub(crate) fn take_next(
        &mut self,
        alloc: Global,
        host: u8,
        count: u8,
        version: u32,
        items: &[Item],
        index: usize,
    ) -> Result<Option<u32>, AllocError>
        requires { self.old.made < 2 ^ 64 - 1 }
        ensures { IfOk result (λ o. MatchOption o
            (AreWaiting version count host (drop index items.now) self.old self.new)
            (λ n. AreTaken version count host (drop index items.now) n self.old self.new)) }
    {
        match items.get(index) {
            None => Ok(None),
            Some(item) => self.take_item(alloc, host, count, version, item.look()),
        }
    }

    /// Appends the events of an item if they can stand. Returns how many entries it has; none if it was not taken.
    /// Commands can stand anywhere, so steps and rounds are taken at once.
    fn take_item(
        &mut self,
        alloc: Global,
        host: u8,
        count: u8,
        version: u32,
        item: ItemRef<'_>,
    ) -> Result<Option<u32>, AllocError>
        requires { self.old.made < 2 ^ 64 - 1 }
        ensures { IfOk result (λ o. MatchOption o
            (Waits version count host item.entry self.old self.new)
            (λ n. (n ≡ length (entries_at item.entry)) × Takes version count host item.entry self.old self.new)) }
    {
        match item {
            ItemRef::Entry(entry) => self.take_entry(alloc, host, count, version, entry),
            ItemRef::Steps(steps) => {
                self.order.push_steps(host, steps)?;
                Ok(Some(steps.count))
            }
            ItemRef::Rounds(rounds) => {
                self.order.push_rounds(host, rounds)?;
                Ok(Some(rounds.len()))
            }
        }
    }

    /// Appends the event of an entry if it can stand. Returns 1, or none if it was not taken.
    fn take_entry(
        &mut self,
        alloc: Global,
        host: u8,
        count: u8,
        version: u32,
        entry: &Entry,
    ) -> Result<Option<u32>, AllocError>
        requires { self.old.made < 2 ^ 64 - 1 }
        ensures { IfOk result (λ o. MatchOption o
            (IsUnmade version count host entry.now.event (places_of self.old.places) × (self.new ≡ self.old))
            (λ n. (n ≡ 1) × IsEntryTaken version count host entry.now self.old self.new)) }
    {
        match event_of(alloc, host, count, version, entry.exchange(), &self.places)? {
            None => Ok(None),
            Some(event) => {
                self.take(alloc, host, entry, event)?;
                Ok(Some(1))
            }
        }
    }

    /// Appends an event of a host, and notes the place of the frame that it made, if it made one.
    fn take(
        &mut self,
        alloc: Global,
        host: u8,
        entry: &Entry,
        event: Event,
    ) -> Result<(), AllocError>
        requires { self.old.made < 2 ^ 64 - 1 }
        ensures { OnOk result (IsTaken self.old self.new host event entry.now.frame) }
    {
        self.order.push(event)?;
        self.note_frame(alloc, host, entry)
    }

    /// Notes the place of the frame of an entry, if it made one, unless an equal frame of this host has a place.
    fn note_frame(&mut self, alloc: Global, host: u8, entry: &Entry) -> Result<(), AllocError>
        requires { self.old.made < 2 ^ 64 - 1 }
        ensures order { OnOk result (self.new.order ≡ self.old.order) }
        ensures places { OnOk result ((key : List ℕ) → places_of self.new.places key
            ≡ noted (key_of host entry.now.frame) self.old.made (places_of self.old.places) key) }
        ensures made { OnOk result (self.new.made ≡ counted entry.now.frame self.old.made) }
    {
        if note_made(alloc, &mut self.places, host, entry, self.made)? {
            self.made += 1;
        }
        Ok(())
    }
}

/// The event of the world that the event of a host's exchange is; none if it cannot stand.
fn event_of(
    alloc: Global,
    host: u8,
    count: u8,
    version: u32,
    exchange: &Exchange,
    places: &Places,
) -> Result<Option<Event>, AllocError>
    ensures { IfOk result (λ o. MatchOption o
        (IsUnmade version count host exchange.now.event (places_of places.now))
        (λ e. Becomes version count host exchange.now.event (places_of places.now) e)) }
{
    match exchange.look() {
        ExchangeRef::Step { hart, reply: _ } => {
            let step = Command::Board(BoardEvent::Step(hart));
            Ok(Some(Event::At(host, step)))
        }
        ExchangeRef::Dry(bytes) => {
            let drain = Command::Board(BoardEvent::Drain(bytes));
            Ok(Some(Event::At(host, drain)))
        }
        ExchangeRef::Copied { .. } => Ok(Some(Event::At(host, Command::Copy))),
        ExchangeRef::Stored { from, frame, .. } => {
            delivery(alloc, host, count, version, from, frame, places)
        }
        ExchangeRef::Other { event, reply: _ } => {
            world_event(alloc, host, count, version, event, places)
        }
    }
}

/// The event of the world that a host's event is; none if it cannot stand.
fn world_event(
    alloc: Global,
    host: u8,
    count: u8,
    version: u32,
    event: &HostEvent,
    places: &Places,
) -> Result<Option<Event>, AllocError>
    ensures { IfOk result (λ o. MatchOption o
        (IsUnmade version count host event.now (places_of places.now))
        (λ e. Becomes version count host event.now (places_of places.now) e)) }
{
    match event {
        HostEvent::Do(command) => Ok(Some(Event::At(host, command.copy()))),
        HostEvent::Came(from, frame) => {
            delivery(alloc, host, count, version, *from, frame, places)
        }
    }
}

/// The delivery of a frame that came from host `from`; none if no such frame was made.
fn delivery(
    alloc: Global,
    host: u8,
    count: u8,
    version: u32,
    from: u8,
    frame: &Shared<Frame>,
    places: &Places,
) -> Result<Option<Event>, AllocError>
    ensures { IfOk result (λ o. MatchOption o
        (IsUnmade version count host (Came from frame.now) (places_of places.now))
        (λ e. Becomes version count host (Came from frame.now) (places_of places.now) e)) }
{
    match place_of(alloc, host, count, version, from, frame.get(), places)? {
        None => Ok(None),
        Some(place) => Ok(Some(Event::Deliver(place))),
    }
}

/// The place of the first frame of these bytes that host `from` made; none if it made none, is this host, is not there,
/// or if no stream has such a frame.
fn place_of(
    alloc: Global,
    host: u8,
    count: u8,
    version: u32,
    from: u8,
    frame: &Frame,
    places: &Places,
) -> Result<Option<u64>, AllocError>
    ensures { IfOk result (λ o. MatchOption o
        (IsUnplaced version count host from frame.now (places_of places.now))
        (λ k. IsPlaced version count host from frame.now (places_of places.now) k)) }
{
    match key_of_coming(alloc, host, count, version, from, frame)? {
        None => Ok(None),
        Some(key) => Ok(lookup(places, key.as_slice())),
    }
}
