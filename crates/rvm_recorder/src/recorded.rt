//! A host with its journal.

ghost use Rattle.std.specs.Prelude.{◌≡◌, ◌⊎◌, ◌↔◌, ◌+◌, ◌-◌, ◌%◌, ◌∷◌, ◌++◌, ◌<◌, ◌≤◌, [], true, IfOk, IfErr, IfNone, IfSome, IsErr, IsOk, None, OnErr, OnOk, Some, option_map, vec_capacity, vec_len};
ghost use Rattle.rvm_board.specs.Guest.{GuestState};
ghost use Rattle.rvm_protocol.specs.Modes.{guest_in};
ghost use Rattle.rvm_recorder.specs.Entries.{silent};
ghost use Rattle.rvm_recorder.specs.Errors.{IsRecordError, IsReserveError};
ghost use Rattle.rvm_recorder.specs.History.{IsRecorded, bytes_of, count_of, host_now, is_board, with_entries, with_room};
ghost use Rattle.rvm_recorder.specs.Items.{all_of, entries_in, last_of, one_if, steps_in_turn, steps_of};
ghost use Rattle.rvm_recorder.specs.Keeping.{CanBeKept};
ghost use Rattle.rvm_recorder.specs.Reopening.{IsReopened};
ghost use Rattle.rvm_message.specs.Exchanges.{dry_exchange, exchange, step_of_hart};
ghost use Rattle.rvm_message.specs.Steps.{reply_to_step};

use crate::entry::Entry;
use crate::error::RecordError;
use crate::frame_bytes::FrameBytes;
use crate::item::{Item, push_dry, push_steps};
use crate::journal::{Journal, make_room};
use crate::run::StepRun;
use crate::steps::Steps;
use rvm_board::Debugged;
use rvm_frame::Addressed;
use rvm_host::{BadSize, Host};
use rvm_mem::PagedMemory;
use rvm_message::{Exchange, ExchangeRoom, HostEvent, HostReply, StepReply};
use std::alloc::Global;
use std::marker::Model;
use std::snapshot::Snapshot;

/// The most entries that a journal takes.
pub const MAX_CAPACITY: u32 = 1048576;

/// A host, and the journal of what it answered, which takes at most `capacity` entries.
#[derive(Drop)]
pub struct Recorded<M: PagedMemory + Drop> {
    host: Host<M>,
    journal: Journal<M>,
    capacity: u32,
}

impl<M: PagedMemory + Drop> Model for Recorded<M> {
    ghost use Rattle.rvm_recorder.specs.History.{IsKept, Recording};

    ghost Value = { Recording };

    ghost view = { λ r. record { journal = r.journal; capacity = r.capacity } };

    ghost invariant = { λ r. IsKept r.host r.journal r.capacity };
}

impl<M: PagedMemory + Drop> Recorded<M> {
    /// Makes a recorded host with an empty journal that takes at most `capacity` entries, 1 to 1048576. Fails with
    /// `BadSize`, and hands the host back, for any other capacity.
    pub fn new(
        alloc: Global,
        host: Host<M>,
        capacity: u32,
    ) -> Result<Recorded<M>, (BadSize, Host<M>)>
        ensures recorded { IfOk result (λ r. r ≡ record {
          journal = record { opening = host; entries = []; reserved = 0 };
          capacity = capacity;
        }) }
        ensures size { IsErr result ↔ ((capacity ≡ 0) ⊎ (1048576 < capacity)) }
        ensures host { IfErr result (λ e. e.1 ≡ host) }
    {
        if capacity == 0 || capacity > MAX_CAPACITY {
            return Err((BadSize, host));
        }
        Ok(Recorded::opened(alloc, host, capacity))
    }

    /// Makes a recorded host with an empty journal that takes as many entries as can be counted, 4294967295: for the
    /// events of a journal that is read, of which there are as many as there are.
    pub fn uncapped(alloc: Global, host: Host<M>) -> Recorded<M>
        ensures { result ≡ record {
          journal = record { opening = host; entries = []; reserved = 0 };
          capacity = 4294967295;
        } }
    {
        Recorded::opened(alloc, host, u32::MAX)
    }

    /// Makes a recorded host with an empty journal that takes at most `capacity` entries.
    fn opened(alloc: Global, host: Host<M>, capacity: u32) -> Recorded<M>
        ensures { result ≡ record {
          journal = record { opening = host; entries = []; reserved = 0 };
          capacity = capacity;
        } }
    {
        let journal = Journal::new(alloc, &host);
        Recorded {
            host,
            journal,
            capacity,
        }
    }

    /// Returns the journal of what the host answered until now.
    pub fn journal(&self) -> &Journal<M>
        ensures { result.now ≡ self.now.journal }
    {
        &self.journal
    }

    /// Ends the recorder. Returns the whole guest, if it is at the host after all that the journal has.
    pub fn into_guest(self) -> Option<Debugged<M>>
        ensures { option_map (λ (g : GuestState). g.guest) result ≡ guest_in (host_now self).mode }
    {
        let Recorded {
            host,
            journal: _,
            capacity: _,
        } = self;
        host.into_guest()
    }

    /// Forgets the entries of the journal, which begins anew with the host as it is. The room for more entries stays.
    pub fn reopen(&mut self)
        ensures { IsReopened self.old self.new }
    {
        let Recorded {
            host,
            journal,
            capacity: _,
        } = self;
        journal.opening = Snapshot::of(host);
        journal.items.clear();
        journal.count = 0;
    }

    /// Returns how many entries the journal has.
    pub fn count(&self) -> u32
        ensures count { result ≡ count_of self.now }
        ensures bound { result ≤ self.now.capacity }
    {
        let _capacity = self.capacity;
        self.journal.count()
    }

    /// Returns how many entries the journal takes.
    pub fn capacity(&self) -> u32
        ensures { result ≡ self.now.capacity }
    {
        self.capacity
    }

    /// Applies an event, and keeps it with its reply and the bytes of its frame. Returns its place in the journal,
    /// from 0, the reply, and the frame, if any. If memory runs out or the journal is full, nothing is recorded and
    /// the event is handed back. Of the next n events after `reserve(n)`, those of the guest take no memory.
    pub fn record(
        &mut self,
        alloc: Global,
        event: HostEvent,
    ) -> Result<(u32, HostReply, Option<Addressed>), (RecordError, HostEvent)>
        ensures recorded { IfOk result (λ r. IsRecorded self.old event r self.new) }
        ensures err { OnErr result (self.new ≡ self.old) }
        ensures event { IfErr result (λ e. e.1 ≡ event) }
        ensures fault { IfErr result (λ e. IsRecordError e.0 (count_of self.old) self.old.capacity) }
        ensures board { is_board event ≡ true → 0 < self.old.journal.reserved → IsOk result }
    {
        self.record_into(alloc, event, &mut Vec::new(alloc))
    }

    /// Records an event as `record` does. If its frame may be as long as a page, the frame's bytes take `spare`,
    /// provided that it is empty and has room for them; then an empty vector is left in its place.
    pub fn record_into(
        &mut self,
        alloc: Global,
        event: HostEvent,
        spare: &mut Vec<u8>,
    ) -> Result<(u32, HostReply, Option<Addressed>), (RecordError, HostEvent)>
        ensures recorded { IfOk result (λ r. IsRecorded self.old event r self.new) }
        ensures err { OnErr result (self.new ≡ self.old) }
        ensures event { IfErr result (λ e. e.1 ≡ event) }
        ensures fault { IfErr result (λ e. IsRecordError e.0 (count_of self.old) self.old.capacity) }
        ensures board { is_board event ≡ true → 0 < self.old.journal.reserved → IsOk result }
    {
        let Recorded {
            host,
            journal,
            capacity,
        } = self;
        let place = journal.count;
        let left = journal.reserved.saturating_sub(1);
        if place >= *capacity {
            return Err((RecordError::RecorderFull(*capacity), event));
        }
        if make_room(alloc, &mut journal.items, &mut journal.rooms, 1).is_err() {
            return Err((RecordError::OutOfMemory, event));
        }
        let Ok(room) = FrameBytes::room(alloc, host.frame_bound(&event), spare) else {
            return Err((RecordError::OutOfMemory, event));
        };
        let Ok((reply, frame)) = host.apply(alloc, &event) else {
            return Err((RecordError::OutOfMemory, event));
        };
        let entry = keep(
            journal.version,
            &mut journal.rooms,
            event,
            &reply,
            &frame,
            room,
        );
        journal.items.push_reserved(Item::of_entry(entry));
        journal.count += 1;
        journal.reserved = left;
        Ok((place, reply, frame))
    }

    /// Makes a step of a hart and records it, in reserved room; returns the reply. Takes no memory.
    pub(crate) fn record_step(&mut self, hart: u32) -> StepReply
        requires { 0 < self.old.journal.reserved }
        ensures { self.new ≡ with_entries self.old (silent (step_of_hart hart) (reply_to_step result) ∷ [])
            (self.old.journal.reserved - 1) }
    {
        let Recorded {
            host,
            journal,
            capacity: _,
        } = self;
        let reply = host.step(hart);
        journal
            .items
            .push_reserved(Item::of_entry(Entry::of_step(hart, reply)));
        journal.count += 1;
        journal.reserved -= 1;
        reply
    }

    /// Records a drain of at most `count` bytes if the guest runs here and the drain finds none; returns its place in
    /// the journal. Otherwise, or if the journal is full or memory runs out, records nothing and returns None.
    pub fn record_dry(&mut self, count: u32) -> Option<u32>
        ensures recorded { IfSome result (λ place. IsRecorded self.old (dry_exchange count).event
            (place, (dry_exchange count).reply, None) self.new) }
        ensures none { IfNone result (self.new ≡ self.old) }
    {
        let Recorded {
            host,
            journal,
            capacity,
        } = self;
        let place = journal.count;
        let left = journal.reserved.saturating_sub(1);
        if place >= *capacity || !host.finds_nothing(count) {
            return None;
        }
        if journal.items.reserve(1).is_err() {
            return None;
        }
        push_dry(&mut journal.items, count);
        journal.count += 1;
        journal.reserved = left;
        Some(place)
    }

    /// Makes at most `most` steps of harts in turn and records them, in reserved room, as long as each retires an
    /// instruction; the first that does not is the last. It may make none. Takes no memory.
    pub(crate) fn retire(&mut self, turn: u64, harts: u32, most: u32) -> StepRun
        requires harts { 1 ≤ harts }
        requires room { most ≤ self.old.journal.reserved }
        ensures recorded { self.new ≡ with_entries self.old (entries_in turn harts result)
            (self.old.journal.reserved - steps_of result) }
        ensures few { steps_of result ≤ most }
    {
        let Recorded {
            host,
            journal,
            capacity: _,
        } = self;
        let made = StepRun::of(host.retire(turn, harts, most));
        let steps = Steps {
            turn,
            harts,
            count: made.retired,
        };
        push_run(&mut journal.items, steps, made.last);
        journal.count += made.count();
        journal.reserved -= made.count();
        made
    }

    /// Makes room for n more entries: of the next n events those of the guest take no memory. If fewer
    /// than n places are free or memory runs out, nothing has changed.
    pub fn reserve(&mut self, alloc: Global, n: u32) -> Result<(), RecordError>
        ensures room { OnOk result (self.new ≡ with_room self.old n) }
        ensures err { OnErr result (self.new ≡ self.old) }
        ensures free { OnOk result (count_of self.old + n ≤ self.old.capacity) }
        ensures fault { IfErr result (λ e. IsReserveError e (count_of self.old) n self.old.capacity) }
    {
        let Recorded {
            host: _,
            journal,
            capacity,
        } = self;
        let place = journal.count;
        if *capacity - place < n {
            return Err(RecordError::RecorderFull(*capacity));
        }
        if make_room(alloc, &mut journal.items, &mut journal.rooms, n as usize).is_err() {
            return Err(RecordError::OutOfMemory);
        }
        journal.reserved = journal.reserved.max(n);
        Ok(())
    }
}

/// Appends steps to items, and one more step with another reply, if there is one, in reserved room.
fn push_run(items: &mut Vec<Item>, steps: Steps, last: Option<StepReply>)
    requires harts { 1 ≤ steps.harts }
    requires room { vec_len items.old + (steps.count + one_if last) ≤ vec_capacity items.old }
    ensures items { all_of items.new.items ≡ all_of items.old.items
        ++ (steps_in_turn steps.turn steps.harts steps.count ++ last_of (steps.turn + steps.count) steps.harts last) }
    ensures few { vec_len items.new ≤ vec_len items.old + (steps.count + one_if last) }
    ensures capacity { vec_capacity items.old ≤ vec_capacity items.new }
{
    if steps.count > 0 {
        push_steps(items, steps);
    }
    if let Some(reply) = last {
        let hart = hart_behind(steps);
        items.push_reserved(Item::of_entry(Entry::of_step(hart, reply)));
    }
}

/// The hart whose turn it is after these steps.
fn hart_behind(steps: Steps) -> u32
    requires { 1 ≤ steps.harts }
    ensures { result ≡ (steps.turn + steps.count) % steps.harts }
{
    let harts = u64::from(steps.harts);
    ((steps.turn % harts + u64::from(steps.count)) % harts) as u32
}

/// The entry of an event, with the bytes of its frame in `room`. Takes at most one of the rooms for exchanges.
fn keep(
    version: u32,
    rooms: &mut Vec<ExchangeRoom>,
    event: HostEvent,
    reply: &HostReply,
    frame: &Option<Addressed>,
    room: Vec<u8>,
) -> Entry
    requires room { 0 < vec_len rooms.old }
    requires empty { room.items ≡ [] }
    requires fits { CanBeKept version (vec_capacity room - 1) frame.now }
    ensures entry { result ≡ record {
      event = event;
      reply = reply.now;
      frame = bytes_of version frame.now;
    } }
    ensures rooms { vec_len rooms.old ≤ vec_len rooms.new + 1 }
{
    Entry {
        exchange: keep_exchange(rooms, event, reply),
        frame: spell(version, frame, room),
    }
}

/// The exchange of an event and the reply to it. Takes one of the rooms if it needs more than a few bytes.
fn keep_exchange(rooms: &mut Vec<ExchangeRoom>, event: HostEvent, reply: &HostReply) -> Exchange
    requires room { 0 < vec_len rooms.old }
    ensures exchange { result ≡ exchange event reply.now }
    ensures rooms { vec_len rooms.old ≤ vec_len rooms.new + 1 }
{
    if Exchange::is_small(&event, reply) {
        return Exchange::small(event, reply);
    }
    let Some(room) = rooms.pop() else {
        unreachable!();
    };
    Exchange::new(room, event, reply.copy())
}

/// The bytes of a frame, if one was made, in `room`.
fn spell(version: u32, frame: &Option<Addressed>, room: Vec<u8>) -> Option<FrameBytes>
    requires empty { room.items ≡ [] }
    requires fits { CanBeKept version (vec_capacity room - 1) frame.now }
    ensures { result ≡ bytes_of version frame.now }
{
    let frame = frame.as_ref()?;
    Some(FrameBytes::of_frame(version, frame, room))
}
