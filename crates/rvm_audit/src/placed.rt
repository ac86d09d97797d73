//! Events in order. Steps and rounds are kept as the runs that they are in a journal.

ghost use Rattle.std.specs.Prelude.{◌≡◌, ◌∷◌, ◌++◌, ◌+◌, ◌<◌, ◌^◌, [], IfOk, IfSome, MatchOption, OnOk, Some, slice_get};
ghost use Rattle.rvm_audit.specs.Placed.{AreTurns, BeginsWith, IsPiece, all_events, events_behind, events_of, rounds_at, steps_at};
ghost use Rattle.rvm_message.specs.declared.event.Command.{Command};
ghost use Rattle.rvm_message.specs.declared.event.HostEvent.TheVariants.{Do};
ghost use Rattle.rvm_core.specs.declared.event.Event.TheVariants.{At};

use rvm_board::BoardEvent;
use rvm_core::Event;
use rvm_message::{Command, Exchange, ExchangeRef, HostEvent};
use rvm_recorder::{Rounds, Steps, exchange_in, hart_behind};
use std::alloc::{AllocError, Global};
use std::marker::Model;

/// Events of a world in order. Contracts see the list of them.
#[derive(Drop)]
pub struct Order {
    items: Vec<Placed>,
}

/// One event, or all events of a host's steps or rounds, however many there are.
#[derive(Drop)]
enum Placed {
    Event(Event),
    Steps(u8, Steps),
    Rounds(u8, Rounds),
}

impl Model for Order {
    ghost use Rattle.std.specs.Prelude.{List};
    ghost use Rattle.rvm_core.specs.declared.event.Event.{Event};

    ghost Value = { List Event };

    // Below `Value`, since it reads a type of this crate.
    ghost use Rattle.rvm_audit.specs.Placed.{all_events};

    ghost view = { λ o. all_events o.items.items };
}

impl Order {
    /// The order of no events.
    pub(crate) fn new(alloc: Global) -> Order
        ensures { result ≡ [] }
    {
        Order {
            items: Vec::new(alloc),
        }
    }

    /// Appends an event.
    pub(crate) fn push(&mut self, event: Event) -> Result<(), AllocError>
        ensures { OnOk result (self.new ≡ self.old ++ event ∷ []) }
    {
        push_placed(&mut self.items, Placed::Event(event))
    }

    /// Appends the events of a host's steps.
    pub(crate) fn push_steps(&mut self, host: u8, steps: Steps) -> Result<(), AllocError>
        ensures { OnOk result (self.new
            ≡ self.old ++ steps_at host steps.turn steps.harts steps.count) }
    {
        push_placed(&mut self.items, Placed::Steps(host, steps))
    }

    /// Appends the events of a host's rounds.
    pub(crate) fn push_rounds(&mut self, host: u8, rounds: Rounds) -> Result<(), AllocError>
        ensures { OnOk result (self.new ≡ self.old
            ++ rounds_at host rounds.turn rounds.harts rounds.steps rounds.drain rounds.count) }
    {
        push_placed(&mut self.items, Placed::Rounds(host, rounds))
    }

    /// Goes through the events from the first one on.
    pub fn events(&self) -> Events<'_>
        ensures { result ≡ self.now }
    {
        Events {
            items: self.items.as_slice(),
            skipped: 0,
        }
    }

    /// Returns the events as a list. Room for `count` of them is allocated at once.
    pub(crate) fn spelled(&self, alloc: Global, count: usize) -> Result<Vec<Event>, AllocError>
        ensures { IfOk result (λ events. events.items ≡ self.now) }
    {
        let mut events = Vec::with_capacity(alloc, count)?;
        let mut left = self.events();
        while let Some(event) = left.next() {
            events.push(event)?;
        }
        Ok(events)
    }
}

/// Appends one piece to the pieces of an order.
fn push_placed(items: &mut Vec<Placed>, placed: Placed) -> Result<(), AllocError>
    ensures { OnOk result (all_events items.new.items ≡ all_events items.old.items ++ events_of placed) }
{
    items.push(placed)?;
    Ok(())
}

/// What comes next in an order.
#[derive(Drop)]
pub enum Piece {
    /// One event.
    Event(Event),
    /// Consecutive turns of a host, one or more, with the drains between them and after them.
    Turns(HostTurns),
}

/// Consecutive turns of a host: steps of its harts, one after the other.
#[derive(Clone, Copy, Debug, PartialEq, Eq)]
pub struct HostTurns {
    /// The number of the host.
    pub host: u8,
    /// How many turns there are.
    pub turns: u32,
}

/// The events of an order that have not been returned yet.
#[derive(Drop)]
pub struct Events<'a> {
    /// What is left of the order. The first `skipped` events of its first piece have been returned.
    items: &'a [Placed],
    skipped: u32,
}

impl<'a> Model for Events<'a> {
    ghost use Rattle.std.specs.Prelude.{List};
    ghost use Rattle.rvm_core.specs.declared.event.Event.{Event};

    ghost Value = { List Event };

    // Below `Value`, since it reads a type of this crate.
    ghost use Rattle.rvm_audit.specs.Placed.{events_behind};

    ghost view = { λ e. events_behind e.items.now e.skipped };
}

impl<'a> Events<'a> {
    /// Returns the next event; none if all have been returned.
    pub fn next(&mut self) -> Option<Event>
        ensures { MatchOption result (self.old ≡ []) (λ e. self.old ≡ e ∷ self.new) }
    {
        while let Some((placed, rest)) = self.items.split_first() {
            if let Some(event) = event_at(placed, self.skipped) {
                self.skipped += 1;
                return Some(event);
            }
            self.items = rest;
            self.skipped = 0;
        }
        None
    }

    /// Returns the next event, or all turns of the run that it begins, if it is the first of one; none if all events have
    /// been returned.
    #[tactic(auto, using(crate::proofs::Pieces::begins_behind))]
    pub fn next_piece(&mut self) -> Option<Piece>
        ensures { MatchOption result (self.old ≡ []) (λ p. IsPiece p self.old self.new) }
    {
        let (items, skipped) = unfinished(self.items, self.skipped);
        if skipped == 0 {
            if let Some((turns, rest)) = first_turns(items) {
                *self = Events {
                    items: rest,
                    skipped: 0,
                };
                return Some(Piece::Turns(turns));
            }
        }
        match self.next() {
            Some(event) => Some(Piece::Event(event)),
            None => None,
        }
    }
}

/// What is left of an order, without its first piece if all events of that have been returned.
#[tactic(auto, using(crate::proofs::Pieces::without_first))]
fn unfinished(items: &[Placed], skipped: u32) -> (&[Placed], u32)
    ensures { events_behind result.0.now result.1 ≡ events_behind items.now skipped }
{
    match items.split_first() {
        Some((placed, rest)) if event_at(placed, skipped).is_none() => (rest, 0),
        _ => (items, skipped),
    }
}

/// The turns of the first piece of an order, if it has some, and what comes after it.
#[tactic(auto, using(crate::proofs::Pieces::begins))]
fn first_turns(items: &[Placed]) -> Option<(HostTurns, &[Placed])>
    ensures { IfSome result (λ r. BeginsWith r.0.host r.0.turns (all_events items.now) (all_events r.1.now)) }
{
    let (placed, rest) = items.split_first()?;
    let turns = turns_in(placed)?;
    Some((turns, rest))
}

/// The turns of one piece of an order, if it has some.
fn turns_in(placed: &Placed) -> Option<HostTurns>
    ensures { IfSome result (λ t. AreTurns t.host t.turns (events_of placed.now)) }
{
    match placed {
        Placed::Event(_event) => None,
        Placed::Steps(host, steps) => turns_of_steps(*host, steps),
        Placed::Rounds(host, rounds) => turns_of_rounds(*host, rounds),
    }
}

/// The turns of a host's steps, if there are some.
#[tactic(auto, using(crate::proofs::Pieces::steps_are_turns))]
fn turns_of_steps(host: u8, steps: &Steps) -> Option<HostTurns>
    ensures { IfSome result (λ t. AreTurns t.host t.turns
        (steps_at host steps.now.turn steps.now.harts steps.now.count)) }
{
    if steps.count == 0 {
        return None;
    }
    let turns = steps.count;
    Some(HostTurns { host, turns })
}

/// The turns of a host's rounds, if there are some.
#[tactic(auto, using(crate::proofs::Pieces::rounds_are_turns))]
fn turns_of_rounds(host: u8, rounds: &Rounds) -> Option<HostTurns>
    ensures { IfSome result (λ t. AreTurns t.host t.turns (rounds_at host rounds.now.turn rounds.now.harts
        rounds.now.steps rounds.now.drain rounds.now.count)) }
{
    let turns = rounds.turns();
    if turns == 0 {
        return None;
    }
    Some(HostTurns { host, turns })
}

/// The event of one piece of an order with this index, from 0; none past the last.
fn event_at(placed: &Placed, skipped: u32) -> Option<Event>
    ensures event { result ≡ slice_get (events_of placed.now) skipped }
    ensures few { IfSome result (λ e. skipped + 1 < 2 ^ 32) }
{
    match placed {
        Placed::Event(event) => {
            if skipped != 0 {
                return None;
            }
            Some(copy(event))
        }
        Placed::Steps(host, steps) => event_of_steps(*host, steps, skipped),
        Placed::Rounds(host, rounds) => event_of_rounds(*host, rounds, skipped),
    }
}

/// A copy of an event.
fn copy(event: &Event) -> Event
    ensures { result ≡ event.now }
{
    match event {
        Event::At(host, command) => Event::At(*host, command.copy()),
        Event::Deliver(place) => Event::Deliver(*place),
    }
}

/// The event of a host's steps with this index, from 0; none past the last.
fn event_of_steps(host: u8, steps: &Steps, skipped: u32) -> Option<Event>
    ensures event { result
        ≡ slice_get (steps_at host steps.now.turn steps.now.harts steps.now.count) skipped }
    ensures few { IfSome result (λ e. skipped + 1 < 2 ^ 32) }
{
    if skipped >= steps.count {
        return None;
    }
    let step = Command::Board(BoardEvent::Step(hart_behind(steps, skipped)));
    Some(Event::At(host, step))
}

/// The event of a host's rounds with this index, from 0; none past the last.
fn event_of_rounds(host: u8, rounds: &Rounds, skipped: u32) -> Option<Event>
    ensures event { result ≡ slice_get (rounds_at host rounds.now.turn rounds.now.harts
        rounds.now.steps rounds.now.drain rounds.now.count) skipped }
    ensures few { IfSome result (λ e. skipped + 1 < 2 ^ 32) }
{
    if skipped >= rounds.len() {
        return None;
    }
    command_of(host, &exchange_in(rounds, skipped))
}

/// The event of the world that an exchange of a host is, if it is a command; none if it is a frame that came.
fn command_of(host: u8, exchange: &Exchange) -> Option<Event>
    ensures { (c : Command) → exchange.now.event ≡ Do c → result ≡ Some (At host c) }
{
    let command = match exchange.look() {
        ExchangeRef::Step { hart, reply: _ } => Command::Board(BoardEvent::Step(hart)),
        ExchangeRef::Dry(count) => Command::Board(BoardEvent::Drain(count)),
        ExchangeRef::Copied { .. } => Command::Copy,
        ExchangeRef::Stored { .. } => return None,
        ExchangeRef::Other { event, reply: _ } => match event {
            HostEvent::Do(command) => command.copy(),
            HostEvent::Came(..) => return None,
        },
    };
    Some(Event::At(host, command))
}
