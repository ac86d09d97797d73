//! What the entries of a journal add up to.

ghost use Rattle.std.specs.Prelude.{◌≡◌, ◌∷◌, [], length};
ghost use Rattle.rvm_message.specs.Taken.{bytes_in, taken_by};
ghost use Rattle.rvm_message.specs.declared.event.HostEvent.TheVariants.{Do};
ghost use Rattle.rvm_replay.specs.Counts.{Adds, counts_at, counts_of, frames_in, moves_in, plus, turns_in};
ghost use Rattle.rvm_recorder.specs.Items.{all_of, rounds_of, steps_in_turn};

use rvm_board::{BoardEvent, BoardReply};
use rvm_message::{Command, ExchangeRef, HostEvent, HostReply};
use rvm_recorder::{Entry, Item, ItemRef, Rounds, Steps};

/// What entries add up to. A number that is too large stays at 2^64 - 1.
#[derive(Clone, Copy)]
pub(crate) struct Counts {
    /// All of them.
    pub events: u64,
    /// Steps that harts were asked for.
    pub turns: u64,
    /// Frames that came.
    pub frames: u64,
    /// Moves after which the guest was given up.
    pub moves: u64,
    /// Bytes that drains took.
    pub console: u64,
}

impl Counts {
    /// What no entries add up to.
    pub(crate) fn none() -> Counts
        ensures { result ≡ counts_of [] }
    {
        numbers(0, 0, 0, 0, 0)
    }

    /// What the entries of these items add up to.
    pub(crate) fn of(items: &[Item]) -> Counts
        ensures { result ≡ counts_of (all_of items.now) }
    {
        let mut sum = Counts::none();
        for item in items {
            sum = sum.with(counts_of_item(item));
        }
        sum
    }

    /// These counts with others added.
    pub(crate) fn with(self, more: Counts) -> Counts
        ensures { result ≡ plus self more }
    {
        Counts {
            events: self.events.saturating_add(more.events),
            turns: self.turns.saturating_add(more.turns),
            frames: self.frames.saturating_add(more.frames),
            moves: self.moves.saturating_add(more.moves),
            console: self.console.saturating_add(more.console),
        }
    }
}

/// Counts of these numbers.
fn numbers(events: u64, turns: u64, frames: u64, moves: u64, console: u64) -> Counts
    ensures { result ≡ record { events = events; turns = turns; frames = frames; moves = moves; console = console } }
{
    Counts {
        events,
        turns,
        frames,
        moves,
        console,
    }
}

/// What the entries of an item add.
fn counts_of_item(item: &Item) -> Counts
    ensures { Adds result item.now }
{
    match item.look() {
        ItemRef::Entry(entry) => counts_of_entry(entry),
        ItemRef::Steps(steps) => counts_of_steps(steps),
        ItemRef::Rounds(rounds) => counts_of_rounds(rounds),
    }
}

/// What steps add.
fn counts_of_steps(steps: Steps) -> Counts
    ensures { Adds result (steps_in_turn steps.turn steps.harts steps.count) }
{
    let count = u64::from(steps.count);
    numbers(count, count, 0, 0, 0)
}

/// What rounds add.
fn counts_of_rounds(rounds: Rounds) -> Counts
    ensures { Adds result (rounds_of rounds) }
{
    let count = u64::from(rounds.count);
    let steps = u64::from(rounds.steps);
    let turns = count.saturating_mul(steps);
    numbers(turns.saturating_add(count), turns, 0, 0, 0)
}

/// What one entry adds.
#[tactic(auto, using(crate::proofs::Counting::entry_adds))]
fn counts_of_entry(entry: &Entry) -> Counts
    ensures { Adds result (entry.now ∷ []) }
{
    counts_at(entry)
}

/// What one entry adds.
#[tactic(auto, using(crate::proofs::Counting::no_move))]
fn counts_at(entry: &Entry) -> Counts
    ensures { result ≡ counts_at entry.now }
{
    match entry.exchange().look() {
        ExchangeRef::Step { .. } => numbers(1, 1, 0, 0, 0),
        ExchangeRef::Dry(_) | ExchangeRef::Copied { .. } => numbers(1, 0, 0, 0, 0),
        ExchangeRef::Stored { .. } => numbers(1, 0, 1, 0, 0),
        ExchangeRef::Other { event, reply } => numbers(
            1,
            turns_in(event),
            frames_in(event),
            moves_in(reply),
            bytes_taken(event, reply),
        ),
    }
}

/// 1 if an event is a step of a hart, else 0.
pub(crate) fn turns_in(event: &HostEvent) -> u64
    ensures { result ≡ turns_in event.now }
{
    match event {
        HostEvent::Do(command) => u64::from(turns_of(command)),
        HostEvent::Came(..) => 0,
    }
}

/// 1 if a command is a step of a hart, else 0.
pub(crate) fn turns_of(command: &Command) -> u32
    ensures { result ≡ turns_in (Do command.now) }
{
    match command {
        Command::Board(BoardEvent::Step(_hart)) => 1,
        _ => 0,
    }
}

/// 1 if an event is that a frame came, else 0.
fn frames_in(event: &HostEvent) -> u64
    ensures { result ≡ frames_in event.now }
{
    match event {
        HostEvent::Do(_) => 0,
        HostEvent::Came(..) => 1,
    }
}

/// 1 if a reply is that the guest is given up, since the target has it, else 0.
fn moves_in(reply: &HostReply) -> u64
    ensures { result ≡ moves_in reply.now }
{
    match reply {
        HostReply::Committed(_) => 1,
        _ => 0,
    }
}

/// How many bytes an event took, if it was a drain.
fn bytes_taken(event: &HostEvent, reply: &HostReply) -> u64
    ensures { result ≡ length (taken_by event.now reply.now) }
{
    let HostEvent::Do(command) = event else {
        return 0;
    };
    match command {
        Command::Board(BoardEvent::Drain(_count)) => bytes_in(reply),
        _ => 0,
    }
}

/// How many bytes are in a reply.
fn bytes_in(reply: &HostReply) -> u64
    ensures { result ≡ length (bytes_in reply.now) }
{
    match reply {
        HostReply::Board(BoardReply::Bytes(bytes)) => bytes.as_slice().len() as u64,
        _ => 0,
    }
}
