//! Where a turn stands in the journal of the host that made it.

ghost use Rattle.std.specs.Prelude.{◌≡◌, ◌≤◌, ◌<◌, ◌^◌, ◌∷◌, [], if◌then◌else◌, IfErr, IfOk, length};
ghost use Rattle.rvm_recorder.specs.Items.{all_of, rounds_of, steps_in_turn};
ghost use Rattle.rvm_replay.specs.Counts.{turns_in};
ghost use Rattle.rvm_replay.specs.Turns.{EndWithTurn, IsPassed, turns_of};

use crate::counts::turns_in;
use rvm_mem::PagedMemory;
use rvm_message::ExchangeRef;
use rvm_recorder::{Entry, Item, ItemRef, Recorded, Rounds, Steps};

/// How many events a host did up to the turn that has this number, from 1, among its own, and with it.
pub(crate) fn count_to_turn<M: PagedMemory + Drop>(recorded: &Recorded<M>, own: u32) -> u32
    requires some { 1 ≤ own }
    requires told { own ≤ turns_of recorded.now.journal.entries }
    ensures { EndWithTurn recorded.now.journal.entries own result }
{
    let journal = recorded.journal();
    let _few = journal.count();
    match first_with_turn(journal.items(), own) {
        Ok(count) => count,
        Err(_) => unreachable!(),
    }
}

/// How many entries of these items there are up to the turn with this number, from 1, and with it. Fails with the number
/// of all turns if there are fewer.
#[tactic(auto, using(crate::proofs::JournalTurns::none_searched, crate::proofs::JournalTurns::more_searched, crate::proofs::JournalTurns::found_item, crate::proofs::JournalTurns::found_within, crate::proofs::JournalTurns::passed_within, crate::proofs::JournalTurns::all_searched))]
fn first_with_turn(items: &[Item], turn: u32) -> Result<u32, u32>
    requires some { 1 ≤ turn }
    requires short { length (all_of items.now) < 2 ^ 32 }
    ensures found { IfOk result (EndWithTurn (all_of items.now) turn) }
    ensures few { IfErr result (λ all. (turns_of (all_of items.now) ≡ all) × (all < turn)) }
{
    let mut left = turn;
    let mut count = 0;
    for item in items {
        match first_of_item(item, left) {
            Ok(more) => return Ok(count + more),
            Err(passed) => {
                left -= passed.turns;
                count += passed.entries;
            }
        }
    }
    Err(turn - left)
}

/// What entries have among which a turn was not found.
#[derive(Clone, Copy)]
struct Passed {
    turns: u32,
    entries: u32,
}

/// How many entries of an item there are up to the turn with this number, from 1, and with it. Fails with what it has if
/// it has fewer turns.
fn first_of_item(item: &Item, turn: u32) -> Result<u32, Passed>
    requires { 1 ≤ turn }
    ensures found { IfOk result (EndWithTurn item.now turn) }
    ensures passed { IfErr result (IsPassed item.now turn) }
{
    match item.look() {
        ItemRef::Entry(entry) => first_of_entry(entry, turn),
        ItemRef::Steps(steps) => first_of_steps(steps, turn),
        ItemRef::Rounds(rounds) => first_of_rounds(rounds, turn),
    }
}

/// The same of one entry.
#[tactic(auto, using(crate::proofs::JournalTurns::first_alone, crate::proofs::JournalTurns::alone_passed))]
fn first_of_entry(entry: &Entry, turn: u32) -> Result<u32, Passed>
    requires { 1 ≤ turn }
    ensures found { IfOk result (EndWithTurn (entry.now ∷ []) turn) }
    ensures passed { IfErr result (IsPassed (entry.now ∷ []) turn) }
{
    if !is_turn(entry) {
        return Err(Passed {
            turns: 0,
            entries: 1,
        });
    }
    if turn == 1 {
        return Ok(1);
    }
    Err(Passed {
        turns: 1,
        entries: 1,
    })
}

/// The same of steps.
#[tactic(auto, using(crate::proofs::JournalTurns::first_steps, crate::proofs::JournalTurns::steps_passed))]
fn first_of_steps(steps: Steps, turn: u32) -> Result<u32, Passed>
    requires { 1 ≤ turn }
    ensures found { IfOk result (EndWithTurn (steps_in_turn steps.turn steps.harts steps.count) turn) }
    ensures passed { IfErr result (IsPassed (steps_in_turn steps.turn steps.harts steps.count) turn) }
{
    if turn <= steps.count {
        return Ok(turn);
    }
    Err(Passed {
        turns: steps.count,
        entries: steps.count,
    })
}

/// The same of rounds: a drain comes before each turn that is the first of a round, but the first one.
#[tactic(auto, using(crate::proofs::JournalTurns::first_rounds, crate::proofs::JournalTurns::rounds_passed, crate::proofs::JournalTurns::rounds_within, crate::proofs::JournalTurns::some_steps))]
fn first_of_rounds(rounds: Rounds, turn: u32) -> Result<u32, Passed>
    requires { 1 ≤ turn }
    ensures found { IfOk result (EndWithTurn (rounds_of rounds) turn) }
    ensures passed { IfErr result (IsPassed (rounds_of rounds) turn) }
{
    let turns = rounds.turns();
    if turn <= turns {
        return Ok(turn + (turn - 1) / rounds.steps);
    }
    Err(Passed {
        turns,
        entries: rounds.len(),
    })
}

/// Whether an entry is of a turn.
fn is_turn(entry: &Entry) -> bool
    ensures { turns_in entry.now.event ≡ (if result then 1 else 0) }
{
    match entry.exchange().look() {
        ExchangeRef::Step { .. } => true,
        ExchangeRef::Dry(_) | ExchangeRef::Copied { .. } | ExchangeRef::Stored { .. } => false,
        ExchangeRef::Other { event, reply: _ } => turns_in(event) == 1,
    }
}
