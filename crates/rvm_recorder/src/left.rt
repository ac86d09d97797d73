//! The entries of a journal, read in order.

ghost use Rattle.std.specs.Prelude.{◌≡◌, ◌≤◌, ◌↔◌, ◌+◌, ◌%◌, ◌*◌, ◌<◌, ◌^◌, ℕ, List, ◌∷◌, ◌++◌, [], IfSome, MatchOption, Some, slice_get, take, true};
ghost use Rattle.rvm_recorder.specs.Rounds.{IsRowAt};
ghost use Rattle.rvm_recorder.specs.Told.{exchange_told, retired_entry, told_entry};
ghost use Rattle.rvm_recorder.specs.Items.{all_of, dry_entry, entries_at, rounds_of, steps_in_turn};
ghost use Rattle.rvm_recorder.specs.Entries.{PlainEntry, silent};
ghost use Rattle.rvm_recorder.specs.Passing.{AreFirst, IsPassed};

use crate::entry::Entry;
use crate::item::{Item, ItemRef};
use crate::rounds::Rounds;
use crate::steps::Steps;
use rvm_hart::Stepped;
use rvm_message::{Exchange, StepReply};
use std::marker::Model;

/// The entries of items that are left to be read.
#[derive(Drop)]
pub struct Left<'a> {
    items: &'a [Item],
    /// How many items are passed, and how many entries of the next one.
    passed: usize,
    skipped: u32,
}

/// A view of an entry: any entry, a step of this hart that retired an instruction, or a drain of at most this many
/// bytes that found none.
#[derive(Clone, Copy)]
pub enum Told<'a> {
    Entry(&'a Entry),
    Step(u32),
    Dry(u32),
}

impl<'a> Model for Left<'a> {
    ghost use Rattle.std.specs.Prelude.{List, drop};
    ghost use Rattle.rvm_recorder.specs.Entries.{PlainEntry};
    ghost use Rattle.rvm_recorder.specs.Items.{all_of};

    ghost Value = { List PlainEntry };

    ghost view = { λ l. drop l.skipped (all_of (drop l.passed l.items.now)) };
}

impl<'a> Left<'a> {
    /// Makes a reader of all entries of these items.
    pub fn new(items: &'a [Item]) -> Left<'a>
        ensures { result ≡ all_of items.now }
    {
        Left {
            items,
            passed: 0,
            skipped: 0,
        }
    }

    /// Returns the next entry; None at the end.
    pub fn next(&mut self) -> Option<Told<'a>>
        ensures { MatchOption result (self.old ≡ []) (λ t. self.old ≡ told_entry t ∷ self.new) }
    {
        while self.passed < self.items.len() {
            let item = &self.items[self.passed];
            match item.look() {
                ItemRef::Entry(entry) => {
                    if self.skipped == 0 {
                        self.passed += 1;
                        return Some(Told::Entry(entry));
                    }
                    self.skipped -= 1;
                }
                ItemRef::Steps(steps) => {
                    if self.skipped < steps.count {
                        let hart = hart_behind(&steps, self.skipped);
                        self.skipped += 1;
                        return Some(Told::Step(hart));
                    }
                    self.skipped -= steps.count;
                }
                ItemRef::Rounds(rounds) => {
                    if self.skipped < rounds.len() {
                        let told = told_in(&rounds, self.skipped);
                        self.skipped += 1;
                        return Some(told);
                    }
                    self.skipped -= rounds.len();
                }
            }
            self.passed += 1;
        }
        None
    }

    /// Passes at most `most` of the next entries, as far as they are steps of this many harts from `turn` on that are
    /// kept as one item; returns how many.
    pub fn skip(&mut self, turn: u64, harts: u32, most: u32) -> u32
        ensures few { result ≤ most }
        ensures skipped { self.old ≡ steps_in_turn turn harts result ++ self.new }
    {
        if self.passed >= self.items.len() {
            return 0;
        }
        let item = &self.items[self.passed];
        let n = most.min(in_a_row(item.look(), self.skipped, turn, harts));
        self.skipped += n;
        n
    }

    /// Passes at most `most` of the next entries, as far as they are the first entries of these rounds and of an item
    /// that begins here; returns how many.
    pub fn skip_rounds(&mut self, rounds: &Rounds, most: u32) -> u32
        ensures few { result ≤ most }
        ensures within { result ≤ rounds.now.count * (rounds.now.steps + 1) }
        ensures skipped { self.old ≡ take result (rounds_of rounds.now) ++ self.new }
    {
        if self.skipped != 0 || self.passed >= self.items.len() {
            return 0;
        }
        let item = &self.items[self.passed];
        let n = most.min(in_common(item.look(), rounds));
        self.skipped = n;
        n
    }
}

/// How many of their first entries an item and rounds have in common; 0 if the item is not one of rounds.
fn in_common(item: ItemRef<'_>, rounds: &Rounds) -> u32
    ensures within { result ≤ rounds.now.count * (rounds.now.steps + 1) }
    ensures same { (n : ℕ) → n ≤ result → AreFirst n (rounds_of rounds.now) (entries_at item.entry) }
{
    match item {
        ItemRef::Rounds(kept) => shared(&kept, rounds),
        _ => 0,
    }
}

/// How many of their first entries two lists of rounds have in common; 0 if their rounds differ.
fn shared(kept: &Rounds, rounds: &Rounds) -> u32
    ensures within { result ≤ rounds.now.count * (rounds.now.steps + 1) }
    ensures same { (n : ℕ) → n ≤ result → AreFirst n (rounds_of rounds.now) (rounds_of kept.now) }
{
    if !is_alike(kept, rounds) {
        return 0;
    }
    kept.len().min(rounds.len())
}

/// Whether two lists of rounds begin at the same turn and their rounds are the same.
fn is_alike(kept: &Rounds, rounds: &Rounds) -> bool
    ensures { result ≡ true → (kept.now.turn ≡ rounds.now.turn) × (kept.now.harts ≡ rounds.now.harts)
        × (kept.now.steps ≡ rounds.now.steps) × (kept.now.drain ≡ rounds.now.drain) }
{
    kept.turn == rounds.turn
        && kept.harts == rounds.harts
        && kept.steps == rounds.steps
        && kept.drain == rounds.drain
}

/// The hart of the step at this index among the entries of rounds; None if the entry there is a drain.
fn hart_in(rounds: &Rounds, skipped: u32) -> Option<u32>
    requires { skipped < rounds.now.count * (rounds.now.steps + 1) }
    ensures { MatchOption result (slice_get (rounds_of rounds.now) skipped ≡ Some (dry_entry rounds.now.drain))
        (λ h. slice_get (rounds_of rounds.now) skipped ≡ Some (retired_entry h)) }
{
    let passed = skipped / (rounds.steps + 1);
    let behind = skipped % (rounds.steps + 1);
    if behind == rounds.steps {
        return None;
    }
    Some(hart_behind(&rounds.first(), skipped - passed))
}

/// The entry at this index among those of rounds.
fn told_in<'a>(rounds: &Rounds, skipped: u32) -> Told<'a>
    requires { skipped < rounds.now.count * (rounds.now.steps + 1) }
    ensures { slice_get (rounds_of rounds.now) skipped ≡ Some (told_entry result) }
{
    match hart_in(rounds, skipped) {
        None => Told::Dry(rounds.drain),
        Some(hart) => Told::Step(hart),
    }
}

/// Returns the event and the reply of the entry at index `skipped` of rounds, which must be below their length.
pub fn exchange_in(rounds: &Rounds, skipped: u32) -> Exchange
    requires { skipped < rounds.now.count * (rounds.now.steps + 1) }
    ensures { slice_get (rounds_of rounds.now) skipped ≡ Some (silent result.event result.reply) }
{
    match hart_in(rounds, skipped) {
        None => Exchange::dry(rounds.drain),
        Some(hart) => Exchange::of_step(hart, StepReply::Stepped(Stepped::Retired)),
    }
}

/// Returns the steps that are left of the round of the entry at index `skipped`. None if the index is past the last
/// round, or if the turn exceeds 64 bits.
pub fn row_at(rounds: &Rounds, skipped: u32) -> Option<Steps>
    ensures { IfSome result (λ s. IsRowAt rounds.now skipped s) }
{
    if skipped >= rounds.len() {
        return None;
    }
    let passed = skipped / (rounds.steps + 1);
    let behind = skipped % (rounds.steps + 1);
    let turn = rounds.turn.checked_add(u64::from(skipped - passed))?;
    Some(Steps {
        turn,
        harts: rounds.harts,
        count: rounds.steps - behind,
    })
}

/// How many consecutive steps of this many harts from a turn on an item has after its first `skipped` entries.
fn in_a_row(item: ItemRef<'_>, skipped: u32, turn: u64, harts: u32) -> u32
    ensures few { skipped + result < 2 ^ 32 }
    ensures there { (n : ℕ) → n ≤ result → (rest : List PlainEntry) → IsPassed (entries_at item.entry) skipped turn harts n rest }
{
    match item {
        ItemRef::Entry(_entry) => 0,
        ItemRef::Steps(steps) => left_of_steps(&steps, skipped, turn, harts),
        ItemRef::Rounds(rounds) => left_of_round(&rounds, skipped, turn, harts),
    }
}

/// How many steps are left after the first `skipped`; 0 unless the next one is that of this turn of this many harts.
fn left_of_steps(steps: &Steps, skipped: u32, turn: u64, harts: u32) -> u32
    ensures few { skipped + result < 2 ^ 32 }
    ensures there { (n : ℕ) → n ≤ result → (rest : List PlainEntry)
        → IsPassed (steps_in_turn steps.now.turn steps.now.harts steps.now.count) skipped turn harts n rest }
{
    if !is_next(steps, skipped, turn, harts) {
        return 0;
    }
    steps.count - skipped
}

/// How many steps are left of the round of the entry at index `skipped`; 0 unless the next one is that of this turn of
/// this many harts.
fn left_of_round(rounds: &Rounds, skipped: u32, turn: u64, harts: u32) -> u32
    ensures few { skipped + result < 2 ^ 32 }
    ensures there { (n : ℕ) → n ≤ result → (rest : List PlainEntry)
        → IsPassed (rounds_of rounds.now) skipped turn harts n rest }
{
    let Some(row) = row_at(rounds, skipped) else {
        return 0;
    };
    if turn != row.turn || harts != row.harts {
        return 0;
    }
    row.count
}

/// Whether the step after the first `skipped` is that of this turn of this many harts.
fn is_next(steps: &Steps, skipped: u32, turn: u64, harts: u32) -> bool
    ensures { result ≡ true → (skipped ≤ steps.now.count) × (turn ≡ steps.now.turn + skipped) × (harts ≡ steps.now.harts) }
{
    if skipped > steps.count || harts != steps.harts {
        return false;
    }
    match steps.turn.checked_add(u64::from(skipped)) {
        None => false,
        Some(next) => turn == next,
    }
}

/// Returns the hart whose turn it is `behind` turns after the first of these steps.
pub fn hart_behind(steps: &Steps, behind: u32) -> u32
    ensures { result ≡ (steps.now.turn + behind) % steps.now.harts }
{
    let harts = u64::from(steps.harts);
    ((steps.turn % harts + u64::from(behind)) % harts) as u32
}

impl Told<'_> {
    /// Whether the entry has the event and the reply of this exchange.
    pub fn is(&self, exchange: &Exchange) -> bool
        ensures { (result ≡ true) ↔ (exchange.now ≡ exchange_told self.now) }
    {
        match self {
            Told::Entry(entry) => exchange.is_same(entry.exchange()),
            Told::Dry(drain) => exchange.is_same(&Exchange::dry(*drain)),
            Told::Step(hart) => {
                let step = Exchange::of_step(*hart, StepReply::Stepped(Stepped::Retired));
                exchange.is_same(&step)
            }
        }
    }
}
