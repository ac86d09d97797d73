//! The items of a journal: entries, runs of steps, and rounds.

ghost use Rattle.std.specs.Prelude.{◌≡◌, ◌+◌, ◌++◌, ◌∷◌, ◌*◌, ◌^◌, ◌<◌, ◌≤◌, [], length, IfErr, IfOk, IfSome, vec_capacity, vec_len};
ghost use Rattle.rvm_recorder.specs.Items.{all_of, dry_entry, entries_at, rounds_of, steps_in_turn};
ghost use Rattle.rvm_recorder.specs.Rounds.{GoesOn};

use crate::entry::Entry;
use crate::rounds::Rounds;
use crate::steps::Steps;
use std::marker::Model;

/// An item of a journal: one entry, or any number of entries of steps that retired an instruction, or of rounds of such
/// steps.
#[derive(Drop)]
pub struct Item {
    kind: Kind,
}

#[derive(Drop)]
enum Kind {
    Entry(Entry),
    Steps(Steps),
    Rounds(Rounds),
}

/// A view of an item.
#[derive(Clone, Copy)]
pub enum ItemRef<'a> {
    Entry(&'a Entry),
    Steps(Steps),
    Rounds(Rounds),
}

impl Model for Item {
    ghost use Rattle.std.specs.Prelude.{List};
    ghost use Rattle.rvm_recorder.specs.Entries.{PlainEntry};

    ghost Value = { List PlainEntry };

    // Below `Value`, since it reads a type of this crate.
    ghost use Rattle.rvm_recorder.specs.Items.{entries_of};

    ghost view = { λ i. entries_of i.kind };
}

impl Item {
    /// The item of one entry.
    pub(crate) fn of_entry(entry: Entry) -> Item
        ensures { result ≡ entry ∷ [] }
    {
        Item {
            kind: Kind::Entry(entry),
        }
    }

    /// The item of steps.
    pub(crate) fn of_steps(steps: Steps) -> Item
        ensures { result ≡ steps_in_turn steps.turn steps.harts steps.count }
    {
        Item {
            kind: Kind::Steps(steps),
        }
    }

    /// The item of rounds.
    pub(crate) fn of_rounds(rounds: Rounds) -> Item
        ensures { result ≡ rounds_of rounds }
    {
        Item {
            kind: Kind::Rounds(rounds),
        }
    }

    /// Returns a view of the entry, the steps or the rounds.
    pub fn look(&self) -> ItemRef<'_>
        ensures { entries_at result ≡ self.now }
    {
        match &self.kind {
            Kind::Entry(entry) => ItemRef::Entry(entry),
            Kind::Steps(steps) => ItemRef::Steps(*steps),
            Kind::Rounds(rounds) => ItemRef::Rounds(*rounds),
        }
    }

    /// Returns how many entries the item has.
    #[tactic(auto, using(crate::proofs::StepRuns::steps_length, crate::proofs::InRounds::rounds_length))]
    pub fn len(&self) -> u32
        ensures { result ≡ length self.now }
    {
        match &self.kind {
            Kind::Entry(_) => 1,
            Kind::Steps(steps) => steps.count,
            Kind::Rounds(rounds) => rounds.len(),
        }
    }

    /// Joins this item with `more`, if it has the steps of the turns just before. Hands it back otherwise, or if there
    /// are too many steps to count.
    fn joined(self, more: Steps) -> Result<Item, Item>
        ensures joined { IfOk result (λ i. i ≡ self ++ steps_in_turn more.turn more.harts more.count) }
        ensures alone { IfErr result (λ i. i ≡ self) }
    {
        let Kind::Steps(steps) = &self.kind else {
            return Err(self);
        };
        let Some(count) = count_with(*steps, more) else {
            return Err(self);
        };
        Ok(Item::of_steps(Steps {
            turn: steps.turn,
            harts: steps.harts,
            count,
        }))
    }

    /// The round of these steps and a drain of at most `drain` bytes after them, which found none. Hands any other item
    /// back, and steps that are too many for a round.
    fn with_drain(self, drain: u32) -> Result<Rounds, Item>
        ensures round { IfOk result (λ r. rounds_of r ≡ self ++ dry_entry drain ∷ []) }
        ensures alone { IfErr result (λ i. i ≡ self) }
    {
        let Kind::Steps(steps) = &self.kind else {
            return Err(self);
        };
        if steps.count >= u32::MAX - 1 {
            return Err(self);
        }
        Ok(Rounds {
            turn: steps.turn,
            harts: steps.harts,
            steps: steps.count,
            drain,
            count: 1,
        })
    }

    /// Joins this item with `more`, if it has rounds that these continue. Hands it back otherwise, or if there are too
    /// many rounds to count.
    fn joined_rounds(self, more: Rounds) -> Result<Item, Item>
        ensures joined { IfOk result (λ i. i ≡ self ++ rounds_of more) }
        ensures alone { IfErr result (λ i. i ≡ self) }
    {
        let Kind::Rounds(rounds) = &self.kind else {
            return Err(self);
        };
        match joined(*rounds, more) {
            None => Err(self),
            Some(all) => Ok(Item::of_rounds(all)),
        }
    }
}

/// Joins rounds with `more`, if these are the rounds of the turns just after, with as many steps of as many harts
/// each and the same drain. Returns None otherwise, or if they are too many to count.
pub fn joined(rounds: Rounds, more: Rounds) -> Option<Rounds>
    ensures { IfSome result (λ r. rounds_of r ≡ rounds_of rounds ++ rounds_of more) }
{
    let count = rounds_with(rounds, more)?;
    Some(Rounds {
        turn: rounds.turn,
        harts: rounds.harts,
        steps: rounds.steps,
        drain: rounds.drain,
        count,
    })
}

/// How many rounds there are with those of `more`. None unless these continue them, or if there are too many to count.
fn rounds_with(rounds: Rounds, more: Rounds) -> Option<u32>
    ensures goes_on { IfSome result (λ n. GoesOn rounds more n) }
    ensures few { IfSome result (λ n. n * (rounds.steps + 1) < 2 ^ 32) }
{
    if more.harts != rounds.harts {
        return None;
    }
    if more.steps != rounds.steps {
        return None;
    }
    if more.drain != rounds.drain {
        return None;
    }
    let made = u64::from(rounds.count).checked_mul(u64::from(rounds.steps))?;
    let next = rounds.turn.checked_add(made)?;
    if more.turn != next {
        return None;
    }
    let count = rounds.count.checked_add(more.count)?;
    let _len = count.checked_mul(rounds.steps + 1)?;
    Some(count)
}

/// How many steps there are with those of `more`. None unless these are the steps of the turns just after, or if there
/// are too many to count.
fn count_with(steps: Steps, more: Steps) -> Option<u32>
    ensures { IfSome result (λ n. (n ≡ steps.count + more.count) × (more.turn ≡ steps.turn + steps.count)
        × (more.harts ≡ steps.harts)) }
{
    if more.harts != steps.harts {
        return None;
    }
    let next = steps.turn.checked_add(u64::from(steps.count))?;
    if more.turn != next {
        return None;
    }
    steps.count.checked_add(more.count)
}

/// Appends steps to items, in reserved room.
pub(crate) fn push_steps(items: &mut Vec<Item>, steps: Steps)
    requires { vec_len items.old < vec_capacity items.old }
    ensures items { all_of items.new.items
        ≡ all_of items.old.items ++ steps_in_turn steps.turn steps.harts steps.count }
    ensures few { vec_len items.new ≤ vec_len items.old + 1 }
    ensures capacity { vec_capacity items.old ≤ vec_capacity items.new }
{
    let Some(last) = items.pop() else {
        items.push_reserved(Item::of_steps(steps));
        return;
    };
    match last.joined(steps) {
        Ok(item) => items.push_reserved(item),
        Err(item) => {
            items.push_reserved(item);
            items.push_reserved(Item::of_steps(steps));
        }
    }
}

/// Appends rounds to items, in reserved room.
fn push_rounds(items: &mut Vec<Item>, rounds: Rounds)
    requires { vec_len items.old < vec_capacity items.old }
    ensures items { all_of items.new.items
        ≡ all_of items.old.items ++ rounds_of rounds }
    ensures few { vec_len items.new ≤ vec_len items.old + 1 }
    ensures capacity { vec_capacity items.old ≤ vec_capacity items.new }
{
    let Some(last) = items.pop() else {
        items.push_reserved(Item::of_rounds(rounds));
        return;
    };
    match last.joined_rounds(rounds) {
        Ok(item) => items.push_reserved(item),
        Err(item) => {
            items.push_reserved(item);
            items.push_reserved(Item::of_rounds(rounds));
        }
    }
}

/// Appends to items a drain of at most `drain` bytes that found none, in reserved room.
pub(crate) fn push_dry(items: &mut Vec<Item>, drain: u32)
    requires { vec_len items.old < vec_capacity items.old }
    ensures items { all_of items.new.items ≡ all_of items.old.items ++ dry_entry drain ∷ [] }
    ensures few { vec_len items.new ≤ vec_len items.old + 1 }
    ensures capacity { vec_capacity items.old ≤ vec_capacity items.new }
{
    let Some(last) = items.pop() else {
        items.push_reserved(Item::of_entry(Entry::of_dry(drain)));
        return;
    };
    match last.with_drain(drain) {
        Ok(rounds) => push_rounds(items, rounds),
        Err(item) => {
            items.push_reserved(item);
            items.push_reserved(Item::of_entry(Entry::of_dry(drain)));
        }
    }
}
