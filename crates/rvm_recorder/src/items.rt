//! The items of receipts: single receipts, runs of steps, and rounds.

ghost use Rattle.std.specs.Prelude.{◌≡◌, ℕ, [], Some, IfSome, true, false, ◌+◌, ◌-◌, ◌*◌, ◌++◌, ◌∷◌, ◌<◌, ◌≤◌, ◌^◌, vec_capacity, vec_len};
ghost use Rattle.rvm_recorder.specs.Runs.{all_of, calls_before, count_in, place_of, receipts_of, run_receipts, seat_in, step_receipt};
ghost use Rattle.rvm_recorder.specs.Telling.{IsOf, Skips, receipt_at};
ghost use Rattle.rvm_recorder.specs.Told.{told_entry};
ghost use Rattle.rvm_recorder.specs.Items.{steps_of};
ghost use Rattle.rvm_message.specs.Exchanges.{dry_exchange, exchange};

use crate::item::joined;
use crate::left::{Left, Told, exchange_in, hart_behind, row_at};
use crate::receipt::Receipt;
use crate::round_receipts::RoundReceipts;
use crate::rounds::Rounds;
use crate::run::StepRun;
use crate::step_receipts::StepReceipts;
use crate::steps::Steps;
use rvm_hart::Stepped;
use rvm_message::{Exchange, ExchangeRef, StepReply};

/// An item of receipts: one receipt, or any number of receipts of steps that retired an instruction, or of rounds of
/// such steps.
#[derive(Drop)]
pub enum ReceiptItem {
    One(Receipt),
    Steps(StepReceipts),
    Rounds(RoundReceipts),
}

impl ReceiptItem {
    /// Returns the place of the first receipt in the journal.
    pub fn place(&self) -> u32
        ensures { result ≡ place_of self.now }
    {
        match self {
            ReceiptItem::One(receipt) => receipt.place,
            ReceiptItem::Steps(steps) => steps.place,
            ReceiptItem::Rounds(rounds) => rounds.place,
        }
    }

    /// The number of the seat that called.
    pub(crate) fn seat(&self) -> u32
        ensures { result ≡ seat_in self.now }
    {
        match self {
            ReceiptItem::One(receipt) => receipt.seat,
            ReceiptItem::Steps(steps) => steps.seat,
            ReceiptItem::Rounds(rounds) => rounds.seat,
        }
    }

    /// How many calls the seat had made before the first receipt.
    pub(crate) fn calls(&self) -> u64
        ensures { result ≡ calls_before self.now }
    {
        match self {
            ReceiptItem::One(receipt) => receipt.count,
            ReceiptItem::Steps(steps) => steps.count,
            ReceiptItem::Rounds(rounds) => rounds.count,
        }
    }

    /// How many calls the seat had made before the last receipt.
    pub(crate) fn last_calls(&self) -> u64
        ensures { result ≡ calls_before self.now + (count_in self.now - 1) }
    {
        match self {
            ReceiptItem::One(receipt) => receipt.count,
            ReceiptItem::Steps(steps) => steps.count + u64::from(steps.steps.count - 1),
            ReceiptItem::Rounds(rounds) => rounds.count + u64::from(rounds.rounds.len() - 1),
        }
    }

    /// Passes the next entries, as far as a quick test finds that they belong to the receipts from `index` on and lie
    /// before `until`, the place of the next item of receipts. Returns how many; 0 for a single receipt.
    pub(crate) fn skip(&self, index: u32, left: &mut Left<'_>, until: Option<u32>) -> u32
        requires { index ≤ count_in self.now }
        ensures { Skips self.now index left.old left.new until result }
    {
        match self {
            ReceiptItem::One(_) => 0,
            ReceiptItem::Steps(steps) => skip_steps(steps, index, left, until),
            ReceiptItem::Rounds(rounds) if index == 0 => skip_rounds(rounds, left, until),
            ReceiptItem::Rounds(rounds) => skip_round(rounds, index, left, until),
        }
    }

    /// Whether the receipt with this index has the event and the reply of an entry.
    pub(crate) fn is_of(&self, index: u32, entry: &Told<'_>) -> bool
        requires { index < count_in self.now }
        ensures yes { result ≡ true → IsOf (receipt_at self.now index) (told_entry entry.now) }
        ensures no { result ≡ false → IsOf (receipt_at self.now index) (told_entry entry.now) → ⊥ }
    {
        match self {
            ReceiptItem::One(receipt) => entry.is(&receipt.exchange),
            ReceiptItem::Steps(steps) => {
                let hart = hart_behind(&steps.steps, index);
                entry.is(&Exchange::of_step(hart, StepReply::Stepped(Stepped::Retired)))
            }
            ReceiptItem::Rounds(rounds) => entry.is(&exchange_in(&rounds.rounds, index)),
        }
    }

    /// Returns how many receipts there are, at least 1.
    pub fn len(&self) -> u32
        ensures count { result ≡ count_in self.now }
        ensures some { 1 ≤ result }
    {
        match self {
            ReceiptItem::One(_) => 1,
            ReceiptItem::Steps(steps) => steps.steps.count,
            ReceiptItem::Rounds(rounds) => rounds.rounds.len(),
        }
    }
}

/// Passes the entries that belong to the receipts of steps from `index` on, as `ReceiptItem::skip` does.
fn skip_steps(steps: &StepReceipts, index: u32, left: &mut Left<'_>, until: Option<u32>) -> u32
    requires { index ≤ steps.now.steps.count }
    ensures { Skips (ReceiptItem.Steps steps.now) index left.old left.new until result }
{
    let Some(turn) = steps.steps.turn.checked_add(u64::from(index)) else {
        return 0;
    };
    let most = before(until, steps.place, index, steps.steps.count - index);
    left.skip(turn, steps.steps.harts, most)
}

/// Passes the entries that belong to the receipts of rounds from the first one on, as `ReceiptItem::skip` does.
fn skip_rounds(rounds: &RoundReceipts, left: &mut Left<'_>, until: Option<u32>) -> u32
    ensures { Skips (ReceiptItem.Rounds rounds.now) 0 left.old left.new until result }
{
    let most = before(until, rounds.place, 0, rounds.rounds.len());
    left.skip_rounds(&rounds.rounds, most)
}

/// Passes the entries that belong to the steps that are left of a round, as `ReceiptItem::skip` does.
fn skip_round(rounds: &RoundReceipts, index: u32, left: &mut Left<'_>, until: Option<u32>) -> u32
    requires { index ≤ rounds.now.rounds.count * (rounds.now.rounds.steps + 1) }
    ensures { Skips (ReceiptItem.Rounds rounds.now) index left.old left.new until result }
{
    let Some(row) = row_at(&rounds.rounds, index) else {
        return 0;
    };
    let most = before(until, rounds.place, index, row.count);
    left.skip(row.turn, row.harts, most)
}

/// How many of the `most` places from `place + index` on come before `until`; all, if `until` is none of them.
fn before(until: Option<u32>, place: u32, index: u32, most: u32) -> u32
    ensures few { result ≤ most }
    ensures free { (i : ℕ) → i < result → until ≡ Some (place + (index + i)) → ⊥ }
{
    let Some(until) = until else {
        return most;
    };
    let first = u64::from(place) + u64::from(index);
    if u64::from(until) < first {
        return most;
    }
    let gap = u64::from(until) - first;
    if gap < u64::from(most) {
        gap as u32
    } else {
        most
    }
}

/// Appends the receipts of a run, in reserved room. `place`, `count` and `turn` are those of the first one.
pub(crate) fn push_run(
    receipts: &mut Vec<ReceiptItem>,
    place: u32,
    seat: u32,
    count: u64,
    turn: u64,
    harts: u32,
    run: StepRun,
)
    requires harts { 1 ≤ harts }
    requires room { vec_len receipts.old + steps_of run ≤ vec_capacity receipts.old }
    requires places { place + run.retired < 2 ^ 32 }
    requires counts { count + run.retired < 2 ^ 64 }
    requires turns { turn + run.retired < 2 ^ 64 }
    ensures receipts { all_of receipts.new.items ≡ all_of receipts.old.items
        ++ run_receipts place seat count turn harts run }
    ensures few { vec_len receipts.new ≤ vec_len receipts.old + steps_of run }
    ensures capacity { vec_capacity receipts.old ≤ vec_capacity receipts.new }
{
    let retired = run.retired;
    if retired > 0 {
        receipts.push_reserved(ReceiptItem::Steps(StepReceipts {
            place,
            seat,
            count,
            steps: Steps {
                turn,
                harts,
                count: retired,
            },
        }));
    }
    if let Some(reply) = run.last {
        receipts.push_reserved(ReceiptItem::One(receipt_of_step(
            place + retired,
            seat,
            count + u64::from(retired),
            turn + u64::from(retired),
            harts,
            reply,
        )));
    }
}

/// Appends a receipt to others, in reserved room.
pub fn push_receipt(all: &mut Vec<ReceiptItem>, receipt: Receipt)
    requires { vec_len all.old < vec_capacity all.old }
    ensures { all_of all.new.items ≡ all_of all.old.items ++ receipt ∷ [] }
{
    let Some(last) = all.pop() else {
        all.push_reserved(ReceiptItem::One(receipt));
        return;
    };
    match with_drain(&last, &receipt) {
        Some(rounds) => push_rounds(all, rounds),
        None => {
            all.push_reserved(last);
            all.push_reserved(ReceiptItem::One(receipt));
        }
    }
}

/// Appends receipts of rounds to others, in reserved room.
fn push_rounds(all: &mut Vec<ReceiptItem>, rounds: RoundReceipts)
    requires { vec_len all.old < vec_capacity all.old }
    ensures { all_of all.new.items ≡ all_of all.old.items ++ receipts_of (ReceiptItem.Rounds rounds) }
{
    let Some(last) = all.pop() else {
        all.push_reserved(ReceiptItem::Rounds(rounds));
        return;
    };
    match joined_with(&last, &rounds) {
        Some(joined) => all.push_reserved(ReceiptItem::Rounds(joined)),
        None => {
            all.push_reserved(last);
            all.push_reserved(ReceiptItem::Rounds(rounds));
        }
    }
}

/// The receipts of a round, if `last` has the receipts of steps and `receipt` is that of a drain just after them which
/// found nothing.
fn with_drain(last: &ReceiptItem, receipt: &Receipt) -> Option<RoundReceipts>
    ensures { IfSome result (λ r. receipts_of (ReceiptItem.Rounds r) ≡ receipts_of last.now ++ receipt.now ∷ []) }
{
    let ReceiptItem::Steps(steps) = last else {
        return None;
    };
    let ExchangeRef::Dry(drain) = receipt.exchange.look() else {
        return None;
    };
    round_of(steps, receipt, drain)
}

/// The receipts of steps and of the drain after them. None unless the drain is the next call of their seat, at the next
/// place, or if there are too many to count.
fn round_of(steps: &StepReceipts, receipt: &Receipt, drain: u32) -> Option<RoundReceipts>
    requires { exchange receipt.now.event receipt.now.reply ≡ dry_exchange drain }
    ensures { IfSome result (λ r. receipts_of (ReceiptItem.Rounds r)
        ≡ receipts_of (ReceiptItem.Steps steps.now) ++ receipt.now ∷ []) }
{
    let len = steps.steps.count.checked_add(1)?;
    if receipt.place != steps.place.checked_add(steps.steps.count)? {
        return None;
    }
    if receipt.count != steps.count.checked_add(u64::from(steps.steps.count))? {
        return None;
    }
    let _calls = steps.count.checked_add(u64::from(len))?;
    if receipt.seat != steps.seat {
        return None;
    }
    Some(RoundReceipts {
        place: steps.place,
        seat: steps.seat,
        count: steps.count,
        rounds: Rounds {
            turn: steps.steps.turn,
            harts: steps.steps.harts,
            steps: steps.steps.count,
            drain,
            count: 1,
        },
    })
}

/// The receipts of `last` with those of `more`, if `last` has those of the rounds just before.
fn joined_with(last: &ReceiptItem, more: &RoundReceipts) -> Option<RoundReceipts>
    ensures { IfSome result (λ r. receipts_of (ReceiptItem.Rounds r)
        ≡ receipts_of last.now ++ receipts_of (ReceiptItem.Rounds more.now)) }
{
    match last {
        ReceiptItem::Rounds(rounds) => both(rounds, more),
        _ => None,
    }
}

/// The receipts of rounds with those after them. None unless these are of the next calls of the same seat, at the next
/// places, or if there are too many to count.
fn both(first: &RoundReceipts, more: &RoundReceipts) -> Option<RoundReceipts>
    ensures { IfSome result (λ r. receipts_of (ReceiptItem.Rounds r)
        ≡ receipts_of (ReceiptItem.Rounds first.now) ++ receipts_of (ReceiptItem.Rounds more.now)) }
{
    let len = first.rounds.len();
    if more.place != first.place.checked_add(len)? {
        return None;
    }
    if more.count != first.count.checked_add(u64::from(len))? {
        return None;
    }
    if more.seat != first.seat {
        return None;
    }
    let rounds = joined(first.rounds, more.rounds)?;
    let _calls = first.count.checked_add(u64::from(rounds.len()))?;
    Some(RoundReceipts {
        place: first.place,
        seat: first.seat,
        count: first.count,
        rounds,
    })
}

/// The receipt of a step of the hart whose turn it is.
fn receipt_of_step(
    place: u32,
    seat: u32,
    count: u64,
    turn: u64,
    harts: u32,
    reply: StepReply,
) -> Receipt
    requires harts { 1 ≤ harts }
    ensures { result ≡ step_receipt place seat count turn harts reply }
{
    Receipt {
        place,
        seat,
        count,
        exchange: Exchange::of_step((turn % u64::from(harts)) as u32, reply),
    }
}
