//! The steps of a slice.

ghost use Rattle.std.specs.Prelude.{◌≡◌, ◌-◌, ◌<◌, ◌≤◌, ◌^◌, IfSome, length, slice_get};
ghost use Rattle.rvm_recorder.specs.Runs.{all_of, count_in};
ghost use Rattle.rvm_recorder.specs.Telling.{receipt_at};
ghost use Rattle.rvm_cell.specs.Turns.{after_step};

use crate::slices::after_step;
use rvm_recorder::ReceiptItem;
use rvm_station::Then;

/// The steps of a slice, of which there is at least one.
#[derive(Clone, Copy)]
pub struct SliceSteps {
    pub count: u32,
    /// What comes after the last of them.
    pub then: Then,
    ghost some: { 1 ≤ count },
}

/// The steps of a slice, by its receipts.
pub(crate) fn steps_of(receipts: &[ReceiptItem]) -> SliceSteps
    requires some { 1 ≤ length (all_of receipts.now) }
    requires within { length (all_of receipts.now) < 2 ^ 32 }
    ensures count { result.count ≡ length (all_of receipts.now) }
    ensures last { IfSome (slice_get (all_of receipts.now) (length (all_of receipts.now) - 1))
        (λ r. after_step r.reply ≡ result.then) }
{
    let Some(last) = receipts.last() else {
        unreachable!();
    };
    SliceSteps {
        count: count_of(receipts),
        then: after_last(last),
    }
}

/// What comes after the last receipt of an item. Steps that retired an instruction and drains end no slice.
fn after_last(item: &ReceiptItem) -> Then
    ensures { result ≡ after_step (receipt_at item.now (count_in item.now - 1)).reply }
{
    let ReceiptItem::One(receipt) = item else {
        return Then::GoOn;
    };
    after_step(&receipt.reply())
}

/// The number of receipts in these items.
fn count_of(receipts: &[ReceiptItem]) -> u32
    requires { length (all_of receipts.now) < 2 ^ 32 }
    ensures { result ≡ length (all_of receipts.now) }
{
    let mut count: u32 = 0;
    let mut k = 0;
    while k < receipts.len() {
        count += receipts[k].len();
        k += 1;
    }
    count
}
