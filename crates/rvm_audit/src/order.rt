//! The order of two journals.

ghost use Rattle.std.specs.Prelude.{◌≡◌, ℕ, List, IfOk, IfErr, true};
ghost use Rattle.rvm_board.specs.Guest.{GuestState};
ghost use Rattle.rvm_guest.specs.TheGuest.{board};
ghost use Rattle.rvm_guest.specs.Valid.{is_valid};
ghost use Rattle.rvm_recorder.specs.History.{History};
ghost use Rattle.rvm_protocol.specs.World.{new_world};
ghost use Rattle.rvm_core.specs.declared.event.Event.{Event};
ghost use Rattle.rvm_audit.specs.Errors.{IsAuditError};
ghost use Rattle.rvm_audit.specs.ListOrders.{IsDeadEnd, IsMerge, IsOrder};
ghost use Rattle.rvm_audit.specs.PairRuns.{AreNew, IsWorldRun};

use crate::error::AuditError;
use crate::merging::merge_all;
use crate::part::Part;
use crate::placed::Order;
use rvm_core::Event;
use rvm_mem::PagedMemory;
use rvm_recorder::Journal;
use std::alloc::Global;

/// Puts the journals of the two hosts of a world in order. Returns a run from their opening hosts in which each host
/// has the entries of its journal.
///
/// At each point it takes the first host's next event if that can stand, else the second host's. A command can stand
/// anywhere. A frame that came can stand once the other host has made one of its bytes, and is the lowest of these.
/// `NoOrder` if neither host's next event can stand and one of them has one; `OutOfMemory` if memory runs out.
pub fn audit<M: PagedMemory + Drop, N: PagedMemory + Drop>(
    alloc: Global,
    first: &Journal<M>,
    second: &Journal<N>,
) -> Result<Vec<Event>, AuditError>
    ensures merge { IfOk result (λ events. IsMerge first.now second.now events.items) }
    ensures none { IfErr result (λ why. IsAuditError why first.now second.now) }
{
    let order = audit_in_runs(alloc, first, second)?;
    Ok(order.spelled(alloc, first.count() as usize + second.count() as usize)?)
}

/// Puts the journals of the two hosts of a world in the order that `audit` returns, but keeps the steps and rounds of a
/// host as the runs that they are in its journal, and takes each run at once: it needs time and memory for each item,
/// however many entries that has. Its errors are those of `audit`.
pub fn audit_in_runs<M: PagedMemory + Drop, N: PagedMemory + Drop>(
    alloc: Global,
    first: &Journal<M>,
    second: &Journal<N>,
) -> Result<Order, AuditError>
    ensures merge { IfOk result (λ order. IsMerge first.now second.now order) }
    ensures none { IfErr result (λ why. IsAuditError why first.now second.now) }
{
    let parts = [Part::of(first), Part::of(second)];
    let ended = merge_all(alloc, &parts)?;
    let i = ended.places[0].entries;
    let j = ended.places[1].entries;
    if i < first.count() as usize || j < second.count() as usize {
        return Err(AuditError::NoOrder { i, j });
    }
    Ok(ended.order)
}

/// Two journals have no order if there is a dead end: places from which neither can go on, and one of them is not at
/// its end.
pub fn dead_ends_have_no_order()
    ensures { (a b : History) (i j : ℕ) (events : List Event) → IsDeadEnd a b i j
        → IsOrder a b events → ⊥ }
{}

/// An order of the journals of the two hosts of a new world is a run of the protocol: what is seen in it are the
/// entries of both journals; it ends where their replays end; in each of its states the guest is the guest of one board
/// that never moves; and the frames are those of its moves.
pub fn the_guest_of_an_order_never_moves()
    ensures { (version : ℕ) (g : GuestState) (limits : ℕ → ℕ) (a b : History) (events : List Event)
        → is_valid g.guest ≡ true → AreNew version g limits a.opening b.opening → IsOrder a b events
        → IsWorldRun (new_world board version 0 g.guest 2 limits) g.guest a b events }
{}
