//! The audit of the journals of a list.

ghost use Rattle.std.specs.Prelude.{◌≡◌, ◌≤◌, ◌<◌, IfOk, MatchOption, length, ℕ};
ghost use Rattle.rvm_audit.specs.Audits.{ArePartsOf, IsAudit, entries_of, histories_of};
ghost use Rattle.rvm_audit.specs.ListOrders.{journals_of};
ghost use Rattle.rvm_audit.specs.Parts.{taken};

use crate::merging::merge_all;
use crate::part::{Part, Place};
use crate::placed::Order;
use rvm_mem::PagedMemory;
use rvm_recorder::{Item, Journal};
use std::alloc::{AllocError, Global};

/// How the audit of the journals of a list ended.
#[derive(Drop)]
pub enum Audit {
    /// The journals have this order, which has all their entries.
    Order(Order),
    /// The journals have no order: from these places, one for each journal, none can go on.
    NoOrder(Vec<Place>),
}

/// Puts the journals of the hosts of a world in order, at most eight of them. Returns a run from their opening hosts in
/// which each host has the entries of its journal: at each point the lowest host goes on whose next event can stand. If
/// none can, and a journal is not at its end, there is no order, and it returns the places up to which the journals
/// have one.
pub fn audit_all<M: PagedMemory + Drop>(
    alloc: Global,
    journals: &[&Journal<M>],
) -> Result<Audit, AllocError>
    requires few { length journals.now ≤ 8 }
    ensures { IfOk result (λ a. IsAudit (journals_of (histories_of journals.now)) a) }
{
    let parts = parts_of(alloc, journals)?;
    let ended = merge_all(alloc, parts.as_slice())?;
    match unfinished(journals, ended.places.as_slice()) {
        None => Ok(Audit::Order(ended.order)),
        Some(_host) => Ok(Audit::NoOrder(ended.places)),
    }
}

/// What a merge reads of each of these journals.
fn parts_of<'a, M: PagedMemory + Drop>(
    alloc: Global,
    journals: &[&'a Journal<M>],
) -> Result<Vec<Part<'a, Item>>, AllocError>
    ensures long { IfOk result (λ parts. length parts.items ≡ length journals.now) }
    ensures each { IfOk result (λ parts. ArePartsOf (histories_of journals.now) parts.items) }
{
    let mut parts = Vec::new(alloc);
    for host in 0..journals.len() {
        parts.push(Part::of(journals[host]))?;
    }
    Ok(parts)
}

/// The index of the first journal that is not at its end, if there is one.
fn unfinished<M: PagedMemory + Drop>(journals: &[&Journal<M>], places: &[Place]) -> Option<usize>
    requires long { length places.now ≡ length journals.now }
    ensures { MatchOption result
        ((x : ℕ) → x < length journals.now → length (entries_of (histories_of journals.now) x) ≤ taken places.now x)
        (λ x. (x < length journals.now) × (taken places.now x < length (entries_of (histories_of journals.now) x))) }
{
    for host in 0..journals.len() {
        if places[host].entries < journals[host].count() as usize {
            return Some(host);
        }
    }
    None
}
