//! The audit of journals of which only the frames are kept: whether they have an order, and not which.

ghost use Rattle.std.specs.Prelude.{◌≡◌, ◌≤◌, ◌<◌, ◌^◌, List, ℕ, IfOk, MatchOption, false, length, true};
ghost use Rattle.rvm_audit.specs.Cuts.{AreContradicted, AreExplained, marked};
ghost use Rattle.rvm_audit.specs.ListOrders.{journals_of};
ghost use Rattle.rvm_audit.specs.Parts.{entries_in, taken};
ghost use Rattle.rvm_audit.specs.Passing.{HasPassed};
ghost use Rattle.rvm_audit.specs.OutlineAudits.{ArePartsOf, IsPartOf, IsOutlineAudit};
ghost use Rattle.rvm_audit.specs.Outlines.{AreOutlinesOf, IsOutlineOf, entries_at, outlines_in};
ghost use Rattle.rvm_recorder.specs.History.{History};

use crate::observer::Observer;
use crate::part::{Part, Place};
use crate::passing::pass_all;
use crate::stretch::{Stretch, Stretches};
use rvm_mem::PagedMemory;
use rvm_recorder::Journal;
use std::alloc::{AllocError, Global};
use std::marker::Model;

/// What is kept of a journal if only its frames are.
#[derive(Drop)]
pub struct Outline {
    /// The version of its host's streams.
    version: u32,
    /// How many entries it has.
    count: u64,
    stretches: Stretches,
}

impl Model for Outline {
    ghost use Rattle.std.specs.Prelude.{◌≡◌, length};
    ghost use Rattle.rvm_audit.specs.Outlines.{PlainOutline};

    ghost Value = { PlainOutline };

    ghost view = { λ t. record { version = t.version; entries = t.stretches } };

    ghost invariant = { λ t. t.count ≡ length t.stretches };
}

impl Outline {
    /// What is kept of a journal with these stretches, of this many entries, whose host's streams have this version.
    pub fn new(version: u32, count: u64, stretches: Stretches) -> Outline
        requires { count ≡ length stretches }
        ensures { result ≡ record { version = version; entries = stretches } }
    {
        Outline {
            version,
            count,
            stretches,
        }
    }

    /// Keeps what is to be kept of a journal.
    #[tactic(auto, using(crate::proofs::Outlined::all_stretched))]
    pub(crate) fn of_journal<M: PagedMemory + Drop>(
        alloc: Global,
        journal: &Journal<M>,
    ) -> Result<Outline, AllocError>
        ensures { IfOk result (IsOutlineOf journal.now) }
    {
        journal.know_answers();
        let mut stretches = Stretches::begin(alloc);
        stretches.observe(alloc, journal.items())?;
        Ok(Outline {
            version: journal.version(),
            count: u64::from(journal.count()),
            stretches,
        })
    }

    /// Returns how many entries the journal has.
    pub fn count(&self) -> u64
        ensures { result ≡ length self.now.entries }
    {
        self.count
    }

    /// What is gone through of it.
    fn part(&self) -> Part<'_, Stretch>
        ensures { IsPartOf self.now result }
    {
        let _count = self.count;
        Part {
            version: self.version,
            items: self.stretches.as_slice(),
        }
    }
}

/// How the audit of outlines ended.
#[derive(Drop)]
pub enum OutlineAudit {
    /// The journals have an order.
    Ordered,
    /// The journals have no order: from these places, one for each journal, none can go on.
    NoOrder(Vec<Place>),
}

/// Looks whether the journals of the hosts of a world have an order, at most eight of them, of which this is kept. If they
/// have none, returns the places up to which they have one; from there no journal can go on. It needs time for each frame,
/// and keeps the frames that were made.
pub fn audit_outlines(alloc: Global, outlines: &[&Outline]) -> Result<OutlineAudit, AllocError>
    requires few { length outlines.now ≤ 8 }
    ensures { (hs : List History) → AreOutlinesOf hs (outlines_in outlines.now) → IfOk result (IsOutlineAudit (journals_of hs)) }
{
    let cuts = vec![in alloc; false; outlines.len()]?;
    let places = pass_outlines(alloc, outlines, cuts.as_slice())?;
    match unfinished(outlines, places.as_slice()) {
        None => Ok(OutlineAudit::Ordered),
        Some(_host) => Ok(OutlineAudit::NoOrder(places)),
    }
}

/// Whether journals contradict one another of which this is kept, and of which those that `cuts` marks may have lost
/// entries at their end: as `are_contradictory` has it.
pub fn are_outlines_contradictory(
    alloc: Global,
    outlines: &[&Outline],
    cuts: &[bool],
) -> Result<bool, AllocError>
    requires few { length outlines.now ≤ 8 }
    requires long { length cuts.now ≡ length outlines.now }
    ensures found { (hs : List History) → AreOutlinesOf hs (outlines_in outlines.now) → IfOk result (λ found. found ≡ true
        → AreContradicted hs cuts.now) }
    ensures none { (hs : List History) → AreOutlinesOf hs (outlines_in outlines.now) → IfOk result (λ found. found ≡ false
        → AreExplained hs cuts.now) }
{
    let places = pass_outlines(alloc, outlines, cuts)?;
    Ok(unfinished(outlines, places.as_slice()).is_some())
}

/// Goes through outlines until none can go on, as if each host whose journal `cuts` marks had made any frame after the end
/// of its journal.
fn pass_outlines(
    alloc: Global,
    outlines: &[&Outline],
    cuts: &[bool],
) -> Result<Vec<Place>, AllocError>
    requires few { length outlines.now ≤ 8 }
    requires long { length cuts.now ≡ length outlines.now }
    ensures long { IfOk result (λ places. length places.items ≡ length outlines.now) }
    ensures end { (hs : List History) → AreOutlinesOf hs (outlines_in outlines.now) → IfOk result (λ places.
        HasPassed (journals_of hs) (marked cuts.now) (taken places.items)) }
{
    let parts = parts_of(alloc, outlines)?;
    let places = pass_all(alloc, parts.as_slice(), cuts)?;
    Ok(places)
}

/// What is gone through of each of these outlines.
fn parts_of<'a>(
    alloc: Global,
    outlines: &[&'a Outline],
) -> Result<Vec<Part<'a, Stretch>>, AllocError>
    ensures long { IfOk result (λ parts. length parts.items ≡ length outlines.now) }
    ensures each { IfOk result (λ parts. ArePartsOf (outlines_in outlines.now) parts.items) }
{
    let mut parts = Vec::new(alloc);
    for host in 0..outlines.len() {
        parts.push(outlines[host].part())?;
    }
    Ok(parts)
}

/// The index of the first outline that was not taken to its end, if there is one.
fn unfinished(outlines: &[&Outline], places: &[Place]) -> Option<usize>
    requires long { length places.now ≡ length outlines.now }
    ensures { MatchOption result
        ((x : ℕ) → x < length outlines.now → length (entries_at (outlines_in outlines.now) x) ≤ taken places.now x)
        (λ x. (x < length outlines.now) × (taken places.now x < length (entries_at (outlines_in outlines.now) x))) }
{
    for host in 0..outlines.len() {
        if (places[host].entries as u64) < outlines[host].count() {
            return Some(host);
        }
    }
    None
}
