//! Goes through journals of which some were cut, as far as each can go.

ghost use Rattle.std.specs.Prelude.{◌≡◌, ◌≤◌, ◌<◌, IfOk, OnOk, length};
ghost use Rattle.rvm_audit.specs.Cuts.{marked};
ghost use Rattle.rvm_audit.specs.Orders.{Journals};
ghost use Rattle.rvm_audit.specs.Parts.{AreOf, AreSized, taken};
ghost use Rattle.rvm_audit.specs.Passing.{AllBlocked, EndsJournal, HasPassed, IsPassing};

use crate::known::Known;
use crate::merging::woken;
use crate::part::{Part, Place};
use crate::stretch::Stretch;
use std::alloc::{AllocError, Global};

/// Goes through at most eight journals until none can go on, as if each host whose journal `cuts` marks had made any
/// frame after the end of its journal. Returns how much of each was taken.
pub(crate) fn pass_all(
    alloc: Global,
    parts: &[Part<'_, Stretch>],
    cuts: &[bool],
) -> Result<Vec<Place>, AllocError>
    requires few { length parts.now ≤ 8 }
    requires sized { AreSized parts.now }
    requires marks { length cuts.now ≡ length parts.now }
    ensures long { IfOk result (λ places. length places.items ≡ length parts.now) }
    ensures end { IfOk result (λ places. (j : Journals) → AreOf j parts.now
        → HasPassed j (marked cuts.now) (taken places.items)) }
{
    let mut known = Known::new(alloc, parts.len())?;
    let start = Place {
        items: 0,
        entries: 0,
    };
    let mut places = vec![in alloc; start; parts.len()]?;
    let mut host = 0u8;
    // No memory holds as many items as there are turns.
    for _turn in 0..u64::MAX {
        if host as usize >= parts.len() {
            return Ok(places);
        }
        host = pass_turn(alloc, &mut known, &mut places, parts, cuts, host)?;
    }
    Err(AllocError)
}

/// Passes a host's next stretch if it may be passed. Returns the host to ask next; all hosts below that one are blocked, and a
/// blocked host is asked again only after a frame was made, or a journal that was cut was taken to its end.
fn pass_turn(
    alloc: Global,
    known: &mut Known,
    places: &mut Vec<Place>,
    parts: &[Part<'_, Stretch>],
    cuts: &[bool],
    host: u8,
) -> Result<u8, AllocError>
    requires few { length parts.now ≤ 8 }
    requires sized { AreSized parts.now }
    requires marks { length cuts.now ≡ length parts.now }
    requires there { host < length parts.now }
    requires passing { IsPassing parts.now cuts.now places.old.items known.old }
    requires blocked { AllBlocked parts.now cuts.now places.old.items known.old host }
    ensures there { IfOk result (λ next. next ≤ length parts.now) }
    ensures passing { OnOk result (IsPassing parts.now cuts.now places.new.items known.new) }
    ensures blocked { IfOk result (λ next. AllBlocked parts.now cuts.now places.new.items known.new next) }
{
    let part = &parts[host as usize];
    let place = places[host as usize];
    let Some(stretch) = part.items.get(place.items) else {
        return Ok(end_journal(known, cuts[host as usize], host));
    };
    let hosts = parts.len() as u8;
    match known.pass_stretch(alloc, host, hosts, part.version, stretch.look())? {
        None => Ok(host + 1),
        Some(passed) => {
            places[host as usize] = Place {
                items: place.items + 1,
                entries: place.entries + passed.entries,
            };
            Ok(woken(passed.is_silent, host))
        }
    }
}

/// Marks a host whose journal was taken to its end as spent, if the journal was cut. Returns the host to ask next: the
/// first if this one was marked now, else the one after it.
fn end_journal(known: &mut Known, is_cut: bool, host: u8) -> u8
    requires few { host < 8 }
    requires there { host < length known.old.spent.items }
    ensures { EndsJournal is_cut host known.old known.new result }
{
    if !is_cut || known.spent[host as usize] {
        return host + 1;
    }
    known.mark_spent(host);
    0
}
