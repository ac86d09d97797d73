//! Merges journals as far as they go.

ghost use Rattle.std.specs.Prelude.{◌≡◌, ◌≤◌, ◌<◌, ◌^◌, ◌-◌, ◌+◌, IfOk, OnOk, if◌then◌else◌, length};
ghost use Rattle.rvm_audit.specs.Merging.{places_of};
ghost use Rattle.rvm_audit.specs.Parts.{AllWait, AreOf, AreSized, Stands, taken};
ghost use Rattle.rvm_audit.specs.Rule.{IsEnd};
ghost use Rattle.rvm_audit.specs.Orders.{Journals};

use crate::merge::Merge;
use crate::part::{Part, Place};
use crate::placed::Order;
use rvm_recorder::Item;
use std::alloc::{AllocError, Global};

/// The end of a merge: the events in order, and how much of each journal was taken.
#[derive(Drop)]
pub(crate) struct Ended {
    pub(crate) order: Order,
    pub(crate) places: Vec<Place>,
}

/// Merges at most eight journals until none can go on. At each point the lowest host goes on whose next item can stand.
pub(crate) fn merge_all(alloc: Global, parts: &[Part<'_, Item>]) -> Result<Ended, AllocError>
    requires few { length parts.now ≤ 8 }
    requires sized { AreSized parts.now }
    ensures long { IfOk result (λ e. length e.places.items ≡ length parts.now) }
    ensures end { IfOk result (λ e. (j : Journals) → AreOf j parts.now → IsEnd j (taken e.places.items) e.order) }
{
    let mut merge = Merge::new(alloc);
    let start = Place {
        items: 0,
        entries: 0,
    };
    let mut places = vec![in alloc; start; parts.len()]?;
    let mut host = 0u8;
    // Memory runs out long before the last turn.
    for _turn in 0..u64::MAX {
        if host as usize >= parts.len() {
            return Ok(Ended {
                order: merge.order,
                places,
            });
        }
        host = take_turn(alloc, &mut merge, &mut places, parts, host)?;
    }
    Err(AllocError)
}

/// Takes a host's next item if it can stand. Returns the host to ask next; all hosts below that one wait, and a waiting
/// host is asked again only after a frame was made.
fn take_turn(
    alloc: Global,
    merge: &mut Merge,
    places: &mut Vec<Place>,
    parts: &[Part<'_, Item>],
    host: u8,
) -> Result<u8, AllocError>
    requires few { length parts.now ≤ 8 }
    requires sized { AreSized parts.now }
    requires there { host < length parts.now }
    requires made { merge.old.made < 2 ^ 64 - 1 }
    requires stands { Stands parts.now places.old.items merge.old }
    requires waits { AllWait parts.now places.old.items (places_of merge.old.places) host }
    ensures there { IfOk result (λ next. next ≤ length parts.now) }
    ensures made { OnOk result (merge.new.made ≤ merge.old.made + 1) }
    ensures stands { OnOk result (Stands parts.now places.new.items merge.new) }
    ensures waits { IfOk result (λ next. AllWait parts.now places.new.items (places_of merge.new.places) next) }
{
    let part = &parts[host as usize];
    let place = places[host as usize];
    let made = merge.made;
    let hosts = parts.len() as u8;
    match merge.take_next(alloc, host, hosts, part.version, part.items, place.items)? {
        None => Ok(host + 1),
        Some(entries) => {
            places[host as usize] = Place {
                items: place.items + 1,
                entries: place.entries + entries as usize,
            };
            Ok(woken(merge.made == made, host))
        }
    }
}

/// The host to ask after this one took an item: itself if the item made no frame, else the first.
pub(crate) fn woken(is_silent: bool, host: u8) -> u8
    ensures { result ≡ (if is_silent then host else 0) }
{
    if is_silent { host } else { 0 }
}
