//! Entries of which only contracts know.

ghost use Rattle.std.specs.Prelude.{◌≡◌, ◌<◌, ◌++◌, [], length};
ghost use Rattle.rvm_recorder.specs.Items.{all_of};

use rvm_recorder::Item;
use std::marker::Model;
use std::snapshot::Snapshot;

/// Entries of a host, oldest first, as a value that only contracts see: it takes the same memory however many they are.
#[cycle(past)]
#[derive(Drop)]
pub struct Past {
    link: Link,
}

/// No entries, or those of an item after others.
#[cycle(past)]
#[derive(Drop)]
enum Link {
    None,
    After(Snapshot<Past>, Snapshot<Item>),
}

impl Model for Past {
    ghost use Rattle.std.specs.Prelude.{List, length};
    ghost use Rattle.std.proofs.Common.{arith, length-append};
    ghost use Rattle.rvm_recorder.specs.Entries.{PlainEntry};

    ghost Value = { List PlainEntry };

    // Below `Value`, since it reads a type of this crate.
    ghost use Rattle.rvm_audit.specs.Past.{HasEntries, entries_of};

    ghost view = { λ p. entries_of p.link };

    ghost invariant = { λ p. HasEntries p.link };

    ghost size = { length };

    ghost size_decreases = { λ p has. Prim.grind (arith, length-append) };
}

impl Past {
    /// No entries.
    pub fn none() -> Past
        ensures { result ≡ [] }
    {
        Past { link: Link::None }
    }

    /// Appends the entries of items.
    pub fn extend(&mut self, items: &[Item])
        ensures { self.new ≡ self.old ++ all_of items.now }
    {
        for item in items {
            self.push(item);
        }
    }

    /// Appends the entries of an item.
    #[tactic(auto, using(crate::proofs::Pasts::none_more))]
    pub fn push(&mut self, item: &Item)
        ensures { self.new ≡ self.old ++ item.now }
    {
        if item.len() > 0 {
            let all = self.with(item);
            *self = all;
        }
    }

    /// These entries, and those of an item after them.
    fn with(&self, item: &Item) -> Past
        requires { 0 < length item.now }
        ensures { result ≡ self.now ++ item.now }
    {
        Past {
            link: Link::After(Snapshot::of(self), Snapshot::of(item)),
        }
    }
}
