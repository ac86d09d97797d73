//! Who is shown the entries of a host before they are forgotten.

ghost use Rattle.std.specs.Prelude.{◌++◌, [], List, OnOk};
ghost use Rattle.rvm_recorder.specs.Entries.{PlainEntry};
ghost use Rattle.rvm_recorder.specs.Items.{all_of};

use rvm_recorder::Item;
use std::alloc::{AllocError, Global};

/// Is shown the entries that a host answers, and keeps of them what it is for.
pub trait Observer {
    /// It is one that was shown these entries, from the first on, and no others.
    ghost shows: { Self → List PlainEntry → Type 0 };

    /// Begins before the first entry.
    fn begin(alloc: Global) -> Self
        ensures { shows result [] };

    /// Is shown the next entries, in items. If memory runs out, it is of no use any more.
    fn observe(&mut self, alloc: Global, items: &[Item]) -> Result<(), AllocError>
        ensures { OnOk result ((before : List PlainEntry) → shows self.old before
            → shows self.new (before ++ all_of items.now)) };
}

/// Keeps nothing.
impl Observer for () {
    ghost shows = { λ _ _. Unit {0} };

    fn begin(_alloc: Global) {}

    fn observe(&mut self, _alloc: Global, _items: &[Item]) -> Result<(), AllocError> {
        Ok(())
    }
}
