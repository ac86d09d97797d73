//! What a merge reads of a journal, and how much of it was taken.

ghost use Rattle.std.specs.Prelude.{◌≡◌, ◌<◌, ◌^◌, length};
ghost use Rattle.rvm_recorder.specs.Items.{all_of};
ghost use Rattle.rvm_recorder.specs.Replay.{IsReplay};

use rvm_mem::PagedMemory;
use rvm_recorder::{Item, Journal};

/// The items of a journal, or the stretches that are kept of it, and the version of its host's streams.
#[derive(Drop)]
pub(crate) struct Part<'a, I> {
    pub(crate) version: u32,
    pub(crate) items: &'a [I],
}

/// How much of a journal was taken: this many items, which have this many entries together.
#[derive(Clone, Copy)]
pub struct Place {
    pub items: usize,
    pub entries: usize,
}

impl<'a> Part<'a, Item> {
    /// What a merge reads of this journal.
    pub(crate) fn of<M: PagedMemory + Drop>(journal: &'a Journal<M>) -> Part<'a, Item>
        ensures version { result.version ≡ journal.now.opening.version }
        ensures entries { all_of result.items.now ≡ journal.now.entries }
        ensures replay { IsReplay journal.now.opening journal.now.entries }
        ensures items { length result.items.now < 2 ^ 63 }
        ensures few { length journal.now.entries < 2 ^ 32 }
    {
        let _count = journal.count(); // for the proof
        Part {
            version: journal.version(),
            items: journal.items(),
        }
    }
}
