//! The lines that were read of a journal, as a value that only contracts see.

ghost use Rattle.std.specs.Prelude.{◌≡◌, ◌++◌, [], codes};

use std::marker::Model;
use std::snapshot::Snapshot;

/// Lines of a journal, with their line feeds. It takes the same memory however many they are.
#[cycle(lines)]
#[derive(Drop)]
pub(crate) struct LinesRead {
    link: Link,
}

/// No lines, or one line after others.
#[cycle(lines)]
#[derive(Drop)]
enum Link {
    None,
    After(Snapshot<LinesRead>, Snapshot<Vec<u8>>),
}

impl Model for LinesRead {
    ghost use Rattle.std.specs.Prelude.{List, ℕ, length};
    ghost use Rattle.std.proofs.Common.{arith, length-append};

    ghost Value = { List ℕ };

    // Below `Value`, since it reads a type of this crate.
    ghost use Rattle.rvm_journal.specs.LinesRead.{text_of};

    ghost view = { λ l. text_of l.link };

    ghost size = { length };

    ghost size_decreases = { λ l has. Prim.grind (arith, length-append) };
}

impl LinesRead {
    /// No lines.
    pub(crate) fn none() -> LinesRead
        ensures { result ≡ [] }
    {
        LinesRead { link: Link::None }
    }

    /// These lines, and one after them, which comes without its line feed.
    pub(crate) fn with(&self, line: &Vec<u8>) -> LinesRead
        ensures { result ≡ self.now ++ (line.now.items ++ codes "\n") }
    {
        LinesRead {
            link: Link::After(Snapshot::of(self), Snapshot::of(line)),
        }
    }
}
