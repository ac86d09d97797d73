//! Journals in files, and what may be wrong with them.

ghost use Rattle.std.specs.Prelude.{◌≡◌};

use rvm_command::refused::Refused;
use rvm_journal::{JournalFault, ReadJournal};
use std::fmt;
use std::marker::Model;

/// A journal in a file that was read to its end.
#[derive(Drop)]
pub(crate) struct ReadFile<'a> {
    name: &'a str,
    journal: ReadJournal,
}

impl<'a> Model for ReadFile<'a> {
    ghost use Rattle.rvm_replay.specs.Journals.{JournalText};

    ghost Value = { JournalText };

    ghost view = { λ f. record { name = f.name.now; text = f.journal } };
}

impl<'a> ReadFile<'a> {
    /// A journal that was read from the file with this name.
    pub(crate) fn new(name: &'a str, journal: ReadJournal) -> ReadFile<'a>
        ensures { result ≡ record { name = name.now; text = journal } }
    {
        ReadFile { name, journal }
    }

    /// Returns the name of the file.
    pub(crate) fn name(&self) -> &'a str
        ensures { result.now ≡ self.now.name }
    {
        self.name
    }

    /// Returns what was read.
    pub(crate) fn journal(&self) -> &ReadJournal
        ensures { result.now ≡ self.now.text }
    {
        &self.journal
    }
}

/// What is wrong with a journal.
#[derive(Clone, Copy, Debug)]
pub enum FileFault {
    /// The first line is no header, or does not show its digest.
    NoHeader,
    /// A journal before it is of the same host.
    SameHost(char),
    /// The host began with a guest, as that of a journal before it did.
    SecondGuest,
    /// The world has another number of hosts than that of the journal whose host began with the guest.
    OtherHosts,
    /// The header tells another number of the world than that of the journal whose host began with the guest.
    OtherWorld,
    /// A line tells another process of the host with this letter than that host's journal.
    OtherProcess(char),
    /// A line tells of a host of another world than that of the journal whose host began with the guest.
    MetOtherWorld,
    /// The journal begins with a guest, and the file of its image holds nothing, as where no file is named.
    NoImage,
    /// The journal begins with the guest of another image.
    OtherImage,
    /// The guest with which the journal begins cannot be loaded from the image.
    Image(Refused),
    /// A line tells nothing, or the journal is too long.
    Journal(JournalFault),
}

impl fmt::Display for FileFault {
    ghost use Rattle.std.specs.Prelude.{Some};
    ghost use Rattle.rvm_replay.specs.FileFaults.{fault_text};

    ghost output = { λ fault. Some (fault_text fault) };

    fn fmt<W: fmt::Write>(&self, f: &mut fmt::Formatter<W>) -> fmt::Result {
        match *self {
            FileFault::NoHeader => f.write_str("line 1: no header of a journal"),
            FileFault::SameHost(letter) => write!(f, "a second journal of host {letter}"),
            FileFault::SecondGuest => f.write_str("a second guest"),
            FileFault::OtherHosts => f.write_str("of another number of hosts"),
            FileFault::OtherWorld => f.write_str("of another world"),
            FileFault::OtherProcess(letter) => { write!(f, "met another process of host {letter}") }
            FileFault::MetOtherWorld => f.write_str("met a host of another world"),
            FileFault::NoImage => {
                write!(
                    f,
                    "the journal begins with a guest, so --image has to name its image"
                )
            }
            FileFault::OtherImage => f.write_str("the image is another one"),
            FileFault::Image(refused) => write!(f, "{refused}"),
            FileFault::Journal(fault) => write!(f, "{fault}"),
        }
    }
}

/// Why journals are not audited.
#[derive(Clone, Copy)]
pub(crate) enum JournalsFault {
    /// Memory ran out.
    OutOfMemory,
    /// None of them is of a host that began with a guest.
    NoGuest,
    /// The journal with this index, from 0, is not as it must be.
    File(usize, FileFault),
}
