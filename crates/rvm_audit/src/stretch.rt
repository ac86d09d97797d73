//! What an audit keeps of the entries of a host, if it does not put their events in order: their frames.

ghost use Rattle.std.specs.Prelude.{◌≡◌, ◌<◌, ◌^◌, ◌++◌, IfErr, IfOk, MatchOption, OnOk, length, option_map};
ghost use Rattle.rvm_audit.specs.Stretches.{entries_at};
ghost use Rattle.rvm_audit.specs.Quiet.{AreQuiet, HasCame, IsOfCommand, IsQuiet};
ghost use Rattle.rvm_message.specs.declared.event.HostEvent.TheVariants.{Came};
ghost use Rattle.rvm_recorder.specs.Items.{all_of};

use crate::frames::came;
use crate::observer::Observer;
use crate::past::Past;
use rvm_frame::Frame;
use rvm_message::Shared;
use rvm_recorder::{Entry, Item, ItemRef};
use std::alloc::{AllocError, Global};
use std::marker::Model;
use std::snapshot::Snapshot;

/// Consecutive entries of a host: any number of commands that made no frame, or one entry with its frames. Contracts see
/// the entries themselves.
#[derive(Drop)]
pub struct Stretch {
    kind: Kind,
}

#[derive(Drop)]
enum Kind {
    Quiet(Quiet),
    Framed(Framed),
}

/// A view of a stretch.
#[derive(Clone, Copy)]
pub(crate) enum StretchRef<'a> {
    Quiet(&'a Quiet),
    Framed(&'a Framed),
}

impl Model for Stretch {
    ghost use Rattle.std.specs.Prelude.{List};
    ghost use Rattle.rvm_recorder.specs.Entries.{PlainEntry};

    ghost Value = { List PlainEntry };

    // Below `Value`, since it reads a type of this crate.
    ghost use Rattle.rvm_audit.specs.Stretches.{entries_of};

    ghost view = { λ m. entries_of m.kind };
}

impl Stretch {
    /// Returns a view of the commands or of the entry.
    pub(crate) fn look(&self) -> StretchRef<'_>
        ensures { entries_at result ≡ self.now }
    {
        match &self.kind {
            Kind::Quiet(quiet) => StretchRef::Quiet(quiet),
            Kind::Framed(framed) => StretchRef::Framed(framed),
        }
    }

    /// The stretch of the commands of an item.
    fn of_quiet(item: &Item) -> Stretch
        requires { AreQuiet item.now }
        ensures { result ≡ item.now }
    {
        let mut past = Past::none();
        past.push(item);
        Stretch {
            kind: Kind::Quiet(Quiet {
                count: item.len() as usize,
                past,
            }),
        }
    }

    /// The stretch with the commands of an item after its own. Hands it back if it is that of an entry, or if there are too
    /// many to count.
    fn with_quiet(self, item: &Item) -> Result<Stretch, Stretch>
        requires { AreQuiet item.now }
        ensures joined { IfOk result (λ m. m ≡ self ++ item.now) }
        ensures alone { IfErr result (λ m. m ≡ self) }
    {
        match self.kind {
            Kind::Quiet(quiet) => match quiet.with(item) {
                Ok(quiet) => Ok(Stretch {
                    kind: Kind::Quiet(quiet),
                }),
                Err(quiet) => Err(Stretch {
                    kind: Kind::Quiet(quiet),
                }),
            },
            kind => Err(Stretch { kind }),
        }
    }
}

/// Commands that made no frame.
#[derive(Drop)]
pub(crate) struct Quiet {
    count: usize,
    past: Past,
}

impl Model for Quiet {
    ghost use Rattle.std.specs.Prelude.{◌≡◌, List, length};
    ghost use Rattle.rvm_audit.specs.Quiet.{AreQuiet};
    ghost use Rattle.rvm_recorder.specs.Entries.{PlainEntry};

    ghost Value = { List PlainEntry };

    ghost view = { λ q. q.past };

    ghost invariant = { λ q. (q.count ≡ length q.past) × AreQuiet q.past };
}

impl Quiet {
    /// How many commands there are.
    pub(crate) fn len(&self) -> usize
        ensures count { result ≡ length self.now }
        ensures quiet { AreQuiet self.now }
    {
        self.count
    }

    /// These commands and those of an item. Hands them back if they are too many to count.
    #[tactic(auto, using(crate::proofs::Stretched::quiet_both))]
    fn with(self, item: &Item) -> Result<Quiet, Quiet>
        requires { AreQuiet item.now }
        ensures joined { IfOk result (λ q. q ≡ self ++ item.now) }
        ensures alone { IfErr result (λ q. q ≡ self) }
    {
        let Some(count) = self.count.checked_add(item.len() as usize) else {
            return Err(self);
        };
        let mut past = self.past;
        past.push(item);
        Ok(Quiet { count, past })
    }
}

/// An entry whose event is that a frame came, or which made a frame.
#[derive(Drop)]
pub(crate) struct Framed {
    /// The frame that came, and the host that it came from; none if the event is a command.
    pub(crate) came: Option<(u8, Shared<Frame>)>,
    /// The bytes of the frame that the event made.
    pub(crate) made: Option<Vec<u8>>,
    /// The entry, which only contracts see.
    entry: Snapshot<Entry>,
}

impl Model for Framed {
    ghost use Rattle.std.specs.Prelude.{option_map};
    ghost use Rattle.rvm_audit.specs.Quiet.{HasFrames};
    ghost use Rattle.rvm_recorder.specs.Entries.{PlainEntry};

    ghost Value = { PlainEntry };

    ghost view = { λ f. f.entry.value };

    ghost invariant = { λ f. HasFrames f.came (option_map (λ v. v.items) f.made) f.entry.value };
}

impl Framed {
    /// The frames of an entry; none if it is of a command that made no frame.
    fn of(alloc: Global, entry: &Entry) -> Result<Option<Framed>, AllocError>
        ensures { IfOk result (λ o. MatchOption o (IsQuiet entry.now) (λ f. f ≡ entry.now)) }
    {
        let came = frame_that_came(entry)?;
        let made = bytes_made(alloc, entry)?;
        if came.is_none() && made.is_none() {
            return Ok(None);
        }
        Ok(Some(Framed {
            came,
            made,
            entry: Snapshot::of(entry),
        }))
    }

    /// The frame that came, and the host that it came from; none if the event is a command.
    pub(crate) fn came(&self) -> Option<(u8, &Shared<Frame>)>
        ensures { MatchOption result
            (IsOfCommand self.now.event)
            (λ c. self.now.event ≡ Came c.0 c.1.now) }
    {
        match &self.came {
            Some((from, frame)) => Some((*from, frame)),
            None => None,
        }
    }

    /// The bytes of the frame that the event made.
    pub(crate) fn made(&self) -> Option<&[u8]>
        ensures { option_map (λ b. b.now) result ≡ self.now.frame }
    {
        match &self.made {
            Some(bytes) => Some(bytes.as_slice()),
            None => None,
        }
    }
}

/// The frame that came with an entry, and the host that it came from.
fn frame_that_came(entry: &Entry) -> Result<Option<(u8, Shared<Frame>)>, AllocError>
    ensures { IfOk result (λ came. HasCame came entry.now.event) }
{
    match came(entry.exchange()) {
        Some((from, frame)) => Ok(Some((from, frame.share()?))),
        None => Ok(None),
    }
}

/// The bytes of the frame that an entry made.
fn bytes_made(alloc: Global, entry: &Entry) -> Result<Option<Vec<u8>>, AllocError>
    ensures { IfOk result (λ made. option_map (λ v. v.items) made ≡ entry.now.frame) }
{
    match entry.frame() {
        Some(bytes) => Ok(Some(bytes.to_vec(alloc)?)),
        None => Ok(None),
    }
}

/// What is kept of the entries of a host: a stretch for each that has a frame, and one for the commands between two of them.
/// Contracts see the entries.
#[derive(Drop)]
pub struct Stretches {
    items: Vec<Stretch>,
}

impl Model for Stretches {
    ghost use Rattle.std.specs.Prelude.{List};
    ghost use Rattle.rvm_recorder.specs.Entries.{PlainEntry};
    ghost use Rattle.rvm_recorder.specs.Items.{all_of};

    ghost Value = { List PlainEntry };

    ghost view = { λ m. all_of m.items.items };
}

impl Stretches {
    /// The stretches, of the oldest entries first.
    pub(crate) fn as_slice(&self) -> &[Stretch]
        ensures stretches { all_of result.now ≡ self.now }
        ensures count { length result.now < 2 ^ 63 }
    {
        self.items.as_slice()
    }

    /// Keeps what is to be kept of the entries of an item.
    #[tactic(auto, using(crate::proofs::Stretched::quiet_one, crate::proofs::Stretched::quiet_steps, crate::proofs::Stretched::quiet_rounds))]
    fn note(&mut self, alloc: Global, item: &Item) -> Result<(), AllocError>
        ensures { OnOk result (self.new ≡ self.old ++ item.now) }
    {
        match item.look() {
            ItemRef::Entry(entry) => match Framed::of(alloc, entry)? {
                Some(framed) => self.add(Stretch {
                    kind: Kind::Framed(framed),
                }),
                None => self.note_quiet(item),
            },
            ItemRef::Steps(_steps) => self.note_quiet(item),
            ItemRef::Rounds(_rounds) => self.note_quiet(item),
        }
    }

    /// Keeps that there are the commands of an item.
    fn note_quiet(&mut self, item: &Item) -> Result<(), AllocError>
        requires { AreQuiet item.now }
        ensures { OnOk result (self.new ≡ self.old ++ item.now) }
    {
        let Some(last) = self.items.pop() else {
            return self.add(Stretch::of_quiet(item));
        };
        match last.with_quiet(item) {
            Ok(stretch) => self.add(stretch),
            Err(last) => {
                self.add(last)?;
                self.add(Stretch::of_quiet(item))
            }
        }
    }

    /// Appends a stretch.
    #[tactic(auto, using(crate::proofs::Stretched::one_stretched))]
    fn add(&mut self, stretch: Stretch) -> Result<(), AllocError>
        ensures { OnOk result (self.new ≡ self.old ++ stretch) }
    {
        self.items.push(stretch)?;
        Ok(())
    }
}

impl Observer for Stretches {
    ghost shows = { λ m entries. m ≡ entries };

    fn begin(alloc: Global) -> Stretches {
        Stretches {
            items: Vec::new(alloc),
        }
    }

    fn observe(&mut self, alloc: Global, items: &[Item]) -> Result<(), AllocError> {
        for item in items {
            self.note(alloc, item)?;
        }
        Ok(())
    }
}
