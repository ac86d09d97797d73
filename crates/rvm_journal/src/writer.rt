//! Writes the journal of a host while the host runs.

ghost use Rattle.std.specs.Prelude.{◌∷◌, [], IfOk};
ghost use Rattle.std.specs.Option.{option_and_then};
ghost use Rattle.rvm_station.specs.Logs.{IsEmpty, KeepsOn, steps_from};
ghost use Rattle.rvm_journal.specs.Written.{kept_of};
ghost use Rattle.rvm_message.specs.declared.event.HostEvent.TheVariants.{Came, Do};

use crate::file::JournalFile;
use crate::header::{Header, header_text};
use rvm_frame::Frame;
use rvm_message::Command;
use rvm_refusal::LinkFault;
use rvm_station::{EventLog, Meeting};
use std::alloc::Global;
use std::io::Write;
use std::marker::Model;

/// Writes the journal of a host, line by line: each event is handed to the system when it is kept, but for turns, which
/// share a line with the turns before and after them. When it is finished, its last line says so. If a line cannot be
/// written, or memory runs out, the journal is cut off after the line before it, and nothing is kept from then on.
#[derive(Drop)]
pub struct JournalWriter<W: Write + Drop> {
    file: Option<JournalFile<W>>,
}

impl<W: Write + Drop> Model for JournalWriter<W> {
    ghost use Rattle.std.specs.Prelude.{List, Option};
    ghost use Rattle.std.specs.Option.{option_and_then};
    ghost use Rattle.rvm_message.specs.declared.event.HostEvent.{HostEvent};
    ghost use Rattle.rvm_journal.specs.Written.{kept_of};

    ghost Value = { Option (List HostEvent) };

    ghost view = { λ j. option_and_then kept_of j.file };
}

impl<W: Write + Drop> JournalWriter<W> {
    /// Begins a journal with this header in an empty file. Fails if the header cannot be written, or memory runs out.
    pub fn new(alloc: Global, writer: W, header: &Header) -> Result<JournalWriter<W>, LinkFault>
        ensures { IfOk result IsEmpty }
    {
        let text = header_text(alloc, header)?;
        let file = JournalFile::begin(alloc, writer, header.hosts, header.host, &text)?;
        Ok(JournalWriter { file: Some(file) })
    }
}

impl<W: Write + Drop> EventLog for JournalWriter<W> {
    ghost use Rattle.std.specs.Prelude.{List, Option};
    ghost use Rattle.rvm_message.specs.declared.event.HostEvent.{HostEvent};

    ghost kept = { λ j. j };

    fn command(&mut self, command: &Command) {
        self.file = commanded(self.file.take(), command);
    }

    fn came(&mut self, from: u8, frame: &Frame) {
        self.file = heard(self.file.take(), from, frame);
    }

    fn turns(&mut self, turn: u64, harts: u32, count: u32) {
        self.file = turned(self.file.take(), turn, harts, count);
    }

    fn met(&mut self, meeting: Meeting) {
        self.file = noted(self.file.take(), meeting);
    }

    fn finish(&mut self) -> Result<(), LinkFault> {
        self.file = ended(self.file.take());
        match self.file {
            Some(_) => Ok(()),
            None => Err(LinkFault),
        }
    }
}

/// A journal with the line of a command, unless it has ended, or ends since the line cannot be written.
#[tactic(auto, using(crate::proofs::Keeping::keeps_on, crate::proofs::Keeping::lost))]
fn commanded<W: Write + Drop>(
    file: Option<JournalFile<W>>,
    command: &Command,
) -> Option<JournalFile<W>>
    ensures { KeepsOn (option_and_then kept_of file) (option_and_then kept_of result) (Do command.now ∷ []) }
{
    file?.command(command).ok()
}

/// A journal with the line of a frame that came, unless it has ended, or ends since the line cannot be written.
#[tactic(auto, using(crate::proofs::Keeping::keeps_on, crate::proofs::Keeping::lost))]
fn heard<W: Write + Drop>(
    file: Option<JournalFile<W>>,
    from: u8,
    frame: &Frame,
) -> Option<JournalFile<W>>
    ensures { KeepsOn (option_and_then kept_of file) (option_and_then kept_of result) (Came from frame.now ∷ []) }
{
    file?.came(from, frame).ok()
}

/// A journal that keeps turns, unless it has ended, or ends since a line cannot be written.
#[tactic(auto, using(crate::proofs::Keeping::keeps_on, crate::proofs::Keeping::lost))]
fn turned<W: Write + Drop>(
    file: Option<JournalFile<W>>,
    turn: u64,
    harts: u32,
    count: u32,
) -> Option<JournalFile<W>>
    ensures { KeepsOn (option_and_then kept_of file) (option_and_then kept_of result) (steps_from turn harts count) }
{
    file?.turns(turn, harts, count).ok()
}

/// A journal with the line of another host that was met, unless it has ended, or ends since the line cannot be written.
#[tactic(auto, using(crate::proofs::Keeping::keeps_all, crate::proofs::Keeping::lost))]
fn noted<W: Write + Drop>(file: Option<JournalFile<W>>, meeting: Meeting) -> Option<JournalFile<W>>
    ensures { KeepsOn (option_and_then kept_of file) (option_and_then kept_of result) [] }
{
    file?.met(meeting).ok()
}

/// A journal with its last line, unless it has ended before, or ends since a line cannot be written.
#[tactic(auto, using(crate::proofs::Keeping::keeps_all, crate::proofs::Keeping::lost))]
fn ended<W: Write + Drop>(file: Option<JournalFile<W>>) -> Option<JournalFile<W>>
    ensures { KeepsOn (option_and_then kept_of file) (option_and_then kept_of result) [] }
{
    file?.end().ok()
}
