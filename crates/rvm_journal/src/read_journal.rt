//! A journal that was read.

ghost use Rattle.std.specs.Prelude.{◌≡◌, ◌++◌, ◌∷◌, [], IfOk, OnErr, OnOk, Some, codes, true};
ghost use Rattle.std.specs.List.{list_all};
ghost use Rattle.std.specs.Str.{bytes_eq};
ghost use Rattle.rvm_debug.specs.Words.{lines};
ghost use Rattle.rvm_journal.specs.Headers.{header_at, header_in_line};
ghost use Rattle.rvm_journal.specs.Meetings.{meetings_in};
ghost use Rattle.rvm_journal.specs.Replaying.{is_whole};
ghost use Rattle.rvm_journal.specs.Told.{text_in};
ghost use Rattle.rvm_journal.specs.Written.{is_no_feed};

use crate::header::Header;
use crate::lines_read::LinesRead;
use crate::meeting::meeting_of;
use crate::replay::text_in;
use crate::texts::END;
use rvm_station::Meeting;
use std::alloc::{AllocError, Global};
use std::marker::Model;

/// What was read of a journal, its first line and others after it, and what these tell beside events. Contracts see their
/// text; no line is kept.
#[derive(Drop)]
pub struct ReadJournal {
    header: Header,
    meetings: Vec<Meeting>,
    is_whole: bool,
    text: LinesRead,
}

impl Model for ReadJournal {
    ghost use Rattle.std.specs.Prelude.{List, ℕ};
    ghost use Rattle.rvm_journal.specs.Reading.{IsNoted};

    ghost Value = { List ℕ };

    ghost view = { λ r. r.text };

    ghost invariant = { λ r. IsNoted r.text r.header r.meetings.items r.is_whole };
}

impl ReadJournal {
    /// Begins with the first line, which has this header, and comes without its line feed. Fails if memory runs out.
    pub(crate) fn begin(
        alloc: Global,
        header: Header,
        line: &Vec<u8>,
    ) -> Result<ReadJournal, AllocError>
        requires one { list_all is_no_feed line.now.items ≡ true }
        requires header { header_in_line line.now.items ≡ Some header }
        ensures { IfOk result (λ read. read ≡ line.now.items ++ codes "\n") }
    {
        let mut meetings = Vec::new(alloc);
        note_meeting(line, &mut meetings)?;
        Ok(ReadJournal {
            header,
            meetings,
            is_whole: tells_end(line),
            text: LinesRead::none().with(line),
        })
    }

    /// Adds the next line, which comes without its line feed. Fails if memory runs out, and adds nothing then.
    pub(crate) fn add(&mut self, line: &Vec<u8>) -> Result<(), AllocError>
        requires { list_all is_no_feed line.now.items ≡ true }
        ensures added { OnOk result (self.new ≡ self.old ++ (line.now.items ++ codes "\n")) }
        ensures same { OnErr result (self.new ≡ self.old) }
    {
        note_meeting(line, &mut self.meetings)?;
        self.is_whole = tells_end(line);
        self.text = self.text.with(line);
        Ok(())
    }

    /// Returns the header.
    pub fn header(&self) -> Header
        ensures { header_at self.now ≡ Some result }
    {
        self.header
    }

    /// Returns the other hosts that the lines tell to have been met, in order.
    pub fn meetings(&self) -> &[Meeting]
        ensures { result.now ≡ meetings_in (lines self.now) }
    {
        self.meetings.as_slice()
    }

    /// Whether the last line tells the end of the journal. If it does not, the journal was cut off: its process was killed,
    /// or a line could not be written.
    pub fn is_whole(&self) -> bool
        ensures { result ≡ is_whole self.now }
    {
        self.is_whole
    }
}

/// Appends the meeting that a line tells, if it tells one. Fails if memory runs out, and appends nothing then.
fn note_meeting(line: &[u8], meetings: &mut Vec<Meeting>) -> Result<(), AllocError>
    ensures noted { OnOk result (meetings.new.items ≡ meetings.old.items ++ meetings_in (line.now ∷ [])) }
    ensures same { OnErr result (meetings.new.items ≡ meetings.old.items) }
{
    match meeting_of(line) {
        Some(meeting) => Ok(meetings.push(meeting)?),
        None => Ok(()),
    }
}

/// Whether a line tells the end of a journal.
fn tells_end(line: &[u8]) -> bool
    ensures { result ≡ bytes_eq (text_in line.now) (codes "end") }
{
    text_in(line) == END
}
