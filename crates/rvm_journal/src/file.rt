//! The file of a journal to which lines are added.

ghost use Rattle.std.specs.Prelude.{◌≡◌, ◌++◌, ◌∷◌, [], None, Some, IfOk, OnOk, codes, length, true};
ghost use Rattle.std.specs.List.{list_all};
ghost use Rattle.rvm_station.specs.Logs.{IsEmpty, steps_from};
ghost use Rattle.rvm_journal.specs.Noting.{events_of, noted_of};
ghost use Rattle.rvm_journal.specs.Told.{mark};
ghost use Rattle.rvm_journal.specs.Written.{Keeping, Puts, is_no_feed, kept_of, waiting, with_more};
ghost use Rattle.rvm_message.specs.declared.event.HostEvent.TheVariants.{Came, Do};

use crate::digest::LineDigest;
use crate::noted::Noted;
use crate::run::Run;
use crate::texts::{END, came_text, command_text, met_text, turns_text};
use rvm_frame::Frame;
use rvm_message::Command;
use rvm_refusal::LinkFault;
use rvm_station::Meeting;
use std::alloc::Global;
use std::io::Write;
use std::marker::Model;
use std::snapshot::Snapshot;

/// The most turns that wait for their line while nothing else happens.
const LONGEST: u32 = 1 << 22;

/// The file of a journal to which lines are added, and the turns that have no line yet. What its lines tell is known if
/// it is known that the file was empty when the journal began.
#[derive(Drop)]
pub(crate) struct JournalFile<W: Write + Drop> {
    writer: W,
    alloc: Global,
    /// The number of hosts of the world.
    hosts: u8,
    /// The number of the host.
    host: u8,
    /// The digest of the last line.
    digest: LineDigest,
    /// The turns that have no line yet.
    run: Option<Run>,
    /// The file as it was when the journal began: a value that only contracts see.
    began: Snapshot<W>,
}

impl<W: Write + Drop> Model for JournalFile<W> {
    ghost use Rattle.rvm_journal.specs.Written.{IsFile, Keeping, is_empty, told_at};

    ghost Value = { Keeping };

    ghost view = { λ o. record {
      told = told_at (is_empty (W.contents o.began.value)) o.hosts o.host (W.contents o.writer);
      run = o.run;
    } };

    ghost invariant = { λ o. IsFile (is_empty (W.contents o.began.value)) o.hosts o.host o.digest.bytes
        (W.contents o.writer) };
}

impl<W: Write + Drop> JournalFile<W> {
    /// Begins the journal of host `host` of this many hosts, with this text as its first line. Fails if the text has a
    /// line feed, or if it cannot be written.
    pub(crate) fn begin(
        alloc: Global,
        mut writer: W,
        hosts: u8,
        host: u8,
        text: &[u8],
    ) -> Result<JournalFile<W>, LinkFault>
        ensures { IfOk result (λ file. IsEmpty (kept_of file)) }
    {
        let began = Snapshot::of(&writer);
        let digest = put(alloc, &mut writer, LineDigest::none(), text)?;
        Ok(JournalFile {
            writer,
            alloc,
            hosts,
            host,
            digest,
            run: None,
            began,
        })
    }

    /// Adds the line of a command.
    pub(crate) fn command(self, command: &Command) -> Result<JournalFile<W>, LinkFault>
        ensures { IfOk result (λ file. kept_of file ≡ with_more (kept_of self) (Do command.now ∷ [])) }
    {
        let file = self.without_run()?;
        let text = command_text(file.alloc, file.hosts, file.host, command)?;
        file.line(&text, &Noted::Command(command.copy()))
    }

    /// Adds the line of a frame that came from host `from`.
    pub(crate) fn came(self, from: u8, frame: &Frame) -> Result<JournalFile<W>, LinkFault>
        ensures { IfOk result (λ file. kept_of file ≡ with_more (kept_of self) (Came from frame.now ∷ [])) }
    {
        let file = self.without_run()?;
        let text = came_text(file.alloc, file.host, from, frame)?;
        let Ok(frame) = frame.copy(file.alloc) else {
            return Err(LinkFault);
        };
        file.line(&text, &Noted::Came { from, frame })
    }

    /// Keeps turns of this many harts, from turn `turn` on, for a line that they share with the turns before and after
    /// them. They wait for it until something else happens, or until there are more than `LONGEST`.
    #[tactic(auto, using(crate::proofs::Runs::no_turns))]
    pub(crate) fn turns(
        self,
        turn: u64,
        harts: u32,
        count: u32,
    ) -> Result<JournalFile<W>, LinkFault>
        ensures { IfOk result (λ file. kept_of file ≡ with_more (kept_of self) (steps_from turn harts count)) }
    {
        if count == 0 {
            return Ok(self);
        }
        if harts == 0 {
            return Err(LinkFault);
        }
        self.with_run(Run::of(turn, harts, count))
    }

    /// Adds the line of another host that was met.
    #[tactic(auto, using(crate::proofs::Keeping::nothing_more))]
    pub(crate) fn met(self, meeting: Meeting) -> Result<JournalFile<W>, LinkFault>
        ensures { IfOk result (λ file. kept_of file ≡ kept_of self) }
    {
        let file = self.without_run()?;
        let text = met_text(file.alloc, meeting)?;
        file.line(&text, &Noted::Met(meeting))
    }

    /// Writes the turns that have no line yet and the line that ends the journal, and hands all that was written to the
    /// system.
    #[tactic(auto, using(crate::proofs::Keeping::nothing_more))]
    pub(crate) fn end(self) -> Result<JournalFile<W>, LinkFault>
        ensures { IfOk result (λ file. kept_of file ≡ kept_of self) }
    {
        let mut file = self.without_run()?.line(END, &Noted::End)?;
        file.writer.flush()?;
        Ok(file)
    }
}

impl<W: Write + Drop> JournalFile<W> {
    /// Keeps turns for a line.
    fn with_run(self, more: Run) -> Result<JournalFile<W>, LinkFault>
        ensures { IfOk result (λ file. kept_of file
            ≡ with_more (kept_of self) (steps_from more.first more.harts more.count)) }
    {
        let run = self.run;
        match run.and_then(|run| run.joined(more)) {
            Some(run) if run.count <= LONGEST => Ok(self.waiting(run)),
            _ => Ok(self.without_run()?.waiting(more)),
        }
    }

    /// This journal with these turns that have no line yet, in place of those that it has.
    fn waiting(self, run: Run) -> JournalFile<W>
        ensures { result ≡ record self { run = Some run } }
    {
        let mut file = self;
        file.run = Some(run);
        file
    }

    /// Writes the line of the turns that have none yet, if there are such turns.
    fn without_run(self) -> Result<JournalFile<W>, LinkFault>
        ensures { IfOk result (λ file. file
            ≡ record { told = with_more self.told (waiting self.run); run = None }) }
    {
        match self.run {
            None => Ok(self),
            Some(run) => {
                let text = turns_text(self.alloc, run)?;
                self.line(&text, &Noted::Turns(run))
            }
        }
    }

    /// Adds a line with this text, which tells `noted`; no turns are to wait for a line. Fails if the text is not read as
    /// that, or if the line cannot be written.
    fn line(self, text: &[u8], noted: &Noted) -> Result<JournalFile<W>, LinkFault>
        ensures { IfOk result (λ file. file
            ≡ record { told = with_more self.told (events_of noted.now); run = None }) }
    {
        let JournalFile {
            mut writer,
            alloc,
            hosts,
            host,
            digest,
            run: _,
            began,
        } = self;
        check(alloc, hosts, host, text, noted)?;
        let digest = put(alloc, &mut writer, digest, text)?;
        Ok(JournalFile {
            writer,
            alloc,
            hosts,
            host,
            digest,
            run: None,
            began,
        })
    }
}

/// Reads a text back, and fails unless it tells `noted`, so that no line is written that a reader would not take.
fn check(alloc: Global, hosts: u8, host: u8, text: &[u8], noted: &Noted) -> Result<(), LinkFault>
    ensures { OnOk result (noted_of hosts host text.now ≡ Some noted.now) }
{
    match Noted::read(alloc, hosts, host, text) {
        Ok(Some(read)) => agree(&read, noted),
        _ => Err(LinkFault),
    }
}

/// Fails unless what was read is what was to be written.
fn agree(read: &Noted, noted: &Noted) -> Result<(), LinkFault>
    ensures { OnOk result (read.now ≡ noted.now) }
{
    if read == noted {
        Ok(())
    } else {
        Err(LinkFault)
    }
}

/// Writes the line of a text in one piece: what it shows of its digest, the text and a line feed. Returns its digest.
/// Fails if the text has a line feed, if memory runs out, or if the write fails.
fn put<W: Write>(
    alloc: Global,
    writer: &mut W,
    before: LineDigest,
    text: &[u8],
) -> Result<LineDigest, LinkFault>
    ensures { IfOk result (λ digest. Puts before.bytes text.now digest.bytes
        (W.contents writer.old) (W.contents writer.new)) }
{
    let digest = before.after(text);
    let mut line = marked(alloc, digest, text)?;
    if !is_one_line(&line) {
        return Err(LinkFault);
    }
    line.write_all(b"\n")?;
    writer.write_all(&line)?;
    Ok(digest)
}

/// The line of a text, without its line feed.
fn marked(alloc: Global, digest: LineDigest, text: &[u8]) -> Result<Vec<u8>, LinkFault>
    ensures line { IfOk result (λ line. line.items ≡ mark digest.bytes ++ text.now) }
    ensures size { length (mark digest.bytes) ≡ 17 }
{
    let mark = digest.mark();
    let mut line = Vec::new(alloc);
    line.write_all(&mark)?;
    line.write_all(text)?;
    Ok(line)
}

/// Whether a text has no line feed.
fn is_one_line(text: &[u8]) -> bool
    ensures { result ≡ list_all is_no_feed text.now }
{
    text.iter().all(|byte| *byte != b'\n')
}
