//! What the lines of a journal tell.

ghost use Rattle.std.specs.Prelude.{◌≡◌, IfOk, Ok, Some, length, option_map};
ghost use Rattle.hex.specs.Hex.{decode_of};
ghost use Rattle.rvm_core.specs.WorldLines.{world_line_of};
ghost use Rattle.rvm_core.specs.declared.world_line.WorldLine.TheVariants as line;
ghost use Rattle.rvm_debug.specs.Words.{words};
ghost use Rattle.rvm_debug.specs.declared.line.Line.TheVariants as guest;
ghost use Rattle.rvm_frame.specs.Verdict.{one_frame_of, verdict};
ghost use Rattle.rvm_journal.specs.Noting.{bytes_noted, came_noted, command_in, commanded, end_noted, event_in, events_of, frame_noted, meeting_in, noted_of, run_of, target_of, turns_noted};
ghost use Rattle.rvm_journal.specs.Replaying.{HasHarts, IsWanted, first_of};
ghost use Rattle.rvm_journal.specs.declared.noted.Noted.TheVariants.{Command as Commanded, Met};

use crate::numbers::field;
use crate::run::Run;
use hex::FromHexError;
use rvm_board::{BoardEvent, MAX_HARTS};
use rvm_core::{Asked, WorldLine};
use rvm_debug::{HexText, Line, Words, numeral, one_number};
use rvm_frame::{Frame, ReadFault, Received, read_frame};
use rvm_message::Command;
use rvm_station::Meeting;
use std::alloc::{AllocError, Global};

/// The version of the streams between the hosts of a world whose hosts keep journals in files.
pub(crate) const STREAM_VERSION: u32 = 3;

/// What a line of a journal tells.
#[derive(Drop, PartialEq, Eq)]
pub enum Noted {
    /// Consecutive turns.
    Turns(Run),
    /// A command that the host was given.
    Command(Command),
    /// A frame that came from host `from`.
    Came { from: u8, frame: Frame },
    /// Another host that was met.
    Met(Meeting),
    /// The end of the journal: the host does nothing more.
    End,
}

impl Noted {
    /// Reads what a line tells of host `host` of this many hosts: its text, without the digest before it and without the
    /// line feed. None if it tells nothing.
    #[tactic(auto, unfolding(crate::specs::Noting::noted_of))]
    pub fn read(
        alloc: Global,
        hosts: u8,
        host: u8,
        text: &[u8],
    ) -> Result<Option<Noted>, AllocError>
        ensures { IfOk result (λ noted. noted ≡ noted_of hosts host text.now) }
    {
        let mut words = Words::new(text);
        let Some(word) = words.next() else {
            return Ok(None);
        };
        if word == b"turns".as_slice() {
            return Ok(turns(words));
        }
        if word == b"came".as_slice() {
            return came(alloc, host, words);
        }
        if word == b"met".as_slice() {
            return Ok(met(text));
        }
        if word == b"end".as_slice() {
            return Ok(end(words));
        }
        Ok(command_of_line(hosts, host, text))
    }

    /// The number of events that this tells.
    #[tactic(auto, using(crate::proofs::Runs::how_many))]
    pub(crate) fn count(&self) -> u32
        ensures { result ≡ length (events_of self.now) }
    {
        match self {
            Noted::Turns(run) => run.count,
            Noted::Command(_) | Noted::Came { .. } => 1,
            Noted::Met(_) | Noted::End => 0,
        }
    }

    /// What tells the first of the events that this tells: as many as are wanted, which is one or more, or all.
    #[tactic(auto, using(crate::proofs::Replayed::first_none, crate::proofs::Replayed::first_one))]
    pub(crate) fn up_to(self, most: Option<u64>) -> Noted
        requires { IsWanted most }
        ensures events { events_of result ≡ first_of most (events_of self) }
        ensures harts { HasHarts self → HasHarts result }
    {
        match self {
            Noted::Turns(run) => Noted::Turns(run.up_to(most)),
            Noted::Command(command) => Noted::Command(command),
            Noted::Came { from, frame } => Noted::Came { from, frame },
            Noted::Met(meeting) => Noted::Met(meeting),
            Noted::End => Noted::End,
        }
    }
}

/// The words after `turns`: the hart of the first turn, the number of harts and the number of turns.
fn turns(words: Words) -> Option<Noted>
    ensures { result ≡ turns_noted words.entry }
{
    let mut words = words;
    let first = numeral(words.next()?)?;
    let harts = numeral(words.next()?)?;
    let count = one_number(words)?;
    run_of(first, harts, count)
}

/// These turns, if there are 1 to 8 harts and the first turn is that of one of them.
fn run_of(first: u32, harts: u32, count: u32) -> Option<Noted>
    ensures { result ≡ run_of first harts count }
{
    if harts <= MAX_HARTS && first < harts {
        Some(Noted::Turns(Run {
            first,
            harts,
            count,
        }))
    } else {
        None
    }
}

/// The meeting that a text tells.
fn met(text: &[u8]) -> Option<Noted>
    ensures { result ≡ option_map Met (meeting_in (words text.now)) }
{
    match meeting_in(Words::new(text)) {
        Some(meeting) => Some(Noted::Met(meeting)),
        None => None,
    }
}

/// The meeting that words tell: after `met` the number of the host, after `process` that of its process, and after
/// `world` that of the world.
pub(crate) fn meeting_in(words: Words) -> Option<Meeting>
    ensures { result ≡ meeting_in words.entry }
{
    let mut words = words;
    let host = field(&mut words, b"met", 0, 7)?;
    let process = field(&mut words, b"process", 0, u64::MAX)?;
    let world = field(&mut words, b"world", 0, u64::MAX)?;
    if !words.is_empty() {
        return None;
    }
    Some(Meeting {
        host: host as u8,
        process,
        world,
    })
}

/// The end of a journal, if no word comes after `end`.
fn end(words: Words) -> Option<Noted>
    ensures { result ≡ end_noted words.entry }
{
    if words.is_empty() {
        Some(Noted::End)
    } else {
        None
    }
}

/// The words after `came`: the bytes of the frame.
fn came(alloc: Global, host: u8, words: Words) -> Result<Option<Noted>, AllocError>
    ensures { IfOk result (λ noted. noted ≡ came_noted host words.entry) }
{
    let mut words = words;
    let Some(word) = words.next() else {
        return Ok(None);
    };
    if !words.is_empty() {
        return Ok(None);
    }
    came_bytes(alloc, host, word)
}

/// The frame whose bytes a word spells in hexadecimal, if it is for this host.
fn came_bytes(alloc: Global, host: u8, word: &[u8]) -> Result<Option<Noted>, AllocError>
    ensures { IfOk result (λ noted. noted ≡ bytes_noted host (decode_of word.now)) }
{
    match hex::decode(alloc, word) {
        Ok(bytes) => came_frame(alloc, host, &bytes),
        Err(FromHexError::OutOfMemory) => Err(AllocError),
        Err(_) => Ok(None),
    }
}

/// The frame that all of these bytes are, if it is for this host.
fn came_frame(alloc: Global, host: u8, bytes: &[u8]) -> Result<Option<Noted>, AllocError>
    ensures { IfOk result (λ noted. noted ≡ frame_noted host (one_frame_of (verdict (Some 3) bytes.now))) }
{
    match read_frame(alloc, STREAM_VERSION, bytes) {
        Ok(received) => Ok(for_host(host, received)),
        Err(ReadFault::OutOfMemory) => Err(AllocError),
        Err(_) => Ok(None),
    }
}

/// A frame that came, if it is for this host.
fn for_host(host: u8, received: Received) -> Option<Noted>
    ensures { result ≡ frame_noted host (Ok received) }
{
    let (hosts, frame) = received;
    let (from, to) = hosts?;
    if to == host {
        Some(Noted::Came { from, frame })
    } else {
        None
    }
}

/// The one command that a line of a world's script gives this host.
fn command_of_line(hosts: u8, host: u8, text: &[u8]) -> Option<Noted>
    ensures { result ≡ option_map Commanded (command_in host (world_line_of hosts text.now)) }
{
    let line = WorldLine::read(text, hosts)?;
    let command = command_in(host, line)?;
    Some(Noted::Command(command))
}

/// The one command that a line gives this host.
fn command_in(host: u8, line: WorldLine) -> Option<Command>
    ensures { result ≡ command_in host (Some line.entry) }
{
    match line {
        WorldLine::Host { host: told, asked } => host_asked(host, told, asked),
        WorldLine::Empty | WorldLine::Deliver(_) => None,
    }
}

/// The one command that is given to this host, if it is the one that is told.
fn host_asked(host: u8, told: Option<u8>, asked: Asked) -> Option<Command>
    ensures { result ≡ command_in host (Some (line.Host told asked.entry)) }
{
    if told? == host {
        commanded(host, asked)
    } else {
        None
    }
}

/// The one command that a line gives a host.
fn commanded(host: u8, asked: Asked) -> Option<Command>
    ensures { result ≡ commanded host asked.entry }
{
    match asked {
        Asked::Guest(line) => Some(Command::Board(event_in(line)?)),
        Asked::Begin { to, policy } => Some(Command::Begin {
            to: target_of(host, to),
            policy,
        }),
        Asked::Move { .. } => None,
        Asked::Copy => Some(Command::Copy),
        Asked::Resend => Some(Command::Resend),
        Asked::Abort => Some(Command::Abort),
    }
}

/// The target of a move: the one that is named, or the other host of two.
fn target_of(host: u8, to: Option<u8>) -> u8
    ensures { result ≡ target_of host to }
{
    match to {
        Some(to) => to,
        None => 1u8.saturating_sub(host),
    }
}

/// The one event that a line asks the guest for.
fn event_in(line: Line) -> Option<BoardEvent>
    ensures { result ≡ event_in line.entry }
{
    match line {
        Line::Empty => None,
        Line::Steps { hart, count } => one_step(hart, count),
        Line::Input(bytes) => one_byte(bytes),
        Line::Ask(event) => Some(event),
    }
}

/// The step of a hart, if it is one.
fn one_step(hart: u32, count: u32) -> Option<BoardEvent>
    ensures { result ≡ event_in (guest.Steps hart count) }
{
    if count == 1 {
        Some(BoardEvent::Step(hart))
    } else {
        None
    }
}

/// The byte that comes to the console, if it is one.
fn one_byte(bytes: HexText) -> Option<BoardEvent>
    ensures { result ≡ event_in (guest.Input bytes.entry) }
{
    let (byte, more) = bytes.split_first()?;
    match more.split_first() {
        None => Some(BoardEvent::Input(byte)),
        Some(_) => None,
    }
}
