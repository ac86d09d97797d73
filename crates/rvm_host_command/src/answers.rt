//! What a host answers to a line of an operator.

ghost use Rattle.std.specs.Prelude.{◌≡◌, ◌++◌, codes, IfOk, IfSome};
ghost use Rattle.std.specs.Io.KnownBytes.{Appends};
ghost use Rattle.rvm_station.specs.Movers.{IsMoveEnd};
ghost use Rattle.rvm_host_command.specs.Told.{AreStepsTold, IsAskedTold, IsCommandTold, IsEventTold, IsInputTold, IsLastInput, IsLastStep, IsLineTold, IsMoveTold, outcome_of};
ghost use Rattle.rvm_message.specs.declared.event.Command.TheVariants as command;
ghost use Rattle.rvm_message.specs.declared.event.HostEvent.TheVariants.{Do};
ghost use Rattle.rvm_refusal.specs.Refusal.{text_of};

use crate::looks::{answer_further, unlettered};
use crate::process::Process;
use rvm_board::{BoardEvent, BoardReply};
use rvm_core::{Asked, WorldLine, write_guest_reply, write_move_reply, write_steps_reply};
use rvm_debug::{HexText, Line, address_of, is_refused};
use rvm_host::ModeKind;
use rvm_journal::letter_of;
use rvm_message::{Command, HostReply};
use rvm_precopy::Policy;
use rvm_refusal::{LinkFault, Refusal};
use rvm_station::{
    Access, Figures, Hosting, MoveEnd, MovePlan, Progress, ProgressReporter, move_away,
};
use std::io::{Read, Write};
use std::net::OpenStream;
use std::sync::Wait;
use std::sync::atomic::Ordering;
use std::time::{Clock, Duration};

/// Whether what a line asked for happened.
#[derive(Clone, Copy, Debug, PartialEq, Eq)]
pub(crate) enum Outcome {
    Done,
    Refused,
}

/// Writes why a line is refused.
pub(crate) fn refuse<O: Write>(output: &mut O, why: Refusal) -> Result<Outcome, LinkFault>
    ensures refused { IfOk result (λ outcome. outcome ≡ Outcome.Refused) }
    ensures told { IfOk result (λ outcome. Appends (O.contents output.old) (O.contents output.new)
        (text_of why ++ codes "\n")) }
{
    writeln!(output, "{why}")?;
    Ok(Outcome::Refused)
}

/// Does what a line asks for, and writes the answer. `LinkFault` if a write fails.
pub(crate) fn answer_line<
    L: Hosting,
    A: Access<L>,
    S: Read + Write + OpenStream + Drop,
    O: Write,
    R: Wait + Clock,
>(
    rt: &R,
    process: &Process<L, S>,
    access: &mut A,
    line: &[u8],
    output: &mut O,
) -> Result<Outcome, LinkFault> {
    if line == b"status".as_slice() {
        return tell_status(rt, process, access, output);
    }
    if line == b"stop".as_slice() && access.status().kind != ModeKind::Empty {
        return refuse(output, Refusal::Busy);
    }
    if line == b"stop".as_slice() || line == b"stop now".as_slice() {
        writeln!(output, "stopped")?;
        process.stop();
        return Ok(Outcome::Done);
    }
    match WorldLine::read(line, process.hosts) {
        Some(WorldLine::Empty) => Ok(Outcome::Done),
        Some(WorldLine::Host { host, asked }) if is_for(process.station.id, host) => {
            let other = other_host(process.station.id);
            answer_asked(rt, process, access, asked, other, output)
        }
        Some(_) => refuse(output, Refusal::BadToken),
        None => {
            let letter = b'A'.saturating_add(process.station.id);
            answer_further(access, unlettered(letter, line), output)
        }
    }
}

/// Whether a line asks the host with this number: it names that host, or none.
fn is_for(id: u8, host: Option<u8>) -> bool {
    host.is_none() || host == Some(id)
}

/// Does what the host is asked, and writes the answer. If a move names no target, it goes to host `other`.
fn answer_asked<
    L: Hosting,
    A: Access<L>,
    S: Read + Write + OpenStream + Drop,
    O: Write,
    R: Wait + Clock,
>(
    rt: &R,
    process: &Process<L, S>,
    access: &mut A,
    asked: Asked<'_>,
    other: u8,
    output: &mut O,
) -> Result<Outcome, LinkFault>
    ensures { IfOk result (λ outcome. IsAskedTold L.gave other asked.entry outcome (O.contents output.old)
        (O.contents output.new)) }
{
    match asked {
        Asked::Guest(line) => answer_guest(rt, process, access, line, output),
        Asked::Move { to, policy } => answer_move(
            rt,
            process,
            access,
            to.unwrap_or(other),
            policy,
            output,
        ),
        Asked::Begin { to, policy } => {
            let to = to.unwrap_or(other);
            answer_command(rt, process, access, &Command::Begin { to, policy }, output)
        }
        Asked::Copy => answer_command(rt, process, access, &Command::Copy, output),
        Asked::Resend => answer_command(rt, process, access, &Command::Resend, output),
        Asked::Abort => answer_command(rt, process, access, &Command::Abort, output),
    }
}

/// The target of a move that names none: the other host, if there are two.
fn other_host(id: u8) -> u8 {
    if id == 0 { 1 } else { 0 }
}

/// Writes the status of the host: the name of its mode, its highest move number, its partner, the hosts to which it has
/// a connection, and the number of turns that it made.
fn tell_status<L: Hosting, A: Access<L>, S: Read + Write + OpenStream + Drop, O: Write, R: Wait>(
    rt: &R,
    process: &Process<L, S>,
    access: &A,
    output: &mut O,
) -> Result<Outcome, LinkFault> {
    let status = access.status();
    write!(output, "{} {}", name_of(status.kind), status.move_number)?;
    if status.partner != process.station.id {
        write!(output, " with {}", letter_of(status.partner))?;
    }
    write!(output, " peers")?;
    for host in 0..process.hosts {
        if process.station.routes.is_open(rt, host) {
            write!(output, " {}", letter_of(host))?;
        }
    }
    let turns = process.harts.turns.load(Ordering::SeqCst);
    writeln!(output, " turns {turns}")?;
    Ok(Outcome::Done)
}

/// The name of a mode.
fn name_of(kind: ModeKind) -> &'static str {
    match kind {
        ModeKind::Empty => "empty",
        ModeKind::Running => "running",
        ModeKind::Offering => "offering",
        ModeKind::Copying => "copying",
        ModeKind::Stopped => "stopped",
        ModeKind::Given => "given",
        ModeKind::Staging => "staging",
        ModeKind::Held => "held",
    }
}

/// The least number of milliseconds between two lines that report how far a move has come.
const PROGRESS: u64 = 500;

/// An operator to whom it is reported, from time to time, how far a move has come.
#[derive(Drop)]
struct Watcher<'w, O: Write, R: Clock> {
    rt: &'w R,
    output: &'w mut O,
    told: Duration,
}

impl<'w, O: Write, R: Clock> ProgressReporter for Watcher<'w, O, R> {
    fn tell(&mut self, progress: Progress) {
        let now = self.rt.monotonic().unwrap_or(Duration::ZERO);
        if now.saturating_sub(self.told) < Duration::from_millis(PROGRESS) {
            return;
        }
        self.told = now;
        let _untold = tell_progress(self.output, progress);
    }
}

/// Writes how far a move has come, and flushes it.
fn tell_progress<O: Write>(output: &mut O, progress: Progress) -> Result<(), LinkFault> {
    writeln!(
        output,
        "progress round {} copies {} left {}",
        progress.rounds, progress.copies, progress.left
    )?;
    output.flush()?;
    Ok(())
}

/// Moves the guest to another host, reports meanwhile how far the move has come, and writes how it ended.
fn answer_move<
    L: Hosting,
    A: Access<L>,
    S: Read + Write + OpenStream + Drop,
    O: Write,
    R: Wait + Clock,
>(
    rt: &R,
    process: &Process<L, S>,
    access: &mut A,
    to: u8,
    policy: Policy,
    output: &mut O,
) -> Result<Outcome, LinkFault>
    ensures { IfOk result (IsMoveTold L.gave) }
{
    let plan = MovePlan {
        to,
        policy,
        patience: process.patience,
        bandwidth: process.bandwidth,
    };
    process.harts.moves.store(true, Ordering::SeqCst);
    let mut watcher = Watcher {
        rt,
        output: &mut *output,
        told: rt.monotonic().unwrap_or(Duration::ZERO),
    };
    let end = move_away(
        rt,
        &process.station,
        access,
        &plan,
        &process.harts.stop,
        &mut watcher,
    );
    process.harts.moves.store(false, Ordering::SeqCst);
    tell_move_end::<L, O>(output, end)
}

/// Writes how a move ended. Returns `Done` only if the guest runs at its target.
fn tell_move_end<L: Hosting, O: Write>(output: &mut O, end: MoveEnd) -> Result<Outcome, LinkFault>
    requires { IsMoveEnd L.gave end }
    ensures { IfOk result (IsMoveTold L.gave) }
{
    match end {
        MoveEnd::Moved(figures) => return tell_figures(output, &figures),
        MoveEnd::Declined(limit) => writeln!(output, "declined {limit}")?,
        MoveEnd::Refused(why) => return refuse(output, Refusal::from(why)),
        MoveEnd::GivenUp => writeln!(output, "given up")?,
        MoveEnd::Aborted => writeln!(output, "aborted")?,
        MoveEnd::OutOfMemory => return refuse(output, Refusal::OutOfMemory),
        MoveEnd::Stopped => writeln!(output, "stopped")?,
    }
    Ok(Outcome::Refused)
}

/// Writes the figures of a move whose guest runs at its target.
fn tell_figures<O: Write>(output: &mut O, figures: &Figures) -> Result<Outcome, LinkFault> {
    writeln!(
        output,
        "moved {} rounds {} copies {} bytes {} ms {} paused {}",
        figures.number,
        figures.rounds,
        figures.copies,
        figures.bytes,
        figures.time.as_millis(),
        figures.pause.as_millis()
    )?;
    Ok(Outcome::Done)
}

/// Gives the host a command of a move, and writes the reply.
#[tactic(auto, using(crate::proofs::Told::command_told))]
fn answer_command<L: Hosting, A: Access<L>, S: Read + Write + OpenStream + Drop, O: Write, R: Wait>(
    rt: &R,
    process: &Process<L, S>,
    access: &mut A,
    command: &Command,
    output: &mut O,
) -> Result<Outcome, LinkFault>
    ensures { IfOk result (λ outcome. IsCommandTold L.gave command.now outcome (O.contents output.old)
        (O.contents output.new)) }
{
    let Ok(reply) = process.station.obey(rt, access, command) else {
        return refuse(output, Refusal::OutOfMemory);
    };
    write_move_reply(output, &reply, None)?;
    Ok(outcome_of(&reply))
}

/// Whether what a host was asked happened, by its reply.
fn outcome_of(reply: &HostReply) -> Outcome
    ensures { result ≡ outcome_of reply.now }
{
    match reply {
        HostReply::Board(answer) => {
            if is_refused(answer) {
                Outcome::Refused
            } else {
                Outcome::Done
            }
        }
        HostReply::Refused(_) => Outcome::Refused,
        _ => Outcome::Done,
    }
}

/// Does what a line asks of the guest, and writes the answer.
fn answer_guest<L: Hosting, A: Access<L>, S: Read + Write + OpenStream + Drop, O: Write, R: Wait>(
    rt: &R,
    process: &Process<L, S>,
    access: &mut A,
    line: Line<'_>,
    output: &mut O,
) -> Result<Outcome, LinkFault>
    ensures { IfOk result (λ outcome. IsLineTold L.gave line.entry outcome (O.contents output.old) (O.contents output.new)) }
{
    match line {
        Line::Empty => Ok(Outcome::Done),
        Line::Steps { hart, count } => answer_steps(rt, process, access, hart, count, output),
        Line::Input(bytes) => answer_input(rt, process, access, bytes, output),
        Line::Ask(event) => answer_event(rt, process, access, event, output),
    }
}

/// Gives the guest an event. Returns the reply; none if memory runs out.
fn ask_guest<L: Hosting, A: Access<L>, S: Read + Write + OpenStream + Drop, R: Wait>(
    rt: &R,
    process: &Process<L, S>,
    access: &mut A,
    event: BoardEvent,
) -> Option<HostReply>
    ensures { IfSome result (L.gave (Do (command.Board event))) }
{
    match process.station.obey(rt, access, &Command::Board(event)) {
        Ok(reply) => Some(reply),
        Err(_) => None,
    }
}

/// Gives the guest an event, and writes the reply.
#[tactic(auto, using(crate::proofs::Told::event_told))]
fn answer_event<L: Hosting, A: Access<L>, S: Read + Write + OpenStream + Drop, O: Write, R: Wait>(
    rt: &R,
    process: &Process<L, S>,
    access: &mut A,
    event: BoardEvent,
    output: &mut O,
) -> Result<Outcome, LinkFault>
    ensures { IfOk result (λ outcome. IsEventTold L.gave event outcome (O.contents output.old) (O.contents output.new)) }
{
    let address = address_of(&event);
    let Some(reply) = ask_guest(rt, process, access, event) else {
        return refuse(output, Refusal::OutOfMemory);
    };
    write_guest_reply(output, address, &reply)?;
    Ok(outcome_of(&reply))
}

/// Makes at most `count` steps of a hart, up to the first that retires no instruction, and writes how many it made and
/// the last reply.
#[tactic(auto, using(crate::proofs::Told::steps_told))]
fn answer_steps<L: Hosting, A: Access<L>, S: Read + Write + OpenStream + Drop, O: Write, R: Wait>(
    rt: &R,
    process: &Process<L, S>,
    access: &mut A,
    hart: u32,
    count: u32,
    output: &mut O,
) -> Result<Outcome, LinkFault>
    ensures { IfOk result (λ outcome. AreStepsTold L.gave hart count outcome (O.contents output.old) (O.contents output.new)) }
{
    let Some((made, last)) = make_steps(rt, process, access, hart, count) else {
        return refuse(output, Refusal::OutOfMemory);
    };
    write_steps_reply(output, hart, made, &last)?;
    Ok(outcome_of(&last))
}

/// Makes at most `count` steps of a hart, up to the first that retires no instruction. Returns how many it made, and
/// the last reply; none if memory runs out.
fn make_steps<L: Hosting, A: Access<L>, S: Read + Write + OpenStream + Drop, R: Wait>(
    rt: &R,
    process: &Process<L, S>,
    access: &mut A,
    hart: u32,
    count: u32,
) -> Option<(u32, HostReply)>
    ensures { IfSome result (λ p. IsLastStep L.gave hart count p.0 p.1) }
{
    let mut made = 0;
    let mut last = HostReply::Board(BoardReply::Done);
    for step in 0..count {
        last = ask_guest(rt, process, access, BoardEvent::Step(hart))?;
        made = step + 1;
        if last != HostReply::Board(BoardReply::Retired) {
            break;
        }
    }
    Some((made, last))
}

/// Gives the console bytes of input, up to the first that it does not take, and writes the last reply.
#[tactic(auto, using(crate::proofs::Told::input_told))]
fn answer_input<L: Hosting, A: Access<L>, S: Read + Write + OpenStream + Drop, O: Write, R: Wait>(
    rt: &R,
    process: &Process<L, S>,
    access: &mut A,
    bytes: HexText<'_>,
    output: &mut O,
) -> Result<Outcome, LinkFault>
    ensures { IfOk result (λ outcome. IsInputTold L.gave outcome (O.contents output.old) (O.contents output.new)) }
{
    let Some(reply) = type_in(rt, process, access, bytes) else {
        return refuse(output, Refusal::OutOfMemory);
    };
    write_guest_reply(output, None, &reply)?;
    Ok(outcome_of(&reply))
}

/// Gives the console bytes of input, up to the first that it does not take. Returns the last reply; none if memory runs
/// out.
#[tactic(auto, using(crate::proofs::Told::typed))]
fn type_in<L: Hosting, A: Access<L>, S: Read + Write + OpenStream + Drop, R: Wait>(
    rt: &R,
    process: &Process<L, S>,
    access: &mut A,
    bytes: HexText<'_>,
) -> Option<HostReply>
    ensures { IfSome result (IsLastInput L.gave) }
{
    let mut left = bytes;
    let mut last = HostReply::Board(BoardReply::Done);
    while let Some((byte, behind)) = left.split_first() {
        last = ask_guest(rt, process, access, BoardEvent::Input(byte))?;
        if outcome_of(&last) == Outcome::Refused {
            break;
        }
        left = behind;
    }
    Some(last)
}
