//! The loop of a run whose harts may be drawn, that may end at a fault, and of which a part may be traced: turn by turn, and
//! slower than `run`.

ghost use Rattle.std.specs.Prelude.{◌≡◌, ◌<◌, ◌≤◌, ◌+◌, ◌%◌, ◌∷◌, ◌++◌, [], Some, None, IfOk, OnOk, OnErr, false, true, drop, length};
ghost use Rattle.std.specs.List.{concat};
ghost use Rattle.std.specs.Io.KnownBytes.{Appends};
ghost use Rattle.rvm_board.specs.declared.event.BoardEvent.TheVariants.{Step};
ghost use Rattle.rvm_board.specs.Events.{answered, pc_of, step_reply};
ghost use Rattle.rvm_command.specs.Buffered.{GoesOut};
ghost use Rattle.rvm_command.specs.Counting.{AreRuns};
ghost use Rattle.rvm_command.specs.Run.{IsAfter, IsPartWay, after, run_by};
ghost use Rattle.rvm_command.specs.Turns.{between, drains_after, ends_turns, taken_by};
ghost use Rattle.rvm_command.specs.Watched.{BreaksOff, HasRun, is_traced, lines_from, run_with, traced_of, turns_of};

use crate::coverage::Counts;
use crate::fault::Fault;
use crate::latest_traps::LatestTraps;
use crate::order::hart_of;
use crate::output_buffer::OutputBuffer;
use crate::run::{Ended, WRITE_EVERY, drain, feed, run};
use crate::trace::{look, write_step};
use rvm_arguments::{OrdersArguments, RunArguments, TraceArguments};
use rvm_board::{BoardReply, DRAIN_EVERY, Debugged};
use rvm_hart::Stepped;
use rvm_mem::Memory;
use rvm_refusal::LinkFault;
use std::alloc::Global;
use std::io::{self, Write};

/// Runs a guest as the arguments ask for: turn by turn, if its harts are drawn, if it has to stop at a fault, is traced, or
/// the words that run are counted, which is so if `counts` has numbers. `LinkFault` if a write fails.
#[tactic(auto, using(crate::proofs::Covering::counted_anyway))]
pub(crate) fn run_asked<M: Memory, O: Write, T: Write>(
    guest: &mut Debugged<M>,
    arguments: &RunArguments,
    input: &[u8],
    counts: &mut Counts,
    output: &mut O,
    trace: &mut T,
) -> Result<Ended, LinkFault>
    requires { AreRuns counts.old [] }
    ensures counted { IfOk result (λ end. AreRuns counts.new (run_with arguments.now.seed arguments.now.stop_at_fault
        (traced_of arguments.now.trace) arguments.now.steps input.now guest.old.guest).steps) }
    ensures count { length counts.new ≡ length counts.old }
    ensures run { IfOk result (λ end. HasRun (run_with arguments.now.seed arguments.now.stop_at_fault (traced_of arguments.now.trace)
        arguments.now.steps input.now guest.old.guest) end guest.old guest.new
        (O.contents output.old) (O.contents output.new) (T.contents trace.old) (T.contents trace.new)) }
    ensures broken { OnErr result (BreaksOff (run_with arguments.now.seed arguments.now.stop_at_fault (traced_of arguments.now.trace)
        arguments.now.steps input.now guest.old.guest)
        (run_by arguments.now.seed (turns_of arguments.now.seed arguments.now.stop_at_fault arguments.now.steps input.now guest.old.guest) 0 input.now
        guest.old.guest).events guest.old guest.new) }
{
    let asked = Asked {
        steps: arguments.steps,
        stop_at_fault: arguments.stop_at_fault,
        traced: traced_of(&arguments.trace),
        seed: arguments.seed,
    };
    if asked.seed.is_some() || asked.stop_at_fault || asked.traced.is_some() || !counts.is_empty() {
        run_watched(guest, asked, input, counts, output, trace)
    } else {
        run(guest, asked.steps, input, output)
    }
}

/// Runs a guest by a seed, of which nothing but its output is asked. `LinkFault` if a write fails, which is possible only if
/// there was something to write.
#[tactic(auto, using(crate::proofs::Covering::nothing_counted, crate::proofs::Seeding::some_output))]
pub(crate) fn run_seeded<M: Memory, W: Write>(
    alloc: Global,
    guest: &mut Debugged<M>,
    arguments: &OrdersArguments,
    input: &[u8],
    seed: u32,
    writer: &mut W,
) -> Result<Ended, LinkFault>
    ensures ended { IfOk result (λ end. end ≡ (run_with (Some seed) arguments.now.stop_at_fault None arguments.now.steps
        input.now guest.old.guest).ended) }
    ensures written { OnOk result (Appends (W.contents writer.old) (W.contents writer.new)
        (run_with (Some seed) arguments.now.stop_at_fault None arguments.now.steps input.now guest.old.guest).written) }
    ensures some { OnErr result (0 < length (run_with (Some seed) arguments.now.stop_at_fault None arguments.now.steps
        input.now guest.old.guest).written) }
{
    let asked = Asked {
        steps: arguments.steps,
        stop_at_fault: arguments.stop_at_fault,
        traced: None,
        seed: Some(seed),
    };
    run_watched(
        guest,
        asked,
        input,
        &mut Counts::none(alloc),
        writer,
        &mut io::sink(),
    )
}

/// The first and the last turn that have a line in a trace, if there is one.
fn traced_of(trace: &Option<TraceArguments>) -> Option<(u32, u32)>
    ensures { result ≡ traced_of trace.now }
{
    match trace {
        Some(asked) => Some((asked.from, asked.to)),
        None => None,
    }
}

/// What is asked of a run.
#[derive(Clone, Copy)]
struct Asked {
    /// The most turns that it makes.
    steps: u32,
    /// Whether it ends at the first fault.
    stop_at_fault: bool,
    /// The first and the last turn that have a line in its trace, if it is traced.
    traced: Option<(u32, u32)>,
    /// The seed by which the hart of each turn is drawn, if there is one.
    seed: Option<u32>,
}

/// Makes the turns of a run, as `run` does, one by one. If there is a seed, the hart of each turn is drawn by it. If the run is asked to stop at a fault, it ends after the step
/// that shows the first one. Writes a line to `trace` for each step whose turn is traced; turns are counted from 0. Counts
/// how often each word of RAM ran, if `counts` has numbers. Returns how the run ended.
///
/// `LinkFault` if a write fails, which is possible only if there was something to write, to the one writer or the
/// other. The guest is then what the first events of the run left, up to some event.
fn run_watched<M: Memory, W: Write, T: Write>(
    guest: &mut Debugged<M>,
    asked: Asked,
    input: &[u8],
    counts: &mut Counts,
    writer: &mut W,
    trace: &mut T,
) -> Result<Ended, LinkFault>
    requires { AreRuns counts.old [] }
    ensures counted { IfOk result (λ end. AreRuns counts.new
        (run_with asked.seed asked.stop_at_fault asked.traced asked.steps input.now guest.old.guest).steps) }
    ensures count { length counts.new ≡ length counts.old }
    ensures run { IfOk result (λ end. HasRun
        (run_with asked.seed asked.stop_at_fault asked.traced asked.steps input.now guest.old.guest) end guest.old guest.new
        (W.contents writer.old) (W.contents writer.new) (T.contents trace.old) (T.contents trace.new)) }
    ensures broken { OnErr result (BreaksOff
        (run_with asked.seed asked.stop_at_fault asked.traced asked.steps input.now guest.old.guest)
        (run_by asked.seed (turns_of asked.seed asked.stop_at_fault asked.steps input.now guest.old.guest) 0 input.now guest.old.guest).events
        guest.old guest.new) }
{
    let mut next = 0;
    let mut turn = 0;
    let mut end = None;
    let mut buffer = OutputBuffer::new();
    let mut traps = LatestTraps::new();
    while turn < asked.steps && end.is_none() {
        let hart = hart_of(asked.seed, turn, guest.harts());
        next = feed(guest, input, next);
        let pc = guest.pc(hart);
        let stepped = take_step(guest, turn, hart, asked.traced, trace)?;
        let reply = reply_of(pc, stepped);
        counts.note(pc, &reply);
        let shown = traps.note(guest, hart, pc, &reply);
        turn += 1;
        end = end_of(&reply, shown, asked.stop_at_fault);
        drain_between(guest, turn, end, &mut buffer, writer)?;
    }
    drain(guest, &mut buffer, true, writer)?;
    Ok(end.unwrap_or(Ended::StepsSpent))
}

/// Makes the step of a turn, by this hart, and writes its line if the turn is traced. Returns none if the hart stopped
/// at a breakpoint instead. `LinkFault` if that write fails.
fn take_step<M: Memory, T: Write>(
    guest: &mut Debugged<M>,
    turn: u32,
    hart: u32,
    traced: Option<(u32, u32)>,
    trace: &mut T,
) -> Result<Option<Stepped>, LinkFault>
    requires { hart < length guest.old.guest.board.harts }
    ensures step { IsAfter (Step hart ∷ []) guest.old guest.new }
    ensures harts { length guest.new.guest.board.harts ≡ length guest.old.guest.board.harts }
    ensures reply { IfOk result (λ stepped. step_reply (pc_of hart guest.old.guest) stepped
        ≡ (answered (Step hart) guest.old.guest).reply) }
    ensures line { OnOk result (Appends (T.contents trace.old) (T.contents trace.new)
        (concat (lines_from traced turn (taken_by hart guest.old.guest ∷ [])))) }
    ensures err { OnErr result (is_traced traced turn ≡ true) }
{
    if !is_traced(traced, turn) {
        return Ok(step(guest, hart));
    }
    let pc = guest.pc(hart);
    let before = look(guest, hart);
    let stepped = step(guest, hart);
    write_step(guest, turn, hart, &before, &reply_of(pc, stepped), trace)?;
    Ok(stepped)
}

/// Makes a step of a hart. Returns none if the hart stopped at a breakpoint instead.
fn step<M: Memory>(guest: &mut Debugged<M>, hart: u32) -> Option<Stepped>
    requires { hart < length guest.old.guest.board.harts }
    ensures step { IsAfter (Step hart ∷ []) guest.old guest.new }
    ensures guest { guest.new.guest ≡ (answered (Step hart) guest.old.guest).guest }
    ensures harts { length guest.new.guest.board.harts ≡ length guest.old.guest.board.harts }
    ensures reply { step_reply (pc_of hart guest.old.guest) result
        ≡ (answered (Step hart) guest.old.guest).reply }
{
    guest.step(hart)
}

/// The answer to a step of a hart with this `pc`.
pub(crate) fn reply_of(pc: u32, stepped: Option<Stepped>) -> BoardReply
    ensures { result ≡ step_reply pc stepped }
{
    match stepped {
        Some(stepped) => BoardReply::of_step(stepped),
        None => BoardReply::Break(pc),
    }
}

/// Whether the trace has a line for a turn.
fn is_traced(traced: Option<(u32, u32)>, turn: u32) -> bool
    ensures { result ≡ is_traced traced turn }
{
    match traced {
        Some((from, to)) => from <= turn && turn <= to,
        None => false,
    }
}

/// How a run ends with a step that has this answer and shows this fault, if it ends with it.
fn end_of(reply: &BoardReply, shown: Option<Fault>, stop_at_fault: bool) -> Option<Ended>
    ensures { result ≡ ends_turns reply.now shown stop_at_fault }
{
    match reply {
        BoardReply::Halted(status) => Some(Ended::HaltedWith(*status)),
        _ => match shown {
            Some(fault) if stop_at_fault => Some(Ended::Fault(fault)),
            _ => None,
        },
    }
}

/// Takes all that the guest sent after each 64 turns, unless the board is halted; after each 65,536 turns also writes
/// all that is held. `turn` is the number of turns that were made. `LinkFault` if a write fails.
fn drain_between<M: Memory, W: Write>(
    guest: &mut Debugged<M>,
    turn: u32,
    end: Option<Ended>,
    buffer: &mut OutputBuffer,
    writer: &mut W,
) -> Result<(), LinkFault>
    ensures written { OnOk result (GoesOut (after (between end turn guest.old.guest) guest.old.guest).bytes
        buffer.old buffer.new (W.contents writer.old) (W.contents writer.new)) }
    ensures guest { OnOk result (IsAfter (between end turn guest.old.guest) guest.old guest.new) }
    ensures err { OnErr result
        (0 < length (buffer.old ++ (after (between end turn guest.old.guest) guest.old.guest).bytes)) }
    ensures part { OnErr result (IsPartWay (between end turn guest.old.guest) guest.old guest.new) }
{
    if !drains_after(end, turn) {
        return Ok(());
    }
    drain(guest, buffer, turn % WRITE_EVERY == 0, writer)
}

/// Whether what the guest sent is taken after this many turns.
fn drains_after(end: Option<Ended>, turns: u32) -> bool
    ensures { result ≡ drains_after end turns }
{
    match end {
        Some(Ended::HaltedWith(_)) => false,
        _ => turns % DRAIN_EVERY == 0,
    }
}
