//! `rvmove run --input -` and `rvmove run --journal`: a live run, whose guest begins at a host of this process and stays there.

ghost use Rattle.std.specs.Prelude.{◌≡◌, ◌≢◌, true, IfErr, IfOk, Option, Some, is_some};
ghost use Rattle.std.specs.Result.{result_ok};
ghost use Rattle.rvm_host_command.specs.Hosted.{HasWorked, opening_of};
ghost use Rattle.rvm_host_command.specs.Live.{IsLiveEnd, IsLiveRun, IsLiveTo, live_status};
ghost use Rattle.rvm_station.specs.Logs.{IsEmpty};
ghost use Rattle.rvm_station.specs.declared.host_harts.HartsEnd.{HartsEnd};
ghost use Rattle.rvm_station.specs.declared.host_harts.HartsEnd.TheVariants.{ConsoleFault, Spent};

use crate::fault::HostFault;
use crate::hosting::{draw_numbers, harts_plan};
use crate::keeping::{begin_journal, image_of, tell_kept};
use rvm_arguments::{LiveArguments, StatusOf};
use rvm_board::Debugged;
use rvm_command::guest::read_guest;
use rvm_command::refused::{Refused, tell};
use rvm_command::run::Ended;
use rvm_command::run_command::tell_run_end;
use rvm_host::Host;
use rvm_journal::{Header, JournalWriter};
use rvm_mem::{MAX_PAGES, PagedMemory};
use rvm_refusal::{LinkFault, Refusal};
use rvm_station::{
    CellAccess, EventLog, HartsEnd, HostCell, InputQueue, Of, Opening, STREAM_VERSION, Station,
    harts_worker,
};
use std::alloc::Global;
use std::io;
use std::io::{Sink, Write};
use std::marker::Brand;
use std::random::RandomSource;
use std::rt::Files;
use std::sync::Wait;
use std::time::Clock;

/// The number of hosts of the world of a live run. Its guest begins at host 0; no other host does anything.
const HOSTS: u8 = 2;

/// Runs the guest of an image, or a saved guest, until it halts, or until `arguments.steps` turns were made, if there is
/// such a limit. The bytes of `input` go to the guest's console as they come, and what the guest sends goes to `output`. If
/// `arguments.journal` names a file, it gets what happens to the guest, as the journal of a host process that has host A of
/// two hosts.
///
/// Returns the status: what `arguments.status` asks for, or 1 if the run did not begin or the console cannot be written.
/// `errors` gets one line: how the run ended, or why it did not begin or broke off; and a line before it if the journal ended
/// early. The run does not begin if the guest cannot be loaded, no random number can be drawn, the file of the journal cannot
/// be written, or memory runs out. `LinkFault` if that line cannot be written.
#[tactic(auto, using(crate::proofs::Living::live_end))]
pub fn live_command<
    M: PagedMemory + Drop,
    O: Write,
    E: Write,
    R: Files + Wait + Clock + RandomSource,
>(
    rt: &R,
    alloc: Global,
    arguments: &LiveArguments,
    image: &[u8],
    input: &InputQueue,
    output: &mut O,
    errors: &mut E,
) -> Result<u8, LinkFault>
    ensures status { IfOk result (λ status. IsLiveTo arguments.now image.now status (O.contents output.old)
        (O.contents output.new)) }
    ensures output { (end : Option HartsEnd) × IsLiveEnd arguments.now image.now end (O.contents output.old)
        (O.contents output.new) }
{
    let asked = arguments.status;
    let ended = run_live::<M, O, E, R>(rt, alloc, arguments, image, input, output, errors);
    tell_live_end(ended, asked, errors)
}

/// Reports how a live run ended, or why it did not begin. Returns the status. `LinkFault` if the report cannot be written.
fn tell_live_end<E: Write>(
    ended: Result<HartsEnd, HostFault>,
    asked: StatusOf,
    errors: &mut E,
) -> Result<u8, LinkFault>
    ensures { IfOk result (λ status. status ≡ live_status asked (result_ok ended)) }
{
    match ended {
        Ok(end) => tell_end(end, asked, errors),
        Err(fault) => {
            tell_fault(fault, errors)?;
            Ok(1)
        }
    }
}

/// Reports the end of a live run, as `rvmove run` does, and returns the status. Nothing stops a live run; one that is
/// stopped is reported as one whose console cannot be written. `LinkFault` if the report cannot be written.
fn tell_end<E: Write>(end: HartsEnd, asked: StatusOf, errors: &mut E) -> Result<u8, LinkFault>
    ensures { IfOk result (λ status. status ≡ live_status asked (Some end)) }
{
    match end {
        HartsEnd::Halted(status) => tell_run_end(Ended::HaltedWith(status), asked, errors),
        HartsEnd::Spent => tell_run_end(Ended::StepsSpent, asked, errors),
        HartsEnd::Stopped | HartsEnd::ConsoleFault => {
            let status = tell(Refused::from(LinkFault), errors)?;
            Ok(status)
        }
    }
}

/// Reports why a live run did not begin; that the guest cannot be loaded, or that memory ran out, as `rvmove run` does.
/// `LinkFault` if the report cannot be written.
fn tell_fault<E: Write>(fault: HostFault, errors: &mut E) -> Result<(), LinkFault> {
    match fault {
        HostFault::Image(refused) => {
            let _status = tell(refused, errors)?;
        }
        HostFault::OutOfMemory => {
            let _status = tell(Refused::from(Refusal::OutOfMemory), errors)?;
        }
        fault => writeln!(errors, "{fault}")?,
    }
    Ok(())
}

/// Runs the guest until the end. Fails if the run does not begin: the guest cannot be loaded, no random number can be drawn,
/// the file of the journal cannot be written, or memory runs out.
#[tactic(auto, using(crate::proofs::Living::limit_of))]
fn run_live<M: PagedMemory + Drop, O: Write, E: Write, R: Files + Wait + Clock + RandomSource>(
    rt: &R,
    alloc: Global,
    arguments: &LiveArguments,
    image: &[u8],
    input: &InputQueue,
    output: &mut O,
    errors: &mut E,
) -> Result<HartsEnd, HostFault>
    ensures shown { IfOk result (λ end. IsLiveRun arguments.now image.now end (O.contents output.old)
        (O.contents output.new)) }
    ensures unbegun { IfErr result (λ fault. O.contents output.new ≡ O.contents output.old) }
{
    let Ok(numbers) = draw_numbers(rt, true) else {
        return Err(HostFault::NoRandom);
    };
    let guest = match read_guest::<M>(alloc, &arguments.guest, image) {
        Ok(guest) => guest,
        Err(refused) => return Err(HostFault::Image(refused)),
    };
    let header = Header {
        hosts: HOSTS,
        host: 0,
        process: numbers.process,
        world: numbers.world,
        guest: Some(image_of(arguments.guest.raw, image, &guest)),
    };
    match begin_journal(rt, alloc, arguments.journal, &header) {
        Ok(log) => {
            let most = arguments.steps.map(u64::from);
            let live = Live { input, most };
            run_guest::<M, Option<JournalWriter<R::File>>, O, E, R>(
                rt, alloc, guest, log, &live, output, errors,
            )
        }
        Err(fault) => {
            drop(guest);
            Err(fault)
        }
    }
}

/// How a guest is run live.
#[derive(Drop)]
struct Live<'a> {
    /// The bytes that go to its console.
    input: &'a InputQueue,
    /// The most turns that are made, if there is a limit.
    most: Option<u64>,
}

/// Puts the guest at host 0 of two, and runs it there until the end. The events that happen at the host go to `log`. Fails,
/// before anything is written to `output`, if memory runs out.
fn run_guest<M: PagedMemory + Drop, J: EventLog + Drop, O: Write, E: Write, R: Wait + Clock>(
    rt: &R,
    alloc: Global,
    guest: Debugged<M>,
    log: J,
    live: &Live<'_>,
    output: &mut O,
    errors: &mut E,
) -> Result<HartsEnd, HostFault>
    requires { IsEmpty (J.kept log) }
    ensures shown { IfOk result (λ end. end ≢ ConsoleFault
        → HasWorked (opening_of (Some guest) 0 2) end (O.contents output.old) (O.contents output.new)) }
    ensures limited { IfOk result (λ end. end ≡ Spent → is_some live.now.most ≡ true) }
    ensures unbegun { IfErr result (λ fault. O.contents output.new ≡ O.contents output.old) }
{
    let Ok(host) = Host::with_version(Some(guest), 0, HOSTS, MAX_PAGES as u16, STREAM_VERSION)
    else {
        return Err(HostFault::OutOfMemory);
    };
    run_at::<Brand, M, J, O, E, R>(rt, alloc, host, log, live, output, errors)
}

/// Puts the host under a lock, as the workers of a host find it, and makes the turns of its guest until the end. Fails, before
/// anything is written to `output`, if memory runs out.
fn run_at<
    L: Opening,
    M: PagedMemory + Drop,
    J: EventLog + Drop,
    O: Write,
    E: Write,
    R: Wait + Clock,
>(
    rt: &R,
    alloc: Global,
    host: Host<M>,
    log: J,
    live: &Live<'_>,
    output: &mut O,
    errors: &mut E,
) -> Result<HartsEnd, HostFault>
    requires host { host ≡ L.opening }
    requires log { IsEmpty (J.kept log) }
    ensures shown { IfOk result (λ end. end ≢ ConsoleFault
        → HasWorked L.opening end (O.contents output.old) (O.contents output.new)) }
    ensures limited { IfOk result (λ end. end ≡ Spent → is_some live.now.most ≡ true) }
    ensures unbegun { IfErr result (λ fault. O.contents output.new ≡ O.contents output.old) }
{
    let station = match Station::<Of<L>, Sink>::new(alloc, 0, HOSTS) {
        Ok(station) => station,
        Err(error) => {
            drop(host);
            return Err(HostFault::from(error));
        }
    };
    let cell = HostCell::<L, M, J>::new(host, log);
    Ok(make_turns(rt, &cell, &station, live, output, errors))
}

/// Makes the turns of the guest in this thread, until the end, and ends the log. Reports to `errors`, if it is so, that not all
/// events were kept.
fn make_turns<
    L: Opening,
    M: PagedMemory + Drop,
    J: EventLog + Drop,
    O: Write,
    E: Write,
    R: Wait + Clock,
>(
    rt: &R,
    cell: &HostCell<L, M, J>,
    station: &Station<Of<L>, Sink>,
    live: &Live<'_>,
    output: &mut O,
    errors: &mut E,
) -> HartsEnd
    ensures shown { result ≢ ConsoleFault
        → HasWorked L.opening result (O.contents output.old) (O.contents output.new) }
    ensures limited { result ≡ Spent → is_some live.now.most ≡ true }
{
    let plan = harts_plan(None, true, live.most);
    let mut access = CellAccess::new(rt, station.alloc, cell);
    let mut halts = io::sink();
    let end = harts_worker(
        rt,
        station,
        &mut access,
        &plan,
        live.input,
        output,
        &mut halts,
    );
    tell_kept(cell.finish(rt), errors);
    end
}
