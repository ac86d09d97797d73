//! The work of a host in a process of its own.

ghost use Rattle.std.specs.Prelude.{◌≡◌, ◌≢◌, IfErr, IfOk, length};
ghost use Rattle.rvm_host_command.specs.Hosted.{HasWorked, opening_of};
ghost use Rattle.rvm_station.specs.Logs.{IsEmpty};
ghost use Rattle.rvm_station.specs.declared.host_harts.HartsEnd.TheVariants.{ConsoleFault};

use crate::door::Door;
use crate::fault::HostFault;
use crate::keeping::tell_kept;
use crate::operators::Operators;
use crate::process::Process;
use crate::threads::work_beside;
use crate::turns::Turns;
use rvm_board::Debugged;
use rvm_host::Host;
use rvm_link::{Peers, Registry, Secret};
use rvm_mem::{MAX_PAGES, PagedMemory};
use rvm_station::{
    EventLog, HartsEnd, HartsPlan, HostCell, Hosting, InputQueue, Of, Opening, STREAM_VERSION,
    Station, take_back,
};
use std::alloc::{AllocError, Global};
use std::io;
use std::io::Write;
use std::marker::Brand;
use std::net::{Net, OpenListener};
use std::random::RandomSource;
use std::sync::atomic::{AtomicBool, AtomicU64};
use std::sync::{Mutex, Wait};
use std::thread::Threads;
use std::time::{Clock, Duration};

/// The most turns under one hold of the lock while no move is going on.
const SLICE: u32 = 1 << 14;

/// The most turns under one hold of the lock while a move is going on.
const SLICE_IN_MOVE: u32 = 512;

/// What a host process works with, and how. At neither listener does accepting a connection wait.
#[derive(Drop)]
pub struct HostPlan<'a, N: Drop> {
    /// The number of this host.
    pub id: u8,
    /// The hosts of the world.
    pub peers: &'a Peers,
    /// Where other hosts connect to this one.
    pub hosts: &'a N,
    /// Where operators connect to this host.
    pub operators: &'a Operators<N>,
    /// The bytes that go to the guest's console while it is here.
    pub input: &'a InputQueue,
    /// For how long nothing may be heard or done in a move before it is given up, while that may be.
    pub patience: Duration,
    /// The most turns in a second, if there is a limit.
    pub rate: Option<u32>,
    /// The most megabytes that a move sends in a second while the guest runs, if there is a limit.
    pub bandwidth: Option<u32>,
    /// Whether the process ends once its guest is halted here.
    pub until_halt: bool,
}

/// What a host process is given at its start, to keep.
#[derive(Drop)]
pub struct HostStart<M: PagedMemory + Drop> {
    /// The guest that begins here, if one does.
    pub guest: Option<Debugged<M>>,
    /// The secret of the hosts of the world.
    pub secret: Secret,
    /// What the process drew at its start.
    pub numbers: Numbers,
}

/// What the process of a host draws at random at its start, from 1 on.
#[derive(Clone, Copy, Debug, PartialEq, Eq)]
pub struct Numbers {
    /// The number of the process.
    pub process: u64,
    /// The number of the world, if the guest begins here; else 0.
    pub world: u64,
}

/// Works at a host until it is told to stop, or, if `plan.until_halt` is set, until its guest is halted here. What the
/// guest sends while it is here goes to `output`, and the events that happen at the host to `log`. Reports once,
/// to `errors`, that the guest is halted, and at the end, if it is so, that not all events were kept. Fails, before anything
/// is written to `output`, if memory runs out, or the system starts no thread.
pub fn work_at<
    M: PagedMemory + Drop + Send,
    J: EventLog + Drop + Send,
    O: Write,
    E: Write,
    R: Net + Threads + Wait + Clock + RandomSource + Sync,
>(
    rt: &R,
    alloc: Global,
    plan: &HostPlan<'_, R::Listener>,
    start: HostStart<M>,
    log: J,
    output: &mut O,
    errors: &mut E,
) -> Result<HartsEnd, HostFault>
where
    R::Stream: Send,
    R::Listener: Send + Sync,
    requires { IsEmpty (J.kept log) }
    ensures shown { IfOk result (λ end. end ≢ ConsoleFault
        → HasWorked (opening_of start.guest plan.now.id (length plan.now.peers.now)) end (O.contents output.old)
        (O.contents output.new)) }
    ensures unbegun { IfErr result (λ fault. O.contents output.new ≡ O.contents output.old) }
{
    let HostStart {
        guest,
        secret,
        numbers,
    } = start;
    let hosts = plan.peers.count() as u8;
    let Ok(host) = Host::with_version(guest, plan.id, hosts, MAX_PAGES as u16, STREAM_VERSION)
    else {
        return Err(HostFault::NoSuchHost);
    };
    let beside = Beside {
        registry: Registry::new(plan.id, hosts, numbers.process, numbers.world),
        secret,
        log,
    };
    host_over::<Brand, M, J, O, E, R>(rt, alloc, host, plan, beside, output, errors)
}

/// Draws a number at random, from 1 on.
fn draw_number<R: RandomSource>(rt: &R) -> io::Result<u64> {
    let mut bytes = [0u8; 8];
    rt.fill_bytes(&mut bytes)?;
    Ok(u64::from_le_bytes(bytes).max(1))
}

/// What the process of a host draws at its start: a number for itself, and, if the guest begins here, one for the world.
pub fn draw_numbers<R: RandomSource>(rt: &R, has_guest: bool) -> io::Result<Numbers> {
    let process = draw_number(rt)?;
    let world = if has_guest { draw_number(rt)? } else { 0 };
    Ok(Numbers { process, world })
}

/// What a process has at its start beside its host.
#[derive(Drop)]
struct Beside<J: EventLog + Drop> {
    /// What the host knows of its world.
    registry: Registry,
    secret: Secret,
    log: J,
}

/// Makes what the threads of the process share, puts the host under a lock, and works at it.
fn host_over<
    L: Opening + Send + Sync,
    M: PagedMemory + Drop + Send,
    J: EventLog + Drop + Send,
    O: Write,
    E: Write,
    R: Net + Threads + Wait + Clock + RandomSource + Sync,
>(
    rt: &R,
    alloc: Global,
    host: Host<M>,
    plan: &HostPlan<'_, R::Listener>,
    beside: Beside<J>,
    output: &mut O,
    errors: &mut E,
) -> Result<HartsEnd, HostFault>
where
    R::Stream: Send,
    R::Listener: Send + Sync,
    requires host { host ≡ L.opening }
    requires log { IsEmpty (J.kept beside.log) }
    ensures shown { IfOk result (λ end. end ≢ ConsoleFault
        → HasWorked L.opening end (O.contents output.old) (O.contents output.new)) }
    ensures unbegun { IfErr result (λ fault. O.contents output.new ≡ O.contents output.old) }
{
    let Beside {
        registry,
        secret,
        log,
    } = beside;
    let process = match new_process::<Of<L>, R>(alloc, plan, registry, secret) {
        Ok(process) => process,
        Err(error) => {
            drop(host);
            return Err(HostFault::from(error));
        }
    };
    let cell = HostCell::<L, M, J>::new(host, log);
    work_in(rt, &cell, &process, plan, output, errors)
}

/// Works at the host in `cell` by the threads of this process.
fn work_in<
    L: Opening + Send + Sync,
    M: PagedMemory + Drop + Send,
    J: EventLog + Drop + Send,
    O: Write,
    E: Write,
    R: Net + Threads + Wait + Clock + RandomSource + Sync,
>(
    rt: &R,
    cell: &HostCell<L, M, J>,
    process: &Process<Of<L>, R::Stream>,
    plan: &HostPlan<'_, R::Listener>,
    output: &mut O,
    errors: &mut E,
) -> Result<HartsEnd, HostFault>
where
    R::Stream: Send,
    R::Listener: Send + Sync,
    ensures shown { IfOk result (λ end. end ≢ ConsoleFault
        → HasWorked L.opening end (O.contents output.old) (O.contents output.new)) }
    ensures unbegun { IfErr result (λ fault. O.contents output.new ≡ O.contents output.old) }
{
    let turns = Turns {
        rt,
        cell,
        process,
        input: plan.input,
        output,
        errors,
    };
    match work_beside(rt, cell, process, plan, turns) {
        Ok((end, output)) => {
            take_back(output);
            tell_kept(cell.finish(rt), errors);
            Ok(end)
        }
        Err(turns) => {
            let Turns {
                rt: _,
                cell: _,
                process: _,
                input: _,
                output,
                errors: _,
            } = turns;
            take_back(output);
            Err(HostFault::OutOfMemory)
        }
    }
}

/// How the worker of the harts runs in a process of its own. Not more than `most` turns are made, if there is such a limit.
pub(crate) fn harts_plan(rate: Option<u32>, until_halt: bool, most: Option<u64>) -> HartsPlan
    ensures { result.most ≡ most }
{
    HartsPlan {
        slice: SLICE,
        slice_in_move: SLICE_IN_MOVE,
        rate,
        until_halt,
        most,
        stop: AtomicBool::new(false),
        moves: AtomicBool::new(false),
        turns: AtomicU64::new(0),
        halted: AtomicBool::new(false),
    }
}

/// What the threads of the process share beside the host.
fn new_process<L: Hosting, R: Net>(
    alloc: Global,
    plan: &HostPlan<'_, R::Listener>,
    registry: Registry,
    secret: Secret,
) -> Result<Process<L, R::Stream>, AllocError> {
    let hosts = plan.peers.count() as u8;
    let mut doors = Vec::new(alloc);
    for _host in 0..hosts {
        doors.push(Door::new())?;
    }
    Ok(Process {
        station: Station::new(alloc, plan.id, hosts)?,
        harts: harts_plan(plan.rate, plan.until_halt, None),
        registry: Mutex::new(registry),
        secret,
        doors,
        hosts,
        patience: plan.patience,
        bandwidth: plan.bandwidth,
    })
}
