//! The turns of the guest's harts, as the task of the main thread beside the others.

ghost use Rattle.std.specs.Prelude.{◌≡◌, ◌≢◌, ⊤};
ghost use Rattle.rvm_host_command.specs.Hosted.{HasWorked};
ghost use Rattle.rvm_station.specs.declared.host_harts.HartsEnd.TheVariants.{ConsoleFault};

use crate::process::Process;
use rvm_mem::PagedMemory;
use rvm_station::{
    CellAccess, EventLog, HartsEnd, HostCell, Hosting, InputQueue, Of, Opening, Task, harts_worker,
};
use std::io::{Read, Write};
use std::net::OpenStream;
use std::sync::Wait;
use std::thread;
use std::time::{Clock, Duration};

/// The milliseconds that a process stays after its guest is halted, so that the host from which the guest came hears
/// that it runs here.
const LINGER: u64 = 300;

/// The milliseconds between two looks whether the process is to end.
const LOOK: u64 = 10;

/// The task of making the turns of the guest's harts, until the process is to end.
#[derive(Drop)]
pub(crate) struct Turns<
    't,
    L: Opening,
    M: PagedMemory + Drop,
    J: EventLog + Drop,
    S: Read + Write + OpenStream + Drop,
    O: Write,
    E: Write,
    R: Wait + Clock,
> {
    pub(crate) rt: &'t R,
    pub(crate) cell: &'t HostCell<L, M, J>,
    pub(crate) process: &'t Process<Of<L>, S>,
    pub(crate) input: &'t InputQueue,
    pub(crate) output: &'t mut O,
    pub(crate) errors: &'t mut E,
}

impl<
    't,
    L: Opening,
    M: PagedMemory + Drop,
    J: EventLog + Drop,
    S: Read + Write + OpenStream + Drop,
    O: Write,
    E: Write,
    R: Wait + Clock,
> Task for Turns<'t, L, M, J, S, O, E, R> {
    type Output = (HartsEnd, &'t mut O);

    ghost can_run = { λ _. ⊤ };

    ghost gives = { λ t r. (r.1.ghost_name ≡ t.output.ghost_name)
        × (r.0 ≢ ConsoleFault → HasWorked L.opening r.0 (O.contents t.output.now) (O.contents r.1.now)) };

    fn run(self) -> (HartsEnd, &'t mut O) {
        let Turns {
            rt,
            cell,
            process,
            input,
            output,
            errors,
        } = self;
        let mut access = CellAccess::new(rt, process.station.alloc, cell);
        let end = harts_worker(
            rt,
            &process.station,
            &mut access,
            &process.harts,
            input,
            output,
            errors,
        );
        stay(rt, process, end, errors);
        (end, output)
    }
}

/// Keeps the process alive after its harts stopped. If the guest is halted, waits `LINGER` milliseconds. If the console
/// cannot be written, reports that, and waits until an operator ends the process; until then the guest can be moved
/// away.
fn stay<L: Hosting, S: Read + Write + OpenStream + Drop, E: Write, R: Wait + Clock>(
    rt: &R,
    process: &Process<L, S>,
    end: HartsEnd,
    errors: &mut E,
) {
    match end {
        HartsEnd::Stopped | HartsEnd::Spent => {}
        HartsEnd::Halted(_) => thread::sleep(rt, Duration::from_millis(LINGER)),
        HartsEnd::ConsoleFault => {
            let _untold = writeln!(
                errors,
                "the console cannot be written: the guest stands still, and can be moved away"
            );
            await_stop(rt, process);
        }
    }
}

/// Waits until the process is to end.
fn await_stop<L: Hosting, S: Read + Write + OpenStream + Drop, R: Wait + Clock>(
    rt: &R,
    process: &Process<L, S>,
) {
    for _look in rt.forever() {
        if process.is_stopping() {
            return;
        }
        thread::sleep(rt, Duration::from_millis(LOOK));
    }
    unreachable!()
}
