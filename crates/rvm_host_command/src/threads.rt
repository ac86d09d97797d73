//! The threads of a host process.

ghost use Rattle.std.specs.Prelude.{◌≡◌, IfErr, IfOk};
ghost use Rattle.std.specs.Thread.{IsSend, IsSync};

use crate::accepter::accepter;
use crate::control::control_worker;
use crate::hosting::HostPlan;
use crate::peer::peer_worker;
use crate::process::Process;
use crate::ticker::ticker;
use rvm_mem::PagedMemory;
use rvm_station::{CellAccess, EventLog, HostCell, Hosting, Of, Opening, Task};
use std::net::Net;
use std::random::RandomSource;
use std::sync::Wait;
use std::thread;
use std::thread::Threads;
use std::time::Clock;

/// The number of operators that are answered at once.
const CONTROLS: u32 = 4;

/// Starts the threads of a host process, and does a task in this one. When the task is done, tells all others to end,
/// and waits for them. If a thread cannot be started, does not do the task, and hands it back.
pub(crate) fn work_beside<
    L: Opening + Send + Sync,
    M: PagedMemory + Drop + Send,
    J: EventLog + Drop + Send,
    R: Net + Threads + Wait + Clock + RandomSource + Sync,
    T: Task + Drop,
>(
    rt: &R,
    cell: &HostCell<L, M, J>,
    process: &Process<Of<L>, R::Stream>,
    plan: &HostPlan<'_, R::Listener>,
    task: T,
) -> Result<T::Output, T>
where
    R::Stream: Send,
    R::Listener: Send + Sync,
    requires { T.can_run task }
    ensures done { IfOk result (T.gives task) }
    ensures undone { IfErr result (λ t. t ≡ task) }
{
    let hosts = plan.hosts;
    let operators = plan.operators;
    let peers = plan.peers;
    thread::scope(
        thread::scope_env(),
        rt,
        move |scope| -> Result<T::Output, T>
            requires { (IsSync R.row × IsSend M.row × IsSend J.row × IsSend R.Stream.row × IsSync R.Listener.row) × T.can_run task }
            ensures { IfOk result (T.gives task) × IfErr result (λ t. t ≡ task) }
        {
            let mut begun = scope.spawn(move || accepter(rt, process, hosts)).is_ok();
            begun = begun && scope.spawn(move || ticker(rt, process)).is_ok();
            for other in 0..process.hosts {
                let Some(address) = peers.address(usize::from(other)) else {
                    break;
                };
                if other != process.station.id {
                    begun = begun
                        && scope
                            .spawn(move || {
                                let mut access = CellAccess::new(rt, process.station.alloc, cell);
                                peer_worker(rt, process, &mut access, other, address);
                            })
                            .is_ok();
                }
            }
            for _operator in 0..CONTROLS {
                begun = begun
                    && scope
                        .spawn(move || {
                            let mut access = CellAccess::new(rt, process.station.alloc, cell);
                            control_worker(rt, process, &mut access, operators);
                        })
                        .is_ok();
            }
            let done = if begun { Ok(task.run()) } else { Err(task) };
            end_all(rt, process);
            done
        },
    )
}

/// Tells all threads to end, and ends what they hear.
fn end_all<L: Hosting, R: Net + Wait>(rt: &R, process: &Process<L, R::Stream>) {
    process.stop();
    for host in 0..process.hosts {
        if let Some(door) = process.door(host) {
            door.end(rt);
        }
    }
}
