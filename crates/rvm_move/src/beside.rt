//! Two threads, one of which borrows what it changes.

use rvm_station::Task;
use std::thread;
use std::thread::Threads;

/// Calls `f` in a new thread, and does the task in this one. Returns what both give, once both have ended.
pub(crate) fn beside<R: Threads, A: Send, F: FnOnce() -> A + Send, T: Task + Drop>(
    rt: &R,
    f: F,
    task: T,
) -> (A, T::Output)
    requires { F.pre f × T.can_run task }
    ensures { F.post f result.0 × T.gives task result.1 }
{
    thread::join(
        rt,
        f,
        move || -> T::Output
            requires { T.can_run task }
            ensures { T.gives task result }
        { task.run() },
    )
}
