//! Two hosts in threads of this program.

ghost use Rattle.std.specs.Thread.{IsSend, IsSync};

use crate::breaker::{Breaker, carry_and_break};
use crate::screen::{ClosedConsole, Console};
use rvm_arguments::GuestArguments;
use rvm_board::Debugged;
use rvm_command::guest::load_guest;
use rvm_host_command::hosting::{HostPlan, HostStart, draw_numbers, work_at};
use rvm_host_command::operators::Operators;
use rvm_link::{Secret, read_peers};
use rvm_paged::PagedRam;
use rvm_station::{InputQueue, NoLog};
use std::alloc::Global;
use std::io::Write;
use std::net::{Ipv4Addr, Net, OpenListener, SocketAddr, TcpListener};
use std::random::RandomSource;
use std::sync::atomic::Ordering;
use std::sync::{Mutex, Wait};
use std::thread;
use std::thread::Threads;
use std::time::{Clock, Duration};

/// One of the two hosts, or what lies between them.
#[derive(Drop)]
pub struct Seat<N: Drop> {
    /// Where other hosts connect.
    hosts: N,
    operators: Operators<N>,
    pub address: SocketAddr,
    pub control: SocketAddr,
}

/// What one of the hosts begins with.
#[derive(Clone, Copy)]
pub struct Start<'a> {
    pub secret: &'a [u8],
    pub has_console: bool,
}

/// What the two hosts share.
#[derive(Drop)]
pub struct Farm<'a, N: Drop> {
    pub a: Seat<N>,
    pub b: Seat<N>,
    /// Where host A reaches host B: a breaker carries these connections on.
    pub between: Seat<N>,
    pub image: &'a [u8],
    pub screen: Mutex<Vec<u8>>,
    pub patience: u64,
    pub breaker: Breaker,
}

/// Listens at free ports of this machine, for other hosts and for operators.
pub fn new_seat<R: Net>(rt: &R) -> anyhow::Result<Seat<R::Listener>> {
    let hosts = TcpListener::bind(rt, (Ipv4Addr::LOCALHOST, 0))?;
    let operators = TcpListener::bind(rt, (Ipv4Addr::LOCALHOST, 0))?;
    hosts.set_nonblocking(true)?;
    operators.set_nonblocking(true)?;
    let address = hosts.local_addr()?;
    let control = operators.local_addr()?;
    Ok(Seat {
        hosts,
        operators: Operators::Tcp(operators),
        address,
        control,
    })
}

/// Has both hosts work, with a breaker of connections between them, while an operator does something. Returns when both
/// have ended.
pub fn work_both<
    R: AllocGlobal + Net + Threads + Wait + Clock + RandomSource + Sync,
    F: FnOnce() -> anyhow::Result<()>,
>(
    rt: &R,
    farm: &Farm<'_, R::Listener>,
    starts: (Start<'_>, Start<'_>),
    operate: F,
) -> anyhow::Result<()>
where
    R::Stream: Send,
    R::Listener: Send + Sync,
    requires { F.pre operate }
{
    let (first, second) = starts;
    thread::scope(
        thread::scope_env(),
        rt,
        move |scope| -> anyhow::Result<()>
            requires { IsSync R.row × IsSend R.Stream.row × IsSend R.Listener.row × IsSync R.Listener.row × F.pre operate }
        {
            let a = scope.spawn(move || work_in(rt, farm, 0, first)).is_ok();
            let b = scope.spawn(move || work_in(rt, farm, 1, second)).is_ok();
            let breaks = scope
                .spawn(move || {
                    carry_and_break(rt, &farm.between.hosts, farm.b.address, &farm.breaker)
                })
                .is_ok();
            let operated = if a && b && breaks { operate() } else { Ok(()) };
            farm.breaker.stop.store(true, Ordering::SeqCst);
            operated
        },
    )
}

/// Has the host with this number work to its end.
fn work_in<R: AllocGlobal + Net + Threads + Wait + Clock + RandomSource + Sync>(
    rt: &R,
    farm: &Farm<'_, R::Listener>,
    id: u8,
    start: Start<'_>,
)
where
    R::Stream: Send,
    R::Listener: Send + Sync,
{
    let mut console = Console {
        rt,
        screen: &farm.screen,
    };
    let _ended = if start.has_console {
        work_with(rt, farm, id, start.secret, &mut console)
    } else {
        work_with(rt, farm, id, start.secret, &mut ClosedConsole)
    };
}

/// Has the host with this number work to its end, with a console.
fn work_with<R: AllocGlobal + Net + Threads + Wait + Clock + RandomSource + Sync, O: Write>(
    rt: &R,
    farm: &Farm<'_, R::Listener>,
    id: u8,
    secret: &[u8],
    console: &mut O,
) -> anyhow::Result<()>
where
    R::Stream: Send,
    R::Listener: Send + Sync,
{
    let alloc = rt.alloc();
    let seat = if id == 0 { &farm.a } else { &farm.b };
    let mut text = Vec::new(alloc);
    writeln!(text, "A {}", farm.a.address)?;
    writeln!(text, "B {}", farm.between.address)?;
    let peers = read_peers(alloc, &text)?;
    let input = InputQueue::new(alloc);
    let plan = HostPlan {
        id,
        peers: &peers,
        hosts: &seat.hosts,
        operators: &seat.operators,
        input: &input,
        patience: Duration::from_millis(farm.patience),
        bandwidth: None,
        rate: None,
        until_halt: false,
    };
    let mut errors = Vec::new(alloc);
    let guest = guest_of(alloc, id, farm.image)?;
    let start = HostStart {
        numbers: draw_numbers(rt, guest.is_some())?,
        secret: Secret::new(secret),
        guest,
    };
    let _end = work_at::<PagedRam, NoLog, O, Vec<u8>, R>(
        rt,
        alloc,
        &plan,
        start,
        NoLog,
        console,
        &mut errors,
    );
    Ok(())
}

/// The guest of host A; host B has none.
fn guest_of(alloc: Global, id: u8, image: &[u8]) -> anyhow::Result<Option<Debugged<PagedRam>>> {
    if id != 0 {
        return Ok(None);
    }
    let arguments = GuestArguments {
        image: "",
        raw: false,
        harts: 1,
        pages: 64,
    };
    match load_guest(alloc, &arguments, image) {
        Ok(guest) => Ok(Some(guest)),
        Err(refused) => Err(anyhow::anyhow!("{refused}")),
    }
}
