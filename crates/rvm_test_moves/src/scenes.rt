//! What is tried, and what came of it.

use crate::breaker::Breaker;
use crate::farm::{Farm, Start, new_seat, work_both};
use crate::guest::{counting_image, numbers};
use crate::operator::{Answer, await_answer, await_status, tell};
use std::net::{Net, SocketAddr};
use std::random::RandomSource;
use std::sync::atomic::{AtomicBool, AtomicU32, Ordering};
use std::sync::{Mutex, Wait};
use std::thread;
use std::thread::Threads;
use std::time::{Clock, Duration};

/// The number of moves of the guest.
const MOVES: u32 = 8;

/// The fewest connections that break: the moves need more bytes than these can carry.
const BREAKS: u32 = 4;

/// The most looks at the screen, 10 milliseconds apart.
const LOOKS: u32 = 6000;

/// What is tried.
#[derive(Clone, Copy)]
pub enum Scene {
    /// The guest moves to and fro over connections that break, while it counts.
    BrokenConnections,
    /// The other host has another secret: it is not met, and commands to move the guest are answered as they must be.
    AnotherSecret,
    /// Nothing can be written to the console of the first host: the guest makes no turns there, and can be moved away.
    NoConsole,
}

impl Scene {
    /// What the two hosts begin with.
    fn starts(self) -> (Start<'static>, Start<'static>) {
        let first = Start {
            secret: b"a secret".as_slice(),
            has_console: !matches!(self, Scene::NoConsole),
        };
        let second = Start {
            secret: match self {
                Scene::AnotherSecret => b"another".as_slice(),
                Scene::BrokenConnections | Scene::NoConsole => b"a secret".as_slice(),
            },
            has_console: true,
        };
        (first, second)
    }

    /// For how many milliseconds nothing may be heard in a move before it is given up.
    fn patience(self) -> u64 {
        match self {
            Scene::AnotherSecret => 300,
            Scene::BrokenConnections | Scene::NoConsole => 30_000,
        }
    }
}

/// Has two hosts work, plays a scene with them, and prints what came of it.
pub fn play<R: AllocGlobal + Print + Net + Threads + Wait + Clock + RandomSource + Sync>(
    rt: &R,
    scene: Scene,
) -> anyhow::Result<()>
where
    R::Stream: Send,
    R::Listener: Send + Sync,
{
    let image = counting_image(rt.alloc())?;
    let farm = new_farm(rt, &image, scene.patience())?;
    work_both(rt, &farm, scene.starts(), || -> anyhow::Result<()> {
        match scene {
            Scene::BrokenConnections => move_about(rt, &farm),
            Scene::AnotherSecret => ask_in_vain(rt, &farm),
            Scene::NoConsole => move_away(rt, &farm),
        }
    })
}

/// A farm whose hosts have not begun.
fn new_farm<'a, R: AllocGlobal + Net>(
    rt: &R,
    image: &'a [u8],
    patience: u64,
) -> anyhow::Result<Farm<'a, R::Listener>> {
    Ok(Farm {
        a: new_seat(rt)?,
        b: new_seat(rt)?,
        between: new_seat(rt)?,
        image,
        screen: Mutex::new(Vec::new(rt.alloc())),
        patience,
        breaker: Breaker {
            stop: AtomicBool::new(false),
            broken: AtomicU32::new(0),
        },
    })
}

/// Moves the guest to and fro, waits until it has sent all, and prints what was seen.
fn move_about<R: AllocGlobal + Print + Net + Wait + Clock>(
    rt: &R,
    farm: &Farm<'_, R::Listener>,
) -> anyhow::Result<()> {
    let met = await_status(rt, farm.a.control, "peers B")?;
    let mut moved = 0u32;
    for number in 0..MOVES {
        let answer = if number % 2 == 0 {
            tell(rt, farm.a.control, "move B")?
        } else {
            tell(rt, farm.b.control, "move A")?
        };
        if answer.status == 0 && answer.begins("moved ") {
            moved = moved.saturating_add(1);
        }
    }
    let is_as_one_board = await_numbers(rt, &farm.screen)?;
    end_both(rt, farm)?;
    let are_broken = farm.breaker.broken.load(Ordering::SeqCst) >= BREAKS;
    println!(rt; "{BREAKS} connections broken {are_broken}: met {met}, moved {moved} times")?;
    println!(rt; "the consoles together as one board's {is_as_one_board}")?;
    Ok(())
}

/// Waits until all that the guest sends is on the screen. Returns whether that is so, and nothing else is there.
fn await_numbers<R: AllocGlobal + Wait + Clock>(
    rt: &R,
    screen: &Mutex<Vec<u8>>,
) -> anyhow::Result<bool> {
    let wanted = numbers(rt.alloc())?;
    for _look in 0..LOOKS {
        if screen.lock(rt).len() >= wanted.len() {
            break;
        }
        thread::sleep(rt, Duration::from_millis(10));
    }
    let screen = screen.lock(rt);
    Ok(screen.as_slice() == wanted.as_slice())
}

/// Ends both hosts.
fn end_both<R: AllocGlobal + Net>(rt: &R, farm: &Farm<'_, R::Listener>) -> anyhow::Result<()> {
    tell(rt, farm.a.control, "stop now")?;
    tell(rt, farm.b.control, "stop now")?;
    Ok(())
}

/// Asks for what cannot be done, and prints the answers.
fn ask_in_vain<R: AllocGlobal + Print + Net + Wait + Clock>(
    rt: &R,
    farm: &Farm<'_, R::Listener>,
) -> anyhow::Result<()> {
    for line in ["move B", "move A", "B move A", "abort", "moved", "stop"] {
        print_answer(rt, line, &tell(rt, farm.a.control, line)?)?;
    }
    for line in ["move A", "regs 0", "csrs 0", "devices", "turns 1"] {
        print_answer(rt, line, &tell(rt, farm.b.control, line)?)?;
    }
    tell_long_lines(rt, farm.a.control)?;
    let is_as_one_board = await_numbers(rt, &farm.screen)?;
    look_at_the_end(rt, farm.a.control)?;
    end_both(rt, farm)?;
    println!(rt; "the guest ran on {is_as_one_board}")?;
    Ok(())
}

/// Waits until the guest is halted at a host, and prints what looks at it show then.
fn look_at_the_end<R: AllocGlobal + Print + Net + Wait + Clock>(
    rt: &R,
    host: SocketAddr,
) -> anyhow::Result<()> {
    let is_halted = await_answer(rt, host, "devices", "halted 0")?;
    println!(rt; "the guest has halted {is_halted}")?;
    for line in [
        "csrs 0",
        "A csrs 0",
        "csrs 1",
        "devices",
        "B devices",
        "devices 0",
    ] {
        print_answer(rt, line, &tell(rt, host, line)?)?;
    }
    Ok(())
}

/// Tells a host a comment of as many bytes as a line may have, and one of a byte more, between a line that is answered and
/// one that is never sent. Prints the answers.
fn tell_long_lines<R: AllocGlobal + Print + Net>(rt: &R, host: SocketAddr) -> anyhow::Result<()> {
    let mut lines = String::new(rt.alloc());
    lines.push_str("moved\n#")?;
    for _byte in 1..4096 {
        lines.push_str(".")?;
    }
    print_answer(rt, "4096 bytes", &tell(rt, host, lines.as_str())?)?;
    lines.push_str(".\nstop now\n")?;
    print_answer(rt, "4097 bytes", &tell(rt, host, lines.as_str())?)?;
    Ok(())
}

/// Prints what was answered to a line.
fn print_answer<R: AllocGlobal + Print>(rt: &R, line: &str, answer: &Answer) -> anyhow::Result<()> {
    let text = String::from_utf8_lossy(rt.alloc(), &answer.text)?;
    println!(rt; "{line}: status {}, {}", answer.status, text.trim_end())?;
    Ok(())
}

/// Moves the guest away, and prints whether it runs at the other host.
fn move_away<R: AllocGlobal + Print + Net + Wait + Clock>(
    rt: &R,
    farm: &Farm<'_, R::Listener>,
) -> anyhow::Result<()> {
    let met = await_status(rt, farm.a.control, "peers B")?;
    let answer = tell(rt, farm.a.control, "move B")?;
    let moved = answer.status == 0 && answer.begins("moved 1 ");
    let halts = await_status(rt, farm.b.control, "running 1 ")?;
    end_both(rt, farm)?;
    println!(rt;
        "a console that cannot be written: met {met}, moved away {moved}, runs there {halts}"
    )?;
    Ok(())
}
