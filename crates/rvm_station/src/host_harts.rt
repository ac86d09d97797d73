//! The worker that makes the turns of the guest's harts.

ghost use Rattle.std.specs.Prelude.{◌≡◌, ◌≢◌, ◌+◌, true, IfSome, None, OnOk, is_some};
ghost use Rattle.rvm_station.specs.Asked.{AreAllOf};
ghost use Rattle.rvm_station.specs.Console.{IsInput, IsShown};
ghost use Rattle.rvm_station.specs.Halts.{EndsSo};
ghost use Rattle.rvm_station.specs.Limits.{AreSpent, MayBeMade};

use crate::access::Access;
use crate::console::show;
use crate::input::InputQueue;
use crate::origin::Hosting;
use crate::pace::Pace;
use crate::station::Station;
use crate::turn::Then;
use rvm_board::{BoardEvent, BoardReply};
use rvm_message::{Command, HostReply};
use rvm_refusal::LinkFault;
use std::io::Write;
use std::sync::Wait;
use std::sync::atomic::{AtomicBool, AtomicU64, Ordering};
use std::time::{Clock, Duration};

/// The longest time between two looks for the guest while it is not here, in milliseconds.
const LOOK: u64 = 50;

/// How the worker of the harts runs, and what it reports.
#[derive(Drop)]
pub struct HartsPlan {
    /// The most turns under one hold of the lock while no move is going on; `slice_in_move` while one is.
    pub slice: u32,
    pub slice_in_move: u32,
    /// The most turns in a second, if there is a limit.
    pub rate: Option<u32>,
    /// Whether the worker ends once the guest is halted here.
    pub until_halt: bool,
    /// The most turns that are made, if there is a limit.
    pub most: Option<u64>,
    /// Whether the worker is to end.
    pub stop: AtomicBool,
    /// Whether a move is going on.
    pub moves: AtomicBool,
    /// How many turns were made.
    pub turns: AtomicU64,
    /// Whether it was reported that the guest is halted.
    pub halted: AtomicBool,
}

/// Why the worker of the harts ended.
#[derive(Clone, Copy, Debug, PartialEq, Eq)]
pub enum HartsEnd {
    /// The worker was told to end.
    Stopped,
    /// The guest is halted here, with this status.
    Halted(u8),
    /// All turns were made that may be made.
    Spent,
    /// What the guest sent could not be written. What it sends from now on stays in its console.
    ConsoleFault,
}

impl HartsPlan {
    /// The most turns of the next slice if there is no limit of turns; if there is a rate, no more than take a hundredth of
    /// a second, but at least one.
    fn unlimited_slice(&self) -> u32 {
        let slice = if self.moves.load(Ordering::SeqCst) {
            self.slice_in_move
        } else {
            self.slice
        };
        match self.rate {
            Some(rate) => slice.min((rate / 100).max(1)),
            None => slice,
        }
    }

    /// The most turns of the next slice, after `made` turns. None if no more turns may be made.
    fn next_slice(&self, made: u64) -> Option<u32>
        ensures spent { result ≡ None → AreSpent self.now.most made }
        ensures within { IfSome result (λ n. MayBeMade self.now.most (made + n)) }
    {
        within_limit(self.most, made, self.unlimited_slice())
    }
}

/// At most `slice` turns, which may be made after `made` others, if no more than `most` may be made in all and there is such
/// a limit. None if all these were made.
fn within_limit(most: Option<u64>, made: u64, slice: u32) -> Option<u32>
    ensures spent { result ≡ None → AreSpent most made }
    ensures within { IfSome result (λ n. MayBeMade most (made + n)) }
{
    let Some(most) = most else {
        return Some(slice);
    };
    if most <= made {
        return None;
    }
    Some(u64::from(slice).min(most - made) as u32)
}

/// Makes turns of the guest's harts while the guest is here, writes what it sends to `output`, and hands it what is
/// typed. The worker ends when it is told to, when the console cannot be written, when `plan.most` turns were made, if
/// there is such a limit, or, if `until_halt` is set, when the guest is halted. It reports once, to `errors`, that the guest
/// is halted.
#[tactic(auto, using(crate::proofs::Shown::none_shown))]
pub fn harts_worker<L: Hosting, A: Access<L>, W: Write + Drop, O: Write, E: Write, R: Wait + Clock>(
    rt: &R,
    station: &Station<L, W>,
    access: &mut A,
    plan: &HartsPlan,
    input: &InputQueue,
    output: &mut O,
    errors: &mut E,
) -> HartsEnd
    ensures shown { result ≢ HartsEnd.ConsoleFault → IsShown L.gave (A.asked access.old) (A.asked access.new)
        (O.contents output.old) (O.contents output.new) }
    ensures halted { EndsSo L.gave result }
    ensures spent { result ≡ HartsEnd.Spent → is_some plan.now.most ≡ true }
{
    let mut turn = 0u64;
    let mut pace = Pace::new(rt);
    for _slice in rt.forever() {
        if plan.stop.load(Ordering::SeqCst) {
            return HartsEnd::Stopped;
        }
        let Some(count) = plan.next_slice(turn) else {
            return HartsEnd::Spent;
        };
        let seen = station.news.count(rt);
        let slice = access.slice(turn, count);
        turn = turn.wrapping_add(u64::from(slice.made));
        plan.turns
            .fetch_add(u64::from(slice.made), Ordering::SeqCst);
        let Ok(()) = show_sent(rt, station, access, slice.has_output, output) else {
            return HartsEnd::ConsoleFault;
        };
        match slice.then {
            Then::GoOn => {
                type_in(rt, station, access, input);
                if let Some(rate) = plan.rate {
                    pace.keep(rt, rate, slice.made);
                }
                continue;
            }
            Then::Elsewhere => {}
            Then::Halted(status) => {
                tell_halted(plan, status, errors);
                if plan.until_halt {
                    return HartsEnd::Halted(status);
                }
            }
        }
        await_guest(rt, station, seen);
        pace = Pace::new(rt);
    }
    unreachable!()
}

/// Writes what the guest sent, if a drain may find bytes.
#[tactic(auto, using(crate::proofs::Shown::none_shown))]
fn show_sent<L: Hosting, A: Access<L>, W: Write + Drop, O: Write, R: Wait>(
    rt: &R,
    station: &Station<L, W>,
    access: &mut A,
    has_output: bool,
    output: &mut O,
) -> Result<(), LinkFault>
    ensures { OnOk result (IsShown L.gave (A.asked access.old) (A.asked access.new)
        (O.contents output.old) (O.contents output.new)) }
{
    if has_output {
        show(rt, station, access, output)
    } else {
        Ok(())
    }
}

/// Reports that the guest is halted here with this status, unless that was reported before. A report that cannot be
/// written is lost.
fn tell_halted<E: Write>(plan: &HartsPlan, status: u8, errors: &mut E) {
    if !plan.halted.swap(true, Ordering::SeqCst) {
        let _untold = writeln!(errors, "halted {status}");
    }
}

/// Waits for news, which may be that the guest has come, for at most `LOOK` milliseconds.
fn await_guest<L: Hosting, W: Write + Drop, R: Wait + Clock>(
    rt: &R,
    station: &Station<L, W>,
    seen: u64,
) {
    let _came = station.news.wait(rt, seen, Duration::from_millis(LOOK));
}

/// Hands the guest the bytes that were typed, up to the first that its console has no room for.
#[tactic(auto, using(crate::proofs::AllOf::kept_of, crate::proofs::AllOf::more_of, crate::proofs::AllOf::none_of))]
fn type_in<L: Hosting, A: Access<L>, W: Write + Drop, R: Wait>(
    rt: &R,
    station: &Station<L, W>,
    access: &mut A,
    input: &InputQueue,
)
    ensures { AreAllOf IsInput L.gave (A.asked access.old) (A.asked access.new) }
{
    for _byte in rt.forever() {
        let Some(byte) = input.first(rt) else {
            return;
        };
        let command = Command::Board(BoardEvent::Input(byte));
        let Ok(reply) = station.obey(rt, access, &command) else {
            return;
        };
        if reply != HostReply::Board(BoardReply::Done) {
            return;
        }
        input.take_first(rt);
    }
}
