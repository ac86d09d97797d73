//! The guest's host, of two.

ghost use Rattle.std.specs.Prelude.{◌≡◌, ◌≢◌, ◌≤◌, true, false, not, [], ◌∷◌, IfErr, IfOk, OnErr};
ghost use Rattle.rvm_cell.specs.Calls.{Made};
ghost use Rattle.rvm_station.specs.declared.turn.Then.TheVariants.{Elsewhere};
ghost use Rattle.rvm_cell.specs.Drains.{bytes_of, bytes_told, if_sent, is_nothing, told_by};
ghost use Rattle.rvm_cell.specs.Turns.{Dry, after_turns, fails_calling, if_dry, turns};

use crate::caller::Caller;
use crate::end::WorkEnd;
use crate::gate::{Gate, Watch};
use crate::slices::{MadeTurns, made_by};
use rvm_board::{BoardEvent, BoardReply, DRAIN_SIZE, View};
use rvm_mem::PagedMemory;
use rvm_message::{Command, HostEvent, HostReply};
use rvm_recorder::{Seating, SharedHost};
use rvm_station::Then;
use std::alloc::Global;
use std::sync::Wait;
use std::thread;
use std::time::{Clock, Duration};

/// How often a turn or a drain is tried that both hosts refuse.
const TRIES: u32 = 30000;

/// The longest time between two tries, in milliseconds.
const PAUSE: u64 = 1;

/// The two hosts between which a guest moves.
#[derive(Drop)]
pub struct Hosts<'h, A: Seating, B: Seating, M: PagedMemory + Drop> {
    pub a: &'h SharedHost<A, M>,
    pub b: &'h SharedHost<B, M>,
}

/// A worker's seats at two hosts, whether it last met the guest at the first of them, and the bytes that the last drain
/// took that found any.
#[derive(Drop)]
pub(crate) struct Pair<A: Seating, B: Seating> {
    pub(crate) at_a: Caller<A>,
    pub(crate) at_b: Caller<B>,
    pub(crate) is_at_a: bool,
    pub(crate) taken: View,
}

/// What one drain found. The bytes themselves lie elsewhere, so that a drain that finds none moves none.
#[derive(Clone, Copy, Debug, PartialEq, Eq)]
pub(crate) enum Drained {
    /// Bytes.
    Bytes,
    /// Nothing.
    Nothing,
    /// Nothing: the guest is elsewhere.
    Elsewhere,
}

/// Waits a millisecond, or until the guest starts to run at the host where it was not met last. Returns whether it has.
/// If that was heard before, this only sleeps a millisecond.
fn pause<A: Seating, B: Seating, M: PagedMemory + Drop, R: Wait + Clock>(
    rt: &R,
    hosts: &Hosts<'_, A, B, M>,
    is_at_a: bool,
    heard: bool,
) -> bool {
    let most = Duration::from_millis(PAUSE);
    if heard {
        thread::sleep(rt, most);
        return true;
    }
    if is_at_a {
        hosts.b.await_start(rt, most)
    } else {
        hosts.a.await_start(rt, most)
    }
}

/// What the reply to a drain says that it found. Bytes, if there are any, replace what was taken. If the reply is no
/// list of bytes, not even an empty one, the guest is elsewhere.
fn told_by(reply: HostReply, taken: &mut View) -> Drained
    ensures drained { result ≡ told_by reply }
    ensures bytes { bytes_of result taken.new ≡ bytes_told reply }
{
    match reply {
        HostReply::Board(BoardReply::Bytes(bytes)) => take(bytes, taken),
        _ => Drained::Elsewhere,
    }
}

/// What a drain of these bytes found. If there are any, they replace what was taken.
fn take(bytes: View, taken: &mut View) -> Drained
    ensures drained { result ≡ told_by (HostReply.Board (BoardReply.Bytes bytes)) }
    ensures bytes { bytes_of result taken.new ≡ bytes }
{
    if bytes.as_slice().is_empty() {
        return Drained::Nothing;
    }
    *taken = bytes;
    Drained::Bytes
}

impl<A: Seating, B: Seating> Pair<A, B> {
    /// Makes a slice at the host where the guest was met last.
    #[tactic(auto, using(crate::proofs::Calls::made_slice_at_a, crate::proofs::Calls::made_slice_at_b, crate::proofs::Calls::made_none, crate::proofs::Failing::unsliced_fails))]
    fn slice<M: PagedMemory + Drop, R: Wait>(
        &mut self,
        rt: &R,
        alloc: Global,
        hosts: &Hosts<'_, A, B, M>,
        turn: u32,
        harts: u32,
        n: u32,
    ) -> Result<MadeTurns, WorkEnd>
        ensures within { IfOk result (λ s. s.made ≤ n) }
        ensures some { IfOk result (λ s. s.then ≢ Elsewhere → 1 ≤ s.made) }
        ensures made { IfOk result (λ s. Made (self.old.at_a, self.old.at_b) (self.new.at_a, self.new.at_b)
            [] (turns harts turn s.made (after_turns s.then)) false) }
        ensures err { OnErr result (Made (self.old.at_a, self.old.at_b) (self.new.at_a, self.new.at_b) [] [] false) }
        ensures fails { IfErr result (λ e. fails_calling e ≡ true) }
    {
        let steps = if self.is_at_a {
            self.at_a.slice(rt, alloc, hosts.a, turn, harts, n)?
        } else {
            self.at_b.slice(rt, alloc, hosts.b, turn, harts, n)?
        };
        Ok(made_by(steps))
    }

    /// Makes a slice at the gate. If the guest is elsewhere, the other host is asked next.
    #[tactic(auto, using(crate::proofs::Calls::made_none, crate::proofs::Failing::stopped_fails))]
    fn slice_at_gate<M: PagedMemory + Drop, G: Gate, R: Wait>(
        &mut self,
        rt: &R,
        alloc: Global,
        hosts: &Hosts<'_, A, B, M>,
        watch: &mut Watch<'_, G>,
        turn: u32,
        harts: u32,
        n: u32,
    ) -> Result<MadeTurns, WorkEnd>
        ensures within { IfOk result (λ s. s.made ≤ n) }
        ensures some { IfOk result (λ s. s.then ≢ Elsewhere → 1 ≤ s.made) }
        ensures made { IfOk result (λ s. Made (self.old.at_a, self.old.at_b) (self.new.at_a, self.new.at_b)
            [] (turns harts turn s.made (after_turns s.then)) false) }
        ensures err { OnErr result (Made (self.old.at_a, self.old.at_b) (self.new.at_a, self.new.at_b) [] [] false) }
        ensures fails { IfErr result (λ e. fails_calling e ≡ true) }
    {
        watch.before()?;
        let slice = self.slice(rt, alloc, hosts, turn, harts, n)?;
        watch.after();
        if slice.then == Then::Elsewhere {
            self.is_at_a = !self.is_at_a;
        }
        Ok(slice)
    }

    /// Makes a slice at the host that takes its first turn; no turn if both refuse it.
    #[tactic(auto, using(crate::proofs::Calls::made_behind_none))]
    fn slice_at_either<M: PagedMemory + Drop, G: Gate, R: Wait>(
        &mut self,
        rt: &R,
        alloc: Global,
        hosts: &Hosts<'_, A, B, M>,
        watch: &mut Watch<'_, G>,
        turn: u32,
        harts: u32,
        n: u32,
    ) -> Result<MadeTurns, WorkEnd>
        ensures within { IfOk result (λ s. s.made ≤ n) }
        ensures made { IfOk result (λ s. Made (self.old.at_a, self.old.at_b) (self.new.at_a, self.new.at_b)
            [] (turns harts turn s.made (after_turns s.then)) false) }
        ensures err { OnErr result (Made (self.old.at_a, self.old.at_b) (self.new.at_a, self.new.at_b) [] [] false) }
        ensures fails { IfErr result (λ e. fails_calling e ≡ true) }
    {
        let slice = self.slice_at_gate(rt, alloc, hosts, watch, turn, harts, n)?;
        if slice.made > 0 {
            return Ok(slice);
        }
        self.slice_at_gate(rt, alloc, hosts, watch, turn, harts, n)
    }

    /// Makes at least one turn and at most `n`. While both hosts refuse the turn, tries it again each millisecond, and
    /// as soon as the guest starts to run at the host to which it moves. `GuestStopped` after `TRIES` tries.
    #[tactic(auto, using(crate::proofs::Calls::made_none, crate::proofs::Calls::made_behind, crate::proofs::Calls::made_behind_none))]
    pub(crate) fn turns<M: PagedMemory + Drop, G: Gate, R: Wait + Clock>(
        &mut self,
        rt: &R,
        alloc: Global,
        hosts: &Hosts<'_, A, B, M>,
        watch: &mut Watch<'_, G>,
        turn: u32,
        harts: u32,
        n: u32,
    ) -> Result<MadeTurns, WorkEnd>
        ensures within { IfOk result (λ s. s.made ≤ n) }
        ensures some { IfOk result (λ s. 1 ≤ s.made) }
        ensures made { IfOk result (λ s. Made (self.old.at_a, self.old.at_b) (self.new.at_a, self.new.at_b)
            [] (turns harts turn s.made (after_turns s.then)) false) }
        ensures err { OnErr result (Made (self.old.at_a, self.old.at_b) (self.new.at_a, self.new.at_b) [] [] false) }
        ensures fails { IfErr result (λ e. fails_calling e ≡ true) }
    {
        let mut heard = false;
        for _try in 0..TRIES {
            let slice = self.slice_at_either(rt, alloc, hosts, watch, turn, harts, n)?;
            if slice.made > 0 {
                return Ok(slice);
            }
            heard = pause(rt, hosts, self.is_at_a, heard);
        }
        Err(WorkEnd::GuestStopped)
    }

    /// Drains at the host where the guest was met last if the drain finds nothing there. Returns whether it drained.
    #[tactic(auto, using(crate::proofs::Calls::made_dry_at_a, crate::proofs::Calls::made_dry_at_b, crate::proofs::Calls::made_none_at_a, crate::proofs::Calls::made_none_at_b))]
    fn finds_nothing<M: PagedMemory + Drop, R: Wait>(
        &mut self,
        rt: &R,
        hosts: &Hosts<'_, A, B, M>,
    ) -> bool
        ensures dry { result ≡ true → Made (self.old.at_a, self.old.at_b) (self.new.at_a, self.new.at_b) [] (Dry ∷ []) true }
        ensures none { result ≡ false → Made (self.old.at_a, self.old.at_b) (self.new.at_a, self.new.at_b) [] [] false }
    {
        if self.is_at_a {
            self.at_a.dry(rt, hosts.a, DRAIN_SIZE)
        } else {
            self.at_b.dry(rt, hosts.b, DRAIN_SIZE)
        }
    }

    /// Drains at the host where the guest was met last, whatever the drain finds. Bytes replace what was taken.
    #[cold]
    #[inline(never)]
    #[tactic(auto, using(crate::proofs::Calls::made_drain_at_a, crate::proofs::Calls::made_drain_at_b, crate::proofs::Calls::made_none, crate::proofs::Failing::short_fails))]
    fn drain_any<M: PagedMemory + Drop, R: Wait>(
        &mut self,
        rt: &R,
        alloc: Global,
        hosts: &Hosts<'_, A, B, M>,
    ) -> Result<Drained, WorkEnd>
        ensures made { IfOk result (λ d. Made (self.old.at_a, self.old.at_b)
            (self.new.at_a, self.new.at_b) (bytes_of d self.new.taken) (if_dry (is_nothing d)) (is_nothing d)) }
        ensures err { OnErr result (Made (self.old.at_a, self.old.at_b) (self.new.at_a, self.new.at_b) [] [] false) }
        ensures fails { IfErr result (λ e. fails_calling e ≡ true) }
    {
        let event = HostEvent::Do(Command::Board(BoardEvent::Drain(DRAIN_SIZE)));
        let (reply, _frame) = if self.is_at_a {
            self.at_a.call(rt, alloc, hosts.a, event)?
        } else {
            self.at_b.call(rt, alloc, hosts.b, event)?
        };
        Ok(told_by(reply, &mut self.taken))
    }

    /// Drains at the host where the guest was met last. Bytes replace what was taken.
    #[tactic(auto, using(crate::proofs::Calls::made_behind, crate::proofs::Calls::made_behind_err))]
    fn drain<M: PagedMemory + Drop, R: Wait>(
        &mut self,
        rt: &R,
        alloc: Global,
        hosts: &Hosts<'_, A, B, M>,
    ) -> Result<Drained, WorkEnd>
        ensures made { IfOk result (λ d. Made (self.old.at_a, self.old.at_b)
            (self.new.at_a, self.new.at_b) (bytes_of d self.new.taken) (if_dry (is_nothing d)) (is_nothing d)) }
        ensures err { OnErr result (Made (self.old.at_a, self.old.at_b) (self.new.at_a, self.new.at_b) [] [] false) }
        ensures fails { IfErr result (λ e. fails_calling e ≡ true) }
    {
        if self.finds_nothing(rt, hosts) {
            return Ok(Drained::Nothing);
        }
        self.drain_any(rt, alloc, hosts)
    }

    /// Drains at the gate. If the guest is elsewhere, the other host is asked next.
    #[tactic(auto, using(crate::proofs::Calls::made_none, crate::proofs::Failing::stopped_fails))]
    fn drain_at_gate<M: PagedMemory + Drop, G: Gate, R: Wait>(
        &mut self,
        rt: &R,
        alloc: Global,
        hosts: &Hosts<'_, A, B, M>,
        watch: &mut Watch<'_, G>,
    ) -> Result<Drained, WorkEnd>
        ensures made { IfOk result (λ d. Made (self.old.at_a, self.old.at_b)
            (self.new.at_a, self.new.at_b) (bytes_of d self.new.taken) (if_dry (is_nothing d)) (is_nothing d)) }
        ensures err { OnErr result (Made (self.old.at_a, self.old.at_b) (self.new.at_a, self.new.at_b) [] [] false) }
        ensures fails { IfErr result (λ e. fails_calling e ≡ true) }
    {
        watch.before()?;
        let drained = self.drain(rt, alloc, hosts)?;
        watch.after();
        if drained == Drained::Elsewhere {
            self.is_at_a = !self.is_at_a;
        }
        Ok(drained)
    }

    /// Drains at the host where the guest was met last, or at the other one if the guest is not there.
    #[tactic(auto, using(crate::proofs::Calls::made_behind))]
    fn drain_at_either<M: PagedMemory + Drop, G: Gate, R: Wait>(
        &mut self,
        rt: &R,
        alloc: Global,
        hosts: &Hosts<'_, A, B, M>,
        watch: &mut Watch<'_, G>,
    ) -> Result<Drained, WorkEnd>
        ensures made { IfOk result (λ d. Made (self.old.at_a, self.old.at_b)
            (self.new.at_a, self.new.at_b) (bytes_of d self.new.taken) (if_dry (is_nothing d)) (is_nothing d)) }
        ensures err { OnErr result (Made (self.old.at_a, self.old.at_b) (self.new.at_a, self.new.at_b) [] [] false) }
        ensures fails { IfErr result (λ e. fails_calling e ≡ true) }
    {
        match self.drain_at_gate(rt, alloc, hosts, watch)? {
            Drained::Elsewhere => self.drain_at_gate(rt, alloc, hosts, watch),
            drained => Ok(drained),
        }
    }

    /// Drains the guest. Returns whether it had sent bytes that no drain took yet: the next of them, up to 256, are
    /// then what was taken. While both hosts refuse the drain, tries it again each millisecond, and as soon as the
    /// guest starts to run at the host to which it moves. `GuestStopped` after `TRIES` tries.
    #[tactic(auto, using(crate::proofs::Calls::made_none, crate::proofs::Calls::made_behind))]
    pub(crate) fn sent_by_guest<M: PagedMemory + Drop, G: Gate, R: Wait + Clock>(
        &mut self,
        rt: &R,
        alloc: Global,
        hosts: &Hosts<'_, A, B, M>,
        watch: &mut Watch<'_, G>,
    ) -> Result<bool, WorkEnd>
        ensures made { IfOk result (λ sent. Made (self.old.at_a, self.old.at_b)
            (self.new.at_a, self.new.at_b) (if_sent sent self.new.taken) (if_dry (not sent)) (not sent)) }
        ensures err { OnErr result (Made (self.old.at_a, self.old.at_b) (self.new.at_a, self.new.at_b) [] [] false) }
        ensures fails { IfErr result (λ e. fails_calling e ≡ true) }
    {
        let mut heard = false;
        for _try in 0..TRIES {
            match self.drain_at_either(rt, alloc, hosts, watch)? {
                Drained::Bytes => return Ok(true),
                Drained::Nothing => return Ok(false),
                Drained::Elsewhere => heard = pause(rt, hosts, self.is_at_a, heard),
            }
        }
        Err(WorkEnd::GuestStopped)
    }
}
