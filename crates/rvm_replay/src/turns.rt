//! Where a turn of the guest stands: at which host it was made, and where in the journal of that host.

ghost use Rattle.std.specs.Prelude.{◌≡◌, ◌≤◌, ◌<◌, ◌-◌, List, ℕ, IfErr, IfNone, IfOk, IfSome, None, Some, length, slice_get, take, true};
ghost use Rattle.rvm_audit.specs.Rule.{IsMerge};
ghost use Rattle.rvm_replay.specs.Audited.{AreReplayed, IsOnlyOne, is_wanted, journals_in};
ghost use Rattle.rvm_replay.specs.Journals.{header_number, headers_in};
ghost use Rattle.rvm_replay.specs.Turns.{IsPlaceOf, count_at, hosts_in, hosts_of, turn_at, turn_hosts};
ghost use Rattle.rvm_replay.specs.declared.headers.Wanted.TheVariants.{OfHost};

use crate::counts::turns_of;
use crate::file::ReadFile;
use crate::journal_turns::count_to_turn;
use crate::places::is_of;
use rvm_audit::{HostTurns, Order, Piece};
use rvm_core::Event;
use rvm_mem::PagedMemory;
use rvm_recorder::Recorded;

/// The place of a turn in journals.
#[derive(Clone, Copy, Debug, PartialEq, Eq)]
pub(crate) struct TurnPlace {
    /// The index of the journal, from 0.
    pub index: usize,
    /// How many events that journal tells up to the turn, and with it.
    pub count: u32,
}

/// The place of the turn with this number, from 1, in an order of the journals of these hosts. Fails with the number of all
/// turns if there are fewer.
pub(crate) fn find_turn<M: PagedMemory + Drop>(
    files: &[ReadFile<'_>],
    all: &[Recorded<M>],
    order: &Order,
    turn: u32,
) -> Result<TurnPlace, u32>
    requires some { 1 ≤ turn }
    requires replayed { (image : List ℕ) × AreReplayed files.now image all.now }
    requires merge { IsMerge (journals_in all.now) order.now }
    ensures place { IfOk result (λ p. IsPlaceOf files.now all.now order.now turn p.index p.count) }
    ensures there { IfOk result (λ p. p.index < length files.now) }
    ensures few { IfErr result (λ all. (length (turn_hosts order.now) ≡ all) × (all < turn)) }
{
    let host = host_of_turn(order, turn)?;
    let own = turns_of_host(order, turn, host);
    let number = usize::from(host);
    let count = count_to_turn(&all[number], own);
    match index_of_host(files, host) {
        Some(index) => Ok(TurnPlace { index, count }),
        None => unreachable!(),
    }
}

/// The index of the first journal of a host; none if no journal is of it.
fn index_of_host(files: &[ReadFile<'_>], host: u8) -> Option<usize>
    ensures there { IfSome result (λ i. i < length files.now) }
    ensures of_host { IfSome result (λ i. is_wanted (OfHost host) (header_number files.now i) ≡ true) }
    ensures none { IfNone result (IsOnlyOne (headers_in files.now) (OfHost host) None) }
{
    for index in 0..files.len() {
        if is_of(&files[index], host) {
            return Some(index);
        }
    }
    None
}

/// The host that was asked for the turn with this number, from 1, in an order. Fails with the number of all turns if there
/// are fewer.
#[tactic(auto, using(crate::proofs::CountedTurns::none_passed, crate::proofs::CountedTurns::more_passed, crate::proofs::CountedTurns::host_found, crate::proofs::CountedTurns::few_turns, crate::proofs::Charting::fewer_left))]
fn host_of_turn(order: &Order, turn: u32) -> Result<u8, u32>
    requires { 1 ≤ turn }
    ensures host { IfOk result (λ x. slice_get (turn_hosts order.now) (turn - 1) ≡ Some x) }
    ensures few { IfErr result (λ all. (length (turn_hosts order.now) ≡ all) × (all < turn)) }
{
    let mut left = turn;
    let mut events = order.events();
    while let Some(piece) = events.next_piece() {
        let turns = turns_in(&piece);
        if left <= turns.turns {
            return Ok(turns.host);
        }
        left -= turns.turns;
    }
    Err(turn - left)
}

/// How many of the first `turns` turns of an order are of this host.
#[tactic(auto, using(crate::proofs::CountedTurns::none_counted, crate::proofs::CountedTurns::more_counted, crate::proofs::CountedTurns::all_counted, crate::proofs::Charting::fewer_left))]
fn turns_of_host(order: &Order, turns: u32, host: u8) -> u32
    ensures { result ≡ count_at host (take turns (turn_hosts order.now)) }
{
    let mut left = turns;
    let mut count = 0;
    let mut events = order.events();
    while let Some(piece) = events.next_piece() {
        let some = turns_in(&piece);
        let first = some.turns.min(left);
        if host == some.host {
            count += first;
        }
        left -= first;
    }
    count
}

/// The turns of one piece of an order; of one that has none, no turns of host 0.
fn turns_in(piece: &Piece) -> HostTurns
    ensures { hosts_of result ≡ hosts_in piece.now }
{
    match piece {
        Piece::Turns(turns) => *turns,
        Piece::Event(event) => turns_of_event(event),
    }
}

/// The turns of one event; of one that has none, no turns of host 0.
fn turns_of_event(event: &Event) -> HostTurns
    ensures { hosts_of result ≡ turn_at event.now }
{
    match event {
        Event::At(host, command) => HostTurns {
            host: *host,
            turns: turns_of(command),
        },
        Event::Deliver(_place) => HostTurns { host: 0, turns: 0 },
    }
}
