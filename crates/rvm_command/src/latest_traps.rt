//! The latest trap of each hart, to find one that the guest has no handler for.

ghost use Rattle.std.specs.Prelude.{◌≡◌, ◌<◌, ◌+◌, None, get_or, length, replicate, slice_set, option_map};
ghost use Rattle.rvm_board.specs.Board.{hart_at};
ghost use Rattle.rvm_command.specs.Faults.{cause_of, fault_at, shown};

use crate::fault::Fault;
use crate::trace::word_at;
use rvm_board::{BoardReply, Debugged, MAX_HARTS};
use rvm_csr::Cause;
use rvm_mem::Memory;
use std::marker::Model;

/// The most harts that a board has.
const HARTS: usize = MAX_HARTS as usize;

/// For each hart, what is reported of its latest step if the guest turns out to have no handler: none if the step
/// entered none, or if the hart has not stepped.
#[derive(Drop)]
pub(crate) struct LatestTraps {
    faults: [Option<Fault>; HARTS],
}

impl Model for LatestTraps {
    ghost use Rattle.std.specs.Prelude.{List, Option};
    ghost use Rattle.rvm_command.specs.declared.fault.Fault.{Fault};

    ghost Value = { List (Option Fault) };

    ghost view = { λ t. t.faults };
}

impl LatestTraps {
    /// No hart has stepped.
    pub(crate) fn new() -> LatestTraps
        ensures { result ≡ replicate 8 None }
    {
        LatestTraps {
            faults: [None; HARTS],
        }
    }

    /// Notes a step of a hart that had this `pc` before it, and its answer. Returns the fault that the step shows: if
    /// it trapped, and the hart's latest step before it had trapped or was interrupted, that one.
    pub(crate) fn note<M: Memory>(
        &mut self,
        guest: &mut Debugged<M>,
        hart: u32,
        pc: u32,
        reply: &BoardReply,
    ) -> Option<Fault>
        requires { hart < length guest.old.guest.board.harts }
        ensures shown { result ≡ shown reply.now (get_or self.old hart None) }
        ensures noted { self.new ≡ slice_set self.old hart
            (option_map (fault_at hart pc guest.old.guest) (cause_of reply.now)) }
        ensures guest { guest.new ≡ guest.old }
    {
        // for the proof
        let _harts = guest.harts();
        let fault = fault_after(guest, hart, pc, reply);
        let faults = &mut self.faults;
        let latest = faults[hart as usize];
        faults[hart as usize] = fault;
        shown(reply, latest)
    }
}

/// The fault that a step with this answer shows, by what is reported of its hart's latest step before it.
fn shown(reply: &BoardReply, latest: Option<Fault>) -> Option<Fault>
    ensures { result ≡ shown reply.now latest }
{
    match reply {
        BoardReply::Trapped(_) => latest,
        _ => None,
    }
}

/// What is reported of a step of a hart that had this `pc` before it, if the step entered a handler.
fn fault_after<M: Memory>(
    guest: &mut Debugged<M>,
    hart: u32,
    pc: u32,
    reply: &BoardReply,
) -> Option<Fault>
    requires { hart < length guest.old.guest.board.harts }
    ensures fault { result ≡ option_map (fault_at hart pc guest.old.guest) (cause_of reply.now) }
    ensures guest { guest.new ≡ guest.old }
{
    match cause_of(reply) {
        Some(cause) => Some(fault_at(guest, hart, pc, cause)),
        None => None,
    }
}

/// Why a step entered a handler, if it did.
fn cause_of(reply: &BoardReply) -> Option<Cause>
    ensures { result ≡ cause_of reply.now }
{
    match reply {
        BoardReply::Trapped(exception) => Some(Cause::Exception(*exception)),
        BoardReply::Interrupted(interrupt) => Some(Cause::Interrupt(*interrupt)),
        _ => None,
    }
}

/// What is reported of a trap of a hart that had this `pc` before it.
fn fault_at<M: Memory>(guest: &mut Debugged<M>, hart: u32, pc: u32, cause: Cause) -> Fault
    requires { hart < length guest.old.guest.board.harts }
    ensures fault { result ≡ fault_at hart pc guest.old.guest cause }
    ensures guest { guest.new ≡ guest.old }
{
    let value = mtval(guest, hart);
    let word = word_at(guest, pc);
    Fault {
        hart,
        cause,
        pc,
        value,
        word,
    }
}

/// `mtval` of a hart.
fn mtval<M: Memory>(guest: &Debugged<M>, hart: u32) -> u32
    requires { hart < length guest.now.guest.board.harts }
    ensures { result ≡ (hart_at hart guest.now.guest.board).csrs.mtval }
{
    let snapshot = guest.snapshot();
    snapshot.harts[hart as usize].fields.csrs.mtval
}
