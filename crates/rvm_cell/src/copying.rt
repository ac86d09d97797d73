//! The calls of a copier.

ghost use Rattle.std.specs.Prelude.{◌≡◌, true, None, Some, IfErr, IfOk, IsSomeAnd, OnOk};
ghost use Rattle.rvm_recorder.specs.Runs.{all_of};
ghost use Rattle.rvm_message.specs.declared.event.HostEvent.TheVariants.{Do};
ghost use Rattle.rvm_message.specs.Exchanges.{exchange};
ghost use Rattle.rvm_cell.specs.Copiers.{Follows, MayAsk, copies_on, refused_after};
ghost use Rattle.rvm_cell.specs.Endings.{is_uncalled, last_of};
ghost use Rattle.rvm_cell.specs.Work.{AreOfCopier, IsWork};

use crate::caller::Caller;
use crate::end::{WorkEnd, Worked};
use crate::gate::{Gate, Watch};
use crate::telling::{Called, Side, tell};
use rvm_link::Link;
use rvm_mem::PagedMemory;
use rvm_message::{Command, HostEvent};
use rvm_precopy::Policy;
use rvm_recorder::{Seat, Seating};
use std::alloc::Global;
use std::marker::Model;
use std::sync::Wait;

/// A copier's seat, and its receipts: it asks for the commands of one move and nothing else.
#[derive(Drop)]
pub(crate) struct Copying<L: Seating> {
    caller: Caller<L>,
    to: u8,
    policy: Policy,
    /// The number of consecutive calls, up to the last, for which memory ran out.
    refused: u32,
}

impl<L: Seating> Model for Copying<L> {
    ghost use Rattle.std.specs.Prelude.{None};
    ghost use Rattle.rvm_cell.specs.Copiers.{Follows};
    ghost use Rattle.rvm_cell.specs.Endings.{last_of};
    ghost use Rattle.rvm_cell.specs.Work.{PlainCopier};

    ghost Value = { PlainCopier };

    ghost view = { λ c. record {
      to = c.to;
      policy = c.policy;
      start = c.caller.start;
      last = last_of c.caller.receipts;
      refused = c.refused;
    } };

    ghost invariant = { λ c. Follows c.to c.policy None c.caller.receipts };
}

/// The number of consecutive calls for which memory ran out, after one more call that was not made.
fn refused_after(refused: u32, end: WorkEnd) -> u32
    ensures { result ≡ refused_after refused end }
{
    match end {
        WorkEnd::OutOfMemory => refused.saturating_add(1),
        _ => refused,
    }
}

impl<L: Seating> Copying<L> {
    /// A copier before the first call of a move to host `to`.
    pub(crate) fn new(alloc: Global, seat: Seat<L>, to: u8, policy: Policy) -> Copying<L>
        ensures { result ≡ record { to = to; policy = policy; start = seat; last = None; refused = 0 } }
    {
        Copying {
            caller: Caller::new(alloc, seat),
            to,
            policy,
            refused: 0,
        }
    }

    /// Begins the move. This is the first call.
    #[tactic(auto, using(crate::proofs::Copiers::first_asked))]
    pub(crate) fn begin<M: PagedMemory + Drop, K: Link + Drop, G: Gate, R: Wait>(
        &mut self,
        rt: &R,
        alloc: Global,
        side: &Side<'_, L, M, K>,
        watch: &mut Watch<'_, G>,
    ) -> Result<Called, WorkEnd>
        requires { self.old.last ≡ None }
        ensures same { self.new ≡ record self.old { last = self.new.last; refused = self.new.refused } }
        ensures on { OnOk result (IsSomeAnd self.new.last (λ x. copies_on x ≡ true)) }
        ensures uncalled { IfErr result (λ e. is_uncalled e ≡ true) }
    {
        let begin = Command::Begin {
            to: self.to,
            policy: self.policy,
        };
        self.ask(rt, alloc, side, watch, begin)
    }

    /// Asks for a command of the move, one that may follow the last.
    #[tactic(auto, using(crate::proofs::Works::last_called))]
    pub(crate) fn ask<M: PagedMemory + Drop, K: Link + Drop, G: Gate, R: Wait>(
        &mut self,
        rt: &R,
        alloc: Global,
        side: &Side<'_, L, M, K>,
        watch: &mut Watch<'_, G>,
        command: Command,
    ) -> Result<Called, WorkEnd>
        requires { MayAsk self.old.to self.old.policy self.old.last (Do command) }
        ensures last { IfOk result (λ c. self.new ≡ record self.old {
          last = Some (exchange (Do command) c.reply);
          refused = 0;
        }) }
        ensures err { IfErr result (λ e. self.new ≡ record self.old { refused = refused_after self.old.refused e }) }
        ensures uncalled { IfErr result (λ e. is_uncalled e ≡ true) }
    {
        let event = HostEvent::Do(command);
        let told = tell(rt, alloc, side, &mut self.caller, watch, event);
        self.refused = match &told {
            Ok(_) => 0,
            Err(end) => refused_after(self.refused, *end),
        };
        told
    }

    /// What the copier gives back that ends with `end`.
    #[tactic(auto, using(crate::proofs::Copiers::follows_asked))]
    pub(crate) fn end(self, end: WorkEnd) -> Worked<L>
        ensures work { IsWork self.start result.seat (all_of result.receipts.items) }
        ensures asked { AreOfCopier self.to self.policy (all_of result.receipts.items) }
        ensures in_order { Follows self.to self.policy None (all_of result.receipts.items) }
        ensures last { last_of (all_of result.receipts.items) ≡ self.last }
        ensures end { result.end ≡ end }
    {
        self.caller.end(end)
    }
}
