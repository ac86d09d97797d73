//! The calls of a receiver.

ghost use Rattle.std.specs.Prelude.{◌≡◌, [], ◌∷◌, ◌++◌, true, None, Some, IfErr, IfOk, OnErr};
ghost use Rattle.rvm_recorder.specs.Runs.{all_of};
ghost use Rattle.rvm_message.specs.declared.event.HostEvent.TheVariants.{Came};
ghost use Rattle.rvm_message.specs.Exchanges.{exchange};
ghost use Rattle.rvm_cell.specs.Endings.{is_uncalled, last_of};
ghost use Rattle.rvm_cell.specs.Heard.{frames_in};
ghost use Rattle.rvm_station.specs.Streams.{is_between};
ghost use Rattle.rvm_cell.specs.Work.{AreOfReceiver, IsWork};

use crate::caller::Caller;
use crate::end::{WorkEnd, Worked};
use crate::gate::{Gate, Watch};
use crate::telling::{Called, Side, tell};
use rvm_frame::Frame;
use rvm_link::Link;
use rvm_mem::PagedMemory;
use rvm_message::{HostEvent, Shared};
use rvm_recorder::{Seat, Seating};
use rvm_station::is_between;
use std::alloc::Global;
use std::marker::Model;
use std::sync::Wait;

/// A receiver's seat, and its receipts: the receiver tells its host the frames that one other host sends, and nothing
/// else.
#[derive(Drop)]
pub(crate) struct Hearing<L: Seating> {
    caller: Caller<L>,
    from: u8,
    to: u8,
}

impl<L: Seating> Model for Hearing<L> {
    ghost use Rattle.rvm_cell.specs.Endings.{last_of};
    ghost use Rattle.rvm_cell.specs.Heard.{frames_in};
    ghost use Rattle.rvm_cell.specs.Work.{AreOfReceiver, PlainReceiver};

    ghost Value = { PlainReceiver };

    ghost view = { λ h. record {
      from = h.from;
      to = h.to;
      start = h.caller.start;
      heard = frames_in h.caller.receipts;
      last = last_of h.caller.receipts;
    } };

    ghost invariant = { λ h. AreOfReceiver h.from h.caller.receipts };
}

impl<L: Seating> Hearing<L> {
    /// A receiver before the first frame from host `from` to host `to`.
    pub(crate) fn new(alloc: Global, seat: Seat<L>, from: u8, to: u8) -> Hearing<L>
        ensures { result ≡ record { from = from; to = to; start = seat; heard = []; last = None } }
    {
        Hearing {
            caller: Caller::new(alloc, seat),
            from,
            to,
        }
    }

    /// Whether a frame that names these hosts, or none, may come here.
    pub(crate) fn is_between(&self, hosts: Option<(u8, u8)>) -> bool
        ensures { result ≡ is_between self.now.from self.now.to hosts }
    {
        is_between(self.from, self.to, hosts)
    }

    /// Tells the host that a frame came.
    #[tactic(auto, using(crate::proofs::Works::last_called, crate::proofs::Works::heard_called))]
    pub(crate) fn came<M: PagedMemory + Drop, K: Link + Drop, G: Gate, R: Wait>(
        &mut self,
        rt: &R,
        alloc: Global,
        side: &Side<'_, L, M, K>,
        watch: &mut Watch<'_, G>,
        frame: Shared<Frame>,
    ) -> Result<Called, WorkEnd>
        ensures heard { IfOk result (λ c. self.new ≡ record self.old {
          heard = self.old.heard ++ frame ∷ [];
          last = Some (exchange (Came self.old.from frame) c.reply);
        }) }
        ensures err { OnErr result (self.new ≡ self.old) }
        ensures uncalled { IfErr result (λ e. is_uncalled e ≡ true) }
    {
        let event = HostEvent::Came(self.from, frame);
        tell(rt, alloc, side, &mut self.caller, watch, event)
    }

    /// What the receiver gives back that ends with `end`.
    pub(crate) fn end(self, end: WorkEnd) -> Worked<L>
        ensures work { IsWork self.start result.seat (all_of result.receipts.items) }
        ensures heard { AreOfReceiver self.from (all_of result.receipts.items) }
        ensures frames { frames_in (all_of result.receipts.items) ≡ self.heard }
        ensures last { last_of (all_of result.receipts.items) ≡ self.last }
        ensures end { result.end ≡ end }
    {
        self.caller.end(end)
    }
}
