//! A host that does events again and keeps none of them.

ghost use Rattle.std.specs.Prelude.{◌≡◌, ◌+◌, ◌<◌, ◌≤◌, ◌++◌, List, [], IfOk, IfSome, IsSome, None, OnErr, OnOk, option_map};
ghost use Rattle.rvm_board.specs.Guest.{GuestState};
ghost use Rattle.rvm_protocol.specs.Modes.{guest_in};
ghost use Rattle.rvm_host.specs.Hosts.{PlainHost};
ghost use Rattle.rvm_recorder.specs.History.{count_of, host_now};
ghost use Rattle.rvm_recorder.specs.Reopening.{IsReopened};
ghost use Rattle.rvm_replay.specs.Behind.{IsBehind, most_replayed};

use rvm_audit::{Observer, Past};
use rvm_board::Debugged;
use rvm_host::Host;
use rvm_journal::{Recorder, ReplayError};
use rvm_mem::PagedMemory;
use rvm_message::HostEvent;
use rvm_recorder::Recorded;
use std::alloc::{AllocError, Global};
use std::marker::Model;
use std::snapshot::Snapshot;

/// A host that does events again, as many as can be counted with 64 bits. It keeps an entry no longer than until the next
/// call: an observer is shown it, and keeps what is asked of it.
#[derive(Drop)]
pub struct Replayed<M: PagedMemory + Drop, O: Observer + Drop> {
    /// The host, and the entries that the observer was not shown yet.
    recorded: Recorded<M>,
    /// The host as it was before the first event.
    opening: Snapshot<Host<M>>,
    /// The entries that the observer was shown.
    past: Past,
    /// How many these are.
    count: u64,
    /// None once memory ran out while it was shown entries.
    observer: Option<O>,
}

impl<M: PagedMemory + Drop, O: Observer + Drop> Model for Replayed<M, O> {
    ghost use Rattle.std.specs.Prelude.{IfSome};
    ghost use Rattle.rvm_recorder.specs.History.{Recording};
    ghost use Rattle.rvm_replay.specs.Behind.{IsBehind, replayed_of};

    ghost Value = { Recording };

    ghost view = { λ r. replayed_of r.opening.value r.past r.recorded };

    ghost invariant = { λ r. IsBehind r.opening.value r.past r.count r.recorded
        × IfSome r.observer (λ o. O.shows o r.past) };
}

impl<M: PagedMemory + Drop, O: Observer + Drop> Replayed<M, O> {
    /// Begins with a host that has done nothing yet.
    pub fn new(alloc: Global, host: Host<M>) -> Replayed<M, O>
        ensures { result ≡ record {
          journal = record { opening = host; entries = []; reserved = 0 };
          capacity = most_replayed;
        } }
    {
        let opening = Snapshot::of(&host);
        Replayed {
            recorded: Recorded::uncapped(alloc, host),
            opening,
            past: Past::none(),
            count: 0,
            observer: Some(O::begin(alloc)),
        }
    }

    /// Returns how many events the host did.
    pub fn count(&self) -> u64
        ensures { result ≡ count_of self.now }
    {
        self.count + u64::from(self.recorded.count())
    }

    /// Returns the version of the host's streams.
    pub fn version(&self) -> u32
        ensures { result ≡ self.now.journal.opening.version }
    {
        self.recorded.journal().version()
    }

    /// Ends the replay. Returns the whole guest, if it is at the host after all that it did, and the observer, which was
    /// shown all entries. Fails if memory runs out now, or ran out before.
    pub fn finish(self, alloc: Global) -> Result<(Option<Debugged<M>>, O), AllocError>
        ensures guest { IfOk result (λ r. option_map (λ (g : GuestState). g.guest) r.0
            ≡ guest_in (host_now self).mode) }
        ensures shown { IfOk result (λ r. O.shows r.1 self.journal.entries) }
    {
        let Replayed {
            mut recorded,
            opening: _,
            mut past,
            mut count,
            mut observer,
        } = self;
        settle(alloc, &mut recorded, &mut past, &mut count, &mut observer)?;
        match observer {
            Some(observer) => Ok((recorded.into_guest(), observer)),
            None => Err(AllocError),
        }
    }
}

impl<M: PagedMemory + Drop, O: Observer + Drop> Recorder for Replayed<M, O> {
    ghost recording = { λ r. r };

    fn event(&mut self, alloc: Global, event: HostEvent) -> Result<(), ReplayError> {
        let Replayed {
            recorded,
            opening: _,
            past,
            count,
            observer,
        } = self;
        settle(alloc, recorded, past, count, observer)?;
        if *count == u64::MAX {
            return Err(ReplayError::TooMany(u64::MAX));
        }
        match recorded.record(alloc, event) {
            Ok(_) => Ok(()),
            Err(_) => Err(ReplayError::OutOfMemory),
        }
    }

    fn turns(
        &mut self,
        alloc: Global,
        turn: u32,
        harts: u32,
        most: u32,
    ) -> Result<u32, ReplayError> {
        let Replayed {
            recorded,
            opening: _,
            past,
            count,
            observer,
        } = self;
        settle(alloc, recorded, past, count, observer)?;
        let left = u64::MAX - *count;
        if left == 0 {
            return Err(ReplayError::TooMany(u64::MAX));
        }
        let most = u64::from(most).min(left) as u32;
        let Ok(made) = recorded.record_turns(alloc, turn, harts, most) else {
            return Err(ReplayError::OutOfMemory);
        };
        Ok(made)
    }

    fn know_answers(&self) {
        self.recorded.know_answers();
    }
}

/// Shows an observer the entries that it was not shown, and forgets them. If memory runs out, or if there is no observer,
/// there is none after it, and the entries stay.
fn settle<M: PagedMemory + Drop, O: Observer + Drop>(
    alloc: Global,
    recorded: &mut Recorded<M>,
    past: &mut Past,
    count: &mut u64,
    observer: &mut Option<O>,
) -> Result<(), AllocError>
    requires shown { IfSome observer.old (λ o. O.shows o past.old) }
    requires fits { count.old + count_of recorded.old ≤ most_replayed }
    ensures reopened { OnOk result (IsReopened recorded.old recorded.new) }
    ensures past { OnOk result (past.new ≡ past.old ++ recorded.old.journal.entries) }
    ensures count { OnOk result (count.new ≡ count.old + count_of recorded.old) }
    ensures seen { OnOk result (IsSome observer.new) }
    ensures shown { IfSome observer.new (λ o. O.shows o past.new) }
    ensures behind { OnOk result ((o : PlainHost) → IsBehind o past.old count.old recorded.old
        → IsBehind o past.new count.new recorded.new) }
    ensures err { OnErr result ((recorded.new ≡ recorded.old) × (past.new ≡ past.old) × (count.new ≡ count.old)) }
{
    recorded.know_answers();
    let Some(mut seen) = observer.take() else {
        return Err(AllocError);
    };
    if recorded.count() > 0 {
        seen.observe(alloc, recorded.journal().items())?;
        past.extend(recorded.journal().items());
        *count += u64::from(recorded.count());
        recorded.reopen();
    }
    *observer = Some(seen);
    Ok(())
}
