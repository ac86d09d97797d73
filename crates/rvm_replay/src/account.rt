//! What an audit keeps of a host if it does not put the events in order.

ghost use Rattle.std.specs.Prelude.{◌≡◌, IfErr, IfOk, None, Some};
ghost use Rattle.rvm_audit.specs.Outlines.{IsOutlineOf};
ghost use Rattle.rvm_replay.specs.Behind.{most_replayed};
ghost use Rattle.rvm_replay.specs.Counts.{counts_of};

use crate::counts::Counts;
use crate::file::FileFault;
use crate::hosts::{idle_host, opening_host, replay_journal};
use crate::kept::{Kept, KeptHost};
use crate::replaying::Replayed;
use rvm_audit::{Observer, Outline, Stretches};
use rvm_journal::{JournalFault, JournalReader, Recorder};
use rvm_mem::PagedMemory;
use rvm_recorder::Item;
use std::alloc::{AllocError, Global};
use std::io::BufRead;
use std::marker::Model;
use std::snapshot::Snapshot;

/// The frames of the entries of a host, and what these entries add up to.
#[derive(Drop)]
struct Observed {
    stretches: Stretches,
    counts: Counts,
}

impl Observer for Observed {
    ghost shows = { λ o entries. (o.stretches ≡ entries) × (o.counts ≡ counts_of entries) };

    fn begin(alloc: Global) -> Observed {
        Observed {
            stretches: Stretches::begin(alloc),
            counts: Counts::none(),
        }
    }

    #[tactic(auto, using(crate::proofs::Counting::all_added))]
    fn observe(&mut self, alloc: Global, items: &[Item]) -> Result<(), AllocError> {
        self.stretches.observe(alloc, items)?;
        self.counts = self.counts.with(Counts::of(items));
        Ok(())
    }
}

/// What is kept of a host that did again what its journal tells, if its events are not asked for: the frames, and what the
/// events add up to. Contracts see all that the host answered.
#[derive(Drop)]
pub(crate) struct Account<M: PagedMemory + Drop> {
    outline: Outline,
    counts: Counts,
    host: Snapshot<Replayed<M, Observed>>,
}

impl<M: PagedMemory + Drop> Model for Account<M> {
    ghost use Rattle.std.specs.Prelude.{◌≡◌};
    ghost use Rattle.rvm_audit.specs.Outlines.{IsOutlineOf};
    ghost use Rattle.rvm_recorder.specs.History.{Recording};
    ghost use Rattle.rvm_replay.specs.Counts.{counts_of};

    ghost Value = { Recording };

    ghost view = { λ a. a.host.value };

    ghost invariant = { λ a. IsOutlineOf a.host.value.journal a.outline
        × (a.counts ≡ counts_of a.host.value.journal.entries) };
}

impl<M: PagedMemory + Drop> Account<M> {
    /// What is kept of a host that did all that it had to do. Fails if memory runs out.
    fn of(alloc: Global, replayed: Replayed<M, Observed>) -> Result<Account<M>, AllocError>
        ensures { IfOk result (λ account. account ≡ replayed) }
    {
        replayed.know_answers();
        let host = Snapshot::of(&replayed);
        let version = replayed.version();
        let count = replayed.count();
        let (guest, observed) = replayed.finish(alloc)?;
        drop(guest);
        Ok(Account {
            outline: Outline::new(version, count, observed.stretches),
            counts: observed.counts,
            host,
        })
    }

    /// Returns the frames.
    pub(crate) fn outline(&self) -> &Outline
        ensures { IsOutlineOf self.now.journal result.now }
    {
        &self.outline
    }

    /// Returns what the events add up to.
    pub(crate) fn counts(&self) -> Counts
        ensures { result ≡ counts_of self.now.journal.entries }
    {
        self.counts
    }
}

impl<M: PagedMemory + Drop> Kept for Account<M> {
    ghost recording = { λ a. a };

    ghost capacity = { most_replayed };

    fn replay<I: BufRead + Drop>(
        alloc: Global,
        reader: JournalReader<I>,
        image: &[u8],
    ) -> Result<KeptHost<Account<M>>, FileFault> {
        let host = opening_host::<M>(alloc, &reader.header(), image)?;
        let mut replayed = Replayed::new(alloc, host);
        match replay_journal(reader, image, None, &mut replayed) {
            Ok(journal) => match Account::of(alloc, replayed) {
                Ok(kept) => Ok(KeptHost { kept, journal }),
                Err(_) => Err(FileFault::Journal(JournalFault::OutOfMemory)),
            },
            Err(fault) => {
                drop(replayed);
                Err(fault)
            }
        }
    }

    fn idle(alloc: Global, hosts: u8, host: u8) -> Result<Account<M>, AllocError> {
        Account::of(alloc, Replayed::new(alloc, idle_host(hosts, host)))
    }

    fn count(&self) -> u64 {
        self.outline.count()
    }
}
