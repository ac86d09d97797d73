//! What is kept of the hosts of a world that do again what their journals tell.

ghost use Rattle.std.specs.Prelude.{◌≡◌, ◌≤◌, ◌<◌, List, ℕ, IfErr, IfOk, None, Some, map};
ghost use Rattle.rvm_journal.specs.Reading.{IsTextOf};
ghost use Rattle.rvm_recorder.specs.History.{Recording, count_of};
ghost use Rattle.rvm_replay.specs.Audited.{IsIdle};
ghost use Rattle.rvm_replay.specs.FileFaults.{IsFileFault};
ghost use Rattle.rvm_replay.specs.Journals.{IsHostOf};

use crate::file::FileFault;
use crate::hosts::{idle_host, record_journal};
use rvm_journal::{JournalReader, ReadJournal};
use rvm_mem::PagedMemory;
use rvm_recorder::Recorded;
use std::alloc::{AllocError, Global};
use std::io::BufRead;

/// A host that did again all that its journal tells.
#[derive(Drop)]
pub(crate) struct KeptHost<K> {
    /// What is kept of the host.
    pub kept: K,
    /// What was read of the journal.
    pub journal: ReadJournal,
}

/// What is kept of a host that does again what its journal tells.
pub(crate) trait Kept {
    /// What the host answered.
    ghost recording: { Self → Recording };

    /// How many events it can be asked for.
    ghost capacity: { ℕ };

    /// Makes the host of a journal, and has it do all that the journal tells.
    fn replay<I: BufRead + Drop>(
        alloc: Global,
        reader: JournalReader<I>,
        image: &[u8],
    ) -> Result<KeptHost<Self>, FileFault>
        ensures host { IfOk result (λ r. IsTextOf reader r.journal
            × IsHostOf reader.header r.journal image.now (recording r.kept)) }
        ensures fault { IfErr result (λ why. (text : List ℕ) × IsTextOf reader text
            × IsFileFault why None capacity (Some reader.header) text image.now) };

    /// Makes a host that does nothing. Fails if memory runs out.
    fn idle(alloc: Global, hosts: u8, host: u8) -> Result<Self, AllocError>
        requires hosts { (2 ≤ hosts) × (hosts ≤ 8) }
        requires host { host < hosts }
        ensures { IfOk result (λ kept. IsIdle hosts host (recording kept)) };

    /// Returns how many events the host did.
    fn count(&self) -> u64
        ensures { result ≡ count_of (recording self.now) };
}

/// All that it answered.
impl<M: PagedMemory + Drop> Kept for Recorded<M> {
    ghost recording = { λ r. r };

    ghost capacity = { 4294967295 };

    fn replay<I: BufRead + Drop>(
        alloc: Global,
        reader: JournalReader<I>,
        image: &[u8],
    ) -> Result<KeptHost<Recorded<M>>, FileFault> {
        record_journal(alloc, reader, image)
    }

    fn idle(alloc: Global, hosts: u8, host: u8) -> Result<Recorded<M>, AllocError> {
        Ok(Recorded::uncapped(alloc, idle_host(hosts, host)))
    }

    fn count(&self) -> u64 {
        u64::from(self.count())
    }
}

/// How many events each of these hosts did.
pub(crate) fn counts_of<K: Kept>(alloc: Global, all: &[K]) -> Result<Vec<u64>, AllocError>
    ensures { IfOk result (λ counts. counts.items ≡ map (λ kept. count_of (K.recording kept)) all.now) }
{
    let mut counts = Vec::new(alloc);
    for host in 0..all.len() {
        counts.push(all[host].count())?;
    }
    Ok(counts)
}
