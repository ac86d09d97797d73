//! The host that does again what its journal tells.

ghost use Rattle.std.specs.Prelude.{◌≡◌, ◌≢◌, ◌≤◌, ◌<◌, ℕ, List, [], false, IfErr, IfOk, IfSome, None, OnOk, Option, Some, option_map, true};
ghost use Rattle.sha2.specs.Sha256.{sha256};
ghost use Rattle.rvm_board.specs.Guest.{GuestState};
ghost use Rattle.rvm_host.specs.Hosts.{is_sized, new_host};
ghost use Rattle.rvm_journal.specs.declared.header.Image.{Image};
ghost use Rattle.rvm_journal.specs.Headers.{IsRanged, IsSized, header_at};
ghost use Rattle.rvm_journal.specs.Reading.{IsAllRead, IsTextOf};
ghost use Rattle.rvm_journal.specs.Whole.{IsJournal};
ghost use Rattle.rvm_journal.specs.declared.replay.JournalFault.TheVariants as fault;
ghost use Rattle.rvm_recorder.specs.History.{count_of};
ghost use Rattle.rvm_replay.specs.Behind.{most_replayed};
ghost use Rattle.rvm_replay.specs.declared.file.FileFault.TheVariants.{Journal, NoHeader};
ghost use Rattle.rvm_replay.specs.FileFaults.{IsFileFault, IsGuestFault, IsOpenFault, IsOtherImage};
ghost use Rattle.rvm_replay.specs.Journals.{IsGuestNamed, IsHostAfter, IsHostOf, IsOpening};
ghost use Rattle.rvm_replay.specs.Replays.{IsDone, guest_after};

use crate::file::FileFault;
use crate::kept::KeptHost;
use crate::replaying::Replayed;
use rvm_arguments::GuestArguments;
use rvm_audit::Observer;
use rvm_board::{Debugged, MAX_HARTS};
use rvm_command::guest::read_guest;
use rvm_guest::valid_guest;
use rvm_host::Host;
use rvm_journal::{Header, Image, JournalFault, JournalReader, ReadJournal, Recorder};
use rvm_mem::{MAX_PAGES, PagedMemory};
use rvm_recorder::Recorded;
use sha2::{Digest, Sha256};
use std::alloc::Global;
use std::io::BufRead;

/// The version of the streams between host processes.
const STREAM_VERSION: u32 = 3;

/// What is left of a host that did again what its journal tells.
#[derive(Drop)]
pub(crate) struct Done<M: PagedMemory + Drop, O: Drop> {
    /// The whole guest, if it is at the host then.
    pub guest: Option<Debugged<M>>,
    /// How many events the host did.
    pub count: u64,
    /// The observer, which was shown all entries.
    pub observer: O,
}

/// Makes the host of a journal that is read from `journal`, has it do what the journal tells, its first `most` events, or all,
/// and shows an observer what it answers.
pub(crate) fn host_of_journal<M: PagedMemory + Drop, O: Observer + Drop, I: BufRead + Drop>(
    alloc: Global,
    journal: I,
    image: &[u8],
    most: Option<u64>,
) -> Result<Done<M, O>, FileFault>
    ensures host { IfOk result (λ d. (text : List ℕ) × IsJournal (I.remaining journal) text × IsDone O.shows most text
        image.now (option_map (λ (g : GuestState). g.guest) d.guest) d.count d.observer) }
    ensures fault { IfErr result (λ why. (text : List ℕ) × IsJournal (I.remaining journal) text
        × IsFileFault why most most_replayed (header_at text) text image.now) }
{
    let reader = open_journal(alloc, journal)?;
    let host = opening_host::<M>(alloc, &reader.header(), image)?;
    let mut replayed = Replayed::new(alloc, host);
    match replay_journal(reader, image, most, &mut replayed) {
        Ok(_read) => finish(alloc, replayed),
        Err(fault) => {
            drop(replayed);
            Err(fault)
        }
    }
}

/// Reads the header of a journal.
pub(crate) fn open_journal<I: BufRead + Drop>(
    alloc: Global,
    journal: I,
) -> Result<JournalReader<I>, FileFault>
    ensures known { IfOk result (λ reader. reader.known ≡ I.remaining journal) }
    ensures text { IfOk result (λ reader. (text : List ℕ) × IsTextOf reader text) }
    ensures fault { IfErr result (λ why. IsOpenFault why (I.remaining journal)) }
{
    match JournalReader::open(alloc, journal) {
        Ok(Some(reader)) => Ok(reader),
        Ok(None) => Err(FileFault::NoHeader),
        Err(fault) => Err(FileFault::Journal(fault)),
    }
}

/// What is left of a host that did again what is wanted of what its journal tells.
fn finish<M: PagedMemory + Drop, O: Observer + Drop>(
    alloc: Global,
    replayed: Replayed<M, O>,
) -> Result<Done<M, O>, FileFault>
    ensures guest { IfOk result (λ d. option_map (λ (g : GuestState). g.guest) d.guest ≡ guest_after replayed) }
    ensures count { IfOk result (λ d. d.count ≡ count_of replayed) }
    ensures shown { IfOk result (λ d. O.shows d.observer replayed.journal.entries) }
    ensures fault { IfErr result (λ why. why ≡ Journal fault.OutOfMemory) }
{
    let count = replayed.count();
    match replayed.finish(alloc) {
        Ok((guest, observer)) => Ok(Done {
            guest,
            count,
            observer,
        }),
        Err(_) => Err(FileFault::Journal(JournalFault::OutOfMemory)),
    }
}

/// Makes the host of a journal, and has it do all that the journal tells.
pub(crate) fn record_journal<M: PagedMemory + Drop, I: BufRead + Drop>(
    alloc: Global,
    reader: JournalReader<I>,
    image: &[u8],
) -> Result<KeptHost<Recorded<M>>, FileFault>
    ensures host { IfOk result (λ r. IsTextOf reader r.journal × IsHostOf reader.header r.journal image.now r.kept) }
    ensures fault { IfErr result (λ why. (text : List ℕ) × IsTextOf reader text
        × IsFileFault why None 4294967295 (Some reader.header) text image.now) }
{
    let host = opening_host::<M>(alloc, &reader.header(), image)?;
    let mut recorded = Recorded::uncapped(alloc, host);
    match replay_journal(reader, image, None, &mut recorded) {
        Ok(journal) => Ok(KeptHost {
            kept: recorded,
            journal,
        }),
        Err(fault) => {
            drop(recorded);
            Err(fault)
        }
    }
}

/// The host with which the journal with this header begins, before it has done anything.
pub(crate) fn opening_host<M: PagedMemory + Drop>(
    alloc: Global,
    header: &Header,
    image: &[u8],
) -> Result<Host<M>, FileFault>
    ensures host { IfOk result (IsOpening header.now image.now) }
    ensures fault { IsRanged header.now → (most : Option ℕ) (capacity : ℕ) (bytes : List ℕ)
        → IfErr result (λ why. IsFileFault why most capacity (Some header.now) bytes image.now) }
{
    let guest = guest_of(alloc, &header.guest, image)?;
    open_host(guest, header.hosts, header.host)
}

/// Has a host that has just begun do what its journal tells: its first `most` events, or all. Returns what was read.
pub(crate) fn replay_journal<I: BufRead + Drop, R: Recorder>(
    reader: JournalReader<I>,
    image: &[u8],
    most: Option<u64>,
    recorder: &mut R,
) -> Result<ReadJournal, FileFault>
    requires opening { IsOpening reader.header image.now (R.recording recorder.old).journal.opening }
    requires empty { (R.recording recorder.old).journal.entries ≡ [] }
    ensures host { IfOk result (λ read. (text : List ℕ) × IsTextOf reader text × IsAllRead most read text
        × IsHostAfter most reader.header text image.now (R.recording recorder.new)) }
    ensures fault { IfErr result (λ why. (text : List ℕ) × IsTextOf reader text × IsFileFault why most
        (R.recording recorder.old).capacity (Some reader.header) text image.now) }
{
    let _ = image;
    let header = reader.header();
    match reader.replay(header.hosts, header.host, most, recorder) {
        Ok(read) => {
            recorder.know_answers();
            Ok(read)
        }
        Err(fault) => Err(FileFault::Journal(fault)),
    }
}

/// Makes a host that has done nothing, as a host process does. Fails if no world of so many hosts has such a host.
fn open_host<M: PagedMemory + Drop>(
    guest: Option<Debugged<M>>,
    hosts: u8,
    host: u8,
) -> Result<Host<M>, FileFault>
    ensures host { IfOk result (λ h. h ≡ new_host guest host hosts 4096 3) }
    ensures fault { IfErr result (λ why. (why ≡ NoHeader) × (is_sized host hosts 4096 3 ≡ false)) }
{
    match Host::with_version(guest, host, hosts, MAX_PAGES as u16, STREAM_VERSION) {
        Ok(host) => Ok(host),
        Err(_) => Err(FileFault::NoHeader),
    }
}

/// Makes a host that has no journal, and has done nothing.
#[tactic(auto, using(crate::proofs::JournalFaults::never))]
pub(crate) fn idle_host<M: PagedMemory + Drop>(hosts: u8, host: u8) -> Host<M>
    requires hosts { (2 ≤ hosts) × (hosts ≤ 8) }
    requires host { host < hosts }
    ensures { result ≡ new_host None host hosts 4096 3 }
{
    match open_host(None, hosts, host) {
        Ok(host) => host,
        Err(_) => unreachable!(),
    }
}

/// The guest with which a journal begins, if it begins with one. Fails with `NoImage` if the file of its image holds
/// nothing, and with `OtherImage` if it is the guest of another image.
fn guest_of<M: PagedMemory + Drop>(
    alloc: Global,
    guest: &Option<Image>,
    file: &[u8],
) -> Result<Option<Debugged<M>>, FileFault>
    ensures guest { IfOk result (IsGuestNamed guest.now file.now) }
    ensures fault { IfSome guest.now IsSized → IfErr result (λ why. IsGuestFault why guest.now file.now) }
{
    let Some(image) = guest else {
        return Ok(None);
    };
    if !is_image_of(file, image) {
        return Err(image_fault(file));
    }
    let arguments = GuestArguments {
        image: "",
        raw: image.raw,
        harts: image.harts,
        pages: image.pages,
    };
    match read_guest::<M>(alloc, &arguments, file) {
        Ok(guest) => {
            valid_guest(&guest);
            Ok(Some(guest))
        }
        Err(refused) => Err(FileFault::Image(refused)),
    }
}

/// What is wrong with a file that is not that of an image: it holds nothing, or something else.
fn image_fault(file: &[u8]) -> FileFault
    ensures { (guest : Option Image) → IsOtherImage guest file.now → IsGuestFault result guest file.now }
{
    if file.is_empty() {
        FileFault::NoImage
    } else {
        FileFault::OtherImage
    }
}

/// Whether a file is that of an image, whose guest has a size that a board can have.
fn is_image_of(file: &[u8], image: &Image) -> bool
    ensures image { result ≡ true → (sha256 file.now ≡ image.now.digest) × IsSized image.now }
    ensures other { result ≡ false → IsSized image.now → sha256 file.now ≢ image.now.digest }
{
    Sha256::digest(file) == image.digest && is_sized(image)
}

/// Whether the numbers of harts and pages of a guest are within their limits.
fn is_sized(image: &Image) -> bool
    ensures sized { result ≡ true → IsSized image.now }
    ensures other { result ≡ false → IsSized image.now → false ≡ true }
{
    1 <= image.harts && image.harts <= MAX_HARTS && 1 <= image.pages && image.pages <= MAX_PAGES
}
