//! All hosts of a world do again what their journals tell.

ghost use Rattle.std.specs.Prelude.{◌≡◌, ◌⊎◌, ◌∷◌, ◌++◌, ◌≤◌, ◌<◌, [], List, ℕ, IfErr, IfOk, OnOk, length, map};
ghost use Rattle.rvm_journal.specs.declared.header.Header.{Header};
ghost use Rattle.rvm_replay.specs.Audited.{AreOfOneWorld, AreOfWorld};
ghost use Rattle.rvm_replay.specs.Journals.{AreTexts, JournalText, headers_of};
ghost use Rattle.rvm_replay.specs.Unaudited.{IsJournalsFault};
ghost use Rattle.rvm_replay.specs.Worlds.{AllHaveTexts, AreIdle, AreKept, AreNotOpened, AreOpened, AreTextsOf, IsKeptFault, IsOneKept, IsOneOpened, IsOpenFaultAt};
ghost use Rattle.rvm_replay.specs.declared.file.JournalsFault.TheVariants.{File, OutOfMemory};

use crate::file::{FileFault, JournalsFault, ReadFile};
use crate::headers::opening_of_world;
use crate::hosts::open_journal;
use crate::kept::Kept;
use crate::meetings::check_meetings;
use crate::progress::show_replay;
use rvm_journal::{JournalFault, JournalReader};
use std::alloc::Global;
use std::io::{BufRead, Write};

/// A world whose hosts did again what their journals tell.
#[derive(Drop)]
pub(crate) struct KeptWorld<'a, K: Drop> {
    /// The journals that were read, in the order in which they were given.
    pub files: Vec<ReadFile<'a>>,
    /// What is kept of each host, by its number.
    pub hosts: Vec<K>,
}

/// Makes the hosts of the world whose journals these are, in order, and has each do what its journal tells; a host without a
/// journal does nothing. `names` are those of the journals' files, of which `inputs` are read. Fails if the journals are not
/// those of hosts of one world, if one of them is refused, or if memory runs out.
pub(crate) fn replay_all<'a, K: Kept + Drop, I: BufRead + Drop, P: Write>(
    alloc: Global,
    names: &[&'a str],
    inputs: Vec<I>,
    image: &[u8],
    progress: &mut P,
) -> Result<KeptWorld<'a, K>, JournalsFault>
    requires named { length names.now ≡ length inputs.items }
    ensures texts { IfOk result (λ w. AreTexts names.now (map I.remaining inputs.items) w.files.items) }
    ensures world { IfOk result (λ w. AreOfWorld w.files.items (length w.hosts.items)) }
    ensures each { IfOk result (λ w. AreKept K.recording w.files.items image.now w.hosts.items) }
    ensures few { IfOk result (λ w. length w.hosts.items ≤ 8) }
    ensures fault { IfErr result (λ why. (files : List JournalText) × AreTexts names.now (map I.remaining inputs.items) files
        × IsJournalsFault K.capacity files image.now why) }
{
    let readers = open_all(alloc, inputs)?;
    let opening = opening_of_world(readers.as_slice())?;
    let mut world = idle_world(alloc, opening.hosts)?;
    replay_each(alloc, names, readers, image, &mut world, progress)?;
    check_meetings(world.files.as_slice(), &opening)?;
    Ok(world)
}

/// Reads the headers of all journals.
fn open_all<I: BufRead + Drop>(
    alloc: Global,
    inputs: Vec<I>,
) -> Result<Vec<JournalReader<I>>, JournalsFault>
    ensures opened { IfOk result (λ readers. AreOpened (map I.remaining inputs.items) readers.items) }
    ensures fault { IfErr result (AreNotOpened (map I.remaining inputs.items)) }
{
    let mut readers = Vec::new(alloc);
    for input in inputs {
        open_one(alloc, input, &mut readers)?;
    }
    Ok(readers)
}

/// Reads the header of the next journal.
fn open_one<I: BufRead + Drop>(
    alloc: Global,
    input: I,
    readers: &mut Vec<JournalReader<I>>,
) -> Result<(), JournalsFault>
    ensures opened { OnOk result (IsOneOpened (I.remaining input) readers.old.items readers.new.items) }
    ensures fault { IfErr result (IsOpenFaultAt (length readers.old.items) (I.remaining input)) }
{
    let index = readers.len();
    match open_journal(alloc, input) {
        Ok(reader) => keep(readers, reader),
        Err(fault) => Err(fault_at(index, fault)),
    }
}

/// A world of this many hosts that have no journals, and do nothing.
fn idle_world<'a, K: Kept + Drop>(
    alloc: Global,
    hosts: u8,
) -> Result<KeptWorld<'a, K>, JournalsFault>
    requires hosts { (2 ≤ hosts) × (hosts ≤ 8) }
    ensures files { IfOk result (λ w. w.files.items ≡ []) }
    ensures long { IfOk result (λ w. length w.hosts.items ≡ hosts) }
    ensures idle { IfOk result (λ w. AreIdle K.recording w.hosts.items) }
    ensures memory { IfErr result (λ why. why ≡ OutOfMemory) }
{
    let mut all = Vec::new(alloc);
    for host in 0..hosts {
        match K::idle(alloc, hosts, host) {
            Ok(kept) => keep(&mut all, kept)?,
            Err(_) => return Err(JournalsFault::OutOfMemory),
        }
    }
    Ok(KeptWorld {
        files: Vec::new(alloc),
        hosts: all,
    })
}

/// Appends one more of what is kept.
fn keep<T: Drop>(all: &mut Vec<T>, one: T) -> Result<(), JournalsFault>
    ensures kept { OnOk result (all.new.items ≡ all.old.items ++ one ∷ []) }
    ensures memory { IfErr result (λ fault. fault ≡ OutOfMemory) }
{
    match all.push(one) {
        Ok(()) => Ok(()),
        Err(_) => Err(JournalsFault::OutOfMemory),
    }
}

/// Has the host of each journal do what the journal tells, in a world whose hosts have done nothing.
fn replay_each<'a, K: Kept + Drop, I: BufRead + Drop, P: Write>(
    alloc: Global,
    names: &[&'a str],
    readers: Vec<JournalReader<I>>,
    image: &[u8],
    world: &mut KeptWorld<'a, K>,
    progress: &mut P,
) -> Result<(), JournalsFault>
    requires named { length names.now ≡ length readers.items }
    requires texts { AllHaveTexts readers.items }
    requires none { world.old.files.items ≡ [] }
    requires idle { AreIdle K.recording world.old.hosts.items }
    requires headers { (opening : Header) × AreOfOneWorld (headers_of readers.items) (length world.old.hosts.items) opening }
    requires few { length world.old.hosts.items ≤ 8 }
    ensures texts { OnOk result (AreTextsOf names.now readers.items world.new.files.items) }
    ensures each { OnOk result (AreKept K.recording world.new.files.items image.now world.new.hosts.items) }
    ensures long { OnOk result (length world.new.hosts.items ≡ length world.old.hosts.items) }
    ensures fault { IfErr result (λ why. (files : List JournalText) × AreTextsOf names.now readers.items files
        × IsJournalsFault K.capacity files image.now why) }
{
    for reader in readers {
        let name = names[world.files.len()];
        show_replay(name, world.files.len() + 1, names.len(), progress);
        replay_one(alloc, name, reader, image, world)?;
    }
    Ok(())
}

/// Has the host of the next journal do what the journal tells.
fn replay_one<'a, K: Kept + Drop, I: BufRead + Drop>(
    alloc: Global,
    name: &'a str,
    reader: JournalReader<I>,
    image: &[u8],
    world: &mut KeptWorld<'a, K>,
) -> Result<(), JournalsFault>
    requires { reader.header.host < length world.old.hosts.items }
    ensures kept { OnOk result (IsOneKept K.recording name.now reader image.now world.old.files.items
        world.new.files.items world.old.hosts.items world.new.hosts.items) }
    ensures fault { IfErr result (IsKeptFault K.capacity (length world.old.files.items) reader image.now) }
{
    let host = usize::from(reader.header().host);
    match K::replay(alloc, reader, image) {
        Ok(done) => {
            world.hosts[host] = done.kept;
            keep(&mut world.files, ReadFile::new(name, done.journal))
        }
        Err(fault) => Err(fault_at(world.files.len(), fault)),
    }
}

/// Why journals are not audited if this is wrong with the one that has this index.
fn fault_at(index: usize, fault: FileFault) -> JournalsFault
    ensures { (result ≡ OutOfMemory) ⊎ (result ≡ File index fault) }
{
    match fault {
        FileFault::Journal(JournalFault::OutOfMemory) => JournalsFault::OutOfMemory,
        _ => JournalsFault::File(index, fault),
    }
}
