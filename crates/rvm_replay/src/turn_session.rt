//! `rvmove replay --turns`: a session of the debugger with the guest of a world as it was after a turn, at whichever host it
//! made that turn.

ghost use Rattle.std.specs.Prelude.{◌≡◌, ◌≤◌, ◌<◌, List, ℕ, IfErr, IfOk, OnErr, OnOk, length, map};
ghost use Rattle.std.specs.Io.Buffered.{writer_contents};
ghost use Rattle.std.specs.Io.KnownBytes.{Appends};
ghost use Rattle.rvm_command.specs.Flushed.{is_flushed};
ghost use Rattle.rvm_audit.specs.Rule.{IsMerge};
ghost use Rattle.rvm_replay.specs.Audited.{AreReplayed, journals_in};
ghost use Rattle.rvm_replay.specs.Journals.{AreTexts, JournalText, known_in, known_of};
ghost use Rattle.rvm_replay.specs.Unaudited.{IsJournalsFault};
ghost use Rattle.rvm_replay.specs.Turns.{HasPlace, HasTurnStatus, IsLooked, IsTurnSession, IsUntoldLook, IsUntoldSession, IsUntoldTurn, few_turns_line};

use crate::audit::{Finding, find, tell_fault, tell_refusal, tell_unordered};
use crate::file::{JournalsFault, ReadFile};
use crate::progress::show_search;
use crate::replay_session::replay_session;
use crate::turns::{TurnPlace, find_turn};
use crate::world::{KeptWorld, replay_all};
use rvm_audit::Order;
use rvm_mem::PagedMemory;
use rvm_recorder::Recorded;
use rvm_refusal::{LinkFault, Refusal};
use std::alloc::{AllocError, Global};
use std::io::{BufWriter, Read, Write};

/// Has the hosts of a world do again what their journals tell, looks for one order of all their events, as an audit does, and
/// finds the turn with the number `turn`, from 1, among those that the hosts were asked for in that order. Then the host of
/// that turn does again what its journal tells up to it, and the guest that is then there is handed to the debugger: does
/// what each line of the extended session in `reader` asks for, and writes the answers to `output`. `journals` are all bytes
/// of the files with these `names`; `image` and `progress` are those of an audit.
///
/// Returns the status. It is 0 if all lines were answered; then `output` is flushed, and `errors` gets nothing. It is 3 if
/// there is no order, and what was cut off may be the reason. It is 1 if there is none whatever was cut off, if there are
/// fewer turns, if no guest is there after the turn, or if a journal, a line or memory is refused, and `errors` says which.
/// The error `LinkFault` says that a write to `errors` failed.
pub fn replay_turns<M: PagedMemory + Drop, R: Read, O: Write + Drop, P: Write, E: Write>(
    alloc: Global,
    names: &[&str],
    journals: &[Vec<u8>],
    image: &[u8],
    turn: u32,
    reader: &mut R,
    output: &mut BufWriter<O>,
    progress: &mut P,
    errors: &mut E,
) -> Result<u8, LinkFault>
    requires some { 1 ≤ turn }
    requires named { length names.now ≡ length journals.now }
    ensures status { IfOk result (λ status. (files : List JournalText) × AreTexts names.now (known_in journals.now) files
        × HasTurnStatus status files image.now turn (R.remaining reader.old)
        (writer_contents O.contents output.old) (writer_contents O.contents output.new)
        (E.contents errors.old) (E.contents errors.new)) }
    ensures out { IfOk result (λ status. status ≡ 0 → is_flushed output.new) }
    ensures untold { OnErr result ((files : List JournalText) × AreTexts names.now (known_in journals.now) files
        × IsUntoldTurn files image.now turn (R.remaining reader.old)
        (writer_contents O.contents output.old) (writer_contents O.contents output.new)) }
{
    match replay_bytes::<M, P>(alloc, names, journals, image, progress) {
        Ok(world) => {
            show_search(progress);
            let files = world.files.as_slice();
            let looked = look_for(alloc, files, world.hosts.as_slice(), turn, errors);
            drop(world);
            match looked? {
                Ok(place) => answer_at::<M, R, O, E>(
                    alloc, names, journals, image, place, reader, output, errors,
                ),
                Err(status) => Ok(status),
            }
        }
        Err(fault) => {
            tell_fault(names, fault, errors)?;
            Ok(1)
        }
    }
}

/// Has the hosts of a world do again what these journals tell.
fn replay_bytes<'a, M: PagedMemory + Drop, P: Write>(
    alloc: Global,
    names: &[&'a str],
    journals: &[Vec<u8>],
    image: &[u8],
    progress: &mut P,
) -> Result<KeptWorld<'a, Recorded<M>>, JournalsFault>
    requires { length names.now ≡ length journals.now }
    ensures texts { IfOk result (λ w. AreTexts names.now (known_in journals.now) w.files.items) }
    ensures replayed { IfOk result (λ w. AreReplayed w.files.items image.now w.hosts.items) }
    ensures few { IfOk result (λ w. length w.hosts.items ≤ 8) }
    ensures fault { IfErr result (λ why. (files : List JournalText) × AreTexts names.now (known_in journals.now) files
        × IsJournalsFault 4294967295 files image.now why) }
{
    match slices_of(alloc, journals) {
        Ok(slices) => replay_all::<Recorded<M>, &[u8], P>(alloc, names, slices, image, progress),
        Err(_) => Err(JournalsFault::OutOfMemory),
    }
}

/// The bytes of these journals, each of which is read from its beginning.
pub fn slices_of<'a>(alloc: Global, journals: &'a [Vec<u8>]) -> Result<Vec<&'a [u8]>, AllocError>
    ensures known { IfOk result (λ slices. known_of slices.items ≡ known_in journals.now) }
    ensures long { IfOk result (λ slices. length slices.items ≡ length journals.now) }
{
    let mut slices = Vec::new(alloc);
    for journal in journals {
        slices.push(journal.as_slice())?;
    }
    Ok(slices)
}

/// The place of a turn in an order of the journals of these hosts; or a status, if it has none, and that was reported.
fn look_for<M: PagedMemory + Drop, E: Write>(
    alloc: Global,
    files: &[ReadFile<'_>],
    all: &[Recorded<M>],
    turn: u32,
    errors: &mut E,
) -> Result<Result<TurnPlace, u8>, LinkFault>
    requires few { length all.now ≤ 8 }
    requires replayed { (image : List ℕ) × AreReplayed files.now image all.now }
    requires some { 1 ≤ turn }
    ensures looked { (image : List ℕ) → AreReplayed files.now image all.now → IfOk result (λ r.
        IsLooked files.now image turn r (E.contents errors.old) (E.contents errors.new)) }
    ensures there { IfOk result (λ r. IfOk r (λ place. place.index < length files.now)) }
    ensures untold { (image : List ℕ) → AreReplayed files.now image all.now
        → OnErr result (IsUntoldLook files.now image turn) }
{
    match find(alloc, files, all) {
        Ok(Finding::InOrder(order)) => look_in(files, all, &order, turn, errors),
        Ok(Finding::Unordered(why)) => {
            let status = tell_unordered(files, why, errors)?;
            Ok(Err(status))
        }
        Err(_) => {
            tell_refusal(Refusal::OutOfMemory, errors)?;
            Ok(Err(1))
        }
    }
}

/// The place of a turn in this order; or a status, if it has none, and that was reported.
fn look_in<M: PagedMemory + Drop, E: Write>(
    files: &[ReadFile<'_>],
    all: &[Recorded<M>],
    order: &Order,
    turn: u32,
    errors: &mut E,
) -> Result<Result<TurnPlace, u8>, LinkFault>
    requires replayed { (image : List ℕ) × AreReplayed files.now image all.now }
    requires merge { IsMerge (journals_in all.now) order.now }
    requires some { 1 ≤ turn }
    ensures looked { (image : List ℕ) → AreReplayed files.now image all.now → IfOk result (λ r.
        IsLooked files.now image turn r (E.contents errors.old) (E.contents errors.new)) }
    ensures there { IfOk result (λ r. IfOk r (λ place. place.index < length files.now)) }
    ensures untold { (image : List ℕ) → AreReplayed files.now image all.now
        → OnErr result (IsUntoldLook files.now image turn) }
{
    match find_turn(files, all, order, turn) {
        Ok(place) => Ok(Ok(place)),
        Err(count) => {
            tell_few(count, errors)?;
            Ok(Err(1))
        }
    }
}

/// Reports that journals tell only this many turns.
fn tell_few<E: Write>(count: u32, errors: &mut E) -> Result<(), LinkFault>
    ensures { OnOk result (Appends (E.contents errors.old) (E.contents errors.new) (few_turns_line count)) }
{
    writeln!(errors, "the journals tell {count} turns")?;
    Ok(())
}

/// Has the host of a turn do again what its journal tells up to that turn, and answers a session for the guest that is then
/// there. Returns the status.
fn answer_at<M: PagedMemory + Drop, R: Read, O: Write + Drop, E: Write>(
    alloc: Global,
    names: &[&str],
    journals: &[Vec<u8>],
    image: &[u8],
    place: TurnPlace,
    reader: &mut R,
    output: &mut BufWriter<O>,
    errors: &mut E,
) -> Result<u8, LinkFault>
    requires there { (place.index < length names.now) × (place.index < length journals.now) }
    ensures status { (files : List JournalText) (turn : ℕ) → AreTexts names.now (known_in journals.now) files
        → HasPlace files image.now turn place.index place.count → IfOk result (λ status.
        IsTurnSession files image.now turn status (R.remaining reader.old)
        (writer_contents O.contents output.old) (writer_contents O.contents output.new)
        (E.contents errors.old) (E.contents errors.new)) }
    ensures out { IfOk result (λ status. status ≡ 0 → is_flushed output.new) }
    ensures untold { (files : List JournalText) (turn : ℕ) → AreTexts names.now (known_in journals.now) files
        → HasPlace files image.now turn place.index place.count → OnErr result
        (IsUntoldSession files image.now turn (R.remaining reader.old)
        (writer_contents O.contents output.old) (writer_contents O.contents output.new)) }
{
    let journal = journals[place.index].as_slice();
    replay_session::<M, &[u8], R, O, E>(
        alloc,
        names[place.index],
        journal,
        image,
        Some(u64::from(place.count)),
        reader,
        output,
        errors,
    )
}
