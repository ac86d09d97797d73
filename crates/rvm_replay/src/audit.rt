//! `rvmove audit-journals`: whether what the hosts of a world noted, each by itself, has one order.

ghost use Rattle.std.specs.Prelude.{◌≡◌, ◌≤◌, List, IfOk, IfSome, Ok, OnErr, OnOk, length, map};
ghost use Rattle.std.specs.Io.Buffered.{writer_contents};
ghost use Rattle.std.specs.Io.KnownBytes.{Appends};
ghost use Rattle.rvm_audit.specs.Audits.{histories_of};
ghost use Rattle.rvm_audit.specs.Parts.{taken};
ghost use Rattle.rvm_audit.specs.Outlines.{AreOutlinesOf, outlines_in};
ghost use Rattle.rvm_recorder.specs.History.{Recording};
ghost use Rattle.rvm_command.specs.Flushed.{is_flushed};
ghost use Rattle.rvm_command.specs.Refusals.{IsTold, refused};
ghost use Rattle.rvm_refusal.specs.declared.refusal.Refusal.TheVariants as refusal;
ghost use Rattle.rvm_audit.specs.Rule.{IsMerge};
ghost use Rattle.rvm_replay.specs.Audited.{IsWritten, journals_in};
ghost use Rattle.rvm_replay.specs.Findings.{HasAuditStatus, HasFew, HasFindingStatus, HasNoOrder, IsFaultTold, IsFinding, IsWhyUnordered, IsUnordered, IsUntoldAudit, IsUntoldFinding, IsUntoldNoOrder, extent_of, text_of};
ghost use Rattle.rvm_replay.specs.Counts.{summary_of};
ghost use Rattle.rvm_replay.specs.PlaceLines.{place_lines};
ghost use Rattle.rvm_replay.specs.declared.audit.AuditText.TheVariants.{Summary};
ghost use Rattle.rvm_replay.specs.Journals.{AreTexts, JournalText, plain_names};

use crate::account::Account;
use crate::chart::write_chart;
use crate::cuts::cuts_of;
use crate::file::{JournalsFault, ReadFile};
use crate::kept::counts_of;
use crate::places::write_places;
use crate::progress::show_search;
use crate::report::report_fault;
use crate::summary::write_summary;
use crate::world::replay_all;
use rvm_audit::laws::the_guest_of_an_order_never_moves;
use rvm_audit::{
    Audit, Order, Outline, OutlineAudit, Place, are_contradictory, are_outlines_contradictory,
    audit_all, audit_outlines, write_order,
};
use rvm_command::flush::flush;
use rvm_command::refused::{Refused, tell};
use rvm_mem::PagedMemory;
use rvm_recorder::{Journal, Recorded};
use rvm_refusal::{LinkFault, Refusal};
use std::alloc::{AllocError, Global};
use std::io::{BufRead, BufWriter, Write};

/// The status of an audit that found no order, where what was cut off may be the reason.
const UNDECIDED: u8 = 3;

/// What an audit of journals writes.
#[derive(Clone, Copy, Debug, PartialEq, Eq)]
pub enum AuditText {
    /// A line for each host, and one for all.
    Summary,
    /// The events of the order that was found, a line each.
    Order,
    /// A chart of the order that was found, as a picture in SVG.
    Chart,
}

/// What an audit writes of the order that it found.
#[derive(Clone, Copy)]
pub(crate) enum OrderText {
    /// The events, a line each.
    Events,
    /// A chart, as a picture in SVG.
    Chart,
}

/// What an audit found.
#[derive(Drop)]
pub(crate) enum Finding {
    /// The journals have an order, which is this one.
    InOrder(Order),
    /// The journals have no order.
    Unordered(Unordered),
}

/// Why journals have no order.
#[derive(Drop)]
pub(crate) enum Unordered {
    /// The journals contradict one another: they have no order, however those of them that were cut off went on. So far they
    /// have one.
    Contradicted(Extent),
    /// The journals have an order so far, and what was cut off may explain the rest.
    Undecided(Extent),
}

/// How far journals have an order.
#[derive(Drop)]
pub(crate) struct Extent {
    /// Up to which place each has one.
    pub places: Vec<Place>,
    /// How many events each has.
    pub counts: Vec<u64>,
}

/// Has the hosts of a world do again what their journals tell, and looks for one order of all their events. `inputs` are read
/// to their ends, each once; they are journals of hosts of one world, in any order, in files with these `names`: exactly one
/// is of the host that began with the guest of `image`, and no two are of one host. A host without a journal is taken to have done nothing. A journal that does not tell its end was
/// cut off: what its host did after it is not known.
///
/// Returns the status. It is 0 if there is an order: then it is a run of one world in which the guest never moved, what
/// `text` asks for is written, and `output` is flushed. It is 3 if there is none, and what was cut off may be the reason.
/// It is 1 if there is none whatever was cut off, if a journal is refused, if memory runs out, or if a write to `output`
/// fails. `errors` says which journal is refused and why, how much of each journal is in order, or `LinkFault` for a
/// write. The error `LinkFault` says that a write to `errors` failed. `progress` gets a line for each journal, before its
/// host does again what it tells, and one before an order is looked for; what cannot be written there is lost.
pub fn audit_journals<
    M: PagedMemory + Drop,
    I: BufRead + Drop,
    O: Write + Drop,
    P: Write,
    E: Write,
>(
    alloc: Global,
    names: &[&str],
    inputs: Vec<I>,
    image: &[u8],
    text: AuditText,
    output: &mut BufWriter<O>,
    progress: &mut P,
    errors: &mut E,
) -> Result<u8, LinkFault>
    requires named { length names.now ≡ length inputs.items }
    ensures status { IfOk result (λ status. (files : List JournalText)
        × AreTexts names.now (map I.remaining inputs.items) files × HasAuditStatus status files image.now text
        (writer_contents O.contents output.old) (writer_contents O.contents output.new)
        (E.contents errors.old) (E.contents errors.new)) }
    ensures out { IfOk result (λ status. status ≡ 0 → is_flushed output.new) }
    ensures untold { OnErr result ((files : List JournalText)
        × AreTexts names.now (map I.remaining inputs.items) files × IsUntoldAudit files image.now text
        (writer_contents O.contents output.old) (writer_contents O.contents output.new)) }
{
    match text {
        AuditText::Summary => {
            audit_accounts::<M, I, O, P, E>(alloc, names, inputs, image, output, progress, errors)
        }
        AuditText::Order => {
            let text = OrderText::Events;
            audit_events::<M, I, O, P, E>(
                alloc, names, inputs, image, text, output, progress, errors,
            )
        }
        AuditText::Chart => {
            let text = OrderText::Chart;
            audit_events::<M, I, O, P, E>(
                alloc, names, inputs, image, text, output, progress, errors,
            )
        }
    }
}

/// Audits journals as `audit_journals` does if their events are asked for, in order or as a chart. Keeps all events.
fn audit_events<M: PagedMemory + Drop, I: BufRead + Drop, O: Write + Drop, P: Write, E: Write>(
    alloc: Global,
    names: &[&str],
    inputs: Vec<I>,
    image: &[u8],
    text: OrderText,
    output: &mut BufWriter<O>,
    progress: &mut P,
    errors: &mut E,
) -> Result<u8, LinkFault>
    requires named { length names.now ≡ length inputs.items }
    ensures status { IfOk result (λ status. (files : List JournalText)
        × AreTexts names.now (map I.remaining inputs.items) files × HasAuditStatus status files image.now (text_of text)
        (writer_contents O.contents output.old) (writer_contents O.contents output.new)
        (E.contents errors.old) (E.contents errors.new)) }
    ensures out { IfOk result (λ status. status ≡ 0 → is_flushed output.new) }
    ensures untold { OnErr result ((files : List JournalText)
        × AreTexts names.now (map I.remaining inputs.items) files × IsUntoldAudit files image.now (text_of text)
        (writer_contents O.contents output.old) (writer_contents O.contents output.new)) }
{
    match replay_all::<Recorded<M>, I, P>(alloc, names, inputs, image, progress) {
        Ok(world) => {
            show_search(progress);
            let files = world.files.as_slice();
            let ended = audit_replayed(alloc, files, world.hosts.as_slice(), text, output, errors);
            the_guest_of_an_order_never_moves();
            drop(world);
            ended
        }
        Err(fault) => {
            tell_fault(names, fault, errors)?;
            Ok(1)
        }
    }
}

/// Audits journals as `audit_journals` does if only what they add up to is asked for. Keeps no events.
fn audit_accounts<M: PagedMemory + Drop, I: BufRead + Drop, O: Write + Drop, P: Write, E: Write>(
    alloc: Global,
    names: &[&str],
    inputs: Vec<I>,
    image: &[u8],
    output: &mut BufWriter<O>,
    progress: &mut P,
    errors: &mut E,
) -> Result<u8, LinkFault>
    requires named { length names.now ≡ length inputs.items }
    ensures status { IfOk result (λ status. (files : List JournalText)
        × AreTexts names.now (map I.remaining inputs.items) files × HasAuditStatus status files image.now Summary
        (writer_contents O.contents output.old) (writer_contents O.contents output.new)
        (E.contents errors.old) (E.contents errors.new)) }
    ensures out { IfOk result (λ status. status ≡ 0 → is_flushed output.new) }
    ensures untold { OnErr result ((files : List JournalText)
        × AreTexts names.now (map I.remaining inputs.items) files × IsUntoldAudit files image.now Summary
        (writer_contents O.contents output.old) (writer_contents O.contents output.new)) }
{
    match replay_all::<Account<M>, I, P>(alloc, names, inputs, image, progress) {
        Ok(world) => {
            show_search(progress);
            let files = world.files.as_slice();
            let ended = audit_all_accounts(alloc, files, world.hosts.as_slice(), output, errors);
            the_guest_of_an_order_never_moves();
            drop(world);
            ended
        }
        Err(fault) => {
            tell_fault(names, fault, errors)?;
            Ok(1)
        }
    }
}

/// Looks whether the journals of these hosts have an order, and writes what they add up to, or reports that they have none.
/// Returns the status.
fn audit_all_accounts<M: PagedMemory + Drop, O: Write + Drop, E: Write>(
    alloc: Global,
    files: &[ReadFile<'_>],
    all: &[Account<M>],
    output: &mut BufWriter<O>,
    errors: &mut E,
) -> Result<u8, LinkFault>
    requires { length all.now ≤ 8 }
    ensures status { IfOk result (λ status. HasFindingStatus status files.now all.now Summary
        (writer_contents O.contents output.old) (writer_contents O.contents output.new)
        (E.contents errors.old) (E.contents errors.new)) }
    ensures out { IfOk result (λ status. status ≡ 0 → is_flushed output.new) }
    ensures untold { OnErr result (IsUntoldFinding files.now all.now Summary
        (writer_contents O.contents output.old) (writer_contents O.contents output.new)) }
{
    match why_unordered(alloc, files, all) {
        Ok(None) => tell_written(write_totals(all, output), errors),
        Ok(Some(why)) => tell_unordered(files, why, errors),
        Err(_) => {
            tell_refusal(Refusal::OutOfMemory, errors)?;
            Ok(1)
        }
    }
}

/// Writes what the journals of these hosts add up to, and flushes it.
fn write_totals<M: PagedMemory + Drop, O: Write + Drop>(
    all: &[Account<M>],
    output: &mut BufWriter<O>,
) -> Result<(), LinkFault>
    requires { length all.now ≤ 8 }
    ensures written { OnOk result (Appends (writer_contents O.contents output.old)
        (writer_contents O.contents output.new) (summary_of all.now)) }
    ensures out { OnOk result (is_flushed output.new) }
{
    write_summary(all, output)?;
    flush(output)
}

/// The status after what was asked for was written, or that failed, which is reported.
fn tell_written<E: Write>(written: Result<(), LinkFault>, errors: &mut E) -> Result<u8, LinkFault>
    ensures done { OnOk written ((result ≡ Ok 0) × (E.contents errors.new ≡ E.contents errors.old)) }
    ensures failed { OnErr written (IfOk result (λ status. (status ≡ 1)
        × IsTold (refused refusal.LinkFault) (E.contents errors.old) (E.contents errors.new))) }
{
    match written {
        Ok(()) => Ok(0),
        Err(_) => {
            tell_refusal(Refusal::LinkFault, errors)?;
            Ok(1)
        }
    }
}

/// Looks whether the journals of these hosts have an order; if they have none, whether they contradict one another.
fn why_unordered<M: PagedMemory + Drop>(
    alloc: Global,
    files: &[ReadFile<'_>],
    all: &[Account<M>],
) -> Result<Option<Unordered>, AllocError>
    requires { length all.now ≤ 8 }
    ensures found { IfOk result (IsWhyUnordered files.now all.now) }
    ensures few { IfOk result (λ o. IfSome o (λ why. length (extent_of why).counts.items ≤ 8)) }
{
    let outlines = outlines_of(alloc, all)?;
    let OutlineAudit::NoOrder(places) = audit_outlines(alloc, outlines.as_slice())? else {
        return Ok(None);
    };
    let cuts = cuts_of(alloc, files, all.len() as u8)?;
    let extent = Extent {
        places,
        counts: counts_of(alloc, all)?,
    };
    match are_outlines_contradictory(alloc, outlines.as_slice(), cuts.as_slice())? {
        true => Ok(Some(Unordered::Contradicted(extent))),
        false => Ok(Some(Unordered::Undecided(extent))),
    }
}

/// What is kept of the journals of these hosts.
fn outlines_of<'a, M: PagedMemory + Drop>(
    alloc: Global,
    all: &'a [Account<M>],
) -> Result<Vec<&'a Outline>, AllocError>
    ensures { IfOk result (λ outlines. AreOutlinesOf (map (λ r. r.journal) all.now) (outlines_in outlines.items)) }
{
    let mut outlines = Vec::new(alloc);
    for host in 0..all.len() {
        outlines.push(all[host].outline())?;
    }
    Ok(outlines)
}

/// Looks for an order of the journals of these hosts, and writes what is asked for of it, or reports that there is none.
/// Returns the status.
fn audit_replayed<M: PagedMemory + Drop, O: Write + Drop, E: Write>(
    alloc: Global,
    files: &[ReadFile<'_>],
    all: &[Recorded<M>],
    text: OrderText,
    output: &mut BufWriter<O>,
    errors: &mut E,
) -> Result<u8, LinkFault>
    requires few { length all.now ≤ 8 }
    ensures status { IfOk result (λ status. HasFindingStatus status files.now all.now (text_of text)
        (writer_contents O.contents output.old) (writer_contents O.contents output.new)
        (E.contents errors.old) (E.contents errors.new)) }
    ensures out { IfOk result (λ status. status ≡ 0 → is_flushed output.new) }
    ensures untold { OnErr result (IsUntoldFinding files.now all.now (text_of text)
        (writer_contents O.contents output.old) (writer_contents O.contents output.new)) }
{
    match find(alloc, files, all) {
        Ok(Finding::InOrder(order)) => write_audit(all, &order, text, output, errors),
        Ok(Finding::Unordered(why)) => tell_unordered(files, why, errors),
        Err(_) => {
            tell_refusal(Refusal::OutOfMemory, errors)?;
            Ok(1)
        }
    }
}

/// Reports how much of journals is in order, and why not all is. Returns the status.
pub(crate) fn tell_unordered<E: Write>(
    files: &[ReadFile<'_>],
    why: Unordered,
    errors: &mut E,
) -> Result<u8, LinkFault>
    requires few { length (extent_of why).counts.items ≤ 8 }
    ensures status { (all : List Recording) → IsUnordered files.now all why → IfOk result (λ status.
        HasNoOrder status files.now all (E.contents errors.old) (E.contents errors.new)) }
    ensures untold { (all : List Recording) → IsUnordered files.now all why
        → OnErr result (IsUntoldNoOrder files.now all) }
{
    match why {
        Unordered::Contradicted(extent) => {
            write_extent(files, &extent, errors)?;
            tell_refusal(Refusal::NoOrder, errors)?;
            Ok(1)
        }
        Unordered::Undecided(extent) => {
            write_extent(files, &extent, errors)?;
            writeln!(errors, "undecided: what was cut off may have sent the rest")?;
            Ok(UNDECIDED)
        }
    }
}

/// Reports how far journals have an order.
fn write_extent<E: Write>(
    files: &[ReadFile<'_>],
    extent: &Extent,
    errors: &mut E,
) -> Result<(), LinkFault>
    requires { length extent.now.counts.items ≤ 8 }
    ensures { OnOk result (Appends (E.contents errors.old) (E.contents errors.new)
        (place_lines files.now (taken extent.now.places.items) 0 extent.now.counts.items)) }
{
    write_places(
        files,
        extent.places.as_slice(),
        extent.counts.as_slice(),
        errors,
    )
}

/// Looks for an order of the journals of these hosts; if there is none, whether they contradict one another.
pub(crate) fn find<M: PagedMemory + Drop>(
    alloc: Global,
    files: &[ReadFile<'_>],
    all: &[Recorded<M>],
) -> Result<Finding, AllocError>
    requires { length all.now ≤ 8 }
    ensures found { IfOk result (IsFinding files.now all.now) }
    ensures few { IfOk result HasFew }
{
    let journals = journals_of(alloc, all)?;
    match audit_all(alloc, journals.as_slice())? {
        Audit::Order(order) => Ok(Finding::InOrder(order)),
        Audit::NoOrder(places) => {
            let cuts = cuts_of(alloc, files, all.len() as u8)?;
            let extent = Extent {
                places,
                counts: counts_of(alloc, all)?,
            };
            match are_contradictory(alloc, journals.as_slice(), cuts.as_slice())? {
                true => Ok(Finding::Unordered(Unordered::Contradicted(extent))),
                false => Ok(Finding::Unordered(Unordered::Undecided(extent))),
            }
        }
    }
}

/// Writes what is asked for of an order that was found, and flushes it, or reports that a write failed. Returns the
/// status.
fn write_audit<M: PagedMemory + Drop, O: Write + Drop, E: Write>(
    all: &[Recorded<M>],
    order: &Order,
    text: OrderText,
    output: &mut BufWriter<O>,
    errors: &mut E,
) -> Result<u8, LinkFault>
    requires few { length all.now ≤ 8 }
    requires merge { IsMerge (journals_in all.now) order.now }
    ensures status { (files : List JournalText) → IfOk result (λ status. HasFindingStatus status files all.now (text_of text)
        (writer_contents O.contents output.old) (writer_contents O.contents output.new)
        (E.contents errors.old) (E.contents errors.new)) }
    ensures out { IfOk result (λ status. status ≡ 0 → is_flushed output.new) }
    ensures untold { (files : List JournalText) → OnErr result (IsUntoldFinding files all.now (text_of text)
        (writer_contents O.contents output.old) (writer_contents O.contents output.new)) }
{
    match write_flushed(all, order, text, output) {
        Ok(()) => Ok(0),
        Err(_) => {
            tell_refusal(Refusal::LinkFault, errors)?;
            Ok(1)
        }
    }
}

/// Writes what is asked for of an order that was found, and flushes it.
fn write_flushed<M: PagedMemory + Drop, O: Write + Drop>(
    all: &[Recorded<M>],
    order: &Order,
    text: OrderText,
    output: &mut BufWriter<O>,
) -> Result<(), LinkFault>
    requires few { length all.now ≤ 8 }
    requires merge { IsMerge (journals_in all.now) order.now }
    ensures written { OnOk result (IsWritten (text_of text) all.now order.now
        (writer_contents O.contents output.old) (writer_contents O.contents output.new)) }
    ensures out { OnOk result (is_flushed output.new) }
{
    write_text(all, order, text, output)?;
    flush(output)
}

/// The journals of these hosts.
fn journals_of<'a, M: PagedMemory + Drop>(
    alloc: Global,
    all: &'a [Recorded<M>],
) -> Result<Vec<&'a Journal<M>>, AllocError>
    ensures { IfOk result (λ journals. histories_of journals.items ≡ map (λ r. r.journal) all.now) }
{
    let mut journals = Vec::new(alloc);
    for host in 0..all.len() {
        journals.push(all[host].journal())?;
    }
    Ok(journals)
}

/// Reports why journals are not audited.
pub(crate) fn tell_fault<E: Write>(
    names: &[&str],
    fault: JournalsFault,
    errors: &mut E,
) -> Result<(), LinkFault>
    ensures { OnOk result (IsFaultTold (plain_names names.now) fault (E.contents errors.old) (E.contents errors.new)) }
{
    match fault {
        JournalsFault::OutOfMemory => tell_refusal(Refusal::OutOfMemory, errors)?,
        JournalsFault::NoGuest => writeln!(errors, "no journal begins with a guest")?,
        JournalsFault::File(index, fault) => match names.get(index) {
            Some(name) => report_fault(name, fault, errors)?,
            None => report_fault("journal", fault, errors)?,
        },
    }
    Ok(())
}

/// Reports a refusal.
pub(crate) fn tell_refusal<E: Write>(refusal: Refusal, errors: &mut E) -> Result<(), LinkFault>
    ensures { OnOk result (IsTold (refused refusal) (E.contents errors.old) (E.contents errors.new)) }
{
    let _status = tell(Refused::from(refusal), errors)?;
    Ok(())
}

/// Writes what is asked for of an order that was found.
fn write_text<M: PagedMemory + Drop, O: Write>(
    all: &[Recorded<M>],
    order: &Order,
    text: OrderText,
    output: &mut O,
) -> Result<(), LinkFault>
    requires few { length all.now ≤ 8 }
    requires merge { IsMerge (journals_in all.now) order.now }
    ensures { OnOk result (IsWritten (text_of text) all.now order.now (O.contents output.old) (O.contents output.new)) }
{
    match text {
        OrderText::Events => write_order(output, all.len() as u8, order),
        OrderText::Chart => write_chart(all.len() as u8, order, output),
    }
}
