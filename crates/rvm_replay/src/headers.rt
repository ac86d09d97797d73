//! Whether journals are those of hosts of one world, by their headers.

ghost use Rattle.std.specs.Prelude.{◌≡◌, ◌≤◌, ◌<◌, ℕ, IfErr, IfOk, OnOk, Some, length};
ghost use Rattle.rvm_replay.specs.Audited.{AreOfOneWorld, AreOnce, HasHeaderOf, HaveHeadersOf, IsOnlyOne, is_wanted};
ghost use Rattle.rvm_replay.specs.Journals.{Headers, headers_of};
ghost use Rattle.rvm_replay.specs.Unaudited.{IsHeaderFault, IsHeadersFault, IsSecond};
ghost use Rattle.rvm_replay.specs.declared.headers.Wanted.TheVariants.{WithGuest};

use crate::file::{FileFault, JournalsFault};
use rvm_journal::{Header, JournalReader, letter_of};
use std::io::BufRead;

/// Which journal is looked for.
#[derive(Clone, Copy)]
pub(crate) enum Wanted {
    /// The one whose host began with a guest.
    WithGuest,
    /// The one of this host.
    OfHost(u8),
}

/// Checks by their headers that journals are those of hosts of one world: no two are of one host; exactly one is of a host
/// that began with a guest, and each other one tells as many hosts as that one, and the same number of the world, or 0.
/// Returns the header of the one.
pub(crate) fn opening_of_world<I: BufRead + Drop>(
    readers: &[JournalReader<I>],
) -> Result<Header, JournalsFault>
    ensures world { IfOk result (λ opening. AreOfOneWorld (headers_of readers.now) opening.hosts opening) }
    ensures range { IfOk result (λ opening. (2 ≤ opening.hosts) × (opening.hosts ≤ 8)) }
    ensures fault { IfErr result (IsHeadersFault (headers_of readers.now)) }
{
    check_hosts(readers)?;
    let Some(first) = index_of(readers, Wanted::WithGuest)? else {
        return Err(JournalsFault::NoGuest);
    };
    let opening = readers[first].header();
    check_headers(readers, first, &opening)?;
    Ok(opening)
}

/// Checks that no two journals are of one host.
fn check_hosts<I: BufRead + Drop>(readers: &[JournalReader<I>]) -> Result<(), JournalsFault>
    ensures once { OnOk result (AreOnce (headers_of readers.now) 8) }
    ensures fault { IfErr result (IsHeadersFault (headers_of readers.now)) }
{
    for host in 0..8 {
        let _only = index_of(readers, Wanted::OfHost(host))?;
    }
    Ok(())
}

/// The index of the one journal that is wanted; none if no journal is. Fails if two are.
#[tactic(auto, using(crate::proofs::OnlyOne::first_found, crate::proofs::OnlyOne::none_more, crate::proofs::OnlyOne::some_more))]
fn index_of<I: BufRead + Drop>(
    readers: &[JournalReader<I>],
    wanted: Wanted,
) -> Result<Option<usize>, JournalsFault>
    ensures only { IfOk result (IsOnlyOne (headers_of readers.now) wanted) }
    ensures fault { IfErr result (IsHeadersFault (headers_of readers.now)) }
{
    let mut found = None;
    for index in 0..readers.len() {
        found = match (is_wanted_at(readers, index, wanted), found) {
            (false, found) => found,
            (true, None) => Some(index),
            (true, Some(_)) => return Err(JournalsFault::File(index, second_of(wanted))),
        };
    }
    Ok(found)
}

/// Whether the journal with this index is wanted.
fn is_wanted_at<I: BufRead + Drop>(
    readers: &[JournalReader<I>],
    index: usize,
    wanted: Wanted,
) -> bool
    requires { index < length readers.now }
    ensures { result ≡ is_wanted wanted ((headers_of readers.now).at index) }
{
    is_wanted(wanted, &readers[index].header())
}

/// Whether the journal with this header is wanted.
pub(crate) fn is_wanted(wanted: Wanted, header: &Header) -> bool
    ensures { result ≡ is_wanted wanted (Some header.now) }
{
    match wanted {
        Wanted::WithGuest => header.guest.is_some(),
        Wanted::OfHost(host) => header.host == host,
    }
}

/// What is wrong with a second journal that is wanted.
fn second_of(wanted: Wanted) -> FileFault
    ensures { (hs : Headers) → (index : ℕ) → IsSecond hs wanted index → IsHeaderFault hs index result }
{
    match wanted {
        Wanted::WithGuest => FileFault::SecondGuest,
        Wanted::OfHost(host) => FileFault::SameHost(letter_of(host)),
    }
}

/// Checks that each journal tells as many hosts as that with the index `first`, which has the header `opening`, and the
/// same number of the world, or 0.
fn check_headers<I: BufRead + Drop>(
    readers: &[JournalReader<I>],
    first: usize,
    opening: &Header,
) -> Result<(), JournalsFault>
    requires guest { IsOnlyOne (headers_of readers.now) WithGuest (Some first) }
    requires opening { (headers_of readers.now).at first ≡ Some opening.now }
    ensures headers { OnOk result (HaveHeadersOf (headers_of readers.now) (length readers.now) opening.now.hosts opening.now.world) }
    ensures fault { IfErr result (IsHeadersFault (headers_of readers.now)) }
{
    for index in 0..readers.len() {
        check_header(readers, first, opening, index)?;
    }
    Ok(())
}

/// Checks that the journal with this index tells as many hosts as that with the index `first`, which has the header
/// `opening`, and the same number of the world, or 0.
fn check_header<I: BufRead + Drop>(
    readers: &[JournalReader<I>],
    first: usize,
    opening: &Header,
    index: usize,
) -> Result<(), JournalsFault>
    requires index { index < length readers.now }
    requires guest { IsOnlyOne (headers_of readers.now) WithGuest (Some first) }
    requires opening { (headers_of readers.now).at first ≡ Some opening.now }
    ensures header { OnOk result (HasHeaderOf (headers_of readers.now) opening.now.hosts opening.now.world index) }
    ensures fault { IfErr result (IsHeadersFault (headers_of readers.now)) }
{
    let header = readers[index].header();
    if header.hosts != opening.hosts {
        return Err(JournalsFault::File(index, FileFault::OtherHosts));
    }
    if header.world != 0 && header.world != opening.world {
        return Err(JournalsFault::File(index, FileFault::OtherWorld));
    }
    Ok(())
}
