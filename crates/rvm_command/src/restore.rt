//! Guests, read by a host to which the frames of a saved guest come.

ghost use Rattle.std.specs.Prelude.{◌≡◌, ◌<◌, Some, None, length, IfOk, IfErr, OnOk};
ghost use Rattle.rvm_host.specs.Hosts.{host_of};
ghost use Rattle.rvm_host.specs.Statuses.{kind_of};
ghost use Rattle.rvm_command.specs.Restoring.{IsRefused, IsTarget, IsToldOf, fault_of, is_running};
ghost use Rattle.rvm_command.specs.Saved.{IsHeard, IsSavedGuest, Restores, after_received, begins_saved, guest_running, is_saved};
ghost use Rattle.rvm_command.specs.SentFrames.{waiting};
ghost use Rattle.rvm_command.specs.Streams.{between};

use crate::saved_fault::RestoreFault;
use rvm_board::Debugged;
use rvm_frame::{FrameFault, FrameReader, Received};
use rvm_host::{Host, ModeKind};
use rvm_mem::{MAX_PAGES, PagedMemory};
use std::alloc::Global;

/// The most pages that a guest can have.
const MAX_LIMIT: u16 = MAX_PAGES as u16;

/// The version of the streams of the host that reads.
const STREAM: u32 = 1;

/// Whether bytes begin as a saved guest does, with the first frame of a stream: a byte 0, which no ELF file begins with.
pub fn is_saved_guest(bytes: &[u8]) -> bool
    ensures { result ≡ begins_saved bytes.now }
{
    match bytes {
        [0, ..] => true,
        _ => false,
    }
}

/// Whether a file is read as a saved guest: it begins as one does, and is not said to be plain bytes.
pub(crate) fn is_saved(raw: bool, file: &[u8]) -> bool
    ensures { result ≡ is_saved raw file.now }
{
    !raw && is_saved_guest(file)
}

/// Reads a saved guest: the guest that runs at a host without one once the frames of the stream have come to it, one
/// after the other. `OutOfMemory` if memory runs out. Any other fault says that the bytes are no saved guest: `BadFrame`
/// and `TooLong` that a frame of the stream is refused, `Truncated` that the bytes end inside a frame, or before a guest
/// runs.
pub fn restore_guest<M: PagedMemory + Drop>(
    alloc: Global,
    bytes: &[u8],
) -> Result<Debugged<M>, RestoreFault>
    ensures guest { IfOk result (λ g. IsSavedGuest bytes.now g.guest) }
    ensures refused { IfErr result (IsRefused (IsSavedGuest bytes.now)) }
{
    let mut host = new_target();
    match hear_all(alloc, bytes, &mut host) {
        Ok(()) => running_guest(host),
        Err(fault) => Err(fault),
    }
}

/// A host without a guest: host 1 of two, which takes guests of any size.
#[tactic(auto, using(crate::proofs::Targets::is_target, crate::proofs::Targets::is_waiting))]
fn new_target<M: PagedMemory + Drop>() -> Host<M>
    ensures target { IsTarget result }
    ensures waits { host_of result ≡ waiting }
{
    match Host::with_version(None, 1, 2, MAX_LIMIT, STREAM) {
        Ok(host) => host,
        Err(_) => unreachable!(),
    }
}

/// The guest that runs at a host. `Truncated` if none does.
#[tactic(auto, using(crate::proofs::Targets::none_runs, crate::proofs::Targets::one_runs))]
fn running_guest<M: PagedMemory + Drop>(host: Host<M>) -> Result<Debugged<M>, RestoreFault>
    ensures guest { IfOk result (λ g. guest_running (host_of host) ≡ Some g.guest) }
    ensures refused { IfErr result (λ fault. guest_running (host_of host) ≡ None) }
{
    if !is_running(&host) {
        return Err(RestoreFault::Truncated);
    }
    match host.into_guest() {
        Some(guest) => Ok(guest),
        None => Err(RestoreFault::Truncated),
    }
}

/// Whether a guest runs at a host, and makes no move.
fn is_running<M: PagedMemory + Drop>(host: &Host<M>) -> bool
    ensures { result ≡ is_running (kind_of host.now.mode) }
{
    matches!(host.status().kind, ModeKind::Running)
}

/// Gives the frames of a stream to a host, one after the other.
#[tactic(auto, using(crate::proofs::Targets::started_between, crate::proofs::Targets::started_left, crate::proofs::Targets::more_left, crate::proofs::Targets::still_between, crate::proofs::Targets::none_left))]
fn hear_all<M: PagedMemory + Drop>(
    alloc: Global,
    bytes: &[u8],
    host: &mut Host<M>,
) -> Result<(), RestoreFault>
    requires target { IsTarget host.old }
    requires waits { host_of host.old ≡ waiting }
    ensures heard { OnOk result (IsToldOf bytes.now (host_of host.new)) }
    ensures refused { IfErr result (IsRefused (IsSavedGuest bytes.now)) }
{
    let mut reader = FrameReader::new(alloc);
    let mut left = bytes;
    while !left.is_empty() {
        match hear(alloc, &mut reader, left, host) {
            Ok(count) => left = &left[count..],
            Err(fault) => return Err(fault),
        }
    }
    Ok(())
}

/// Gives the next frame of a stream to a host. Returns the number of its bytes, at least 1.
fn hear<M: PagedMemory + Drop>(
    alloc: Global,
    reader: &mut FrameReader,
    left: &[u8],
    host: &mut Host<M>,
) -> Result<usize, RestoreFault>
    requires some { 0 < length left.now }
    requires between { reader.old ≡ between reader.old.version }
    requires target { IsTarget host.old }
    ensures target { IsTarget host.new }
    ensures heard { IfOk result (λ n. IsHeard reader.old.version left.now (host_of host.old) n reader.new
        (host_of host.new)) }
    ensures refused { IfErr result (IsRefused (Restores reader.old.version left.now (host_of host.old))) }
{
    match reader.feed(alloc, left) {
        Ok((count, Some(received))) => tell(alloc, host, count, &received),
        Ok((_, None)) => Err(RestoreFault::Truncated),
        Err(fault) => Err(fault_of(fault)),
    }
}

/// Gives a frame of `count` bytes to a host, and returns `count`. `OutOfMemory` if memory runs out.
#[tactic(auto, using(crate::proofs::Targets::still_target, crate::proofs::Targets::same_target, crate::proofs::Targets::next_is))]
fn tell<M: PagedMemory + Drop>(
    alloc: Global,
    host: &mut Host<M>,
    count: usize,
    received: &Received,
) -> Result<usize, RestoreFault>
    requires { IsTarget host.old }
    ensures target { IsTarget host.new }
    ensures next { OnOk result (host_of host.new ≡ after_received received.now (host_of host.old)) }
    ensures count { IfOk result (λ n. n ≡ count) }
    ensures fault { IfErr result (λ fault. fault ≡ RestoreFault.OutOfMemory) }
{
    match host.came(alloc, 0, &received.1) {
        Ok(_) => Ok(count),
        Err(_) => Err(RestoreFault::OutOfMemory),
    }
}

/// The fault of a saved guest whose stream has this fault.
fn fault_of(fault: FrameFault) -> RestoreFault
    ensures { result ≡ fault_of fault }
{
    match fault {
        FrameFault::OutOfMemory => RestoreFault::OutOfMemory,
        FrameFault::BadFrame | FrameFault::Failed => RestoreFault::BadFrame,
        FrameFault::TooLong => RestoreFault::TooLong,
    }
}
