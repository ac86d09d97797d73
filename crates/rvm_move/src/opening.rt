//! The two hosts of a move before it begins.

ghost use Rattle.std.specs.Prelude.{◌≡◌, ◌<◌, ◌≤◌, [], IfOk, IfErr, OnOk};
ghost use Rattle.rvm_command.specs.Command.{image_of};
ghost use Rattle.rvm_command.specs.Ends.{IsLoadable, IsLoadRefusal};
ghost use Rattle.rvm_host.specs.Hosts.{new_host};
ghost use Rattle.rvm_move.specs.Opening.{HasValidGuest, IsFirstHost, IsSecondHost, recorded_before};

use rvm_arguments::MoveArguments;
use rvm_board::Debugged;
use rvm_command::guest::load_guest;
use rvm_command::refused::Refused;
use rvm_guest::valid_guest;
use rvm_host::Host;
use rvm_mem::{MAX_PAGES, PagedMemory};
use rvm_recorder::{MAX_CAPACITY, Recorded};
use std::alloc::Global;

/// The number of hosts of a move.
const HOSTS: u8 = 2;

/// Makes two hosts with empty journals, the first with the guest of an image. Refuses with the fault of the file, with
/// `OutsideRam` if the image does not lie in RAM, and with `OutOfMemory`.
pub fn new_hosts<M: PagedMemory + Drop>(
    alloc: Global,
    arguments: &MoveArguments,
    image: &[u8],
) -> Result<(Recorded<M>, Recorded<M>), Refused>
    ensures loadable { OnOk result
        (IsLoadable (image_of arguments.now.guest.raw image.now) arguments.now.guest.pages) }
    ensures empty { IfOk result (λ r. (r.0.journal.entries ≡ []) × (r.1.journal.entries ≡ [])) }
    ensures first { IfOk result (λ r. IsFirstHost arguments.now image.now r.0) }
    ensures second { IfOk result (λ r. IsSecondHost arguments.now r.1) }
    ensures valid { OnOk result (HasValidGuest arguments.now image.now) }
    ensures refused { IfErr result
        (IsLoadRefusal (image_of arguments.now.guest.raw image.now) arguments.now.guest.pages) }
{
    let guest = load_guest(alloc, &arguments.guest, image)?;
    valid_guest(&guest);
    let version = arguments.stream;
    Ok((
        new_host(alloc, Some(guest), 0, version),
        new_host(alloc, None, 1, version),
    ))
}

/// The host with this number, 0 or 1, with a guest or none, and with an empty journal.
fn new_host<M: PagedMemory + Drop>(
    alloc: Global,
    guest: Option<Debugged<M>>,
    id: u8,
    version: u32,
) -> Recorded<M>
    requires there { id < 2 }
    requires version { (1 ≤ version) × (version ≤ 3) }
    ensures { result ≡ recorded_before (new_host guest id 2 4096 version) }
{
    match Host::with_version(guest, id, HOSTS, MAX_PAGES as u16, version) {
        Ok(host) => record(alloc, host),
        Err(_) => unreachable!(),
    }
}

/// A host with an empty journal, which takes 2^20 entries.
fn record<M: PagedMemory + Drop>(alloc: Global, host: Host<M>) -> Recorded<M>
    ensures { result ≡ recorded_before host }
{
    match Recorded::new(alloc, host, MAX_CAPACITY) {
        Ok(recorded) => recorded,
        Err(_) => unreachable!(),
    }
}
