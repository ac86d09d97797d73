//! The hosts of a new world.

ghost use Rattle.std.specs.Prelude.{◌≡◌, ◌<◌, ◌≤◌, true, [], length, vec_capacity};
ghost use Rattle.std.specs.List.{list_all};
ghost use Rattle.rvm_codec.specs.Numbers.{within};
ghost use Rattle.rvm_host.specs.Hosts.{new_host};
ghost use Rattle.rvm_core.specs.Worlds.{AreNew, is_sized, limit_at};

use rvm_board::Debugged;
use rvm_host::{Host, is_spoken};
use rvm_mem::{MAX_PAGES, PagedMemory};

/// The most pages that a guest can have.
const MAX_LIMIT: u16 = MAX_PAGES as u16;

/// Whether a world may have hosts with these limits and streams of this version.
pub(crate) fn is_sized(version: u32, limits: &[u16]) -> bool
    ensures { result ≡ is_sized version limits.now }
{
    is_spoken(version, limits.len()) && are_limits(limits)
}

/// Whether each host takes at least one page and no more than a guest can have.
fn are_limits(limits: &[u16]) -> bool
    ensures { result ≡ list_all (within 1 4096) limits.now }
{
    limits
        .iter()
        .all(|limit| 1 <= *limit && *limit <= MAX_LIMIT)
}

/// Adds a host for each limit to `hosts`, which must be empty and have room for them. The first host has the guest.
pub(crate) fn add_hosts<M: PagedMemory + Drop>(
    hosts: &mut Vec<Host<M>>,
    guest: Debugged<M>,
    limits: &[u16],
    version: u32,
)
    requires sized { is_sized version limits.now ≡ true }
    requires empty { hosts.old.items ≡ [] }
    requires room { length limits.now ≤ vec_capacity hosts.old }
    ensures { AreNew guest version limits.now (length limits.now) hosts.new.items }
{
    hosts.push_reserved(new_host(Some(guest), 0, limits, version));
    for id in 1..limits.len() as u8 {
        hosts.push_reserved(new_host(None, id, limits, version));
    }
}

/// The host with number `id`, which has this guest or none.
fn new_host<M: PagedMemory + Drop>(
    guest: Option<Debugged<M>>,
    id: u8,
    limits: &[u16],
    version: u32,
) -> Host<M>
    requires sized { is_sized version limits.now ≡ true }
    requires there { id < length limits.now }
    ensures { result ≡ new_host guest id (length limits.now) (limit_at limits.now id) version }
{
    match Host::with_version(guest, id, limits.len() as u8, limits[id as usize], version) {
        Ok(host) => host,
        Err(_) => unreachable!(),
    }
}
