//! The world in which a script begins.

ghost use Rattle.std.specs.Prelude.{◌≡◌, ◌≤◌, true, IfOk, IfErr, OnOk};
ghost use Rattle.rvm_command.specs.Command.{guest_of, image_of};
ghost use Rattle.rvm_command.specs.Ends.{IsLoadable};
ghost use Rattle.rvm_guest.specs.TheGuest.{board};
ghost use Rattle.rvm_protocol.specs.Shown.{Shown};
ghost use Rattle.rvm_protocol.specs.Told.{at_start};
ghost use Rattle.rvm_protocol.specs.World.{new_world};
ghost use Rattle.rvm_core.specs.Worlds.{is_sized, limit_at, world_of};
ghost use Rattle.rvm_move.specs.ScriptEnds.{IsBeginRefusal, IsWorldRefusal};
ghost use Rattle.rvm_move.specs.FirstWorld.{limits_of, version_asked};

use rvm_arguments::ScriptArguments;
use rvm_board::Debugged;
use rvm_command::guest::load_guest;
use rvm_command::refused::Refused;
use rvm_core::World;
use rvm_host::{MAX_HOSTS, version_of};
use rvm_mem::{MAX_PAGES, PagedMemory};
use rvm_refusal::Refusal;
use std::alloc::Global;

/// Makes a new world whose first host has the guest of an image. Refuses with the fault of the file, with `OutsideRam`
/// if the image does not lie in RAM, with `BadSize` if this many hosts do not speak the version of the stream, and with
/// `OutOfMemory`.
pub(crate) fn load_world<M: PagedMemory + Drop>(
    alloc: Global,
    arguments: &ScriptArguments,
    image: &[u8],
) -> Result<World<M>, Refused>
    ensures loadable { OnOk result
        (IsLoadable (image_of arguments.now.guest.raw image.now) arguments.now.guest.pages) }
    ensures sized { OnOk result (is_sized (version_asked arguments.now) (limits_of arguments.now.hosts) ≡ true) }
    ensures world { IfOk result (λ w. IfOk (image_of arguments.now.guest.raw image.now) (λ i.
        world_of w ≡ new_world board (version_asked arguments.now) 0
        (guest_of arguments.now.guest.harts arguments.now.guest.pages i.0 i.1) arguments.now.hosts
        (limit_at (limits_of arguments.now.hosts)))) }
    ensures shown { IfOk result (λ w. IfOk (image_of arguments.now.guest.raw image.now) (λ i.
        Shown (world_of w).hosts
        (at_start 0 (guest_of arguments.now.guest.harts arguments.now.guest.pages i.0 i.1)))) }
    ensures refused { IfErr result (IsBeginRefusal arguments.now image.now) }
{
    let guest = load_guest(alloc, &arguments.guest, image)?;
    new_world(alloc, guest, arguments.hosts, asked_version(arguments))
}

/// The version of the stream that is asked for; if none is, 1 for two hosts and 3 for more.
fn asked_version(arguments: &ScriptArguments) -> u32
    ensures { result ≡ version_asked arguments.now }
{
    match arguments.stream {
        Some(version) => version,
        None => version_of(arguments.hosts as usize),
    }
}

/// Makes a new world with this guest at its first host, and this many hosts, at most 8, with streams of this version.
fn new_world<M: PagedMemory + Drop>(
    alloc: Global,
    guest: Debugged<M>,
    hosts: u32,
    version: u32,
) -> Result<World<M>, Refused>
    requires { hosts ≤ 8 }
    ensures sized { OnOk result (is_sized version (limits_of hosts) ≡ true) }
    ensures world { IfOk result (λ w. world_of w
        ≡ new_world board version 0 guest.guest hosts (limit_at (limits_of hosts))) }
    ensures shown { IfOk result (λ w. Shown (world_of w).hosts (at_start 0 guest.guest)) }
    ensures refused { IfErr result (IsWorldRefusal version hosts) }
{
    let limits = [MAX_PAGES as u16; MAX_HOSTS];
    match World::with_version(alloc, guest, &limits[..hosts as usize], version) {
        Ok(world) => Ok(world),
        Err((error, _)) => Err(Refused::from(Refusal::from(error))),
    }
}
