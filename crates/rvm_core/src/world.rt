//! A world of hosts.

ghost use Rattle.std.specs.Prelude.{◌≡◌, ◌^◌, ◌↔◌, ◌<◌, ◌≤◌, length, get_or, slice_get, option_map, true, false, IfOk, IfErr, OnOk, OnErr, IfSome, None};
ghost use Rattle.rvm_host.specs.Hosts.{version_of};
ghost use Rattle.rvm_host.specs.Spelled.{AreSpelled};
ghost use Rattle.rvm_board.specs.Guest.{Guest};
ghost use Rattle.rvm_guest.specs.TheGuest.{board};
ghost use Rattle.rvm_guest.specs.Valid.{is_valid};
ghost use Rattle.rvm_message.specs.Events.{command_of};
ghost use Rattle.rvm_message.specs.Frames.{BoardFrame};
ghost use Rattle.rvm_message.specs.Replies.{reply_of};
ghost use Rattle.rvm_protocol.specs.Commands.{Came};
ghost use Rattle.rvm_protocol.specs.Shown.{Shown};
ghost use Rattle.rvm_protocol.specs.Told.{Told, at_start};
ghost use Rattle.rvm_protocol.specs.World as protocol;
ghost use Rattle.rvm_protocol.specs.World.{reply_to, step, new_world};
ghost use Rattle.rvm_core.specs.declared.error.WorldError.TheVariants.{BadSize};
ghost use Rattle.rvm_core.specs.NeverMoved.{NeverMoved};
ghost use Rattle.rvm_core.specs.Steps.{AreFirst};
ghost use Rattle.rvm_core.specs.Worlds.{IsHeeded, IsReached, asks_memory, current_after, is_sized, limit_at, meant, no_kept, place_of, world_of};

use crate::error::WorldError;
use crate::event::{Event, WorldReply};
use crate::hosts::{add_hosts, is_sized};
use crate::sent::{Sent, make_room, post};
use rvm_board::{Debugged, Turns};
use rvm_guest::valid_guest;
use rvm_host::{Host, version_of};
use rvm_mem::PagedMemory;
use rvm_message::{Command, HostRefusal, HostReply};
use std::alloc::{AllocError, Global};
use std::marker::Model;

/// A world: two to eight hosts, the bytes of each frame that was sent, oldest first, and the number of the host that
/// has the guest.
#[derive(Drop)]
pub struct World<M: PagedMemory + Drop> {
    version: u32,
    hosts: Vec<Host<M>>,
    sent: Vec<Sent>,
    current: u8,
}

impl<M: PagedMemory + Drop> Model for World<M> {
    ghost use Rattle.rvm_core.specs.Worlds.{IsWorld, PlainWorld};

    ghost Value = { PlainWorld };

    ghost view = { λ w. record { version = w.version; hosts = w.hosts.items; sent = w.sent.items; current = w.current } };

    ghost invariant = { λ w. IsWorld (record {
      version = w.version;
      hosts = w.hosts.items;
      sent = w.sent.items;
      current = w.current;
    }) };
}

impl<M: PagedMemory + Drop> World<M> {
    /// Makes a world with streams of this version and a host for each of `limits`, the most pages that it takes. The
    /// first host runs this guest. Fails with `BadSize` if there are not 2 to 8 hosts, a limit is not 1 to 4096, or
    /// this many hosts cannot speak the version (two speak 1, 2 or 3, more than two speak 3), and with `OutOfMemory`
    /// if memory runs out; either hands the guest back.
    pub fn with_version(
        alloc: Global,
        guest: Debugged<M>,
        limits: &[u16],
        version: u32,
    ) -> Result<World<M>, (WorldError, Debugged<M>)>
        ensures world { IfOk result (λ w. world_of w
            ≡ new_world board version 0 guest.guest (length limits.now) (limit_at limits.now)) }
        ensures valid { OnOk result (is_valid guest.guest ≡ true) }
        ensures shown { IfOk result (λ w. Shown (world_of w).hosts (at_start 0 guest.guest)) }
        ensures sized { OnOk result (is_sized version limits.now ≡ true) }
        ensures size { IfErr result (λ e. (e.0 ≡ BadSize) ↔ (is_sized version limits.now ≡ false)) }
        ensures guest { IfErr result (λ e. e.1 ≡ guest) }
    {
        if !is_sized(version, limits) {
            return Err((WorldError::BadSize, guest));
        }
        valid_guest(&guest);
        match Vec::with_capacity(alloc, limits.len()) {
            Ok(mut hosts) => {
                add_hosts(&mut hosts, guest, limits, version);
                Ok(World {
                    version,
                    hosts,
                    sent: Vec::new(alloc),
                    current: 0,
                })
            }
            Err(_) => Err((WorldError::OutOfMemory, guest)),
        }
    }

    /// Makes a world as `with_version` does, with streams of version 1 if there are two hosts, and else of version 3.
    /// Fails as `with_version` does.
    pub fn new(
        alloc: Global,
        guest: Debugged<M>,
        limits: &[u16],
    ) -> Result<World<M>, (WorldError, Debugged<M>)>
        ensures world { IfOk result (λ w. world_of w
            ≡ new_world board (version_of (length limits.now)) 0 guest.guest (length limits.now)
            (limit_at limits.now)) }
        ensures valid { OnOk result (is_valid guest.guest ≡ true) }
        ensures shown { IfOk result (λ w. Shown (world_of w).hosts (at_start 0 guest.guest)) }
        ensures sized { OnOk result (is_sized (version_of (length limits.now)) limits.now ≡ true) }
        ensures size { IfErr result (λ e. (e.0 ≡ BadSize)
            ↔ (is_sized (version_of (length limits.now)) limits.now ≡ false)) }
        ensures guest { IfErr result (λ e. e.1 ≡ guest) }
    {
        let version = version_of(limits.len());
        World::with_version(alloc, guest, limits, version)
    }

    /// Returns the version of the world's streams.
    pub fn version(&self) -> u32
        ensures { result ≡ self.now.version }
    {
        self.version
    }

    /// Returns the number of the world's hosts, 2 to 8.
    pub fn hosts(&self) -> u8
        ensures { result ≡ length self.now.hosts }
    {
        self.hosts.len() as u8
    }

    /// Returns the number of the host that has the guest, running or paused: the target of the last move that was
    /// committed, at first host 0.
    pub fn current(&self) -> u8
        ensures { (t : Told Guest) → Shown (world_of self.now).hosts t → result ≡ t.current }
    {
        self.current
    }

    /// Returns the number of frames that were sent.
    pub fn sent(&self) -> usize
        ensures count { result ≡ length self.now.sent }
        ensures room { result < 2 ^ 63 }
    {
        self.sent.len()
    }

    /// Returns the bytes of the frame that was sent at this place, from 0; None if there is none.
    pub fn frame(&self, place: usize) -> Option<&[u8]>
        ensures some { IfSome result (λ bytes. bytes.now ≡ (get_or self.now.sent place no_kept).bytes) }
        ensures none { (result ≡ None) ↔ (length self.now.sent ≤ place) }
        // They spell the frame that the protocol has at that place, with the hosts between which it goes.
        ensures spelled { AreSpelled self.now.version (slice_get (world_of self.now).sent place)
            (option_map (λ bytes. bytes.now) result) }
    {
        match self.sent.get(place) {
            Some(sent) => Some(sent.bytes()),
            None => None,
        }
    }

    /// Proves that some events lead from a new world to this one.
    pub fn reached(&self)
        ensures { IsReached (world_of self.now) }
    {
        let _version = self.version;
    }

    /// Applies an event: returns the reply, and the place of the frame that was made, if any. If memory runs out,
    /// changes nothing. An event of the guest takes no memory, nor does a command that is refused or the delivery of a
    /// frame that was never sent.
    #[tactic(auto, using(crate::proofs::NeverMoving::never_moved))]
    pub fn apply(&mut self, alloc: Global, event: &Event) -> Result<WorldReply, AllocError>
        ensures reply { IfOk result (λ r. reply_of r.reply
            ≡ reply_to board (world_of self.old) (meant event.now)) }
        ensures next { OnOk result (world_of self.new ≡ step board (world_of self.old) (meant event.now)) }
        ensures place { IfOk result (λ r. r.frame
            ≡ place_of (length self.old.sent) (length self.new.sent)) }
        // The guest never moved.
        ensures never_moved { NeverMoved (world_of self.old) (world_of self.new) }
        ensures err { OnErr result (self.new ≡ self.old) }
        ensures memory { OnErr result (asks_memory (meant event.now) ≡ true) }
        ensures refused { OnErr result (IsHeeded (world_of self.old) (meant event.now)) }
    {
        self.reached();
        match event {
            Event::At(host, command) => self.at(alloc, *host, command),
            Event::Deliver(place) => self.deliver(alloc, *place),
        }
    }

    /// Makes at most `count` consecutive turns of a hart if the guest runs at this host; else none. They are the first
    /// of any number of steps above `count`.
    pub(crate) fn turns(&mut self, host: u8, hart: u32, count: u32) -> Turns
        ensures { AreFirst host hart count (world_of self.old) (world_of self.new) result.made result.stop }
    {
        if host as usize >= self.hosts.len() {
            return Turns {
                made: 0,
                stop: None,
            };
        }
        self.hosts[host as usize].turns(hart, count)
    }

    /// Gives a host a command, as `apply` does.
    fn at(&mut self, alloc: Global, host: u8, command: &Command) -> Result<WorldReply, AllocError>
        ensures reply { IfOk result (λ r. reply_of r.reply
            ≡ reply_to board (world_of self.old) (protocol.At host (command_of command.now))) }
        ensures next { OnOk result (world_of self.new
            ≡ step board (world_of self.old) (protocol.At host (command_of command.now))) }
        ensures place { IfOk result (λ r. r.frame
            ≡ place_of (length self.old.sent) (length self.new.sent)) }
        ensures err { OnErr result (self.new ≡ self.old) }
        ensures memory { OnErr result (asks_memory (protocol.At host (command_of command.now)) ≡ true) }
        ensures refused { OnErr result
            (IsHeeded (world_of self.old) (protocol.At host (command_of command.now))) }
    {
        if host as usize >= self.hosts.len() {
            return Ok(refused(HostRefusal::BadHost));
        }
        let bound = self.hosts[host as usize].command_bound(command);
        let bytes = make_room(alloc, &mut self.sent, bound)?;
        let host = &mut self.hosts[host as usize];
        let (reply, frame) = host.obey(alloc, command)?;
        let frame = post(self.version, &mut self.sent, frame, bytes);
        Ok(WorldReply { reply, frame })
    }

    /// Delivers the frame that was sent at this place to its host, as `apply` does.
    fn deliver(&mut self, alloc: Global, place: u64) -> Result<WorldReply, AllocError>
        ensures reply { IfOk result (λ r. reply_of r.reply
            ≡ reply_to board (world_of self.old) (protocol.Deliver place)) }
        ensures next { OnOk result (world_of self.new
            ≡ step board (world_of self.old) (protocol.Deliver place)) }
        ensures place { IfOk result (λ r. r.frame
            ≡ place_of (length self.old.sent) (length self.new.sent)) }
        ensures err { OnErr result (self.new ≡ self.old) }
        ensures refused { OnErr result (IsHeeded (world_of self.old) (protocol.Deliver place)) }
    {
        if place >= self.sent.len() as u64 {
            return Ok(refused(HostRefusal::NoFrame));
        }
        let sent = &self.sent[place as usize];
        let from = sent.sender();
        let to = sent.receiver();
        let frame = sent.read(alloc, self.version)?;
        let bound = self.hosts[to as usize].came_bound(&frame);
        let bytes = make_room(alloc, &mut self.sent, bound)?;
        let host = &mut self.hosts[to as usize];
        let (reply, made) = host.came(alloc, from, &frame)?;
        self.current = current_after(&reply, from, self.current);
        let frame = post(self.version, &mut self.sent, made, bytes);
        Ok(WorldReply { reply, frame })
    }
}

/// The host that has the guest after this reply to a frame from host `from`.
fn current_after(reply: &HostReply, from: u8, current: u8) -> u8
    ensures { (frame : BoardFrame) → result ≡ current_after (Came from frame) (reply_of reply.now) current }
{
    match reply {
        HostReply::Committed(_) => from,
        _ => current,
    }
}

/// The reply to an event that is refused, which makes no frame.
fn refused(why: HostRefusal) -> WorldReply
    ensures reply { result.reply ≡ HostReply.Refused why }
    ensures frame { result.frame ≡ None }
{
    WorldReply {
        reply: HostReply::Refused(why),
        frame: None,
    }
}
