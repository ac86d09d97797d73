//! A host.

ghost use Rattle.std.specs.Prelude.{◌≡◌, ◌↔◌, ◌<◌, ◌≤◌, ℕ, true, false, IfOk, IfErr, IfSome, IsErr, OnErr, None, option_map};
ghost use Rattle.rvm_board.specs.Guest.{GuestState};
ghost use Rattle.rvm_board.specs.declared.event.BoardEvent.{BoardEvent};
ghost use Rattle.rvm_message.specs.Events.{command_of, event_of};
ghost use Rattle.rvm_message.specs.Exchanges.{dry_exchange, step_of_hart};
ghost use Rattle.rvm_message.specs.Replies.{is_refused_outright};
ghost use Rattle.rvm_message.specs.Steps.{reply_to_step};
ghost use Rattle.rvm_message.specs.Frames.{BoardFrame, addressed_made, frame_heard, frame_made};
ghost use Rattle.rvm_precopy.specs.Policies.{policy_of};
ghost use Rattle.rvm_guest.specs.TheGuest.{board};
ghost use Rattle.rvm_protocol.specs.Commands as commands;
ghost use Rattle.rvm_protocol.specs.Frames.{plain, posted};
ghost use Rattle.rvm_protocol.specs.Host.{is_heard, is_offer_above, is_there};
ghost use Rattle.rvm_protocol.specs.Modes.{guest_in};
ghost use Rattle.rvm_host.specs.Bounds.{CanBePosted, addressed, frame_bound};
ghost use Rattle.rvm_host.specs.Hosts.{Steps, host_of, is_sized, new_host, partner_of, step_of, version_of};
ghost use Rattle.rvm_host.specs.Looks.{asked_guest, reply_by};
ghost use Rattle.rvm_host.specs.Memory.{asks_memory, needs_memory, takes_memory};
ghost use Rattle.rvm_host.specs.Retiring.{HostRetires};
ghost use Rattle.rvm_host.specs.Statuses.{harts_of, status_of};
ghost use Rattle.rvm_host.specs.Turns.{HasLog, turned};
ghost use Rattle.rvm_source.specs.Looks.{IsLook};

use crate::bound::{came_body, with_header};
use crate::limits::{BadSize, is_spoken, version_of};
use crate::mode::Mode;
use crate::status::HostStatus;
use rvm_board::{Debugged, Retired, Snapshot, Turns};
use rvm_frame::{Addressed, Frame};
use rvm_mem::PagedMemory;
use rvm_message::{Command, HostEvent, HostRefusal, HostReply, StepReply, can_come};
use rvm_precopy::Policy;
use std::alloc::{AllocError, Global};
use std::marker::Model;

/// A host: a place at which a guest runs, arrives or leaves. It has a number, from 0, among the two to eight hosts of
/// its world.
#[derive(Drop)]
pub struct Host<M: PagedMemory> {
    mode: Mode<M>,
    /// The other party of the highest move that this host has begun or staged; at first the host itself.
    partner: u8,
    id: u8,
    count: u8,
    /// The most pages of a guest that this host takes.
    limit: u16,
    /// The version of its streams.
    version: u32,
}

impl<M: PagedMemory> Model for Host<M> {
    ghost use Rattle.rvm_host.specs.Hosts.{PlainHost};

    ghost Value = { PlainHost };

    // They come after `Value`, since they read a type of this crate.
    ghost use Rattle.rvm_host.specs.Bounds.{IsHost};
    ghost use Rattle.rvm_host.specs.Modes.{plain_of};

    ghost view = { λ h. record {
      mode = plain_of h.mode;
      partner = h.partner;
      id = h.id;
      count = h.count;
      limit = h.limit;
      version = h.version;
    } };

    ghost invariant = { λ h. IsHost (record {
      mode = plain_of h.mode;
      partner = h.partner;
      id = h.id;
      count = h.count;
      limit = h.limit;
      version = h.version;
    }) };
}

impl<M: PagedMemory + Drop> Host<M> {
    /// Makes a host with number `id` among `count` hosts, which has this guest or none, takes guests of at most
    /// `limit` pages and speaks this version of the stream. Fails with `BadSize`, and hands the guest back, if
    /// `count` is not 2 to 8, `id` is not below it, `limit` is not 1 to 4096, or this many hosts cannot speak this
    /// version: two hosts speak 1, 2 or 3, and more than two speak 3.
    pub fn with_version(
        guest: Option<Debugged<M>>,
        id: u8,
        count: u8,
        limit: u16,
        version: u32,
    ) -> Result<Host<M>, (BadSize, Option<Debugged<M>>)>
        ensures host { IfOk result (λ h. h ≡ new_host guest id count limit version) }
        ensures size { IsErr result ↔ (is_sized id count limit version ≡ false) }
        ensures guest { IfErr result (λ e. e.1 ≡ guest) }
    {
        if !is_sized(id, count, limit, version) {
            return Err((BadSize, guest));
        }
        let mode = match guest {
            Some(guest) => Mode::Run {
                move_number: 0,
                guest,
            },
            None => Mode::Empty { move_number: 0 },
        };
        Ok(Host {
            mode,
            partner: id,
            id,
            count,
            limit,
            version,
        })
    }

    /// Makes a host as `with_version` does, which speaks version 1 of the stream if there are two hosts, and else
    /// version 3. Fails with `BadSize`, and hands the guest back, as `with_version` does.
    pub fn new(
        guest: Option<Debugged<M>>,
        id: u8,
        count: u8,
        limit: u16,
    ) -> Result<Host<M>, (BadSize, Option<Debugged<M>>)>
        ensures host { IfOk result (λ h. h ≡ new_host guest id count limit (version_of count)) }
        ensures size { IsErr result ↔ (is_sized id count limit (version_of count) ≡ false) }
        ensures guest { IfErr result (λ e. e.1 ≡ guest) }
    {
        Host::with_version(guest, id, count, limit, version_of(count as usize))
    }

    /// Applies an event: returns the reply, and the frame that the host made, if any. If memory runs out, changes
    /// nothing. Only Begin, Copy, Resend and the frames Offer, Lost, State and Part take memory, and none of these does
    /// if it is refused, except a State or a Part that is refused since the state is bad.
    pub fn apply(
        &mut self,
        alloc: Global,
        event: &HostEvent,
    ) -> Result<(HostReply, Option<Addressed>), AllocError>
        ensures steps { IfOk result (λ a. Steps self.old (event_of event.now) a self.new) }
        ensures err { OnErr result (self.new ≡ self.old) }
        ensures memory { OnErr result (needs_memory (event_of event.now) ≡ true) }
        ensures refused { OnErr result
            (is_refused_outright (step_of self.old (event_of event.now)).reply ≡ false) }
        ensures sent { IfOk result (λ a. CanBePosted self.old
            (frame_bound self.old (event_of event.now)) a.1) }
    {
        match event {
            HostEvent::Do(command) => self.obey(alloc, command),
            HostEvent::Came(from, frame) => self.came(alloc, *from, frame.get()),
        }
    }

    /// Applies a command, as `apply` does.
    pub fn obey(
        &mut self,
        alloc: Global,
        command: &Command,
    ) -> Result<(HostReply, Option<Addressed>), AllocError>
        ensures steps { IfOk result (λ a. Steps self.old (commands.Do (command_of command.now))
            a self.new) }
        ensures err { OnErr result (self.new ≡ self.old) }
        ensures memory { OnErr result (asks_memory (command_of command.now) ≡ true) }
        ensures refused { OnErr result (is_refused_outright (step_of self.old
            (commands.Do (command_of command.now))).reply ≡ false) }
        ensures sent { IfOk result (λ a. CanBePosted self.old
            (frame_bound self.old (commands.Do (command_of command.now))) a.1) }
    {
        if let Command::Begin { to, policy } = command {
            return self.begin(alloc, *to, *policy);
        }
        let _body = self.mode.command_body(self.version, command);
        let (reply, frame) = self.mode.obey(alloc, self.version, command)?;
        Ok((reply, addressed(self.id, self.partner, frame)))
    }

    /// Applies the event of a step of a hart, as `apply` does, and returns a reply of a few bytes. Takes no memory.
    pub fn step(&mut self, hart: u32) -> StepReply
        ensures { Steps self.old (event_of (step_of_hart hart)) (reply_to_step result, None) self.new }
    {
        self.mode.step(hart)
    }

    /// Whether the guest runs here and a drain of at most `count` bytes, up to 256, finds none. If so, the drain
    /// changes nothing.
    pub fn finds_nothing(&self, count: u32) -> bool
        ensures { result ≡ true → Steps self.now (event_of (dry_exchange count).event)
            ((dry_exchange count).reply, None) self.now }
    {
        self.mode.finds_nothing(count)
    }

    /// Makes at most `count` consecutive turns of a hart, as `Debugged::turns` does; none unless the guest runs
    /// here and has such a hart. Takes no memory.
    pub fn turns(&mut self, hart: u32, count: u32) -> Turns
        ensures host { self.new ≡ record self.old { mode = (turned hart count self.old.mode).mode } }
        ensures made { result.made ≡ (turned hart count self.old.mode).made }
        ensures stop { result.stop ≡ (turned hart count self.old.mode).stop }
        ensures log { HasLog self.old.mode }
    {
        self.mode.turns(hart, count)
    }

    /// Makes at most `count` steps of the guest's `harts` harts in turn, from turn `turn` on, up to the first that does
    /// not retire an instruction. May make none. Takes no memory.
    pub fn retire(&mut self, turn: u64, harts: u32, count: u32) -> Retired
        ensures { HostRetires harts turn count self.old self.new result }
    {
        self.mode.retire(turn, harts, count)
    }

    /// Begins a move to host `to`.
    fn begin(
        &mut self,
        alloc: Global,
        to: u8,
        policy: Policy,
    ) -> Result<(HostReply, Option<Addressed>), AllocError>
        ensures steps { IfOk result (λ a. Steps self.old
            (commands.Do (commands.Begin to (policy_of policy))) a self.new) }
        ensures err { OnErr result (self.new ≡ self.old) }
        ensures refused { OnErr result (is_refused_outright (step_of self.old
            (commands.Do (commands.Begin to (policy_of policy)))).reply ≡ false) }
        ensures sent { IfOk result (λ a. CanBePosted self.old
            (frame_bound self.old (commands.Do (commands.Begin to (policy_of policy)))) a.1) }
    {
        if self.mode.runs() && !self.is_there(to) {
            return Ok((HostReply::Refused(HostRefusal::BadHost), None));
        }
        let (reply, frame) = self.mode.begin(alloc, policy)?;
        self.partner = partner_begun(self.partner, to, &reply);
        Ok((reply, addressed(self.id, self.partner, frame)))
    }

    /// Applies a frame that comes from host `from`, as `apply` does.
    pub fn came(
        &mut self,
        alloc: Global,
        from: u8,
        frame: &Frame,
    ) -> Result<(HostReply, Option<Addressed>), AllocError>
        ensures steps { IfOk result (λ a. Steps self.old
            (commands.Came from (frame_heard frame.now)) a self.new) }
        ensures err { OnErr result (self.new ≡ self.old) }
        ensures memory { OnErr result (takes_memory (frame_heard frame.now) ≡ true) }
        ensures refused { OnErr result (is_refused_outright (step_of self.old
            (commands.Came from (frame_heard frame.now))).reply ≡ false) }
        ensures sent { IfOk result (λ a. CanBePosted self.old
            (frame_bound self.old (commands.Came from (frame_heard frame.now))) a.1) }
    {
        if !self.hears(from, frame) {
            return Ok((HostReply::Refused(HostRefusal::Ignored), None));
        }
        let (reply, made) = self.mode.came(alloc, self.limit, frame)?;
        self.partner = partner_accepted(self.partner, from, &reply);
        Ok((reply, addressed(self.id, from, made)))
    }

    /// Returns the most bytes of the frame that an event may make. If this is 0, the event makes none; if it is more,
    /// the event may still make none.
    pub fn frame_bound(&self, event: &HostEvent) -> usize
        ensures { result ≡ frame_bound self.now (event_of event.now) }
    {
        match event {
            HostEvent::Do(command) => self.command_bound(command),
            HostEvent::Came(_, frame) => self.came_bound(frame.get()),
        }
    }

    /// Whether a command would be refused. Takes no memory.
    pub fn refuses(&self, command: &Command) -> bool
        ensures { result ≡ is_refused_outright (step_of self.now (commands.Do (command_of command.now))).reply }
    {
        if let Command::Begin { to, policy } = command {
            return self.refuses_begin(*to, *policy);
        }
        self.mode.refuses(command)
    }

    /// Whether a Begin to host `to` would be refused.
    #[tactic(auto, using(crate::proofs::Refused::begin_refused))]
    fn refuses_begin(&self, to: u8, policy: Policy) -> bool
        ensures { result ≡ is_refused_outright
            (step_of self.now (commands.Do (commands.Begin to (policy_of policy)))).reply }
    {
        (self.mode.runs() && !self.is_there(to)) || self.mode.refuses_begin(policy)
    }

    /// Returns the most bytes of the frame that a command may make, as `frame_bound` does; 0 if it would be refused.
    pub fn command_bound(&self, command: &Command) -> usize
        ensures { result ≡ frame_bound self.now (commands.Do (command_of command.now)) }
    {
        if self.refuses(command) {
            return 0;
        }
        with_header(self.version, self.mode.command_body(self.version, command))
    }

    /// Returns the most bytes of the frame that may answer one that comes, as `frame_bound` does.
    pub fn came_bound(&self, frame: &Frame) -> usize
        ensures { (from : ℕ) → result
            ≡ frame_bound self.now (commands.Came from (frame_heard frame.now)) }
    {
        with_header(self.version, came_body(frame))
    }

    /// Whether this is the number of another host of the world.
    fn is_there(&self, host: u8) -> bool
        ensures { result ≡ is_there self.now.id self.now.count host }
    {
        host < self.count && host != self.id
    }

    /// Whether the host hears a frame: it comes from its partner, or it is another host's offer of a move above all
    /// that this host has begun or staged.
    fn hears(&self, from: u8, frame: &Frame) -> bool
        ensures { result ≡ is_heard self.now.id self.now.count from
            (plain board (frame_heard frame.now)) (host_of self.now) }
    {
        self.is_there(from)
            && (from == self.partner || is_offer_above(self.mode.move_number(), frame))
    }

    /// Returns the status: the kind of the host's mode, the highest number of a move that the host has begun or
    /// staged, and its partner.
    pub fn status(&self) -> HostStatus
        ensures { result ≡ status_of self.now }
    {
        HostStatus {
            kind: self.mode.kind(),
            move_number: self.mode.move_number(),
            partner: self.partner,
        }
    }

    /// Returns the number of harts of the guest that runs at this host or leaves it, 1 to 8; None if there is no such
    /// guest.
    pub fn harts(&self) -> Option<u32>
        ensures count { result ≡ harts_of self.now.mode }
        ensures bound { IfSome result (λ n. (0 < n) × (n ≤ 8)) }
    {
        self.mode.harts()
    }

    /// Returns all that the guest keeps beside its RAM, if the guest runs here, also while it is offered or copied to
    /// another host. Else refuses: with `Paused` if the guest is paused here, and with `NotHere` if it is not here. So
    /// it is refused where each event of the guest is, and with the same refusal. Takes no memory.
    #[tactic(auto, using(crate::proofs::Looks::replied))]
    pub fn snapshot(&self) -> Result<Snapshot, HostRefusal>
        ensures look { IsLook (asked_guest self.now.mode) result }
        ensures events { (event : BoardEvent) → (step_of self.now (commands.Do (commands.Board event))).reply
            ≡ reply_by (asked_guest self.now.mode) event }
    {
        self.mode.snapshot()
    }

    /// Ends the host. Returns the whole guest, if it is here: whether it runs, leaves, or waits for the source to commit.
    pub fn into_guest(self) -> Option<Debugged<M>>
        ensures { option_map (λ (g : GuestState). g.guest) result ≡ guest_in (host_of self).mode }
    {
        self.mode.into_guest()
    }

    /// Returns the version of the host's streams, 1 to 3.
    pub fn version(&self) -> u32
        ensures { result ≡ self.now.version }
    {
        self.version
    }
}

/// Whether a frame offers a move above this one.
fn is_offer_above(move_number: u64, frame: &Frame) -> bool
    ensures { result ≡ is_offer_above move_number (plain board (frame_heard frame.now)) }
{
    match frame {
        Frame::Offer {
            move_number: offered,
            ..
        } => can_come(frame) && move_number < *offered,
        _ => false,
    }
}

/// Whether the numbers of a host are within their limits.
fn is_sized(id: u8, count: u8, limit: u16, version: u32) -> bool
    ensures { result ≡ is_sized id count limit version }
{
    is_spoken(version, count as usize) && id < count && 1 <= limit && limit <= 4096
}

/// The partner after the reply to a command that begins a move to host `to`.
fn partner_begun(partner: u8, to: u8, reply: &HostReply) -> u8
    ensures { (policy : commands.Policy) → result
        ≡ partner_of (commands.Do (commands.Begin to policy)) reply.now partner }
{
    match reply {
        HostReply::Begun(_) => to,
        _ => partner,
    }
}

/// The partner after the reply to a frame from host `from`.
fn partner_accepted(partner: u8, from: u8, reply: &HostReply) -> u8
    ensures { (frame : BoardFrame) → result ≡ partner_of (commands.Came from frame) reply.now partner }
{
    match reply {
        HostReply::Accepted => from,
        _ => partner,
    }
}

/// A frame, if there is one, with the hosts between which it goes.
fn addressed(from: u8, to: u8, frame: Option<Frame>) -> Option<Addressed>
    ensures made { addressed_made result ≡ posted from to (frame_made frame) }
    ensures frame { result ≡ addressed from to frame }
{
    match frame {
        Some(frame) => Some(Addressed { from, to, frame }),
        None => None,
    }
}
