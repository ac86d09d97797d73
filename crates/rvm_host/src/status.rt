//! The status of a host, and looks at its guest.

ghost use Rattle.std.specs.Prelude.{◌≡◌, ◌≤◌, ◌<◌, IfSome};
ghost use Rattle.rvm_host.specs.Looks.{asked_guest};
ghost use Rattle.rvm_host.specs.Modes.{plain_of};
ghost use Rattle.rvm_host.specs.Statuses.{harts_of, kind_of, phase_kind};
ghost use Rattle.rvm_source.specs.Looks.{IsLook};

use crate::mode::Mode;
use rvm_board::Snapshot;
use rvm_mem::PagedMemory;
use rvm_message::HostRefusal;
use rvm_source::Phase;

/// The kind of a host's mode. If the host is the source of a move, it tells the move's phase.
#[derive(Clone, Copy, Debug, PartialEq, Eq)]
pub enum ModeKind {
    /// There is no guest.
    Empty,
    /// The guest runs, and no move is going on.
    Running,
    /// The guest runs, and another host was asked to take it.
    Offering,
    /// The guest runs, and its pages are being copied to another host.
    Copying,
    /// The guest is paused, and what is left of it is being sent to another host.
    Stopped,
    /// The guest was given to another host, and a copy of it is kept until that host has started it.
    Given,
    /// The pages of another host's guest are arriving.
    Staging,
    /// The whole guest of another host waits here until that host commits.
    Held,
}

/// The status of a host: the kind of its mode, the highest number of a move that it has begun or staged, and the host
/// that this move was with, at first the host itself.
#[derive(Clone, Copy, Debug, PartialEq, Eq)]
pub struct HostStatus {
    pub kind: ModeKind,
    pub move_number: u64,
    pub partner: u8,
}

impl<M: PagedMemory + Drop> Mode<M> {
    /// The kind of this mode.
    pub(crate) fn kind(&self) -> ModeKind
        ensures { result ≡ kind_of (plain_of self.now) }
    {
        match self {
            Mode::Empty { .. } => ModeKind::Empty,
            Mode::Run { .. } => ModeKind::Running,
            Mode::Leaving(source) => phase_kind(source.phase()),
            Mode::Given { .. } => ModeKind::Given,
            Mode::Staging { .. } => ModeKind::Staging,
            Mode::Held { .. } => ModeKind::Held,
        }
    }

    /// The number of harts of the guest that runs at the host or leaves it, 1 to 8; None if there is no such guest.
    pub(crate) fn harts(&self) -> Option<u32>
        ensures count { result ≡ harts_of (plain_of self.now) }
        ensures bound { IfSome result (λ n. (0 < n) × (n ≤ 8)) }
    {
        match self {
            Mode::Run { guest, .. } => Some(guest.harts()),
            Mode::Leaving(source) => Some(source.harts()),
            _ => None,
        }
    }

    /// All that the guest keeps beside its RAM, or why it is given no events.
    pub(crate) fn snapshot(&self) -> Result<Snapshot, HostRefusal>
        ensures { IsLook (asked_guest (plain_of self.now)) result }
    {
        match self {
            Mode::Run { guest, .. } => Ok(guest.snapshot()),
            Mode::Leaving(source) => source.snapshot(),
            Mode::Held { .. } => Err(HostRefusal::Paused),
            Mode::Empty { .. } | Mode::Given { .. } | Mode::Staging { .. } => Err(
                HostRefusal::NotHere,
            ),
        }
    }
}

/// The kind of the mode of a source in this phase.
fn phase_kind(phase: Phase) -> ModeKind
    ensures { result ≡ phase_kind phase }
{
    match phase {
        Phase::Offering => ModeKind::Offering,
        Phase::Copying => ModeKind::Copying,
        Phase::Stopped { .. } => ModeKind::Stopped,
    }
}
