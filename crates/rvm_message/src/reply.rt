//! The replies of a host.

ghost use Rattle.std.specs.Prelude.{◌≡◌, None, Some};
ghost use Rattle.rvm_message.specs.Refusals.{numbered};
ghost use Rattle.rvm_message.specs.Replies.{ends_steps, reply_of};

use rvm_board::BoardReply;
use rvm_frame::Frame;
use rvm_refusal::Refusal;
use thiserror::Error;

/// Why a host refused an event; a refusal changes nothing.
#[derive(Clone, Copy, Debug, PartialEq, Eq, Error)]
pub enum HostRefusal {
    /// The policy is out of its limits.
    #[error("the policy is out of its limits")]
    BadSize,
    /// The state does not fit its offer, or no guest has it.
    #[error("the state does not fit its offer, or no guest has it")]
    BadState,
    /// No copy number is left in this move.
    #[error("no copy number is left in this move")]
    SeqSpent,
    /// No guest is here.
    #[error("no guest is here")]
    NotHere,
    /// The guest is paused here.
    #[error("the guest is paused here")]
    Paused,
    /// A move is going on.
    #[error("a move is going on")]
    Busy,
    /// No move is going on that could do this.
    #[error("no move is going on that could do this")]
    NoMove,
    /// No move number is left.
    #[error("no move number is left")]
    EpochsSpent,
    /// This host does not wait for such a frame.
    #[error("this host does not wait for such a frame")]
    Ignored,
    /// No such frame was sent.
    #[error("no such frame was sent")]
    NoFrame,
    /// There is no such other host.
    #[error("there is no such other host")]
    BadHost,
}

impl From<HostRefusal> for Refusal {
    ghost from_gives = { λ why told. told ≡ numbered why };

    fn from(why: HostRefusal) -> Refusal {
        match why {
            HostRefusal::BadSize => Refusal::BadSize,
            HostRefusal::BadState => Refusal::BadState,
            HostRefusal::SeqSpent => Refusal::SeqSpent,
            HostRefusal::NotHere => Refusal::NotHere,
            HostRefusal::Paused => Refusal::Paused,
            HostRefusal::Busy => Refusal::Busy,
            HostRefusal::NoMove => Refusal::NoMove,
            HostRefusal::EpochsSpent => Refusal::EpochsSpent,
            HostRefusal::Ignored => Refusal::Ignored,
            HostRefusal::NoFrame => Refusal::NoFrame,
            HostRefusal::BadHost => Refusal::BadHost,
        }
    }
}

/// The reply of a host to an event.
#[derive(Drop, PartialEq, Eq)]
pub enum HostReply {
    /// The guest's answer to an event of its own.
    Board(BoardReply),
    /// The move with this number begins.
    Begun(u64),
    /// A page was copied; the copy has this number.
    Copied {
        page: u16,
        copy_number: u32,
    },
    /// A round is over: its number, the number of pages that it copied, the number that it skipped because they were
    /// written again, and the number in the dirty log.
    RoundEnded {
        round: u16,
        sent: u16,
        skipped: u16,
        left: u16,
    },
    /// Pre-copy is over, and the guest is paused.
    Stopping,
    /// The state was sent.
    StateSent,
    /// A piece of the state was sent: its index, from 0, and the number of pieces.
    PartSent {
        part: u8,
        parts: u8,
    },
    /// The frame that the other host may not have heard was sent again.
    Resent,
    /// The move was given up, and the guest runs on here.
    Aborted,
    /// The target takes the guest, and the first round begins.
    Open,
    /// The target declined the move, since it takes at most this many pages; the guest runs on here.
    MoveDeclined(u16),
    /// This many pages, which the target lacks, will be copied again.
    Fixing(u16),
    /// The target of the move with this number has the guest, which is given up here.
    Committed(u64),
    /// The guest runs at the target.
    Finished,
    /// The offer is accepted.
    Accepted,
    /// The offer is declined: this host takes at most this many pages.
    Declined(u16),
    /// A copy of a page was stored; the copy has this number.
    Stored {
        page: u16,
        copy_number: u32,
    },
    /// The end of a round was noted.
    Noted,
    /// A piece of a state is kept: its index, from 0, and the number of pieces.
    Kept {
        part: u8,
        parts: u8,
    },
    /// Copies of this many pages are missing, and the source is told which.
    Lacking(u16),
    /// The whole guest is here, and waits for the commit.
    ReadySent,
    /// The guest runs here.
    Started,
    /// What was staged or held here is dropped.
    Dropped,
    /// The event was refused.
    Refused(HostRefusal),
}

/// A reply, and the frame that the host made, if any.
pub type Answer = (HostReply, Option<Frame>);

impl HostReply {
    /// Returns a copy of this reply. Takes no memory.
    pub fn copy(&self) -> HostReply
        ensures { result ≡ self.now }
    {
        match self {
            HostReply::Board(answer) => HostReply::Board(answer.copy()),
            HostReply::Begun(move_number) => HostReply::Begun(*move_number),
            HostReply::Copied { page, copy_number } => HostReply::Copied {
                page: *page,
                copy_number: *copy_number,
            },
            HostReply::RoundEnded {
                round,
                sent,
                skipped,
                left,
            } => HostReply::RoundEnded {
                round: *round,
                sent: *sent,
                skipped: *skipped,
                left: *left,
            },
            HostReply::Stopping => HostReply::Stopping,
            HostReply::StateSent => HostReply::StateSent,
            HostReply::PartSent { part, parts } => HostReply::PartSent {
                part: *part,
                parts: *parts,
            },
            HostReply::Resent => HostReply::Resent,
            HostReply::Aborted => HostReply::Aborted,
            HostReply::Open => HostReply::Open,
            HostReply::MoveDeclined(limit) => HostReply::MoveDeclined(*limit),
            HostReply::Fixing(count) => HostReply::Fixing(*count),
            HostReply::Committed(move_number) => HostReply::Committed(*move_number),
            HostReply::Finished => HostReply::Finished,
            HostReply::Accepted => HostReply::Accepted,
            HostReply::Declined(limit) => HostReply::Declined(*limit),
            HostReply::Stored { page, copy_number } => HostReply::Stored {
                page: *page,
                copy_number: *copy_number,
            },
            HostReply::Noted => HostReply::Noted,
            HostReply::Kept { part, parts } => HostReply::Kept {
                part: *part,
                parts: *parts,
            },
            HostReply::Lacking(count) => HostReply::Lacking(*count),
            HostReply::ReadySent => HostReply::ReadySent,
            HostReply::Started => HostReply::Started,
            HostReply::Dropped => HostReply::Dropped,
            HostReply::Refused(why) => HostReply::Refused(*why),
        }
    }

    /// Makes the answer that is this refusal, without a frame.
    pub fn refused(why: HostRefusal) -> Answer
        ensures reply { result.0 ≡ HostReply.Refused why }
        ensures frame { result.1 ≡ None }
    {
        (HostReply::Refused(why), None)
    }

    /// Makes the answer that is this reply, without a frame.
    pub fn alone(self) -> Answer
        ensures reply { result.0 ≡ self }
        ensures frame { result.1 ≡ None }
    {
        (self, None)
    }

    /// Whether consecutive steps end with the step that has this reply.
    pub fn ends_steps(&self) -> bool
        ensures { result ≡ ends_steps (reply_of self.now) }
    {
        match self {
            HostReply::Board(answer) => answer.ends_steps(),
            _ => true,
        }
    }

    /// Makes the answer that is this reply and a frame.
    pub fn with(self, frame: Frame) -> Answer
        ensures reply { result.0 ≡ self }
        ensures frame { result.1 ≡ Some frame }
    {
        (self, Some(frame))
    }
}
