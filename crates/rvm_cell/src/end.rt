//! How workers end.

ghost use Rattle.std.specs.Prelude.{◌≡◌};
ghost use Rattle.rvm_cell.specs.Ends.{is_short_of_room, of_frame, of_record, of_send, of_slice};

use rvm_frame::FrameFault;
use rvm_link::SendError;
use rvm_recorder::{ReceiptItem, RecordError, Seat, Seating, SliceError};
use thiserror::Error;

/// How a worker ended.
#[derive(Clone, Copy, Debug, PartialEq, Eq, Error)]
pub enum WorkEnd {
    /// Nothing is left to be done.
    #[error("nothing is left to be done")]
    Done,
    /// The stream that a receiver hears ended between two frames.
    #[error("the stream ended between two frames")]
    LinkEnded,
    /// The move was given up before the guest was.
    #[error("the move was given up")]
    GivenUp,
    /// The gate let no further call pass.
    #[error("the gate let no further call pass")]
    Stopped,
    /// Both hosts refused a turn or a drain of the guest for as long as the worker waits.
    #[error("guest stopped between hosts")]
    GuestStopped,
    /// The system started no thread for the workers at the other host.
    #[error("no thread was had for the workers at the other host")]
    NoThread,
    /// Memory ran out.
    #[error("out of memory")]
    OutOfMemory,
    /// A journal is full.
    #[error("the journal takes no more than {0} entries")]
    RecorderFull(u32),
    /// A slice was asked for whose steps are not 1 to 64, or whose harts are not 1 to 8.
    #[error("a slice has 1 to 64 steps of 1 to 8 harts")]
    OutOfRange,
    /// A link or the writer failed.
    #[error("a read, a write or a link failed")]
    LinkFault,
    /// The next bytes of the stream are no frame that may stand there, a frame names other hosts, or a frame has no
    /// encoding.
    #[error("no frame that may stand there")]
    BadFrame,
    /// The body of a frame is longer than the stream allows.
    #[error("the body is longer than a frame of the stream may have")]
    TooLong,
    /// The stream was refused before.
    #[error("the stream was refused before")]
    Failed,
}

impl WorkEnd {
    /// Whether memory ran out or a journal is full.
    pub(crate) fn is_short_of_room(self) -> bool
        ensures { result ≡ is_short_of_room self }
    {
        matches!(self, WorkEnd::OutOfMemory | WorkEnd::RecorderFull(_))
    }
}

impl From<RecordError> for WorkEnd {
    ghost from_gives = { λ why end. end ≡ of_record why };

    fn from(why: RecordError) -> WorkEnd {
        match why {
            RecordError::OutOfMemory => WorkEnd::OutOfMemory,
            RecordError::RecorderFull(capacity) => WorkEnd::RecorderFull(capacity),
        }
    }
}

impl From<SliceError> for WorkEnd {
    ghost from_gives = { λ why end. end ≡ of_slice why };

    fn from(why: SliceError) -> WorkEnd {
        match why {
            SliceError::OutOfRange => WorkEnd::OutOfRange,
            SliceError::OutOfMemory => WorkEnd::OutOfMemory,
            SliceError::RecorderFull(capacity) => WorkEnd::RecorderFull(capacity),
        }
    }
}

impl From<FrameFault> for WorkEnd {
    ghost from_gives = { λ why end. end ≡ of_frame why };

    fn from(why: FrameFault) -> WorkEnd {
        match why {
            FrameFault::OutOfMemory => WorkEnd::OutOfMemory,
            FrameFault::BadFrame => WorkEnd::BadFrame,
            FrameFault::TooLong => WorkEnd::TooLong,
            FrameFault::Failed => WorkEnd::Failed,
        }
    }
}

impl From<SendError> for WorkEnd {
    ghost from_gives = { λ why end. end ≡ of_send why };

    fn from(why: SendError) -> WorkEnd {
        match why {
            SendError::OutOfMemory => WorkEnd::OutOfMemory,
            SendError::LinkFault => WorkEnd::LinkFault,
            SendError::BadFrame => WorkEnd::BadFrame,
        }
    }
}

/// What a copier or a receiver gives back: its seat at one host, the receipts of its calls in order, and how it ended.
#[derive(Drop)]
pub struct Worked<L: Seating> {
    pub seat: Seat<L>,
    pub receipts: Vec<ReceiptItem>,
    pub end: WorkEnd,
}
