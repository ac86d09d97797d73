//! Why no guest was made when its state came.

ghost use Rattle.std.specs.Prelude.{◌≡◌};
ghost use Rattle.rvm_handover.specs.Outcomes.{reason_of};

use rvm_frame::PageNumbers;
use rvm_state::StateFault;
use thiserror::Error;

/// Why no guest was made when its state came.
#[derive(Debug, Drop, Error)]
pub enum NotReady {
    /// These pages, in rising order, have no copy here or an older one than the state names.
    #[error("copies of pages are lacking")]
    Lacking(PageNumbers),
    /// The state does not name one copy for each page, or its bytes make no guest of the pages and harts that were
    /// offered.
    #[error("the state does not fit what was offered, or spells no guest")]
    BadState,
    /// Memory ran out.
    #[error("out of memory")]
    OutOfMemory,
}

impl NotReady {
    /// The reason for this fault of reading a state.
    pub(crate) fn from_fault(fault: StateFault) -> NotReady
        ensures { result ≡ reason_of fault }
    {
        match fault {
            StateFault::BadState => NotReady::BadState,
            StateFault::OutOfMemory => NotReady::OutOfMemory,
        }
    }
}
