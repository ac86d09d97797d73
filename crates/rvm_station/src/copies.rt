//! Copies of pages under one hold of the lock.

ghost use Rattle.std.specs.Prelude.{IfOk};
ghost use Rattle.rvm_station.specs.Events.{IsAnswer};
ghost use Rattle.rvm_message.specs.declared.event.Command.TheVariants.{Copy};
ghost use Rattle.rvm_message.specs.declared.event.HostEvent.TheVariants.{Do};

use crate::log::EventLog;
use crate::origin::{Of, Opening};
use crate::reached::Reached;
use rvm_link::Made;
use rvm_mem::PagedMemory;
use rvm_message::{Command, HostReply};
use std::alloc::{AllocError, Global};

/// Has a host copy pages, at least one and at most `most`, up to the first reply that is no copy. Returns the last
/// reply, and the number of copies before it. Appends the frames that the host made to `made`.
pub(crate) fn copy_some<L: Opening, M: PagedMemory + Drop, J: EventLog + Drop>(
    host: &mut Reached<L, M, J>,
    alloc: Global,
    most: u32,
    made: &mut Vec<Made<Of<L>>>,
) -> Result<(HostReply, u32), AllocError>
    ensures { IfOk result (λ a. IsAnswer L.opening (Do Copy) a.0) }
{
    for count in 1..most {
        let reply = copy_one(host, alloc, made)?;
        if !matches!(reply, HostReply::Copied { .. }) {
            return Ok((reply, count - 1));
        }
    }
    let reply = copy_one(host, alloc, made)?;
    Ok((reply, most.saturating_sub(1)))
}

/// Has a host copy a page. Appends the frame that it made, if it made one, to `made`. If memory runs out, nothing was
/// copied.
fn copy_one<L: Opening, M: PagedMemory + Drop, J: EventLog + Drop>(
    host: &mut Reached<L, M, J>,
    alloc: Global,
    made: &mut Vec<Made<Of<L>>>,
) -> Result<HostReply, AllocError>
    ensures { IfOk result (IsAnswer L.opening (Do Copy)) }
{
    made.reserve(1)?;
    let (reply, frame) = host.obey(alloc, &Command::Copy)?;
    if let Some(frame) = frame {
        made.push(frame)?;
    }
    Ok(reply)
}
