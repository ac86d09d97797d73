//! A call that finds more memory each time.

use crate::heap::{Heap, MOST_ROOM};
use std::alloc::Global;

/// How many bytes more a call finds each time: no block of the heap takes fewer.
const MORE: usize = 32;

/// What became of a call.
#[derive(Clone, Copy, Debug, PartialEq, Eq)]
pub enum Tried {
    /// Memory ran out, and all was as before.
    Refused,
    /// It was made.
    Made,
    /// Something else, or there was no memory beside the call.
    Wrong,
}

impl Tried {
    /// What became of a call that returned an error: whether it was out of memory, and all was unchanged.
    pub fn refused(as_before: bool) -> Tried {
        if as_before {
            Tried::Refused
        } else {
            Tried::Wrong
        }
    }
}

/// A call, which may be made again.
pub trait Trial {
    /// Makes the call while this many bytes are left.
    fn attempt(&mut self, alloc: Global, heap: &mut Heap, room: usize) -> Tried;
}

/// Makes a call with ever more bytes left, until it is made. Returns whether memory ran out before; none if anything
/// else came of it.
pub fn try_until_made<T: Trial>(alloc: Global, heap: &mut Heap, trial: &mut T) -> Option<bool> {
    let mut is_refused = false;
    for step in 0..MOST_ROOM / MORE {
        match trial.attempt(alloc, heap, step * MORE) {
            Tried::Refused => is_refused = true,
            Tried::Made => return Some(is_refused),
            Tried::Wrong => return None,
        }
    }
    None
}

/// Prints what became of a call.
pub fn print_tried<T: Trial, R: AllocGlobal + Print>(
    rt: &R,
    heap: &mut Heap,
    name: &str,
    trial: &mut T,
) -> Option<()> {
    let is_well = try_until_made(rt.alloc(), heap, trial) == Some(true);
    println!(rt; "{name}: refused each growth, and then made {is_well}").ok()
}
