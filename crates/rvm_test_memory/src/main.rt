//! Makes calls whose allocations fail one by one. The heap of the process is full but for some bytes, more each time
//! the call is made, until it finds all that it asks for: each of its allocations is once the first that fails. The
//! program prints for each call whether memory ran out, whether all was unchanged each time, and whether it was made in
//! the end.
//!
//! To be read in this order: `heap`, `trial`, `single`, `worlds`, `shared`, `replayed`.
#![tactic(auto)]

mod heap;
mod replayed;
mod shared;
mod single;
mod trial;
mod worlds;

use heap::Heap;

fn main(rt: HostRuntime) {
    let is_whole = match Heap::new(rt.alloc()) {
        Some(mut heap) => {
            single::try_calls(&rt, &mut heap).is_some()
                && worlds::try_moves(&rt, &mut heap).is_some()
                && shared::try_calls(&rt, &mut heap).is_some()
                && replayed::try_calls(&rt, &mut heap).is_some()
        }
        None => false,
    };
    if !is_whole {
        println!(rt; "it ended before its end").unwrap_or(());
    }
}
