//! Rounds over a memory alone, without a guest.

use rvm_mem::{FlatMemory, Memory, PagedMemory};
use rvm_precopy::{LastNext, Next, Policy, Rounds};
use std::test::Fail;

#[test]
fn rounds_take_any_memory(rt: HostRuntime) -> Result<(), Fail> {
    let mut ram = FlatMemory::zeroed(rt.alloc(), 2)?;
    let policy = Policy {
        max_rounds: 1,
        min_left: 1,
        factor: 1,
    };
    let mut rounds = Rounds::begin(rt.alloc(), 2, policy)?;
    assert!(rt; ram.pages() == 2 && rounds.pages() == 2 && ram.len() == 8192);
    rounds.open(&mut ram);
    ram.store8(0, 1);
    // Page 0 is written before the round looks at it, so it waits for the last round.
    assert_eq!(rt; rounds.next(&mut ram), Next::Copied { page: 1, number: 1 });
    Ok(())
}
