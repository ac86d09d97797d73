//! That memories and sets of pages are made, of the sizes that they may have.

use rvm_mem::{FlatMemory, MAX_PAGES, Memory, PageSet, PagedMemory};
use rvm_paged::{PagedError, PagedRam};
use std::test::Fail;

#[test]
fn a_memory_and_a_set_of_pages_are_made(rt: HostRuntime) -> Result<(), Fail> {
    let ram = FlatMemory::zeroed(rt.alloc(), 2)?;
    assert_eq!(rt; (ram.pages(), ram.len(), ram.dirty_count()), (2, 8192, 0));
    let set = PageSet::new(rt.alloc(), 2)?;
    assert_eq!(rt; (set.pages(), set.count()), (2, 0));
    Ok(())
}

#[test]
fn the_programs_memory_is_made_within_its_limits(rt: HostRuntime) -> Result<(), Fail> {
    let ram = PagedRam::new(rt.alloc(), MAX_PAGES)?;
    assert!(rt; ram.pages() == 4096 && ram.len() == 0x0100_0000 && ram.dirty_count() == 0);
    for pages in [0, MAX_PAGES + 1] {
        assert_eq!(rt;
            PagedRam::new(rt.alloc(), pages).err(),
            Some(PagedError::BadSize)
        );
    }
    Ok(())
}
