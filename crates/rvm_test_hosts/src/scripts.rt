//! A script for hosts that is too long.

use crate::worlds::world;
use rvm_core::{World, WorldScriptError, run_world_script};
use rvm_mem::FlatMemory;
use std::alloc::Global;
use std::io;
use std::process::Abort;
use std::test::Fail;

/// Asserts that a script without an end is too long, and that nothing is written.
fn assert_too_long(
    rt: &impl Abort,
    alloc: Global,
    world: &mut World<FlatMemory>,
) -> Result<(), Fail> {
    let mut written = Vec::new(alloc);
    let end = run_world_script(alloc, world, &mut io::repeat(b'\n'), &mut written);
    assert_eq!(rt; end, Err(WorldScriptError::TooLong));
    assert_eq!(rt; written.len(), 0);
    Ok(())
}

#[test]
fn an_endless_script_for_hosts_is_too_long(rt: HostRuntime) -> Result<(), Fail> {
    let mut world = world(rt.alloc(), 1, &[1, 1], 1)?;
    assert_too_long(&rt, rt.alloc(), &mut world)
}
