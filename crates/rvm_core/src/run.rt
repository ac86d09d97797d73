//! Runs of a world.

ghost use Rattle.std.specs.Prelude.{◌≡◌, map, IfOk, OnOk, OnErr};
ghost use Rattle.rvm_guest.specs.TheGuest.{board};
ghost use Rattle.rvm_protocol.specs.World.{replies, run};
ghost use Rattle.rvm_core.specs.NeverMoved.{NeverMoved, TellsItsPast};
ghost use Rattle.rvm_core.specs.Worlds.{IsPartOf, meant, places_of, said, world_of};

use crate::event::{Event, WorldReply};
use crate::world::World;
use rvm_mem::PagedMemory;
use std::alloc::{AllocError, Global};

/// Runs a list of events and returns their replies. After each event, the guest at the current host and each answer
/// that it gave are those of one board that never moves: from a new world on, and from any other world on by what its
/// modes show. If memory runs out, the world is as the events until then left it.
#[tactic(auto, using(crate::proofs::NeverMoving::never_moved, crate::proofs::NeverMoving::tells_its_past))]
pub fn run_world<M: PagedMemory + Drop>(
    alloc: Global,
    world: &mut World<M>,
    events: &[Event],
) -> Result<Vec<WorldReply>, AllocError>
    // Each reply, and the world after the last one, are those of the protocol.
    ensures replies { IfOk result (λ rs. map said rs.items
        ≡ replies board (world_of world.old) (map meant events.now)) }
    ensures world { OnOk result (world_of world.new ≡ run board (world_of world.old) (map meant events.now)) }
    // The place of the frame that each event made.
    ensures places { IfOk result (λ rs. map (λ r. r.frame) rs.items
        ≡ places_of (world_of world.old) (map meant events.now)) }
    // The guest never moved: at each event of the run, and in a run that ends early as in a whole one.
    ensures never_moved { NeverMoved (world_of world.old) (world_of world.new) }
    // In a run from a new world, each Ready, Go and Started comes after its cause, and each copy of a move
    // was answered Copied.
    ensures past { TellsItsPast (world_of world.old) (world_of world.new) }
    ensures err { OnErr result (IsPartOf (map meant events.now) (world_of world.old) (world_of world.new)) }
{
    world.reached();
    let mut replies = Vec::new(alloc);
    for event in events {
        replies.reserve(1)?;
        let reply = world.apply(alloc, event)?;
        replies.push_reserved(reply);
    }
    Ok(replies)
}
