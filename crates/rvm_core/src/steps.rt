//! Steps of a hart at a host.

ghost use Rattle.std.specs.Prelude.{◌≡◌, ◌-◌, ◌+◌, ◌<◌};
ghost use Rattle.rvm_board.specs.declared.event.BoardReply.TheVariants.{Retired};
ghost use Rattle.rvm_guest.specs.TheGuest.{board};
ghost use Rattle.rvm_message.specs.Replies.{reply_of};
ghost use Rattle.rvm_protocol.specs.Replies.{Answered};
ghost use Rattle.rvm_protocol.specs.World.{reply_to, step};
ghost use Rattle.rvm_core.specs.Steps.{AreSteps, step_at, stepping, steps_of};
ghost use Rattle.rvm_core.specs.Worlds.{world_of};

use crate::event::Event;
use crate::world::World;
use rvm_board::{BoardEvent, BoardReply};
use rvm_mem::PagedMemory;
use rvm_message::{Command, HostReply};
use std::alloc::Global;

/// The result of steps of a hart.
#[derive(Drop)]
pub struct Steps {
    /// The number of steps, with the one that ended them.
    pub count: u32,
    /// The reply to the last step; Retired if there was none.
    pub last: HostReply,
}

impl<M: PagedMemory + Drop> World<M> {
    /// Makes at most `count` consecutive steps of a hart of the guest at a host, each as `apply` makes it. They end
    /// early with a step that is refused, that stops at a breakpoint or that leaves the board halted. Returns the
    /// number of steps and the last reply. Takes no memory.
    pub fn steps(&mut self, alloc: Global, host: u8, hart: u32, count: u32) -> Steps
        ensures { AreSteps (steps_of host hart count (world_of self.old)) (world_of self.new)
            result.count (reply_of result.last) }
    {
        let Some(before_last) = count.checked_sub(1) else {
            return Steps {
                count: 0,
                last: HostReply::Board(BoardReply::Retired),
            };
        };
        let turns = self.turns(host, hart, before_last);
        match turns.stop {
            Some(stop) => Steps {
                count: turns.made,
                last: HostReply::Board(stop.reply()),
            },
            None => self.more_steps(alloc, host, hart, turns.made, count),
        }
    }

    /// Makes the rest of `count` steps, one by one, after the first `first` of them, none of which ended the steps.
    fn more_steps(&mut self, alloc: Global, host: u8, hart: u32, first: u32, count: u32) -> Steps
        requires { first < count }
        ensures { AreSteps (stepping host hart (count - first) first (Answered Retired) (world_of self.old))
            (world_of self.new) result.count (reply_of result.last) }
    {
        let mut made = first;
        while made + 1 < count {
            let reply = self.step(alloc, host, hart);
            made += 1;
            if reply.ends_steps() {
                return Steps {
                    count: made,
                    last: reply,
                };
            }
        }
        Steps {
            count,
            last: self.step(alloc, host, hart),
        }
    }

    /// Applies the event of one step. Takes no memory.
    fn step(&mut self, alloc: Global, host: u8, hart: u32) -> HostReply
        ensures reply { reply_of result ≡ reply_to board (world_of self.old) (step_at host hart) }
        ensures next { world_of self.new ≡ step board (world_of self.old) (step_at host hart) }
    {
        match self.apply(
            alloc,
            &Event::At(host, Command::Board(BoardEvent::Step(hart))),
        ) {
            Ok(made) => made.reply,
            Err(_) => unreachable!(),
        }
    }
}
