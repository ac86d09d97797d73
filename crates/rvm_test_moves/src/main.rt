//! Moves guests over TCP, past a gate at which two workers meet, and over links that fail, and prints what became of each;
//! plays the order of a move as a script; and prints how receivers end, by what their links give, how copiers wait, and how
//! the turns of a paused guest are tried. Then runs two hosts as processes have them, in threads of this program, over
//! connections of this machine that break, with operators who tell them what to do: prints whether the guest ran as on one
//! board that never moves, and what the operators were answered.
//!
//! To be read in this order: `asked`, `ended`, `live`, `greeting`, `stranger`, `counting`, `meeting`, `audited`, `hearing`,
//! `waiting`, `between`, `printing`, `broken`, `failing`; `guest`, `screen`, `breaker`, `operator`, `farm`, `scenes`.
#![tactic(auto)]

mod asked;
mod audited;
mod between;
mod breaker;
mod broken;
mod counting;
mod ended;
mod failing;
mod farm;
mod greeting;
mod guest;
mod hearing;
mod live;
mod meeting;
mod operator;
mod printing;
mod scenes;
mod screen;
mod stranger;
mod waiting;

use scenes::{Scene, play};

fn main(rt: HostRuntime) -> anyhow::Result<()> {
    live::move_guests(&rt)?;
    greeting::note_versions(&rt)?;
    stranger::meet_a_stranger(&rt)?;
    meeting::meet(&rt)?;
    audited::play_order(&rt)?;
    hearing::hear_links(&rt)?;
    waiting::wait_for_answers(&rt)?;
    between::try_turns(&rt)?;
    printing::print_much(&rt)?;
    broken::break_writers(&rt)?;
    broken::fill_journals(&rt)?;
    failing::break_links(&rt)?;
    play(&rt, Scene::BrokenConnections)?;
    play(&rt, Scene::AnotherSecret)?;
    play(&rt, Scene::NoConsole)
}
