//! Tests what hosts record, call by call: slices, room for entries, hosts that two seats call, what is refused for its
//! size, one order of two journals and of three, and audits of journals in files. It prints what came of each, and says so
//! where it ends early, since memory ran out. With a number as its argument, it puts two journals of this many entries in
//! order instead; with `list` or `runs` and three numbers, two journals of steps among which frames come, as `runs`
//! describes.
//!
//! To be read in this order: `asked`, `slices`, `sharing`, `sizes`, `orders`, `around`, `runs`, `written`, `files`.
#![tactic(auto)]

mod around;
mod asked;
mod files;
mod orders;
mod runs;
mod sharing;
mod sizes;
mod slices;
mod written;

use std::env;

fn main(rt: HostRuntime) {
    let is_whole = match task_of(&rt) {
        Task::Long(entries) => orders::order_long_journals(&rt, entries).is_some(),
        Task::Runs(plan) => runs::order_runs(&rt, plan).is_some(),
        Task::Cases => {
            slices::record_slices(&rt).is_some()
                && sharing::write_and_read(&rt).is_some()
                && sharing::fill_a_journal(&rt).is_some()
                && sharing::miss_places(&rt).is_some()
                && sharing::hand_out_frames(&rt).is_some()
                && sizes::refuse_sizes(&rt).is_some()
                && orders::put_in_order(&rt).is_some()
                && around::order_three_journals(&rt).is_some()
                && files::audit_files(&rt).is_some()
        }
    };
    if !is_whole {
        println!(rt; "it ended before its end").unwrap_or(());
    }
}

/// What is asked of the program.
#[derive(Clone, Copy)]
enum Task {
    Cases,
    /// Two journals of this many entries.
    Long(u32),
    Runs(runs::Plan),
}

/// What the arguments ask for: the cases if they ask for nothing else.
fn task_of(rt: &HostRuntime) -> Task {
    match words_of(rt) {
        Some(words) => task_by(words.as_slice()).unwrap_or(Task::Cases),
        None => Task::Cases,
    }
}

/// The arguments, after the name of the program.
fn words_of(rt: &HostRuntime) -> Option<Vec<String>> {
    env::args(rt).ok()?.collect(rt.alloc()).ok()
}

/// What these words ask for.
fn task_by(words: &[String]) -> Option<Task> {
    match words {
        [_, entries] => Some(Task::Long(entries.as_str().parse().ok()?)),
        [_, form, steps, offers, times] => Some(Task::Runs(runs::Plan {
            is_list: form.as_str() == "list",
            steps: steps.as_str().parse().ok()?,
            offers: offers.as_str().parse().ok()?,
            times: times.as_str().parse().ok()?,
        })),
        _ => None,
    }
}
