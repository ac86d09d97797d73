//! Keeps the turns of the guest's harts, and the copies of its pages, at a rate, if there is a limit.

use crate::course::now;
use rvm_mem::PAGE_SIZE;
use rvm_message::HostReply;
use std::sync::Wait;
use std::thread;
use std::time::{Clock, Duration};

/// The bytes of a page.
const PAGE: u64 = PAGE_SIZE as u64;

/// The pace of turns, or of copies: how many were made, and since when.
#[derive(Clone, Copy)]
pub(crate) struct Pace {
    began: Duration,
    made: u64,
}

impl Pace {
    /// The pace before the first of them, which may be made from now on.
    pub(crate) fn new<R: Clock>(rt: &R) -> Pace {
        Pace {
            began: now(rt),
            made: 0,
        }
    }

    /// Counts `made` more, and sleeps until all of them so far have taken as long as they take at `rate` a second.
    pub(crate) fn keep<R: Wait + Clock>(&mut self, rt: &R, rate: u32, made: u32) {
        self.made = self.made.saturating_add(u64::from(made));
        let spent = now(rt).saturating_sub(self.began);
        thread::sleep(rt, time_of(self.made, rate).saturating_sub(spent));
    }
}

/// How long this many turns, or copies, take at this many a second; a rate of 0 counts as 1.
fn time_of(count: u64, rate: u32) -> Duration {
    let rate = u64::from(rate).max(1);
    let nanoseconds = (count % rate) * 1_000_000_000 / rate;
    Duration::from_secs(count / rate).saturating_add(Duration::from_nanos(nanoseconds))
}

/// The pace of a copier: while the guest runs, its pages are copied at a rate, if there is a limit. Once it stands still,
/// the last of them are copied as fast as they can be.
#[derive(Clone, Copy)]
pub struct CopyPace {
    /// The most pages in a second, if there is a limit.
    rate: Option<u32>,
    /// The pace since the first page was copied.
    pace: Option<Pace>,
}

impl CopyPace {
    /// The pace before the first copy, at `bandwidth` megabytes of pages a second at most, if there is a limit.
    pub fn new(bandwidth: Option<u32>) -> CopyPace {
        CopyPace {
            rate: bandwidth.map(pages_of),
            pace: None,
        }
    }

    /// Takes note of the reply to a copy. If a page was copied while there is a limit, sleeps for as long as that takes.
    pub fn keep<R: Wait + Clock>(&mut self, rt: &R, reply: &HostReply) {
        match reply {
            HostReply::Copied { .. } => self.page_copied(rt),
            HostReply::Stopping => self.rate = None,
            _ => {}
        }
    }

    /// Counts a page that was copied, and sleeps if there is a limit.
    fn page_copied<R: Wait + Clock>(&mut self, rt: &R) {
        let Some(rate) = self.rate else {
            return;
        };
        let mut pace = match self.pace {
            Some(pace) => pace,
            None => Pace::new(rt),
        };
        pace.keep(rt, rate, 1);
        self.pace = Some(pace);
    }
}

/// How many pages this many megabytes have, each of 1000000 bytes, up to 4294967295.
fn pages_of(megabytes: u32) -> u32 {
    let pages = u64::from(megabytes) * 1_000_000 / PAGE;
    pages.min(u64::from(u32::MAX)) as u32
}
