//! Rounds of copies: which page is copied next, and when the rounds end.

ghost use Rattle.std.specs.Prelude.{◌≡◌, ◌≤◌, ◌<◌, length, replicate, IfOk, IfSome, Option, option_map, is_some, true, false, Some};
ghost use Rattle.rvm_protocol.specs.Commands.{is_allowed};
ghost use Rattle.rvm_precopy.specs.Plans.{IsPlanOf, begun, copied_if, found, is_last_spent, is_spent, last_found, last_next_of, lost, next_of, opened, peek, round_ended, stopping, stops, with_last};
ghost use Rattle.rvm_precopy.specs.Policies.{policy_of};

use crate::policy::Policy;
use rvm_mem::{DirtyLog, PageSet, WORD_PAGES};
use std::alloc::{AllocError, Global};
use std::marker::Model;

/// What the source did in one action while its guest runs.
#[derive(Clone, Copy, Debug, PartialEq, Eq)]
pub enum Next {
    /// A page is copied, with this copy number.
    Copied {
        page: u32,
        number: u32,
    },
    /// The round is over: its number, the number of pages that it copied, the number that it skipped because they were
    /// written again, and the number in the dirty log.
    RoundEnded {
        round: u32,
        sent: u32,
        skipped: u32,
        left: u32,
    },
    /// Pre-copy is over, and the guest must now be paused.
    Stopping,
    /// No copy number is left.
    SeqSpent,
}

/// What the source did in one action once its guest is paused.
#[derive(Clone, Copy, Debug, PartialEq, Eq)]
pub enum LastNext {
    /// A page is copied, with this copy number.
    Copied { page: u32, number: u32 },
    /// No page is left to be copied.
    NothingLeft,
    /// No copy number is left.
    SeqSpent,
}

/// What the source of a move keeps beside its guest: the pages of the round, the place of its scan, the pages that were
/// reported lost, and the number of each page's newest copy. Only `begin` takes memory.
#[derive(Drop)]
pub struct Rounds {
    policy: Policy,
    to_send: PageSet,
    to_fix: PageSet,
    // The dirty log of the 64 pages that the scan is in, as it was last peeked at.
    peeked: u64,
    scan: u32,
    newest: Vec<u32>,
    copies: u32,
    round: u32,
    sent: u32,
    stop: bool,
}

impl Model for Rounds {
    ghost use Rattle.std.specs.Prelude.{◌≡◌, ◌≤◌, length};
    ghost use Rattle.rvm_precopy.specs.Plans.{Plan};

    ghost Value = { Plan };

    // It comes after `Value`, since it reads a type of this crate.
    ghost use Rattle.rvm_precopy.specs.Policies.{policy_of};

    ghost view = { λ r. record {
      policy = policy_of r.policy;
      to_send = r.to_send;
      to_fix = r.to_fix;
      peeked = r.peeked;
      scan = r.scan;
      newest = r.newest.items;
      copies = r.copies;
      round = r.round;
      sent = r.sent;
      stop = r.stop;
    } };

    ghost invariant = { λ r. (length r.to_fix ≡ length r.to_send)
        × (length r.newest.items ≡ length r.to_send)
        × (r.scan ≤ length r.to_send) × (r.sent ≤ r.scan)
        × (length r.to_send ≤ 4096)
        × (r.round ≤ 1000) × (r.policy.max_rounds ≤ 1000) };
}

impl Rounds {
    /// Allocates all that a move of a guest of `pages` pages needs; fails if memory runs out. `open` must come before
    /// the first copy.
    pub fn begin(alloc: Global, pages: u32, policy: Policy) -> Result<Rounds, AllocError>
        requires pages { pages ≤ 4096 }
        requires policy { is_allowed (policy_of policy) ≡ true }
        ensures { IfOk result (λ r. r ≡ begun pages (policy_of policy)) }
    {
        let to_send = PageSet::new(alloc, pages)?;
        let to_fix = PageSet::new(alloc, pages)?;
        let newest = vec![in alloc; 0u32; pages as usize]?;
        Ok(Rounds {
            policy,
            to_send,
            to_fix,
            peeked: 0,
            scan: 0,
            newest,
            copies: 0,
            round: 1,
            sent: 0,
            stop: false,
        })
    }

    /// The number of the guest's pages.
    pub fn pages(&self) -> u32
        ensures pages { result ≡ length self.now.to_send }
        ensures plan { IsPlanOf result self.now }
    {
        self.to_send.pages()
    }

    /// Begins the first round, in which every page is to be sent, and empties the dirty log.
    pub fn open<L: DirtyLog>(&mut self, log: &mut L)
        requires { length (L.log log.old) ≡ length self.old.to_send }
        ensures plan { self.new ≡ opened self.old }
        ensures log { L.log log.new ≡ replicate (length (L.log log.old)) false }
        ensures rest { L.beside log.old log.new }
    {
        log.take_dirty(&mut self.to_send);
        self.to_send.fill();
        self.to_fix.clear();
        self.newest.fill(0);
        self.peeked = 0;
        self.scan = 0;
        self.copies = 0;
        self.round = 1;
        self.sent = 0;
        self.stop = false;
    }

    /// The page that this round copies next, and the dirty log of its block of 64 pages as it is peeked at. None if
    /// this round has no page left to copy.
    fn find<L: DirtyLog>(&self, log: &L) -> Option<(u32, u64)>
        requires { length (L.log log.now) ≡ length self.now.to_send }
        ensures page { option_map (λ found. found.0) result ≡ found (L.log log.now) self.now }
        ensures peeked { IfSome result (λ found. found.1 ≡ peek (L.log log.now) self.now found.0) }
        ensures bound { IfSome result (λ found. found.0 < length self.now.to_send) }
        ensures from { IfSome result (λ found. self.now.scan ≤ found.0) }
    {
        let mut peeked = self.peeked;
        for block in self.scan / WORD_PAGES..self.to_send.pages().div_ceil(WORD_PAGES) {
            let from = self.scan.max(WORD_PAGES * block);
            if from % WORD_PAGES == 0 {
                peeked = log.peek_dirty(from);
            }
            if let Some(page) = self.to_send.next_except(from, peeked) {
                return Some((page, peeked));
            }
        }
        None
    }

    /// Takes the source's next action while its guest runs: gives the round's next page a copy number, or ends the
    /// round, or ends pre-copy. Changes nothing if it returns `SeqSpent`.
    #[tactic(auto, unfolding(crate::specs::Plans::next_of))]
    pub fn next<L: DirtyLog>(&mut self, log: &mut L) -> Next
        requires { length (L.log log.old) ≡ length self.old.to_send }
        ensures answer { result ≡ (next_of (L.log log.old) self.old).answer }
        ensures plan { self.new ≡ (next_of (L.log log.old) self.old).plan }
        ensures log { L.log log.new ≡ (next_of (L.log log.old) self.old).log }
        ensures rest { L.beside log.old log.new }
    {
        if self.stop {
            self.pause(log);
            return Next::Stopping;
        }
        match self.find(log) {
            Some((page, peeked)) => self.copy(page, peeked),
            None => self.end_round(log),
        }
    }

    /// Whether `next` returns `SeqSpent`: this round has another page to copy, and no copy number is left. Takes no
    /// memory.
    #[tactic(auto, using(crate::proofs::Spent::spent_turn))]
    pub fn is_spent<L: DirtyLog>(&self, log: &L) -> bool
        requires { length (L.log log.now) ≡ length self.now.to_send }
        ensures { result ≡ is_spent (next_of (L.log log.now) self.now).answer }
    {
        !self.stop && self.copies == u32::MAX && self.finds(log)
    }

    /// Whether this round has another page to copy.
    #[tactic(auto, using(crate::proofs::Spent::some_mapped))]
    fn finds<L: DirtyLog>(&self, log: &L) -> bool
        requires { length (L.log log.now) ≡ length self.now.to_send }
        ensures { result ≡ is_some (found (L.log log.now) self.now) }
    {
        self.find(log).is_some()
    }

    /// Makes the pages of the dirty log those of the last round, for the guest that is paused, and empties the log.
    fn pause<L: DirtyLog>(&mut self, log: &mut L)
        requires { length (L.log log.old) ≡ length self.old.to_send }
        ensures plan { self.new ≡ (stopping (L.log log.old) self.old).plan }
        ensures log { L.log log.new ≡ (stopping (L.log log.old) self.old).log }
        ensures rest { L.beside log.old log.new }
    {
        log.take_dirty(&mut self.to_send);
        self.to_fix.clear();
    }

    /// Gives page `page` the next copy number, if one is left, and moves the scan past the page. `peeked` is the dirty
    /// log of the page's block.
    fn copy(&mut self, page: u32, peeked: u64) -> Next
        requires inside { page < length self.old.to_send }
        requires from { self.old.scan ≤ page }
        ensures answer { result ≡ (copied_if peeked self.old page).0 }
        ensures plan { self.new ≡ (copied_if peeked self.old page).1 }
    {
        if self.copies == u32::MAX {
            return Next::SeqSpent;
        }
        let newest = &mut self.newest;
        newest[page as usize] = self.copies + 1;
        self.copies += 1;
        self.sent += 1;
        self.peeked = peeked;
        self.scan = page + 1;
        Next::Copied {
            page,
            number: self.copies,
        }
    }

    /// Ends the round, which has no page left to copy: by the stop rule, pre-copy ends or the next round begins.
    fn end_round<L: DirtyLog>(&mut self, log: &mut L) -> Next
        requires { length (L.log log.old) ≡ length self.old.to_send }
        ensures answer { result ≡ (round_ended (L.log log.old) self.old).answer }
        ensures plan { self.new ≡ (round_ended (L.log log.old) self.old).plan }
        ensures log { L.log log.new ≡ (round_ended (L.log log.old) self.old).log }
        ensures rest { L.beside log.old log.new }
    {
        let left = log.dirty_count();
        let answer = Next::RoundEnded {
            round: self.round,
            sent: self.sent,
            skipped: self.to_send.count().saturating_sub(self.sent),
            left,
        };
        if self.stops(left) {
            self.stop = true;
            self.scan = self.to_send.pages();
        } else {
            log.take_dirty(&mut self.to_send);
            self.scan = 0;
            self.round += 1;
            self.sent = 0;
        }
        self.peeked = 0;
        answer
    }

    /// Whether the stop rule ends pre-copy, with this many pages in the dirty log.
    fn stops(&self, left: u32) -> bool
        ensures { result ≡ stops left self.now }
    {
        self.policy.max_rounds <= self.round
            || left < self.policy.min_left
            || u64::from(self.policy.factor) * u64::from(self.to_send.pages())
                < u64::from(self.copies)
    }

    /// Takes the source's next action once its guest is paused: gives the lowest page that is left a copy number.
    /// Changes nothing if it returns another answer than `Copied`.
    #[tactic(auto, unfolding(crate::specs::Plans::last_next_of))]
    pub fn next_last(&mut self) -> LastNext
        ensures answer { result ≡ (last_next_of self.old).answer }
        ensures plan { self.new ≡ (last_next_of self.old).plan }
    {
        match self.find_last() {
            Some(page) => self.copy_last(page),
            None => LastNext::NothingLeft,
        }
    }

    /// Whether `next_last` returns `SeqSpent`: a page is left to be copied, and no copy number is left. Takes no
    /// memory.
    #[tactic(auto, using(crate::proofs::Spent::spent_last))]
    pub fn is_last_spent(&self) -> bool
        ensures { result ≡ is_last_spent (last_next_of self.now).answer }
    {
        self.copies == u32::MAX && self.is_left()
    }

    /// The lowest page of the paused guest that is left to be copied.
    fn find_last(&self) -> Option<u32>
        ensures page { result ≡ last_found self.now }
        ensures bound { IfSome result (λ p. p < length self.now.to_send) }
    {
        match (self.to_send.first(), self.to_fix.first()) {
            (Some(page), Some(fix)) => Some(page.min(fix)),
            (Some(page), None) => Some(page),
            (None, fix) => fix,
        }
    }

    /// Whether a page is left to be copied once the guest is paused.
    pub fn is_left(&self) -> bool
        ensures { result ≡ is_some (last_found self.now) }
    {
        self.find_last().is_some()
    }

    /// Gives page `page` of the paused guest the next copy number, if one is left; the page is then no longer left to
    /// be copied.
    fn copy_last(&mut self, page: u32) -> LastNext
        requires { page < length self.old.to_send }
        ensures answer { result ≡ (with_last self.old (Some page)).answer }
        ensures plan { self.new ≡ (with_last self.old (Some page)).plan }
    {
        if self.copies == u32::MAX {
            return LastNext::SeqSpent;
        }
        self.to_send.remove(page);
        self.to_fix.remove(page);
        let newest = &mut self.newest;
        newest[page as usize] = self.copies + 1;
        self.copies += 1;
        LastNext::Copied {
            page,
            number: self.copies,
        }
    }

    /// Notes that these pages were reported lost and are to be copied again.
    #[tactic(auto, using(crate::proofs::Scans::sums))]
    pub fn lost(&mut self, pages: &PageSet)
        requires { length pages.now ≡ length self.old.to_send }
        ensures { self.new ≡ lost pages.now self.old }
    {
        self.to_fix.add(pages);
    }

    /// The number of each page's newest copy, 0 if it has none.
    pub fn newest(&self) -> &[u32]
        ensures { result.now ≡ self.now.newest }
    {
        self.newest.as_slice()
    }

    /// The number of copies that this move has made.
    pub fn copies(&self) -> u32
        ensures { result ≡ self.now.copies }
    {
        self.copies
    }
}
