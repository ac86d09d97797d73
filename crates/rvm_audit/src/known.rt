//! What is known of the frames that hosts made, when journals that were cut are gone through.

ghost use Rattle.std.specs.Prelude.{◌≡◌, ◌<◌, ◌||◌, IfOk, OnOk, MatchOption, List, None, ℕ, false, is_some, length, replicate, set, true};
ghost use Rattle.rvm_audit.specs.Cuts.{marked};
ghost use Rattle.rvm_audit.specs.Merging.{key_of, noted, places_of};
ghost use Rattle.rvm_audit.specs.Passing.{IsEntryPassed, StretchBlocks, StretchPasses, MayCome, MayNotCome, MayNotPass, MayPass};

use crate::frames::{frame_key, key_of_coming};
use crate::places::{Places, lookup, note};
use crate::stretch::{Framed, StretchRef};
use rvm_frame::Frame;
use std::alloc::{AllocError, Global};
use std::collections::BTreeMap;

/// The frames that hosts are known to have made, and the hosts that may have made any frame.
#[derive(Drop)]
pub(crate) struct Known {
    /// The frames that entries made. What their places are does not matter.
    pub(crate) made: Places,
    /// By the number of each host, whether its journal was cut and was taken to its end.
    pub(crate) spent: Vec<bool>,
}

/// A stretch that was passed: how many entries it has, and whether none of them made a frame.
#[derive(Clone, Copy)]
pub(crate) struct Passed {
    pub(crate) entries: usize,
    pub(crate) is_silent: bool,
}

impl Known {
    /// Nothing is known of the frames of this many hosts.
    pub(crate) fn new(alloc: Global, hosts: usize) -> Result<Known, AllocError>
        ensures made { IfOk result (λ k. (key : List ℕ) → places_of k.made key ≡ None) }
        ensures spent { IfOk result (λ k. k.spent.items ≡ replicate hosts false) }
    {
        let spent = vec![in alloc; false; hosts]?;
        Ok(Known {
            made: BTreeMap::new(alloc),
            spent,
        })
    }

    /// Passes a stretch of a host if it may be passed, as commands always may. None if it may not.
    pub(crate) fn pass_stretch(
        &mut self,
        alloc: Global,
        host: u8,
        count: u8,
        version: u32,
        stretch: StretchRef<'_>,
    ) -> Result<Option<Passed>, AllocError>
        requires all { length self.old.spent.items ≡ count }
        ensures { IfOk result (λ o. MatchOption o
            (StretchBlocks version count host stretch.entry self.old self.new)
            (λ p. StretchPasses version count host stretch.entry p self.old self.new)) }
    {
        match stretch {
            StretchRef::Framed(framed) => self.pass_framed(alloc, host, count, version, framed),
            StretchRef::Quiet(quiet) => Ok(Some(Passed {
                entries: quiet.len(),
                is_silent: true,
            })),
        }
    }

    /// Passes an entry of a host if it may be passed, and notes the frame that it made. None if it may not.
    fn pass_framed(
        &mut self,
        alloc: Global,
        host: u8,
        count: u8,
        version: u32,
        framed: &Framed,
    ) -> Result<Option<Passed>, AllocError>
        requires all { length self.old.spent.items ≡ count }
        ensures { IfOk result (λ o. MatchOption o
            (MayNotPass version count host (places_of self.old.made) (marked self.old.spent.items) framed.now.event
            × (self.new ≡ self.old))
            (λ p. IsEntryPassed version count host framed.now p self.old self.new)) }
    {
        if !self.may_pass(alloc, host, count, version, framed)? {
            return Ok(None);
        }
        let makes = note_framed(alloc, &mut self.made, host, framed)?;
        Ok(Some(Passed {
            entries: 1,
            is_silent: !makes,
        }))
    }

    /// Whether a host's entry may be passed: its event is a command, or the frame that came may have been made.
    fn may_pass(
        &self,
        alloc: Global,
        host: u8,
        count: u8,
        version: u32,
        framed: &Framed,
    ) -> Result<bool, AllocError>
        requires all { length self.now.spent.items ≡ count }
        ensures yes { IfOk result (λ b. b ≡ true
            → MayPass version count host (places_of self.now.made) (marked self.now.spent.items)
            framed.now.event) }
        ensures no { IfOk result (λ b. b ≡ false
            → MayNotPass version count host (places_of self.now.made) (marked self.now.spent.items)
            framed.now.event) }
    {
        match framed.came() {
            None => Ok(true),
            Some((from, frame)) => { self.may_come(alloc, host, count, version, from, frame.get()) }
        }
    }

    /// Whether a frame that came to a host may have been made by host `from`: it is known that it was, or that one may
    /// have made any frame.
    fn may_come(
        &self,
        alloc: Global,
        host: u8,
        count: u8,
        version: u32,
        from: u8,
        frame: &Frame,
    ) -> Result<bool, AllocError>
        requires all { length self.now.spent.items ≡ count }
        ensures yes { IfOk result (λ b. b ≡ true
            → MayCome version count host (places_of self.now.made) (marked self.now.spent.items) from frame.now) }
        ensures no { IfOk result (λ b. b ≡ false
            → MayNotCome version count host (places_of self.now.made) (marked self.now.spent.items) from frame.now) }
    {
        match key_of_coming(alloc, host, count, version, from, frame)? {
            None => Ok(false),
            Some(key) => Ok(self.has_made(from, key.as_slice())),
        }
    }

    /// Whether a host is known to have made the frame of this key, or may have made any.
    fn has_made(&self, host: u8, key: &[u8]) -> bool
        requires there { host < length self.now.spent.items }
        ensures { result ≡ (marked self.now.spent.items host || is_some (places_of self.now.made key.now)) }
    {
        self.spent[host as usize] || lookup(&self.made, key).is_some()
    }

    /// Marks a host as one whose journal was cut and was taken to its end.
    pub(crate) fn mark_spent(&mut self, host: u8)
        requires there { host < length self.old.spent.items }
        ensures made { self.new.made ≡ self.old.made }
        ensures spent { self.new.spent.items ≡ set self.old.spent.items host true }
    {
        self.spent[host as usize] = true;
    }
}

/// Notes the frame of a host's entry, if it made one. Returns whether it made one.
fn note_framed(
    alloc: Global,
    places: &mut Places,
    host: u8,
    framed: &Framed,
) -> Result<bool, AllocError>
    ensures places { OnOk result ((key : List ℕ) → places_of places.new key
        ≡ noted (key_of host framed.now.frame) 0 (places_of places.old) key) }
    ensures made { IfOk result (λ made. made ≡ is_some framed.now.frame) }
{
    let Some(bytes) = framed.made() else {
        return Ok(false);
    };
    let key = frame_key(alloc, host, bytes)?;
    note(places, key, 0)?;
    Ok(true)
}
