//! Slices of steps.

ghost use Rattle.std.specs.Prelude.{◌≡◌, ◌↔◌, ◌+◌, ◌-◌, ◌%◌, ◌<◌, ◌≤◌, ◌^◌, [], length, IfOk, IfErr, IsTrue, None, OnErr, OnOk, vec_capacity};
ghost use Rattle.rvm_recorder.specs.declared.error.SliceError.TheVariants.{OutOfMemory};
ghost use Rattle.rvm_recorder.specs.Errors.{IsRecordError, IsSized, IsSliceError};
ghost use Rattle.rvm_recorder.specs.History.{count_of, with_entries, with_room};
ghost use Rattle.rvm_recorder.specs.Items.{entries_in, replies_of_all, steps_of};
ghost use Rattle.rvm_recorder.specs.Slices.{AreTurnsRecorded, IsSliceRecorded, IsSteps, most_of, replies_to};

use crate::error::{RecordError, SliceError};
use crate::recorded::Recorded;
use crate::run::StepRun;
use rvm_board::MAX_HARTS;
use rvm_mem::PagedMemory;
use std::alloc::Global;

/// The most steps of a slice.
pub const MAX_SLICE: u32 = 64;

/// The most turns for which room is made at once.
const MOST_TURNS: u32 = 1024;

impl<M: PagedMemory + Drop> Recorded<M> {
    /// Makes steps of harts in turn, from a turn on, and records them as if each were recorded by itself: at most n
    /// of them, 1 to 64, of 1 to 8 harts, and no more than there are free places. The slice ends after a breakpoint,
    /// a halt or a refusal. Returns the place of the first step, and the replies. If the slice is out of range,
    /// memory runs out or no place is free, nothing is recorded. The room that is made for the steps and not taken
    /// stays for later entries.
    pub fn record_slice(
        &mut self,
        alloc: Global,
        turn: u32,
        harts: u32,
        n: u32,
    ) -> Result<(u32, Vec<StepRun>), SliceError>
        ensures slice { IfOk result (λ r. IsSliceRecorded self.old turn harts n
            (r.0, replies_to (replies_of_all r.1.items)) self.new) }
        ensures err { OnErr result (self.new ≡ self.old) }
        ensures fault { IfErr result (λ e. IsSliceError e harts n (count_of self.old) self.old.capacity) }
        ensures sized { OnOk result (IsSized harts n) }
        ensures few { IfOk result (λ r. length (replies_of_all r.1.items) ≤ 64) }
        ensures places { IfOk result (λ r. r.0 + length (replies_of_all r.1.items) < 2 ^ 32) }
    {
        let place = self.count();
        let most = self.most_steps(harts, n)?;
        let replies = self.room_for_replies(alloc, most)?;
        let replies = self.record_steps(turn, harts, most, replies);
        Ok((place, replies))
    }

    /// Records steps of harts in turn, from turn `turn` on: at least one, at most `most`, and at most 1024, up to the first
    /// that does not retire an instruction. Returns how many. If memory runs out or the journal is full, records nothing.
    pub fn record_turns(
        &mut self,
        alloc: Global,
        turn: u32,
        harts: u32,
        most: u32,
    ) -> Result<u32, RecordError>
        requires harts { 1 ≤ harts }
        requires some { 1 ≤ most }
        ensures turns { IfOk result (λ made. AreTurnsRecorded self.old turn harts made self.new) }
        ensures made { IfOk result (λ made. (1 ≤ made) × (made ≤ most)) }
        ensures err { OnErr result (self.new ≡ self.old) }
        ensures fault { IfErr result (λ e. IsRecordError e (count_of self.old) self.old.capacity) }
    {
        let place = self.count();
        let capacity = self.capacity();
        if place >= capacity {
            return Err(RecordError::RecorderFull(capacity));
        }
        let most = most.min(MOST_TURNS).min(capacity - place);
        if self.reserve(alloc, most).is_err() {
            return Err(RecordError::OutOfMemory);
        }
        let run = self.record_run(u64::from(turn), harts, most);
        Ok(run.count())
    }

    /// Makes room for a slice of n steps, and returns how many of them may be made. If the slice is out of range, memory
    /// runs out or no place is free, nothing changes.
    pub(crate) fn room_for_slice(
        &mut self,
        alloc: Global,
        harts: u32,
        n: u32,
    ) -> Result<u32, SliceError>
        ensures most { IfOk result (λ most. most ≡ most_of self.old n) }
        ensures some { IfOk result (λ most. (1 ≤ most) × (most ≤ 64)) }
        ensures places { IfOk result (λ most. count_of self.old + most < 2 ^ 32) }
        ensures room { IfOk result (λ most. self.new ≡ with_room self.old most) }
        ensures err { OnErr result (self.new ≡ self.old) }
        ensures fault { IfErr result (λ e. IsSliceError e harts n (count_of self.old) self.old.capacity) }
        ensures sized { OnOk result (IsSized harts n) }
    {
        let most = self.most_steps(harts, n)?;
        self.room_for_steps(alloc, most)?;
        Ok(most)
    }

    /// How many steps a slice of n steps may have: n, or as many as there are free places, if these are fewer.
    fn most_steps(&self, harts: u32, n: u32) -> Result<u32, SliceError>
        ensures most { IfOk result (λ most. most ≡ most_of self.now n) }
        ensures some { IfOk result (λ most. (1 ≤ most) × (most ≤ 64)) }
        ensures free { IfOk result (λ most. count_of self.now + most ≤ self.now.capacity) }
        ensures places { IfOk result (λ most. count_of self.now + most < 2 ^ 32) }
        ensures fault { IfErr result (λ e. IsSliceError e harts n (count_of self.now) self.now.capacity) }
        ensures sized { OnOk result (IsSized harts n × (count_of self.now < self.now.capacity)) }
    {
        if !is_slice_in_range(harts, n) {
            return Err(SliceError::OutOfRange);
        }
        let place = self.count();
        let capacity = self.capacity();
        if place >= capacity {
            return Err(SliceError::RecorderFull(capacity));
        }
        Ok(n.min(capacity - place))
    }

    /// Makes room for `most` steps, and returns a vector for their replies. If memory runs out, nothing changes.
    fn room_for_replies(&mut self, alloc: Global, most: u32) -> Result<Vec<StepRun>, SliceError>
        requires free { count_of self.old + most ≤ self.old.capacity }
        ensures room { OnOk result (self.new ≡ with_room self.old most) }
        ensures replies { IfOk result (λ r. (r.items ≡ []) × (most ≤ vec_capacity r)) }
        ensures err { OnErr result (self.new ≡ self.old) }
        ensures fault { IfErr result (λ e. e ≡ OutOfMemory) }
    {
        let Ok(replies) = Vec::with_capacity(alloc, most as usize) else {
            return Err(SliceError::OutOfMemory);
        };
        self.room_for_steps(alloc, most)?;
        Ok(replies)
    }

    /// Makes room for `most` steps. If memory runs out, nothing changes.
    fn room_for_steps(&mut self, alloc: Global, most: u32) -> Result<(), SliceError>
        requires free { count_of self.old + most ≤ self.old.capacity }
        ensures room { OnOk result (self.new ≡ with_room self.old most) }
        ensures err { OnErr result (self.new ≡ self.old) }
        ensures fault { IfErr result (λ e. e ≡ OutOfMemory) }
    {
        if self.reserve(alloc, most).is_err() {
            return Err(SliceError::OutOfMemory);
        }
        Ok(())
    }

    /// Records the steps of a slice, for which there is room.
    fn record_steps(
        &mut self,
        turn: u32,
        harts: u32,
        most: u32,
        replies: Vec<StepRun>,
    ) -> Vec<StepRun>
        requires harts { 1 ≤ harts }
        requires some { 1 ≤ most }
        requires room { most ≤ self.old.journal.reserved }
        requires replies { (replies.items ≡ []) × (most ≤ vec_capacity replies) }
        ensures { IsSteps self.old turn harts most (replies_to (replies_of_all result.items)) self.new }
    {
        let mut replies = replies;
        let mut made = 0;
        while made < most {
            let run = self.record_run(u64::from(turn) + u64::from(made), harts, most - made);
            made += run.count();
            replies.push_reserved(run);
            if run.ends_steps() {
                return replies;
            }
        }
        replies
    }

    /// Records at most `most` steps of harts in turn, up to the first that does not retire an instruction.
    pub(crate) fn record_run(&mut self, turn: u64, harts: u32, most: u32) -> StepRun
        requires harts { 1 ≤ harts }
        requires some { 1 ≤ most }
        requires turn { turn < 2 ^ 33 }
        requires room { most ≤ self.old.journal.reserved }
        ensures recorded { self.new ≡ with_entries self.old (entries_in turn harts result)
            (self.old.journal.reserved - steps_of result) }
        ensures some { 1 ≤ steps_of result }
        ensures few { steps_of result ≤ most }
        ensures all { result.last ≡ None → result.retired ≡ most }
    {
        let run = self.retire(turn, harts, most);
        if run.last.is_some() || run.retired == most {
            return run;
        }
        let behind = turn + u64::from(run.retired);
        let reply = self.record_step((behind % u64::from(harts)) as u32);
        StepRun {
            retired: run.retired,
            last: Some(reply),
        }
    }
}

/// Whether a slice may have this many steps, 1 to 64, of this many harts, 1 to 8.
pub fn is_slice_in_range(harts: u32, n: u32) -> bool
    ensures { IsTrue result ↔ IsSized harts n }
{
    1 <= harts && harts <= MAX_HARTS && 1 <= n && n <= MAX_SLICE
}

/// Returns the hart whose turn it is `behind` turns after `turn`, if `harts` harts step in turn.
pub fn hart_of_turn(turn: u32, behind: u32, harts: u32) -> u32
    requires { 1 ≤ harts }
    ensures { result ≡ (turn + behind) % harts }
{
    ((u64::from(turn) + u64::from(behind)) % u64::from(harts)) as u32
}
