//! Consecutive turns of harts.

ghost use Rattle.std.specs.Prelude.{◌≡◌, ◌%◌, ◌+◌, ◌++◌, ◌<◌, ◌≤◌, IfSome};
ghost use Rattle.rvm_station.specs.Logs.{steps_from};
ghost use Rattle.rvm_journal.specs.Replaying.{first_of};

/// Consecutive turns: so many steps of 1 to 8 harts, one after the other, the first by hart `first`.
#[derive(Clone, Copy, Debug, PartialEq, Eq)]
pub struct Run {
    pub first: u32,
    pub harts: u32,
    pub count: u32,
}

impl Run {
    /// The turns of this many harts from turn `turn` on.
    #[tactic(auto, using(crate::proofs::Runs::of_turn))]
    pub(crate) fn of(turn: u64, harts: u32, count: u32) -> Run
        requires { 1 ≤ harts }
        ensures { steps_from result.first result.harts result.count ≡ steps_from turn harts count }
    {
        Run {
            first: (turn % u64::from(harts)) as u32,
            harts,
            count,
        }
    }

    /// These turns and those of `more` after them, if they go on where these end; none otherwise, or if there are too
    /// many to count.
    #[tactic(auto, using(crate::proofs::Runs::joined))]
    pub(crate) fn joined(self, more: Run) -> Option<Run>
        ensures { IfSome result (λ run. steps_from run.first run.harts run.count
            ≡ steps_from self.first self.harts self.count ++ steps_from more.first more.harts more.count) }
    {
        let count = self.count.checked_add(more.count)?;
        if self.harts != more.harts || self.next()? != more.first {
            return None;
        }
        Some(Run {
            first: self.first,
            harts: self.harts,
            count,
        })
    }

    /// The first of these turns: at most this many, or all.
    #[tactic(auto, using(crate::proofs::Runs::first_turns))]
    pub(crate) fn up_to(self, most: Option<u64>) -> Run
        ensures turns { steps_from result.first result.harts result.count
            ≡ first_of most (steps_from self.first self.harts self.count) }
        ensures harts { result.harts ≡ self.harts }
    {
        match most {
            Some(most) => Run {
                first: self.first,
                harts: self.harts,
                count: u64::from(self.count).min(most) as u32,
            },
            None => self,
        }
    }

    /// The hart whose turn it is after these; none if there are no harts.
    fn next(self) -> Option<u32>
        ensures { IfSome result (λ hart. hart ≡ (self.first + self.count) % self.harts) }
    {
        if self.harts == 0 {
            return None;
        }
        let behind = u64::from(self.first) + u64::from(self.count);
        Some((behind % u64::from(self.harts)) as u32)
    }
}
