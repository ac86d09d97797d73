//! When pre-copy ends.

ghost use Rattle.std.specs.Prelude.{◌≡◌};
ghost use Rattle.rvm_protocol.specs.Commands.{is_allowed};
ghost use Rattle.rvm_precopy.specs.Policies.{policy_of};

/// The policy of a move. Pre-copy ends at the end of a round if `max_rounds` rounds were made, or fewer than `min_left`
/// pages are left to copy, or more copies were made than `factor` times the guest's pages.
#[derive(Clone, Copy, Debug, PartialEq, Eq)]
pub struct Policy {
    /// The most rounds, 1 to 1000.
    pub max_rounds: u32,
    /// The number of pages below which pre-copy ends, 1 to 4096.
    pub min_left: u32,
    /// The number of copies above which pre-copy ends, as a multiple of the guest's pages, 1 to 100.
    pub factor: u32,
}

impl Policy {
    /// Whether each number is within its limits.
    pub fn is_allowed(&self) -> bool
        ensures { result ≡ is_allowed (policy_of self.now) }
    {
        1 <= self.max_rounds
            && self.max_rounds <= 1000
            && 1 <= self.min_left
            && self.min_left <= 4096
            && 1 <= self.factor
            && self.factor <= 100
    }
}

/// The default policy: 29 rounds, 50 pages, and 3 times the guest's pages.
impl Default for Policy {
    ghost is_default = { λ p. policy_of p ≡ record { max_rounds = 29; min_left = 50; factor = 3 } };

    fn default() -> Policy {
        Policy {
            max_rounds: 29,
            min_left: 50,
            factor: 3,
        }
    }
}
