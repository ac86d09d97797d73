//! Which hart takes a turn.

ghost use Rattle.std.specs.Prelude.{◌≡◌, ◌<◌, ◌%◌};
ghost use Rattle.rvm_command.specs.Order.{drawn, number_drawn};

use rand_core::SeedableRng;
use rand_core::utils::NextWord;
use rand_xoshiro::SplitMix64;

/// By how much the state of SplitMix64 grows with each number.
const STEP: u64 = 0x9e37_79b9_7f4a_7c15;

/// The hart that takes a turn, of this many harts: the one that is drawn if there is a seed, else that of the turn's
/// number.
pub(crate) fn hart_of(seed: Option<u32>, turn: u32, harts: u32) -> u32
    requires { 0 < harts }
    ensures drawn { result ≡ drawn seed turn % harts }
    ensures below { result < harts }
{
    match seed {
        Some(seed) => (number_drawn(seed, turn) % u64::from(harts)) as u32,
        None => turn % harts,
    }
}

/// The number that SplitMix64 draws for a turn, with a seed.
fn number_drawn(seed: u32, turn: u32) -> u64
    ensures { result ≡ number_drawn seed turn }
{
    let state = u64::from(seed).wrapping_add(u64::from(turn).wrapping_mul(STEP));
    SplitMix64::seed_from_u64(state).next_word()
}
