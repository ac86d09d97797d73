//! The flags of 64 pages as one number.

ghost use Rattle.std.specs.Prelude.{◌≡◌, ◌≤◌, length};
ghost use Rattle.rvm_mem.specs.Pages.{bits, window};

/// The number of pages for which one number of a set or of a dirty log has bits.
pub const WORD_PAGES: u32 = 64;

/// The number whose bit i is flag `first + i`, for 64 flags. The bits of flags past the last are 0.
pub(crate) fn word_at(flags: &[bool], first: u32) -> u64
    ensures { result ≡ bits (window first flags.now) }
{
    let start = (first as usize).min(flags.len());
    let end = (start + WORD_PAGES as usize).min(flags.len());
    word_of(&flags[start..end])
}

/// The number whose bit i is flag i, of at most 64 flags.
fn word_of(flags: &[bool]) -> u64
    requires { length flags.now ≤ 64 }
    ensures { result ≡ bits flags.now }
{
    let mut word = 0;
    for i in (0..flags.len()).rev() {
        word = 2 * word + u64::from(flags[i]);
    }
    word
}
