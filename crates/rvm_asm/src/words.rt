//! Tables of words.

ghost use Rattle.std.specs.Prelude.{◌≡◌};
ghost use Rattle.rvm_asm.specs.Words.{named};
ghost use Rattle.rvm_asm.specs.Words.{rows_of};

/// The value beside a word in a table: in the first row with this word, or `None` if no row has it.
pub fn named<T: Copy>(rows: &[(&str, T)], word: &[u8]) -> Option<T>
    ensures { result ≡ named (rows_of rows.now) word.now }
{
    for row in rows {
        if row.0.as_bytes() == word {
            return Some(row.1);
        }
    }
    None
}
