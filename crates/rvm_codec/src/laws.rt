//! What holds of every field.

ghost use Rattle.std.specs.Prelude.{◌≡◌, ◌<◌, ◌^◌, ◌++◌, ℕ, List, Some};
ghost use Rattle.byteorder.specs.Endian.{little_bytes};
ghost use Rattle.rvm_codec.specs.Numbers.{number_at};

/// More bytes after a number do not change how it is read.
pub fn more_bytes_behind_a_number_change_nothing()
    ensures { (size n : ℕ) (bytes rest more : List ℕ) → number_at size bytes ≡ Some (n, rest)
        → number_at size (bytes ++ more) ≡ Some (n, rest ++ more) }
{}

/// A number that was written is read back, whatever bytes follow.
pub fn a_number_is_read_as_it_was_written()
    ensures { (size n : ℕ) (rest : List ℕ) → n < 256 ^ size
        → number_at size (little_bytes size n ++ rest) ≡ Some (n, rest) }
{}
