//! The letters of hosts.

ghost use Rattle.std.specs.Prelude.{◌≡◌};
ghost use Rattle.rvm_journal.specs.Letters.{letter_of};

/// The letter of a host: A for host 0.
pub fn letter_of(host: u8) -> char
    ensures { result ≡ letter_of host }
{
    char::from(b'A'.saturating_add(host))
}
