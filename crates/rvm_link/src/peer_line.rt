//! What one line of a file of peers names.

ghost use Rattle.std.specs.Prelude.{◌≡◌, ◌≤◌};
ghost use Rattle.rvm_debug.specs.Words.{words, without_return};
ghost use Rattle.rvm_link.specs.Peers.{NamesAs, is_letter_of, naming_of};

use rvm_debug::{Words, without_return};

/// The most hosts of a world.
pub const MAX_PEERS: usize = 8;

/// What a line names.
#[derive(Drop)]
pub enum Named<'a> {
    /// Nothing: the line is blank or a comment.
    Nothing,
    /// The next host, by its address.
    Host(&'a [u8]),
    /// No host, or not the next one.
    Fault,
}

/// Reads a line without its line feed. The lines before it named the first `count` hosts, of which there are at most 8.
pub fn read_line<'a>(line: &'a [u8], count: usize) -> Named<'a>
    requires { count ≤ 8 }
    ensures { NamesAs result (naming_of count (words (without_return line.now))) }
{
    let mut words = Words::new(without_return(line));
    let first = match words.next() {
        None | Some([b'#', ..]) => return Named::Nothing,
        Some(first) => first,
    };
    match words.next() {
        Some(address) if words.is_empty() && is_letter_of(count, first) => Named::Host(address),
        _ => Named::Fault,
    }
}

/// Whether a word is the letter of the host with this number, counted from 0. Host 8 has no letter.
fn is_letter_of(host: usize, word: &[u8]) -> bool
    requires { host ≤ 8 }
    ensures { result ≡ is_letter_of host word.now }
{
    match word {
        [letter] => host < MAX_PEERS && *letter as usize == b'A' as usize + host,
        _ => false,
    }
}
