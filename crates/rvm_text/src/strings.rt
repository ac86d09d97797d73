//! The text of a string.

ghost use Rattle.std.specs.Prelude.{◌≡◌, ◌≤◌, IfOk, length};
ghost use Rattle.rvm_text.specs.Strings.{escaped_byte, text_of};

use std::alloc::{AllocError, Global};

/// The text of a string, given what is written between its quotes: `\n` is a line feed, `\t` a tab, `\0` a zero, and
/// `\` before any other byte is that byte. Fails only if memory runs out.
#[tactic(auto, unfolding(crate::specs::Strings::text_of))]
pub fn unescape(alloc: Global, written: &[u8]) -> Result<Vec<u8>, AllocError>
    ensures { IfOk result (λ text. text.items ≡ text_of written.now) }
{
    let mut text = Vec::new(alloc);
    let mut escaped = false;
    for b in written {
        if escaped {
            text.push(escaped_byte(*b))?;
            escaped = false;
        } else if *b == b'\\' {
            escaped = true;
        } else {
            text.push(*b)?;
        }
    }
    Ok(text)
}

/// The length in bytes of the text of a string, given what is written between its quotes.
#[tactic(auto, unfolding(crate::specs::Strings::text_of))]
pub fn text_length(written: &[u8]) -> usize
    ensures length { result ≡ length (text_of written.now) }
    ensures at_most { result ≤ length written.now }
{
    let mut length = 0;
    let mut escaped = false;
    for b in written {
        if escaped {
            length += 1;
            escaped = false;
        } else if *b == b'\\' {
            escaped = true;
        } else {
            length += 1;
        }
    }
    length
}

/// The byte that `b` after a `\` stands for.
fn escaped_byte(b: u8) -> u8
    ensures { result ≡ escaped_byte b }
{
    match b {
        b'n' => b'\n',
        b't' => b'\t',
        b'0' => 0,
        _ => b,
    }
}
