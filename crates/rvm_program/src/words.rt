//! The words of the command line, as bytes and as texts.

ghost use Rattle.std.specs.Prelude.{◌≡◌, ◌≢◌, ◌<◌, IfErr, IfOk, IfSome, IsNone, length, map, vec_items};
ghost use Rattle.std.specs.Str.{IsUtf8};
ghost use Rattle.rvm_program.specs.Words.{IsWordsFault, word_at};

use rvm_command_line::word_fault;
use rvm_refusal::Refusal;
use std::alloc::{AllocError, Global};
use std::env::FillError;
use std::io::Write;
use std::rt::Env;
use std::str;

/// The size in bytes of the buffer that a word is first read into.
const FIRST_ROOM: usize = 256;

/// Why words are no texts.
#[derive(Clone, Copy, Debug, PartialEq, Eq)]
pub enum WordsFault {
    /// Memory ran out.
    OutOfMemory,
    /// The word with this index is not UTF-8. The program's name has the index 0.
    NotText(usize),
}

/// The bytes of the words of the command line. The first word is the program's name. Fails only with `OutOfMemory`.
pub fn take_words<R: Env + AllocGlobal>(rt: &R) -> Result<Vec<Vec<u8>>, WordsFault> {
    let mut words = Vec::new(rt.alloc());
    for place in 0..usize::MAX {
        match take_word(rt, place) {
            Ok(Some(word)) => {
                if words.push(word).is_err() {
                    return Err(WordsFault::OutOfMemory);
                }
            }
            Ok(None) => break,
            Err(_) => return Err(WordsFault::OutOfMemory),
        }
    }
    Ok(words)
}

/// The bytes of the word with the index `place`, if there is one.
fn take_word<R: Env + AllocGlobal>(rt: &R, place: usize) -> Result<Option<Vec<u8>>, AllocError> {
    let mut room = FIRST_ROOM;
    for _larger in 0..usize::BITS {
        let mut bytes = Vec::new(rt.alloc());
        bytes.resize(room, 0u8)?;
        match rt.arg(place, bytes.as_mut_slice()) {
            Ok(length) => {
                bytes.truncate(length);
                return Ok(Some(bytes));
            }
            Err(FillError::NotPresent) => return Ok(None),
            Err(FillError::TooLong) => room = room.saturating_add(room),
        }
    }
    Err(AllocError)
}

/// The texts of words. Fails with `NotText` at the first word that is not UTF-8, or with `OutOfMemory`.
pub fn texts<'a>(alloc: Global, words: &'a [Vec<u8>]) -> Result<Vec<&'a str>, WordsFault>
    ensures texts { IfOk result (λ v. map (λ s. s.now) v.items ≡ map vec_items words.now) }
    ensures fault { IfErr result (IsWordsFault (map vec_items words.now)) }
{
    let mut texts = Vec::new(alloc);
    let mut place = 0;
    while place < words.len() {
        let Some(text) = text_at(words, place) else {
            return Err(WordsFault::NotText(place));
        };
        if texts.push(text).is_err() {
            return Err(WordsFault::OutOfMemory);
        }
        place += 1;
    }
    Ok(texts)
}

/// The text of the word with the index `place`, if it is UTF-8.
fn text_at<'a>(words: &'a [Vec<u8>], place: usize) -> Option<&'a str>
    requires { place < length words.now }
    ensures text { IfSome result (λ s. s.now ≡ word_at (map vec_items words.now) place) }
    ensures none { IsNone result → IsUtf8 (word_at (map vec_items words.now) place) → ⊥ }
{
    let word = words[place].as_slice();
    str::from_utf8(word).ok()
}

/// Reports in `errors` why words are no texts. Returns the status: 1 if memory ran out, else 2, as for a fault of the
/// command line.
pub fn tell_words_fault<E: Write>(alloc: Global, fault: WordsFault, errors: &mut E) -> u8
    ensures memory { fault ≡ WordsFault.OutOfMemory → result ≡ 1 }
    ensures others { fault ≢ WordsFault.OutOfMemory → result ≡ 2 }
{
    match fault {
        WordsFault::OutOfMemory => {
            let _untold = writeln!(errors, "{}", Refusal::OutOfMemory);
            1
        }
        WordsFault::NotText(place) => {
            let error = word_fault(alloc, place);
            let _untold = write!(errors, "{error}");
            2
        }
    }
}
