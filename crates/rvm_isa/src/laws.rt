//! What holds of the instruction table, and of words and instructions.

ghost use Rattle.std.specs.Prelude.{◌≡◌, Some, IfSome};
ghost use Rattle.rvm_isa.specs.Laws.{IsDecodedByItsRow, NoWordHasTwoRows};
ghost use Rattle.rvm_isa.specs.Table.{decoded};
ghost use Rattle.rvm_isa.specs.Words.{word_of};

use crate::decoding::decode;
use crate::encoding::encode;
use crate::ins::Ins;

/// No word has two rows of the table: the bits of a row under its mask.
pub fn no_word_has_two_rows()
    ensures { NoWordHasTwoRows }
{}

/// A word is decoded if and only if the table has a row for it, as that row's instruction with the
/// word's fields.
pub fn a_word_is_decoded_by_its_row()
    ensures { IsDecodedByItsRow }
{}

/// Encoding the instruction that a word is decoded as gives the word again.
pub fn a_decoded_word_is_encoded_again(word: u32)
    ensures { IfSome (decoded word) (λ i. word_of i ≡ word) }
{
    let _ins = decode(word); // for the proof
}

/// Decoding the word of an instruction gives the instruction again.
pub fn an_encoded_instruction_is_decoded_again(ins: &Ins)
    ensures { decoded (word_of ins.now) ≡ Some ins.now }
{
    let _word = encode(ins); // for the proof
}
