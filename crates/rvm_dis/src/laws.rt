//! What holds of the text of each word.

ghost use Rattle.std.specs.Prelude.{◌≡◌, ◌%◌};
ghost use Rattle.rvm_asm.specs.Values.{Names};
ghost use Rattle.rvm_dis.specs.Assembles.{Assembles};
ghost use Rattle.rvm_dis.specs.Disassembly.{text_at};

use rvm_isa::decode;

/// The text of a word at an address that is a multiple of four is one line of assembly. Assembled at that address, it
/// is the four bytes of the word again, whatever values names have. It has no label and defines no name.
pub fn the_text_of_a_word_is_the_word_again(address: u32, word: u32)
    ensures { address % 4 ≡ 0 → (names : Names) →
        Assembles names address word (text_at address word) }
{
    // for the proof
    let _ins = decode(word);
}
