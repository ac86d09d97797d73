//! What holds of the text of a word at an address.

ghost use Rattle.std.specs.Prelude.{◌≡◌, ℕ, ◌%◌, ◌^◌, List};
ghost use Rattle.rvm_asm.specs.Images.{Piece};
ghost use Rattle.rvm_asm.specs.Assembly.{IsAssembly};
ghost use Rattle.rvm_asm.specs.Pieces.{HasSameBytes};
ghost use Rattle.rvm_dis.specs.Reassembly.{text_behind_org, image_of_word};

use crate::laws::the_text_of_a_word_is_the_word_again;
use rvm_asm::laws::a_text_has_one_assembly;

/// Take a line `.org` with an address that is a multiple of four, and after it a line with the text of a word at that
/// address. These two lines are assembled into the four bytes of the word at that address, the lowest first, with the
/// entry 2^31. They have no other assembly: each has this entry, and these bytes alone.
pub fn a_printed_word_assembles_to_itself_at_its_address(address: u32, word: u32)
    ensures assembled { address % 4 ≡ 0
        → IsAssembly (text_behind_org address word) (2 ^ 31) (image_of_word address word) }
    ensures no_other { address % 4 ≡ 0 → (entry : ℕ) (image : List Piece)
        → IsAssembly (text_behind_org address word) entry image
        → (entry ≡ 2 ^ 31) × HasSameBytes image (image_of_word address word) }
{
    the_text_of_a_word_is_the_word_again(address, word);
    a_text_has_one_assembly();
}
