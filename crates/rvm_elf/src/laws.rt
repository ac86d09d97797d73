//! What holds of every file that is written.

ghost use Rattle.std.specs.Prelude.{◌≡◌, ℕ, List, Ok};
ghost use Rattle.rvm_asm.specs.Images.{Piece};
ghost use Rattle.rvm_elf.specs.File.{meaning, StandsFor};
ghost use Rattle.rvm_elf.specs.Spelling.{IsWritable, file_of, with_size};

/// The file of an image is read as the image, without segments that have no byte and no zero.
pub fn a_written_file_is_read_back()
    ensures { (entry : ℕ) (ps : List Piece) → IsWritable entry ps
        → meaning (file_of entry ps) ≡ Ok (entry, with_size ps) }
{}

/// The file of an image stands for it: whoever reads the file finds the same byte, or none, at each
/// address.
pub fn a_written_file_has_the_bytes_of_its_image()
    ensures { (entry : ℕ) (image : List Piece) → IsWritable entry image
        → StandsFor (file_of entry image) entry image }
{}
