//! What is wrong with a file.

ghost use Rattle.std.specs.Prelude.{◌≡◌};
ghost use Rattle.rvm_files.specs.Defects.{refusal_of_defect};

use crate::file_fault::FileFault;
use crate::headers::ElfFault;
use crate::image_parts::Outside;
use crate::saved_fault::SavedFault;
use rvm_refusal::Refusal;
use std::fmt;

/// What is wrong with a file.
#[derive(Clone, Copy, Debug)]
pub enum Defect {
    /// The file cannot be opened, read or written.
    File(FileFault),
    /// The file has more than this number of bytes, which is the most that is read of it.
    TooLong(u32),
    /// The file has more than this number of bytes, which is the size of RAM, and is to be placed there.
    LongImage(u32),
    /// The file is to be written, and has the bytes of the text that it would be made of.
    SameBytes,
    /// The file is no ELF file of a program for the board.
    Elf(ElfFault),
    /// The image of the file does not lie in RAM.
    Outside(Outside),
    /// The file is read as a saved guest, and is none.
    Saved(SavedFault),
    /// The lines of the file's text have more than 2^24 bytes.
    LargeText,
    /// The lines of the file's text have more than 2^24 bytes, or bytes in more than 16 pieces that do not touch.
    ScatteredText,
}

impl Defect {
    /// The refusal of a command whose file has this defect.
    pub(crate) fn refusal(self) -> Refusal
        ensures { result ≡ refusal_of_defect self }
    {
        match self {
            Defect::File(fault) => fault.refusal(),
            Defect::TooLong(_) => Refusal::TooLong,
            Defect::LongImage(_) => Refusal::OutsideRam,
            Defect::SameBytes => Refusal::LinkFault,
            Defect::Elf(fault) => Refusal::from(fault.error()),
            Defect::Outside(_) => Refusal::OutsideRam,
            Defect::Saved(fault) => fault.refusal(),
            Defect::LargeText => Refusal::OutOfReach,
            Defect::ScatteredText => Refusal::TooMany,
        }
    }
}

/// What a report says of the file.
impl fmt::Display for Defect {
    ghost use Rattle.std.specs.Prelude.{Some};
    ghost use Rattle.rvm_files.specs.Defects.{defect_text};

    ghost output = { λ c. Some (defect_text c) };

    fn fmt<W: fmt::Write>(&self, f: &mut fmt::Formatter<W>) -> fmt::Result {
        match *self {
            Defect::File(fault) => write!(f, "{}", fault.words()),
            Defect::TooLong(limit) => write!(f, "this has more than {limit} bytes"),
            Defect::LongImage(limit) => write!(
                f,
                "this has more than {limit} bytes, and RAM has no more: give more --pages, of which there are at most 4096"
            ),
            Defect::SameBytes => write!(
                f,
                "this has the bytes of the text: it may be the text under another name"
            ),
            Defect::Elf(fault) => write!(f, "{fault}"),
            Defect::Outside(part) => write!(f, "{part}"),
            Defect::Saved(fault) => write!(f, "{}", fault.words()),
            Defect::LargeText => write!(
                f,
                "its lines have more than 16777216 bytes: lay out less .space"
            ),
            Defect::ScatteredText => write!(
                f,
                "its lines make more than 16 pieces that do not touch: use fewer .org"
            ),
        }
    }
}
