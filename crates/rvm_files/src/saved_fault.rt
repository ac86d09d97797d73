//! What is wrong with a saved guest.

ghost use Rattle.std.specs.Prelude.{◌≡◌};
ghost use Rattle.rvm_files.specs.SavedFaults.{saved_refusal, saved_words};

use rvm_refusal::Refusal;

/// What is wrong with a file that is read as a saved guest, since it begins with a byte 0.
#[derive(Clone, Copy, Debug)]
pub enum SavedFault {
    /// The file ends inside a frame, or before its guest is whole.
    CutOff,
    /// The file has bytes that are no frame.
    NoFrame,
    /// The file has a frame that is longer than any.
    LongFrame,
}

impl SavedFault {
    /// The refusal of the run of a file that has this fault.
    pub(crate) fn refusal(self) -> Refusal
        ensures { result ≡ saved_refusal self }
    {
        match self {
            SavedFault::CutOff => Refusal::Truncated,
            SavedFault::NoFrame => Refusal::BadFrame,
            SavedFault::LongFrame => Refusal::TooLong,
        }
    }

    /// What a report says of the file.
    pub(crate) fn words(self) -> &'static str
        ensures { result.now ≡ saved_words self }
    {
        match self {
            SavedFault::CutOff =>
                "this begins with a byte 0, so it is read as a saved guest, and was cut off: plain bytes want --raw",
            SavedFault::NoFrame | SavedFault::LongFrame =>
                "this begins with a byte 0, so it is read as a saved guest, and was changed: plain bytes want --raw",
        }
    }
}
