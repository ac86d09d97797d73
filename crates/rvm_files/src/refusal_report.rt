//! What a command reported of its end, read as the report of a refusal.

ghost use Rattle.std.specs.Prelude.{IfSome};
ghost use Rattle.rvm_files.specs.Reports.{TellsRefusal};

use rvm_refusal::Refusal;
use std::str;

/// The report of a refusal: `refused N NAME`, after `line L: ` if it is at a line, or after the name of a file and `: `.
#[derive(Clone, Copy, Debug)]
pub(crate) struct RefusalReport<'a> {
    place: &'a str,
    number: u32,
}

impl<'a> RefusalReport<'a> {
    /// The report that these bytes are, if they are the report of a refusal.
    pub(crate) fn of(bytes: &'a [u8]) -> Option<RefusalReport<'a>>
        ensures { IfSome result (λ report. TellsRefusal bytes.now) }
    {
        let Ok(text) = str::from_utf8(bytes) else {
            return None;
        };
        let Some((place, words)) = text.split_once("refused ") else {
            return None;
        };
        let number = number_in(words)?;
        Some(RefusalReport { place, number })
    }

    /// Whether the report is of this refusal, at whatever place.
    pub(crate) fn has(&self, refusal: Refusal) -> bool {
        self.number == refusal.number()
    }

    /// Whether the report is of this refusal, and names neither a line nor a file.
    pub(crate) fn is(&self, refusal: Refusal) -> bool {
        self.has(refusal) && self.place.is_empty()
    }

    /// Whether the report is of this refusal, and names this file, or neither a line nor a file.
    pub(crate) fn is_of(&self, refusal: Refusal, file: &str) -> bool {
        self.is(refusal) || (self.has(refusal) && names(self.place, file))
    }

    /// The number of the line that the report is at, if it is of this refusal and at a line.
    pub(crate) fn line_of(&self, refusal: Refusal) -> Option<usize> {
        if !self.has(refusal) {
            return None;
        }
        let digits = self.place.strip_prefix("line ")?;
        digits.strip_suffix(": ")?.parse().ok()
    }
}

/// Whether the place of a report is this file.
fn names(place: &str, file: &str) -> bool {
    match place.strip_suffix(": ") {
        Some(name) => name == file,
        None => false,
    }
}

/// The number in the words `N NAME`, if they are such words.
fn number_in(words: &str) -> Option<u32> {
    let Some((digits, name)) = words.split_once(" ") else {
        return None;
    };
    if name.contains(" ") {
        return None;
    }
    digits.parse().ok()
}
