//! Why a command was refused, and how that is reported.

ghost use Rattle.std.specs.Prelude.{◌≡◌, IfOk};
ghost use Rattle.rvm_refusal.specs.declared.refusal.Refusal.TheVariants as refusal;
ghost use Rattle.rvm_command.specs.Refusals.{IsTold, refused, refused_of_script, refused_of_text};
ghost use Rattle.rvm_elf.specs.Refusals.{refusal_of_file, refusal_of_image};
ghost use Rattle.rvm_command.specs.SavedRefusals.{restore_refusal, save_refusal};

use crate::saved_fault::{RestoreFault, SaveFault};
use rvm_asm::AsmError;
use rvm_debug::ScriptError;
use rvm_elf::{ReadError, WriteError};
use rvm_refusal::{LinkFault, Refusal};
use std::fmt;
use std::io::Write;

/// Why a command was refused, and at which line of its text, if at one.
#[derive(Clone, Copy, Debug, PartialEq, Eq)]
pub struct Refused {
    /// The line of the text, counted from 1, if the refusal is at one.
    pub line: Option<usize>,
    /// The refusal.
    pub refusal: Refusal,
}

/// `line L: refused N NAME`, or `refused N NAME`.
impl fmt::Display for Refused {
    ghost use Rattle.std.specs.Prelude.{Some};
    ghost use Rattle.rvm_command.specs.Command.{refused_text};

    ghost output = { λ r. Some (refused_text r) };

    fn fmt<W: fmt::Write>(&self, f: &mut fmt::Formatter<W>) -> fmt::Result {
        let refusal = self.refusal;
        match self.line {
            Some(line) => write!(f, "line {line}: {refusal}"),
            None => write!(f, "{refusal}"),
        }
    }
}

/// A refusal at no line.
impl From<Refusal> for Refused {
    ghost from_gives = { λ r told. told ≡ refused r };

    fn from(refusal: Refusal) -> Refused {
        Refused {
            line: None,
            refusal,
        }
    }
}

/// The refusal of a command that failed to write.
impl From<LinkFault> for Refused {
    ghost from_gives = { λ _ told. told ≡ refused refusal.LinkFault };

    fn from(fault: LinkFault) -> Refused {
        Refused::from(Refusal::from(fault))
    }
}

/// The refusal of a file that has no image.
impl From<ReadError> for Refused {
    ghost from_gives = { λ error told. told ≡ refused (refusal_of_file error) };

    fn from(error: ReadError) -> Refused {
        Refused::from(Refusal::from(error))
    }
}

/// The refusal of a guest that was not saved.
impl From<SaveFault> for Refused {
    ghost from_gives = { λ fault told. told ≡ refused (save_refusal fault) };

    fn from(fault: SaveFault) -> Refused {
        Refused::from(Refusal::from(fault))
    }
}

/// The refusal of bytes that are no saved guest.
impl From<RestoreFault> for Refused {
    ghost from_gives = { λ fault told. told ≡ refused (restore_refusal fault) };

    fn from(fault: RestoreFault) -> Refused {
        Refused::from(Refusal::from(fault))
    }
}

/// The refusal of an image that no file can hold.
impl From<WriteError> for Refused {
    ghost from_gives = { λ error told. told ≡ refused (refusal_of_image error) };

    fn from(error: WriteError) -> Refused {
        Refused::from(Refusal::from(error))
    }
}

/// The refusal of a text that has no assembly, with the line if the fault is in one.
impl From<AsmError> for Refused {
    ghost from_gives = { λ error told. told ≡ refused_of_text error };

    fn from(error: AsmError) -> Refused {
        let line = match error {
            AsmError::Line(line, _) => Some(line),
            _ => None,
        };
        Refused {
            line,
            refusal: Refusal::from(error),
        }
    }
}

/// The refusal of a script that was not answered to its end, with the line if one is not in the grammar.
impl From<ScriptError> for Refused {
    ghost from_gives = { λ error told. told ≡ refused_of_script error };

    fn from(error: ScriptError) -> Refused {
        let line = match error {
            ScriptError::BadToken(line) => Some(line),
            _ => None,
        };
        Refused {
            line,
            refusal: Refusal::from(error),
        }
    }
}

/// Writes a refusal to `errors`, in one line, and returns the status 1. `LinkFault` if the write fails.
pub fn tell<E: Write>(refused: Refused, errors: &mut E) -> Result<u8, LinkFault>
    ensures { IfOk result (λ status. (status ≡ 1)
        × IsTold refused (E.contents errors.old) (E.contents errors.new)) }
{
    match writeln!(errors, "{refused}") {
        Ok(()) => Ok(1),
        Err(_) => Err(LinkFault),
    }
}
