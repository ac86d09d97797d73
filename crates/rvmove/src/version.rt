//! The version of the program, with the commit that it was built from.

ghost use Rattle.std.specs.Prelude.{◌≡◌, ◌∷◌, [], OnOk, map, true};
ghost use Rattle.std.specs.Io.KnownBytes.{Appends};
ghost use Rattle.clap.specs.Faults.{fault_of};
ghost use Rattle.clap.specs.declared.error.kind.ErrorKind.TheVariants as kind;
ghost use Rattle.rvm_command_line.specs.Program.{program};
ghost use Rattle.rvmove.specs.Versions.{IsVersionWord, version_line};

use rvm_program::VERSION;
use std::convert::AsStr;
use std::io;
use std::io::Write;

/// Whether the words of a command line ask for the version, and for nothing else.
pub fn asks_for_version<S: AsStr>(words: &[S]) -> bool
    ensures { result ≡ true → fault_of program (map S.text words.now) ≡ kind.DisplayVersion ∷ [] }
{
    match words {
        [_, word] => is_version(word.as_str()),
        _ => false,
    }
}

/// Whether a word asks for the version.
fn is_version(word: &str) -> bool
    ensures { result ≡ true → IsVersionWord word.now }
{
    word == "--version" || word == "-V"
}

/// Writes the version of the program, and what it was built from.
pub fn write_version<O: Write>(build: &str, output: &mut O) -> io::Result<()>
    ensures { OnOk result (Appends (O.contents output.old) (O.contents output.new) (version_line build.now)) }
{
    writeln!(output, "rvmove {VERSION} ({build})")
}
