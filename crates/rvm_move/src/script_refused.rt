//! Why a script for hosts was refused.

ghost use Rattle.std.specs.Prelude.{◌≡◌};
ghost use Rattle.rvm_command.specs.Refusals.{refused_at};
ghost use Rattle.rvm_move.specs.ScriptRefusals.{refused_of_world_script};

use rvm_command::refused::Refused;
use rvm_core::WorldScriptError;
use rvm_refusal::Refusal;

/// Why a script was refused, and at which of its lines, if it was at one.
pub(crate) fn refused_of(error: WorldScriptError) -> Refused
    ensures { result ≡ refused_of_world_script error }
{
    match error {
        WorldScriptError::OutOfMemory => Refused::from(Refusal::OutOfMemory),
        WorldScriptError::LineOutOfMemory(line) => refused_at(line, Refusal::OutOfMemory),
        WorldScriptError::TooLong => Refused::from(Refusal::TooLong),
        WorldScriptError::BadToken(line) => refused_at(line, Refusal::BadToken),
        WorldScriptError::LinkFault => Refused::from(Refusal::LinkFault),
    }
}

/// A refusal at a line.
fn refused_at(line: usize, refusal: Refusal) -> Refused
    ensures { result ≡ refused_at line refusal }
{
    Refused {
        line: Some(line),
        refusal,
    }
}
