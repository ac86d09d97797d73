//! What is reported of a journal that is refused.

ghost use Rattle.std.specs.Prelude.{OnOk};
ghost use Rattle.std.specs.Io.KnownBytes.{Appends};
ghost use Rattle.rvm_replay.specs.FileFaults.{fault_line};

use crate::file::FileFault;
use rvm_refusal::LinkFault;
use std::io::Write;

/// Reports what is wrong with the journal in the file `name`, in one line.
pub(crate) fn report_fault<E: Write>(
    name: &str,
    fault: FileFault,
    errors: &mut E,
) -> Result<(), LinkFault>
    ensures { OnOk result (Appends (E.contents errors.old) (E.contents errors.new) (fault_line name.now fault)) }
{
    writeln!(errors, "{name}: {fault}")?;
    Ok(())
}
