//! The profile of a run: a line for each symbol, with the number of steps that ran a word of it, and its name.

ghost use Rattle.std.specs.Prelude.{◌≡◌, OnOk, option_map};
ghost use Rattle.std.specs.Io.KnownBytes.{Appends};
ghost use Rattle.rvm_command.specs.Counting.{sum_between};
ghost use Rattle.rvm_command.specs.Profile.{symbol_line, symbol_lines};
ghost use Rattle.rvm_command.specs.SymbolLines.{symbols_of};

use crate::coverage::{Counts, InTen};
use crate::symbols::{Symbol, Symbols};
use rvm_refusal::LinkFault;
use std::io::Write;

/// Writes the lines of the symbols of a file, in order, each with the sum of the numbers of its words. `LinkFault` if a
/// write fails.
pub(crate) fn write_profile<O: Write>(
    file: &[u8],
    counts: &Counts,
    output: &mut O,
) -> Result<(), LinkFault>
    ensures { OnOk result (Appends (O.contents output.old) (O.contents output.new)
        (symbol_lines (sum_between counts.now) (symbols_of file.now))) }
{
    let mut symbols = Symbols::new(file);
    let mut open = symbols.next();
    while let Some(symbol) = open {
        let next = symbols.next();
        write_symbol(&symbol, end_before(&next), counts, output)?;
        open = next;
    }
    Ok(())
}

/// Where the words of a symbol end that has this one after it, if there is one.
fn end_before(next: &Option<Symbol>) -> Option<u32>
    ensures { result ≡ option_map (λ s. s.address) next.now }
{
    match next {
        Some(next) => Some(next.address),
        None => None,
    }
}

/// Writes the line of a symbol whose words end here, with the sum of their numbers.
fn write_symbol<O: Write>(
    symbol: &Symbol,
    end: Option<u32>,
    counts: &Counts,
    output: &mut O,
) -> Result<(), LinkFault>
    ensures { OnOk result (Appends (O.contents output.old) (O.contents output.new)
        (symbol_line (sum_between counts.now symbol.now.address end) symbol.now.name)) }
{
    let count = counts.sum_between(symbol.address, end);
    write!(output, "{}  ", InTen(count))?;
    output.write_all(symbol.name)?;
    writeln!(output)?;
    Ok(())
}
