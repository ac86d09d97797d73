//! What was found, and the line that says so.

ghost use Rattle.std.specs.Prelude.{OnOk};
ghost use Rattle.std.specs.Io.KnownBytes.{Appends};
ghost use Rattle.rvm_files.specs.Defects.{found_text, line_head, line_text};

use crate::defect::Defect;
use crate::line_fault::LineDefect;
use rvm_refusal::LinkFault;
use std::io::Write;

/// What was found to be wrong.
#[derive(Debug, Drop)]
pub enum Found<'a> {
    /// A file.
    File {
        /// The name of the file.
        file: &'a str,
        /// What is wrong with it.
        defect: Defect,
    },
    /// A line of a file.
    Line {
        /// The name of the file.
        file: &'a str,
        /// The line.
        line: LineDefect,
    },
    /// The version of the streams, for more than two hosts.
    Streams,
}

/// Writes what was found, in one line. `LinkFault` if the write fails.
pub fn write_found<W: Write>(found: &Found<'_>, writer: &mut W) -> Result<(), LinkFault>
    ensures { OnOk result (Appends (W.contents writer.old) (W.contents writer.new) (found_text found.now)) }
{
    match found {
        Found::File { file, defect } => writeln!(writer, "{file}: {defect}")?,
        Found::Line { file, line } => write_line(file, line, writer)?,
        Found::Streams => writeln!(
            writer,
            "--stream: more than two hosts speak version 3 alone"
        )?,
    }
    Ok(())
}

/// Writes a line of a file, and what is wrong with it, in one line. `LinkFault` if the write fails.
fn write_line<W: Write>(file: &str, line: &LineDefect, writer: &mut W) -> Result<(), LinkFault>
    ensures { OnOk result (Appends (W.contents writer.old) (W.contents writer.new) (line_text file.now line.now)) }
{
    write_line_head(file, line, writer)?;
    let why = line.fault.words();
    writeln!(writer, "`: {why}")?;
    Ok(())
}

/// Writes a line of a file up to its last byte. `LinkFault` if the write fails.
fn write_line_head<W: Write>(file: &str, line: &LineDefect, writer: &mut W) -> Result<(), LinkFault>
    ensures { OnOk result (Appends (W.contents writer.old) (W.contents writer.new) (line_head file.now line.now)) }
{
    let number = line.number;
    write!(writer, "{file}: line {number}: `")?;
    writer.write_all(line.text.as_slice())?;
    Ok(())
}
