//! `rvmove dis`: lists the words of an image.

ghost use Rattle.std.specs.Prelude.{◌≡◌, ◌+◌, ◌%◌, ◌^◌, ◌++◌, codes, Result, IfOk, IsErr, OnOk, drop};
ghost use Rattle.std.specs.Io.Buffered.{writer_contents};
ghost use Rattle.std.specs.Io.KnownBytes.{Appends};
ghost use Rattle.rvm_asm.specs.Images.{pieces_of};
ghost use Rattle.rvm_dis.specs.Disassembly.{line_at};
ghost use Rattle.rvm_command.specs.declared.refused.Refused.{Refused};
ghost use Rattle.rvm_command.specs.Command.{before_word, image_of, listing, word_lines};
ghost use Rattle.rvm_command.specs.Ends.{HasStatus, IsListEnd};
ghost use Rattle.rvm_command.specs.Flushed.{is_flushed};

use crate::flush::flush;
use crate::guest::image_of;
use crate::refused::{Refused, tell};
use byteorder::{ByteOrder, LittleEndian};
use rvm_arguments::DisArguments;
use rvm_asm::Segment;
use rvm_dis::write_line;
use rvm_refusal::LinkFault;
use std::alloc::Global;
use std::io::{BufWriter, Write};

/// Writes a line for each whole aligned word of the image's segments, in order: its address, the word, and the text of
/// its instruction.
///
/// Returns the status: 0, or 1 if it was refused; then `errors` gets the refusal in one line, and else nothing. The
/// fault of the file and `OutOfMemory` leave `output` unchanged; `LinkFault` says that a write to `output` failed, and
/// a part of the lines may have been written. With the status 0, `output` is flushed. No clause says when a writer
/// fails. The error `LinkFault` says that a write to `errors` failed.
pub fn dis_command<O: Write + Drop, E: Write>(
    alloc: Global,
    arguments: &DisArguments,
    image: &[u8],
    output: &mut BufWriter<O>,
    errors: &mut E,
) -> Result<u8, LinkFault>
    ensures status { IfOk result (λ status. HasStatus status
        (λ end. IsListEnd (image_of arguments.now.raw image.now) end
        (writer_contents O.contents output.old) (writer_contents O.contents output.new))
        (E.contents errors.old) (E.contents errors.new)) }
    ensures out { IfOk result (λ status. status ≡ 0 → is_flushed output.new) }
    ensures output { (end : Result (Unit {0}) Refused) × IsListEnd (image_of arguments.now.raw image.now) end
        (writer_contents O.contents output.old) (writer_contents O.contents output.new) }
    ensures fault { IsErr (image_of arguments.now.raw image.now)
        → writer_contents O.contents output.new ≡ writer_contents O.contents output.old }
{
    match dis(alloc, arguments, image, output) {
        Ok(()) => Ok(0),
        Err(refused) => tell(refused, errors),
    }
}

/// Writes the lines and flushes them, or says why it was refused.
fn dis<O: Write + Drop>(
    alloc: Global,
    arguments: &DisArguments,
    image: &[u8],
    output: &mut BufWriter<O>,
) -> Result<(), Refused>
    ensures end { IsListEnd (image_of arguments.now.raw image.now) result
        (writer_contents O.contents output.old) (writer_contents O.contents output.new) }
    ensures out { OnOk result (is_flushed output.new) }
    ensures fault { IsErr (image_of arguments.now.raw image.now)
        → writer_contents O.contents output.new ≡ writer_contents O.contents output.old }
{
    let program = image_of(alloc, arguments.raw, image)?;
    list(&program.segments, output)?;
    flush(output)?;
    Ok(())
}

/// Writes the lines of segments, in order.
fn list<O: Write>(segments: &[Segment], output: &mut O) -> Result<(), LinkFault>
    ensures { OnOk result (Appends (O.contents output.old) (O.contents output.new)
        (listing (pieces_of segments.now))) }
{
    for segment in segments {
        list_segment(segment, output)?;
    }
    Ok(())
}

/// Writes the lines of the whole aligned words of a segment.
fn list_segment<O: Write>(segment: &Segment, output: &mut O) -> Result<(), LinkFault>
    ensures { OnOk result (Appends (O.contents output.old) (O.contents output.new)
        (word_lines ((segment.now.address + before_word segment.now.address) % 2 ^ 32)
        (drop (before_word segment.now.address) segment.now.bytes.items))) }
{
    let skipped = (4 - segment.address % 4) % 4;
    if segment.bytes.len() < skipped as usize {
        return Ok(());
    }
    let words = &segment.bytes[skipped as usize..];
    list_words(segment.address.wrapping_add(skipped), words, output)
}

/// Writes the lines of the whole words of bytes that stand from this address on, a multiple of four.
fn list_words<O: Write>(address: u32, bytes: &[u8], output: &mut O) -> Result<(), LinkFault>
    ensures { OnOk result (Appends (O.contents output.old) (O.contents output.new)
        (word_lines address bytes.now)) }
{
    let mut address = address;
    let mut bytes = bytes;
    while bytes.len() >= 4 {
        let (word, rest) = bytes.split_at(4);
        list_word(address, LittleEndian::read_u32(word), output)?;
        address = address.wrapping_add(4);
        bytes = rest;
    }
    Ok(())
}

/// Writes the line of a word.
fn list_word<O: Write>(address: u32, word: u32, output: &mut O) -> Result<(), LinkFault>
    ensures { OnOk result (Appends (O.contents output.old) (O.contents output.new)
        (line_at address word ++ codes "\n")) }
{
    let listed = write_line(address, word, output).is_ok() && writeln!(output).is_ok();
    if listed { Ok(()) } else { Err(LinkFault) }
}
