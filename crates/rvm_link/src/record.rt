//! Records on a connection between two processes.

ghost use Rattle.std.specs.Prelude.{◌≡◌, ◌<◌, ◌≤◌, ◌++◌, ◌∷◌, [], ℕ, Err, IfOk, OnOk, length, take};
ghost use Rattle.std.specs.Io.KnownBytes.{Appends, Consumes};
ghost use Rattle.byteorder.specs.Endian.{little_bytes};
ghost use Rattle.rvm_link.specs.declared.record_fault.RecordFault.TheVariants as fault;
ghost use Rattle.rvm_link.specs.Records.{Answer, Carries, Data, Fits, IsInside, Question, record_bytes, record_read};

use crate::number::{number_bytes, read_number};
use crate::record_fault::RecordFault;
use byteorder::{ByteOrder, LittleEndian};
use std::io;
use std::io::{Read, Write};

/// The most bytes of data in one record.
pub const MAX_DATA: usize = 65535;

/// The first byte of a record of data.
const DATA: u8 = 0;

/// The first byte of a question.
const QUESTION: u8 = 1;

/// The first byte of an answer.
const ANSWER: u8 = 2;

/// A record that was read.
#[derive(Clone, Copy, Debug, PartialEq, Eq)]
pub enum RecordRead {
    /// This many bytes of the stream, which are at the front of the buffer.
    Data(usize),
    /// A question with this number.
    Question(u64),
    /// The answer to the question with this number.
    Answer(u64),
}

/// Reads a record, and puts its data at the front of a buffer of at least 65535 bytes. `NotRecord` if its first byte is
/// no record's, `Broken` if the read fails; then part of a record may have been read.
pub fn read_record<I: Read>(input: &mut I, buffer: &mut [u8]) -> Result<RecordRead, RecordFault>
    requires { 65535 ≤ length buffer.old }
    ensures record { IfOk result (λ r. Consumes (I.remaining input.old) (I.remaining input.new)
        (record_bytes (record_read r buffer.new))) }
    ensures fits { IfOk result (λ r. Fits (record_read r buffer.new)) }
    ensures inside { IfOk result (λ r. IsInside r (length buffer.new)) }
    ensures size { length buffer.new ≡ length buffer.old }
    ensures other { result ≡ Err fault.NotRecord → (kind : ℕ) × (2 < kind)
        × Consumes (I.remaining input.old) (I.remaining input.new) (kind ∷ []) }
{
    let kind = read_kind(input)?;
    match kind {
        DATA => read_data(input, buffer),
        QUESTION => Ok(RecordRead::Question(read_number(input)?)),
        ANSWER => Ok(RecordRead::Answer(read_number(input)?)),
        _ => Err(RecordFault::NotRecord),
    }
}

/// Reads the first byte of a record, its kind.
fn read_kind<I: Read>(input: &mut I) -> io::Result<u8>
    ensures { IfOk result (λ k. Consumes (I.remaining input.old) (I.remaining input.new) (k ∷ [])) }
{
    let mut kind = [0u8; 1];
    input.read_exact(&mut kind)?;
    let [kind] = kind;
    Ok(kind)
}

/// Reads the length of data.
fn read_len<I: Read>(input: &mut I) -> io::Result<u16>
    ensures { IfOk result (λ n. Consumes (I.remaining input.old) (I.remaining input.new) (little_bytes 2 n)) }
{
    let mut bytes = [0u8; 2];
    input.read_exact(&mut bytes)?;
    Ok(len_of(&bytes))
}

/// The length with these bytes, the lower first.
fn len_of(bytes: &[u8; 2]) -> u16
    ensures { little_bytes 2 result ≡ bytes.now }
{
    LittleEndian::read_u16(bytes)
}

/// Reads the length of data, and the data.
fn read_data<I: Read>(input: &mut I, buffer: &mut [u8]) -> Result<RecordRead, RecordFault>
    requires { 65535 ≤ length buffer.old }
    ensures data { IfOk result (λ r. (n : ℕ) × (r ≡ RecordRead.Data n) × (n ≤ 65535) × (n ≤ length buffer.new)
        × Consumes (I.remaining input.old) (I.remaining input.new) (little_bytes 2 n ++ take n buffer.new)) }
    ensures size { length buffer.new ≡ length buffer.old }
    ensures broken { result ≡ Err fault.NotRecord → ⊥ }
{
    let count = usize::from(read_len(input)?);
    input.read_exact(&mut buffer[..count])?;
    Ok(RecordRead::Data(count))
}

/// Writes bytes of the stream in records, each of which has at most 65535.
pub fn write_data<W: Write>(output: &mut W, bytes: &[u8]) -> io::Result<()>
    ensures { OnOk result (Carries bytes.now (W.contents output.old) (W.contents output.new)) }
{
    for piece in bytes.chunks(MAX_DATA) {
        write_piece(output, piece)?;
    }
    Ok(())
}

/// Writes a record of data.
fn write_piece<W: Write>(output: &mut W, piece: &[u8]) -> io::Result<()>
    requires { length piece.now ≤ 65535 }
    ensures { OnOk result (Appends (W.contents output.old) (W.contents output.new) (record_bytes (Data piece.now))) }
{
    write_head(output, piece.len() as u16)?;
    output.write_all(piece)
}

/// Writes the head of a record of data. The caller must then write this many bytes of the stream.
pub fn write_head<W: Write>(output: &mut W, count: u16) -> io::Result<()>
    ensures { OnOk result (Appends (W.contents output.old) (W.contents output.new) (0 ∷ little_bytes 2 count)) }
{
    let mut head = [DATA, 0, 0];
    LittleEndian::write_u16(&mut head[1..], count);
    output.write_all(&head)
}

/// Writes a question with this number.
pub fn write_question<W: Write>(output: &mut W, number: u64) -> io::Result<()>
    ensures { OnOk result (Appends (W.contents output.old) (W.contents output.new) (record_bytes (Question number))) }
{
    write_number(output, QUESTION, number)
}

/// Writes the answer to the question with this number.
pub fn write_answer<W: Write>(output: &mut W, number: u64) -> io::Result<()>
    ensures { OnOk result (Appends (W.contents output.old) (W.contents output.new) (record_bytes (Answer number))) }
{
    write_number(output, ANSWER, number)
}

/// Writes a record of a kind that has a number.
fn write_number<W: Write>(output: &mut W, kind: u8, number: u64) -> io::Result<()>
    ensures { OnOk result (Appends (W.contents output.old) (W.contents output.new) (kind ∷ little_bytes 8 number)) }
{
    output.write_all(&[kind])?;
    output.write_all(&number_bytes(number))
}
