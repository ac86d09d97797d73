//! The coverage of a run: the lines that `rvmove dis` lists of its image, before each how often the instruction there
//! ran.

ghost use Rattle.std.specs.Prelude.{◌≡◌, ◌≤◌, ◌%◌, ◌+◌, ◌^◌, ◌++◌, [], codes, drop, length, replicate, sum, true, IfOk, OnOk};
ghost use Rattle.std.specs.Io.KnownBytes.{Appends};
ghost use Rattle.rvm_asm.specs.Images.{pieces_of};
ghost use Rattle.rvm_command.specs.Command.{before_word};
ghost use Rattle.rvm_command.specs.Counting.{has_place, noted, number_at, place_of, places_before, places_until, sum_between};
ghost use Rattle.rvm_command.specs.Coverage.{counted_line, counted_lines, counted_listing, has_run, in_ten};

use byteorder::{ByteOrder, LittleEndian};
use rvm_asm::Segment;
use rvm_board::BoardReply;
use rvm_dis::write_line;
use rvm_hart::RAM_BASE;
use rvm_refusal::LinkFault;
use std::alloc::{AllocError, Global};
use std::fmt;
use std::io::Write;
use std::marker::Model;

/// How often the instruction at each word of RAM ran; no numbers if nothing is counted.
#[derive(Drop)]
pub(crate) struct Counts {
    words: Vec<u32>,
}

impl Model for Counts {
    ghost use Rattle.std.specs.Prelude.{◌≤◌, ◌^◌, List, ℕ, length};

    ghost Value = { List ℕ };

    ghost view = { λ c. c.words.items };

    ghost invariant = { λ c. length c.words.items ≤ 2 ^ 32 };
}

impl Counts {
    /// No numbers, so that nothing is counted. Allocates nothing.
    pub(crate) fn none(alloc: Global) -> Counts
        ensures { result ≡ [] }
    {
        Counts {
            words: Vec::new(alloc),
        }
    }

    /// No instruction ran yet, in RAM of this many words. Fails only if memory runs out.
    pub(crate) fn new(alloc: Global, words: u32) -> Result<Counts, AllocError>
        ensures { IfOk result (λ c. c ≡ replicate words 0) }
    {
        let mut counts = Vec::new(alloc);
        counts.resize(words as usize, 0u32)?;
        Ok(Counts { words: counts })
    }

    /// Whether nothing is counted.
    pub(crate) fn is_empty(&self) -> bool
        ensures { result ≡ true → self.now ≡ [] }
    {
        self.words.is_empty()
    }

    /// Notes a step of a hart that had this `pc` before it, and its answer. Numbers are counted modulo 2^32.
    #[tactic(auto, unfolding(crate::specs::Counting::noted))]
    pub(crate) fn note(&mut self, pc: u32, reply: &BoardReply)
        ensures noted { self.new ≡ noted pc reply.now self.old }
        ensures count { length self.new ≡ length self.old }
    {
        let words = &mut self.words;
        if has_run(reply) && has_place(pc, words.len()) {
            let place = place_of(pc);
            words[place] = words[place].wrapping_add(1);
        }
    }

    /// The number of the word at an address, or 0 if it has none.
    #[tactic(auto, unfolding(crate::specs::Counting::number_at))]
    pub(crate) fn number_at(&self, address: u32) -> u32
        ensures { result ≡ number_at self.now address }
    {
        if has_place(address, self.words.len()) {
            self.words[place_of(address)]
        } else {
            0
        }
    }

    /// The sum of the numbers of the words from an address on, up to the end of their range, if it has one.
    #[tactic(auto, unfolding(crate::specs::Counting::sum_between))]
    pub(crate) fn sum_between(&self, from: u32, end: Option<u32>) -> u64
        ensures { result ≡ sum_between self.now from end }
    {
        let words = &self.words;
        let first = places_before(from, words.len());
        let last = places_until(end, words.len());
        if first < last {
            sum(&words[first..last])
        } else {
            0
        }
    }
}

/// The sum of numbers.
fn sum(numbers: &[u32]) -> u64
    requires { length numbers.now ≤ 2 ^ 32 }
    ensures { result ≡ sum numbers.now }
{
    let mut total = 0u64;
    for number in numbers {
        total += u64::from(*number);
    }
    total
}

/// How many of the first `count` words of RAM stand before an address.
fn places_before(address: u32, count: usize) -> usize
    ensures { result ≡ places_before address count }
{
    let bytes = address.saturating_sub(RAM_BASE) as usize;
    ((bytes + 3) / 4).min(count)
}

/// How many of the first `count` words of RAM stand before the end of a range, if it has one.
fn places_until(end: Option<u32>, count: usize) -> usize
    ensures { result ≡ places_until end count }
{
    match end {
        Some(address) => places_before(address, count),
        None => count,
    }
}

/// Whether the instruction at pc ran in a step with this answer: not if the hart stopped at a breakpoint before it, or
/// an interrupt came before it.
fn has_run(reply: &BoardReply) -> bool
    ensures { result ≡ has_run reply.now }
{
    match reply {
        BoardReply::Retired | BoardReply::Trapped(_) | BoardReply::Halted(_) => true,
        _ => false,
    }
}

/// Whether an address is that of one of the first `count` words of RAM.
fn has_place(address: u32, count: usize) -> bool
    ensures { result ≡ has_place address count }
{
    address >= RAM_BASE && address % 4 == 0 && place_of(address) < count
}

/// The place of the word at an address among the words of RAM.
fn place_of(address: u32) -> usize
    ensures { result ≡ place_of address }
{
    (address.saturating_sub(RAM_BASE) / 4) as usize
}

/// Writes the lines of segments, in order, each with the number of its address.
pub(crate) fn write_coverage<O: Write>(
    segments: &[Segment],
    counts: &Counts,
    output: &mut O,
) -> Result<(), LinkFault>
    ensures { OnOk result (Appends (O.contents output.old) (O.contents output.new)
        (counted_listing (number_at counts.now) (pieces_of segments.now))) }
{
    for segment in segments {
        write_segment(segment, counts, output)?;
    }
    Ok(())
}

/// Writes the lines of the whole aligned words of a segment, each with the number of its address.
fn write_segment<O: Write>(
    segment: &Segment,
    counts: &Counts,
    output: &mut O,
) -> Result<(), LinkFault>
    ensures { OnOk result (Appends (O.contents output.old) (O.contents output.new)
        (counted_lines (number_at counts.now) ((segment.now.address + before_word segment.now.address) % 2 ^ 32)
        (drop (before_word segment.now.address) segment.now.bytes.items))) }
{
    let skipped = (4 - segment.address % 4) % 4;
    if segment.bytes.len() < skipped as usize {
        return Ok(());
    }
    let words = &segment.bytes[skipped as usize..];
    write_words(segment.address.wrapping_add(skipped), words, counts, output)
}

/// Writes the lines of the whole words of bytes that stand from this address on, a multiple of four.
fn write_words<O: Write>(
    address: u32,
    bytes: &[u8],
    counts: &Counts,
    output: &mut O,
) -> Result<(), LinkFault>
    ensures { OnOk result (Appends (O.contents output.old) (O.contents output.new)
        (counted_lines (number_at counts.now) address bytes.now)) }
{
    let mut address = address;
    let mut bytes = bytes;
    while bytes.len() >= 4 {
        let (word, rest) = bytes.split_at(4);
        let count = counts.number_at(address);
        write_counted(count, address, LittleEndian::read_u32(word), output)?;
        address = address.wrapping_add(4);
        bytes = rest;
    }
    Ok(())
}

/// Writes the line of a word, after a number.
fn write_counted<O: Write>(
    count: u32,
    address: u32,
    word: u32,
    output: &mut O,
) -> Result<(), LinkFault>
    ensures { OnOk result (Appends (O.contents output.old) (O.contents output.new)
        (counted_line count address word)) }
{
    write!(output, "{}  ", InTen(u64::from(count)))?;
    write_line(address, word, output)?;
    writeln!(output)?;
    Ok(())
}

/// A number, shown in decimal in ten columns, with spaces before it.
#[derive(Clone, Copy)]
pub(crate) struct InTen(pub(crate) u64);

impl fmt::Display for InTen {
    ghost use Rattle.std.specs.Prelude.{Some};
    ghost use Rattle.rvm_command.specs.Coverage.{in_ten};

    ghost output = { λ n. Some (in_ten n.0) };

    #[tactic(auto, using(crate::proofs::Covering::right_aligned))]
    fn fmt<W: fmt::Write>(&self, f: &mut fmt::Formatter<W>) -> fmt::Result {
        let number = self.0;
        write!(f, "{number:>10}")
    }
}
