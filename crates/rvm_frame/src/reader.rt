//! A reader of a stream that comes in pieces.

ghost use Rattle.std.specs.Prelude.{◌≡◌, ◌+◌, ◌++◌, Ok, Some, None, false, true, take, IfOk, IfErr, IfSome, OnErr};
ghost use Rattle.rvm_frame.specs.Grammar.{Spells};
ghost use Rattle.rvm_frame.specs.Kinds.{version_after};
ghost use Rattle.rvm_frame.specs.Reader.{Faults, Refuses, at_start, faulted_of, next_of};
ghost use Rattle.rvm_frame.specs.Unfinished.{kept_of};
ghost use Rattle.rvm_frame.specs.Verdict.{Decides, verdict};

use crate::addressed::Received;
use crate::fault::{FrameFault, ReadFault};
use crate::frame::Frame;
use crate::unfinished::Unfinished;
use std::alloc::Global;
use std::marker::Model;

/// The version of a stream after a frame.
fn version_behind(version: Option<u32>, frame: &Frame) -> Option<u32>
    ensures { result ≡ version_after version frame.now }
{
    match frame {
        Frame::Hello { version } => Some(*version),
        _ => version,
    }
}

/// Takes the bytes of a piece up to the end of the first whole frame. Returns how many it took, and the frame if there
/// is one. After a fault nothing has changed.
fn gather(
    alloc: Global,
    bytes: &mut Unfinished,
    piece: &[u8],
) -> Result<(usize, Option<Received>), ReadFault>
    requires { verdict bytes.old.version bytes.old.bytes ≡ Ok None }
    ensures decides { IfOk result
        (λ r. Decides bytes.old.version bytes.old.bytes piece.now r.0 (Ok r.1)) }
    ensures next { IfOk result (λ r. bytes.new ≡ record {
      version = bytes.old.version;
      bytes = kept_of (bytes.old.bytes ++ piece.now) r.1;
    }) }
    ensures refused { IfErr result
        (λ fault. Refuses bytes.old.version bytes.old.bytes piece.now fault) }
    ensures err { OnErr result (bytes.new ≡ bytes.old) }
{
    let before = bytes.len();
    let mut used = 0;
    while used < piece.len() {
        match bytes.step(alloc, &piece[used..]) {
            Ok((count, None)) => used += count,
            Ok((count, Some(received))) => return Ok((used + count, Some(received))),
            Err(fault) => {
                bytes.truncate(before);
                return Err(fault);
            }
        }
    }
    Ok((used, None))
}

/// A reader of the stream in one direction: one Hello, and then frames of other kinds.
#[derive(Debug, Drop)]
pub struct FrameReader {
    failed: bool,
    unfinished: Unfinished,
}

impl Model for FrameReader {
    ghost use Rattle.std.specs.Prelude.{◌≡◌, Ok, None};
    ghost use Rattle.rvm_codec.specs.Exact.{IsBytes};
    ghost use Rattle.rvm_frame.specs.Reader.{Gathered};
    ghost use Rattle.rvm_frame.specs.Verdict.{verdict};

    ghost Value = { Gathered };

    ghost view = { λ r. record {
      version = r.unfinished.version;
      failed = r.failed;
      bytes = r.unfinished.bytes;
    } };

    ghost invariant = { λ r. (verdict r.unfinished.version r.unfinished.bytes ≡ Ok None)
        × IsBytes r.unfinished.bytes };
}

impl FrameReader {
    /// A reader before the first byte of a stream.
    pub fn new(_alloc: Global) -> FrameReader
        ensures { result ≡ at_start }
    {
        FrameReader {
            failed: false,
            unfinished: Unfinished::new(None),
        }
    }

    /// The stream's version, if its Hello has come.
    pub fn version(&self) -> Option<u32>
        ensures { result ≡ self.now.version }
    {
        self.unfinished.version()
    }

    /// Takes the bytes of a piece up to the end of the first whole frame, or all of them if there is
    /// none. Returns how many it took, and the frame, with from and to in version 3. `BadFrame` and
    /// `TooLong` come at the byte at which the stream is refused, and `Failed` from then on.
    /// `OutOfMemory` comes only if the piece is not refused, and leaves the reader unchanged.
    pub fn feed(
        &mut self,
        alloc: Global,
        piece: &[u8],
    ) -> Result<(usize, Option<Received>), FrameFault>
        // The first frame that is whole, at its last byte, in whatever pieces the stream comes.
        ensures decides { IfOk result
            (λ r. Decides self.old.version self.old.bytes piece.now r.0 (Ok r.1)) }
        ensures whole { IfOk result
            (λ r. IfSome r.1
            (λ x. Spells self.old.version (self.old.bytes ++ take r.0 piece.now) x)) }
        ensures next { IfOk result (λ r. self.new ≡ next_of self.old piece.now r.1) }
        ensures open { IfOk result (λ r. self.old.failed ≡ false) }

        // A refusal comes at the first byte at which the stream is refused; memory runs out only if the
        // piece has no such byte.
        ensures refused { IfErr result (λ fault. Faults self.old piece.now fault) }
        ensures after { IfErr result (λ fault. self.new ≡ faulted_of self.old fault) }
        ensures failed { self.old.failed ≡ true → result ≡ Err FrameFault.Failed }
    {
        if self.failed {
            return Err(FrameFault::Failed);
        }
        match gather(alloc, &mut self.unfinished, piece) {
            Ok((used, Some(received))) => {
                let version = version_behind(self.unfinished.version(), &received.1);
                self.unfinished = Unfinished::new(version);
                Ok((used, Some(received)))
            }
            Ok((used, None)) => Ok((used, None)),
            Err(ReadFault::OutOfMemory) => Err(FrameFault::OutOfMemory),
            Err(fault) => {
                self.failed = true;
                Err(FrameFault::from(fault))
            }
        }
    }
}
