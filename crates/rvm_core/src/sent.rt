//! Frames that were sent.

ghost use Rattle.std.specs.Prelude.{◌≡◌, ◌++◌, ◌-◌, ◌<◌, ◌≤◌, [], length, true, IfOk, OnErr, OnOk, vec_capacity};
ghost use Rattle.rvm_message.specs.Frames.{frame_heard};
ghost use Rattle.rvm_core.specs.Worlds.{CanBeKept, frame_in, is_frame, place_of, posted};

use rvm_frame::{Addressed, Frame, ReadFault, append_frame, read_frame};
use std::alloc::{AllocError, Global};
use std::marker::Model;

/// The bytes of a frame, and the hosts between which it goes.
#[derive(Drop)]
pub(crate) struct Sent {
    from: u8,
    to: u8,
    bytes: Vec<u8>,
}

impl Model for Sent {
    ghost use Rattle.rvm_core.specs.Worlds.{Kept};

    ghost Value = { Kept };

    ghost view = { λ s. record { from = s.from; to = s.to; bytes = s.bytes.items } };
}

impl Sent {
    /// The host that sent it.
    pub(crate) fn sender(&self) -> u8
        ensures { result ≡ self.now.from }
    {
        self.from
    }

    /// The host to which it goes.
    pub(crate) fn receiver(&self) -> u8
        ensures { result ≡ self.now.to }
    {
        self.to
    }

    /// The bytes of the frame.
    pub(crate) fn bytes(&self) -> &[u8]
        ensures { result.now ≡ self.now.bytes }
    {
        self.bytes.as_slice()
    }

    /// Reads the frame from its bytes, for a stream of this version. Fails if memory runs out.
    pub(crate) fn read(&self, alloc: Global, version: u32) -> Result<Frame, AllocError>
        requires { is_frame version self.now.bytes ≡ true }
        ensures { IfOk result (λ f. frame_heard f ≡ frame_in version self.now.bytes) }
    {
        match read_frame(alloc, version, self.bytes.as_slice()) {
            Ok((_, frame)) => Ok(frame),
            Err(ReadFault::OutOfMemory) => Err(AllocError),
            Err(_) => unreachable!(),
        }
    }
}

/// Allocates room for a frame of at most `bound` bytes, and a place for it in `sent`; neither if `bound` is 0. Fails if
/// memory runs out.
pub(crate) fn make_room(
    alloc: Global,
    sent: &mut Vec<Sent>,
    bound: usize,
) -> Result<Vec<u8>, AllocError>
    ensures sent { sent.new.items ≡ sent.old.items }
    ensures empty { IfOk result (λ bytes. bytes.items ≡ []) }
    ensures bytes { IfOk result (λ bytes. bound ≤ vec_capacity bytes) }
    ensures place { OnOk result (0 < bound → length sent.new.items < vec_capacity sent.new) }
    ensures err { OnErr result (0 < bound) }
{
    if bound == 0 {
        return Ok(Vec::new(alloc));
    }
    sent.reserve(1)?;
    Vec::with_capacity(alloc, bound)
}

/// Writes the bytes of a frame, if one was made, keeps them in `sent`, and returns their place. `bytes` and `sent` must
/// have room for the frame; the room in `bytes` that it does not need is freed.
pub(crate) fn post(
    version: u32,
    sent: &mut Vec<Sent>,
    frame: Option<Addressed>,
    mut bytes: Vec<u8>,
) -> Option<usize>
    requires empty { bytes.items ≡ [] }
    requires fits { CanBeKept version (vec_capacity bytes)
        (vec_capacity sent.old - length sent.old.items) frame }
    ensures sent { sent.new.items ≡ sent.old.items ++ posted version frame }
    ensures place { result ≡ place_of (length sent.old.items) (length sent.new.items) }
{
    let frame = frame?;
    append_frame(version, &frame, &mut bytes);
    bytes.shrink_to_fit();
    let place = sent.len();
    sent.push_reserved(Sent {
        from: frame.from,
        to: frame.to,
        bytes,
    });
    Some(place)
}
