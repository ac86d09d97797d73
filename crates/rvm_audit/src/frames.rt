//! The frames that the entries of journals made, and those that came with them.

ghost use Rattle.std.specs.Prelude.{◌≡◌, ◌∷◌, IfOk, OnOk, MatchOption, List, ℕ, is_some};
ghost use Rattle.rvm_audit.specs.Merging.{IsKey, IsNoFrame, key_of, noted, places_of};
ghost use Rattle.rvm_audit.specs.Quiet.{IsOfCommand};
ghost use Rattle.rvm_message.specs.declared.event.HostEvent.TheVariants.{Came};

use crate::places::{Places, note};
use rvm_frame::{Addressed, Frame, frame_bytes, has_spelling};
use rvm_message::{Exchange, ExchangeRef, HostEvent, Shared};
use rvm_recorder::Entry;
use std::alloc::{AllocError, Global};

/// The maker of a frame and its bytes, as one key.
pub(crate) fn frame_key(alloc: Global, maker: u8, bytes: &[u8]) -> Result<Vec<u8>, AllocError>
    ensures { IfOk result (λ key. key.items ≡ maker ∷ bytes.now) }
{
    let mut key = Vec::new(alloc);
    key.push(maker)?;
    key.extend_from_slice(bytes)?;
    Ok(key)
}

/// Notes this place as that of the frame of a host's entry, if it made one, unless an equal frame of this host has a
/// place. Returns whether it made one.
pub(crate) fn note_made(
    alloc: Global,
    places: &mut Places,
    host: u8,
    entry: &Entry,
    place: u64,
) -> Result<bool, AllocError>
    ensures places { OnOk result ((key : List ℕ) → places_of places.new key
        ≡ noted (key_of host entry.now.frame) place (places_of places.old) key) }
    ensures made { IfOk result (λ made. made ≡ is_some entry.now.frame) }
{
    let Some(frame) = entry.frame() else {
        return Ok(false);
    };
    let bytes = frame.to_vec(alloc)?;
    let key = frame_key(alloc, host, bytes.as_slice())?;
    note(places, key, place)?;
    Ok(true)
}

/// The key that a frame which came to a host has as one that host `from` made; none if that one is this host, is not
/// there, or if no stream has such a frame.
pub(crate) fn key_of_coming(
    alloc: Global,
    host: u8,
    count: u8,
    version: u32,
    from: u8,
    frame: &Frame,
) -> Result<Option<Vec<u8>>, AllocError>
    ensures { IfOk result (λ o. MatchOption o
        (IsNoFrame version count host from frame.now)
        (λ key. IsKey version count host from frame.now key.items)) }
{
    if from >= count || from == host {
        return Ok(None);
    }
    let coming = Addressed {
        from,
        to: host,
        frame: frame.copy(alloc)?,
    };
    if !has_spelling(version, &coming) {
        return Ok(None);
    }
    let bytes = frame_bytes(alloc, version, &coming)?;
    Ok(Some(frame_key(alloc, from, bytes.as_slice())?))
}

/// The frame that came, and the host that it came from; none if the event of the exchange is a command.
pub(crate) fn came(exchange: &Exchange) -> Option<(u8, &Shared<Frame>)>
    ensures { MatchOption result
        (IsOfCommand exchange.now.event)
        (λ c. exchange.now.event ≡ Came c.0 c.1.now) }
{
    match exchange.look() {
        ExchangeRef::Step { .. } => None,
        ExchangeRef::Dry(_) => None,
        ExchangeRef::Copied { .. } => None,
        ExchangeRef::Stored { from, frame, .. } => Some((from, frame)),
        ExchangeRef::Other { event, reply: _ } => match event {
            HostEvent::Do(_) => None,
            HostEvent::Came(from, frame) => Some((*from, frame)),
        },
    }
}
