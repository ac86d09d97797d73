//! The places of frames, by their maker and their bytes.

ghost use Rattle.std.specs.Prelude.{◌≡◌, ℕ, List, OnOk, Some, if◌then◌else◌};
ghost use Rattle.std.specs.Str.{bytes_eq};
ghost use Rattle.rvm_audit.specs.Merging.{noted, places_of};

use std::alloc::AllocError;
use std::collections::BTreeMap;

/// The place of the first frame of each key, found in logarithmic time.
pub(crate) type Places = BTreeMap<Vec<u8>, u64>;

/// The place of the first frame of this key.
#[tactic(auto, unfolding(crate::specs::Merging::places_of))]
pub(crate) fn lookup(places: &Places, key: &[u8]) -> Option<u64>
    ensures { result ≡ places_of places.now key.now }
{
    places.get(key).copied()
}

/// Gives a key this place, instead of the one that it may have.
#[tactic(auto, unfolding(crate::specs::Merging::places_of))]
pub(crate) fn insert(places: &mut Places, key: Vec<u8>, place: u64) -> Result<(), AllocError>
    ensures { OnOk result ((other : List ℕ) → places_of places.new other
        ≡ (if bytes_eq key.items other then Some place else places_of places.old other)) }
{
    places.insert(key, place)?;
    Ok(())
}

/// Gives a key this place if it has none yet.
pub(crate) fn note(places: &mut Places, key: Vec<u8>, place: u64) -> Result<(), AllocError>
    ensures { OnOk result ((other : List ℕ) → places_of places.new other
        ≡ noted (Some key.items) place (places_of places.old) other) }
{
    if lookup(places, key.as_slice()).is_none() {
        insert(places, key, place)?;
    }
    Ok(())
}
