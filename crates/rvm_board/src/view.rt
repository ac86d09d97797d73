//! At most 256 bytes of RAM or of the console, kept in place.

ghost use Rattle.std.specs.Prelude.{◌≡◌, [], ◌<◌, ◌≤◌, ◌↔◌, length, nat_eq, IfSome, IsNone};
ghost use Rattle.std.specs.Cmp.{partial_equiv_from_equiv};
ghost use Rattle.std.specs.Cmp.Lexicographic.{nat_list_eq_equiv, pointwise};

use crate::board::VIEW_SIZE;
use arrayvec::ArrayVec;
use std::marker::Model;

/// A list of at most 256 bytes.
#[derive(Drop)]
pub struct View {
    bytes: ArrayVec<u8, VIEW_SIZE>,
}

impl Model for View {
    ghost use Rattle.std.specs.Prelude.{List, ℕ, ◌≤◌, length};

    ghost Value = { List ℕ };

    ghost view = { λ v. v.bytes.items };

    ghost invariant = { λ v. length v.bytes.items ≤ 256 };
}

impl View {
    /// A view of these bytes, if there are at most 256.
    pub fn new(bytes: &[u8]) -> Option<View>
        ensures view { IfSome result (λ v. v ≡ bytes.now) }
        ensures long { IsNone result ↔ (256 < length bytes.now) }
    {
        let Ok(bytes) = ArrayVec::try_from(bytes) else {
            return None;
        };
        Some(View { bytes })
    }

    /// A view of no bytes.
    pub fn empty() -> View
        ensures { result ≡ [] }
    {
        View {
            bytes: ArrayVec::new(),
        }
    }

    /// A view of these bytes, of which there are at most 256.
    pub(crate) fn of(bytes: &[u8]) -> View
        requires { length bytes.now ≤ 256 }
        ensures { result ≡ bytes.now }
    {
        let mut view = View {
            bytes: ArrayVec::new(),
        };
        let fits = view.bytes.try_extend_from_slice(bytes).is_ok();
        prove!(fits);
        view
    }

    /// A copy of the view.
    pub fn copy(&self) -> View
        ensures { result ≡ self.now }
    {
        View::of(self.as_slice())
    }

    /// The bytes.
    pub fn as_slice(&self) -> &[u8]
        ensures bytes { result.now ≡ self.now }
        ensures bound { length result.now ≤ 256 }
    {
        self.bytes.as_slice()
    }
}

impl PartialEq for View {
    ghost eq = { pointwise nat_eq };

    ghost laws = { partial_equiv_from_equiv nat_list_eq_equiv };

    fn eq(&self, other: &View) -> bool {
        self.as_slice() == other.as_slice()
    }
}

impl Eq for View {
    ghost laws = { nat_list_eq_equiv };
}
