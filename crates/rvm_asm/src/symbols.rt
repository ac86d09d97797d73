//! The values of names.

ghost use Rattle.std.specs.Prelude.{◌≡◌, ℕ, List, Some, OnOk, if◌then◌else◌};
ghost use Rattle.std.specs.Str.{bytes_eq};
ghost use Rattle.rvm_asm.specs.LineViews.{names_of};

use std::alloc::AllocError;
use std::collections::BTreeMap;

/// The values of names, each found in logarithmic time.
pub type Symbols<'a> = BTreeMap<&'a [u8], u32>;

/// A name with its value.
#[derive(Clone, Copy)]
pub struct Symbol<'a> {
    pub name: &'a [u8],
    pub value: u32,
}

/// The value of a name, if it has one.
#[tactic(auto, unfolding(crate::specs::LineViews::names_of))]
pub fn lookup(symbols: &Symbols, name: &[u8]) -> Option<u32>
    ensures { result ≡ names_of symbols.now name.now }
{
    symbols.get(name).copied()
}

/// Gives a name its value, in place of any value that it has. Fails only if memory runs out.
#[tactic(auto, unfolding(crate::specs::LineViews::names_of))]
pub fn insert<'a>(symbols: &mut Symbols<'a>, symbol: Symbol<'a>) -> Result<(), AllocError>
    ensures { OnOk result ((name : List ℕ) → names_of symbols.new name
        ≡ (if bytes_eq symbol.entry.name.now name then Some symbol.entry.value
        else names_of symbols.old name)) }
{
    symbols.insert(symbol.name, symbol.value)?;
    Ok(())
}
