//! The names of the registers (Unprivileged ISA, "RISC-V Assembly Programmer's Handbook").

ghost use Rattle.std.specs.Prelude.{◌≡◌, ◌<◌, IfSome};
ghost use Rattle.rvm_text.specs.Registers.{register_of, name_of, place_from, texts_of, abi_names, numbered_names};

/// x0 to x31 by their names in the calling convention.
const ABI_NAMES: [&str; 32] = [
    "zero", "ra", "sp", "gp", "tp", "t0", "t1", "t2", "s0", "s1", "a0", "a1", "a2", "a3", "a4",
    "a5", "a6", "a7", "s2", "s3", "s4", "s5", "s6", "s7", "s8", "s9", "s10", "s11", "t3", "t4",
    "t5", "t6",
];

/// x0 to x31 by their numbers.
const NUMBERED_NAMES: [&str; 32] = [
    "x0", "x1", "x2", "x3", "x4", "x5", "x6", "x7", "x8", "x9", "x10", "x11", "x12", "x13", "x14",
    "x15", "x16", "x17", "x18", "x19", "x20", "x21", "x22", "x23", "x24", "x25", "x26", "x27",
    "x28", "x29", "x30", "x31",
];

/// The number of the register that a word names: by its name in the calling convention, by `fp`, which is `s0`, or by
/// `x0` to `x31`. `None` if it names none.
#[tactic(auto, unfolding(crate::specs::Registers::register_of))]
pub fn register(word: &[u8]) -> Option<u32>
    ensures value { result ≡ register_of word.now }
    ensures below { IfSome result (λ number. number < 32) }
{
    match word {
        b"fp" => Some(8),
        _ => abi_register(word).or(numbered_register(word)),
    }
}

/// The number of the register with this name in the calling convention.
#[tactic(auto, unfolding(crate::specs::Registers::abi_names))]
fn abi_register(word: &[u8]) -> Option<u32>
    ensures value { result ≡ place_from 0 abi_names word.now }
    ensures below { IfSome result (λ number. number < 32) }
{
    place(&ABI_NAMES, word)
}

/// The number of the register that is named `x0` to `x31`.
#[tactic(auto, unfolding(crate::specs::Registers::numbered_names))]
fn numbered_register(word: &[u8]) -> Option<u32>
    ensures value { result ≡ place_from 0 numbered_names word.now }
    ensures below { IfSome result (λ number. number < 32) }
{
    place(&NUMBERED_NAMES, word)
}

/// The index of a word in a list of names, if it is one of them.
fn place(names: &[&str; 32], word: &[u8]) -> Option<u32>
    ensures value { result ≡ place_from 0 (texts_of names.now) word.now }
    ensures below { IfSome result (λ number. number < 32) }
{
    let mut number = 0;
    for name in names {
        if word == name.as_bytes() {
            return Some(number);
        }
        number += 1;
    }
    None
}

/// The name in the calling convention of the register with this number, below 32: `s0` for 8.
#[tactic(auto, unfolding(crate::specs::Registers::name_of, crate::specs::Registers::abi_names))]
pub fn register_name(number: u32) -> &'static str
    requires { number < 32 }
    ensures { result.now ≡ name_of number }
{
    match number {
        0 => "zero",
        1 => "ra",
        2 => "sp",
        3 => "gp",
        4 => "tp",
        5 => "t0",
        6 => "t1",
        7 => "t2",
        8 => "s0",
        9 => "s1",
        10 => "a0",
        11 => "a1",
        12 => "a2",
        13 => "a3",
        14 => "a4",
        15 => "a5",
        16 => "a6",
        17 => "a7",
        18 => "s2",
        19 => "s3",
        20 => "s4",
        21 => "s5",
        22 => "s6",
        23 => "s7",
        24 => "s8",
        25 => "s9",
        26 => "s10",
        27 => "s11",
        28 => "t3",
        29 => "t4",
        30 => "t5",
        _ => "t6",
    }
}
