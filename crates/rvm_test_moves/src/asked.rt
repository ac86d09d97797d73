//! Guests, by the bytes of their images, and what is asked of them.

ghost use Rattle.std.specs.Prelude.{◌≤◌};

use rvm_arguments::{GuestArguments, MoveArguments, RunArguments, ScriptArguments, StatusOf};

/// The most turns that a guest makes.
pub const STEPS: u32 = 20000;

/// The most turns that the guest makes whose move is audited.
pub const AUDIT_STEPS: u32 = 1000;

/// Prints `Hi` and halts its board: the words 100002B7 04800313 0062A023 06900313 0062A023 00A00313 0062A023
/// 001003B7 0003A023.
pub const HELLO: &[u8] = &[
    0xb7, 0x02, 0x00, 0x10, 0x13, 0x03, 0x80, 0x04, 0x23, 0xa0, 0x62, 0x00, //
    0x13, 0x03, 0x90, 0x06, 0x23, 0xa0, 0x62, 0x00, 0x13, 0x03, 0xa0, 0x00, //
    0x23, 0xa0, 0x62, 0x00, 0xb7, 0x03, 0x10, 0x00, 0x23, 0xa0, 0x03, 0x00,
];

/// Writes the first word of its second page again and again: the words 800012B7 0002A023 FFDFF06F.
pub const WRITER: &[u8] = &[
    0xb7, 0x12, 0x00, 0x80, 0x23, 0xa0, 0x02, 0x00, 0x6f, 0xf0, 0xdf, 0xff,
];

/// Prints a point a thousand times, at each third step, and halts its board: the words 100002B7 02E00313 3E800393
/// 0062A023 FFF38393 FE039CE3 001002B7 0002A023.
pub const POINTS: &[u8] = &[
    0xb7, 0x02, 0x00, 0x10, 0x13, 0x03, 0xe0, 0x02, 0x93, 0x03, 0x80, 0x3e, //
    0x23, 0xa0, 0x62, 0x00, 0x93, 0x83, 0xf3, 0xff, 0xe3, 0x9c, 0x03, 0xfe, //
    0xb7, 0x02, 0x10, 0x00, 0x23, 0xa0, 0x02, 0x00,
];

/// Jumps to itself: the word 0000006F.
pub const LOOP: &[u8] = &[0x6f, 0x00, 0x00, 0x00];

/// A board of one hart and four pages.
fn guest() -> GuestArguments<'static> {
    GuestArguments {
        image: "",
        raw: true,
        harts: 1,
        pages: 4,
    }
}

/// A move by streams of this version, of a guest that makes this many turns.
pub fn to_move(steps: u32, stream: u32) -> MoveArguments<'static>
    requires steps { (1 ≤ steps) × (steps ≤ 100000) }
    requires stream { (1 ≤ stream) × (stream ≤ 3) }
{
    MoveArguments {
        guest: guest(),
        steps,
        rounds: 3,
        left: 1,
        factor: 3,
        stream,
        bandwidth: None,
        verdict: false,
    }
}

/// A run of such a guest without a move, of at most `STEPS` turns.
pub fn to_run() -> RunArguments<'static> {
    RunArguments {
        guest: guest(),
        input: None,
        steps: STEPS,
        status: StatusOf::Command,
        stop_at_fault: false,
        trace: None,
        report: None,
        seed: None,
    }
}

/// A script for the hosts of a move.
pub fn to_script() -> ScriptArguments<'static> {
    ScriptArguments {
        guest: guest(),
        script: "",
        hosts: 2,
        stream: Some(1),
    }
}
