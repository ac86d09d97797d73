//! A guest that prints at nearly each step, while it moves.

use crate::ended::MoveResult;
use std::alloc::Global;
use std::net::Net;
use std::sync::Wait;
use std::thread::Threads;
use std::time::Clock;

/// The address of the console in x5, and `H` in x6: the words 100002B7 04800313.
const BEGINNING: [u8; 8] = [0xb7, 0x02, 0x00, 0x10, 0x13, 0x03, 0x80, 0x04];

/// A store of x6 to the console: the word 0062A023.
const STORE: [u8; 4] = [0x23, 0xa0, 0x62, 0x00];

/// A jump back over 49 stores: the word F3DFF06F.
const BACK: [u8; 4] = [0x6f, 0xf0, 0xdf, 0xf3];

/// How many turns the guest makes.
const TURNS: u32 = 100000;

/// The number of bytes that it prints in them: 49 in each 50 turns after the first two, and 48 in the last ones.
const PRINTED: usize = 97999;

/// The image of a guest that prints in 49 of 50 turns.
fn image(alloc: Global) -> Option<Vec<u8>> {
    let mut image = Vec::new(alloc);
    image.extend_from_slice(&BEGINNING).ok()?;
    for _store in 0..49 {
        image.extend_from_slice(&STORE).ok()?;
    }
    image.extend_from_slice(&BACK).ok()?;
    Some(image)
}

/// Moves such a guest, and prints whether all its bytes were written.
pub fn print_much<R: AllocGlobal + Print + Net + Threads + Wait + Clock + Sync>(
    rt: &R,
) -> anyhow::Result<()>
where
    R::Stream: Send,
{
    match image(rt.alloc()) {
        Some(image) => {
            let ended = MoveResult::over_tcp(rt, image.as_slice(), TURNS, 1);
            print_end(rt, &ended)
        }
        None => {
            println!(rt; "no image")?;
            Ok(())
        }
    }
}

/// Prints what became of the move.
fn print_end<R: Print>(rt: &R, ended: &MoveResult) -> anyhow::Result<()> {
    let good = ended.status == Ok(0);
    let moved = ended.has("finished");
    let all = ended.output.len() == PRINTED && ended.output.iter().all(|byte| *byte == b'H');
    println!(rt;
        "a guest that prints at nearly each step: status 0 {good}, moved {moved}, all bytes {all}"
    )?;
    Ok(())
}
