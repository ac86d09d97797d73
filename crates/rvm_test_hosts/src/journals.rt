//! The journal of a host, byte by byte.

use rvm_board::BoardEvent;
use rvm_frame::Frame;
use rvm_journal::{Header, JournalWriter};
use rvm_message::Command;
use rvm_refusal::LinkFault;
use rvm_station::EventLog;
use std::alloc::Global;
use std::test::Fail;

/// The journal of host 1 of three. Its digests are those of `sha256sum`.
const JOURNAL: &str = "\
a231a8889b8ddd9a journal 1 host 1 of 3 process 7 world 0 without guest
6fa45d3c52ad4e00 turns 0 2 128
616c2ca57023329f B drain 256
b9def2473407a9f4 came 090001030000000000000000000000
0308d70be207381c turns 0 2 3
e3876810b6307445 end
";

/// Keeps events in a journal that is written to `file`: 128 turns of two harts, told in two parts, and no turns after
/// them, a drain, a frame from host 0, and three turns. Fails if not all were kept.
fn keep_events(alloc: Global, file: &mut [u8]) -> Result<(), LinkFault> {
    let header = Header {
        hosts: 3,
        host: 1,
        process: 7,
        world: 0,
        guest: None,
    };
    let mut journal = JournalWriter::new(alloc, file, &header)?;
    journal.turns(0, 2, 64);
    journal.turns(64, 2, 64);
    journal.turns(128, 2, 0);
    journal.command(&Command::Board(BoardEvent::Drain(256)));
    journal.came(0, &Frame::Go { move_number: 3 });
    journal.turns(128, 2, 3);
    journal.finish()
}

#[test]
fn each_event_has_a_line(rt: HostRuntime) -> Result<(), Fail> {
    let mut file = [0u8; 234];
    keep_events(rt.alloc(), file.as_mut_slice())?;
    assert!(rt; file.as_slice() == JOURNAL.as_bytes());
    Ok(())
}

#[test]
fn a_journal_ends_with_the_last_line_that_fits(rt: HostRuntime) -> Result<(), Fail> {
    let mut file = [0u8; 212];
    assert!(rt; keep_events(rt.alloc(), file.as_mut_slice()) == Err(LinkFault));
    let whole = JOURNAL.len() - 50;
    assert!(rt; file.starts_with(&JOURNAL.as_bytes()[..whole]));
    Ok(())
}
