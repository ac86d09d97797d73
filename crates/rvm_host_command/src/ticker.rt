//! The thread that asks all other hosts a question from time to time, so that no connection is silent for long.

use crate::process::Process;
use rvm_station::Hosting;
use std::io::{Read, Write};
use std::net::OpenStream;
use std::sync::Wait;
use std::thread;
use std::time::{Clock, Duration};

/// The milliseconds between two questions.
const PERIOD: u64 = 250;

/// The milliseconds between two looks whether the process is to end.
const LOOK: u64 = 10;

/// Asks all other hosts a question from time to time, until the process is to end.
pub(crate) fn ticker<L: Hosting, S: Read + Write + OpenStream + Drop, R: Wait + Clock>(
    rt: &R,
    process: &Process<L, S>,
) {
    for _period in rt.forever() {
        for _look in 0..PERIOD / LOOK {
            if process.is_stopping() {
                return;
            }
            thread::sleep(rt, Duration::from_millis(LOOK));
        }
        for host in 0..process.hosts {
            let question = process.station.next_question();
            let _lost = process.station.routes.ask(rt, host, question);
        }
    }
    unreachable!()
}
