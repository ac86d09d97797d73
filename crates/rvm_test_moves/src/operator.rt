//! An operator, who tells hosts what to do.

use rvm_host_command::tell_command::tell_command;
use std::net::{Net, SocketAddr, TcpStream};
use std::sync::Wait;
use std::time::{Clock, Duration};
use std::{io, thread};

/// The most times that a host is asked the same, 10 milliseconds apart.
const TRIES: u32 = 6000;

/// What a host answered.
#[derive(Drop)]
pub struct Answer {
    pub text: Vec<u8>,
    pub status: u8,
}

impl Answer {
    /// Whether the answer begins with this text.
    pub fn begins(&self, text: &str) -> bool {
        self.text.starts_with(text.as_bytes())
    }

    /// Whether the answer contains this text.
    fn has(&self, text: &str) -> bool {
        self.text
            .windows(text.len().max(1))
            .any(|window| window == text.as_bytes())
    }
}

/// Tells a host a line. Returns its answer.
pub fn tell<R: AllocGlobal + Net>(rt: &R, host: SocketAddr, line: &str) -> anyhow::Result<Answer> {
    let stream = TcpStream::connect(rt, host)?;
    let mut text = Vec::new(rt.alloc());
    let mut lines = line.as_bytes();
    let status = tell_command(rt.alloc(), stream, &mut lines, &mut text, &mut io::sink());
    Ok(Answer { text, status })
}

/// Waits until the status of a host contains a text. Returns whether it does in time.
pub fn await_status<R: AllocGlobal + Net + Wait + Clock>(
    rt: &R,
    host: SocketAddr,
    text: &str,
) -> anyhow::Result<bool> {
    await_answer(rt, host, "status", text)
}

/// Waits until what a host answers to a line contains a text. Returns whether it does in time.
pub fn await_answer<R: AllocGlobal + Net + Wait + Clock>(
    rt: &R,
    host: SocketAddr,
    line: &str,
    text: &str,
) -> anyhow::Result<bool> {
    for _try in 0..TRIES {
        if tell(rt, host, line)?.has(text) {
            return Ok(true);
        }
        thread::sleep(rt, Duration::from_millis(10));
    }
    Ok(false)
}
