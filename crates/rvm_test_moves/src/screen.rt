//! A screen on which the consoles of both hosts show.

use std::io;
use std::io::Write;
use std::sync::{Mutex, Wait};

/// A console that shows on a screen which others have too. Each call may wait for another thread.
#[derive(Drop)]
pub struct Console<'a, R> {
    pub rt: &'a R,
    pub screen: &'a Mutex<Vec<u8>>,
}

impl<R: Wait> Write for Console<'_, R> {
    fn write(&mut self, bytes: &[u8]) -> io::Result<usize> {
        let mut screen = self.screen.lock(self.rt);
        screen.extend_from_slice(bytes)?;
        Ok(bytes.len())
    }

    fn flush(&mut self) -> io::Result<()> {
        Ok(())
    }
}

/// A console to which nothing can be written.
#[derive(Drop)]
pub struct ClosedConsole;

impl Write for ClosedConsole {
    fn write(&mut self, _bytes: &[u8]) -> io::Result<usize> {
        Err(io::Error::from(io::ErrorKind::BrokenPipe))
    }

    fn flush(&mut self) -> io::Result<()> {
        Err(io::Error::from(io::ErrorKind::BrokenPipe))
    }
}
