//! A connection that is read up to a point in time.

use std::io;
use std::io::{ErrorKind, Read};
use std::net::OpenStream;
use std::time::{Clock, Duration};

/// A connection that is read up to a point in time, so that nobody holds its reader for longer.
#[derive(Drop)]
pub(crate) struct Timed<'a, S: Read + OpenStream, R: Clock> {
    rt: &'a R,
    stream: &'a mut S,
    end: Duration,
}

impl<'a, S: Read + OpenStream, R: Clock> Timed<'a, S, R> {
    /// A connection that can be read for `most` from now on.
    pub(crate) fn new(rt: &'a R, stream: &'a mut S, most: Duration) -> Timed<'a, S, R> {
        let now = rt.monotonic().unwrap_or(Duration::ZERO);
        Timed {
            rt,
            stream,
            end: now.saturating_add(most),
        }
    }
}

impl<S: Read + OpenStream, R: Clock> Read for Timed<'_, S, R> {
    fn read(&mut self, buffer: &mut [u8]) -> io::Result<usize> {
        let left = self.end.saturating_sub(self.rt.monotonic()?);
        if left == Duration::ZERO {
            return Err(io::Error::from(ErrorKind::TimedOut));
        }
        self.stream.set_read_timeout(Some(left))?;
        self.stream.read(buffer)
    }
}
