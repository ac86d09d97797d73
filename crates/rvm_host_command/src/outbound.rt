//! The end of a connection by which records go out.

use std::alloc::{AllocError, Global};
use std::io;
use std::io::{BufWriter, Read, Write};
use std::net::{OpenStream, Shutdown};

/// The most bytes that go out together: those of some thirty pages.
const TOGETHER: usize = 1 << 17;

/// The end of a connection by which records go out. If a write fails, it ends the connection in both directions, so
/// that whoever reads it finds its end, and what waits is not sent again.
#[derive(Drop)]
pub(crate) struct Outbound<S: Read + Write + OpenStream + Drop> {
    stream: BufWriter<S>,
}

impl<S: Read + Write + OpenStream + Drop> Outbound<S> {
    /// A connection on which nothing waits to go out. Fails if memory runs out.
    pub(crate) fn new(alloc: Global, stream: S) -> Result<Outbound<S>, AllocError> {
        match BufWriter::with_capacity(alloc, TOGETHER, stream) {
            Ok(stream) => Ok(Outbound { stream }),
            Err(_) => Err(AllocError),
        }
    }

    /// Ends the connection in both directions.
    fn end(&self) {
        let _ended = self.stream.get_ref().shutdown(Shutdown::Both);
    }
}

impl<S: Read + Write + OpenStream + Drop> Write for Outbound<S> {
    fn write(&mut self, bytes: &[u8]) -> io::Result<usize> {
        let written = self.stream.write(bytes);
        if written.is_err() {
            self.end();
        }
        written
    }

    fn flush(&mut self) -> io::Result<()> {
        let flushed = self.stream.flush();
        if flushed.is_err() {
            self.end();
        }
        flushed
    }
}
