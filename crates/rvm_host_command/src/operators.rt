//! Where operators reach a host, and their connections: over TCP, or over a Unix socket.

ghost use Rattle.std.specs.Prelude.{◌≤◌, length, IfOk};

use std::io;
use std::io::{Read, Write};
use std::net::{OpenListener, OpenStream, Shutdown};
use std::os::unix::net::{UnixListener, UnixStream};
use std::time::Duration;

/// Where operators reach a host. Accepting a connection does not wait.
#[derive(Drop)]
pub enum Operators<N: Drop> {
    Tcp(N),
    Unix(UnixListener),
}

impl<N: OpenListener + Drop> Operators<N> {
    /// Accepts the next connection. Fails if none waits.
    pub(crate) fn accept(&self) -> io::Result<Operator<N::Stream>> {
        match self {
            Operators::Tcp(listener) => {
                let (stream, _from) = listener.accept()?;
                Ok(Operator::Tcp(stream))
            }
            Operators::Unix(listener) => {
                let (stream, _from) = listener.accept()?;
                Ok(Operator::Unix(stream))
            }
        }
    }
}

/// A connection of an operator with a host, at either end.
#[derive(Drop)]
pub enum Operator<S: Drop> {
    Tcp(S),
    Unix(UnixStream),
}

impl<S: Read + Drop> Read for Operator<S> {
    fn read(&mut self, buffer: &mut [u8]) -> io::Result<usize> {
        match self {
            Operator::Tcp(stream) => stream.read(buffer),
            Operator::Unix(stream) => stream.read(buffer),
        }
    }
}

impl<S: Write + Drop> Write for Operator<S> {
    fn write(&mut self, bytes: &[u8]) -> io::Result<usize> {
        match self {
            Operator::Tcp(stream) => stream.write(bytes),
            Operator::Unix(stream) => stream.write(bytes),
        }
    }

    fn flush(&mut self) -> io::Result<()> {
        match self {
            Operator::Tcp(stream) => stream.flush(),
            Operator::Unix(stream) => stream.flush(),
        }
    }
}

impl<S: OpenStream + Drop> OpenStream for Operator<S> {
    fn shutdown(&self, how: Shutdown) -> io::Result<()> {
        match self {
            Operator::Tcp(stream) => stream.shutdown(how),
            Operator::Unix(stream) => stream.shutdown(how),
        }
    }

    fn set_nonblocking(&self, nonblocking: bool) -> io::Result<()> {
        match self {
            Operator::Tcp(stream) => stream.set_nonblocking(nonblocking),
            Operator::Unix(stream) => stream.set_nonblocking(nonblocking),
        }
    }

    fn set_read_timeout(&self, most: Option<Duration>) -> io::Result<()> {
        match self {
            Operator::Tcp(stream) => stream.set_read_timeout(most),
            Operator::Unix(stream) => stream.set_read_timeout(most),
        }
    }

    fn set_write_timeout(&self, most: Option<Duration>) -> io::Result<()> {
        match self {
            Operator::Tcp(stream) => stream.set_write_timeout(most),
            Operator::Unix(stream) => stream.set_write_timeout(most),
        }
    }

    fn try_clone(&self) -> io::Result<Operator<S>> {
        match self {
            Operator::Tcp(stream) => Ok(Operator::Tcp(stream.try_clone()?)),
            Operator::Unix(stream) => Ok(Operator::Unix(stream.try_clone()?)),
        }
    }
}
