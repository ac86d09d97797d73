//! The addresses of hosts and of operators.

use crate::fault::{HostFault, Place};
use crate::operators::Operators;
use std::io::ErrorKind;
use std::net::{Net, OpenListener, SocketAddr, TcpListener, ToSocketAddrs};
use std::os::unix::fs::FileTypeExt;
use std::os::unix::net::{UnixListener, UnixStream};
use std::rt::Files;
use std::{fs, io, str};

/// The first address that a text names: an IP address, or a host name that the runtime looks up, and a port. Fails if
/// the text is not UTF-8 or names no address.
pub(crate) fn address_of<R: Net>(rt: &R, text: &[u8]) -> io::Result<SocketAddr> {
    let Ok(text) = str::from_utf8(text) else {
        return Err(io::Error::from(ErrorKind::InvalidInput));
    };
    match text.to_socket_addrs(rt)?.next() {
        Some(found) => Ok(found),
        None => Err(io::Error::from(ErrorKind::NotFound)),
    }
}

/// The address that a text names. `NoAddress` if it names none; `NotLoopback` if `only_loopback` is set and it is no
/// loopback address.
pub(crate) fn checked_address<R: Net>(
    rt: &R,
    place: Place,
    text: &[u8],
    only_loopback: bool,
) -> Result<SocketAddr, HostFault> {
    let Ok(address) = address_of(rt, text) else {
        return Err(HostFault::NoAddress(place));
    };
    if only_loopback && !address.ip().is_loopback() {
        return Err(HostFault::NotLoopback(place));
    }
    Ok(address)
}

/// Listens at the address that a text names, which must be a loopback address if `only_loopback` is set. Accepting a
/// connection does not wait.
pub(crate) fn listen_at<R: Net>(
    rt: &R,
    place: Place,
    text: &[u8],
    only_loopback: bool,
) -> Result<R::Listener, HostFault> {
    let address = checked_address(rt, place, text, only_loopback)?;
    match bind(rt, address) {
        Ok(listener) => Ok(listener),
        Err(error) => Err(HostFault::CannotListen(place, error)),
    }
}

/// Listens for operators: at a Unix socket if the text is a path, else at the address that it names, which must be a
/// loopback address. Accepting a connection does not wait.
pub(crate) fn listen_for_operators<R: Files + Net>(
    rt: &R,
    text: &str,
) -> Result<Operators<R::Listener>, HostFault> {
    if !is_path(text) {
        let listener = listen_at(rt, Place::Control, text.as_bytes(), true)?;
        return Ok(Operators::Tcp(listener));
    }
    match bind_unix(rt, text) {
        Ok(listener) => Ok(Operators::Unix(listener)),
        Err(error) => Err(HostFault::CannotListen(Place::Control, error)),
    }
}

/// Whether a text is the path of a Unix socket, and not an address: it has a `/`.
pub fn is_path(text: &str) -> bool {
    text.contains('/')
}

/// Listens at a Unix socket, and replaces one at which nobody listens any more. Accepting a connection does not wait.
fn bind_unix<R: Files + Net>(rt: &R, path: &str) -> io::Result<UnixListener> {
    let listener = match UnixListener::bind(rt, path) {
        Err(error) if error.kind() == ErrorKind::AddrInUse && is_left_over(rt, path) => {
            fs::remove_file(rt, path)?;
            UnixListener::bind(rt, path)?
        }
        bound => bound?,
    };
    listener.set_nonblocking(true)?;
    Ok(listener)
}

/// Whether a path is a Unix socket at which nobody listens: it refuses a connection. So does a file that is no socket,
/// which may not be removed.
fn is_left_over<R: Files + Net>(rt: &R, path: &str) -> bool {
    if !is_socket(rt, path) {
        return false;
    }
    match UnixStream::connect(rt, path) {
        Ok(_) => false,
        Err(error) => error.kind() == ErrorKind::ConnectionRefused,
    }
}

/// Whether a path is a socket itself, and not a link to one.
fn is_socket<R: Files>(rt: &R, path: &str) -> bool {
    match fs::symlink_metadata(rt, path) {
        Ok(metadata) => metadata.file_type().is_socket(),
        Err(_) => false,
    }
}

/// Listens at an address. Accepting a connection does not wait.
fn bind<R: Net>(rt: &R, address: SocketAddr) -> io::Result<R::Listener> {
    let listener = TcpListener::bind(rt, address)?;
    listener.set_nonblocking(true)?;
    Ok(listener)
}
