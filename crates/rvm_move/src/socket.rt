//! Links over TCP.

ghost use Rattle.std.specs.Prelude.{◌≡◌, ◌≢◌, ◌⊎◌, [], true, IfErr, IfOk};
ghost use Rattle.std.specs.Io.Buffered.{writer_buffer, writer_contents, writer_inner};
ghost use Rattle.std.specs.IoError.{error_kind};
ghost use Rattle.std.specs.declared.io.ErrorKind.TheVariants as kind;
ghost use Rattle.rvm_link.specs.declared.link.LinkRead.TheVariants as link;
ghost use Rattle.rvm_refusal.specs.declared.refusal.Refusal.TheVariants as refusal;

use rvm_link::{Link, LinkRead};
use rvm_refusal::{LinkFault, Refusal};
use std::alloc::Global;
use std::io;
use std::io::{BufWriter, ErrorKind, Read, Write};
use std::net::{Ipv4Addr, Net, OpenListener, OpenStream, TcpListener, TcpStream};

/// The most bytes that are sent at once: those of some thirty pages.
const TOGETHER: usize = 1 << 17;

/// One direction of a TCP connection. At the end that sends, bytes wait until `TOGETHER` of them can go out, or until
/// they are flushed.
#[derive(Drop)]
pub struct Socket<S: Read + Write + Drop> {
    stream: BufWriter<S>,
    /// Whether the last read found the end.
    has_ended: bool,
}

/// What a read of a stream gave: 0 bytes are the end, an interrupted read is idle, any other error is a fault.
fn told_by(read: io::Result<usize>) -> LinkRead
    ensures end { IfOk read (λ n. n ≡ 0 → result ≡ link.End) }
    ensures bytes { IfOk read (λ n. n ≢ 0 → result ≡ link.Bytes n) }
    ensures idle { IfErr read (λ e. error_kind e ≡ kind.Interrupted → result ≡ link.Idle) }
    ensures fault { IfErr read (λ e. error_kind e ≢ kind.Interrupted → result ≡ link.LinkFault) }
{
    match read {
        Ok(0) => LinkRead::End,
        Ok(count) => LinkRead::Bytes(count),
        Err(error) => {
            if error.kind() == ErrorKind::Interrupted {
                LinkRead::Idle
            } else {
                LinkRead::LinkFault
            }
        }
    }
}

impl<S: Read + Write + Drop> Link for Socket<S> {
    ghost contents = { λ s. writer_contents S.contents s.stream };

    ghost is_flushed = { λ s. writer_buffer s.stream ≡ [] };

    ghost remaining = { λ s. S.remaining (writer_inner s.stream) };

    ghost has_ended = { λ s. s.has_ended ≡ true };

    fn send(&mut self, bytes: &[u8]) -> Result<(), LinkFault> {
        self.stream.write_all(bytes)?;
        Ok(())
    }

    fn flush(&mut self) -> Result<(), LinkFault> {
        self.stream.flush()?;
        Ok(())
    }

    fn recv(&mut self, buffer: &mut [u8]) -> LinkRead {
        let told = told_by(self.stream.get_mut().read(buffer));
        self.has_ended = told == LinkRead::End;
        told
    }
}

/// A link over a stream, in which at most this many bytes wait. `OutOfMemory` if there is no memory for them.
fn link_over<S: Read + Write + Drop>(
    alloc: Global,
    stream: S,
    most: usize,
) -> Result<Socket<S>, Refusal>
    ensures { IfErr result (λ r. r ≡ refusal.OutOfMemory) }
{
    match BufWriter::with_capacity(alloc, most, stream) {
        Ok(stream) => Ok(Socket {
            stream,
            has_ended: false,
        }),
        Err(_) => Err(Refusal::OutOfMemory),
    }
}

/// Makes a connection in this machine. Returns the end that sends and the end that receives. The system holds back
/// nothing of what is written (tcp(7), TCP_NODELAY), since frames that wait already go out together.
fn connect_streams<R: Net>(rt: &R) -> Result<(R::Stream, R::Stream), LinkFault> {
    let listener = TcpListener::bind(rt, (Ipv4Addr::LOCALHOST, 0u16))?;
    let address = listener.local_addr()?;
    let sending = TcpStream::connect(rt, address)?;
    let (receiving, peer) = listener.accept()?;
    if peer != sending.local_addr()? {
        return Err(LinkFault);
    }
    sending.set_nodelay(true)?;
    Ok((sending, receiving))
}

/// Makes a link in this machine. Returns the end that sends, and the end that receives, in which nothing waits.
pub(crate) fn connect<R: Net>(
    rt: &R,
    alloc: Global,
) -> Result<(Socket<R::Stream>, Socket<R::Stream>), Refusal>
    ensures { IfErr result (λ r. (r ≡ refusal.LinkFault) ⊎ (r ≡ refusal.OutOfMemory)) }
{
    let (sending, receiving) = connect_streams(rt)?;
    Ok((
        link_over(alloc, sending, TOGETHER)?,
        link_over(alloc, receiving, 0)?,
    ))
}
