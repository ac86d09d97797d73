//! The stream of frames on a connection to another host.

ghost use Rattle.std.specs.Prelude.{◌≡◌, ◌≢◌, Err, IfErr, IfOk, IfSome, IsSome, None, OnOk, Some, length};
ghost use Rattle.std.specs.Io.KnownBytes.{Appends};
ghost use Rattle.rvm_frame.specs.Grammar.{HasSpelling, sent, spelling};
ghost use Rattle.rvm_link.specs.Records.{Carries, record_bytes};
ghost use Rattle.rvm_link.specs.Streams.{Adds, Begins, GoesOn, hello, hello_frame, record_of};

use crate::error::SendError;
use crate::made::{Made, Origin};
use crate::record::{write_answer, write_head, write_question};
use crate::spelled::may_wait;
use rvm_frame::{Addressed, Frame, frame_len, has_spelling, write_frame};
use std::io;
use std::io::Write;
use std::marker::{Model, PhantomData};
use std::snapshot::Snapshot;

/// A question whether all that was sent has come, or the answer to one.
#[derive(Clone, Copy)]
pub(crate) enum Aside {
    Question,
    Answer,
}

/// A connection to a host on which a stream of frames was begun. Since then only records were written on it, which
/// carry Hello and frames that were made here for that host, or are questions and answers. Contracts see the bytes that
/// were written, if they are known.
#[derive(Drop)]
pub(crate) struct Stream<L: Origin, W: Write + Drop> {
    version: u32,
    host: u8,
    first: Snapshot<W>,
    output: W,
    origin: PhantomData<L>,
}

impl<L: Origin, W: Write + Drop> Model for Stream<L, W> {
    ghost use Rattle.rvm_link.specs.Streams.{IsSent, PlainStream};

    ghost Value = { PlainStream };

    ghost view = { λ s. record {
      version = s.version;
      host = s.host;
      before = W.contents s.first.value;
      now = W.contents s.output;
    } };

    ghost invariant = { λ s. IsSent L.is_made s.version s.host (W.contents s.first.value) (W.contents s.output) };
}

impl<L: Origin, W: Write + Drop> Stream<L, W> {
    /// Begins a stream of this version on a connection to a host, and sends Hello. A connection that fails is dropped.
    #[tactic(auto, using(crate::proofs::Streams::begun))]
    pub(crate) fn begin(version: u32, host: u8, output: W) -> Result<Stream<L, W>, SendError>
        ensures begun { IfOk result (Begins version host (W.contents output)) }
        ensures spelled { IfErr result (λ e. e ≡ SendError.BadFrame
            → HasSpelling (sent version (hello_frame version)) → ⊥) }
    {
        let first = Snapshot::of(&output);
        let mut output = output;
        say_hello(version, &mut output)?;
        Ok(Stream {
            version,
            host,
            first,
            output,
            origin: PhantomData,
        })
    }

    /// Sends a whole frame that was made here, in a stream of this version, and flushes the connection unless the frame
    /// may wait. The connection is dropped if it fails, if it leads to another host than the frame's, or if its stream
    /// has another version. If the frame has no spelling, nothing is sent.
    #[tactic(auto, using(crate::proofs::Streams::unspelled))]
    pub(crate) fn send(
        self,
        version: u32,
        made: &Made<L>,
    ) -> (Option<Stream<L, W>>, Result<(), SendError>)
        ensures kept { OnOk result.1 (IsSome result.0) }
        ensures sent { OnOk result.1 (IfSome result.0 (GoesOn (spelling (sent version made.now)) self)) }
        ensures fault { result.1 ≡ Err SendError.LinkFault → result.0 ≡ None }
        ensures unsent { IfErr result.1 (λ e. e ≢ SendError.LinkFault → result.0 ≡ Some self) }
        ensures spelled { IfErr result.1 (λ e. e ≡ SendError.BadFrame
            → HasSpelling (sent version made.now) → ⊥) }
    {
        let addressed = made.get();
        if addressed.to != self.host || version != self.version {
            return (None, Err(SendError::LinkFault));
        }
        self.put(addressed)
    }

    /// Sends a whole frame that was made here for the host at the other end.
    #[tactic(auto, using(crate::proofs::Streams::more))]
    fn put(self, addressed: &Addressed) -> (Option<Stream<L, W>>, Result<(), SendError>)
        requires made { L.is_made addressed.now }
        requires to { addressed.now.to ≡ self.host }
        ensures kept { OnOk result.1 (IsSome result.0) }
        ensures sent { OnOk result.1 (IfSome result.0 (GoesOn (spelling (sent self.version addressed.now)) self)) }
        ensures fault { result.1 ≡ Err SendError.LinkFault → result.0 ≡ None }
        ensures unsent { IfErr result.1 (λ e. e ≢ SendError.LinkFault → result.0 ≡ Some self) }
        ensures spelled { IfErr result.1 (λ e. e ≡ SendError.BadFrame
            → HasSpelling (sent self.version addressed.now) → ⊥) }
    {
        let Stream {
            version,
            host,
            first,
            output,
            origin,
        } = self;
        let mut output = output;
        let sent = send_frame(version, &mut output, addressed);
        if sent == Err(SendError::LinkFault) {
            return (None, sent);
        }
        let stream = Stream {
            version,
            host,
            first,
            output,
            origin,
        };
        (Some(stream), sent)
    }

    /// Writes a question or an answer with this number. None, and the connection is dropped, if it fails.
    #[tactic(auto, using(crate::proofs::Streams::asked))]
    pub(crate) fn add(self, aside: Aside, number: u64) -> Option<Stream<L, W>>
        ensures { IfSome result (Adds (record_of aside number) self) }
    {
        let Stream {
            version,
            host,
            first,
            output,
            origin,
        } = self;
        let mut output = output;
        if put_aside(&mut output, aside, number).is_err() {
            return None;
        }
        Some(Stream {
            version,
            host,
            first,
            output,
            origin,
        })
    }
}

/// Sends Hello.
fn say_hello<W: Write>(version: u32, output: &mut W) -> Result<(), SendError>
    ensures sent { OnOk result (Carries (hello version) (W.contents output.old) (W.contents output.new)) }
    ensures spelled { IfErr result (λ e. e ≡ SendError.BadFrame
        → HasSpelling (sent version (hello_frame version)) → ⊥) }
{
    let addressed = Addressed {
        from: 0,
        to: 1,
        frame: Frame::Hello { version },
    };
    send_frame(version, output, &addressed)
}

/// Sends a whole frame. If it has no spelling, nothing is sent.
fn send_frame<W: Write>(
    version: u32,
    output: &mut W,
    addressed: &Addressed,
) -> Result<(), SendError>
    ensures sent { OnOk result (Carries (spelling (sent version addressed.now))
        (W.contents output.old) (W.contents output.new)) }
    ensures unsent { IfErr result (λ e. e ≢ SendError.LinkFault → output.new ≡ output.old) }
    ensures spelled { IfErr result (λ e. e ≡ SendError.BadFrame → HasSpelling (sent version addressed.now) → ⊥) }
{
    if !has_spelling(version, addressed) {
        return Err(SendError::BadFrame);
    }
    if put_frame(version, output, addressed).is_err() {
        return Err(SendError::LinkFault);
    }
    Ok(())
}

/// Writes a record that carries a frame, and flushes it unless the frame may wait.
fn put_frame<W: Write>(version: u32, output: &mut W, addressed: &Addressed) -> io::Result<()>
    requires { HasSpelling (sent version addressed.now) }
    ensures { OnOk result (Carries (spelling (sent version addressed.now))
        (W.contents output.old) (W.contents output.new)) }
{
    write_record(version, output, addressed)?;
    if may_wait(&addressed.frame) {
        return Ok(());
    }
    output.flush()
}

/// Writes a record that carries a frame.
fn write_record<W: Write>(version: u32, output: &mut W, addressed: &Addressed) -> io::Result<()>
    requires { HasSpelling (sent version addressed.now) }
    ensures { OnOk result (Carries (spelling (sent version addressed.now))
        (W.contents output.old) (W.contents output.new)) }
{
    write_head(output, record_len(version, addressed))?;
    write_frame(version, addressed, output)
}

/// The number of bytes of a frame in a stream of this version; a record can carry as many.
#[tactic(auto, using(crate::proofs::Streams::frame_fits))]
fn record_len(version: u32, addressed: &Addressed) -> u16
    requires { HasSpelling (sent version addressed.now) }
    ensures { result ≡ length (spelling (sent version addressed.now)) }
{
    frame_len(version, addressed) as u16
}

/// Writes a question or an answer, and flushes it.
fn put_aside<W: Write>(output: &mut W, aside: Aside, number: u64) -> io::Result<()>
    ensures { OnOk result (Appends (W.contents output.old) (W.contents output.new)
        (record_bytes (record_of aside number))) }
{
    write_aside(output, aside, number)?;
    output.flush()
}

/// Writes a question or an answer.
fn write_aside<W: Write>(output: &mut W, aside: Aside, number: u64) -> io::Result<()>
    ensures { OnOk result (Appends (W.contents output.old) (W.contents output.new)
        (record_bytes (record_of aside number))) }
{
    match aside {
        Aside::Question => write_question(output, number),
        Aside::Answer => write_answer(output, number),
    }
}
