//! The sending end of a side.

ghost use Rattle.std.specs.Prelude.{◌≡◌, ◌≢◌, false, None, OnOk, IfOk, IfErr, IsErr, IsSome, IfSome};
ghost use Rattle.std.specs.Io.KnownBytes.{Appends};
ghost use Rattle.rvm_frame.specs.Grammar.{HasSpelling, sent, spelling};
ghost use Rattle.rvm_link.specs.Waiting.{may_wait};

use crate::error::SendError;
use crate::link::Link;
use crate::spelled::{may_wait, spell};
use rvm_frame::{Addressed, Frame};
use rvm_refusal::LinkFault;
use std::alloc::Global;
use std::sync::{Mutex, Wait};

/// What the lock of an `Outgoing` guards: a link, until it fails or is closed.
#[derive(Drop)]
struct SendingEnd<K: Link + Drop> {
    link: Option<K>,
    /// The bytes of the frame that is sent, whose memory the next frame reuses.
    frame: Vec<u8>,
}

impl<K: Link + Drop> SendingEnd<K> {
    /// Sends a whole frame in a stream of this version, and flushes the link unless the frame may wait. A link that
    /// fails is dropped. If memory runs out or the frame has no spelling, nothing is sent.
    fn send(&mut self, version: u32, addressed: &Addressed) -> Result<(), SendError>
        ensures sent { OnOk result (IfSome self.old.link (λ old. IfSome self.new.link (λ new.
            Appends (K.contents old) (K.contents new) (spelling (sent version addressed.now))))) }
        ensures kept { OnOk result (IsSome self.new.link) }
        ensures out { OnOk result (may_wait addressed.now.frame ≡ false → IfSome self.new.link K.is_flushed) }
        ensures closed { self.old.link ≡ None → IsErr result }
        ensures fault { result ≡ Err SendError.LinkFault → self.new.link ≡ None }
        ensures unsent { IfErr result (λ e. e ≢ SendError.LinkFault → self.new.link ≡ self.old.link) }
        ensures spelled { IfErr result (λ e. e ≡ SendError.BadFrame → HasSpelling (sent version addressed.now) → ⊥) }
    {
        spell(version, addressed, &mut self.frame)?;
        let sent = match &mut self.link {
            Some(link) => send_bytes(link, self.frame.as_slice(), may_wait(&addressed.frame)),
            None => Err(LinkFault),
        };
        if sent.is_err() {
            self.close();
            return Err(SendError::LinkFault);
        }
        Ok(())
    }

    /// Drops the link.
    fn close(&mut self)
        ensures { self.new.link ≡ None }
    {
        self.link = None;
    }
}

/// The sending end of a side, which its workers share. Frames are sent whole; the copy of a page may wait for the next
/// frame. After the first fault, or once it is closed, the link is dropped, and nothing more is sent.
#[derive(Drop)]
pub struct Outgoing<K: Link + Drop> {
    version: u32,
    end: Mutex<SendingEnd<K>>,
}

impl<K: Link + Drop> Outgoing<K> {
    /// Opens a stream of this version and sends its Hello. A link that fails is dropped, which is no error here.
    /// `OutOfMemory` if an allocation fails, `BadFrame` if the version is not 1, 2 or 3.
    pub fn open(alloc: Global, link: K, version: u32) -> Result<Outgoing<K>, SendError>
        ensures { IfOk result (λ o. o.version ≡ version) }
    {
        // Hello is written without the hosts that it goes between.
        let hello = Addressed {
            from: 0,
            to: 1,
            frame: Frame::Hello { version },
        };
        let mut end = SendingEnd {
            link: Some(link),
            frame: Vec::new(alloc),
        };
        match end.send(version, &hello) {
            Ok(()) | Err(SendError::LinkFault) => Ok(Outgoing {
                version,
                end: Mutex::new(end),
            }),
            Err(why) => Err(why),
        }
    }

    /// Sends a whole frame. `BadFrame` if the frame has no spelling, `OutOfMemory` if an allocation fails, `LinkFault`
    /// if the link fails or is closed. The call may wait for another thread.
    pub fn send<R: Wait>(&self, rt: &R, addressed: &Addressed) -> Result<(), SendError>
        ensures { IfErr result (λ e. e ≡ SendError.BadFrame → HasSpelling (sent self.now.version addressed.now) → ⊥) }
    {
        self.end.lock(rt).send(self.version, addressed)
    }

    /// Drops the link. The call may wait for another thread.
    pub fn close<R: Wait>(&self, rt: &R) {
        self.end.lock(rt).close();
    }
}

/// Sends bytes, and flushes them unless they may wait.
fn send_bytes<K: Link>(link: &mut K, bytes: &[u8], may_wait: bool) -> Result<(), LinkFault>
    ensures sent { OnOk result (Appends (K.contents link.old) (K.contents link.new) bytes.now) }
    ensures out { OnOk result (may_wait ≡ false → K.is_flushed link.new) }
{
    link.send(bytes)?;
    if may_wait {
        return Ok(());
    }
    link.flush()
}
