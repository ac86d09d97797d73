//! What the workers of a host share beside the host: its routes and its news.

ghost use Rattle.std.specs.Prelude.{ℕ, ◌∷◌, [], IfOk, OnErr};
ghost use Rattle.rvm_station.specs.Asked.{AreAllOf, AreAnswered, IsCopy};
ghost use Rattle.rvm_message.specs.declared.event.Command.TheVariants.{Copy};
ghost use Rattle.rvm_message.specs.declared.event.HostEvent.TheVariants.{Came, Do};
ghost use Rattle.rvm_message.specs.Exchanges.{exchange};

use crate::access::Access;
use crate::news::{MoveNews, News};
use crate::origin::Hosting;
use rvm_frame::{Addressed, Frame, frame_len, has_spelling};
use rvm_link::{Made, Routes};
use rvm_message::{Command, HostRefusal, HostReply};
use std::alloc::{AllocError, Global};
use std::io::Write;
use std::sync::atomic::{AtomicU64, Ordering};
use std::sync::{Mutex, Wait};

/// The version of the stream between hosts.
pub const STREAM_VERSION: u32 = 3;

/// The most pages that are copied under one hold of the host's lock.
const TOGETHER: u32 = 64;

/// The number of bytes of a frame in the stream; 0 if it cannot stand there.
fn bytes_of(frame: &Addressed) -> u64 {
    if has_spelling(STREAM_VERSION, frame) {
        frame_len(STREAM_VERSION, frame) as u64
    } else {
        0
    }
}

/// What the workers of a host share beside the host: its routes to other hosts, and the news of its moves. Each worker
/// has its own access to the host. Each call may wait for another thread.
#[derive(Drop)]
pub struct Station<L: Hosting, W: Write + Drop> {
    /// The number of the host.
    pub id: u8,
    pub alloc: Global,
    pub routes: Routes<L, W>,
    pub news: News<L>,
    /// Held from a drain until what it took is written.
    pub console: Mutex<()>,
    /// How many questions were asked.
    pub questions: AtomicU64,
    /// The number of bytes of all frames that were sent.
    pub sent: AtomicU64,
}

impl<L: Hosting, W: Write + Drop> Station<L, W> {
    /// The station of host `id` in a world of `hosts` hosts, with no connection. Fails if memory runs out.
    pub fn new(alloc: Global, id: u8, hosts: u8) -> Result<Station<L, W>, AllocError> {
        Ok(Station {
            id,
            alloc,
            routes: Routes::new(alloc, hosts, STREAM_VERSION)?,
            news: News::new(),
            console: Mutex::new(()),
            questions: AtomicU64::new(0),
            sent: AtomicU64::new(0),
        })
    }

    /// The number of bytes of all frames that were sent.
    pub fn bytes_sent(&self) -> u64 {
        self.sent.load(Ordering::SeqCst)
    }

    /// Returns the number of a question that was not asked yet, from 1 on.
    pub fn next_question(&self) -> u64 {
        self.questions
            .fetch_add(1, Ordering::SeqCst)
            .wrapping_add(1)
    }

    /// Gives the host a command, and sends the frame that it makes, which is lost if it cannot be sent. Returns the
    /// reply. If memory runs out, nothing has changed.
    pub fn obey<A: Access<L>, R: Wait>(
        &self,
        rt: &R,
        access: &mut A,
        command: &Command,
    ) -> Result<HostReply, AllocError>
        ensures asked { IfOk result (λ r. AreAnswered L.gave (A.asked access.old) (A.asked access.new)
            (exchange (Do command.now) r ∷ [])) }
        ensures gave { IfOk result (L.gave (Do command.now)) }
        ensures err { OnErr result (AreAnswered L.gave (A.asked access.old) (A.asked access.new) []) }
    {
        let (reply, frame) = access.obey(command)?;
        self.send(rt, frame);
        self.note_command(rt, command, &reply);
        Ok(reply)
    }

    /// Has the host copy up to 64 pages under one hold of its lock, and sends the frames, which are lost if they cannot
    /// be sent. Returns the last reply, which may be no copy, and the number of copies before it. If memory runs out,
    /// the copies before have been made and sent.
    #[tactic(auto, using(crate::proofs::AllOf::none_of))]
    pub(crate) fn copy<A: Access<L>, R: Wait>(
        &self,
        rt: &R,
        access: &mut A,
    ) -> Result<(HostReply, u32), AllocError>
        ensures asked { AreAllOf IsCopy L.gave (A.asked access.old) (A.asked access.new) }
        ensures last { IfOk result (λ a. L.gave (Do Copy) a.0) }
    {
        let mut frames = Vec::new(self.alloc);
        frames.reserve(TOGETHER as usize)?;
        let copied = access.copy(TOGETHER, &mut frames);
        for frame in frames {
            self.send(rt, Some(frame));
        }
        copied
    }

    /// Gives the host a frame that came from host `from`, and sends the frame that it makes, which is lost if it cannot
    /// be sent. Returns the reply. If memory runs out, nothing has changed.
    pub fn came<A: Access<L>, R: Wait>(
        &self,
        rt: &R,
        access: &mut A,
        from: u8,
        frame: &Frame,
    ) -> Result<HostReply, AllocError>
        ensures asked { IfOk result (λ r. AreAnswered L.gave (A.asked access.old) (A.asked access.new)
            (exchange (Came from frame.now) r ∷ [])) }
        ensures err { OnErr result (AreAnswered L.gave (A.asked access.old) (A.asked access.new) []) }
    {
        let (reply, made) = access.came(from, frame)?;
        self.send(rt, made);
        self.note_frame(rt, frame, &reply);
        Ok(reply)
    }

    /// Sends the frame that the host made, if it made one, and counts its bytes if it was sent.
    fn send<R: Wait>(&self, rt: &R, made: Option<Made<L>>) {
        if let Some(made) = made {
            if self.routes.send(rt, &made).is_ok() {
                self.sent.fetch_add(bytes_of(made.get()), Ordering::SeqCst);
            }
        }
    }

    /// Tells the news if the command gave up a move.
    fn note_command<R: Wait>(&self, rt: &R, command: &Command, reply: &HostReply)
        requires { L.gave (Do command.now) reply.now }
    {
        if let (Command::Abort, HostReply::Aborted) = (command, reply) {
            self.news.tell_aborted(rt);
        }
    }

    /// Tells the news what a mover may wait for. Frames that bring copies or pieces of a state, ends of rounds, and
    /// frames that the host ignores are nothing to it.
    fn note_frame<R: Wait>(&self, rt: &R, frame: &Frame, reply: &HostReply)
        requires { (from : ℕ) × L.gave (Came from frame.now) reply.now }
    {
        match (frame, reply) {
            (Frame::Started { move_number }, HostReply::Finished) => self
                .news
                .tell(rt, *move_number, MoveNews::Finished),
            (Frame::Refuse { move_number, .. }, HostReply::MoveDeclined(limit)) => self
                .news
                .tell(rt, *move_number, MoveNews::Declined(*limit)),
            (
                _,
                HostReply::Stored { .. }
                | HostReply::Noted
                | HostReply::Kept { .. }
                | HostReply::Refused(HostRefusal::Ignored),
            ) => {}
            _ => self.news.raise(rt),
        }
    }
}
