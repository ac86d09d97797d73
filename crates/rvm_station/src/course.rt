//! The course of a move: what was done so far, and since when nothing was heard.

ghost use Rattle.std.specs.Prelude.{◌≡◌};

use std::sync::Wait;
use std::thread;
use std::time::{Clock, Duration};

/// The first wait of a mover for an answer, in milliseconds.
const FIRST_WAIT: u64 = 20;

/// The longest wait of a mover for an answer, in milliseconds.
const LAST_WAIT: u64 = 500;

/// The figures of a move that has ended.
#[derive(Clone, Copy, Debug, PartialEq, Eq)]
pub struct Figures {
    /// The number of the move.
    pub number: u64,
    /// How many rounds of copies were made.
    pub rounds: u64,
    /// How many copies of pages were sent.
    pub copies: u64,
    /// The number of bytes of all frames that this host sent during the move.
    pub bytes: u64,
    /// How long the move took.
    pub time: Duration,
    /// From the pause of the guest until this host knew that it runs at its target; zero if it was not paused.
    pub pause: Duration,
}

/// How far a move has come.
#[derive(Clone, Copy, Debug, PartialEq, Eq)]
pub struct Progress {
    /// How many rounds of copies were made.
    pub rounds: u64,
    /// How many copies of pages were sent.
    pub copies: u64,
    /// How many pages were to be copied again when the last round ended.
    pub left: u16,
}

/// Reports how far a move has come.
pub trait ProgressReporter {
    /// Reports the progress of the move. It is called after every few pages, and after each wait.
    fn tell(&mut self, progress: Progress);
}

/// What a mover has done so far.
#[derive(Clone, Copy)]
pub(crate) struct Course {
    pub(crate) number: u64,
    pub(crate) rounds: u64,
    pub(crate) copies: u64,
    /// How many pages were to be copied again when the last round ended.
    pub(crate) left: u16,
    /// Whether there was a connection at the last look.
    pub(crate) was_open: bool,
    /// The count of the news at the last look for the host's mode.
    pub(crate) seen: u64,
    began: Duration,
    /// How many bytes this host had sent before the move.
    sent: u64,
    paused: Option<Duration>,
    /// When something was last heard or done.
    heard: Duration,
    /// The wait for the next answer, in milliseconds.
    wait: u64,
}

/// The monotonic time; zero if the clock cannot be read.
pub(crate) fn now<R: Clock>(rt: &R) -> Duration {
    rt.monotonic().unwrap_or(Duration::ZERO)
}

impl Course {
    /// The course of a move that begins now, at a host that has sent this many bytes before.
    pub(crate) fn new<R: Clock>(rt: &R, number: u64, sent: u64) -> Course {
        let began = now(rt);
        Course {
            number,
            rounds: 0,
            copies: 0,
            left: 0,
            was_open: true,
            seen: 0,
            began,
            sent,
            paused: None,
            heard: began,
            wait: FIRST_WAIT,
        }
    }

    /// Notes that something was heard or done: silence counts from now on, and the next wait is short.
    pub(crate) fn heard<R: Clock>(&mut self, rt: &R) {
        self.heard = now(rt);
        self.wait = FIRST_WAIT;
    }

    /// Whether nothing was heard or done for as long as `patience`.
    pub(crate) fn is_silent<R: Clock>(&self, rt: &R, patience: Duration) -> bool {
        now(rt).saturating_sub(self.heard) >= patience
    }

    /// The wait for the next answer.
    pub(crate) fn wait(&self) -> Duration {
        Duration::from_millis(self.wait)
    }

    /// Doubles the wait for the next answer, since none came in time, up to the longest.
    pub(crate) fn wait_longer(&mut self) {
        self.wait = self.wait.saturating_mul(2).min(LAST_WAIT);
    }

    /// Sleeps until what was sent in the move has taken as long as it takes at `bandwidth` megabytes a second, at a host that
    /// has sent this many bytes by now; a bandwidth of 0 counts as 1.
    pub(crate) fn keep_bandwidth<R: Wait + Clock>(&self, rt: &R, bandwidth: u32, sent: u64) {
        let bytes = sent.saturating_sub(self.sent);
        let wanted = Duration::from_micros(bytes / u64::from(bandwidth.max(1)));
        let spent = now(rt).saturating_sub(self.began);
        thread::sleep(rt, wanted.saturating_sub(spent));
    }

    /// Notes that the guest was paused now.
    pub(crate) fn pause<R: Clock>(&mut self, rt: &R) {
        self.heard(rt);
        self.paused = Some(self.heard);
    }

    /// How far the move has come.
    pub(crate) fn progress(&self) -> Progress {
        Progress {
            rounds: self.rounds,
            copies: self.copies,
            left: self.left,
        }
    }

    /// The figures of the move if it ends now, at a host that has sent this many bytes by now.
    pub(crate) fn figures<R: Clock>(&self, rt: &R, sent: u64) -> Figures
        ensures { result.number ≡ self.now.number }
    {
        let end = now(rt);
        Figures {
            number: self.number,
            rounds: self.rounds,
            copies: self.copies,
            bytes: sent.saturating_sub(self.sent),
            time: end.saturating_sub(self.began),
            pause: end.saturating_sub(self.paused.unwrap_or(end)),
        }
    }
}
