//! News that threads of a host wait for.

ghost use Rattle.std.specs.Prelude.{◌≡◌, IfSome, None, Some};
ghost use Rattle.rvm_station.specs.News.{IsAborted, IsNews};

use crate::origin::Hosting;
use std::marker::{Model, PhantomData};
use std::sync::{Condvar, Mutex, Wait};
use std::time::{Clock, Duration};

/// The most hosts of a world.
const MAX_HOSTS: usize = 8;

/// How a move ended, as its source was told.
#[derive(Clone, Copy, Debug, PartialEq, Eq)]
pub enum MoveNews {
    /// The guest runs at its target.
    Finished,
    /// The target takes no more pages than this.
    Declined(u16),
    /// The move was given up.
    Aborted,
}

/// The move that a mover waits for, and how it ended, if that is known.
#[derive(Drop)]
struct Awaited<L: Hosting> {
    number: u64,
    news: Option<MoveNews>,
    hosting: PhantomData<L>,
}

impl<L: Hosting> Model for Awaited<L> {
    ghost use Rattle.std.specs.Prelude.{IfSome};
    ghost use Rattle.rvm_station.specs.News.{IsNews, PlainAwaited};

    ghost Value = { PlainAwaited };

    ghost view = { λ a. record { number = a.number; news = a.news } };

    ghost invariant = { λ a. IfSome a.news (IsNews L.gave a.number) };
}

impl<L: Hosting> Awaited<L> {
    /// The move with this number, whose end is not known.
    fn new(number: u64) -> Awaited<L>
        ensures { result ≡ record { number = number; news = None } }
    {
        Awaited {
            number,
            news: None,
            hosting: PhantomData,
        }
    }

    /// The move with this number, which came to this end.
    fn told(number: u64, news: MoveNews) -> Awaited<L>
        requires { IsNews L.gave number news }
        ensures { result ≡ record { number = number; news = Some news } }
    {
        Awaited {
            number,
            news: Some(news),
            hosting: PhantomData,
        }
    }

    /// The number of the move.
    fn number(&self) -> u64
        ensures { result ≡ self.now.number }
    {
        self.number
    }

    /// How the move with this number ended; none if that is not known, or if another move is waited for.
    fn of(&self, number: u64) -> Option<MoveNews>
        ensures { IfSome result (IsNews L.gave number) }
    {
        if self.number == number {
            self.news
        } else {
            None
        }
    }
}

/// The state under the lock of the news.
#[derive(Drop)]
struct Told<L: Hosting> {
    /// How often something came that a mover may wait for, modulo 2^64.
    count: u64,
    /// The move that a mover waits for.
    awaited: Awaited<L>,
    /// The number of the last question that each host answered.
    answered: [u64; MAX_HOSTS],
}

/// News that threads of a host wait for. Each call may wait for another thread.
#[derive(Drop)]
pub struct News<L: Hosting> {
    told: Mutex<Told<L>>,
    changed: Condvar,
}

impl<L: Hosting> News<L> {
    /// News of nothing yet.
    pub fn new() -> News<L> {
        News {
            told: Mutex::new(Told {
                count: 0,
                awaited: Awaited::new(0),
                answered: [0; MAX_HOSTS],
            }),
            changed: Condvar::new(),
        }
    }

    /// How often something came that a mover may wait for, modulo 2^64.
    pub fn count<R: Wait>(&self, rt: &R) -> u64 {
        self.told.lock(rt).count
    }

    /// Counts that something came, and wakes whoever waits.
    pub fn raise<R: Wait>(&self, rt: &R) {
        let mut told = self.told.lock(rt);
        told.count = told.count.wrapping_add(1);
        drop(told);
        self.changed.notify_all();
    }

    /// Notes that a mover waits for the end of the move with this number.
    pub(crate) fn await_move<R: Wait>(&self, rt: &R, number: u64) {
        self.told.lock(rt).awaited = Awaited::new(number);
    }

    /// Tells that a move came to its end. Only the end of the move that is waited for is kept.
    pub(crate) fn tell<R: Wait>(&self, rt: &R, number: u64, news: MoveNews)
        requires { IsNews L.gave number news }
    {
        let mut told = self.told.lock(rt);
        if told.awaited.number() == number {
            told.awaited = Awaited::told(number, news);
        }
        drop(told);
        self.raise(rt);
    }

    /// Tells that the move that is waited for was given up.
    pub(crate) fn tell_aborted<R: Wait>(&self, rt: &R)
        requires { IsAborted L.gave }
    {
        let mut told = self.told.lock(rt);
        let number = told.awaited.number();
        told.awaited = Awaited::told(number, MoveNews::Aborted);
        drop(told);
        self.raise(rt);
    }

    /// How the move with this number ended; none if that is not known, or if another move is waited for.
    pub(crate) fn of<R: Wait>(&self, rt: &R, number: u64) -> Option<MoveNews>
        ensures { IfSome result (IsNews L.gave number) }
    {
        self.told.lock(rt).awaited.of(number)
    }

    /// Notes that a host answered the question with this number.
    pub(crate) fn answer<R: Wait>(&self, rt: &R, host: u8, question: u64) {
        let mut told = self.told.lock(rt);
        if let Some(answered) = told.answered.get_mut(usize::from(host)) {
            *answered = question;
        }
        drop(told);
        self.changed.notify_all();
    }

    /// Waits until the count is no longer `seen`, for at most `most`. Returns whether something came.
    pub(crate) fn wait<R: Wait + Clock>(&self, rt: &R, seen: u64, most: Duration) -> bool {
        let (_told, ended) = self
            .changed
            .wait_timeout_while(rt, self.told.lock(rt), most, |told| told.count == seen);
        !ended.timed_out()
    }

    /// Waits until a host has answered the question with this number or a later one, for at most `most`. Returns
    /// whether it has.
    pub(crate) fn wait_for_answer<R: Wait + Clock>(
        &self,
        rt: &R,
        host: u8,
        question: u64,
        most: Duration,
    ) -> bool {
        let (_told, ended) = self
            .changed
            .wait_timeout_while(rt, self.told.lock(rt), most, |told| {
                match told.answered.get(usize::from(host)) {
                    Some(answered) => *answered < question,
                    None => false,
                }
            });
        !ended.timed_out()
    }
}
