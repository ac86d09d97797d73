//! One order of the journals of two hosts.

use crate::asked::{board, came, host, record};
use rvm_audit::{AuditError, audit};
use rvm_board::BoardEvent;
use rvm_core::Event;
use rvm_frame::Addressed;
use rvm_host::Host;
use rvm_message::{Command, HostEvent};
use rvm_paged::PagedRam;
use rvm_precopy::Policy;
use rvm_recorder::Recorded;
use std::alloc::Global;

/// The most frames that follow from one command.
const FRAMES: u32 = 8;

/// The number of Copy commands of a move: four pages are copied, the round ends, the guest is paused, and its state is
/// sent.
pub const COPIES: u32 = 7;

/// The number of pages of the guest.
const PAGES: u32 = 4;

/// How many entries each journal takes.
const ENTRIES: u32 = 100;

/// The policy of the moves.
pub const POLICY: Policy = Policy {
    max_rounds: 3,
    min_left: 1,
    factor: 3,
};

/// The command that begins the move.
pub const BEGIN: Command = Command::Begin {
    to: 1,
    policy: POLICY,
};

/// What two hosts do before their journals are put in order.
#[derive(Clone, Copy)]
enum Story {
    Nothing,
    /// A guest of four pages moves, from the beginning to the end.
    Move,
    /// The same, but the first copy of its last page is lost.
    LostPage,
    /// Host B accepts an offer that host A made before its journal began.
    LateJournal,
    /// The same, after an event of each host.
    LateOffer,
    /// Host A offers its guest this many times, and each offer comes to host B.
    Offers(u32),
}

/// Two hosts with journals.
#[derive(Drop)]
pub(crate) struct Pair {
    pub(crate) a: Recorded<PagedRam>,
    pub(crate) b: Recorded<PagedRam>,
    /// The offer that host A made before its journal began.
    offer: Option<Addressed>,
}

impl Pair {
    /// Two hosts that speak a version, with empty journals for this many entries. If `has_offered` is set, host A has
    /// made an offer before.
    pub(crate) fn new(
        alloc: Global,
        entries: u32,
        version: u32,
        has_offered: bool,
    ) -> Option<Pair> {
        let (a, offer) = first_host(alloc, entries, version, has_offered)?;
        Pair::with(alloc, entries, version, a, offer)
    }

    /// The pair of this first host and a new second one.
    fn with(
        alloc: Global,
        entries: u32,
        version: u32,
        a: Recorded<PagedRam>,
        offer: Option<Addressed>,
    ) -> Option<Pair> {
        match second_host(alloc, entries, version) {
            Some(b) => Some(Pair { a, b, offer }),
            None => {
                drop(a);
                drop(offer);
                None
            }
        }
    }

    /// Plays a story, and puts the journals in order.
    fn order_of(&mut self, alloc: Global, story: Story) -> Option<Result<Vec<Event>, AuditError>> {
        match story {
            Story::Nothing => {}
            Story::Move => self.play_a_move(alloc)?,
            Story::LostPage => self.lose_a_page(alloc)?,
            Story::LateJournal => self.accept(alloc)?,
            Story::LateOffer => self.accept_later(alloc)?,
            Story::Offers(count) => self.fill(alloc, count)?,
        }
        Some(self.order(alloc))
    }

    /// Has host A offer its guest `count` times, and gives each offer to host B.
    fn fill(&mut self, alloc: Global, count: u32) -> Option<()> {
        let mut offer = made(&mut self.a, alloc, HostEvent::Do(BEGIN))?;
        for _ in 1..count {
            self.come(alloc, offer)?;
            offer = made(&mut self.a, alloc, HostEvent::Do(Command::Resend))?;
        }
        self.come(alloc, offer)
    }

    /// Gives a frame to host B.
    fn come(&mut self, alloc: Global, frame: Option<Addressed>) -> Option<()> {
        let frame = frame?.frame;
        drop(made(&mut self.b, alloc, came(alloc, 0, frame)?)?);
        Some(())
    }

    /// Gives host A an event, and each host the frames that follow from it.
    pub(crate) fn play(&mut self, alloc: Global, event: HostEvent) -> Option<()> {
        let mut next = made(&mut self.a, alloc, event)?;
        for _ in 0..FRAMES {
            let Some(Addressed { from, to, frame }) = next else {
                return Some(());
            };
            let host = if to == 0 { &mut self.a } else { &mut self.b };
            next = made(host, alloc, came(alloc, from, frame)?)?;
        }
        drop(next);
        None
    }

    /// Plays a move, from its beginning to its end.
    fn play_a_move(&mut self, alloc: Global) -> Option<()> {
        self.play(alloc, HostEvent::Do(BEGIN))?;
        for _ in 0..COPIES {
            self.play(alloc, HostEvent::Do(Command::Copy))?;
        }
        Some(())
    }

    /// Plays a move whose last page does not come at first, so that host B tells host A that it is lost.
    fn lose_a_page(&mut self, alloc: Global) -> Option<()> {
        self.play(alloc, HostEvent::Do(BEGIN))?;
        for _ in 1..PAGES {
            self.play(alloc, HostEvent::Do(Command::Copy))?;
        }
        drop(made(&mut self.a, alloc, HostEvent::Do(Command::Copy))??);
        // The round's end, the pause, and the state, which names the page; then the page, and the state again.
        for _ in 0..5 {
            self.play(alloc, HostEvent::Do(Command::Copy))?;
        }
        Some(())
    }

    /// Gives each host another event, and then has host B accept the offer.
    fn accept_later(&mut self, alloc: Global) -> Option<()> {
        drop(made(&mut self.a, alloc, board(BoardEvent::Step(0)))?);
        drop(made(&mut self.b, alloc, HostEvent::Do(Command::Copy))?);
        self.accept(alloc)
    }

    /// Has host B accept the offer, and host A hear of it.
    fn accept(&mut self, alloc: Global) -> Option<()> {
        let offer = self.offer.take()?;
        let accept = made(&mut self.b, alloc, came(alloc, 0, offer.frame)?)??;
        drop(made(&mut self.a, alloc, came(alloc, 1, accept.frame)?)?);
        Some(())
    }

    /// Puts both journals in order.
    pub(crate) fn order(&self, alloc: Global) -> Result<Vec<Event>, AuditError> {
        audit(alloc, self.a.journal(), self.b.journal())
    }
}

/// Records an event. Returns the frame that was made, if one was.
pub(crate) fn made(
    recorded: &mut Recorded<PagedRam>,
    alloc: Global,
    event: HostEvent,
) -> Option<Option<Addressed>> {
    let (_, reply, frame) = record(recorded, alloc, event)?;
    drop(reply);
    Some(frame)
}

/// Begins a move. Returns the offer.
fn begin(alloc: Global, host: &mut Host<PagedRam>) -> Option<Addressed> {
    let (_, offer) = host.apply(alloc, &HostEvent::Do(BEGIN)).ok()?;
    offer
}

/// Host A with an empty journal, and the offer that it made before, if it made one.
fn first_host(
    alloc: Global,
    entries: u32,
    version: u32,
    has_offered: bool,
) -> Option<(Recorded<PagedRam>, Option<Addressed>)> {
    let mut host = host(alloc, 0, 1, version)?;
    let offer = if has_offered {
        begin(alloc, &mut host)
    } else {
        None
    };
    let a = Recorded::new(alloc, host, entries).ok()?;
    Some((a, offer))
}

/// Host B with an empty journal.
fn second_host(alloc: Global, entries: u32, version: u32) -> Option<Recorded<PagedRam>> {
    let host = host(alloc, 1, 1, version)?;
    Recorded::new(alloc, host, entries).ok()
}

/// Plays a story on two hosts that speak a version, with journals for this many entries each. Returns the order of the
/// journals.
fn order_behind(
    alloc: Global,
    entries: u32,
    version: u32,
    story: Story,
) -> Option<Result<Vec<Event>, AuditError>> {
    let has_offered = matches!(story, Story::LateJournal | Story::LateOffer);
    let mut pair = Pair::new(alloc, entries, version, has_offered)?;
    let order = pair.order_of(alloc, story);
    drop(pair);
    order
}

/// Puts two journals of this many entries in order, in which frames of equal bytes come again and again, and prints the
/// number of events.
pub fn order_long_journals<R: AllocGlobal + Print>(rt: &R, entries: u32) -> Option<()> {
    let events = order_behind(rt.alloc(), entries, 1, Story::Offers(entries))?.ok()?;
    println!(rt;
        "two journals of {entries} entries: {} events",
        events.len()
    )
    .ok()
}

/// Puts journals in order: of a whole move in each version, of one that loses a page, of moves whose beginning was not
/// recorded, and of nothing.
pub fn put_in_order<R: AllocGlobal + Print>(rt: &R) -> Option<()> {
    for version in 1..=3 {
        order_a_move(rt, version)?;
    }
    order_a_lost_page(rt)?;
    miss_the_beginning(rt, Story::LateJournal)?;
    miss_the_beginning(rt, Story::LateOffer)?;
    order_nothing(rt)
}

/// Moves a guest of four pages, puts the journals in order, and prints what came of it.
fn order_a_move<R: AllocGlobal + Print>(rt: &R, version: u32) -> Option<()> {
    let events = order_behind(rt.alloc(), ENTRIES, version, Story::Move)?.ok()?;
    let (deliveries, are_once) = deliveries(events.as_slice());
    println!(rt;
        "a move in version {version}: {} events, {deliveries} deliveries, each once {are_once}",
        events.len()
    )
    .ok()
}

/// Plays a move that loses a page, which host B asks for again, and prints the number of events in its order.
fn order_a_lost_page<R: AllocGlobal + Print>(rt: &R) -> Option<()> {
    let events = order_behind(rt.alloc(), ENTRIES, 1, Story::LostPage)?.ok()?;
    println!(rt; "a move that loses a page: {} events", events.len()).ok()
}

/// The number of frames that are delivered, and whether they are the first, the second and so on, each once.
fn deliveries(events: &[Event]) -> (u64, bool) {
    let (mut next, mut are_once) = (0u64, true);
    for event in events {
        if let Event::Deliver(place) = event {
            are_once = are_once && *place == next;
            next = next.wrapping_add(1);
        }
    }
    (next, are_once)
}

/// Plays a move that begins before host A records anything, and prints where the journals have no order.
fn miss_the_beginning<R: AllocGlobal + Print>(rt: &R, story: Story) -> Option<()> {
    match order_behind(rt.alloc(), ENTRIES, 1, story)?.err()? {
        AuditError::NoOrder { i, j } => {
            println!(rt; "a move whose beginning is missing: no order behind {i} and {j}").ok()
        }
        AuditError::OutOfMemory => None,
    }
}

/// Puts the journals of hosts in order at which nothing happened, and prints the number of events.
fn order_nothing<R: AllocGlobal + Print>(rt: &R) -> Option<()> {
    let events = order_behind(rt.alloc(), ENTRIES, 1, Story::Nothing)?.ok()?;
    println!(rt; "empty journals: {} events", events.len()).ok()
}
