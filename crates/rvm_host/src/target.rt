//! The frames that come to the target of a move.

ghost use Rattle.std.specs.Prelude.{◌≡◌, ◌≤◌, ◌<◌, ℕ, false, if◌then◌else◌, IfOk, OnErr, None, Some};
ghost use Rattle.rvm_guest.specs.TheGuest.{board};
ghost use Rattle.rvm_message.specs.Answers.{Answers, BoardOutcome};
ghost use Rattle.rvm_message.specs.Replies.{is_refused_outright};
ghost use Rattle.rvm_message.specs.Sendable.{CanBeSent};
ghost use Rattle.rvm_protocol.specs.Frames as frames;
ghost use Rattle.rvm_protocol.specs.Modes as protocol;
ghost use Rattle.rvm_protocol.specs.Modes.{move_of};
ghost use Rattle.rvm_protocol.specs.Receiving as receiving;
ghost use Rattle.rvm_handover.specs.Outcomes.{CanBeTold, IsLeft};
ghost use Rattle.rvm_handover.specs.Pieces.{IsPartLeft, PartCanBeTold};
ghost use Rattle.rvm_handover.specs.Stages.{PlainStage, stage_of};
ghost use Rattle.rvm_host.specs.Modes.{is_held, mode_of, plain_of, takes_part};

use crate::mode::Mode;
use rvm_board::Debugged;
use rvm_frame::{Bytes, Frame, PageBytes};
use rvm_handover::{NotJoined, NotReady, Staging};
use rvm_mem::PagedMemory;
use rvm_message::{Answer, HostRefusal, HostReply};
use std::alloc::{AllocError, Global};

impl<M: PagedMemory + Drop> Mode<M> {
    /// Handles Offer. Keeps what is staged or held here until there is room for the new guest. If memory runs out,
    /// changes nothing. Allocates nothing for an offer that is ignored.
    pub(crate) fn offered(
        &mut self,
        alloc: Global,
        limit: u16,
        move_number: u64,
        pages: u16,
        harts: u8,
    ) -> Result<Answer, AllocError>
        requires number { 0 < move_number }
        requires some { 1 ≤ limit }
        requires limit { limit ≤ 4096 }
        requires pages { 0 < pages }
        ensures answer { IfOk result (λ a. (version : ℕ) → Answers version
            (receiving.came board limit (frames.Offer move_number pages harts)
            (mode_of (plain_of self.old))) a (mode_of (plain_of self.new))) }
        ensures err { OnErr result (self.new ≡ self.old) }
        ensures refused { OnErr result (is_refused_outright (receiving.came board limit
            (frames.Offer move_number pages harts) (mode_of (plain_of self.old))).reply ≡ false) }
        ensures sent { IfOk result (λ a. (version : ℕ) → CanBeSent version (Some 2) a.1) }
    {
        match self {
            Mode::Run { .. } | Mode::Leaving(_) => Ok(HostReply::refused(HostRefusal::Ignored)),
            Mode::Staging {
                move_number: staged,
                ..
            } => {
                if *staged == move_number {
                    return Ok(HostReply::Accepted.with(Frame::Accept { move_number }));
                }
                self.offered_above(alloc, limit, move_number, pages, harts)
            }
            Mode::Empty { .. } | Mode::Given { .. } | Mode::Held { .. } => {
                self.offered_above(alloc, limit, move_number, pages, harts)
            }
        }
    }

    /// Handles an offer of a move, which counts if the move is above all that this host has begun or staged.
    fn offered_above(
        &mut self,
        alloc: Global,
        limit: u16,
        move_number: u64,
        pages: u16,
        harts: u8,
    ) -> Result<Answer, AllocError>
        requires number { 0 < move_number }
        requires some { 1 ≤ limit }
        requires limit { limit ≤ 4096 }
        requires pages { 0 < pages }
        ensures answer { IfOk result (λ a. (version : ℕ) → Answers version
            (receiving.offer_above board (move_of (mode_of (plain_of self.old))) limit move_number
            pages harts (mode_of (plain_of self.old))) a (mode_of (plain_of self.new))) }
        ensures err { OnErr result (self.new ≡ self.old) }
        ensures refused { OnErr result (is_refused_outright (receiving.offer_above board
            (move_of (mode_of (plain_of self.old))) limit move_number pages harts
            (mode_of (plain_of self.old))).reply ≡ false) }
        ensures sent { IfOk result (λ a. (version : ℕ) → CanBeSent version (Some 2) a.1) }
    {
        if move_number <= self.move_number() {
            return Ok(HostReply::refused(HostRefusal::Ignored));
        }
        if limit < pages {
            return Ok(HostReply::Declined(limit).with(Frame::Refuse { move_number, limit }));
        }
        let staging = Staging::offer(alloc, u32::from(pages), u32::from(harts))?;
        self.set(Mode::Staging {
            move_number,
            staging,
        });
        Ok(HostReply::Accepted.with(Frame::Accept { move_number }))
    }

    /// Handles Page, a copy of a page. Takes no memory.
    pub(crate) fn page(
        &mut self,
        move_number: u64,
        page: u16,
        copy_number: u32,
        bytes: &PageBytes,
    ) -> HostReply
        ensures { (limit version : ℕ) → Answers version
            (receiving.came board limit (frames.Page move_number page copy_number bytes.now)
            (mode_of (plain_of self.old))) (result, None) (mode_of (plain_of self.new)) }
    {
        match self {
            Mode::Staging {
                move_number: staged,
                staging,
            } if *staged == move_number => {
                stored(
                    staging.page(u32::from(page), copy_number, bytes.as_array()),
                    page,
                    copy_number,
                )
            }
            _ => HostReply::Refused(HostRefusal::Ignored),
        }
    }

    /// Handles Zero, a copy of a page of zeros. Takes no memory.
    pub(crate) fn zero(&mut self, move_number: u64, page: u16, copy_number: u32) -> HostReply
        ensures { (limit version : ℕ) → Answers version
            (receiving.came board limit (frames.Page move_number page copy_number board.zeros)
            (mode_of (plain_of self.old))) (result, None) (mode_of (plain_of self.new)) }
    {
        match self {
            Mode::Staging {
                move_number: staged,
                staging,
            } if *staged == move_number => {
                stored(
                    staging.zero(u32::from(page), copy_number),
                    page,
                    copy_number,
                )
            }
            _ => HostReply::Refused(HostRefusal::Ignored),
        }
    }

    /// Handles RoundEnd: a round of copies is over.
    pub(crate) fn round_ended(&self, move_number: u64) -> HostReply
        ensures { (limit version round sent skipped left : ℕ) → Answers version
            (receiving.came board limit (frames.RoundEnd move_number round sent skipped left)
            (mode_of (plain_of self.now))) (result, None) (mode_of (plain_of self.now)) }
    {
        match self {
            Mode::Staging {
                move_number: staged,
                ..
            } if *staged == move_number => HostReply::Noted,
            _ => HostReply::Refused(HostRefusal::Ignored),
        }
    }

    /// Handles State, the state of the guest. Keeps all that is staged until the guest is made. If memory runs out,
    /// changes nothing. Allocates nothing for a state that is ignored.
    pub(crate) fn state(
        &mut self,
        alloc: Global,
        move_number: u64,
        numbers: &[u32],
        bytes: &[u8],
    ) -> Result<Answer, AllocError>
        requires { 0 < move_number }
        ensures answer { IfOk result (λ a. (limit version : ℕ) → Answers version
            (receiving.came board limit (frames.State move_number numbers.now bytes.now)
            (mode_of (plain_of self.old))) a (mode_of (plain_of self.new))) }
        ensures err { OnErr result (self.new ≡ self.old) }
        ensures refused { OnErr result ((limit : ℕ) → is_refused_outright (receiving.came board limit
            (frames.State move_number numbers.now bytes.now) (mode_of (plain_of self.old))).reply ≡ false) }
        ensures sent { IfOk result (λ a. (version : ℕ) → CanBeSent version (Some 8194) a.1) }
    {
        if self.is_held(move_number) {
            return Ok(HostReply::ReadySent.with(Frame::Ready { move_number }));
        }
        match self.take() {
            Mode::Staging {
                move_number: staged,
                staging,
            } => {
                if staged != move_number {
                    let mode = Mode::Staging {
                        move_number: staged,
                        staging,
                    };
                    return Ok(self.stay(mode, HostRefusal::Ignored));
                }
                match staging.state(alloc, numbers, bytes) {
                    Ok(guest) => Ok(self.hold(move_number, guest)),
                    Err((reason, staging)) => {
                        self.keep(move_number, staging);
                        not_ready(move_number, reason)
                    }
                }
            }
            mode => Ok(self.stay(mode, HostRefusal::Ignored)),
        }
    }

    /// Handles Part, a piece of the state. If memory runs out, changes nothing. Allocates nothing for a piece that is
    /// ignored.
    pub(crate) fn part(
        &mut self,
        alloc: Global,
        move_number: u64,
        stamp: u32,
        part: u8,
        parts: u8,
        bytes: &Bytes,
    ) -> Result<Answer, AllocError>
        requires number { 0 < move_number }
        requires parts { parts ≤ 6 }
        ensures answer { IfOk result (λ a. (limit version : ℕ) → Answers version
            (receiving.came board limit (frames.Part move_number stamp part parts bytes.now)
            (mode_of (plain_of self.old))) a (mode_of (plain_of self.new))) }
        ensures err { OnErr result (self.new ≡ self.old) }
        ensures refused { OnErr result ((limit : ℕ) → is_refused_outright (receiving.came board limit
            (frames.Part move_number stamp part parts bytes.now) (mode_of (plain_of self.old))).reply ≡ false) }
        ensures sent { IfOk result (λ a. (version : ℕ) → CanBeSent version (Some 8194) a.1) }
    {
        if self.is_held(move_number) {
            return Ok(HostReply::ReadySent.with(Frame::Ready { move_number }));
        }
        if !self.takes_part(move_number, stamp, part, parts) {
            return Ok(HostReply::refused(HostRefusal::Ignored));
        }
        let bytes = bytes.copy(alloc)?;
        match self.take() {
            Mode::Staging { staging, .. } => match staging.part(alloc, stamp, part, parts, bytes) {
                Ok(guest) => Ok(self.hold(move_number, guest)),
                Err((reason, staging)) => {
                    self.keep(move_number, staging);
                    not_joined(move_number, part, parts, reason)
                }
            },
            mode => Ok(self.stay(mode, HostRefusal::Ignored)),
        }
    }

    /// Whether the guest of this move is staged here and its stage takes such a piece of its state. Takes no memory.
    fn takes_part(&self, move_number: u64, stamp: u32, part: u8, parts: u8) -> bool
        ensures { result ≡ takes_part move_number stamp part parts (plain_of self.now) }
    {
        match self {
            Mode::Staging {
                move_number: staged,
                staging,
            } => *staged == move_number && staging.takes(stamp, part, parts),
            _ => false,
        }
    }

    /// Changes back to the mode in which this stage is kept.
    fn keep(&mut self, move_number: u64, staging: Staging<M>)
        ensures { self.new ≡ Mode.Staging move_number staging }
    {
        self.set(Mode::Staging {
            move_number,
            staging,
        });
    }

    /// Holds the whole guest until the source commits, and answers Ready.
    fn hold(&mut self, move_number: u64, guest: Debugged<M>) -> Answer
        ensures reply { result.0 ≡ HostReply.ReadySent }
        ensures frame { result.1 ≡ Some (Frame.Ready move_number) }
        ensures mode { self.new ≡ Mode.Held move_number guest }
    {
        self.set(Mode::Held { move_number, guest });
        HostReply::ReadySent.with(Frame::Ready { move_number })
    }

    /// Whether the whole guest of this move is held here.
    fn is_held(&self, move_number: u64) -> bool
        ensures { result ≡ is_held move_number (plain_of self.now) }
    {
        match self {
            Mode::Held {
                move_number: held,
                ..
            } => *held == move_number,
            _ => false,
        }
    }

    /// Handles Go: the source has committed, and the guest that is held runs here. If it already runs, answers Started
    /// again. Takes no memory.
    pub(crate) fn go(&mut self, move_number: u64) -> Answer
        requires { 0 < move_number }
        ensures answer { (limit version : ℕ) → Answers version
            (receiving.came board limit (frames.Go move_number) (mode_of (plain_of self.old)))
            result (mode_of (plain_of self.new)) }
        ensures sent { (version : ℕ) → CanBeSent version (Some 0) result.1 }
    {
        match self.take() {
            Mode::Held {
                move_number: held,
                guest,
            } => {
                if held != move_number {
                    let mode = Mode::Held {
                        move_number: held,
                        guest,
                    };
                    return self.stay(mode, HostRefusal::Ignored);
                }
                self.set(Mode::Run { move_number, guest });
                HostReply::Started.with(Frame::Started { move_number })
            }
            Mode::Run {
                move_number: runs,
                guest,
            } => {
                self.set(Mode::Run {
                    move_number: runs,
                    guest,
                });
                if runs != move_number {
                    return HostReply::refused(HostRefusal::Ignored);
                }
                HostReply::Resent.with(Frame::Started { move_number })
            }
            mode => self.stay(mode, HostRefusal::Ignored),
        }
    }

    /// Handles Abort: the source gave up the move, and what is staged or held of its guest is dropped.
    pub(crate) fn dropped(&mut self, move_number: u64) -> HostReply
        ensures { (limit version : ℕ) → Answers version
            (receiving.came board limit (frames.Abort move_number) (mode_of (plain_of self.old)))
            (result, None) (mode_of (plain_of self.new)) }
    {
        match self {
            Mode::Staging {
                move_number: staged,
                ..
            } if *staged == move_number => {
                self.set(Mode::Empty { move_number });
                HostReply::Dropped
            }
            Mode::Held {
                move_number: held,
                ..
            } if *held == move_number => {
                self.set(Mode::Empty { move_number });
                HostReply::Dropped
            }
            _ => HostReply::Refused(HostRefusal::Ignored),
        }
    }
}

/// The reply to a copy of a page that was stored or not.
fn stored(stored: bool, page: u16, copy_number: u32) -> HostReply
    ensures { result ≡ (if stored then HostReply.Stored page copy_number
        else HostReply.Refused HostRefusal.Ignored) }
{
    if stored {
        HostReply::Stored { page, copy_number }
    } else {
        HostReply::Refused(HostRefusal::Ignored)
    }
}

/// The answer to a state that made no guest. Fails if the reason is that memory ran out.
fn not_ready(move_number: u64, reason: NotReady) -> Result<Answer, AllocError>
    requires number { 0 < move_number }
    requires pages { CanBeTold reason }
    ensures answer { IfOk result (λ a. (version : ℕ) (s : PlainStage) (o : BoardOutcome)
        → IsLeft move_number reason s o
        → Answers version o a (protocol.Staging move_number (stage_of s))) }
    ensures memory { OnErr result (reason ≡ NotReady.OutOfMemory) }
    ensures sent { IfOk result (λ a. (version : ℕ) → CanBeSent version (Some 8194) a.1) }
{
    match reason {
        NotReady::Lacking(pages) => {
            let count = pages.as_slice().len() as u16;
            Ok(HostReply::Lacking(count).with(Frame::Lost { move_number, pages }))
        }
        NotReady::BadState => Ok(HostReply::refused(HostRefusal::BadState)),
        NotReady::OutOfMemory => Err(AllocError),
    }
}

/// The answer to a piece of a state if no guest was made. Fails if the reason is that memory ran out.
fn not_joined(
    move_number: u64,
    part: u8,
    parts: u8,
    reason: NotJoined,
) -> Result<Answer, AllocError>
    requires number { 0 < move_number }
    requires pages { PartCanBeTold reason }
    ensures answer { IfOk result (λ a. (version : ℕ) (s : PlainStage) (o : BoardOutcome)
        → IsPartLeft move_number part parts reason s o
        → Answers version o a (protocol.Staging move_number (stage_of s))) }
    ensures memory { OnErr result (reason ≡ NotJoined.OutOfMemory) }
    ensures sent { IfOk result (λ a. (version : ℕ) → CanBeSent version (Some 8194) a.1) }
{
    match reason {
        NotJoined::Ignored => Ok(HostReply::refused(HostRefusal::Ignored)),
        NotJoined::Kept => Ok(HostReply::Kept { part, parts }.alone()),
        NotJoined::Lacking(pages) => {
            let count = pages.as_slice().len() as u16;
            Ok(HostReply::Lacking(count).with(Frame::Lost { move_number, pages }))
        }
        NotJoined::BadState => Ok(HostReply::refused(HostRefusal::BadState)),
        NotJoined::OutOfMemory => Err(AllocError),
    }
}
