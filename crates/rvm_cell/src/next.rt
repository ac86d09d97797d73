//! What a worker does after a reply.

ghost use Rattle.std.specs.Prelude.{◌≡◌, true};
ghost use Rattle.rvm_cell.specs.Next.{after_copy, after_refusal, ends_hearing, is_gone, says_no_move};

use rvm_message::{HostRefusal, HostReply};

/// The milliseconds that the copier waits before it asks again for what could not be done yet.
pub(crate) const SHORT_PAUSE: u32 = 1;

/// The milliseconds that the copier waits for the other side: after the state or a part of it was sent, and before it
/// asks for the last frame again.
pub(crate) const LONG_PAUSE: u32 = 10;

/// What the copier does next.
#[derive(Clone, Copy, Debug, PartialEq, Eq)]
pub enum Next {
    /// It copies again at once.
    Copy,
    /// It copies again in this many milliseconds.
    Wait(u32),
    /// The guest was given up here: it asks for the last frame again, until the other side has it.
    Resend,
    /// It gives up the move.
    GiveUp,
    /// Nothing is left to be done.
    Done,
}

/// What the copier does after Copy was refused.
fn after_refusal(why: HostRefusal) -> Next
    ensures next { result ≡ after_refusal why }
    ensures done { result ≡ Next.Done → says_no_move (HostReply.Refused why) ≡ true }
    ensures gone { result ≡ Next.Resend → is_gone (HostReply.Refused why) ≡ true }
{
    match why {
        HostRefusal::Busy => Next::Wait(SHORT_PAUSE),
        HostRefusal::NotHere => Next::Resend,
        HostRefusal::NoMove => Next::Done,
        _ => Next::GiveUp,
    }
}

/// What the copier does after this reply to Copy.
pub(crate) fn after_copy(reply: &HostReply) -> Next
    ensures next { result ≡ after_copy reply.now }
    ensures done { result ≡ Next.Done → says_no_move reply.now ≡ true }
    ensures gone { result ≡ Next.Resend → is_gone reply.now ≡ true }
{
    match reply {
        HostReply::StateSent | HostReply::PartSent { .. } => Next::Wait(LONG_PAUSE),
        HostReply::Refused(why) => after_refusal(*why),
        _ => Next::Copy,
    }
}

/// Whether the move is over for a receiver after this reply.
pub(crate) fn ends_hearing(reply: &HostReply) -> bool
    ensures { result ≡ ends_hearing reply.now }
{
    match reply {
        HostReply::Finished
        | HostReply::Dropped
        | HostReply::Declined(_)
        | HostReply::MoveDeclined(_) => true,
        _ => false,
    }
}

/// Whether this reply says that no move is left at the host.
pub(crate) fn says_no_move(reply: &HostReply) -> bool
    ensures { result ≡ says_no_move reply.now }
{
    match reply {
        HostReply::Refused(HostRefusal::NoMove) => true,
        _ => false,
    }
}

/// Whether this reply says that the guest is at another host.
pub(crate) fn is_gone(reply: &HostReply) -> bool
    ensures { result ≡ is_gone reply.now }
{
    match reply {
        HostReply::Refused(HostRefusal::NotHere) => true,
        _ => false,
    }
}
