//! The mover: moves the guest of this host to another one.

ghost use Rattle.std.specs.Prelude.{ℕ, IfErr, IfSome};
ghost use Rattle.rvm_station.specs.Asked.{AreAllOf};
ghost use Rattle.rvm_precopy.specs.declared.policy.Policy.{Policy as PlainPolicy};
ghost use Rattle.rvm_station.specs.Movers.{IsOfCopier, IsMoveEnd, IsToBegin};
ghost use Rattle.rvm_station.specs.News.{IsNews};

use crate::access::Access;
use crate::course::{Course, Figures, ProgressReporter};
use crate::news::MoveNews;
use crate::origin::Hosting;
use crate::station::Station;
use rvm_host::ModeKind;
use rvm_message::{Command, HostRefusal, HostReply};
use rvm_precopy::Policy;
use std::io::Write;
use std::sync::Wait;
use std::sync::atomic::{AtomicBool, Ordering};
use std::thread;
use std::time::{Clock, Duration};

/// The longest time between two looks at a host that is no source of a move, in milliseconds.
const LOOK: u64 = 20;

/// A move as it was asked for.
#[derive(Clone, Copy, Debug)]
pub struct MovePlan {
    /// The number of the target host.
    pub to: u8,
    pub policy: Policy,
    /// For how long nothing may be heard or done before the move is given up, while that may be.
    pub patience: Duration,
    /// The most megabytes, each of 1000000 bytes, that are sent in a second while the guest runs, if there is a limit.
    pub bandwidth: Option<u32>,
}

/// How a move ended.
#[derive(Clone, Copy, Debug, PartialEq, Eq)]
pub enum MoveEnd {
    /// The guest runs at its target.
    Moved(Figures),
    /// The target takes no more pages than this. The guest runs on here.
    Declined(u16),
    /// The host refused to begin the move, or to begin it anew.
    Refused(HostRefusal),
    /// The mover gave it up, since nothing was heard or done for too long, or no copy number was left. The guest runs
    /// on here.
    GivenUp,
    /// Somebody else gave it up. The guest runs on here.
    Aborted,
    /// Memory ran out before the move began, or began anew.
    OutOfMemory,
    /// The mover was told to end before it knew how the move ended.
    Stopped,
}

/// Moves the guest of this host to another one, by pre-copy. Returns how the move ended, and meanwhile reports to
/// `watch` how far it has come.
///
/// If the connection breaks while pages are copied, the mover gives up the move and begins it anew once there is a
/// connection again, so that the guest is not paused for what was lost; if it breaks once the guest is paused, the last
/// frames are sent again. The mover gives up the move if nothing is heard or done for `patience`, but never after the
/// commit: then it ends only when it hears that the guest runs at its target, or when it is told to end.
#[tactic(auto, using(crate::proofs::AllOf::both_of))]
pub fn move_away<L: Hosting, A: Access<L>, W: Write + Drop, V: ProgressReporter, R: Wait + Clock>(
    rt: &R,
    station: &Station<L, W>,
    access: &mut A,
    plan: &MovePlan,
    stop: &AtomicBool,
    watch: &mut V,
) -> MoveEnd
    ensures asked { AreAllOf (IsOfCopier plan.now.to plan.now.policy) L.gave (A.asked access.old) (A.asked access.new) }
    ensures end { IsMoveEnd L.gave result }
{
    let sent = station.bytes_sent();
    let mut course = match begin(rt, station, access, plan) {
        Ok(number) => Course::new(rt, number, sent),
        Err(end) => return end,
    };
    for _step in rt.forever() {
        if let Some(news) = station.news.of(rt, course.number) {
            return end_of::<L>(course.figures(rt, station.bytes_sent()), news);
        }
        if stop.load(Ordering::SeqCst) {
            return MoveEnd::Stopped;
        }
        if let Some(end) = go_on(rt, station, access, plan, &mut course) {
            return end;
        }
        watch.tell(course.progress());
    }
    unreachable!()
}

/// How a move ended, by the news of it.
fn end_of<L: Hosting>(figures: Figures, news: MoveNews) -> MoveEnd
    requires { IsNews L.gave figures.number news }
    ensures { IsMoveEnd L.gave result }
{
    match news {
        MoveNews::Finished => MoveEnd::Moved(figures),
        MoveNews::Declined(limit) => MoveEnd::Declined(limit),
        MoveNews::Aborted => MoveEnd::Aborted,
    }
}

/// Begins a move. Returns its number, or how the move ended if it did not begin.
#[tactic(auto, using(crate::proofs::AllOf::one_of, crate::proofs::AllOf::unasked_of))]
fn begin<L: Hosting, A: Access<L>, W: Write + Drop, R: Wait>(
    rt: &R,
    station: &Station<L, W>,
    access: &mut A,
    plan: &MovePlan,
) -> Result<u64, MoveEnd>
    ensures asked { AreAllOf (IsOfCopier plan.now.to plan.now.policy) L.gave (A.asked access.old) (A.asked access.new) }
    ensures end { IfErr result (IsMoveEnd L.gave) }
{
    let command = Command::Begin {
        to: plan.to,
        policy: plan.policy,
    };
    let Ok(reply) = station.obey(rt, access, &command) else {
        return Err(MoveEnd::OutOfMemory);
    };
    let number = begun::<L>(reply)?;
    station.news.await_move(rt, number);
    Ok(number)
}

/// The number of the move that a host has begun, or how the move ended if the host refused.
fn begun<L: Hosting>(reply: HostReply) -> Result<u64, MoveEnd>
    requires { IsToBegin L.gave reply }
    ensures { IfErr result (IsMoveEnd L.gave) }
{
    match reply {
        HostReply::Begun(number) => Ok(number),
        HostReply::Refused(why) => Err(MoveEnd::Refused(why)),
        _ => unreachable!(),
    }
}

/// Does what is to be done next. Returns how the move ended, if it did.
#[tactic(auto, using(crate::proofs::AllOf::none_of))]
fn go_on<L: Hosting, A: Access<L>, W: Write + Drop, R: Wait + Clock>(
    rt: &R,
    station: &Station<L, W>,
    access: &mut A,
    plan: &MovePlan,
    course: &mut Course,
) -> Option<MoveEnd>
    ensures asked { AreAllOf (IsOfCopier plan.now.to plan.now.policy) L.gave (A.asked access.old) (A.asked access.new) }
    ensures end { IfSome result (IsMoveEnd L.gave) }
{
    course.seen = station.news.count(rt);
    let kind = access.status().kind;
    let may_end = matches!(
        kind,
        ModeKind::Offering | ModeKind::Copying | ModeKind::Stopped
    );
    if may_end && course.is_silent(rt, plan.patience) {
        return give_up(rt, station, access);
    }
    match kind {
        ModeKind::Given => ask_again(rt, station, access, course),
        ModeKind::Running | ModeKind::Empty | ModeKind::Staging | ModeKind::Held => {
            let _told = station
                .news
                .wait(rt, course.seen, Duration::from_millis(LOOK));
        }
        _ => return send_more(rt, station, access, plan, course, kind),
    }
    None
}

/// Gives up the move, unless it was committed in the meantime. Returns `GivenUp` if it did.
#[tactic(auto, using(crate::proofs::AllOf::one_of, crate::proofs::AllOf::unasked_of))]
fn give_up<L: Hosting, A: Access<L>, W: Write + Drop, R: Wait>(
    rt: &R,
    station: &Station<L, W>,
    access: &mut A,
) -> Option<MoveEnd>
    ensures asked { (to : ℕ) → (policy : PlainPolicy) → AreAllOf (IsOfCopier to policy) L.gave (A.asked access.old) (A.asked access.new) }
    ensures end { IfSome result (IsMoveEnd L.gave) }
{
    match station.obey(rt, access, &Command::Abort) {
        Ok(HostReply::Aborted) => Some(MoveEnd::GivenUp),
        _ => None,
    }
}

/// Waits for the target, and has the last frame sent again if nothing came.
#[tactic(auto, using(crate::proofs::AllOf::none_of, crate::proofs::AllOf::one_of, crate::proofs::AllOf::unasked_of))]
fn ask_again<L: Hosting, A: Access<L>, W: Write + Drop, R: Wait + Clock>(
    rt: &R,
    station: &Station<L, W>,
    access: &mut A,
    course: &mut Course,
)
    ensures asked { (to : ℕ) → (policy : PlainPolicy) → AreAllOf (IsOfCopier to policy) L.gave (A.asked access.old) (A.asked access.new) }
{
    if !listen(rt, station, course) {
        let _reply = station.obey(rt, access, &Command::Resend);
    }
}

/// Waits for the target, longer each time that nothing comes. Returns whether something was heard.
fn listen<L: Hosting, W: Write + Drop, R: Wait + Clock>(
    rt: &R,
    station: &Station<L, W>,
    course: &mut Course,
) -> bool {
    let is_heard = station.news.wait(rt, course.seen, course.wait());
    if is_heard {
        course.heard(rt);
    } else {
        course.wait_longer();
    }
    is_heard
}

/// Goes on with the move of a guest that is here, if there is a connection. If it is a new one, pages that were copied
/// may be lost: a move that copies pages is begun anew.
#[tactic(auto, using(crate::proofs::AllOf::none_of, crate::proofs::AllOf::one_of, crate::proofs::AllOf::unasked_of))]
fn send_more<L: Hosting, A: Access<L>, W: Write + Drop, R: Wait + Clock>(
    rt: &R,
    station: &Station<L, W>,
    access: &mut A,
    plan: &MovePlan,
    course: &mut Course,
    kind: ModeKind,
) -> Option<MoveEnd>
    ensures asked { AreAllOf (IsOfCopier plan.now.to plan.now.policy) L.gave (A.asked access.old) (A.asked access.new) }
    ensures end { IfSome result (IsMoveEnd L.gave) }
{
    if !station.routes.is_open(rt, plan.to) {
        course.was_open = false;
        thread::sleep(rt, Duration::from_millis(1));
        return None;
    }
    let is_anew = !course.was_open;
    course.was_open = true;
    match kind {
        ModeKind::Copying if is_anew => return begin_anew(rt, station, access, plan, course),
        ModeKind::Offering if is_anew => {
            let _reply = station.obey(rt, access, &Command::Resend);
        }
        ModeKind::Stopped => copy_last(rt, station, access, course),
        _ => return copy(rt, station, access, plan, course),
    }
    None
}

/// Gives up the move and begins it anew. Returns how it ended if it did not begin anew.
#[tactic(auto, using(crate::proofs::AllOf::both_of, crate::proofs::AllOf::one_of, crate::proofs::AllOf::unasked_of))]
fn begin_anew<L: Hosting, A: Access<L>, W: Write + Drop, R: Wait + Clock>(
    rt: &R,
    station: &Station<L, W>,
    access: &mut A,
    plan: &MovePlan,
    course: &mut Course,
) -> Option<MoveEnd>
    ensures asked { AreAllOf (IsOfCopier plan.now.to plan.now.policy) L.gave (A.asked access.old) (A.asked access.new) }
    ensures end { IfSome result (IsMoveEnd L.gave) }
{
    let Ok(HostReply::Aborted) = station.obey(rt, access, &Command::Abort) else {
        return None;
    };
    match begin(rt, station, access, plan) {
        Ok(number) => {
            course.number = number;
            course.heard(rt);
            None
        }
        Err(end) => Some(end),
    }
}

/// Copies pages while the guest runs, or takes the next step of the move. Returns how the move ended, if it did.
#[tactic(auto, using(crate::proofs::AllOf::both_of, crate::proofs::AllOf::copies_of))]
fn copy<L: Hosting, A: Access<L>, W: Write + Drop, R: Wait + Clock>(
    rt: &R,
    station: &Station<L, W>,
    access: &mut A,
    plan: &MovePlan,
    course: &mut Course,
) -> Option<MoveEnd>
    ensures asked { AreAllOf (IsOfCopier plan.now.to plan.now.policy) L.gave (A.asked access.old) (A.asked access.new) }
    ensures end { IfSome result (IsMoveEnd L.gave) }
{
    let Ok((reply, copies)) = station.copy(rt, access) else {
        thread::sleep(rt, Duration::from_millis(1));
        return None;
    };
    course.copies = course.copies.saturating_add(u64::from(copies));
    match reply {
        HostReply::Copied { .. } => {
            course.copies = course.copies.saturating_add(1);
            course.heard(rt);
            if let Some(bandwidth) = plan.bandwidth {
                course.keep_bandwidth(rt, bandwidth, station.bytes_sent());
            }
        }
        HostReply::RoundEnded { left, .. } => {
            course.rounds = course.rounds.saturating_add(1);
            course.left = left;
            await_arrival(rt, station, plan, course);
        }
        HostReply::Stopping => {
            course.pause(rt);
            // Waits until what the guest sent before the pause is written here: only then can it send more elsewhere.
            drop(station.console.lock(rt));
        }
        HostReply::Refused(HostRefusal::Busy) => ask_again(rt, station, access, course),
        HostReply::Refused(HostRefusal::SeqSpent) => return give_up(rt, station, access),
        _ => {}
    }
    None
}

/// Waits until all that was sent has arrived, for at most `patience`, so that the guest is not paused for what is still
/// under way.
fn await_arrival<L: Hosting, W: Write + Drop, R: Wait + Clock>(
    rt: &R,
    station: &Station<L, W>,
    plan: &MovePlan,
    course: &mut Course,
) {
    let question = station.next_question();
    if station.routes.ask(rt, plan.to, question).is_ok()
        && station
            .news
            .wait_for_answer(rt, plan.to, question, plan.patience)
    {
        course.heard(rt);
    }
}

/// Sends the next of what is left of the paused guest; after the last of it, waits for the target.
#[tactic(auto, using(crate::proofs::AllOf::one_of, crate::proofs::AllOf::unasked_of))]
fn copy_last<L: Hosting, A: Access<L>, W: Write + Drop, R: Wait + Clock>(
    rt: &R,
    station: &Station<L, W>,
    access: &mut A,
    course: &mut Course,
)
    ensures asked { (to : ℕ) → (policy : PlainPolicy) → AreAllOf (IsOfCopier to policy) L.gave (A.asked access.old) (A.asked access.new) }
{
    match station.obey(rt, access, &Command::Copy) {
        Ok(HostReply::Copied { .. }) => course.copies = course.copies.saturating_add(1),
        Ok(HostReply::PartSent { part, parts }) => {
            if part.saturating_add(1) >= parts {
                let _heard = listen(rt, station, course);
            }
        }
        Ok(HostReply::StateSent) => {
            let _heard = listen(rt, station, course);
        }
        Ok(_) => {}
        Err(_) => thread::sleep(rt, Duration::from_millis(1)),
    }
}
