//! The order that an audit prints, played as a script.

use crate::asked::{AUDIT_STEPS, LOOP, to_move, to_script};
use rvm_audit::audit;
use rvm_core::{Event, write_guest_reply, write_move_reply, write_steps_reply};
use rvm_hart::Stepped;
use rvm_message::{Command, Exchange, ExchangeRef, HostEvent, StepReply};
use rvm_move::audit_over::{Audited, audit_over};
use rvm_move::script_command::script_command;
use rvm_paged::PagedRam;
use rvm_recorder::{Entry, Left, Told};
use rvm_refusal::LinkFault;
use std::alloc::Global;
use std::io;
use std::io::BufWriter;
use std::net::Net;
use std::sync::Wait;
use std::thread::Threads;
use std::time::Clock;

/// The entries of both hosts that an order has not come to, and who sent each frame.
#[derive(Drop)]
struct Unplayed<'a> {
    first: Left<'a>,
    second: Left<'a>,
    senders: Vec<u8>,
}

impl<'a> Unplayed<'a> {
    /// The host of an event, if there is one.
    fn host_of(&self, event: &Event) -> Option<u8> {
        match event {
            Event::At(host, _) => Some(*host),
            Event::Deliver(place) => {
                let sender = self.senders.as_slice().get(*place as usize)?;
                Some(if *sender == 0 { 1 } else { 0 })
            }
        }
    }

    /// The next entry of a host, if there is one.
    fn next(&mut self, host: u8) -> Option<Told<'a>> {
        if host == 0 {
            self.first.next()
        } else {
            self.second.next()
        }
    }

    /// Notes the frame that a host's entry made, if it made one. Returns its place.
    fn place(&mut self, host: u8, told: Told<'_>) -> Option<usize> {
        if !has_frame(told) {
            return None;
        }
        let place = self.senders.len();
        self.senders.push(host).ok()?;
        Some(place)
    }
}

/// Whether an entry made a frame.
fn has_frame(told: Told<'_>) -> bool {
    match told {
        Told::Entry(entry) => entry.frame().is_some(),
        Told::Step(_) | Told::Dry(_) => false,
    }
}

/// Writes the reply of an entry, by a view of it.
fn write_told(text: &mut Vec<u8>, told: Told<'_>, place: Option<usize>) -> Result<(), LinkFault> {
    match told {
        Told::Entry(entry) => write_reply(text, entry, place),
        Told::Step(hart) => {
            write_steps_reply(text, hart, 1, &StepReply::Stepped(Stepped::Retired).reply())
        }
        Told::Dry(count) => write_guest_reply(text, None, &Exchange::dry(count).reply()),
    }
}

/// Writes an entry's reply as the answer to a script has it.
fn write_reply(text: &mut Vec<u8>, entry: &Entry, place: Option<usize>) -> Result<(), LinkFault> {
    match entry.exchange().look() {
        ExchangeRef::Step { hart, reply } => write_steps_reply(text, hart, 1, &reply.reply()),
        ExchangeRef::Dry(_) => write_guest_reply(text, None, &entry.exchange().reply()),
        ExchangeRef::Copied { .. } | ExchangeRef::Stored { .. } => {
            write_move_reply(text, &entry.exchange().reply(), place)
        }
        ExchangeRef::Other { event, reply } => match event {
            HostEvent::Do(Command::Board(_)) => write_guest_reply(text, None, reply),
            _ => write_move_reply(text, reply, place),
        },
    }
}

/// The text of the replies in both journals, in an order of their events.
fn answers(alloc: Global, unplayed: Unplayed, events: &[Event]) -> Option<Vec<u8>> {
    let mut unplayed = unplayed;
    let mut text = Vec::new(alloc);
    for event in events {
        let host = unplayed.host_of(event)?;
        let entry = unplayed.next(host)?;
        let place = unplayed.place(host, entry);
        write_told(&mut text, entry, place).ok()?;
    }
    Some(text)
}

/// Whether a script with the guest of the move is answered with this text.
fn is_played(alloc: Global, script: &[u8], told: &[u8]) -> io::Result<bool> {
    let mut played = BufWriter::new(alloc, Vec::new(alloc))?;
    let mut errors = Vec::new(alloc);
    let mut lines = script;
    let status = script_command::<PagedRam, _, _, _>(
        alloc,
        &to_script(),
        LOOP,
        &mut lines,
        &mut played,
        &mut errors,
    );
    Ok(status == Ok(0) && played.get_ref().as_slice() == told)
}

/// The text of the replies of both hosts of an audit, in the order that it found.
fn told(alloc: Global, audited: &Audited<PagedRam>) -> Option<Vec<u8>> {
    let (a, b) = audited.hosts.as_ref()?;
    let events = audit(alloc, a.journal(), b.journal()).ok()?;
    let unplayed = Unplayed {
        first: Left::new(a.journal().items()),
        second: Left::new(b.journal().items()),
        senders: Vec::new(alloc),
    };
    answers(alloc, unplayed, events.as_slice())
}

/// Audits a move. Returns the text of the replies of both hosts, if it did not fail. The order that is printed goes to
/// `script`.
fn audit_move<R: AllocGlobal + Net + Threads + Wait + Clock + Sync>(
    rt: &R,
    script: &mut BufWriter<Vec<u8>>,
) -> Option<Vec<u8>>
where
    R::Stream: Send,
{
    let alloc = rt.alloc();
    let mut errors = Vec::new(alloc);
    let arguments = to_move(AUDIT_STEPS, 1);
    match audit_over::<PagedRam, _, _, _>(rt, alloc, &arguments, LOOP, script, &mut errors) {
        Ok(audited) => {
            let told = told(alloc, &audited);
            drop(audited);
            told
        }
        Err(_) => None,
    }
}

/// Whether a move did not fail, and the order that its audit printed, played with the same guest, is answered as both
/// hosts replied.
fn is_audited_and_played<R: AllocGlobal + Net + Threads + Wait + Clock + Sync>(
    rt: &R,
) -> io::Result<bool>
where
    R::Stream: Send,
{
    let alloc = rt.alloc();
    let mut script = BufWriter::new(alloc, Vec::new(alloc))?;
    match audit_move(rt, &mut script) {
        Some(told) => is_played(alloc, script.get_ref().as_slice(), told.as_slice()),
        None => Ok(false),
    }
}

/// Audits a move, plays its order as a script, and prints whether the answers are the same.
pub fn play_order<R: AllocGlobal + Print + Net + Threads + Wait + Clock + Sync>(
    rt: &R,
) -> anyhow::Result<()>
where
    R::Stream: Send,
{
    let is_played = is_audited_and_played(rt)?;
    println!(rt; "an order played as a script answers as both journals {is_played}")?;
    Ok(())
}
