//! Reads the lines of a world's script.

ghost use Rattle.std.specs.Prelude.{◌≡◌, ◌∷◌};
ghost use Rattle.rvm_core.specs.WorldLines.{alone, asked_by, behind_letter, course_of, letter_host, lettered, policy_in, to_the_other, without_letter, world_asked, world_command_of, world_commanded, world_line_of};

use crate::world_command::WorldCommand;
use rvm_debug::{Line, Words, numeral, one_number, without_return};
use rvm_precopy::Policy;

/// What a line asks of a host.
#[derive(Drop)]
pub enum Asked<'a> {
    /// Do what a line for the guest asks for.
    Guest(Line<'a>),
    /// Begin a move to this host, or to the other host of two.
    Begin { to: Option<u8>, policy: Policy },
    /// Make a whole move to this host, or to the other host of two.
    Move { to: Option<u8>, policy: Policy },
    /// Copy the next page, or take the next action of the move.
    Copy,
    /// Send again what the other host may not have heard: the offer, the state, Ready or Go.
    Resend,
    /// Give up the move.
    Abort,
}

/// What a line asks for.
#[derive(Drop)]
pub enum WorldLine<'a> {
    /// Do nothing.
    Empty,
    /// Ask something of this host, or of the one that has the guest.
    Host { host: Option<u8>, asked: Asked<'a> },
    /// Deliver the frame that was sent at this place, from 0, to its host.
    Deliver(u32),
}

/// The target of a move, or None for the other host of two, and the policy.
type Course = (Option<u8>, Policy);

impl<'a> WorldLine<'a> {
    /// Reads a line of a script for a world of this many hosts, without the line feed at its end. Returns None if the
    /// line is not in the grammar.
    #[tactic(auto, unfolding(crate::specs::WorldLines::world_line_of))]
    pub fn read(line: &'a [u8], hosts: u8) -> Option<WorldLine<'a>>
        ensures { result ≡ world_line_of hosts line.now }
    {
        world_asked(Words::new(without_return(line)), hosts)
    }
}

/// What words ask for in a world of this many hosts; None if they are no line.
fn world_asked<'a>(words: Words<'a>, hosts: u8) -> Option<WorldLine<'a>>
    ensures { result ≡ world_asked hosts words.entry }
{
    let mut words = words;
    match words.next() {
        None | Some([b'#', ..]) => Some(WorldLine::Empty),
        Some(first) => lettered(first, words, hosts),
    }
}

/// What a line asks for, whose first word may be the letter of a host.
fn lettered<'a>(first: &[u8], words: Words<'a>, hosts: u8) -> Option<WorldLine<'a>>
    ensures { result ≡ lettered hosts (letter_host first.now) first.now words.entry }
{
    match letter(first) {
        Some(host) => behind_letter(host, words, hosts),
        None => without_letter(first, words, hosts),
    }
}

/// What the words after the letter of a host ask of that host; None if this world has no such host.
fn behind_letter<'a>(host: u8, words: Words<'a>, hosts: u8) -> Option<WorldLine<'a>>
    ensures { result ≡ behind_letter hosts host words.entry }
{
    if host >= hosts {
        return None;
    }
    let mut words = words;
    let name = words.next()?;
    let asked = asked_by(name, words, hosts)?;
    Some(WorldLine::Host {
        host: Some(host),
        asked,
    })
}

/// What a line without a letter asks for: `deliver K`, or something of the host that has the guest.
fn without_letter<'a>(first: &[u8], words: Words<'a>, hosts: u8) -> Option<WorldLine<'a>>
    ensures { result ≡ without_letter hosts first.now words.entry }
{
    if first == b"deliver".as_slice() {
        return Some(WorldLine::Deliver(one_number(words)?));
    }
    let asked = asked_by(first, words, hosts)?;
    Some(WorldLine::Host { host: None, asked })
}

/// What a name and the words after it ask of a host.
fn asked_by<'a>(name: &[u8], words: Words<'a>, hosts: u8) -> Option<Asked<'a>>
    ensures { result ≡ asked_by hosts (world_command_of name.now) name.now words.entry }
{
    match WorldCommand::named(name) {
        Some(command) => commanded(command, words, hosts),
        None => Some(Asked::Guest(Line::named(name, words)?)),
    }
}

/// What a command of a move and the words after its name ask for.
fn commanded<'a>(command: WorldCommand, words: Words<'a>, hosts: u8) -> Option<Asked<'a>>
    ensures { result ≡ world_commanded hosts command words.entry }
{
    match command {
        WorldCommand::Begin => {
            let (to, policy) = course(words, hosts)?;
            Some(Asked::Begin { to, policy })
        }
        WorldCommand::Move => {
            let (to, policy) = course(words, hosts)?;
            Some(Asked::Move { to, policy })
        }
        WorldCommand::Copy => alone(Asked::Copy, words),
        WorldCommand::Resend => alone(Asked::Resend, words),
        WorldCommand::Abort => alone(Asked::Abort, words),
    }
}

/// What is asked, if no word is left.
fn alone<'a>(asked: Asked<'a>, words: Words) -> Option<Asked<'a>>
    ensures { result ≡ alone asked.entry words.entry }
{
    if words.is_empty() { Some(asked) } else { None }
}

/// The target and the policy that `[HOST] [R L F]` names; if there are more than two hosts, the target must be named.
fn course(words: Words, hosts: u8) -> Option<Course>
    ensures { result ≡ course_of hosts words.entry }
{
    let mut words = words;
    let Some(first) = words.next() else {
        return to_the_other(hosts, Some(Policy::default()));
    };
    match letter(first) {
        Some(to) => Some((Some(to), policy(words)?)),
        None => to_the_other(hosts, numbers(first, words)),
    }
}

/// The target and the policy of a move to the other host, if there are two.
fn to_the_other(hosts: u8, policy: Option<Policy>) -> Option<Course>
    ensures { result ≡ to_the_other hosts policy }
{
    if hosts == 2 {
        Some((None, policy?))
    } else {
        None
    }
}

/// The policy that `[R L F]` names; the default policy if there are no words.
fn policy(words: Words) -> Option<Policy>
    ensures { result ≡ policy_in words.entry }
{
    let mut words = words;
    match words.next() {
        None => Some(Policy::default()),
        Some(first) => numbers(first, words),
    }
}

/// The policy that `R L F` names.
fn numbers(first: &[u8], words: Words) -> Option<Policy>
    ensures { result ≡ policy_in (first.now ∷ words.entry) }
{
    let mut words = words;
    let max_rounds = numeral(first)?;
    let min_left = numeral(words.next()?)?;
    let factor = one_number(words)?;
    Some(Policy {
        max_rounds,
        min_left,
        factor,
    })
}

/// The host that a letter, A to H, names.
fn letter(word: &[u8]) -> Option<u8>
    ensures { result ≡ letter_host word.now }
{
    match word {
        [letter @ b'A'..=b'H'] => Some(*letter - b'A'),
        _ => None,
    }
}
