//! What a host knows of its world and of the processes of the other hosts.

ghost use Rattle.std.specs.Prelude.{◌≡◌, Some, None, IfErr, OnOk, OnErr, replicate};
ghost use Rattle.rvm_link.specs.Greetings.{is_for, opening_for};
ghost use Rattle.rvm_link.specs.Facts.{after_meeting, differ, facts_for, met, refusal_of};

use crate::facts::Facts;
use crate::greeting_fault::GreetingFault;
use crate::opening::Opening;

/// The most hosts of a world.
const MAX_HOSTS: usize = 8;

/// What the process of a host knows of its world: the number of the world, and the processes of the other hosts that it
/// has met. 0 stands for a number that is not known.
#[derive(Clone, Copy, Debug)]
pub struct Registry {
    host: u8,
    hosts: u8,
    process: u64,
    world: u64,
    met: [u64; MAX_HOSTS],
}

impl Registry {
    /// The registry of a process that has met no other host yet. Its host has the number `host`, in a world of `hosts`
    /// hosts.
    pub fn new(host: u8, hosts: u8, process: u64, world: u64) -> Registry
        ensures host { result.host ≡ host }
        ensures hosts { result.hosts ≡ hosts }
        ensures process { result.process ≡ process }
        ensures world { result.world ≡ world }
        ensures met { result.met ≡ replicate 8 0 }
    {
        Registry {
            host,
            hosts,
            process,
            world,
            met: [0; MAX_HOSTS],
        }
    }

    /// The opening of this host to the host with the number `to`.
    pub(crate) fn opening(&self, to: u8, nonce: &[u8; 32]) -> Opening
        ensures { result ≡ opening_for self.now to nonce.now }
    {
        Opening {
            from: self.host,
            to,
            hosts: self.hosts,
            nonce: *nonce,
        }
    }

    /// Whether an opening is to this host, from another host of a world with as many hosts.
    pub(crate) fn is_for(&self, opening: &Opening) -> bool
        ensures { result ≡ is_for self.now opening.now }
    {
        opening.to == self.host
            && opening.hosts == self.hosts
            && opening.from != self.host
            && opening.from < self.hosts
    }

    /// The facts that this host tells the host with this number.
    pub fn facts_for(&self, host: u8) -> Facts
        ensures { result ≡ facts_for self.now host }
    {
        Facts {
            world: self.world,
            process: self.process,
            known: self.met(host),
        }
    }

    /// Records that the host with this number was met, and takes the world that it told if none is known yet.
    ///
    /// `OtherWorld` if that host is of another world; `BeganAnew` with the number of the host whose process began anew,
    /// if one of the two did after the other had met it. Either leaves the registry unchanged.
    pub fn meet(&mut self, host: u8, facts: &Facts) -> Result<(), GreetingFault>
        ensures met { OnOk result (self.new ≡ after_meeting self.old host facts.now) }
        ensures welcome { OnOk result (refusal_of self.old host facts.now ≡ None) }
        ensures refused { IfErr result (λ e. refusal_of self.old host facts.now ≡ Some e) }
        ensures kept { OnErr result (self.new ≡ self.old) }
    {
        if let Some(fault) = self.refusal_of(host, facts) {
            return Err(fault);
        }
        if self.world == 0 {
            self.world = facts.world;
        }
        if (host as usize) < MAX_HOSTS {
            self.met[host as usize] = facts.process;
        }
        Ok(())
    }

    /// Why this host refuses the facts that a host told; none if it does not.
    fn refusal_of(&self, host: u8, facts: &Facts) -> Option<GreetingFault>
        ensures { result ≡ refusal_of self.now host facts.now }
    {
        if differ(self.world, facts.world) {
            return Some(GreetingFault::OtherWorld);
        }
        if differ(self.met(host), facts.process) {
            return Some(GreetingFault::BeganAnew(host));
        }
        if differ(facts.known, self.process) {
            return Some(GreetingFault::BeganAnew(self.host));
        }
        None
    }

    /// The number of a host's process; 0 if it was not met.
    fn met(&self, host: u8) -> u64
        ensures { result ≡ met self.now host }
    {
        match self.met.get(host as usize) {
            Some(process) => *process,
            None => 0,
        }
    }
}

/// Whether both numbers are known and differ.
fn differ(a: u64, b: u64) -> bool
    ensures { result ≡ differ a b }
{
    a != 0 && b != 0 && a != b
}
