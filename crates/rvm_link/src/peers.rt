//! The hosts that the lines of a file of peers name.

ghost use Rattle.std.specs.Prelude.{◌≡◌, ◌≤◌, ◌<◌, ◌↔◌, ℕ, Some, Err, length, map, slice_get, IfOk, IfErr, IfSome, IfNone, IsSomeAnd, false, true};
ghost use Rattle.std.specs.List.{list_any};
ghost use Rattle.std.specs.Str.{bytes_eq};
ghost use Rattle.rvm_debug.specs.Words.{lines};
ghost use Rattle.rvm_link.specs.Peers.{IsFirstFault, IsLineFault, is_repeat_at, peers_in};
ghost use Rattle.rvm_link.specs.declared.peers.PeersFault.TheVariants as fault;

use crate::peer_line::{MAX_PEERS, Named, read_line};
use arrayvec::ArrayVec;
use rvm_debug::split_line;
use std::alloc::{AllocError, Global};
use std::marker::Model;
use thiserror::Error;

/// The addresses of the hosts of a world, in the order of their letters. There are two to eight.
#[derive(Drop)]
pub struct Peers {
    addresses: Vec<Vec<u8>>,
}

impl Model for Peers {
    ghost use Rattle.std.specs.Prelude.{◌≡◌, List, ℕ, map, true};
    ghost use Rattle.rvm_link.specs.Peers.{is_world};

    ghost Value = { List (List ℕ) };

    ghost view = { λ p. map (λ a. a.items) p.addresses.items };

    ghost invariant = { λ p. is_world (map (λ a. a.items) p.addresses.items) ≡ true };
}

/// Why a text could not be read as the hosts of a world.
#[derive(Clone, Copy, Debug, PartialEq, Eq, Error)]
pub enum PeersFault {
    /// Memory ran out.
    #[error("out of memory")]
    OutOfMemory,
    /// The line with this number, counted from 1, names no host, or not the next one.
    #[error("line {0} names no host, or not the next one")]
    BadLine(usize),
    /// The line with this number, counted from 1, names the next host, at the address of a host before it.
    #[error("line {0}: a host before it has this address")]
    SameAddress(usize),
    /// The lines name fewer than two hosts.
    #[error("fewer than two hosts")]
    TooFew,
}

impl From<AllocError> for PeersFault {
    ghost from_gives = { λ _ told. told ≡ fault.OutOfMemory };

    fn from(_error: AllocError) -> PeersFault {
        PeersFault::OutOfMemory
    }
}

/// Reads from the text of a file which hosts a world has.
///
/// The first line that is a fault is told by its number: `BadLine` if it names no host, or not the next one, and
/// `SameAddress` if it names the next one at the address of a host before it. `TooFew` if the lines name fewer than two
/// hosts. All these are found before any memory is allocated: `OutOfMemory` means that the text names a world.
#[tactic(auto, using(crate::proofs::Naming::faults))]
pub fn read_peers(alloc: Global, text: &[u8]) -> Result<Peers, PeersFault>
    ensures peers { IfOk result (λ p. (peers_in (lines text.now) ≡ Some p) × (2 ≤ length p)) }
    ensures bad_line { (n : ℕ) → (result ≡ Err (fault.BadLine n))
        ↔ (IsFirstFault n (lines text.now) × (is_repeat_at n (lines text.now) ≡ false)) }
    ensures same_address { (n : ℕ) → (result ≡ Err (fault.SameAddress n))
        ↔ (IsFirstFault n (lines text.now) × (is_repeat_at n (lines text.now) ≡ true)) }
    ensures too_few { (result ≡ Err fault.TooFew)
        ↔ IsSomeAnd (peers_in (lines text.now)) (λ p. length p < 2) }
    ensures memory { result ≡ Err fault.OutOfMemory
        → IsSomeAnd (peers_in (lines text.now)) (λ p. 2 ≤ length p) }
{
    let addresses = match addresses_in(text) {
        Ok(addresses) => addresses,
        Err(fault) => return Err(fault),
    };
    if addresses.len() < 2 {
        return Err(PeersFault::TooFew);
    }
    let addresses = copies_of(alloc, &addresses)?;
    Ok(Peers { addresses })
}

/// The addresses of the hosts that the lines of a text name. Fails with the first line that is a fault.
fn addresses_in(text: &[u8]) -> Result<ArrayVec<&[u8], MAX_PEERS>, PeersFault>
    ensures peers { IfOk result (λ v. peers_in (lines text.now) ≡ Some (map (λ a. a.now) v.items)) }
    ensures fault { IfErr result (λ fault. IsLineFault fault (lines text.now)) }
{
    let mut addresses = ArrayVec::new();
    let mut rest = text;
    let mut number = 0;
    while !rest.is_empty() {
        let (line, after) = split_line(rest);
        number += 1;
        match read_line(line, addresses.len()) {
            Named::Nothing => {}
            Named::Host(address) => {
                if is_taken(&addresses, address) {
                    return Err(PeersFault::SameAddress(number));
                }
                addresses.push(address);
            }
            Named::Fault => return Err(PeersFault::BadLine(number)),
        }
        rest = after;
    }
    Ok(addresses)
}

/// Whether this is one of the addresses.
fn is_taken(addresses: &[&[u8]], address: &[u8]) -> bool
    ensures { result ≡ list_any (λ a. bytes_eq a.now address.now) addresses.now }
{
    addresses.iter().any(|other| *other == address)
}

/// Copies of these addresses, in memory of their own.
fn copies_of(alloc: Global, addresses: &[&[u8]]) -> Result<Vec<Vec<u8>>, AllocError>
    ensures { IfOk result (λ v. map (λ a. a.items) v.items ≡ map (λ a. a.now) addresses.now) }
{
    let mut copies = Vec::new(alloc);
    for address in addresses {
        copies.push(Vec::from_slice(alloc, address)?)?;
    }
    Ok(copies)
}

impl Peers {
    /// The number of hosts: two to eight.
    pub fn count(&self) -> usize
        ensures count { result ≡ length self.now }
        ensures some { 2 ≤ result }
        ensures most { result ≤ 8 }
    {
        self.addresses.len()
    }

    /// The address of the host with this number, counted from 0; none if there is no such host.
    pub fn address(&self, host: usize) -> Option<&[u8]>
        ensures some { IfSome result (λ a. slice_get self.now host ≡ Some a.now) }
        ensures none { IfNone result (length self.now ≤ host) }
    {
        self.addresses.get(host).map(|address| address.as_slice())
    }
}
