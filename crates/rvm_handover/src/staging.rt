//! The stage of a guest that is on its way: its pages and the pieces of its state that are here.

ghost use Rattle.std.specs.Prelude.{◌≡◌, ◌≤◌, ◌*◌, ◌<◌, ℕ, true, length, get_or, IfOk, IfErr, OnErr, Some, None, is_some, option_map, if◌then◌else◌};
ghost use Rattle.rvm_frame.specs.Bodies.{lost};
ghost use Rattle.rvm_protocol.specs.Pages.{gathered, members, put};
ghost use Rattle.rvm_protocol.specs.Receiving.{page_came, part_came, state_came};
ghost use Rattle.rvm_protocol.specs.Staging.{new_stage, takes_part, with_part};
ghost use Rattle.rvm_guest.specs.TheGuest.{board};
ghost use Rattle.rvm_guest.specs.Body.{build};
ghost use Rattle.rvm_guest.specs.Pages.{joined, pages_in, zeros};
ghost use Rattle.rvm_handover.specs.Stages.{blank, is_newer, is_older, stage_of, with_copy};
ghost use Rattle.rvm_handover.specs.Outcomes.{CanBeTold, IsFault, IsLeft, copied, ready};
ghost use Rattle.rvm_handover.specs.Pieces.{IsPartLeft, PartCanBeTold, left_of, reason_joined, with_piece};

use crate::not_joined::NotJoined;
use crate::not_ready::NotReady;
use rvm_board::Debugged;
use rvm_frame::{Bytes, PageNumbers, state_parts};
use rvm_mem::{Memory, PAGE_SIZE, PagedMemory};
use rvm_state::{StateFault, read_state};
use std::alloc::{AllocError, Global};
use std::marker::Model;

/// The most pieces that a state has.
const PIECES: usize = 6;

/// The stage of a guest that is on its way: a RAM that fills with copies of pages, the number of each page's copy,
/// and the pieces of a state that came.
#[derive(Drop)]
pub struct Staging<M: PagedMemory> {
    memory: M,
    have: Vec<u32>,
    harts: u32,
    /// The stamp of the pieces that are kept, 0 if there are none; `parts` is their state's count of parts.
    stamp: u32,
    parts: u8,
    pieces: [Option<Bytes>; PIECES],
}

impl<M: PagedMemory> Model for Staging<M> {
    ghost use Rattle.std.specs.Prelude.{◌≡◌, ◌<◌, ◌≤◌, length};
    ghost use Rattle.rvm_handover.specs.Stages.{PlainStage};

    ghost Value = { PlainStage };

    ghost view = { λ s. record {
      bytes = M.bytes s.memory;
      have = s.have.items;
      harts = s.harts;
      stamp = s.stamp;
      parts = s.parts;
      pieces = s.pieces;
    } };

    ghost invariant = { λ s. (length s.have.items ≡ length (M.dirty s.memory))
        × ((0 < length s.have.items) × ((length s.have.items ≤ 4096) × (length s.pieces ≡ 6))) };
}

impl<M: PagedMemory> Staging<M> {
    /// Makes a stage for a guest of this many pages, 1 to 4096, and harts: pages of zeros, with no copy and no piece of
    /// a state. Fails if memory runs out; a stage takes memory for pages only here.
    pub fn offer(alloc: Global, pages: u32, harts: u32) -> Result<Staging<M>, AllocError>
        requires some { 0 < pages }
        requires few { pages ≤ 4096 }
        ensures stage { IfOk result (λ s. s ≡ blank pages harts) }
        ensures new { IfOk result (λ s. stage_of s ≡ new_stage board.zeros pages harts) }
    {
        let have = vec![in alloc; 0u32; pages as usize]?;
        let memory = M::zeroed(alloc, pages)?;
        Ok(Staging {
            memory,
            have,
            harts,
            stamp: 0,
            parts: 0,
            pieces: [None, None, None, None, None, None],
        })
    }

    /// Returns the number of the guest's pages, 1 to 4096.
    pub fn pages(&self) -> u32
        ensures pages { result ≡ length self.now.have }
        ensures bytes { length self.now.bytes ≡ 4096 * result }
        ensures some { 0 < result }
        ensures few { result ≤ 4096 }
    {
        let _size = self.memory.len();
        self.memory.pages()
    }

    /// Stores a copy of a page, which has this copy number, if the page is one of the guest's and the copy is newer
    /// than the one here; otherwise changes nothing. Returns whether it stored the copy. Takes no memory.
    pub fn page(&mut self, page: u32, number: u32, bytes: &[u8; PAGE_SIZE as usize]) -> bool
        ensures stored { result ≡ is_newer page number self.old }
        ensures stage { self.new
            ≡ (if is_newer page number self.old then with_copy page number bytes.now self.old else self.old) }
        ensures came { (move_number : ℕ)
            → page_came board move_number (stage_of self.old) page number bytes.now
            ≡ copied move_number page number result self.new }
    {
        let _size = self.pages();
        self.store(page, number, bytes)
    }

    /// Stores a copy of a page, as `page` does.
    fn store(&mut self, page: u32, number: u32, bytes: &[u8; PAGE_SIZE as usize]) -> bool
        ensures stored { result ≡ is_newer page number self.old }
        ensures stage { self.new
            ≡ (if is_newer page number self.old then with_copy page number bytes.now self.old else self.old) }
    {
        if page < self.memory.pages() && self.have[page as usize] < number {
            self.memory.put_page(page, bytes);
            let have = &mut self.have;
            have[page as usize] = number;
            return true;
        }
        false
    }

    /// Stores a copy of a page of zeros, as `page` does. Takes no memory.
    pub fn zero(&mut self, page: u32, number: u32) -> bool
        ensures stored { result ≡ is_newer page number self.old }
        ensures stage { self.new
            ≡ (if is_newer page number self.old then with_copy page number zeros self.old else self.old) }
        ensures came { (move_number : ℕ)
            → page_came board move_number (stage_of self.old) page number board.zeros
            ≡ copied move_number page number result self.new }
    {
        self.page(page, number, &[0; PAGE_SIZE as usize])
    }

    /// Makes the guest of the pages and the bytes of a state. `numbers` names a copy for each page, in order; each of
    /// them, or a newer one, must be here. If it makes no guest, returns the reason, and the stage unchanged. The
    /// reasons, in this order: `BadState` if there are not as many numbers as pages; `Lacking` if copies are missing;
    /// `BadState` if the bytes make no guest of these pages with as many harts as were offered. The reason is
    /// `OutOfMemory` only if none of these applies, or if memory runs out for the list of pages whose copies are
    /// missing.
    pub fn state(
        self,
        alloc: Global,
        numbers: &[u32],
        bytes: &[u8],
    ) -> Result<Debugged<M>, (NotReady, Staging<M>)>
        ensures ready { IfOk result (λ d. (move_number : ℕ)
            → state_came board move_number (stage_of self) (stage_of self) numbers.now bytes.now
            ≡ ready move_number d.guest) }
        ensures left { IfErr result (λ e. (move_number : ℕ)
            → IsLeft move_number e.0 e.1
            (state_came board move_number (stage_of self) (stage_of self) numbers.now bytes.now)) }
        ensures stage { IfErr result (λ e. e.1 ≡ self) }
        ensures told { IfErr result (λ e. CanBeTold e.0) }
    {
        if numbers.len() != self.pages() as usize {
            return Err((NotReady::BadState, self));
        }
        let Ok(missing) = missing(alloc, self.have.as_slice(), numbers) else {
            return Err((NotReady::OutOfMemory, self));
        };
        if !missing.as_slice().is_empty() {
            return Err((NotReady::Lacking(PageNumbers::from_vec(missing)), self));
        }
        match self.make_guest(alloc, bytes) {
            Ok(guest) => Ok(guest),
            Err((fault, stage)) => Err((NotReady::from_fault(fault), stage)),
        }
    }

    /// Takes a piece of a state, as versions 2 and 3 of the stream send it: its stamp, its index `part` among `parts`
    /// pieces, at most 6, and its bytes. If with it all pieces are there, goes on as `state` does with the state that
    /// they join to. If no guest is made, returns the reason, and the stage, which has the piece if the reason says
    /// that it is kept. The reason is `OutOfMemory` only if with this piece all are there.
    pub fn part(
        self,
        alloc: Global,
        stamp: u32,
        part: u8,
        parts: u8,
        bytes: Bytes,
    ) -> Result<Debugged<M>, (NotJoined, Staging<M>)>
        requires { parts ≤ 6 }
        ensures ready { IfOk result (λ d. (move_number : ℕ)
            → part_came board move_number (stage_of self) stamp part parts bytes
            ≡ ready move_number d.guest) }
        ensures left { IfErr result (λ e. (move_number : ℕ)
            → IsPartLeft move_number part parts e.0 e.1
            (part_came board move_number (stage_of self) stamp part parts bytes)) }
        ensures stage { IfErr result
            (λ e. e.1 ≡ left_of e.0 (with_piece stamp part parts bytes self) self) }
        ensures told { IfErr result (λ e. PartCanBeTold e.0) }
    {
        if !self.takes(stamp, part, parts) {
            return Err((NotJoined::Ignored, self));
        }
        let Ok(whole) = self.joined(alloc, stamp, part, parts, bytes.as_slice()) else {
            return Err((NotJoined::OutOfMemory, self));
        };
        let Some(whole) = whole else {
            return Err((NotJoined::Kept, self.with_piece(stamp, part, parts, bytes)));
        };
        let Some((numbers, state)) = state_parts(whole.as_slice()) else {
            return Err((NotJoined::BadState, self));
        };
        match self.state(alloc, numbers.as_slice(), state) {
            Ok(guest) => Ok(guest),
            Err((reason, stage)) => Err(stage.kept_if(reason, stamp, part, parts, bytes)),
        }
    }

    /// The reason that a state in pieces made no guest, and the stage, which keeps the last piece if copies are
    /// missing.
    fn kept_if(
        self,
        reason: NotReady,
        stamp: u32,
        part: u8,
        parts: u8,
        bytes: Bytes,
    ) -> (NotJoined, Staging<M>)
        requires { part < 6 }
        ensures reason { result.0 ≡ reason_joined reason }
        ensures stage { result.1 ≡ left_of result.0 (with_piece stamp part parts bytes self) self }
    {
        match reason {
            NotReady::Lacking(pages) => (
                NotJoined::Lacking(pages),
                self.with_piece(stamp, part, parts, bytes),
            ),
            NotReady::BadState => (NotJoined::BadState, self),
            NotReady::OutOfMemory => (NotJoined::OutOfMemory, self),
        }
    }

    /// Whether a piece belongs to the newest state: its index is below its count of parts, and its stamp is higher
    /// than that of the pieces kept, or the same with the same count of parts. Takes no memory.
    pub fn takes(&self, stamp: u32, part: u8, parts: u8) -> bool
        ensures takes { result ≡ takes_part (stage_of self.now) stamp part parts }
        ensures places { length self.now.pieces ≡ 6 }
        ensures bytes { length self.now.bytes ≡ 4096 * length self.now.have }
    {
        let _size = self.pages();
        part < parts && (self.stamp < stamp || stamp == self.stamp && parts == self.parts)
    }

    /// The stage with this piece too; if the piece's stamp is higher, without the pieces kept before.
    fn with_piece(mut self, stamp: u32, part: u8, parts: u8, bytes: Bytes) -> Staging<M>
        requires { part < 6 }
        ensures { result ≡ with_piece stamp part parts bytes self }
    {
        if self.stamp < stamp {
            self.pieces = [None, None, None, None, None, None];
        }
        let pieces = &mut self.pieces;
        pieces[part as usize] = Some(bytes);
        self.stamp = stamp;
        self.parts = parts;
        self
    }

    /// The bytes of all pieces of a state, concatenated, if with this one none is missing; else None. Takes memory only
    /// if none is missing.
    fn joined(
        &self,
        alloc: Global,
        stamp: u32,
        part: u8,
        parts: u8,
        bytes: &[u8],
    ) -> Result<Option<Vec<u8>>, AllocError>
        ensures whole { IfOk result (λ whole. option_map (λ v. v.items) whole
            ≡ option_map joined (gathered (with_part (stage_of self.now) stamp part parts bytes.now).pieces 0 parts)) }
        ensures memory { OnErr result
            (is_some (gathered (with_part (stage_of self.now) stamp part parts bytes.now).pieces 0 parts) ≡ true) }
    {
        if self.stamp < stamp {
            join(alloc, &[], part, parts, bytes)
        } else {
            join(alloc, &self.pieces, part, parts, bytes)
        }
    }

    /// The guest that the pages and the bytes of a state make, with as many harts as were offered. If there is none or
    /// memory runs out, the fault and the stage unchanged.
    fn make_guest(
        self,
        alloc: Global,
        bytes: &[u8],
    ) -> Result<Debugged<M>, (StateFault, Staging<M>)>
        ensures made { IfOk result (λ d. build self.harts bytes.now (pages_in self.bytes) ≡ Some d.guest) }
        ensures fault { IfErr result
            (λ e. IsFault e.0 (build self.harts bytes.now (pages_in self.bytes))) }
        ensures stage { IfErr result (λ e. e.1 ≡ self) }
    {
        let _size = self.pages();
        if first_of(bytes) != self.harts {
            return Err((StateFault::BadState, self));
        }
        let Staging {
            memory,
            have,
            harts,
            stamp,
            parts,
            pieces,
        } = self;
        match read_state(alloc, bytes, memory) {
            Ok(guest) => Ok(guest),
            Err((fault, memory)) => {
                let stage = Staging {
                    memory,
                    have,
                    harts,
                    stamp,
                    parts,
                    pieces,
                };
                Err((fault, stage))
            }
        }
    }
}

/// The first byte, or 0 if there is none.
fn first_of(bytes: &[u8]) -> u32
    ensures { result ≡ get_or bytes.now 0 0 }
{
    match bytes {
        [] => 0,
        [first, ..] => u32::from(*first),
    }
}

/// The pages whose copy here is older than the one that `numbers` names, in rising order. Takes memory only if there
/// are any.
fn missing(alloc: Global, have: &[u32], numbers: &[u32]) -> Result<Vec<u16>, AllocError>
    requires same { length numbers.now ≡ length have.now }
    requires few { length have.now ≤ 4096 }
    ensures pages { IfOk result (λ pages. pages.items ≡ members (is_older have.now numbers.now) 0 (length have.now)) }
    ensures memory { OnErr result (0 < length (members (is_older have.now numbers.now) 0 (length have.now))) }
    ensures told { IfOk result (λ pages. 0 < length pages.items → lost.fits pages.items ≡ true) }
{
    let mut pages = Vec::new(alloc);
    for page in 0..have.len() {
        if have[page] < numbers[page] {
            pages.push(page as u16)?;
        }
    }
    Ok(pages)
}

/// The piece with index `place`, if it is the one that came, which has index `part`, or one that is kept.
fn piece_at<'a>(
    pieces: &'a [Option<Bytes>],
    place: u8,
    part: u8,
    bytes: &'a [u8],
) -> Option<&'a [u8]>
    ensures { option_map (λ x. x.now) result
        ≡ put (λ i. get_or pieces.now i None) part (Some bytes.now) place }
{
    if place == part {
        return Some(bytes);
    }
    match pieces.get(place as usize) {
        Some(Some(piece)) => Some(piece.as_slice()),
        _ => None,
    }
}

/// Whether all pieces are there, with the one that came. Takes no memory.
fn are_all_there(pieces: &[Option<Bytes>], part: u8, parts: u8, bytes: &[u8]) -> bool
    ensures { result
        ≡ is_some (gathered (put (λ i. get_or pieces.now i None) part (Some bytes.now)) 0 parts) }
{
    for place in 0..parts {
        let Some(_piece) = piece_at(pieces, place, part, bytes) else {
            return false;
        };
    }
    true
}

/// The bytes of all pieces, concatenated, if with the one that came none is missing; else None. Takes memory only if
/// none is missing.
fn join(
    alloc: Global,
    pieces: &[Option<Bytes>],
    part: u8,
    parts: u8,
    bytes: &[u8],
) -> Result<Option<Vec<u8>>, AllocError>
    ensures whole { IfOk result (λ whole. option_map (λ v. v.items) whole
        ≡ option_map joined (gathered (put (λ i. get_or pieces.now i None) part (Some bytes.now)) 0 parts)) }
    ensures memory { OnErr result
        (is_some (gathered (put (λ i. get_or pieces.now i None) part (Some bytes.now)) 0 parts) ≡ true) }
{
    if !are_all_there(pieces, part, parts, bytes) {
        return Ok(None);
    }
    let mut whole = Vec::new(alloc);
    for place in 0..parts {
        let Some(piece) = piece_at(pieces, place, part, bytes) else {
            return Ok(None);
        };
        whole.extend_from_slice(piece)?;
    }
    Ok(Some(whole))
}
