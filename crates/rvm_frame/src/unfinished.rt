//! The bytes of a frame that is not whole: the header and a Page's numbers in an array, a Page's bytes where the page
//! will have them, and any other body in a vector with room for all of it. The memory for a body is asked for with the
//! header's last byte; a Page needs no more.

ghost use Rattle.std.specs.Prelude.{◌≡◌, ◌+◌, ◌<◌, ◌≤◌, ◌++◌, [], Option, length, min, take, true, Some, Ok, None, IfOk, IfErr, OnErr, is_some, option_map, vec_capacity};
ghost use Rattle.rvm_frame.specs.Kinds.{header_len, names_hosts};
ghost use Rattle.rvm_frame.specs.Reader.{Refuses};
ghost use Rattle.rvm_frame.specs.Verdict.{verdict, wanted};
ghost use Rattle.rvm_frame.specs.Unfinished.{Answers, Beginning, Kept, frame_behind, front_of, kept_of, stored};

use crate::addressed::Received;
use crate::body::{is_body, read_body};
use crate::fault::ReadFault;
use crate::frame::Frame;
use crate::kind::{Kind, header_len, names_hosts};
use crate::page::PAGE_SIZE;
use crate::part::PagePart;
use crate::read::{header_of, judge};
use arrayvec::ArrayVec;
use rvm_codec::{append_bytes, u16_within, u32_within};
use std::alloc::{AllocError, Global};
use std::marker::Model;
use std::mem;

/// The header, and the numbers of a Page.
type Head = ArrayVec<u8, 21>;

/// Where the bytes after the head are kept.
#[derive(Debug, Drop)]
pub enum Store {
    /// Nowhere, before the header's last byte.
    Closed,
    /// In the page, for a Page.
    Page(PagePart),
    /// In a vector, for each other kind.
    Other(Vec<u8>),
}

/// The bytes of a frame that is not whole, in a stream of a version.
#[derive(Debug, Drop)]
pub struct Unfinished {
    version: Option<u32>,
    head: Head,
    store: Store,
}

impl Model for Unfinished {
    ghost use Rattle.std.specs.Prelude.{◌++◌};
    ghost use Rattle.rvm_frame.specs.Kinds.{names_hosts};
    ghost use Rattle.rvm_frame.specs.Unfinished.{Beginning, Kept, stored};

    ghost Value = { Beginning };

    ghost view = { λ s. record { version = s.version; bytes = s.head.items ++ stored s.store } };

    ghost invariant = { λ s. Kept (names_hosts s.version) s.head.items s.store };
}

/// The number of bytes, from the frame's first on, that the next check needs.
fn next_check(named: bool, bytes: &[u8]) -> usize
    ensures { result ≡ wanted named bytes.now }
{
    match bytes {
        [] => 1,
        [_, rest @ ..] => match header_of(named, rest) {
            None => header_len(named),
            Some((header, _)) => header_len(named) + header.len as usize,
        },
    }
}

/// The lesser of two numbers.
fn lesser(a: usize, b: usize) -> usize
    ensures { result ≡ min a b }
{
    if a < b { a } else { b }
}

/// Appends bytes of a piece to the head, until it has `limit` bytes. Returns how many.
fn take_head(head: &mut Head, limit: usize, piece: &[u8]) -> usize
    requires room { length head.old.items < limit }
    requires limited { limit ≤ 21 }
    requires some { 0 < length piece.now }
    ensures items { head.new.items ≡ head.old.items ++ take result piece.now }
    ensures moves { 0 < result }
    ensures count { result ≤ length piece.now }
    ensures fits { length head.old.items + result ≤ limit }
{
    let count = lesser(limit - head.len(), piece.len());
    let done = head.try_extend_from_slice(&piece[..count]);
    let is_done = done.is_ok();
    prove!(is_done);
    count
}

/// Appends bytes of a piece to a page, until it is whole. Returns how many.
fn take_page(part: &mut PagePart, piece: &[u8]) -> usize
    requires room { length part.old < 4096 }
    requires some { 0 < length piece.now }
    ensures items { part.new ≡ part.old ++ take result piece.now }
    ensures moves { 0 < result }
    ensures count { result ≤ length piece.now }
    ensures fits { length part.old + result ≤ 4096 }
{
    let count = lesser(PAGE_SIZE - part.len(), piece.len());
    part.fill(&piece[..count]);
    count
}

/// Appends bytes of a piece to a body, until it has `want` bytes. Returns how many.
fn take_body(body: &mut Vec<u8>, want: usize, piece: &[u8]) -> usize
    requires room { length body.old.items < want }
    requires reserved { want ≤ vec_capacity body.old }
    requires some { 0 < length piece.now }
    ensures items { body.new.items ≡ body.old.items ++ take result piece.now }
    ensures moves { 0 < result }
    ensures count { result ≤ length piece.now }
    ensures fits { length body.old.items + result ≤ want }
    ensures capacity { vec_capacity body.new ≡ vec_capacity body.old }
{
    let count = lesser(want - body.len(), piece.len());
    append_bytes(body, &piece[..count]);
    count
}

/// From and to, the move number, the page number and the copy number in the head of a Page; none if they are not all
/// there or out of their limits.
#[tactic(auto, unfolding(crate::specs::Unfinished::front_of))]
fn page_front(named: bool, head: &[u8]) -> Option<(Option<(u8, u8)>, u64, u16, u32)>
    ensures { option_map (λ x. (x.0, x.1, x.2, x.3)) result ≡ front_of named head.now }
{
    match head {
        [] => None,
        [_, rest @ ..] => {
            let (header, numbers) = header_of(named, rest)?;
            let (page, numbers) = u16_within(0, 4095, numbers)?;
            let (copy_number, _) = u32_within(1, u32::MAX, numbers)?;
            Some((header.hosts, header.move_number, page, copy_number))
        }
    }
}

/// An empty store for the body of this head, with the memory for all of its bytes.
fn open_store(alloc: Global, named: bool, head: &[u8]) -> Result<Store, AllocError>
    requires { length head.now ≡ header_len named }
    ensures { IfOk result (λ store. Kept named head.now store × (stored store ≡ [])) }
{
    match head {
        [4, ..] => Ok(Store::Page(PagePart::new(alloc)?)),
        _ => {
            let want = next_check(named, head) - header_len(named);
            Ok(Store::Other(Vec::with_capacity(alloc, want)?))
        }
    }
}

/// Whether the bytes are a whole body for this head. Takes no memory.
#[tactic(auto, unfolding(crate::specs::Unfinished::frame_behind))]
fn is_whole_body(named: bool, head: &[u8], body: &[u8]) -> bool
    ensures { result ≡ is_some (frame_behind named head.now body.now) }
{
    let [byte, rest @ ..] = head else {
        return false;
    };
    let Some(kind) = Kind::of_byte(*byte) else {
        return false;
    };
    header_of(named, rest).is_some() && is_body(kind, body)
}

/// The fault to report if there is no memory for the body of this head: `BadFrame` if the piece has all of a body that
/// is none, else `OutOfMemory`.
fn without_memory(version: Option<u32>, head: &[u8], piece: &[u8]) -> ReadFault
    requires header { length head.now ≡ header_len (names_hosts version) }
    requires waits { verdict version head.now ≡ Ok None }
    ensures { Refuses version head.now piece.now result }
{
    let named = names_hosts(version);
    let want = next_check(named, head) - header_len(named);
    if piece.len() < want {
        return ReadFault::OutOfMemory;
    }
    if is_whole_body(named, head, &piece[..want]) {
        ReadFault::OutOfMemory
    } else {
        ReadFault::BadFrame
    }
}

/// The length up to which a head without its whole header is filled: to the kind's byte, or to the header's last one.
#[tactic(auto, using(crate::proofs::Parts::head_wanted, crate::proofs::Headers::header_at_least, crate::proofs::Headers::header_at_most))]
fn head_limit(named: bool, head: &[u8]) -> usize
    requires { length head.now < header_len named }
    ensures value { result ≡ wanted named head.now }
    ensures room { length head.now < result }
    ensures header { result ≤ header_len named }
    ensures small { result ≤ 15 }
{
    if head.is_empty() {
        1
    } else {
        header_len(named)
    }
}

/// Takes bytes of a piece up to the kind's byte or the header's last one.
fn header_step(
    alloc: Global,
    version: Option<u32>,
    head: &mut Head,
    store: &mut Store,
    piece: &[u8],
) -> Result<(usize, Option<Received>), ReadFault>
    requires waits { verdict version head.old.items ≡ Ok None }
    requires room { length head.old.items < header_len (names_hosts version) }
    requires closed { store.old ≡ Store.Closed }
    requires some { 0 < length piece.now }
    ensures step { Answers version head.old.items piece.now result }
    ensures next { IfOk result (λ r. head.new.items ++ stored store.new
        ≡ kept_of (head.old.items ++ take r.0 piece.now) r.1) }
    ensures kept { IfOk result (λ r. Kept (names_hosts version) head.new.items store.new) }
    ensures head { OnErr result (head.new ≡ head.old) }
    ensures store { OnErr result (store.new ≡ store.old) }
{
    let before = head.len();
    let named = names_hosts(version);
    let limit = head_limit(named, head.as_slice());
    let count = take_head(head, limit, piece);
    match judge(alloc, version, head.as_slice()) {
        Ok(None) => {}
        Ok(Some(received)) => {
            head.clear();
            return Ok((count, Some(received)));
        }
        Err(fault) => {
            head.truncate(before);
            return Err(fault);
        }
    }
    if head.len() == header_len(named) {
        match open_store(alloc, named, head.as_slice()) {
            Ok(opened) => *store = opened,
            Err(_) => {
                let fault = without_memory(version, head.as_slice(), &piece[count..]);
                head.truncate(before);
                return Err(fault);
            }
        }
    }
    Ok((count, None))
}

/// The frame of a Page all of whose bytes are there. Returns the page if its numbers are out of their limits.
fn whole_page(named: bool, head: &[u8], part: PagePart) -> Result<Received, PagePart>
    requires { length part ≡ 4096 }
    ensures value { IfOk result (λ x. Some x
        ≡ option_map (λ y. (y.0, Frame.Page y.1 y.2 y.3 part)) (front_of named head.now)) }
    ensures err { IfErr result (λ same. (same ≡ part) × (front_of named head.now ≡ None)) }
{
    match page_front(named, head) {
        None => Err(part),
        Some((hosts, move_number, page, copy_number)) => {
            let bytes = part.into_page();
            let frame = Frame::Page {
                move_number,
                page,
                copy_number,
                bytes,
            };
            Ok((hosts, frame))
        }
    }
}

/// Takes bytes of a Page. Its last byte decides whether it is a frame.
fn page_step(
    version: Option<u32>,
    head: &mut Head,
    mut part: PagePart,
    store: &mut Store,
    piece: &[u8],
) -> Result<(usize, Option<Received>), ReadFault>
    requires kept { Kept (names_hosts version) head.old.items (Store.Page part) }
    requires waits { verdict version (head.old.items ++ part) ≡ Ok None }
    requires closed { store.old ≡ Store.Closed }
    requires room { length part < 4096 }
    requires some { 0 < length piece.now }
    ensures step { Answers version (head.old.items ++ part) piece.now result }
    ensures next { IfOk result (λ r. head.new.items ++ stored store.new
        ≡ kept_of ((head.old.items ++ part) ++ take r.0 piece.now) r.1) }
    ensures kept { IfOk result (λ r. Kept (names_hosts version) head.new.items store.new) }
    ensures head { OnErr result (head.new ≡ head.old) }
    ensures store { OnErr result (store.new ≡ Store.Page part) }
{
    let named = names_hosts(version);
    let full = header_len(named) + 6;
    if head.len() < full {
        let count = take_head(head, full, piece);
        *store = Store::Page(part);
        return Ok((count, None));
    }
    let before = part.len();
    let count = take_page(&mut part, piece);
    if part.len() < PAGE_SIZE {
        *store = Store::Page(part);
        return Ok((count, None));
    }
    match whole_page(named, head.as_slice(), part) {
        Ok(received) => {
            head.clear();
            Ok((count, Some(received)))
        }
        Err(mut part) => {
            part.truncate(before);
            *store = Store::Page(part);
            Err(ReadFault::BadFrame)
        }
    }
}

/// The frame of a header and a whole body, if there is one.
#[tactic(auto, unfolding(crate::specs::Unfinished::frame_behind))]
fn whole_body(
    alloc: Global,
    named: bool,
    head: &[u8],
    body: &[u8],
) -> Result<Option<Received>, AllocError>
    ensures value { IfOk result (λ o. o ≡ frame_behind named head.now body.now) }
    ensures memory { OnErr result (is_some (frame_behind named head.now body.now) ≡ true) }
{
    let [byte, rest @ ..] = head else {
        return Ok(None);
    };
    let Some(kind) = Kind::of_byte(*byte) else {
        return Ok(None);
    };
    let Some((header, _)) = header_of(named, rest) else {
        return Ok(None);
    };
    match read_body(alloc, kind, header.move_number, body)? {
        None => Ok(None),
        Some(frame) => Ok(Some((header.hosts, frame))),
    }
}

/// Takes bytes of a body. Its last byte decides whether it is a frame.
fn body_step(
    alloc: Global,
    version: Option<u32>,
    head: &mut Head,
    mut body: Vec<u8>,
    store: &mut Store,
    piece: &[u8],
) -> Result<(usize, Option<Received>), ReadFault>
    requires kept { Kept (names_hosts version) head.old.items (Store.Other body) }
    requires waits { verdict version (head.old.items ++ body.items) ≡ Ok None }
    requires room { header_len (names_hosts version) + length body.items
        < wanted (names_hosts version) head.old.items }
    requires closed { store.old ≡ Store.Closed }
    requires some { 0 < length piece.now }
    ensures step { Answers version (head.old.items ++ body.items) piece.now result }
    ensures next { IfOk result (λ r. head.new.items ++ stored store.new
        ≡ kept_of ((head.old.items ++ body.items) ++ take r.0 piece.now) r.1) }
    ensures kept { IfOk result (λ r. Kept (names_hosts version) head.new.items store.new) }
    ensures head { OnErr result (head.new ≡ head.old) }
    ensures bytes { OnErr result (stored store.new ≡ body.items) }
    ensures store { OnErr result (Kept (names_hosts version) head.new.items store.new) }
{
    let named = names_hosts(version);
    let before = body.len();
    let want = next_check(named, head.as_slice()) - header_len(named);
    let count = take_body(&mut body, want, piece);
    if body.len() < want {
        *store = Store::Other(body);
        return Ok((count, None));
    }
    match whole_body(alloc, named, head.as_slice(), body.as_slice()) {
        Ok(Some(received)) => {
            head.clear();
            Ok((count, Some(received)))
        }
        Ok(None) => {
            body.truncate(before);
            *store = Store::Other(body);
            Err(ReadFault::BadFrame)
        }
        Err(_) => {
            body.truncate(before);
            *store = Store::Other(body);
            Err(ReadFault::OutOfMemory)
        }
    }
}

impl Unfinished {
    /// No bytes, in a stream of this version.
    pub(crate) fn new(version: Option<u32>) -> Unfinished
        ensures { result ≡ record { version = version; bytes = [] } }
    {
        Unfinished {
            version,
            head: ArrayVec::new(),
            store: Store::Closed,
        }
    }

    /// The stream's version, if its Hello has come.
    pub(crate) fn version(&self) -> Option<u32>
        ensures { result ≡ self.now.version }
    {
        self.version
    }

    /// The number of bytes so far.
    pub(crate) fn len(&self) -> usize
        ensures { result ≡ length self.now.bytes }
    {
        match &self.store {
            Store::Closed => self.head.len(),
            Store::Page(part) => self.head.len() + part.len(),
            Store::Other(body) => self.head.len() + body.len(),
        }
    }

    /// Keeps only the first `count` bytes.
    #[tactic(auto, using(crate::proofs::Lengths::cut_page, crate::proofs::Lengths::cut_body))]
    pub(crate) fn truncate(&mut self, count: usize)
        ensures { self.new ≡ record { version = self.old.version; bytes = take count self.old.bytes } }
    {
        let header = header_len(names_hosts(self.version));
        if count < header {
            self.store = Store::Closed;
            self.head.truncate(count);
            return;
        }
        match &mut self.store {
            Store::Closed => {}
            Store::Page(part) => {
                part.truncate(count.saturating_sub(header + 6));
                self.head.truncate(count);
            }
            Store::Other(body) => body.truncate(count - header),
        }
    }

    /// Takes bytes of a piece, at least one, at most up to the next check. Returns how many it took, and the frame that
    /// ends with them, if one does. After a fault nothing has changed.
    pub(crate) fn step(
        &mut self,
        alloc: Global,
        piece: &[u8],
    ) -> Result<(usize, Option<Received>), ReadFault>
        requires waits { verdict self.old.version self.old.bytes ≡ Ok None }
        requires some { 0 < length piece.now }
        ensures step { Answers self.old.version self.old.bytes piece.now result }
        ensures next { IfOk result (λ r. self.new ≡ record {
          version = self.old.version;
          bytes = kept_of (self.old.bytes ++ take r.0 piece.now) r.1;
        }) }
        ensures err { OnErr result (self.new ≡ self.old) }
    {
        let version = self.version;
        let head = &mut self.head;
        let store = &mut self.store;
        match mem::replace(store, Store::Closed) {
            Store::Closed => header_step(alloc, version, head, store, piece),
            Store::Page(part) => page_step(version, head, part, store, piece),
            Store::Other(body) => body_step(alloc, version, head, body, store, piece),
        }
    }
}
