//! Guests, written as the frames that a move sends of them.

ghost use Rattle.std.specs.Prelude.{◌≡◌, ◌+◌, ◌<◌, ◌≤◌, ℕ, suc, [], ◌∷◌, None, IfOk, OnOk, length};
ghost use Rattle.std.specs.Io.KnownBytes.{Appends};
ghost use Rattle.rvm_frame.specs.declared.frame.Frame.TheVariants as frames;
ghost use Rattle.rvm_frame.specs.Grammar.{HasSpelling};
ghost use Rattle.rvm_protocol.specs.Pages.{listed};
ghost use Rattle.rvm_command.specs.Saved.{IsSavedGuest, page_frame, saved_bytes, saved_frames};
ghost use Rattle.rvm_command.specs.Puts.{Puts};
ghost use Rattle.rvm_state.specs.Spelling as state;

use crate::saved_fault::SaveFault;
use rvm_board::Debugged;
use rvm_frame::{Addressed, Bytes, CopyNumbers, Frame, PageBytes, write_frame};
use rvm_guest::valid_guest;
use rvm_mem::{Memory, PAGE_SIZE, PagedMemory};
use rvm_state::write_state;
use std::alloc::{AllocError, Global};
use std::io::Write;

/// The version of the stream.
const STREAM: u32 = 1;

/// Writes a guest as the frames that a move sends of it to its target: the bytes of a stream of version 1. They are a
/// saved guest, which `restore_guest` reads as this one. Takes memory for one page at a time, and for the state.
/// `OutOfMemory` and `LinkFault`, if a write fails, leave a part of the bytes written.
pub fn save_guest<M: PagedMemory, W: Write>(
    alloc: Global,
    guest: &Debugged<M>,
    writer: &mut W,
) -> Result<(), SaveFault>
    ensures text { OnOk result (Appends (W.contents writer.old) (W.contents writer.new)
        (saved_bytes guest.now.guest)) }
    // What was saved is what is read.
    ensures back { OnOk result (IsSavedGuest (saved_bytes guest.now.guest) guest.now.guest) }
{
    valid_guest(guest);
    let _size = guest.memory().len();
    let pages = guest.memory().pages() as u16;
    let harts = guest.harts() as u8;
    put_opening(pages, harts, writer)?;
    put_pages(alloc, guest, pages, writer)?;
    put_end(pages, writer)?;
    put_state(alloc, guest, pages, writer)?;
    put_commit(writer)?;
    Ok(())
}

/// Writes Hello, and the offer of a guest with `pages` pages and `harts` harts.
fn put_opening<W: Write>(pages: u16, harts: u8, writer: &mut W) -> Result<(), SaveFault>
    requires some { 0 < pages }
    requires few { pages ≤ 4096 }
    requires some_hart { 0 < harts }
    requires few_harts { harts ≤ 8 }
    ensures { OnOk result (Puts (W.contents writer.old) (W.contents writer.new)
        (frames.Hello 1 ∷ frames.Offer 1 pages harts ∷ [])) }
{
    put(Frame::Hello { version: STREAM }, writer)?;
    put(
        Frame::Offer {
            move_number: 1,
            pages,
            harts,
        },
        writer,
    )
}

/// Writes a copy of each page of a guest with `pages` pages.
fn put_pages<M: PagedMemory, W: Write>(
    alloc: Global,
    guest: &Debugged<M>,
    pages: u16,
    writer: &mut W,
) -> Result<(), SaveFault>
    requires count { pages ≡ length guest.now.dirty }
    ensures { OnOk result (Puts (W.contents writer.old) (W.contents writer.new)
        (listed (page_frame guest.now.guest.board.shared.bytes) 0 pages)) }
{
    for page in 0..pages {
        put_page(alloc, guest, page, writer)?;
    }
    Ok(())
}

/// Writes a copy of a page.
#[tactic(auto, using(crate::proofs::FramesPut::page_spelled))]
fn put_page<M: PagedMemory, W: Write>(
    alloc: Global,
    guest: &Debugged<M>,
    page: u16,
    writer: &mut W,
) -> Result<(), SaveFault>
    requires page { page < length guest.now.dirty }
    ensures { OnOk result (Puts (W.contents writer.old) (W.contents writer.new)
        (page_frame guest.now.guest.board.shared.bytes page ∷ [])) }
{
    let _count = guest.memory().pages();
    let bytes = page_bytes(alloc, guest.memory().page(u32::from(page)))?;
    put(
        Frame::Page {
            move_number: 1,
            page,
            copy_number: u32::from(page) + 1,
            bytes,
        },
        writer,
    )
}

/// A page with these bytes.
fn page_bytes(alloc: Global, page: &[u8; PAGE_SIZE as usize]) -> Result<PageBytes, AllocError>
    ensures bytes { IfOk result (λ bytes. bytes ≡ page.now) }
    ensures length { length page.now ≡ 4096 }
{
    let _count = page.len();
    PageBytes::from_slice(alloc, page.as_slice())
}

/// Writes the end of the round in which `pages` pages were copied.
fn put_end<W: Write>(pages: u16, writer: &mut W) -> Result<(), SaveFault>
    ensures { OnOk result (Puts (W.contents writer.old) (W.contents writer.new)
        (frames.RoundEnd 1 1 pages 0 0 ∷ [])) }
{
    put(
        Frame::RoundEnd {
            move_number: 1,
            round: 1,
            sent: pages,
            skipped: 0,
            left: 0,
        },
        writer,
    )
}

/// Writes the state of a guest with `pages` pages, and the number of each page's copy.
fn put_state<M: PagedMemory, W: Write>(
    alloc: Global,
    guest: &Debugged<M>,
    pages: u16,
    writer: &mut W,
) -> Result<(), SaveFault>
    requires some { 0 < pages }
    requires few { pages ≤ 4096 }
    ensures text { OnOk result (Puts (W.contents writer.old) (W.contents writer.new)
        (frames.State 1 (listed suc 0 pages) (state.spelling guest.now.guest) ∷ [])) }
    ensures told { OnOk result (state.HasSpelling guest.now.guest) }
{
    let copy_numbers = numbers(alloc, pages)?;
    let state = write_state(alloc, guest)?;
    put(
        Frame::State {
            move_number: 1,
            copy_numbers: CopyNumbers::from_vec(copy_numbers),
            state: Bytes::from_vec(state),
        },
        writer,
    )
}

/// The numbers of the copies of `pages` pages: 1, 2 and so on.
fn numbers(alloc: Global, pages: u16) -> Result<Vec<u32>, AllocError>
    ensures { IfOk result (λ numbers. numbers.items ≡ listed suc 0 pages) }
{
    let mut numbers = Vec::with_capacity(alloc, pages as usize)?;
    for number in 0..pages {
        numbers.push_reserved(u32::from(number) + 1);
    }
    Ok(numbers)
}

/// Writes the commit.
fn put_commit<W: Write>(writer: &mut W) -> Result<(), SaveFault>
    ensures { OnOk result (Puts (W.contents writer.old) (W.contents writer.new)
        (frames.Go 1 ∷ [])) }
{
    put(Frame::Go { move_number: 1 }, writer)
}

/// Writes a frame.
#[tactic(auto, using(crate::proofs::FramesPut::frame_fits))]
fn put<W: Write>(frame: Frame, writer: &mut W) -> Result<(), SaveFault>
    requires { HasSpelling (None, frame) }
    ensures { OnOk result (Puts (W.contents writer.old) (W.contents writer.new) (frame ∷ [])) }
{
    let addressed = Addressed {
        from: 0,
        to: 1,
        frame,
    };
    write_frame(STREAM, &addressed, writer)?;
    Ok(())
}
