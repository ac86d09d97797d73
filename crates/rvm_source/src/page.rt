//! The frame of a copy of a page.

ghost use Rattle.std.specs.Prelude.{◌≡◌, ◌<◌, [], length, Some};
ghost use Rattle.rvm_protocol.specs.Frames as protocol;
ghost use Rattle.rvm_protocol.specs.Rounds.{page_of};
ghost use Rattle.rvm_guest.specs.TheGuest.{board};
ghost use Rattle.rvm_message.specs.Frames.{frame_of};
ghost use Rattle.rvm_message.specs.Sendable.{CanBeSent};

use rvm_board::Debugged;
use rvm_frame::{Frame, PagePart};
use rvm_mem::{Memory, PAGE_SIZE, PagedMemory};

/// The most body bytes of the frame of a copy: two for the page's number, four for the copy's, and the page.
pub(crate) const COPY_BODY: usize = 2 + 4 + PAGE_SIZE as usize;

/// Makes the frame of a copy of a page with this copy number, as a stream of this version has it: from version 2 on, a
/// page of zeros is sent without its bytes. Puts the page's bytes into `part`, which must be empty.
pub(crate) fn page_frame<M: PagedMemory>(
    version: u32,
    mut part: PagePart,
    move_number: u64,
    guest: &Debugged<M>,
    page: u16,
    copy_number: u32,
) -> Frame
    requires empty { part ≡ [] }
    requires page { page < length guest.now.dirty }
    requires move_number { 0 < move_number }
    requires copy_number { 0 < copy_number }
    ensures frame { frame_of result ≡ protocol.written board version
        (protocol.Page move_number page copy_number (page_of board guest.now.guest page)) }
    ensures sent { CanBeSent version (Some 4102) (Some result) }
{
    let _size = guest.memory().len();
    let copy = guest.memory().page(u32::from(page));
    part.fill(copy);
    let bytes = part.into_page();
    if version >= 2 && bytes.is_zeros() {
        return Frame::Zero {
            move_number,
            page,
            copy_number,
        };
    }
    Frame::Page {
        move_number,
        page,
        copy_number,
        bytes,
    }
}
