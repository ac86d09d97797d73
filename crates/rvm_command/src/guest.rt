//! The guest that a file has: a saved guest, or the guest of an image, which begins with it.

ghost use Rattle.std.specs.Prelude.{◌≡◌, ◌⊎◌, ◌≤◌, ◌*◌, true, false, IfOk, IfErr, OnOk, replicate};
ghost use Rattle.rvm_refusal.specs.declared.refusal.Refusal.TheVariants.{OutsideRam, OutOfMemory};
ghost use Rattle.rvm_asm.specs.Images.{pieces_of};
ghost use Rattle.rvm_elf.specs.Load.{fits};
ghost use Rattle.rvm_board.specs.Board.{at_reset};
ghost use Rattle.rvm_command.specs.Command.{guest_of, image_of};
ghost use Rattle.rvm_command.specs.Ends.{IsFileRefusal, IsLoadable, IsLoadRefusal, IsSavedRefusal};
ghost use Rattle.rvm_command.specs.GuestFiles.{IsGuestIn, IsGuestRefusal};
ghost use Rattle.rvm_command.specs.Saved.{IsSavedGuest};
ghost use Rattle.rvm_command.specs.Refusals.{refused};

use crate::refused::Refused;
use crate::restore::{is_saved, restore_guest};
use rvm_arguments::GuestArguments;
use rvm_asm::Image;
use rvm_board::{Board, Debugged};
use rvm_elf::{load, raw_image, read_image};
use rvm_hart::RAM_BASE;
use rvm_mem::PagedMemory;
use rvm_refusal::Refusal;
use std::alloc::Global;

/// Makes a guest at reset whose board is loaded with the image of a file. Refuses with the fault of the file, with
/// `OutsideRam` if the image does not lie in RAM, and with `OutOfMemory`.
#[tactic(auto, using(crate::proofs::Refusals::file_not_loaded))]
pub fn load_guest<M: PagedMemory + Drop>(
    alloc: Global,
    arguments: &GuestArguments,
    file: &[u8],
) -> Result<Debugged<M>, Refused>
    ensures loadable { OnOk result (IsLoadable (image_of arguments.now.raw file.now) arguments.now.pages) }
    ensures guest { IfOk result (λ g. IfOk (image_of arguments.now.raw file.now) (λ i.
        g.guest ≡ guest_of arguments.now.harts arguments.now.pages i.0 i.1)) }
    ensures refused { IfErr result
        (IsLoadRefusal (image_of arguments.now.raw file.now) arguments.now.pages) }
{
    let image = image_of(alloc, arguments.raw, file)?;
    new_guest(alloc, arguments.harts, arguments.pages, &image)
}

/// Reads the guest that a file has: a saved guest, if the file begins with a byte 0 and is not `raw`, else a guest at reset
/// whose board is loaded with the image of the file. Refuses with the fault of the file, with `OutsideRam` if the image does
/// not lie in RAM, and with `OutOfMemory`.
#[tactic(auto, using(crate::proofs::GuestFiles::saved, crate::proofs::GuestFiles::loaded, crate::proofs::GuestFiles::not_saved, crate::proofs::GuestFiles::not_loaded))]
pub fn read_guest<M: PagedMemory + Drop>(
    alloc: Global,
    arguments: &GuestArguments,
    file: &[u8],
) -> Result<Debugged<M>, Refused>
    ensures guest { IfOk result (λ g.
        IsGuestIn arguments.now.raw arguments.now.harts arguments.now.pages file.now g.guest) }
    ensures refused { IfErr result (IsGuestRefusal arguments.now.raw arguments.now.pages file.now) }
{
    if is_saved(arguments.raw, file) {
        read_saved(alloc, file)
    } else {
        load_guest(alloc, arguments, file)
    }
}

/// Reads a saved guest. Refuses with the fault of its bytes, and with `OutOfMemory`.
#[tactic(auto, using(crate::proofs::SavedRuns::not_read))]
fn read_saved<M: PagedMemory + Drop>(alloc: Global, file: &[u8]) -> Result<Debugged<M>, Refused>
    ensures guest { IfOk result (λ g. IsSavedGuest file.now g.guest) }
    ensures refused { IfErr result (IsSavedRefusal file.now) }
{
    Ok(restore_guest::<M>(alloc, file)?)
}

/// Reads the image of a file: of an ELF file, or, if it is `raw`, its bytes from the start of RAM on. Refuses with the
/// fault of the file, and with `OutOfMemory`.
#[tactic(auto, using(crate::proofs::Refusals::file_refused))]
pub(crate) fn image_of(alloc: Global, raw: bool, file: &[u8]) -> Result<Image, Refused>
    ensures image { IfOk result
        (λ v. image_of raw file.now ≡ Ok (v.entry, pieces_of v.segments.items)) }
    ensures refused { IfErr result (IsFileRefusal (image_of raw file.now)) }
{
    if raw {
        return match raw_image(alloc, file) {
            Ok(image) => Ok(image),
            Err(_) => Err(Refused::from(Refusal::OutOfMemory)),
        };
    }
    Ok(read_image(alloc, file)?)
}

/// Makes a board at reset with 1 to 8 harts and 1 to 4096 pages, loaded with an image. Refuses with `OutsideRam` if the
/// image does not lie in RAM, and with `OutOfMemory`.
fn new_guest<M: PagedMemory + Drop>(
    alloc: Global,
    harts: u32,
    pages: u32,
    image: &Image,
) -> Result<Debugged<M>, Refused>
    requires harts { (1 ≤ harts) × (harts ≤ 8) }
    requires pages { (1 ≤ pages) × (pages ≤ 4096) }
    ensures guest { IfOk result (λ g. g.guest
        ≡ guest_of harts pages image.now.entry (pieces_of image.now.segments.items)) }
    ensures inside { OnOk result
        (fits image.now.entry (pieces_of image.now.segments.items) (4096 * pages) ≡ true) }
    ensures refused { IfErr result (λ r. (r ≡ refused OutOfMemory) ⊎ ((r ≡ refused OutsideRam)
        × (fits image.now.entry (pieces_of image.now.segments.items) (4096 * pages) ≡ false))) }
{
    let mut board = new_board(alloc, harts, pages)?;
    match load(image, &mut board) {
        Ok(()) => Ok(Debugged::new(board)),
        Err(_) => Err(Refused::from(Refusal::OutsideRam)),
    }
}

/// Makes a board at reset with 1 to 8 harts, whose RAM is 1 to 4096 pages of zeros.
fn new_board<M: PagedMemory + Drop>(
    alloc: Global,
    harts: u32,
    pages: u32,
) -> Result<Board<M>, Refusal>
    requires harts { (1 ≤ harts) × (harts ≤ 8) }
    requires pages { (1 ≤ pages) × (pages ≤ 4096) }
    ensures board { IfOk result
        (λ b. b.plain ≡ at_reset harts 0x80000000 (replicate (4096 * pages) 0)) }
    ensures refused { IfErr result (λ e. e ≡ OutOfMemory) }
{
    let Ok(ram) = M::zeroed(alloc, pages) else {
        return Err(Refusal::OutOfMemory);
    };
    match Board::new(alloc, harts, ram, RAM_BASE) {
        Ok(board) => Ok(board),
        Err(_) => Err(Refusal::OutOfMemory),
    }
}
