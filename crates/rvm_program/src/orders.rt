//! `rvmove run --orders` over files.

ghost use Rattle.std.specs.Prelude.{◌≡◌, IfErr, IfOk, OnErr};
ghost use Rattle.rvm_arguments.specs.declared.arguments.Arguments.TheVariants as asks;
ghost use Rattle.rvm_program.specs.Ended.{OrdersEnded, ToTell, written};
ghost use Rattle.rvm_files.specs.Files.{IsUnread};

use crate::commands::{Told, read_input};
use rvm_arguments::OrdersArguments;
use rvm_command::orders_command::orders_command;
use rvm_files::{NamedFiles, read_image};
use rvm_mem::PagedMemory;
use rvm_refusal::Refusal;
use std::alloc::Global;
use std::io::Write;

/// Reads the image and the bytes for the console, and runs the guest by one seed after the other. Fails with a refusal if a
/// file cannot be opened or read, if it has more bytes than it may have, or if memory runs out.
pub(crate) fn run_orders<M: PagedMemory + Drop, F: NamedFiles, O: Write, E: Write>(
    alloc: Global,
    files: &F,
    arguments: &OrdersArguments,
    output: &mut O,
    errors: &mut E,
) -> Result<Told, Refusal>
    ensures ended { IfOk result (λ told. IfOk told (λ status. OrdersEnded (F.bytes_of files.now) arguments.now status
        (written (O.contents output.old) (O.contents output.new))
        (written (E.contents errors.old) (E.contents errors.new)))) }
    ensures untold { IfOk result (λ told. OnErr told (ToTell (λ status errors. OrdersEnded (F.bytes_of files.now)
        arguments.now status (written (O.contents output.old) (O.contents output.new)) errors))) }
    ensures unbegun { IfErr result (λ r. IsUnread (F.bytes_of files.now) (asks.Orders arguments.now) r
        × (O.contents output.new ≡ O.contents output.old)
        × (E.contents errors.new ≡ E.contents errors.old)) }
{
    let image = read_image(files, alloc, &arguments.guest)?;
    let input = read_input(files, alloc, arguments.input, arguments.steps)?;
    Ok(orders_command::<M, O, E>(alloc, arguments, &image, &input, output, errors))
}
