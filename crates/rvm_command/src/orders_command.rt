//! `rvmove run --orders`: runs the guest of an image by one seed after the other, up to the first run that does not pass.

ghost use Rattle.std.specs.Prelude.{◌≡◌, ◌⊎◌, ◌<◌, ◌==◌, ◌++◌, Result, Option, OnOk, IfErr, IfOk, IfSome, codes};
ghost use Rattle.std.specs.Fmt.{decimal};
ghost use Rattle.std.specs.Io.KnownBytes.{Appends};
ghost use Rattle.rvm_arguments.specs.declared.arguments.StatusOf.TheVariants.{Verdict};
ghost use Rattle.rvm_command.specs.declared.refused.Refused.{Refused};
ghost use Rattle.rvm_command.specs.Command.{end_text, image_of};
ghost use Rattle.rvm_command.specs.Ends.{IsLoadRefusal, IsLoadable, run_status};
ghost use Rattle.rvm_command.specs.Seeds.{AreUnwritten, IsFirstFailure, IsOrdersEnd, IsSeededEnd, OrdersHaveStatus, verdict_of};

use crate::guest::load_guest;
use crate::refused::{Refused, tell};
use crate::run::Ended;
use crate::run_command::{tell_run_end, verdict};
use crate::watched::run_seeded;
use rvm_arguments::{OrdersArguments, StatusOf};
use rvm_mem::PagedMemory;
use rvm_refusal::LinkFault;
use std::alloc::Global;
use std::io::{self, Write};

/// A run whose verdict is not 0.
#[derive(Clone, Copy, Debug, PartialEq, Eq)]
pub struct FailedRun {
    /// The seed by which its harts were drawn.
    pub seed: u32,
    /// How it ended.
    pub ended: Ended,
}

/// Runs the guest of the file `image`, whose console gets `input`, by the seeds 0, 1 and so on, up to the first whose
/// run has a verdict other than 0, but by no more than `arguments.orders` of them. Each run begins with the image. What
/// the guest sends in the run that does not pass goes to `output`, what it sends in others nowhere.
///
/// Returns the verdict on that run, or 0 if all pass, or 1 if the runs were refused. `errors` gets, of a run that does
/// not pass, its seed and how it ended, in two lines; else how many runs passed, or the refusal, in one. The fault of
/// the file, `OutsideRam` if the image does not lie in RAM, and `OutOfMemory` leave `output` unchanged; `LinkFault` says
/// that a write to `output` failed, and a part of what the guest sent may have been written. The error `LinkFault` says
/// that a write to `errors` failed.
pub fn orders_command<M: PagedMemory + Drop, O: Write, E: Write>(
    alloc: Global,
    arguments: &OrdersArguments,
    image: &[u8],
    input: &[u8],
    output: &mut O,
    errors: &mut E,
) -> Result<u8, LinkFault>
    ensures status { IfOk result (λ status. OrdersHaveStatus arguments.now status
        (λ end. IsOrdersEnd arguments.now image.now input.now end (O.contents output.old) (O.contents output.new))
        (E.contents errors.old) (E.contents errors.new)) }
    ensures output { (end : Result (Option FailedRun) Refused) × IsOrdersEnd arguments.now image.now input.now end
        (O.contents output.old) (O.contents output.new) }
{
    match run_orders::<M, O>(alloc, arguments, image, input, output) {
        Ok(Some(failed)) => tell_failed(failed, errors),
        Ok(None) => tell_passed(arguments.orders, errors),
        Err(refused) => tell(refused, errors),
    }
}

/// Writes to `errors` the seed of a run and how the run ended, in two lines, and returns the verdict on it. `LinkFault` if
/// a write fails.
fn tell_failed<E: Write>(failed: FailedRun, errors: &mut E) -> Result<u8, LinkFault>
    ensures { IfOk result (λ status. (status ≡ run_status Verdict failed.ended)
        × Appends (E.contents errors.old) (E.contents errors.new)
        (codes "order " ++ decimal failed.seed ++ codes "\n" ++ (end_text failed.ended ++ codes "\n"))) }
{
    let seed = failed.seed;
    writeln!(errors, "order {seed}")?;
    tell_run_end(failed.ended, StatusOf::Verdict, errors)
}

/// Writes to `errors` that this many runs passed, in one line, and returns the status. `LinkFault` if the write fails.
fn tell_passed<E: Write>(orders: u32, errors: &mut E) -> Result<u8, LinkFault>
    ensures { IfOk result (λ status. (status ≡ 0)
        × Appends (E.contents errors.old) (E.contents errors.new) (decimal orders ++ codes " orders passed\n")) }
{
    writeln!(errors, "{orders} orders passed")?;
    Ok(0)
}

/// Runs the guest by one seed after the other, and by the first whose run does not pass once more, with its output. Returns
/// that run, if there is one, or why the runs were refused.
#[tactic(auto, using(crate::proofs::Seeding::orders_failed))]
fn run_orders<M: PagedMemory + Drop, O: Write>(
    alloc: Global,
    arguments: &OrdersArguments,
    image: &[u8],
    input: &[u8],
    output: &mut O,
) -> Result<Option<FailedRun>, Refused>
    ensures { IsOrdersEnd arguments.now image.now input.now result (O.contents output.old) (O.contents output.new) }
{
    let Some(seed) = first_failure::<M>(alloc, arguments, image, input)? else {
        return Ok(None);
    };
    let ended = run_order::<M, O>(alloc, arguments, image, input, seed, output)?;
    Ok(Some(FailedRun { seed, ended }))
}

/// The first seed whose run does not pass, among those that are asked for, or why the runs were refused.
#[tactic(auto, using(crate::proofs::Seeding::all_pass, crate::proofs::Seeding::first_fails, crate::proofs::Seeding::pass_more, crate::proofs::Seeding::pass_none))]
fn first_failure<M: PagedMemory + Drop>(
    alloc: Global,
    arguments: &OrdersArguments,
    image: &[u8],
    input: &[u8],
) -> Result<Option<u32>, Refused>
    ensures loadable { OnOk result (IsLoadable (image_of arguments.now.guest.raw image.now) arguments.now.guest.pages) }
    ensures found { IfOk result (λ found. IfOk (image_of arguments.now.guest.raw image.now) (λ i.
        IsFirstFailure arguments.now i input.now found)) }
    ensures below { IfOk result (λ found. IfSome found (λ seed. seed < arguments.now.orders)) }
    ensures refused { IfErr result (λ r.
        IsLoadRefusal (image_of arguments.now.guest.raw image.now) arguments.now.guest.pages r
        ⊎ AreUnwritten arguments.now image.now input.now r) }
{
    let mut seed = 0;
    while seed < arguments.orders {
        let passed = passes::<M>(alloc, arguments, image, input, seed)?;
        if !passed {
            return Ok(Some(seed));
        }
        seed += 1;
    }
    Ok(None)
}

/// Whether the run by a seed passes, or why it was refused.
fn passes<M: PagedMemory + Drop>(
    alloc: Global,
    arguments: &OrdersArguments,
    image: &[u8],
    input: &[u8],
    seed: u32,
) -> Result<bool, Refused>
    requires { seed < arguments.now.orders }
    ensures loadable { OnOk result (IsLoadable (image_of arguments.now.guest.raw image.now) arguments.now.guest.pages) }
    ensures verdict { IfOk result (λ passes. IfOk (image_of arguments.now.guest.raw image.now) (λ i.
        passes ≡ (verdict_of arguments.now i input.now seed == 0))) }
    ensures refused { IfErr result (λ r.
        IsLoadRefusal (image_of arguments.now.guest.raw image.now) arguments.now.guest.pages r
        ⊎ AreUnwritten arguments.now image.now input.now r) }
{
    let ended = run_order::<M, _>(alloc, arguments, image, input, seed, &mut io::sink())?;
    Ok(verdict(ended) == 0)
}

/// Loads the guest and runs it by a seed. Returns how the run ended, or why it was refused.
fn run_order<M: PagedMemory + Drop, O: Write>(
    alloc: Global,
    arguments: &OrdersArguments,
    image: &[u8],
    input: &[u8],
    seed: u32,
    output: &mut O,
) -> Result<Ended, Refused>
    requires { seed < arguments.now.orders }
    ensures { IsSeededEnd arguments.now image.now input.now seed result (O.contents output.old) (O.contents output.new) }
{
    let mut guest = load_guest::<M>(alloc, &arguments.guest, image)?;
    Ok(run_seeded(alloc, &mut guest, arguments, input, seed, output)?)
}
