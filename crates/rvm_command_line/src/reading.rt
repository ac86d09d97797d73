//! Reads the words of a command line as arguments.

ghost use Rattle.std.specs.Prelude.{◌≡◌, ◌≤◌, ◌&&◌, ℕ, nat_le, false, true, if◌then◌else◌, [], ◌∷◌, Some, IfErr, IfOk, IfSome, OnOk, None, codes, map, option_map};
ghost use Rattle.clap.specs.Faults.{fault_of};
ghost use Rattle.clap.specs.Kinds.{HasKind};
ghost use Rattle.clap.specs.Matches.{found_of};
ghost use Rattle.clap.specs.Simple.{app_of, subcommand_of, subcommand_rows_of};
ghost use Rattle.clap.specs.Walk.{all_of, first_of, one_of, rows_of};
ghost use Rattle.clap.specs.Words.{kind_of};
ghost use Rattle.clap.specs.declared.error.kind.ErrorKind.TheVariants as kind;
ghost use Rattle.rvm_arguments.specs.declared.arguments.StatusOf.TheVariants.{Verdict};
ghost use Rattle.rvm_command_line.specs.Given.{Gives, IsAsked, IsAuditJournals, IsExplained, IsFlag, IsGuest, IsHost, IsInRam, IsLimit, IsLive, IsMove, IsNumber, IsNumberOr, IsOptionalGuest, IsOptionalNumber, IsOrders, IsReplay, IsReplayTurns, IsReport, IsSignature, IsStatusOf, IsTell, IsTrace, is_from_words, is_given, is_live, is_standard};
ghost use Rattle.rvm_text.specs.Numbers.{number_of};
ghost use Rattle.rvm_command_line.specs.Program.{faults_of, program};

use crate::program::program;
use arrayvec::ArrayVec;
use clap::error::ErrorKind;
use clap::parser::ValueSource;
use clap::{ArgMatches, Command, Error};
use rvm_arguments::{
    Arguments, AsmArguments, AuditJournalsArguments, CommandLine, DebugArguments, DisArguments,
    GuestArguments, HostArguments, LiveArguments, MoveArguments, OrdersArguments, ReplayArguments,
    ReplayTurnsArguments, Report, ReportArguments, RunArguments, ScriptArguments, StatusOf,
    TellArguments, TraceArguments, WordRange,
};
use rvm_mem::{MAX_PAGES, PAGE_SIZE};
use rvm_text::number as spelled;
use std::alloc::Global;
use std::convert::AsStr;

/// The address of the first byte of RAM.
const RAM_BASE: u32 = 0x8000_0000;

/// The name of a file that stands for standard input.
const STANDARD_INPUT: &str = "-";

/// The most harts that a board has.
const MAX_HARTS: u32 = rvm_res::MAX_HARTS as u32;

/// The most hosts that a world has.
const MAX_HOSTS: u32 = 8;

/// The newest version of a stream.
const MAX_STREAM: u32 = 3;

/// The most turns that a run makes.
pub const MAX_STEPS: u32 = 1_000_000_000;

/// The most seeds by which a guest is run.
const MAX_ORDERS: u32 = 1_000_000;

/// The last turn that a run can make, counted from 0.
const LAST_TURN: u32 = MAX_STEPS - 1;

/// The most turns of a guest that moves.
const MAX_MOVE_STEPS: u32 = 100_000;

/// The most rounds of copies before a guest is paused.
const MAX_ROUNDS: u32 = 1000;

/// The most copies for each page before a guest is paused.
const MAX_FACTOR: u32 = 100;

/// The most milliseconds that a move waits for an answer.
const MAX_PATIENCE: u32 = 1_000_000_000;

/// The most turns that a guest makes in a second.
const MAX_RATE: u32 = 1_000_000_000;

/// The most megabytes that a move sends in a second.
const MAX_BANDWIDTH: u32 = 1_000_000;

/// What is said if a live run is given what has no meaning in it.
const LIVE_EXCLUDES: &str = "\
--journal and --input - exclude --order, --stop-at-fault, --trace, --signature, --coverage, --profile and --save";

/// What is said if no command is named.
const MISSING: &str = "a command is missing";

/// What is said if `run --orders` is given what has no meaning in it.
const ORDERS_EXCLUDE: &str =
    "--orders excludes --trace, --signature, --coverage, --profile and --save";

/// Reads the words of a command line: the command that they ask for, with its arguments, and whether its refusal is
/// explained. The first word is the program's name. The error has `clap`'s text, and its `exit_code` is the status of
/// the program. It also stands for a command line that asks for help or for the version.
pub fn parse_args<'a, S: AsStr>(alloc: Global, words: &'a [S]) -> Result<CommandLine<'a>, Error>
    ensures asked { IfOk result (λ l. IsAsked (subcommand_of program (map S.text words.now)) l.arguments) }
    ensures explained { IfOk result (λ l. IsExplained (subcommand_of program (map S.text words.now)) l.explain) }
    ensures taken { IfOk result (λ l. fault_of program (map S.text words.now) ≡ []) }
    ensures fault { IfErr result (HasKind (faults_of (map S.text words.now))) }
{
    let mut command = program(alloc)?;
    read_words(&mut command, words)
}

/// The fault of a command line whose word with the index `place` is not UTF-8, with `clap`'s text. The program's name
/// has the index 0.
pub fn word_fault(alloc: Global, place: usize) -> Error
    ensures { HasKind (kind.ValueValidation ∷ []) result }
{
    match refuse_word(alloc, place) {
        Ok(fault) => fault,
        Err(error) => error,
    }
}

/// The fault of a command line whose word with the index `place` is not UTF-8. Fails only if memory runs out.
fn refuse_word(alloc: Global, place: usize) -> Result<Error, Error>
    ensures kind { IfOk result (λ e. kind_of e ≡ kind.ValueValidation) }
    ensures memory { IfErr result (λ e. kind_of e ≡ kind.OutOfMemory) }
{
    let mut parser = program(alloc)?;
    let text = format!(in alloc; "word {place} of the command line is not UTF-8")?;
    Ok(parser.error(ErrorKind::ValueValidation, text.as_str())?)
}

/// Reads the words of a command line by `command`, the words that the program takes.
fn read_words<'a, S: AsStr>(
    command: &mut Command<'a>,
    words: &'a [S],
) -> Result<CommandLine<'a>, Error>
    requires { app_of command.old ≡ program }
    ensures asked { IfOk result (λ l. IsAsked (subcommand_of program (map S.text words.now)) l.arguments) }
    ensures explained { IfOk result (λ l. IsExplained (subcommand_of program (map S.text words.now)) l.explain) }
    ensures taken { IfOk result (λ l. fault_of program (map S.text words.now) ≡ []) }
    ensures fault { IfErr result (HasKind (faults_of (map S.text words.now))) }
{
    let matches = command.try_get_matches_from_mut(words)?;
    match read_line(&matches) {
        Ok(line) => Ok(line),
        Err(fault) => Err(command.error(ErrorKind::ValueValidation, fault)?),
    }
}

/// The command that was named, and whether its refusal is explained. Fails with a text that says which argument is not
/// what it must be.
fn read_line<'a>(matches: &ArgMatches<'a>) -> Result<CommandLine<'a>, &'static str>
    ensures asked { IfOk result (λ l. IsAsked (subcommand_rows_of matches.now) l.arguments) }
    ensures explained { IfOk result (λ l. IsExplained (subcommand_rows_of matches.now) l.explain) }
{
    Ok(CommandLine {
        arguments: read_matches(matches)?,
        explain: read_explain(matches),
    })
}

/// Whether the command that was named is given `--explain`.
fn read_explain(matches: &ArgMatches) -> bool
    ensures { IsExplained (subcommand_rows_of matches.now) result }
{
    match matches.subcommand() {
        Some((_name, command)) => flag(command, "explain"),
        None => false,
    }
}

/// The arguments of the command that was named. Fails with a text that says which of them is not what it must be.
fn read_matches<'a>(matches: &ArgMatches<'a>) -> Result<Arguments<'a>, &'static str>
    ensures { IfOk result (IsAsked (subcommand_rows_of matches.now)) }
{
    match matches.subcommand() {
        Some((name, words)) => read_command(name, words),
        None => Err(MISSING),
    }
}

/// The arguments of the command with this name. Fails with a text that says which of them is not what it must be.
fn read_command<'a>(name: &str, words: &ArgMatches<'a>) -> Result<Arguments<'a>, &'static str>
    ensures { IfOk result (Gives name.now (rows_of (found_of words.now))) }
{
    match name {
        "run" => read_run(words),
        "asm" => read_asm(words),
        "dis" => read_dis(words),
        "debug" => read_debug(words),
        "script" => read_script(words),
        "move" => Ok(Arguments::Move(read_move(words)?)),
        "audit" => Ok(Arguments::Audit(read_move(words)?)),
        "host" => Ok(Arguments::Host(read_host(words)?)),
        "tell" => Ok(Arguments::Tell(read_tell(words)?)),
        "replay" => read_replay(words),
        "audit-journals" => Ok(Arguments::AuditJournals(read_audit_journals(words)?)),
        _ => Err(MISSING),
    }
}

/// The arguments of `run`. Fails with a text that says which of them is not what it must be.
fn read_run<'a>(run: &ArgMatches<'a>) -> Result<Arguments<'a>, &'static str>
    ensures { IfOk result (Gives (codes "run") (rows_of (found_of run.now))) }
{
    if text(run, "orders").is_some() {
        return Ok(Arguments::Orders(read_orders(run)?));
    }
    if is_live(run) {
        return Ok(Arguments::Live(read_live(run)?));
    }
    let guest = read_guest(run)?;
    let Some(steps) = number(run, "steps", 1, MAX_STEPS) else {
        return Err("--steps takes a decimal number from 1 to 1000000000");
    };
    let status = read_status(run)?;
    let report = read_report(run, guest.pages)?;
    let Some(seed) = optional_number(run, "order", 0, u32::MAX) else {
        return Err("--order takes a decimal number from 0 to 4294967295");
    };
    Ok(Arguments::Run(RunArguments {
        guest,
        input: text(run, "input"),
        steps,
        status,
        stop_at_fault: flag(run, "stop-at-fault"),
        trace: read_trace(run)?,
        report,
        seed,
    }))
}

/// Whether a live run is asked for: one that keeps a journal, or reads standard input.
fn is_live(run: &ArgMatches) -> bool
    ensures { result ≡ is_live (rows_of (found_of run.now)) }
{
    text(run, "journal").is_some() || is_standard(text(run, "input"))
}

/// Whether a file is named that stands for standard input.
fn is_standard(name: Option<&str>) -> bool
    ensures { result ≡ is_standard (option_map (λ s. s.now) name.entry) }
{
    match name {
        Some(name) => name == STANDARD_INPUT,
        None => false,
    }
}

/// The arguments of a live run. Fails with a text that says which of them is not what it must be, or is given and has no
/// meaning in such a run.
fn read_live<'a>(run: &ArgMatches<'a>) -> Result<LiveArguments<'a>, &'static str>
    requires live { is_live (rows_of (found_of run.now)) ≡ true }
    requires alone { first_of (codes "orders") (rows_of (found_of run.now)) ≡ None }
    ensures { IfOk result (IsLive (rows_of (found_of run.now))) }
{
    let guest = read_guest(run)?;
    let steps = read_limit(run)?;
    let status = read_status(run)?;
    check_unwatched(run, guest.pages, LIVE_EXCLUDES)?;
    if flag(run, "stop-at-fault") {
        return Err(LIVE_EXCLUDES);
    }
    Ok(LiveArguments {
        guest,
        input: text(run, "input"),
        journal: read_journal(run)?,
        steps,
        status,
    })
}

/// The most turns of a live run, if that is given. Fails with a text if it is no number within its limits.
fn read_limit(run: &ArgMatches) -> Result<Option<u32>, &'static str>
    ensures within { IfOk result (λ limit. IfSome limit (λ n. (1 ≤ n) × (n ≤ 1000000000))) }
    ensures limit { IfOk result (IsLimit (codes "steps") (rows_of (found_of run.now))) }
{
    if !is_given(run, "steps") {
        return Ok(None);
    }
    match number(run, "steps", 1, MAX_STEPS) {
        Some(steps) => Ok(Some(steps)),
        None => Err("--steps takes a decimal number from 1 to 1000000000"),
    }
}

/// The arguments of `run --orders`. Fails with a text that says which of them is not what it must be.
fn read_orders<'a>(run: &ArgMatches<'a>) -> Result<OrdersArguments<'a>, &'static str>
    ensures { IfOk result (IsOrders (rows_of (found_of run.now))) }
{
    let guest = read_guest(run)?;
    let Some(steps) = number(run, "steps", 1, MAX_STEPS) else {
        return Err("--steps takes a decimal number from 1 to 1000000000");
    };
    let Some(orders) = number(run, "orders", 1, MAX_ORDERS) else {
        return Err("--orders takes a decimal number from 1 to 1000000");
    };
    check_status(run)?;
    check_alone(run, guest.pages)?;
    Ok(OrdersArguments {
        guest,
        input: text(run, "input"),
        steps,
        stop_at_fault: flag(run, "stop-at-fault"),
        orders,
    })
}

/// Fails with a text if `run --orders` is not asked for a verdict.
fn check_status(run: &ArgMatches) -> Result<(), &'static str>
    ensures { OnOk result (IsStatusOf (one_of (codes "verdict") (rows_of (found_of run.now)))
        (one_of (codes "exit-status") (rows_of (found_of run.now))) Verdict) }
{
    match read_status(run)? {
        StatusOf::Verdict => Ok(()),
        StatusOf::Command | StatusOf::Guest => Err("--orders wants --verdict"),
    }
}

/// Fails with a text if `run --orders`, with this many pages of RAM, is given a seed, or a file for a trace, a report or a
/// journal, or is to read standard input.
fn check_alone(run: &ArgMatches, pages: u32) -> Result<(), &'static str>
    ensures seed { OnOk result (first_of (codes "order") (rows_of (found_of run.now)) ≡ None) }
    ensures trace { OnOk result (IsTrace (rows_of (found_of run.now)) None) }
    ensures report { OnOk result (IsReport pages (rows_of (found_of run.now)) None) }
    ensures recorded { OnOk result (is_live (rows_of (found_of run.now)) ≡ false) }
{
    if text(run, "order").is_some() {
        return Err("--order and --orders exclude each other");
    }
    if is_live(run) {
        return Err("--orders excludes --journal and --input -");
    }
    check_unwatched(run, pages, ORDERS_EXCLUDE)
}

/// Fails with the text `why` if a run with this many pages of RAM is given a seed, or a file for a trace or a report.
fn check_unwatched(run: &ArgMatches, pages: u32, why: &'static str) -> Result<(), &'static str>
    ensures seed { OnOk result (first_of (codes "order") (rows_of (found_of run.now)) ≡ None) }
    ensures trace { OnOk result (IsTrace (rows_of (found_of run.now)) None) }
    ensures report { OnOk result (IsReport pages (rows_of (found_of run.now)) None) }
{
    if text(run, "order").is_some() {
        return Err(why);
    }
    let None = read_trace(run)? else {
        return Err(why);
    };
    match read_report(run, pages)? {
        None => Ok(()),
        Some(_) => Err(why),
    }
}

/// What is reported of a run with this many pages of RAM. Fails with a text if a word of a report is not what it must
/// be, if its file is one that the run reads or that gets its trace, or if several reports are asked for.
fn read_report<'a>(
    run: &ArgMatches<'a>,
    pages: u32,
) -> Result<Option<ReportArguments<'a>>, &'static str>
    ensures { IfOk result (IsReport pages (rows_of (found_of run.now))) }
{
    match text(run, "save") {
        None => read_listing(run, pages),
        Some(file) => read_saved(run, file),
    }
}

/// The guest that is saved to `file`. Fails with a text if the run reads that file, or writes its trace there, or if
/// another report is asked for.
fn read_saved<'a>(
    run: &ArgMatches<'a>,
    file: &'a str,
) -> Result<Option<ReportArguments<'a>>, &'static str>
    requires { first_of (codes "save") (rows_of (found_of run.now)) ≡ Some file.now }
    ensures { (pages : ℕ) → IfOk result (IsReport pages (rows_of (found_of run.now))) }
{
    check_unlisted(run)?;
    if is_taken(run, file) {
        return Err("the file of --save is one that is read, or that of --trace");
    }
    let report = Report::SavedGuest;
    Ok(Some(ReportArguments { file, report }))
}

/// Fails with a text if a report other than a saved guest is asked for, or if symbols are given.
fn check_unlisted(run: &ArgMatches) -> Result<(), &'static str>
    ensures signature { OnOk result (all_of (codes "signature") (rows_of (found_of run.now)) ≡ None) }
    ensures coverage { OnOk result (first_of (codes "coverage") (rows_of (found_of run.now)) ≡ None) }
    ensures profile { OnOk result (first_of (codes "profile") (rows_of (found_of run.now)) ≡ None) }
{
    match (
        texts(run, "signature"),
        text(run, "coverage"),
        text(run, "profile"),
    ) {
        (None, None, None) => match text(run, "symbols") {
            None => Ok(()),
            Some(_) => Err("--symbols wants --profile"),
        },
        _ => Err("--save excludes --signature, --coverage and --profile"),
    }
}

/// What is reported of a run with this many pages of RAM whose guest is not saved. Fails with a text as `read_report`
/// does.
fn read_listing<'a>(
    run: &ArgMatches<'a>,
    pages: u32,
) -> Result<Option<ReportArguments<'a>>, &'static str>
    requires { first_of (codes "save") (rows_of (found_of run.now)) ≡ None }
    ensures { IfOk result (IsReport pages (rows_of (found_of run.now))) }
{
    match (
        texts(run, "signature"),
        text(run, "coverage"),
        text(run, "profile"),
    ) {
        (None, None, None) => read_no_report(run),
        (Some(words), None, None) => {
            let (file, range) = read_signature(run, words, pages)?;
            let report = Report::Signature(range);
            Ok(Some(ReportArguments { file, report }))
        }
        (None, Some(file), None) => {
            if is_taken(run, file) {
                return Err("the file of --coverage is one that is read, or that of --trace");
            }
            let report = Report::Coverage;
            Ok(Some(ReportArguments { file, report }))
        }
        (None, None, Some(file)) => {
            let symbols = read_symbols(run, file)?;
            let report = Report::Profile { symbols };
            Ok(Some(ReportArguments { file, report }))
        }
        _ => Err("--signature, --coverage, --profile and --save exclude one another"),
    }
}

/// That nothing is reported. Fails with a text if symbols are given, for which no profile is asked for.
fn read_no_report<'a>(run: &ArgMatches<'a>) -> Result<Option<ReportArguments<'a>>, &'static str>
    ensures { IfOk result (λ report. report ≡ None) }
{
    match text(run, "symbols") {
        None => Ok(None),
        Some(_) => Err("--symbols wants --profile"),
    }
}

/// The file of the symbols of a profile that goes to `file`. Fails with a text if none is named, or if the run reads
/// `file`, or writes its trace there.
fn read_symbols<'a>(run: &ArgMatches<'a>, file: &str) -> Result<&'a str, &'static str>
    ensures { IfOk result (λ symbols. first_of (codes "symbols") (rows_of (found_of run.now)) ≡ Some symbols.now) }
{
    let Some(symbols) = text(run, "symbols") else {
        return Err("--profile wants --symbols");
    };
    if is_taken(run, file) || symbols == file {
        return Err("the file of --profile is one that is read, or that of --trace");
    }
    Ok(symbols)
}

/// The file of a signature, and its words, of a run with this many pages of RAM. Fails with a text if one of its three
/// values is not what it must be.
fn read_signature<'a>(
    run: &ArgMatches<'a>,
    words: &[&'a str],
    pages: u32,
) -> Result<(&'a str, WordRange), &'static str>
    ensures { IfOk result (λ s. IsSignature pages (Some (map (λ w. w.now) words.now)) s.0.now s.1) }
{
    let Some((file, from, length)) = three(words) else {
        return Err("--signature takes FILE, ADDR and LEN");
    };
    if is_taken(run, file) {
        return Err("the file of --signature is one that is read, or that of --trace");
    }
    let Some(range) = range(from, length, pages) else {
        return Err(
            "--signature takes ADDR and LEN in multiples of 4, LEN from 4 on, all of it in RAM",
        );
    };
    Ok((file, range))
}

/// Whether a file is named that the run reads, or that gets its trace.
fn is_taken(run: &ArgMatches, file: &str) -> bool {
    is_named(text(run, "image"), file)
        || is_named(text(run, "input"), file)
        || is_named(text(run, "trace"), file)
}

/// The three words of an option, if there are three.
fn three<'a>(words: &[&'a str]) -> Option<(&'a str, &'a str, &'a str)>
    ensures { IfSome result (λ t. map (λ w. w.now) words.now ≡ t.0.now ∷ t.1.now ∷ t.2.now ∷ []) }
{
    match words {
        [first, second, third] => Some((*first, *second, *third)),
        _ => None,
    }
}

/// The words of a range of which two texts have the address and the length, if all lie in RAM of this many pages.
fn range(from: &str, length: &str, pages: u32) -> Option<WordRange>
    ensures from { IfSome result (λ r. number_of from.now ≡ Some r.from) }
    ensures length { IfSome result (λ r. number_of length.now ≡ Some r.length) }
    ensures inside { IfSome result (IsInRam pages) }
{
    let range = WordRange {
        from: spelled(from.as_bytes())?,
        length: spelled(length.as_bytes())?,
    };
    if is_in_ram(range, pages) {
        Some(range)
    } else {
        None
    }
}

/// What is traced of a run. Fails with a text if an option of a trace has no number within its limits, if the first turn
/// is above the last one, if a turn is given and no file is named for the trace, or if that file is one that the run reads.
fn read_trace<'a>(run: &ArgMatches<'a>) -> Result<Option<TraceArguments<'a>>, &'static str>
    ensures { IfOk result (IsTrace (rows_of (found_of run.now))) }
{
    let Some(file) = text(run, "trace") else {
        return read_no_trace(run);
    };
    if is_named(text(run, "image"), file) || is_named(text(run, "input"), file) {
        return Err("the file of --trace is one that is read");
    }
    let Some(from) = number_or(run, "trace-from", 0, 0, LAST_TURN) else {
        return Err("--trace-from takes a decimal number from 0 to 999999999");
    };
    let Some(to) = number_or(run, "trace-to", LAST_TURN, 0, LAST_TURN) else {
        return Err("--trace-to takes a decimal number from 0 to 999999999");
    };
    if from > to {
        return Err("--trace-from is above --trace-to");
    }
    Ok(Some(TraceArguments { file, from, to }))
}

/// Whether a range has at least one word, and all its words lie in RAM of this many pages.
fn is_in_ram(range: WordRange, pages: u32) -> bool
    ensures { result ≡ true → IsInRam pages range }
{
    let (from, length) = (range.from, range.length);
    let end = u64::from(RAM_BASE) + u64::from(PAGE_SIZE) * u64::from(pages);
    from % 4 == 0
        && length % 4 == 0
        && length >= 4
        && from >= RAM_BASE
        && u64::from(from) + u64::from(length) <= end
}

/// Whether an argument names this file.
fn is_named(argument: Option<&str>, file: &str) -> bool {
    match argument {
        Some(name) => name == file,
        None => false,
    }
}

/// That nothing is traced. Fails with a text if the turns of a trace are given, for which no file is named.
fn read_no_trace<'a>(run: &ArgMatches<'a>) -> Result<Option<TraceArguments<'a>>, &'static str>
    requires { first_of (codes "trace") (rows_of (found_of run.now)) ≡ None }
    ensures { IfOk result (IsTrace (rows_of (found_of run.now))) }
{
    if text(run, "trace-from").is_some() {
        return Err("--trace-from wants --trace");
    }
    if text(run, "trace-to").is_some() {
        return Err("--trace-to wants --trace");
    }
    Ok(None)
}

/// What the status of `run` tells. Fails with a text if its two flags are both given.
fn read_status(run: &ArgMatches) -> Result<StatusOf, &'static str>
    ensures { IfOk result (IsStatusOf (one_of (codes "verdict") (rows_of (found_of run.now)))
        (one_of (codes "exit-status") (rows_of (found_of run.now)))) }
{
    match (flag(run, "verdict"), flag(run, "exit-status")) {
        (false, false) => Ok(StatusOf::Command),
        (true, false) => Ok(StatusOf::Verdict),
        (false, true) => Ok(StatusOf::Guest),
        (true, true) => Err("--verdict and --exit-status exclude each other"),
    }
}

/// The guest of a command. Fails with a text that says which of its arguments is not what it must be.
fn read_guest<'a>(command: &ArgMatches<'a>) -> Result<GuestArguments<'a>, &'static str>
    ensures { IfOk result (IsGuest (rows_of (found_of command.now))) }
{
    let Some(image) = text(command, "image") else {
        return Err("IMAGE is missing");
    };
    let Some(harts) = number(command, "harts", 1, MAX_HARTS) else {
        return Err("--harts takes a decimal number from 1 to 8");
    };
    let Some(pages) = number(command, "pages", 1, MAX_PAGES) else {
        return Err("--pages takes a decimal number from 1 to 4096");
    };
    Ok(GuestArguments {
        image,
        raw: flag(command, "raw"),
        harts,
        pages,
    })
}

/// The arguments of `asm`. Fails with a text if one is missing, or if both name the same file.
fn read_asm<'a>(asm: &ArgMatches<'a>) -> Result<Arguments<'a>, &'static str>
    ensures { IfOk result (Gives (codes "asm") (rows_of (found_of asm.now))) }
{
    let Some(source) = text(asm, "source") else {
        return Err("SRC is missing");
    };
    let Some(output) = text(asm, "output") else {
        return Err("OUT is missing");
    };
    if source == output {
        return Err("SRC and OUT are the same file");
    }
    Ok(Arguments::Asm(AsmArguments { source, output }))
}

/// The arguments of `dis`. Fails with a text that says which of them is not what it must be. Harts and pages are
/// checked, and not used.
fn read_dis<'a>(dis: &ArgMatches<'a>) -> Result<Arguments<'a>, &'static str>
    ensures { IfOk result (Gives (codes "dis") (rows_of (found_of dis.now))) }
{
    let guest = read_guest(dis)?;
    Ok(Arguments::Dis(DisArguments {
        image: guest.image,
        raw: guest.raw,
    }))
}

/// The arguments of `debug`. Fails with a text that says which of them is not what it must be.
fn read_debug<'a>(debug: &ArgMatches<'a>) -> Result<Arguments<'a>, &'static str>
    ensures { IfOk result (Gives (codes "debug") (rows_of (found_of debug.now))) }
{
    let guest = read_guest(debug)?;
    Ok(Arguments::Debug(DebugArguments {
        guest,
        extended: flag(debug, "extended"),
    }))
}

/// The arguments of `script`. Fails with a text that says which of them is not what it must be.
fn read_script<'a>(script: &ArgMatches<'a>) -> Result<Arguments<'a>, &'static str>
    ensures { IfOk result (Gives (codes "script") (rows_of (found_of script.now))) }
{
    let guest = read_guest(script)?;
    let Some(file) = text(script, "script") else {
        return Err("FILE is missing");
    };
    let Some(hosts) = number(script, "hosts", 2, MAX_HOSTS) else {
        return Err("--hosts takes a decimal number from 2 to 8");
    };
    let Some(stream) = optional_number(script, "stream", 1, MAX_STREAM) else {
        return Err("--stream takes a decimal number from 1 to 3");
    };
    Ok(Arguments::Script(ScriptArguments {
        guest,
        script: file,
        hosts,
        stream,
    }))
}

/// The arguments of `move` and of `audit`. Fails with a text that says which of them is not what it must be.
fn read_move<'a>(words: &ArgMatches<'a>) -> Result<MoveArguments<'a>, &'static str>
    ensures { IfOk result (IsMove (rows_of (found_of words.now))) }
{
    let guest = read_guest(words)?;
    let Some(steps) = number(words, "steps", 1, MAX_MOVE_STEPS) else {
        return Err("--steps takes a decimal number from 1 to 100000");
    };
    let Some(rounds) = number(words, "rounds", 1, MAX_ROUNDS) else {
        return Err("--rounds takes a decimal number from 1 to 1000");
    };
    let Some(left) = number(words, "left", 1, MAX_PAGES) else {
        return Err("--left takes a decimal number from 1 to 4096");
    };
    let Some(factor) = number(words, "factor", 1, MAX_FACTOR) else {
        return Err("--factor takes a decimal number from 1 to 100");
    };
    let Some(stream) = number(words, "stream", 1, MAX_STREAM) else {
        return Err("--stream takes a decimal number from 1 to 3");
    };
    let Some(bandwidth) = optional_number(words, "bandwidth", 1, MAX_BANDWIDTH) else {
        return Err("--bandwidth takes a decimal number from 1 to 1000000");
    };
    Ok(MoveArguments {
        guest,
        steps,
        rounds,
        left,
        factor,
        stream,
        bandwidth,
        verdict: flag(words, "verdict"),
    })
}

/// The arguments of `host`. Fails with a text that says which of them is not what it must be.
fn read_host<'a>(host: &ArgMatches<'a>) -> Result<HostArguments<'a>, &'static str>
    ensures { IfOk result (IsHost (rows_of (found_of host.now))) }
{
    let Some(name) = text(host, "name") else {
        return Err("NAME is missing");
    };
    let Some(peers) = text(host, "peers") else {
        return Err("--peers is missing");
    };
    let Some(control) = text(host, "control") else {
        return Err("--control is missing");
    };
    let Some(patience) = number(host, "patience", 1, MAX_PATIENCE) else {
        return Err("--patience takes a decimal number from 1 to 1000000000");
    };
    let Some(rate) = optional_number(host, "rate", 1, MAX_RATE) else {
        return Err("--rate takes a decimal number from 1 to 1000000000");
    };
    let Some(bandwidth) = optional_number(host, "bandwidth", 1, MAX_BANDWIDTH) else {
        return Err("--bandwidth takes a decimal number from 1 to 1000000");
    };
    Ok(HostArguments {
        name,
        peers,
        guest: read_optional_guest(host)?,
        listen: text(host, "listen"),
        control,
        secret: text(host, "secret"),
        input: text(host, "input"),
        journal: read_journal(host)?,
        patience,
        rate,
        bandwidth,
        until_halt: flag(host, "until-halt"),
        verdict: flag(host, "verdict"),
    })
}

/// The file of the journal of a host or of a run, if it keeps one. Fails with a text if it is a file that is read.
fn read_journal<'a>(command: &ArgMatches<'a>) -> Result<Option<&'a str>, &'static str>
    ensures { IfOk result (λ file. first_of (codes "journal") (rows_of (found_of command.now))
        ≡ option_map (λ s. s.now) file) }
{
    let Some(file) = text(command, "journal") else {
        return Ok(None);
    };
    for read in ["image", "peers", "secret", "input"] {
        if is_named(text(command, read), file) {
            return Err("the file of --journal is one that is read");
        }
    }
    Ok(Some(file))
}

/// The guest of a command, if an image is named. Fails with a text that says which of its arguments is not what it must
/// be, or is given without an image.
fn read_optional_guest<'a>(
    command: &ArgMatches<'a>,
) -> Result<Option<GuestArguments<'a>>, &'static str>
    ensures { IfOk result (IsOptionalGuest (rows_of (found_of command.now))) }
{
    if text(command, "image").is_none() {
        return read_no_guest(command);
    }
    Ok(Some(read_guest(command)?))
}

/// That no guest is asked for. Fails with a text if an option of a guest is given, for which no image is named.
fn read_no_guest<'a>(command: &ArgMatches<'a>) -> Result<Option<GuestArguments<'a>>, &'static str>
    requires { first_of (codes "image") (rows_of (found_of command.now)) ≡ None }
    ensures { IfOk result (IsOptionalGuest (rows_of (found_of command.now))) }
{
    if is_given(command, "raw") {
        return Err("--raw wants IMAGE");
    }
    if is_given(command, "harts") {
        return Err("--harts wants IMAGE");
    }
    if is_given(command, "pages") {
        return Err("--pages wants IMAGE");
    }
    Ok(None)
}

/// The arguments of `tell`. Fails with a text that says which of them is not what it must be.
fn read_tell<'a>(tell: &ArgMatches<'a>) -> Result<TellArguments<'a>, &'static str>
    ensures { IfOk result (IsTell (rows_of (found_of tell.now))) }
{
    let Some(control) = text(tell, "socket") else {
        return Err("SOCKET is missing");
    };
    Ok(TellArguments {
        control,
        line: text(tell, "line"),
    })
}

/// The arguments of `replay`. Fails with a text that says which of them is not what it must be.
fn read_replay<'a>(replay: &ArgMatches<'a>) -> Result<Arguments<'a>, &'static str>
    ensures { IfOk result (Gives (codes "replay") (rows_of (found_of replay.now))) }
{
    if text(replay, "turns").is_some() {
        return Ok(Arguments::ReplayTurns(read_replay_turns(replay)?));
    }
    Ok(Arguments::Replay(read_one_replay(replay)?))
}

/// The arguments of `replay` of one journal. Fails with a text that says which of them is not what it must be.
fn read_one_replay<'a>(replay: &ArgMatches<'a>) -> Result<ReplayArguments<'a>, &'static str>
    requires { first_of (codes "turns") (rows_of (found_of replay.now)) ≡ None }
    ensures { IfOk result (IsReplay (rows_of (found_of replay.now))) }
{
    let Some(names) = texts(replay, "journal") else {
        return Err("JOURNAL is missing");
    };
    let Some(until) = optional_count(replay, "until") else {
        return Err("--until takes a decimal number from 0 to 18446744073709551615");
    };
    Ok(ReplayArguments {
        journal: only_one(names)?,
        image: text(replay, "image"),
        until,
        script: text(replay, "script"),
    })
}

/// The one journal that is named. Fails with a text if there are several.
fn only_one<'a>(names: &[&'a str]) -> Result<&'a str, &'static str>
    ensures { IfOk result (λ name. map (λ w. w.now) names.now ≡ name.now ∷ []) }
{
    match names {
        [name] => Ok(*name),
        _ => Err("several JOURNALs want --turns"),
    }
}

/// The arguments of `replay --turns`. Fails with a text that says which of them is not what it must be.
fn read_replay_turns<'a>(replay: &ArgMatches<'a>) -> Result<ReplayTurnsArguments<'a>, &'static str>
    ensures { IfOk result (IsReplayTurns (rows_of (found_of replay.now))) }
{
    let Some(names) = texts(replay, "journal") else {
        return Err("JOURNAL is missing");
    };
    let Some(turns) = number(replay, "turns", 1, u32::MAX) else {
        return Err("--turns takes a decimal number from 1 to 4294967295");
    };
    let None = text(replay, "until") else {
        return Err("--until and --turns exclude each other");
    };
    let Some(image) = text(replay, "image") else {
        return Err("--turns wants --image");
    };
    let Some(script) = text(replay, "script") else {
        return Err("--turns wants --script");
    };
    Ok(ReplayTurnsArguments {
        journals: read_journals(names)?,
        image,
        turns,
        script,
    })
}

/// The arguments of `audit-journals`. Fails with a text that says which of them is not what it must be.
fn read_audit_journals<'a>(
    audit: &ArgMatches<'a>,
) -> Result<AuditJournalsArguments<'a>, &'static str>
    ensures { IfOk result (IsAuditJournals (rows_of (found_of audit.now))) }
{
    let Some(names) = texts(audit, "journal") else {
        return Err("JOURNAL is missing");
    };
    let Some(image) = text(audit, "image") else {
        return Err("--image is missing");
    };
    let order = flag(audit, "order");
    let chart = text(audit, "chart");
    check_chart(chart, order, image, names)?;
    Ok(AuditJournalsArguments {
        journals: read_journals(names)?,
        image,
        order,
        chart,
    })
}

/// Fails with a text if a chart is asked for beside the order, or if its file is one that is read.
fn check_chart(
    chart: Option<&str>,
    order: bool,
    image: &str,
    journals: &[&str],
) -> Result<(), &'static str> {
    let Some(chart) = chart else {
        return Ok(());
    };
    if order {
        return Err("--order and --chart exclude each other");
    }
    if chart == image || journals.iter().any(|journal| *journal == chart) {
        return Err("the file of --chart is one that is read");
    }
    Ok(())
}

/// The files of journals with these names. Fails with a text if there are more than 8, or if a file is named twice.
fn read_journals<'a>(names: &[&'a str]) -> Result<ArrayVec<&'a str, 8>, &'static str>
    ensures { IfOk result (λ journals. map (λ s. s.now) journals.items ≡ map (λ w. w.now) names.now) }
{
    if has_twice(names) {
        return Err("two JOURNALs are the same file");
    }
    let mut journals = ArrayVec::new();
    match journals.try_extend_from_slice(names) {
        Ok(()) => Ok(journals),
        Err(_) => Err("1 to 8 JOURNALs are taken"),
    }
}

/// Whether one of these names stands there twice.
fn has_twice(names: &[&str]) -> bool {
    for place in 0..names.len() {
        let (before, name) = (&names[..place], names[place]);
        if before.iter().any(|other| *other == name) {
            return true;
        }
    }
    false
}

/// The text of an option, as the words or its default give it, if they do.
#[tactic(auto, using(crate::proofs::Rows::first_row))]
fn text<'a>(command: &ArgMatches<'a>, option: &str) -> Option<&'a str>
    ensures { option_map (λ s. s.now) result ≡ first_of option.now (rows_of (found_of command.now)) }
{
    command.get_str(option)
}

/// The texts of an option that takes several, if it is given.
#[tactic(auto, using(crate::proofs::Rows::all_rows))]
fn texts<'m, 'a>(command: &'m ArgMatches<'a>, option: &str) -> Option<&'m [&'a str]>
    ensures { option_map (λ s. map (λ w. w.now) s.now) result ≡ all_of option.now (rows_of (found_of command.now)) }
{
    command.get_raw(option)
}

/// Whether a flag is given.
#[tactic(auto, using(crate::proofs::Rows::one_row))]
fn flag(command: &ArgMatches, option: &str) -> bool
    ensures { IsFlag (one_of option.now (rows_of (found_of command.now))) result }
{
    command.get_flag(option)
}

/// Whether an option stands among the words. One that has its default does not.
#[tactic(auto, using(crate::proofs::Rows::given_row))]
fn is_given(command: &ArgMatches, option: &str) -> bool
    ensures { result ≡ is_given option.now (rows_of (found_of command.now)) }
{
    is_from_words(command.value_source(option))
}

/// Whether a value came from the words. A default did not.
fn is_from_words(source: Option<ValueSource>) -> bool
    ensures { result ≡ is_from_words source }
{
    match source {
        Some(ValueSource::CommandLine) => true,
        _ => false,
    }
}

/// The number of an option, from `least` to `most`. `None` if it has none: its text has a sign, even a plus sign, or
/// another byte than digits, or the number is outside these limits.
fn number(command: &ArgMatches, option: &str, least: u32, most: u32) -> Option<u32>
    ensures within { IfSome result (λ n. (least ≤ n) × (n ≤ most)) }
    ensures given { IfSome result (IsNumber (first_of option.now (rows_of (found_of command.now)))) }
{
    within(unsigned(text(command, option)?)?, least, most)
}

/// The number of an option that need not be given, from `least` to `most`, if it is given. `None` if what is given is
/// no such number.
fn optional_number(command: &ArgMatches, option: &str, least: u32, most: u32) -> Option<Option<u32>>
    ensures within { IfSome result (λ number. IfSome number (λ n. (least ≤ n) × (n ≤ most))) }
    ensures given { IfSome result (IsOptionalNumber (first_of option.now (rows_of (found_of command.now)))) }
{
    if text(command, option).is_none() {
        return Some(None);
    }
    Some(Some(number(command, option, least, most)?))
}

/// The number of an option that need not be given, of 64 bits, if it is given. `None` if what is given is no such number.
fn optional_count(command: &ArgMatches, option: &str) -> Option<Option<u64>>
    ensures { IfSome result (IsOptionalNumber (first_of option.now (rows_of (found_of command.now)))) }
{
    match text(command, option) {
        None => Some(None),
        Some(text) => Some(Some(unsigned(text)?)),
    }
}

/// The number of an option that need not be given, from `least` to `most`, or `default` if none is given. `None` if what
/// is given is no such number.
fn number_or(command: &ArgMatches, option: &str, default: u32, least: u32, most: u32) -> Option<u32>
    ensures { IfSome result (IsNumberOr default (first_of option.now (rows_of (found_of command.now)))) }
{
    if text(command, option).is_none() {
        return Some(default);
    }
    number(command, option, least, most)
}

/// The number below 2^64 that a text writes in decimal digits alone, if it does.
#[tactic(auto, using(crate::proofs::Numbers::unsigned))]
fn unsigned(text: &str) -> Option<u64>
    ensures { IfSome result (IsNumber (Some text.now)) }
{
    match text.as_bytes() {
        [b'+', ..] => None,
        _ => text.parse().ok(),
    }
}

/// The number, if it is from `least` to `most`.
fn within(number: u64, least: u32, most: u32) -> Option<u32>
    ensures { result ≡ (if nat_le least number && nat_le number most then Some number else None) }
{
    if u64::from(least) <= number && number <= u64::from(most) {
        Some(number as u32)
    } else {
        None
    }
}
