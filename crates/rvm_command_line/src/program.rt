//! The words that the program takes, as they are described to `clap`.

ghost use Rattle.std.specs.Prelude.{◌≡◌, false, codes, IfErr, IfOk};
ghost use Rattle.clap.specs.Simple.{App, new_app, with_rule, with_subcommand};
ghost use Rattle.clap.specs.Walk.{Rule, rule_of};
ghost use Rattle.clap.specs.Words.{kind_of};
ghost use Rattle.clap.specs.declared.error.kind.ErrorKind.TheVariants as kind;
ghost use Rattle.rvm_command_line.specs.Made.{IsMade};
ghost use Rattle.rvm_command_line.specs.Program.{allowed, asm, audit, audit_journals, bounded, counted, debug, dis, flag, host, move, needed, needed_option, number, option, program, replay, run, script, several, signature, tell, top, with_addresses, with_board, with_command, with_default, with_explain, with_guest, with_hosting, with_journal, with_move, with_name, with_order, with_policy, with_profile, with_replay, with_report, with_status, with_trace, with_turns, with_verdict, with_watch, with_world};

use clap::builder::ValueParser;
use clap::{Arg, ArgAction, Command, Error};
use std::alloc::Global;

/// The version of the program.
pub const VERSION: &str = "0.1.0";

/// What the program does, in its help.
const ABOUT: &str = "\
Assembles, disassembles, runs and debugs guests of a small RISC-V board, and moves them between hosts";

/// The text below the help of `run`.
const RUN_HELP: &str = "\
Example: rvmove run hello.elf --steps 5000 --input keys.txt

Harts take turns of one instruction each. At the end standard error has `halted S` or `steps spent`.
With --stop-at-fault the run ends at the first trap whose handler cannot run, and standard error has it:
`fault: hart 0 cause 7 (store access fault) at 80000040 value 10000000: sb a4, 0(a5)`.
With --trace the file has a line for each step: its turn, its hart, the instruction and what it wrote.
With --signature the file has, after the last turn, eight hexadecimal digits a line for each word of RAM from
ADDR on. ADDR and LEN are decimal, or hexadecimal after 0x, and multiples of 4; all words must lie in RAM.
With --coverage the file has, after the last turn, the lines of `rvmove dis`, each after the number of steps that
ran its instruction. With --profile the file has, after the last turn, a line for each line of the file of
--symbols, which is what `nm -n` prints: how many steps the symbol took, and its name; `sort -rn` puts the
costliest first. With --save the file has the guest as it is after the last turn; a later run whose IMAGE is
that file goes on from there, with the harts and pages of the guest, whatever --harts and --pages say.
--signature, --coverage, --profile and --save exclude one another.
With `--input -`, standard input comes to the console as it is typed. With --journal FILE gets what happens to the
guest, as that of `rvmove host --journal`; `rvmove replay` does it again. Both exclude what looks at a run.
With --order a generator with the seed S draws the hart of each turn; the same S gives the same run.
With --orders the guest is run by the seeds 0 to N - 1, each time from its image, up to the first run whose
verdict is not 0. Standard output has what the guest sent in that run, standard error `order S` and how it
ended; or standard error has `N orders passed`. --orders excludes --order and what looks at a run.

The status:      halted 0  halted S  steps spent  fault  refused
                 0         0         0            0      1
  --verdict      0         3         4            5      1
  --exit-status  0         S         4            5      1
It is 2 for a fault of the command line. With --exit-status these 1, 2, 4 and 5 cannot be told from a
guest's own; with --verdict each means one thing. The two options exclude each other.";

/// The text below the help of `asm`.
const ASM_HELP: &str = "\
Example: rvmove asm hello.s hello.elf

The language is described in docs/ASSEMBLY.md.";

/// The text below the help of `dis`.
const DIS_HELP: &str = "\
Example: rvmove dis hello.elf

Each line has an address, the word there and its instruction. --harts and --pages change nothing.";

/// The text below the help of `debug`.
const DEBUG_HELP: &str = "\
Example: rvmove debug hello.elf < session.txt

Lines of a script, with numbers in decimal or 0x hexadecimal:
  step H [N]        hart H makes N steps, 1 if none is given
  input HEX         bytes come to the console
  drain N           takes at most N of the bytes that the guest sent
  break ADDR        sets a breakpoint
  clear ADDR        takes it away
  regs H            writes the registers of hart H
  mem ADDR LEN      writes bytes of RAM
  dis ADDR          writes the instruction at an address
  reg H NAME VALUE  sets a register of hart H
  poke ADDR HEX     writes bytes into RAM
With --extended also:
  turns N           N turns of all harts, one after the other, as in `rvmove run`
  find-fault N      the same, up to the first trap that the guest has no handler for
  csrs H            writes the control and status registers of hart H
  devices           writes what the timer, the console and the halt word hold
Blank lines and lines that begin with # are passed over.";

/// The text below the help of `script`.
const SCRIPT_HELP: &str = "\
Example: rvmove script hello.elf move.txt --hosts 3

Lines of a script: those of `rvmove debug`, and
  begin [HOST] [R L F]  begins to move the guest to a host
  move [HOST] [R L F]   moves it, from the beginning to the end
  copy                  sends a copy of the next page, or takes the move's next step
  resend                sends the last frame again
  abort                 gives the move up
  deliver K             the frame of place K, from 0, comes to its host
A leading letter A to H names the host that is asked, else it is the one that has the guest: A at first.
With more than two hosts `begin` and `move` name the one that gets the guest. It stops after R rounds of
copies (29), or once fewer than L pages are left (50) or more copies made than F times its pages (3).";

/// The text below the help of `move`.
const MOVE_HELP: &str = "\
Example: rvmove move hello.elf --steps 5000 --rounds 3

Standard output has what `rvmove run` would write with the same steps. At the end standard error has the
answers of both hosts, and with --verdict after them `halted S` or `steps spent`.
The guest is paused after R rounds of copies, or once fewer than L pages are left, or more copies made than
F times its pages.

The status:  halted 0  halted S  steps spent  refused, or the move failed
             0         0         0            1
  --verdict  0         3         4            1
It is 2 for a fault of the command line.";

/// The text below the help of `audit`.
const AUDIT_HELP: &str = "\
Example: rvmove audit hello.elf --steps 5000 --rounds 3 > order.txt

Standard output has one order of what both hosts did: a script that `rvmove script` takes.
The guest is paused after R rounds of copies, or once fewer than L pages are left, or more copies made than
F times its pages.";

/// The text below the help of `host`.
const HOST_HELP: &str = "\
Example: rvmove host A hello.elf --peers hosts.txt --control ./a.socket

FILE has a line for each host of the world, such as `A 127.0.0.1:7001`, in the order A, B, C. Each host is a
process; at one of them a guest begins, from an IMAGE, or as `rvmove run --save` left it. Standard output has
what the guest sends while it is here; with `--input -`, standard input comes to its console as it is typed.
Operators talk to the host by `rvmove tell`, at the socket of --control, which has a `/` if it is a path.
Without --secret all addresses must be of this machine (127.0.0.0/8 or ::1).

The status:  stopped  halted 0  halted S  did not begin, or standard output failed
             0        0         0         1
  --verdict  0        0         3         1
It is 2 for a fault of the command line.";

/// The text below the help of `tell`.
const TELL_HELP: &str = "\
Example: rvmove tell ./a.socket 'move B'

Lines, beside those of `rvmove debug`:
  move [HOST] [R L F]   moves the guest to a host: `moved` once it runs there
  status                the mode of the host, its connections and the turns that the guest made here
  stop [now]            ends the process; without `now` only while no guest is here
  begin [HOST] [R L F], copy, resend, abort   the steps of a move, as in `rvmove script`
  csrs H, devices       control and status registers, and devices, as in `rvmove debug --extended`
Where standard error is a terminal, it shows how far a move has come. The status is 0 if all that was asked
happened, 1 if something did not, 3 if an answer was lost: then ask for the status of the host.";

/// The text below the help of `replay`.
const REPLAY_HELP: &str = "\
Example: rvmove replay a.journal --image hello.elf

JOURNAL is what `rvmove host --journal` or `rvmove run --journal` wrote. The host is made anew, and does again what each line tells;
standard output has what the guest sent while it was there, standard error `replayed N events`. A line that
was changed is told, and ends the replay. A host that began without a guest has no IMAGE.

With --until the host does no more than the first N events, and no line behind them is looked at. With --script
the guest that is then at the host is handed to the debugger: standard output has the answers to the lines of
FILE, as `rvmove debug --extended` answers them, and nothing of what the guest sent before. FILE is - for
standard input.

With --turns the journals of all hosts of a world are taken, and one order of them is looked for, as by
`rvmove audit-journals`; --script gets the guest as it was after its first N turns, at whichever host that was.";

/// The text below the help of `audit-journals`.
const AUDIT_JOURNALS_HELP: &str = "\
Example: rvmove audit-journals a.journal b.journal --image hello.elf

Each JOURNAL is what `rvmove host --journal` wrote, 1 to 8 of them, each of another host of one world. A host
whose journal is not given has done nothing. The hosts are made anew and do again what their journals tell;
then one order of all events is looked for, in which each frame that came had been sent before.
Standard output has a line for each host and one for all; with --order it has the events in that order, as a
script that `rvmove script` takes. With --chart it has nothing: FILE gets a picture of the order in SVG, with
the turns of the guest at each host, and what was asked of its moves.

The status is 0 if there is such an order, 1 if there is none or if a journal is refused, 2 for a fault of the
command line, and 3 if there is none and the reason may be that a journal was cut off: it has no line `end`.";

/// A command that was made, or the error that there was no memory for it.
type Made<'a> = Result<Command<'a>, Error>;

/// The command line that the program takes. Fails only if memory runs out.
pub(crate) fn program<'a>(alloc: Global) -> Made<'a>
    ensures { IsMade result program }
{
    let program = with_command(alloc, bare_program(alloc), run_command(alloc));
    let program = with_command(alloc, program, asm_command(alloc));
    let program = with_command(alloc, program, dis_command(alloc));
    let program = with_command(alloc, program, debug_command(alloc));
    let program = with_command(alloc, program, script_command(alloc));
    let program = with_command(alloc, program, move_command(alloc));
    let program = with_command(alloc, program, audit_command(alloc));
    let program = with_command(alloc, program, host_command(alloc));
    let program = with_command(alloc, program, tell_command(alloc));
    let program = with_command(alloc, program, replay_command(alloc));
    with_command(alloc, program, audit_journals_command(alloc))
}

/// A program with one more command, which also takes `--explain`.
fn with_command<'a>(alloc: Global, program: Made<'a>, command: Made<'a>) -> Made<'a>
    ensures { (whole part : App) → IsMade program.entry whole → IsMade command.entry part
        → IsMade result (with_command whole part) }
{
    with_subcommand(program, explained_command(command, alloc))
}

/// A program with one more command.
fn with_subcommand<'a>(program: Made<'a>, command: Made<'a>) -> Made<'a>
    ensures { (whole part : App) → IsMade program.entry whole → IsMade command.entry part
        → IsMade result (with_subcommand whole part.top) }
{
    Ok(program?.subcommand(command?)?)
}

/// A command with this name, which takes no words yet. `about` says in one line what it does, `help` the rest.
fn new_command<'a>(alloc: Global, name: &'a str, about: &'a str, help: &'a str) -> Made<'a>
    ensures { IsMade result (new_app name.now) }
{
    Ok(Command::new(alloc, name).about(about).after_help(help))
}

/// A command with one more word.
fn with_arg<'a>(command: Made<'a>, arg: Arg<'a>) -> Made<'a>
    requires { arg.global ≡ false }
    ensures { (made : App) (rule : Rule) → IsMade command.entry made → rule_of arg.entry ≡ rule
        → IsMade result (with_rule made rule) }
{
    Ok(command?.arg(arg)?)
}

/// Adds to a command the flag by which its refusal is explained.
fn explained_command<'a>(command: Made<'a>, alloc: Global) -> Made<'a>
    ensures { (made : App) → IsMade command.entry made → IsMade result (with_explain made) }
{
    with_arg(command, explain_flag(alloc))
}

/// The flag `--explain`: whether a refusal is explained.
fn explain_flag<'a>(alloc: Global) -> Arg<'a>
    ensures rule { rule_of result ≡ flag (codes "explain") }
    ensures local { result.global ≡ false }
{
    let help = "Says after a refusal where its cause lies, what it is, and what to do";
    flag(alloc, "explain", help)
}

/// The program without its commands. It demands that a command is named.
fn bare_program<'a>(alloc: Global) -> Made<'a>
    ensures { IsMade result top }
{
    Ok(
        Command::new(alloc, "rvmove")
            .version(VERSION)
            .about(ABOUT)
            .subcommand_required(true)
            .arg_required_else_help(true),
    )
}

/// A word with this name that may be there. Help calls it `value`.
fn allowed<'a>(alloc: Global, id: &'a str, value: &'a str, help: &'a str) -> Arg<'a>
    ensures rule { rule_of result ≡ allowed id.now }
    ensures local { result.global ≡ false }
{
    Arg::new(alloc, id).value_name(value).help(help)
}

/// A word with this name that must be there.
fn needed<'a>(alloc: Global, id: &'a str, value: &'a str, help: &'a str) -> Arg<'a>
    ensures rule { rule_of result ≡ needed id.now }
    ensures local { result.global ≡ false }
{
    allowed(alloc, id, value, help).required(true)
}

/// One or more words with this name, as many as there are. Help calls each `value`.
fn several<'a>(alloc: Global, id: &'a str, value: &'a str, help: &'a str) -> Arg<'a>
    ensures rule { rule_of result ≡ several id.now }
    ensures local { result.global ≡ false }
{
    needed(alloc, id, value, help).num_args(1usize..)
}

/// A flag, `--name`.
fn flag<'a>(alloc: Global, name: &'a str, help: &'a str) -> Arg<'a>
    ensures rule { rule_of result ≡ flag name.now }
    ensures local { result.global ≡ false }
{
    Arg::new(alloc, name)
        .long(name)
        .action(ArgAction::SetTrue)
        .help(help)
}

/// An option with a text, `--name`. Help calls the text `value`.
fn option<'a>(alloc: Global, name: &'a str, value: &'a str, help: &'a str) -> Arg<'a>
    ensures rule { rule_of result ≡ option name.now }
    ensures local { result.global ≡ false }
{
    allowed(alloc, name, value, help).long(name)
}

/// An option with a text, which must be given.
fn needed_option<'a>(alloc: Global, name: &'a str, value: &'a str, help: &'a str) -> Arg<'a>
    ensures rule { rule_of result ≡ needed_option name.now }
    ensures local { result.global ≡ false }
{
    option(alloc, name, value, help).required(true)
}

/// An option with a number from `least` to `most`.
fn bounded<'a>(
    alloc: Global,
    name: &'a str,
    value: &'a str,
    least: u32,
    most: u32,
    help: &'a str,
) -> Arg<'a>
    ensures rule { rule_of result ≡ bounded name.now least most }
    ensures local { result.global ≡ false }
{
    let parser = ValueParser::signed(i64::from(least), i64::from(most));
    option(alloc, name, value, help).value_parser(parser)
}

/// An option that has this text if none is given.
fn with_default<'a>(option: Arg<'a>, default: &'a str) -> Arg<'a>
    ensures rule { rule_of result ≡ with_default default.now (rule_of option.entry) }
    ensures local { result.global ≡ option.entry.global }
{
    option.default_value(default)
}

/// An option with a number from 1 to `most`, which is `default` if none is given.
fn number<'a>(
    alloc: Global,
    name: &'a str,
    value: &'a str,
    default: &'a str,
    most: u32,
    help: &'a str,
) -> Arg<'a>
    ensures rule { rule_of result ≡ number name.now default.now most }
    ensures local { result.global ≡ false }
{
    with_default(bounded(alloc, name, value, 1, most, help), default)
}

/// The option `--input`: the file whose bytes come to the console.
fn input_option<'a>(alloc: Global) -> Arg<'a>
    ensures rule { rule_of result ≡ option (codes "input") }
    ensures local { result.global ≡ false }
{
    option(
        alloc,
        "input",
        "FILE",
        "The file whose bytes come to the guest's console",
    )
}

/// The flag `--verdict`: whether the status tells how the guest ended.
fn verdict_flag<'a>(alloc: Global) -> Arg<'a>
    ensures rule { rule_of result ≡ flag (codes "verdict") }
    ensures local { result.global ≡ false }
{
    flag(alloc, "verdict", "The status tells how the guest ended")
}

/// Adds to a command the words for the form of an image and for its board.
fn board_command<'a>(command: Made<'a>, alloc: Global) -> Made<'a>
    ensures { (made : App) → IsMade command.entry made → IsMade result (with_board made) }
{
    let command = with_arg(
        command,
        flag(
            alloc,
            "raw",
            "IMAGE is plain bytes, to be placed at 0x80000000",
        ),
    );
    let command = with_arg(
        command,
        number(alloc, "harts", "N", "1", 8, "How many harts, 1 to 8"),
    );
    with_arg(
        command,
        number(
            alloc,
            "pages",
            "N",
            "256",
            4096,
            "How many pages of 4096 bytes of RAM, 1 to 4096",
        ),
    )
}

/// Adds to a command the words for a guest.
fn guest_command<'a>(command: Made<'a>, alloc: Global) -> Made<'a>
    ensures { (made : App) → IsMade command.entry made → IsMade result (with_guest made) }
{
    let help = "The image: an ELF file, or plain bytes";
    board_command(
        with_arg(command, needed(alloc, "image", "IMAGE", help)),
        alloc,
    )
}

/// Adds to a command the words for a guest and for the hosts of a world.
fn world_command<'a>(command: Made<'a>, alloc: Global) -> Made<'a>
    ensures { (made : App) → IsMade command.entry made → IsMade result (with_world made) }
{
    let command = with_arg(guest_command(command, alloc), hosts_option(alloc));
    with_arg(command, stream_option(alloc))
}

/// The option `--hosts`: the number of hosts.
fn hosts_option<'a>(alloc: Global) -> Arg<'a>
    ensures rule { rule_of result ≡ with_default (codes "2") (bounded (codes "hosts") 2 8) }
    ensures local { result.global ≡ false }
{
    let hosts = bounded(alloc, "hosts", "N", 2, 8, "How many hosts, 2 to 8");
    with_default(hosts, "2")
}

/// The option `--stream` of `script`: the version of the streams between the hosts.
fn stream_option<'a>(alloc: Global) -> Arg<'a>
    ensures rule { rule_of result ≡ bounded (codes "stream") 1 3 }
    ensures local { result.global ≡ false }
{
    let help = "The version of their streams, 1 to 3; if not given, 1 for two hosts and 3 for more";
    bounded(alloc, "stream", "V", 1, 3, help)
}

/// Adds to a command the words that say when a guest that moves is paused.
fn policy_command<'a>(command: Made<'a>, alloc: Global) -> Made<'a>
    ensures { (made : App) → IsMade command.entry made → IsMade result (with_policy made) }
{
    let command = with_arg(
        command,
        number(
            alloc,
            "rounds",
            "R",
            "29",
            1000,
            "Pauses the guest after R rounds of copies, 1 to 1000",
        ),
    );
    let command = with_arg(
        command,
        number(
            alloc,
            "left",
            "L",
            "50",
            4096,
            "Pauses it once fewer than L pages are left, 1 to 4096",
        ),
    );
    with_arg(
        command,
        number(
            alloc,
            "factor",
            "F",
            "3",
            100,
            "Pauses it once more copies are made than F times its pages, 1 to 100",
        ),
    )
}

/// Adds to a command the words for a guest, its turns and its move.
fn moving_command<'a>(command: Made<'a>, alloc: Global) -> Made<'a>
    ensures { (made : App) → IsMade command.entry made → IsMade result (with_move made) }
{
    let command = with_arg(
        guest_command(command, alloc),
        number(
            alloc,
            "steps",
            "N",
            "10000",
            100_000,
            "How many turns at most, 1 to 100000",
        ),
    );
    with_arg(
        policy_command(command, alloc),
        number(
            alloc,
            "stream",
            "V",
            "1",
            3,
            "The version of the streams, 1 to 3",
        ),
    )
}

/// Adds to a command the flag by which its status tells how the guest ended.
fn judged_command<'a>(command: Made<'a>, alloc: Global) -> Made<'a>
    ensures { (made : App) → IsMade command.entry made → IsMade result (with_verdict made) }
{
    with_arg(command, verdict_flag(alloc))
}

/// The flag `--exit-status`: whether the status is the one with which the guest halted.
fn exit_status_flag<'a>(alloc: Global) -> Arg<'a>
    ensures rule { rule_of result ≡ flag (codes "exit-status") }
    ensures local { result.global ≡ false }
{
    let help = "The status is that with which the guest halted";
    flag(alloc, "exit-status", help)
}

/// Adds to a command the flags that say what its status tells.
fn status_command<'a>(command: Made<'a>, alloc: Global) -> Made<'a>
    ensures { (made : App) → IsMade command.entry made → IsMade result (with_status made) }
{
    let command = with_arg(command, verdict_flag(alloc));
    with_arg(command, exit_status_flag(alloc))
}

/// The command `run`, with the words that it takes.
fn run_command<'a>(alloc: Global) -> Made<'a>
    ensures { IsMade result run }
{
    let run = new_command(
        alloc,
        "run",
        "Runs a guest, and writes what it sends",
        RUN_HELP,
    );
    let run = watch_command(status_command(turns_command(run, alloc), alloc), alloc);
    journal_command(order_command(report_command(run, alloc), alloc), alloc)
}

/// Adds to a command the words for a guest, its turns and its input.
fn turns_command<'a>(command: Made<'a>, alloc: Global) -> Made<'a>
    ensures { (made : App) → IsMade command.entry made → IsMade result (with_turns made) }
{
    let command = with_arg(guest_command(command, alloc), steps_option(alloc));
    with_arg(command, input_option(alloc))
}

/// The option `--steps` of `run`: the most turns.
fn steps_option<'a>(alloc: Global) -> Arg<'a>
    ensures rule { rule_of result ≡ number (codes "steps") (codes "1000000") 1000000000 }
    ensures local { result.global ≡ false }
{
    let help = "How many turns at most, 1 to 1000000000";
    number(alloc, "steps", "N", "1000000", 1_000_000_000, help)
}

/// Adds to a command the words of a report.
fn report_command<'a>(command: Made<'a>, alloc: Global) -> Made<'a>
    ensures { (made : App) → IsMade command.entry made → IsMade result (with_report made) }
{
    let command = with_arg(command, signature_option(alloc));
    let command = with_arg(command, coverage_option(alloc));
    with_arg(profile_command(command, alloc), save_option(alloc))
}

/// The option `--save`: the file that gets the guest once the run has ended.
fn save_option<'a>(alloc: Global) -> Arg<'a>
    ensures rule { rule_of result ≡ option (codes "save") }
    ensures local { result.global ≡ false }
{
    let help = "The file that gets the guest at the end; as IMAGE it is run from there on";
    option(alloc, "save", "FILE", help)
}

/// Adds to a command the words of a profile.
fn profile_command<'a>(command: Made<'a>, alloc: Global) -> Made<'a>
    ensures { (made : App) → IsMade command.entry made → IsMade result (with_profile made) }
{
    let command = with_arg(command, profile_option(alloc));
    with_arg(command, symbols_option(alloc))
}

/// The option `--profile`: the file that gets how many steps each symbol took.
fn profile_option<'a>(alloc: Global) -> Arg<'a>
    ensures rule { rule_of result ≡ option (codes "profile") }
    ensures local { result.global ≡ false }
{
    let help = "The file that gets how many steps each symbol took, at the end; wants --symbols";
    option(alloc, "profile", "FILE", help)
}

/// The option `--symbols`: the file of the symbols of a profile.
fn symbols_option<'a>(alloc: Global) -> Arg<'a>
    ensures rule { rule_of result ≡ option (codes "symbols") }
    ensures local { result.global ≡ false }
{
    let help = "The file of the symbols: what nm -n prints of the image";
    option(alloc, "symbols", "FILE", help)
}

/// Adds to a command the words for the order of its harts.
fn order_command<'a>(command: Made<'a>, alloc: Global) -> Made<'a>
    ensures { (made : App) → IsMade command.entry made → IsMade result (with_order made) }
{
    let command = with_arg(command, seed_option(alloc));
    with_arg(command, orders_option(alloc))
}

/// The option `--orders`: the number of seeds by which the guest is run, one after the other.
fn orders_option<'a>(alloc: Global) -> Arg<'a>
    ensures rule { rule_of result ≡ bounded (codes "orders") 1 1000000 }
    ensures local { result.global ≡ false }
{
    let help =
        "Runs the guest by N seeds from 0 on, up to the first run that fails, 1 to 1000000; wants --verdict";
    bounded(alloc, "orders", "N", 1, 1_000_000, help)
}

/// The option `--order`: the seed by which the hart of each turn is drawn.
fn seed_option<'a>(alloc: Global) -> Arg<'a>
    ensures rule { rule_of result ≡ bounded (codes "order") 0 4294967295 }
    ensures local { result.global ≡ false }
{
    let help = "The seed by which the hart of each turn is drawn, 0 to 4294967295";
    bounded(alloc, "order", "S", 0, u32::MAX, help)
}

/// The option `--coverage`: the file that gets how often each word of the image ran.
fn coverage_option<'a>(alloc: Global) -> Arg<'a>
    ensures rule { rule_of result ≡ option (codes "coverage") }
    ensures local { result.global ≡ false }
{
    let help = "The file that gets the lines of dis, each after how often it ran, at the end";
    option(alloc, "coverage", "FILE", help)
}

/// The option `--signature`: a file, and the words of RAM that it gets once the run has ended.
fn signature_option<'a>(alloc: Global) -> Arg<'a>
    ensures rule { rule_of result ≡ signature }
    ensures local { result.global ≡ false }
{
    Arg::new(alloc, "signature")
        .long("signature")
        .value_names(&["FILE", "ADDR", "LEN"])
        .help("The file that gets the words of RAM from ADDR on, LEN bytes, at the end")
}

/// Adds to a command the words that say what is looked at while the guest runs.
fn watch_command<'a>(command: Made<'a>, alloc: Global) -> Made<'a>
    ensures { (made : App) → IsMade command.entry made → IsMade result (with_watch made) }
{
    trace_command(with_arg(command, stop_at_fault_flag(alloc)), alloc)
}

/// Adds to a command the words of a trace.
fn trace_command<'a>(command: Made<'a>, alloc: Global) -> Made<'a>
    ensures { (made : App) → IsMade command.entry made → IsMade result (with_trace made) }
{
    let command = with_arg(command, trace_option(alloc));
    let command = with_arg(command, trace_from_option(alloc));
    with_arg(command, trace_to_option(alloc))
}

/// The flag `--stop-at-fault`: whether the run ends at the first trap that the guest has no handler for.
fn stop_at_fault_flag<'a>(alloc: Global) -> Arg<'a>
    ensures rule { rule_of result ≡ flag (codes "stop-at-fault") }
    ensures local { result.global ≡ false }
{
    let help = "Ends at the first trap whose handler cannot run";
    flag(alloc, "stop-at-fault", help)
}

/// The option `--trace`: the file that gets a line for each step.
fn trace_option<'a>(alloc: Global) -> Arg<'a>
    ensures rule { rule_of result ≡ option (codes "trace") }
    ensures local { result.global ≡ false }
{
    option(
        alloc,
        "trace",
        "FILE",
        "The file that gets a line for each step",
    )
}

/// The option `--trace-from`: the first turn of the trace.
fn trace_from_option<'a>(alloc: Global) -> Arg<'a>
    ensures rule { rule_of result ≡ bounded (codes "trace-from") 0 999999999 }
    ensures local { result.global ≡ false }
{
    let help = "The first turn of the trace, 0 if none is given";
    bounded(alloc, "trace-from", "N", 0, 999_999_999, help)
}

/// The option `--trace-to`: the last turn of the trace.
fn trace_to_option<'a>(alloc: Global) -> Arg<'a>
    ensures rule { rule_of result ≡ bounded (codes "trace-to") 0 999999999 }
    ensures local { result.global ≡ false }
{
    let help = "The last turn of the trace, that of the run if none is given";
    bounded(alloc, "trace-to", "N", 0, 999_999_999, help)
}

/// The command `asm`, with the words that it takes.
fn asm_command<'a>(alloc: Global) -> Made<'a>
    ensures { IsMade result asm }
{
    let command = new_command(alloc, "asm", "Assembles a text into an ELF file", ASM_HELP);
    let command = with_arg(
        command,
        needed(alloc, "source", "SRC", "The file of the assembly text"),
    );
    with_arg(
        command,
        needed(alloc, "output", "OUT", "The ELF file that is written"),
    )
}

/// The command `dis`, with the words that it takes.
fn dis_command<'a>(alloc: Global) -> Made<'a>
    ensures { IsMade result dis }
{
    let dis = new_command(
        alloc,
        "dis",
        "Writes the instructions of an image",
        DIS_HELP,
    );
    guest_command(dis, alloc)
}

/// The command `debug`, with the words that it takes.
fn debug_command<'a>(alloc: Global) -> Made<'a>
    ensures { IsMade result debug }
{
    let debug = new_command(
        alloc,
        "debug",
        "Answers the lines of a debugger's script from standard input",
        DEBUG_HELP,
    );
    let help = "Takes more lines than those of a script";
    with_arg(guest_command(debug, alloc), flag(alloc, "extended", help))
}

/// The command `script`, with the words that it takes.
fn script_command<'a>(alloc: Global) -> Made<'a>
    ensures { IsMade result script }
{
    let script = new_command(
        alloc,
        "script",
        "Answers the lines of a script for hosts between which a guest moves",
        SCRIPT_HELP,
    );
    let help = "The file of the script";
    with_arg(
        world_command(script, alloc),
        needed(alloc, "script", "FILE", help),
    )
}

/// The command `move`, with the words that it takes.
fn move_command<'a>(alloc: Global) -> Made<'a>
    ensures { IsMade result move }
{
    let command = new_command(
        alloc,
        "move",
        "Moves a guest from one host to another while it runs, and writes what it sends",
        MOVE_HELP,
    );
    let command = with_arg(moving_command(command, alloc), bandwidth_option(alloc));
    judged_command(command, alloc)
}

/// The command `audit`, with the words that it takes.
fn audit_command<'a>(alloc: Global) -> Made<'a>
    ensures { IsMade result audit }
{
    let audit = new_command(
        alloc,
        "audit",
        "Moves a guest as `move` does, and writes one order of what both hosts did",
        AUDIT_HELP,
    );
    moving_command(audit, alloc)
}

/// Adds to a command the words that say where a host is reached, and by whom.
fn addresses_command<'a>(command: Made<'a>, alloc: Global) -> Made<'a>
    ensures { (made : App) → IsMade command.entry made → IsMade result (with_addresses made) }
{
    let command = with_arg(
        command,
        needed_option(
            alloc,
            "peers",
            "FILE",
            "The file of the world's hosts: a line `NAME ADDRESS:PORT` for each, 2 to 8",
        ),
    );
    let command = with_arg(
        command,
        option(
            alloc,
            "listen",
            "ADDR",
            "The address at which it listens for other hosts, if it is not that of its name in FILE",
        ),
    );
    let command = with_arg(
        command,
        needed_option(
            alloc,
            "control",
            "SOCKET",
            "Where it listens for operators: the path of a Unix socket, or an address of this machine",
        ),
    );
    with_arg(
        command,
        option(
            alloc,
            "secret",
            "FILE",
            "The file of the secret that the hosts of the world share",
        ),
    )
}

/// Adds to a command the words for the name of a host, and for the image of a guest, which may be missing.
fn named_command<'a>(command: Made<'a>, alloc: Global) -> Made<'a>
    ensures { (made : App) → IsMade command.entry made → IsMade result (with_name made) }
{
    let command = with_arg(
        command,
        needed(
            alloc,
            "name",
            "NAME",
            "The name of this host in the file of the world's hosts, A to H",
        ),
    );
    with_arg(
        command,
        allowed(
            alloc,
            "image",
            "IMAGE",
            "The image of the guest that begins here, if one does: an ELF file, or plain bytes",
        ),
    )
}

/// The option `--patience`: the number of milliseconds that a move waits for an answer.
fn patience_option<'a>(alloc: Global) -> Arg<'a>
    ensures rule { rule_of result ≡ number (codes "patience") (codes "10000") 1000000000 }
    ensures local { result.global ≡ false }
{
    let help = "Gives a move up after so many milliseconds without an answer, 1 to 1000000000";
    number(alloc, "patience", "MS", "10000", 1_000_000_000, help)
}

/// The option `--rate`: the most turns that a guest makes in a second.
fn rate_option<'a>(alloc: Global) -> Arg<'a>
    ensures rule { rule_of result ≡ bounded (codes "rate") 1 1000000000 }
    ensures local { result.global ≡ false }
{
    let help =
        "How many turns the guest makes in a second at most, 1 to 1000000000; if not given, as many as it can";
    bounded(alloc, "rate", "N", 1, 1_000_000_000, help)
}

/// The option `--bandwidth`: the most megabytes that a move sends in a second.
fn bandwidth_option<'a>(alloc: Global) -> Arg<'a>
    ensures rule { rule_of result ≡ bounded (codes "bandwidth") 1 1000000 }
    ensures local { result.global ≡ false }
{
    let help =
        "How many megabytes a move sends in a second at most, 1 to 1000000; if not given, as many as it can";
    bounded(alloc, "bandwidth", "MB", 1, 1_000_000, help)
}

/// The flag `--until-halt`: whether the process of a host ends once the guest has halted there.
fn until_halt_flag<'a>(alloc: Global) -> Arg<'a>
    ensures rule { rule_of result ≡ flag (codes "until-halt") }
    ensures local { result.global ≡ false }
{
    flag(alloc, "until-halt", "Ends once the guest has halted here")
}

/// Adds to a command the words that say how a host works.
fn hosting_command<'a>(command: Made<'a>, alloc: Global) -> Made<'a>
    ensures { (made : App) → IsMade command.entry made → IsMade result (with_hosting made) }
{
    let command = with_arg(command, input_option(alloc));
    let command = with_arg(command, patience_option(alloc));
    let command = with_arg(command, rate_option(alloc));
    let command = with_arg(command, bandwidth_option(alloc));
    with_arg(command, until_halt_flag(alloc))
}

/// Adds to a command the option `--journal`: the file of the journal.
fn journal_command<'a>(command: Made<'a>, alloc: Global) -> Made<'a>
    ensures { (made : App) → IsMade command.entry made → IsMade result (with_journal made) }
{
    with_arg(
        command,
        option(
            alloc,
            "journal",
            "FILE",
            "The file of the journal, in which what happens to the guest here has its lines",
        ),
    )
}

/// The command `host`, with the words that it takes.
fn host_command<'a>(alloc: Global) -> Made<'a>
    ensures { IsMade result host }
{
    let host = new_command(
        alloc,
        "host",
        "Runs a host of a world whose hosts are processes, between which a guest moves",
        HOST_HELP,
    );
    let host = board_command(named_command(host, alloc), alloc);
    let host = hosting_command(addresses_command(host, alloc), alloc);
    judged_command(journal_command(host, alloc), alloc)
}

/// The command `tell`, with the words that it takes.
fn tell_command<'a>(alloc: Global) -> Made<'a>
    ensures { IsMade result tell }
{
    let command = new_command(
        alloc,
        "tell",
        "Tells a host lines of an operator, and writes its answers",
        TELL_HELP,
    );
    let command = with_arg(
        command,
        needed(
            alloc,
            "socket",
            "SOCKET",
            "What the host was given by --control: a path, which has a `/`, or an address",
        ),
    );
    with_arg(
        command,
        allowed(
            alloc,
            "line",
            "LINE",
            "The line; without it, those of standard input",
        ),
    )
}

/// The command `replay`, with the words that it takes.
fn replay_command<'a>(alloc: Global) -> Made<'a>
    ensures { IsMade result replay }
{
    let replay = new_command(
        alloc,
        "replay",
        "Does again what the journals of hosts tell, and writes what the guest sent",
        REPLAY_HELP,
    );
    let help = "The file of the journal; with --turns the files of 1 to 8, each of another host";
    let journal = several(alloc, "journal", "JOURNAL", help);
    let help = "The image of the guest with which the host began; --turns wants it";
    let image = option(alloc, "image", "IMAGE", help);
    replay_options(with_arg(with_arg(replay, journal), image), alloc)
}

/// Adds to a command the words that say how far journals are replayed, and what is asked of their guest then.
fn replay_options<'a>(command: Made<'a>, alloc: Global) -> Made<'a>
    ensures { (made : App) → IsMade command.entry made → IsMade result (with_replay made) }
{
    let command = with_arg(command, until_option(alloc));
    let command = with_arg(command, replayed_turns_option(alloc));
    with_arg(command, session_option(alloc))
}

/// The option `--turns` of `replay`: how many turns the guest makes again, at whichever host it made them.
fn replayed_turns_option<'a>(alloc: Global) -> Arg<'a>
    ensures rule { rule_of result ≡ bounded (codes "turns") 1 4294967295 }
    ensures local { result.global ≡ false }
{
    let help =
        "How many turns are made again, at all hosts together, 1 to 4294967295; wants --script";
    bounded(alloc, "turns", "N", 1, u32::MAX, help)
}

/// The option `--until` of `replay`: the most events that are done.
fn until_option<'a>(alloc: Global) -> Arg<'a>
    ensures rule { rule_of result ≡ counted (codes "until") }
    ensures local { result.global ≡ false }
{
    let help = "How many events of the journal are done at most, 0 to 18446744073709551615";
    let parser = ValueParser::unsigned(0, u64::MAX);
    option(alloc, "until", "N", help).value_parser(parser)
}

/// The option `--script` of `replay`: the file of the debugger's session.
fn session_option<'a>(alloc: Global) -> Arg<'a>
    ensures rule { rule_of result ≡ option (codes "script") }
    ensures local { result.global ≡ false }
{
    let help = "The lines of the debugger that are answered then; - is standard input";
    option(alloc, "script", "FILE", help)
}

/// The command `audit-journals`, with the words that it takes.
fn audit_journals_command<'a>(alloc: Global) -> Made<'a>
    ensures { IsMade result audit_journals }
{
    let command = new_command(
        alloc,
        "audit-journals",
        "Looks for one order of what the journals of a world's hosts tell",
        AUDIT_JOURNALS_HELP,
    );
    let command = with_arg(command, journals_argument(alloc));
    let command = with_arg(command, journals_image_option(alloc));
    let command = with_arg(command, order_flag(alloc));
    with_arg(command, chart_option(alloc))
}

/// The words of `audit-journals` that name the files of journals.
fn journals_argument<'a>(alloc: Global) -> Arg<'a>
    ensures rule { rule_of result ≡ several (codes "journal") }
    ensures local { result.global ≡ false }
{
    let help = "The files of the journals, 1 to 8, each of another host";
    several(alloc, "journal", "JOURNAL", help)
}

/// The option `--image` of `audit-journals`: the image of the guest that moves between the hosts.
fn journals_image_option<'a>(alloc: Global) -> Arg<'a>
    ensures rule { rule_of result ≡ needed_option (codes "image") }
    ensures local { result.global ≡ false }
{
    let help = "The image of the guest that moves between the hosts";
    needed_option(alloc, "image", "IMAGE", help)
}

/// The flag `--order`: whether the events are written in their order.
fn order_flag<'a>(alloc: Global) -> Arg<'a>
    ensures rule { rule_of result ≡ flag (codes "order") }
    ensures local { result.global ≡ false }
{
    let help = "Writes the events in their order, in place of a line for each host";
    flag(alloc, "order", help)
}

/// The option `--chart`: the file to which a chart of the order is written.
fn chart_option<'a>(alloc: Global) -> Arg<'a>
    ensures rule { rule_of result ≡ option (codes "chart") }
    ensures local { result.global ≡ false }
{
    let help = "Writes a chart of the order to FILE, in place of a line for each host";
    option(alloc, "chart", "FILE", help)
}
