//! What a command line asks for.

ghost use Rattle.std.specs.Prelude.{◌≡◌, ◌≤◌, false};
ghost use Rattle.std.specs.Option.{ForSome};
ghost use Rattle.std.specs.Str.{bytes_eq};

use arrayvec::ArrayVec;

/// What a command line asks for.
#[derive(Debug, Drop)]
pub struct CommandLine<'a> {
    /// The command, with its arguments.
    pub arguments: Arguments<'a>,
    /// Whether the report of a refusal is followed by lines that say where its cause lies, what it is, and what to do.
    pub explain: bool,
}

/// The command that a command line asks for, with its arguments.
#[derive(Debug, Drop)]
pub enum Arguments<'a> {
    Run(RunArguments<'a>),
    Live(LiveArguments<'a>),
    Orders(OrdersArguments<'a>),
    Asm(AsmArguments<'a>),
    Dis(DisArguments<'a>),
    Debug(DebugArguments<'a>),
    Script(ScriptArguments<'a>),
    Move(MoveArguments<'a>),
    Audit(MoveArguments<'a>),
    Host(HostArguments<'a>),
    Tell(TellArguments<'a>),
    Replay(ReplayArguments<'a>),
    ReplayTurns(ReplayTurnsArguments<'a>),
    AuditJournals(AuditJournalsArguments<'a>),
}

/// A guest: the file of its image, and its board. Each number is within its limits.
#[derive(Debug, Drop)]
pub struct GuestArguments<'a> {
    /// The file of the image.
    pub image: &'a str,
    /// Whether the image is plain bytes, which are placed at 0x80000000, and not an ELF file.
    pub raw: bool,
    /// The number of harts, 1 to 8.
    pub harts: u32,
    /// The number of pages of RAM, each of 4096 bytes, 1 to 4096.
    pub pages: u32,
    ghost harts_allowed: { (1 ≤ harts) × (harts ≤ 8) },
    ghost pages_allowed: { (1 ≤ pages) × (pages ≤ 4096) },
}

/// What the status of `rvmove run` tells of a run that ended.
#[derive(Clone, Copy, Debug, PartialEq, Eq)]
pub enum StatusOf {
    /// The status tells that the command was done: 0, however the run ended.
    Command,
    /// The status is the verdict: 0 if the guest halted with 0, 3 if it halted with another status, 4 if all steps were
    /// spent, 5 if the run ended at a fault.
    Verdict,
    /// The status is the one with which the guest halted, 0 to 255, or 4 if all steps were spent, or 5 if the run ended
    /// at a fault.
    Guest,
}

/// The arguments of `rvmove run`.
#[derive(Debug, Drop)]
pub struct RunArguments<'a> {
    pub guest: GuestArguments<'a>,
    /// The file whose bytes come to the console, if any.
    pub input: Option<&'a str>,
    /// The most turns that the run makes, 1 to 1000000000.
    pub steps: u32,
    /// What the status of the program tells.
    pub status: StatusOf,
    /// Whether the run ends at the first trap that the guest has no handler for.
    pub stop_at_fault: bool,
    /// What is traced of the run, if anything.
    pub trace: Option<TraceArguments<'a>>,
    /// What is reported of the run after its last turn, if anything.
    pub report: Option<ReportArguments<'a>>,
    /// The seed by which the hart of each turn is drawn, if one is given. Without one the harts take turns in the order
    /// of their numbers.
    pub seed: Option<u32>,
    ghost steps_allowed: { (1 ≤ steps) × (steps ≤ 1000000000) },
}

/// The arguments of a live run: of `rvmove run --input -`, whose guest gets what is typed as it comes, and of `rvmove run
/// --journal`, which keeps a journal of what happens to the guest, as a host does.
#[derive(Debug, Drop)]
pub struct LiveArguments<'a> {
    pub guest: GuestArguments<'a>,
    /// The file whose bytes come to the console, if any; `-` is standard input.
    pub input: Option<&'a str>,
    /// The file of the journal, if one is kept.
    pub journal: Option<&'a str>,
    /// The most turns that the run makes, 1 to 1000000000, if there is a limit. Without one it ends once the guest halts.
    pub steps: Option<u32>,
    /// What the status of the program tells.
    pub status: StatusOf,
    ghost steps_allowed: { ForSome steps (λ n. (1 ≤ n) × (n ≤ 1000000000)) },
}

/// The arguments of `rvmove run --orders`, whose guest is run by the seeds 0, 1 and so on, each time from its image.
#[derive(Debug, Drop)]
pub struct OrdersArguments<'a> {
    pub guest: GuestArguments<'a>,
    /// The file whose bytes come to the console of each run, if any.
    pub input: Option<&'a str>,
    /// The most turns that a run makes, 1 to 1000000000.
    pub steps: u32,
    /// Whether a run ends at the first trap that the guest has no handler for.
    pub stop_at_fault: bool,
    /// The number of seeds, 1 to 1000000.
    pub orders: u32,
    ghost steps_allowed: { (1 ≤ steps) × (steps ≤ 1000000000) },
    ghost orders_allowed: { (1 ≤ orders) × (orders ≤ 1000000) },
}

/// The trace of a run. Turns are counted from 0.
#[derive(Debug, Drop)]
pub struct TraceArguments<'a> {
    /// The file that gets a line for each step.
    pub file: &'a str,
    /// The first turn that has a line.
    pub from: u32,
    /// The last turn that has a line.
    pub to: u32,
}

/// A report on a run, which is written after its last turn.
#[derive(Debug, Drop)]
pub struct ReportArguments<'a> {
    /// The file that gets the report.
    pub file: &'a str,
    /// What is reported.
    pub report: Report<'a>,
}

/// What is reported of a run.
#[derive(Clone, Copy, Debug, PartialEq, Eq)]
pub enum Report<'a> {
    /// The words of RAM in a range: a line of eight hexadecimal digits for each.
    Signature(WordRange),
    /// How often each word of the image ran: the lines that `rvmove dis` lists, each after a number.
    Coverage,
    /// How many steps each symbol took: a line for each.
    Profile {
        /// The file of the symbols: the lines of `nm -n`.
        symbols: &'a str,
    },
    /// The guest as the run left it, from which `rvmove run` goes on: the frames that a move of it sends.
    SavedGuest,
}

/// The words of a range of addresses.
#[derive(Clone, Copy, Debug, PartialEq, Eq)]
pub struct WordRange {
    /// The address of the first word.
    pub from: u32,
    /// The length of the range in bytes; four bytes are a word.
    pub length: u32,
}

/// The arguments of `rvmove asm`.
#[derive(Debug, Drop)]
pub struct AsmArguments<'a> {
    /// The file of the text.
    pub source: &'a str,
    /// The ELF file that is written. Its name is another than that of the text.
    pub output: &'a str,
    ghost different: { bytes_eq source.now output.now ≡ false },
}

/// The arguments of `rvmove dis`.
#[derive(Debug, Drop)]
pub struct DisArguments<'a> {
    /// The file of the image.
    pub image: &'a str,
    /// Whether the image is plain bytes, which stand at 0x80000000, and not an ELF file.
    pub raw: bool,
}

/// The arguments of `rvmove debug`.
#[derive(Debug, Drop)]
pub struct DebugArguments<'a> {
    pub guest: GuestArguments<'a>,
    /// Whether the lines of an extended session are taken, beside those of a script.
    pub extended: bool,
}

/// The arguments of `rvmove script`.
#[derive(Debug, Drop)]
pub struct ScriptArguments<'a> {
    pub guest: GuestArguments<'a>,
    /// The file of the script.
    pub script: &'a str,
    /// The number of hosts, 2 to 8.
    pub hosts: u32,
    /// The version of the streams between the hosts, 1 to 3, if one is given.
    pub stream: Option<u32>,
    ghost hosts_allowed: { (2 ≤ hosts) × (hosts ≤ 8) },
    ghost stream_allowed: { ForSome stream (λ version. (1 ≤ version) × (version ≤ 3)) },
}

/// The arguments of `rvmove move` and of `rvmove audit`.
#[derive(Debug, Drop)]
pub struct MoveArguments<'a> {
    pub guest: GuestArguments<'a>,
    /// The most turns that the guest makes, 1 to 100000.
    pub steps: u32,
    /// The number of rounds of copies after which the guest is paused, 1 to 1000.
    pub rounds: u32,
    /// The guest is paused once fewer pages than this are left, 1 to 4096.
    pub left: u32,
    /// The guest is paused once more copies are made than this many times its pages, 1 to 100.
    pub factor: u32,
    /// The version of the streams, 1 to 3.
    pub stream: u32,
    /// The most megabytes of pages, each of 1000000 bytes, that `move` copies in a second while the guest runs, 1 to 1000000,
    /// if there is a limit; of `audit`, which has no such option, none.
    pub bandwidth: Option<u32>,
    /// Whether the status of `move` tells how the guest's turns ended; of `audit`, which has no such option, false.
    pub verdict: bool,
    ghost steps_allowed: { (1 ≤ steps) × (steps ≤ 100000) },
    ghost rounds_allowed: { (1 ≤ rounds) × (rounds ≤ 1000) },
    ghost left_allowed: { (1 ≤ left) × (left ≤ 4096) },
    ghost factor_allowed: { (1 ≤ factor) × (factor ≤ 100) },
    ghost stream_allowed: { (1 ≤ stream) × (stream ≤ 3) },
    ghost bandwidth_allowed: { ForSome bandwidth (λ b. (1 ≤ b) × (b ≤ 1000000)) },
}

/// The arguments of `rvmove host`.
#[derive(Debug, Drop)]
pub struct HostArguments<'a> {
    /// The name of the host, as the file of the world's hosts has it.
    pub name: &'a str,
    /// The file of the world's hosts.
    pub peers: &'a str,
    /// The guest that begins at this host, if one does.
    pub guest: Option<GuestArguments<'a>>,
    /// The address at which the host listens for other hosts, if it is not the one that the file has for its name.
    pub listen: Option<&'a str>,
    /// Where the host listens for operators: the path of a Unix socket, which has a `/`, or an address.
    pub control: &'a str,
    /// The file of the secret that the hosts of the world share, if they share one.
    pub secret: Option<&'a str>,
    /// The file whose bytes come to the console, if any.
    pub input: Option<&'a str>,
    /// The file of the host's journal, if it keeps one.
    pub journal: Option<&'a str>,
    /// The number of milliseconds that a move waits for an answer before it is given up, 1 to 1000000000.
    pub patience: u32,
    /// The most turns that are made in a second, 1 to 1000000000, if there is a limit.
    pub rate: Option<u32>,
    /// The most megabytes, each of 1000000 bytes, that a move sends in a second while the guest runs, 1 to 1000000, if there is
    /// a limit.
    pub bandwidth: Option<u32>,
    /// Whether the process ends once the guest has halted here.
    pub until_halt: bool,
    /// Whether the status tells how the guest ended here.
    pub verdict: bool,
    ghost patience_allowed: { (1 ≤ patience) × (patience ≤ 1000000000) },
    ghost rate_allowed: { ForSome rate (λ r. (1 ≤ r) × (r ≤ 1000000000)) },
    ghost bandwidth_allowed: { ForSome bandwidth (λ b. (1 ≤ b) × (b ≤ 1000000)) },
}

/// The arguments of `rvmove tell`.
#[derive(Debug, Drop)]
pub struct TellArguments<'a> {
    /// Where the host answers operators: the path of a Unix socket, which has a `/`, or an address.
    pub control: &'a str,
    /// The line that the host is told. Without one, it is told all lines of standard input.
    pub line: Option<&'a str>,
}

/// The arguments of `rvmove replay`.
#[derive(Debug, Drop)]
pub struct ReplayArguments<'a> {
    /// The file of the journal of a host.
    pub journal: &'a str,
    /// The file of the image of the guest with which the host began, if it began with one.
    pub image: Option<&'a str>,
    /// The most events that the host does again, if there is a limit.
    pub until: Option<u64>,
    /// The file of an extended session of the debugger, which then has the guest, if there is one; `-` is standard input.
    pub script: Option<&'a str>,
}

/// The arguments of `rvmove replay --turns`, which has the guest of a world's hosts do again its first turns, at whichever
/// host it made them.
#[derive(Debug, Drop)]
pub struct ReplayTurnsArguments<'a> {
    /// The files of the journals of a world's hosts, 1 to 8.
    pub journals: ArrayVec<&'a str, 8>,
    /// The file of the image of the guest that moves between the hosts.
    pub image: &'a str,
    /// The number of turns, 1 to 4294967295.
    pub turns: u32,
    /// The file of an extended session of the debugger, which then has the guest; `-` is standard input.
    pub script: &'a str,
    ghost turns_allowed: { 1 ≤ turns },
}

/// The arguments of `rvmove audit-journals`.
#[derive(Debug, Drop)]
pub struct AuditJournalsArguments<'a> {
    /// The files of the journals of a world's hosts, 1 to 8.
    pub journals: ArrayVec<&'a str, 8>,
    /// The file of the image of the guest that moves between the hosts.
    pub image: &'a str,
    /// Whether the order is written, a line for each event, in place of a summary.
    pub order: bool,
    /// The file to which a chart of the order is written, in place of a summary, if there is one.
    pub chart: Option<&'a str>,
}
