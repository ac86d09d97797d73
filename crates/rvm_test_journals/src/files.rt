//! Journals in files, audited: those of three hosts, of which the first sends its guest to the second, and that on to the
//! third; and which journals are refused.

use crate::asked::{board, came};
use crate::orders::{COPIES, POLICY, made};
use crate::written::{cut, damage, write_journal};
use rvm_board::{Board, BoardEvent, Debugged};
use rvm_frame::{Addressed, Frame};
use rvm_hart::RAM_BASE;
use rvm_host::Host;
use rvm_journal::{Header, Image};
use rvm_mem::write_bytes;
use rvm_message::{Command, HostEvent};
use rvm_paged::PagedRam;
use rvm_recorder::Recorded;
use rvm_replay::audit::{AuditText, audit_journals};
use rvm_station::Meeting;
use std::alloc::Global;
use std::io::{self, BufWriter};

/// The number of hosts.
const HOSTS: u8 = 3;

/// The number of pages of the guest.
const PAGES: u32 = 4;

/// The most frames that follow from one command.
const FRAMES: u32 = 8;

/// How many entries each journal takes.
const ENTRIES: u32 = 200;

/// The image of the guest, which sends one byte, and then jumps to itself: `lui t0, 0x10000`, `li t1, 104`, `sw t1, 0(t0)`,
/// `j 0`.
static IMAGE: [u8; 16] = [
    0xB7, 0x02, 0x00, 0x10, 0x13, 0x03, 0x80, 0x06, 0x23, 0xA0, 0x62, 0x00, 0x6F, 0, 0, 0,
];

/// Another image.
static OTHER_IMAGE: [u8; 4] = [0x6F, 0, 0, 0];

/// Which journals are audited, and how they are changed.
#[derive(Clone, Copy)]
enum Case {
    /// Those of all hosts.
    All,
    /// The same, and their order is asked for.
    Order,
    /// The last bit of a line of host C, by its number, is another one.
    Damaged(usize),
    /// All but that of this host.
    Without(usize),
    /// Those of all hosts, and that of host B once more.
    Twice,
    /// To host C comes a frame that nobody sent.
    Unsent,
    /// The same, and the order is asked for that the journals do not have.
    UnsentOrder,
    /// The journal of host C has no end, and not the line before it.
    Cut,
    /// The journal of host C has no line.
    Empty,
    /// Host B began with the guest too.
    SecondGuest,
    /// The world of host C has a host more.
    OtherHosts,
    /// Host C tells the number of another world.
    OtherWorld,
    /// Host C tells the number of the world, as it may.
    SameWorld,
    /// Each host tells the host after it to have been met, as it is.
    Met,
    /// Host A tells another process of host B to have been met.
    OtherProcess,
    /// Host C tells host A to have been met in another world.
    MetOtherWorld,
    /// The image is another one.
    OtherImage,
}

/// Audits the journals of three hosts, as they are, and changed so that they are refused.
pub fn audit_files<R: AllocGlobal + Print>(rt: &R) -> Option<()> {
    audit(rt, "journals of three hosts", Case::All)?;
    audit(rt, "their order", Case::Order)?;
    audit(rt, "the number of the world at each host", Case::SameWorld)?;
    audit(rt, "without the last two lines of host C", Case::Cut)?;
    audit(rt, "a frame that nobody sent", Case::Unsent)?;
    audit(rt, "the order of the same", Case::UnsentOrder)?;
    audit(rt, "without host B", Case::Without(1))?;
    audit(rt, "without host A", Case::Without(0))?;
    audit(rt, "host B twice", Case::Twice)?;
    audit(rt, "a guest at host B", Case::SecondGuest)?;
    audit(rt, "a world of four hosts at host C", Case::OtherHosts)?;
    audit(rt, "another world at host C", Case::OtherWorld)?;
    audit(rt, "the hosts that were met", Case::Met)?;
    audit(
        rt,
        "another process of host B at host A",
        Case::OtherProcess,
    )?;
    audit(rt, "host A in another world at host C", Case::MetOtherWorld)?;
    audit(rt, "another image", Case::OtherImage)?;
    audit(rt, "a journal without a line", Case::Empty)?;
    for line in 1..11 {
        audit(rt, "another bit in a line of host C", Case::Damaged(line))?;
    }
    Some(())
}

/// Has three hosts do what a case asks for, and audits their journals.
fn audit<R: AllocGlobal + Print>(rt: &R, name: &str, case: Case) -> Option<()> {
    let alloc = rt.alloc();
    let mut hosts = Vec::new(alloc);
    let told = audit_hosts(rt, name, case, &mut hosts);
    drop(hosts);
    told
}

/// Makes the hosts, has them do what a case asks for, and audits their journals.
fn audit_hosts<R: AllocGlobal + Print>(
    rt: &R,
    name: &str,
    case: Case,
    hosts: &mut Vec<Recorded<PagedRam>>,
) -> Option<()> {
    let alloc = rt.alloc();
    for id in 0..HOSTS {
        hosts.reserve(1).ok()?;
        hosts.push(new_host(alloc, id)?).ok()?;
    }
    let [a, b, c] = hosts.as_mut_slice() else {
        return None;
    };
    act(alloc, case, a, b, c)?;
    let a = write_journal(alloc, &header_of(0, case), met_by(0, case), a.journal())?;
    let b = write_journal(alloc, &header_of(1, case), met_by(1, case), b.journal())?;
    let mut c = write_journal(alloc, &header_of(2, case), met_by(2, case), c.journal())?;
    match case {
        Case::Cut => {
            cut(&mut c)?;
            cut(&mut c)?;
        }
        Case::Damaged(line) => damage(&mut c, line)?,
        _ => {}
    }
    tell(rt, name, case, &[a.as_slice(), b.as_slice(), c.as_slice()])
}

/// A host with an empty journal: host A has the guest.
fn new_host(alloc: Global, id: u8) -> Option<Recorded<PagedRam>> {
    let guest = if id == 0 {
        Some(new_guest(alloc)?)
    } else {
        None
    };
    let host = Host::with_version(guest, id, HOSTS, 4096, 3).ok()?;
    Recorded::new(alloc, host, ENTRIES).ok()
}

/// The guest of the image.
fn new_guest(alloc: Global) -> Option<Debugged<PagedRam>> {
    let mut ram = PagedRam::new(alloc, PAGES).ok()?;
    write_bytes(&mut ram, 0, &IMAGE).ok()?;
    match Board::new(alloc, 1, ram, RAM_BASE) {
        Ok(board) => Some(Debugged::new(board)),
        Err((_, ram)) => Some(Debugged::new(Board::new(alloc, 1, ram, RAM_BASE).ok()?)),
    }
}

/// 100 turns and a drain at host A, the moves, and 50 turns at host C. In one case a frame comes to C after them that
/// nobody sent.
fn act(
    alloc: Global,
    case: Case,
    a: &mut Recorded<PagedRam>,
    b: &mut Recorded<PagedRam>,
    c: &mut Recorded<PagedRam>,
) -> Option<()> {
    step(alloc, a, 100)?;
    drop(made(a, alloc, board(BoardEvent::Drain(256)))?);
    move_guest(alloc, a, b, 1)?;
    move_guest(alloc, b, c, 2)?;
    step(alloc, c, 50)?;
    if matches!(case, Case::Unsent | Case::UnsentOrder) {
        let frame = came(alloc, 0, Frame::Go { move_number: 9 })?;
        drop(made(c, alloc, frame)?);
    }
    Some(())
}

/// Has the hart of a host's guest take turns.
fn step(alloc: Global, host: &mut Recorded<PagedRam>, turns: u32) -> Option<()> {
    for _ in 0..turns {
        drop(made(host, alloc, board(BoardEvent::Step(0)))?);
    }
    Some(())
}

/// Moves the guest from one host to another, host `to`.
fn move_guest(
    alloc: Global,
    source: &mut Recorded<PagedRam>,
    target: &mut Recorded<PagedRam>,
    to: u8,
) -> Option<()> {
    let begin = Command::Begin { to, policy: POLICY };
    play(alloc, source, target, to, begin)?;
    for _ in 0..COPIES {
        play(alloc, source, target, to, Command::Copy)?;
    }
    Some(())
}

/// Gives the source of a move a command, and each of both hosts the frames that follow from it.
fn play(
    alloc: Global,
    source: &mut Recorded<PagedRam>,
    target: &mut Recorded<PagedRam>,
    target_number: u8,
    command: Command,
) -> Option<()> {
    let mut next = made(source, alloc, HostEvent::Do(command))?;
    for _ in 0..FRAMES {
        let Some(Addressed { from, to, frame }) = next else {
            return Some(());
        };
        let event = came(alloc, from, frame)?;
        next = if to == target_number {
            made(target, alloc, event)?
        } else {
            made(source, alloc, event)?
        };
    }
    drop(next);
    None
}

/// The header of the journal of a host, in a case.
fn header_of(host: u8, case: Case) -> Header {
    let has_guest = host == 0 || (host == 1 && matches!(case, Case::SecondGuest));
    Header {
        hosts: hosts_of(host, case),
        host,
        process: 7,
        world: world_of(host, case),
        guest: if has_guest {
            Some(Image::of(true, 1, PAGES, &IMAGE))
        } else {
            None
        },
    }
}

/// The host that a host met in a case, if it tells one.
fn met_by(host: u8, case: Case) -> Option<Meeting> {
    let (met, process, world) = match case {
        Case::Met => (next_host(host), 7, 12),
        Case::OtherProcess if host == 0 => (1, 8, 12),
        Case::MetOtherWorld if host == 2 => (0, 7, 13),
        _ => return None,
    };
    Some(Meeting {
        host: met,
        process,
        world,
    })
}

/// The host after a host; after the last one, host A.
fn next_host(host: u8) -> u8 {
    match host {
        0 => 1,
        1 => 2,
        _ => 0,
    }
}

/// How many hosts the header of a host tells.
fn hosts_of(host: u8, case: Case) -> u8 {
    match case {
        Case::OtherHosts if host == 2 => 4,
        _ => HOSTS,
    }
}

/// Which number of the world the header of a host tells: only host A knows it, but for some cases.
fn world_of(host: u8, case: Case) -> u64 {
    match case {
        Case::OtherWorld if host == 2 => 13,
        Case::SameWorld => 12,
        _ if host == 0 => 12,
        _ => 0,
    }
}

/// Audits journals as a case asks for, and prints the status and what was written.
fn tell<R: AllocGlobal + Print>(rt: &R, name: &str, case: Case, bytes: &[&[u8]; 3]) -> Option<()> {
    let [first, second, third] = *bytes;
    let is_empty = matches!(case, Case::Empty);
    let third = if is_empty { b"".as_slice() } else { third };
    for _ in 0..2 {
        if tell_files(rt, name, case, first, second, third)? {
            return Some(());
        }
    }
    None
}

/// The files of an audit.
#[derive(Drop)]
struct Files<'a> {
    names: Vec<&'a str>,
    inputs: Vec<&'a [u8]>,
}

/// Audits the files of a case, with these bytes. Returns false if memory ran out.
fn tell_files<R: AllocGlobal + Print>(
    rt: &R,
    name: &str,
    case: Case,
    first: &[u8],
    second: &[u8],
    third: &[u8],
) -> Option<bool> {
    let alloc = rt.alloc();
    let mut files = Files {
        names: Vec::new(alloc),
        inputs: Vec::new(alloc),
    };
    if !matches!(case, Case::Without(0)) {
        put(&mut files, "a.journal", first)?;
    }
    if !matches!(case, Case::Without(1)) {
        put(&mut files, "b.journal", second)?;
    }
    put(&mut files, "c.journal", third)?;
    if matches!(case, Case::Twice) {
        put(&mut files, "d.journal", second)?;
    }
    tell_audit(rt, name, files, case)
}

/// Adds a file with this name and these bytes.
fn put<'a>(files: &mut Files<'a>, name: &'a str, bytes: &'a [u8]) -> Option<()> {
    files.names.push(name).ok()?;
    files.inputs.push(bytes).ok()
}

/// The image in a case.
fn image_of(case: Case) -> &'static [u8] {
    match case {
        Case::OtherImage => &OTHER_IMAGE,
        _ => &IMAGE,
    }
}

/// Audits journals, and prints the status and what was written. Returns false if memory ran out.
fn tell_audit<R: AllocGlobal + Print>(
    rt: &R,
    name: &str,
    files: Files<'_>,
    case: Case,
) -> Option<bool> {
    let is_order = matches!(case, Case::Order);
    let mut output = Vec::new(rt.alloc());
    let mut errors = Vec::new(rt.alloc());
    let Some(status) = status_of(rt.alloc(), files, case, &mut output, &mut errors) else {
        return Some(false);
    };
    if errors.starts_with(b"refused 1 ") {
        return Some(false);
    }
    println!(rt; "{name}: status {status}").ok()?;
    if is_order {
        tell_order(rt, output.as_slice())?;
    } else {
        print!(rt; "{}", str::from_utf8(&output).ok()?).ok()?;
    }
    print!(rt; "{}", str::from_utf8(&errors).ok()?).ok()?;
    Some(true)
}

/// The status of an audit, which writes to a buffer in front of `output`. None if memory ran out.
fn status_of(
    alloc: Global,
    files: Files<'_>,
    case: Case,
    output: &mut Vec<u8>,
    errors: &mut Vec<u8>,
) -> Option<u8> {
    let text = match case {
        Case::Order | Case::UnsentOrder => AuditText::Order,
        _ => AuditText::Summary,
    };
    let image = image_of(case);
    let Files { names, inputs } = files;
    if names.len() != inputs.len() {
        return None;
    }
    let mut buffer = BufWriter::new(alloc, &mut *output).ok()?;
    audit_journals::<PagedRam, &[u8], _, _, _>(
        alloc,
        names.as_slice(),
        inputs,
        image,
        text,
        &mut buffer,
        &mut io::sink(),
        errors,
    )
    .ok()
}

/// Prints how many events an order has, and whether it is from a step of host A to one of host C.
fn tell_order<R: AllocGlobal + Print>(rt: &R, lines: &[u8]) -> Option<()> {
    let mut events = 0u32;
    for byte in lines {
        if *byte == b'\n' {
            events = events.wrapping_add(1);
        }
    }
    let is_between = lines.starts_with(b"A step 0\n") && lines.ends_with(b"\nC step 0\n");
    println!(rt; "{events} events, from a step of host A to one of host C {is_between}").ok()
}
