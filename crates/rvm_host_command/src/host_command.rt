//! `rvmove host`: a host in this process.

ghost use Rattle.std.specs.Prelude.{◌≡◌, ◌≢◌, ◌≤◌, ◌⊎◌, IfErr, IfOk, length, true};
ghost use Rattle.rvm_host_command.specs.Hosted.{HasBegun, HasWorked, IsGuestOf, IsHosted, IsHostedTo, IsMember, IsNamed, host_status, opening_of, status_told};
ghost use Rattle.rvm_station.specs.declared.host_harts.HartsEnd.TheVariants.{ConsoleFault};

use crate::address::{checked_address, is_path, listen_at, listen_for_operators};
use crate::fault::{HostFault, Place};
use crate::hosting::{HostPlan, HostStart, Numbers, draw_numbers, work_at};
use crate::keeping::{begin_journal, image_of};
use crate::operators::Operators;
use rvm_arguments::HostArguments;
use rvm_board::Debugged;
use rvm_command::guest::read_guest;
use rvm_journal::{Header, Image, JournalWriter, letter_of};
use rvm_link::{Peers, Secret, read_peers};
use rvm_mem::{Memory, PagedMemory};
use rvm_refusal::LinkFault;
use rvm_station::{HartsEnd, InputQueue};
use std::alloc::Global;
use std::fs;
use std::io::Write;
use std::net::{Net, OpenListener};
use std::random::RandomSource;
use std::rt::Files;
use std::sync::Wait;
use std::thread::Threads;
use std::time::{Clock, Duration};

/// The status of a verdict on a guest that halted here with a status other than 0.
const FAILED: u8 = 3;

/// The bytes of the files that a host is given.
#[derive(Clone, Copy, Debug)]
pub struct HostBytes<'a> {
    /// The file of peers, which names the hosts of the world.
    pub peers: &'a [u8],
    /// The image of the guest that begins here, or the saved guest; not used if none does.
    pub image: &'a [u8],
    /// The secret that the hosts share, if they share one.
    pub secret: Option<&'a [u8]>,
}

/// Works at a host until an operator ends it, or, if `arguments.until_halt` is set, until its guest has halted here.
/// The bytes of `input` go to the guest's console while the guest is here, and what the guest sends goes to `output`.
///
/// Returns the status: 1 if the host does not begin or the console cannot be written, and then `errors` says why. If a
/// verdict is asked for, it is 3 if the guest halted here with a status other than 0, which ended the host. Else it is
/// 0. `LinkFault` if the report why the host does not begin cannot be written.
pub fn host_command<
    M: PagedMemory + Drop + Send,
    O: Write,
    E: Write,
    R: Files + Net + Threads + Wait + Clock + RandomSource + Sync,
>(
    rt: &R,
    alloc: Global,
    arguments: &HostArguments,
    files: &HostBytes<'_>,
    input: &InputQueue,
    output: &mut O,
    errors: &mut E,
) -> Result<u8, LinkFault>
where
    R::Stream: Send,
    R::Listener: Send + Sync,
    R::File: Send,
    ensures status { IfOk result (λ status. (status ≡ 0) ⊎ (status ≡ 1)
        ⊎ ((status ≡ 3) × (arguments.now.verdict ≡ true))) }
    ensures done { IfOk result (λ status. status ≢ 1 → IsHostedTo arguments.now files.now.peers.now files.now.image.now
        status (O.contents output.old) (O.contents output.new)) }
{
    let verdict = arguments.verdict;
    let ended = run_host::<M, O, E, R>(rt, alloc, arguments, files, input, output, errors);
    tell_end(ended, verdict, errors)
}

/// Reports why a host did not begin, if it did not. Returns the status. `LinkFault` if the report cannot be written.
fn tell_end<E: Write>(
    ended: Result<HartsEnd, HostFault>,
    verdict: bool,
    errors: &mut E,
) -> Result<u8, LinkFault>
    ensures told { IfOk result (λ status. status ≡ status_told verdict ended) }
    ensures status { IfOk result (λ status. (status ≡ 0) ⊎ (status ≡ 1) ⊎ ((status ≡ 3) × (verdict ≡ true))) }
    ensures done { IfOk result (λ status. status ≢ 1 → HasBegun ended) }
{
    match ended {
        Ok(end) => Ok(status_of(end, verdict)),
        Err(fault) => {
            writeln!(errors, "{fault}")?;
            Ok(1)
        }
    }
}

/// The status of a host that ended so. If a verdict is asked for, it tells how the guest ended here.
fn status_of(end: HartsEnd, verdict: bool) -> u8
    ensures { result ≡ host_status verdict end }
{
    match end {
        HartsEnd::ConsoleFault => 1,
        HartsEnd::Stopped | HartsEnd::Spent | HartsEnd::Halted(0) => 0,
        HartsEnd::Halted(_) if verdict => FAILED,
        HartsEnd::Halted(_) => 0,
    }
}

/// Works at a host until it ends. Fails if it does not begin: a file, a name or an address is not as it must be, no
/// random number can be drawn, memory runs out, or the system starts no thread.
#[tactic(auto, using(crate::proofs::Hosted::hosted))]
fn run_host<
    M: PagedMemory + Drop + Send,
    O: Write,
    E: Write,
    R: Files + Net + Threads + Wait + Clock + RandomSource + Sync,
>(
    rt: &R,
    alloc: Global,
    arguments: &HostArguments,
    files: &HostBytes<'_>,
    input: &InputQueue,
    output: &mut O,
    errors: &mut E,
) -> Result<HartsEnd, HostFault>
where
    R::Stream: Send,
    R::Listener: Send + Sync,
    R::File: Send,
    ensures shown { IfOk result (λ end. end ≢ ConsoleFault → IsHosted arguments.now files.now.peers.now
        files.now.image.now end (O.contents output.old) (O.contents output.new)) }
    ensures unbegun { IfErr result (λ fault. O.contents output.new ≡ O.contents output.old) }
{
    let member = read_member(rt, alloc, arguments.name, files)?;
    let start = read_start::<M, R>(rt, alloc, arguments, files)?;
    match listen(rt, arguments, &member) {
        Ok(listeners) => {
            let plan = plan_of(arguments, &member, &listeners, input);
            let named = named_guest::<M>(arguments, files.image, &start.guest);
            work_by::<M, O, E, R>(rt, alloc, arguments, &plan, start, named, output, errors)
        }
        Err(fault) => {
            drop(start);
            Err(fault)
        }
    }
}

/// Which host of which world a process has, and where it may listen.
#[derive(Drop)]
struct Member {
    /// The hosts of the world.
    peers: Peers,
    /// The number of the host.
    id: u8,
    /// Whether only loopback addresses are allowed, since the hosts share no secret.
    only_loopback: bool,
}

/// Where other hosts and operators connect to a host process. At neither listener does accepting a connection wait.
#[derive(Drop)]
struct Listeners<N: Drop> {
    hosts: N,
    operators: Operators<N>,
}

/// Reads which hosts the world has, and which of them has this name. Fails if the file of peers names no world or no such
/// host, or if it names an address that is not allowed, since the hosts share no secret.
fn read_member<R: Net>(
    rt: &R,
    alloc: Global,
    name: &str,
    files: &HostBytes<'_>,
) -> Result<Member, HostFault>
    ensures { IfOk result (λ m. IsMember name.now files.now.peers.now m.peers m.id) }
{
    let peers = read_peers(alloc, files.peers)?;
    let id = number_of(name, peers.count())?;
    let only_loopback = files.secret.is_none();
    check_addresses(rt, &peers, only_loopback)?;
    Ok(Member {
        peers,
        id,
        only_loopback,
    })
}

/// What the process is given at its start. Fails if the secret is empty, no random number can be drawn, or the guest cannot
/// be loaded.
fn read_start<M: PagedMemory + Drop, R: RandomSource>(
    rt: &R,
    alloc: Global,
    arguments: &HostArguments,
    files: &HostBytes<'_>,
) -> Result<HostStart<M>, HostFault>
    ensures { IfOk result (λ s. IsGuestOf arguments.now.guest files.now.image.now s.guest) }
{
    let secret = secret_of(files.secret)?;
    let Ok(numbers) = draw_numbers(rt, arguments.guest.is_some()) else {
        return Err(HostFault::NoRandom);
    };
    let guest = read(alloc, arguments, files.image)?;
    Ok(HostStart {
        guest,
        secret,
        numbers,
    })
}

/// Listens for other hosts and for operators. Fails if an address is none, is not allowed, or cannot be listened at.
fn listen<R: Files + Net>(
    rt: &R,
    arguments: &HostArguments,
    member: &Member,
) -> Result<Listeners<R::Listener>, HostFault> {
    let hosts = listen_for_hosts(rt, arguments.listen, member)?;
    let operators = listen_for_operators(rt, arguments.control)?;
    Ok(Listeners { hosts, operators })
}

/// What the process works with, and how.
fn plan_of<'a, N: Drop>(
    arguments: &HostArguments,
    member: &'a Member,
    listeners: &'a Listeners<N>,
    input: &'a InputQueue,
) -> HostPlan<'a, N>
    ensures id { result.id ≡ member.now.id }
    ensures peers { result.peers.now ≡ member.now.peers }
{
    HostPlan {
        id: member.id,
        peers: &member.peers,
        hosts: &listeners.hosts,
        operators: &listeners.operators,
        input,
        patience: Duration::from_millis(u64::from(arguments.patience)),
        rate: arguments.rate,
        bandwidth: arguments.bandwidth,
        until_halt: arguments.until_halt,
    }
}

/// Begins the journal, if one is kept, reports where the host listens, and works at the host until it ends. `named` is its
/// guest, if it has one, as the journal names it. Takes the socket of operators, if it is a file, away in the end. Fails if
/// the journal cannot be written, memory runs out, or the system starts no thread.
fn work_by<
    M: PagedMemory + Drop + Send,
    O: Write,
    E: Write,
    R: Files + Net + Threads + Wait + Clock + RandomSource + Sync,
>(
    rt: &R,
    alloc: Global,
    arguments: &HostArguments,
    plan: &HostPlan<'_, R::Listener>,
    start: HostStart<M>,
    named: Option<Image>,
    output: &mut O,
    errors: &mut E,
) -> Result<HartsEnd, HostFault>
where
    R::Stream: Send,
    R::Listener: Send + Sync,
    R::File: Send,
    ensures shown { IfOk result (λ end. end ≢ ConsoleFault
        → HasWorked (opening_of start.guest plan.now.id (length plan.now.peers.now)) end (O.contents output.old)
        (O.contents output.new)) }
    ensures unbegun { IfErr result (λ fault. O.contents output.new ≡ O.contents output.old) }
{
    let header = header_of(plan, start.numbers, named);
    let ended = match begin_journal(rt, alloc, arguments.journal, &header) {
        Ok(log) => {
            tell_addresses(plan.hosts, plan.operators, arguments.control, errors);
            work_at::<M, Option<JournalWriter<R::File>>, O, E, R>(
                rt, alloc, plan, start, log, output, errors,
            )
        }
        Err(fault) => {
            drop(start);
            Err(fault)
        }
    };
    if is_path(arguments.control) {
        let _left = fs::remove_file(rt, arguments.control);
    }
    ended
}

/// The first line of the journal of a host that begins with this guest, or without one.
fn header_of<N: Drop>(plan: &HostPlan<'_, N>, numbers: Numbers, guest: Option<Image>) -> Header {
    Header {
        hosts: plan.peers.count() as u8,
        host: plan.id,
        process: numbers.process,
        world: numbers.world,
        guest,
    }
}

/// The guest with which a host begins, if it begins with one, as a journal names it.
fn named_guest<M: Memory + Drop>(
    arguments: &HostArguments,
    bytes: &[u8],
    guest: &Option<Debugged<M>>,
) -> Option<Image> {
    let asked = arguments.guest.as_ref()?;
    let guest = guest.as_ref()?;
    Some(image_of(asked.raw, bytes, guest))
}

/// The number of the host with this name among `count` hosts: 0 for A. `NoSuchHost` if there is none.
fn number_of(name: &str, count: usize) -> Result<u8, HostFault>
    requires { count ≤ 8 }
    ensures { IfOk result (IsNamed name.now count) }
{
    match name.as_bytes() {
        [letter] if *letter >= b'A' && usize::from(*letter - b'A') < count => Ok(*letter - b'A'),
        _ => Err(HostFault::NoSuchHost),
    }
}

/// The secret with these bytes, or the one without a byte if the hosts share none. `EmptySecret` if they share one, and
/// it has no byte.
fn secret_of(bytes: Option<&[u8]>) -> Result<Secret, HostFault> {
    match bytes {
        Some([]) => Err(HostFault::EmptySecret),
        Some(bytes) => Ok(Secret::new(bytes)),
        None => Ok(Secret::new(b"".as_slice())),
    }
}

/// Checks that each host of the world has a loopback address, if `only_loopback` is set; else checks nothing.
fn check_addresses<R: Net>(rt: &R, peers: &Peers, only_loopback: bool) -> Result<(), HostFault> {
    if !only_loopback {
        return Ok(());
    }
    for host in 0..peers.count() as u8 {
        if let Some(address) = peers.address(usize::from(host)) {
            let place = Place::Peer(letter_of(host));
            let _address = checked_address(rt, place, address, true)?;
        }
    }
    Ok(())
}

/// Listens for other hosts, at this address of `--listen` if one was given, else at the one that the file of peers has
/// for this host.
fn listen_for_hosts<R: Net>(
    rt: &R,
    address: Option<&str>,
    member: &Member,
) -> Result<R::Listener, HostFault> {
    let only_loopback = member.only_loopback;
    if let Some(address) = address {
        return listen_at(rt, Place::Listen, address.as_bytes(), only_loopback);
    }
    let place = Place::Peer(letter_of(member.id));
    match member.peers.address(usize::from(member.id)) {
        Some(address) => listen_at(rt, place, address, only_loopback),
        None => Err(HostFault::NoSuchHost),
    }
}

/// Reads the guest that begins here, if one does: of an image, or a saved guest. Fails with `Image` if it cannot be read.
fn read<M: PagedMemory + Drop>(
    alloc: Global,
    arguments: &HostArguments,
    image: &[u8],
) -> Result<Option<Debugged<M>>, HostFault>
    ensures { IfOk result (IsGuestOf arguments.now.guest image.now) }
{
    let Some(guest) = &arguments.guest else {
        return Ok(None);
    };
    match read_guest::<M>(alloc, guest, image) {
        Ok(guest) => Ok(Some(guest)),
        Err(refused) => Err(HostFault::Image(refused)),
    }
}

/// Reports where the host listens. What cannot be written is lost.
fn tell_addresses<N: OpenListener + Drop, E: Write>(
    hosts: &N,
    operators: &Operators<N>,
    control: &str,
    errors: &mut E,
) {
    let Ok(hosts) = hosts.local_addr() else {
        return;
    };
    let _untold = write!(errors, "listens at {hosts}, for operators at ");
    let _untold = match operators {
        Operators::Tcp(listener) => match listener.local_addr() {
            Ok(address) => writeln!(errors, "{address}"),
            Err(_) => writeln!(errors, "{control}"),
        },
        Operators::Unix(_) => writeln!(errors, "{control}"),
    };
}
