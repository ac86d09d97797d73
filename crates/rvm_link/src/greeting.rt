//! Greetings: from the end that made a connection, and from the end that accepted it.

ghost use Rattle.std.specs.Prelude.{◌≡◌, ◌≢◌, ◌<◌, ◌++◌, Err, IfErr, IfOk, IfSome, OnOk, true, ℕ};
ghost use Rattle.std.specs.Io.KnownBytes.{Appends, Consumes};
ghost use Rattle.byteorder.specs.Endian.{little_bytes};
ghost use Rattle.rvm_link.specs.declared.greeting_fault.GreetingFault.TheVariants as fault;
ghost use Rattle.rvm_link.specs.declared.opening.Opening.{Opening as PlainOpening};
ghost use Rattle.rvm_link.specs.declared.opening.Role.TheVariants as role;
ghost use Rattle.rvm_link.specs.Facts.{facts_bytes, facts_for};
ghost use Rattle.rvm_link.specs.Greetings.{AreGreeted, is_for, opening_for};
ghost use Rattle.rvm_link.specs.Openings.{opening_bytes, proof_by};

use crate::facts::Facts;
use crate::greeting_fault::GreetingFault;
use crate::message::Message;
use crate::number::read_number;
use crate::opening::{MAGIC, Opening, Role};
use crate::registry::Registry;
use crate::secret::Secret;
use std::io;
use std::io::{Read, Write};

/// What a greeting showed: the openings of both ends, and the facts that the other end told.
#[derive(Clone, Copy, Debug)]
pub struct Greeted {
    pub own: Opening,
    pub other: Opening,
    pub facts: Facts,
}

/// Greets host `to` on a connection that this host made to it. The nonce must be drawn at random for this greeting
/// alone.
///
/// `OtherHosts` if the other end does not answer as that host: it was sent the opening and nothing else. `WrongSecret`
/// if it does not prove that it knows the secret: it was sent the opening and the proof, and no facts. `NotGreeting` if
/// other bytes come, `Broken` if the connection fails.
pub fn greet<I: Read, W: Write>(
    input: &mut I,
    output: &mut W,
    secret: &Secret,
    registry: &Registry,
    to: u8,
    nonce: &[u8; 32],
) -> Result<Greeted, GreetingFault>
    ensures greeted { IfOk result (λ g. AreGreeted secret.now role.Connector g.own g.other
        (facts_for registry.now to) g.facts
        (I.remaining input.old) (I.remaining input.new) (W.contents output.old) (W.contents output.new)) }
    ensures own { IfOk result (λ g. g.own ≡ opening_for registry.now to nonce.now) }
    ensures process { IfOk result (λ g. 0 < g.facts.process) }
    ensures unproved { result ≡ Err fault.OtherHosts → Appends (W.contents output.old) (W.contents output.new)
        (opening_bytes (opening_for registry.now to nonce.now)) }
    ensures silent { result ≡ Err fault.WrongSecret → (other : PlainOpening)
        × Appends (W.contents output.old) (W.contents output.new)
        (opening_bytes (opening_for registry.now to nonce.now)
        ++ proof_by secret.now role.Connector (opening_for registry.now to nonce.now) other) }
{
    let own = registry.opening(to, nonce);
    write_opening(output, &own)?;
    let other = read_opening(input)?;
    if !own.is_answered_by(&other) {
        return Err(GreetingFault::OtherHosts);
    }
    write_proof(output, secret, Role::Connector, &own, &other)?;
    read_proof(input, secret, Role::Acceptor, &other, &own)?;
    let facts = read_facts(input)?;
    write_facts(output, &registry.facts_for(to))?;
    Ok(Greeted { own, other, facts })
}

/// Answers the greeting of a host that made a connection to this one. The nonce must be drawn at random for this
/// greeting alone.
///
/// `OtherHosts` if the other end does not speak for another host of this world: it was sent nothing. `WrongSecret` if
/// it does not prove that it knows the secret: it was sent the opening and nothing else. `NotGreeting` if other bytes
/// come, `Broken` if the connection fails.
pub fn accept<I: Read, W: Write>(
    input: &mut I,
    output: &mut W,
    secret: &Secret,
    registry: &Registry,
    nonce: &[u8; 32],
) -> Result<Greeted, GreetingFault>
    ensures greeted { IfOk result (λ g. AreGreeted secret.now role.Acceptor g.own g.other
        (facts_for registry.now g.other.from) g.facts
        (I.remaining input.old) (I.remaining input.new) (W.contents output.old) (W.contents output.new)) }
    ensures own { IfOk result (λ g. g.own ≡ opening_for registry.now g.other.from nonce.now) }
    ensures other { IfOk result (λ g. is_for registry.now g.other ≡ true) }
    ensures process { IfOk result (λ g. 0 < g.facts.process) }
    ensures untold { result ≡ Err fault.OtherHosts → output.new ≡ output.old }
    ensures silent { result ≡ Err fault.WrongSecret → (to : ℕ)
        × Appends (W.contents output.old) (W.contents output.new)
        (opening_bytes (opening_for registry.now to nonce.now)) }
{
    let other = read_opening(input)?;
    if !registry.is_for(&other) {
        return Err(GreetingFault::OtherHosts);
    }
    let own = registry.opening(other.from, nonce);
    write_opening(output, &own)?;
    read_proof(input, secret, Role::Connector, &other, &own)?;
    write_proof(output, secret, Role::Acceptor, &own, &other)?;
    write_facts(output, &registry.facts_for(other.from))?;
    let facts = read_facts(input)?;
    Ok(Greeted { own, other, facts })
}

/// Writes an opening, and flushes it.
fn write_opening<W: Write>(output: &mut W, opening: &Opening) -> io::Result<()>
    ensures { OnOk result (Appends (W.contents output.old) (W.contents output.new) (opening_bytes opening.now)) }
{
    output.write_all(opening.append_to(Message::new()).as_slice())?;
    output.flush()
}

/// Reads an opening. `NotGreeting` if it does not begin with the name and version of greetings.
fn read_opening<I: Read>(input: &mut I) -> Result<Opening, GreetingFault>
    ensures opening { IfOk result (λ o. Consumes (I.remaining input.old) (I.remaining input.new) (opening_bytes o)) }
    ensures fault { IfErr result (λ e. (e ≢ fault.WrongSecret) × (e ≢ fault.OtherHosts)) }
{
    let mut name = [0u8; 8];
    let mut hosts = [0u8; 3];
    let mut nonce = [0u8; 32];
    read_pieces(input, &mut name, &mut hosts, &mut nonce)?;
    match opening_of(&name, &hosts, &nonce) {
        Some(opening) => Ok(opening),
        None => Err(GreetingFault::NotGreeting),
    }
}

/// The opening that these three pieces spell; none if the first is not the name and version of greetings.
fn opening_of(name: &[u8; 8], hosts: &[u8; 3], nonce: &[u8; 32]) -> Option<Opening>
    ensures { IfSome result (λ o. name.now ++ (hosts.now ++ nonce.now) ≡ opening_bytes o) }
{
    if *name != MAGIC {
        return None;
    }
    let [from, to, hosts] = *hosts;
    Some(Opening {
        from,
        to,
        hosts,
        nonce: *nonce,
    })
}

/// Reads the three pieces of an opening: its name and version, its three host bytes, its nonce.
#[tactic(auto, using(crate::proofs::Pieces::three_taken))]
fn read_pieces<I: Read>(
    input: &mut I,
    name: &mut [u8; 8],
    hosts: &mut [u8; 3],
    nonce: &mut [u8; 32],
) -> io::Result<()>
    ensures { OnOk result (Consumes (I.remaining input.old) (I.remaining input.new)
        (name.new ++ (hosts.new ++ nonce.new))) }
{
    input.read_exact(name)?;
    input.read_exact(hosts)?;
    input.read_exact(nonce)?;
    Ok(())
}

/// Writes the proof of the end with a role, and flushes it.
fn write_proof<W: Write>(
    output: &mut W,
    secret: &Secret,
    role: Role,
    own: &Opening,
    other: &Opening,
) -> io::Result<()>
    ensures { OnOk result (Appends (W.contents output.old) (W.contents output.new)
        (proof_by secret.now role own.now other.now)) }
{
    output.write_all(&secret.proof(role, own, other))?;
    output.flush()
}

/// Reads the proof of the end with a role, whose opening is `own`. `WrongSecret` if the bytes are another proof.
fn read_proof<I: Read>(
    input: &mut I,
    secret: &Secret,
    role: Role,
    own: &Opening,
    other: &Opening,
) -> Result<(), GreetingFault>
    ensures proof { OnOk result (Consumes (I.remaining input.old) (I.remaining input.new)
        (proof_by secret.now role own.now other.now)) }
    ensures fault { IfErr result (λ e. e ≢ fault.OtherHosts) }
{
    let mut proof = [0u8; 32];
    input.read_exact(&mut proof)?;
    if proof != secret.proof(role, own, other) {
        return Err(GreetingFault::WrongSecret);
    }
    Ok(())
}

/// Writes facts, and flushes them.
fn write_facts<W: Write>(output: &mut W, facts: &Facts) -> io::Result<()>
    ensures { OnOk result (Appends (W.contents output.old) (W.contents output.new) (facts_bytes facts.now)) }
{
    output.write_all(facts.bytes().as_slice())?;
    output.flush()
}

/// Reads facts. `NotGreeting` if the number of the process is 0.
fn read_facts<I: Read>(input: &mut I) -> Result<Facts, GreetingFault>
    ensures facts { IfOk result (λ f. Consumes (I.remaining input.old) (I.remaining input.new) (facts_bytes f)) }
    ensures process { IfOk result (λ f. 0 < f.process) }
    ensures fault { IfErr result (λ e. (e ≢ fault.WrongSecret) × (e ≢ fault.OtherHosts)) }
{
    let (world, process, known) = read_numbers(input)?;
    if process == 0 {
        return Err(GreetingFault::NotGreeting);
    }
    Ok(Facts {
        world,
        process,
        known,
    })
}

/// Reads three numbers of 8 bytes, the lowest byte first.
#[tactic(auto, using(crate::proofs::Pieces::three_taken))]
fn read_numbers<I: Read>(input: &mut I) -> io::Result<(u64, u64, u64)>
    ensures { IfOk result (λ n. Consumes (I.remaining input.old) (I.remaining input.new)
        (little_bytes 8 n.0 ++ (little_bytes 8 n.1 ++ little_bytes 8 n.2))) }
{
    let first = read_number(input)?;
    let second = read_number(input)?;
    let third = read_number(input)?;
    Ok((first, second, third))
}
