//! What the journals of all hosts of a world add up to, in lines.

ghost use Rattle.std.specs.Prelude.{◌≡◌, ◌≤◌, IfOk, OnOk, codes, length};
ghost use Rattle.std.specs.Io.KnownBytes.{Appends};
ghost use Rattle.rvm_replay.specs.Counts.{counts_line, counts_of, entries_of_all, events_text, host_line, host_lines, moves_text, summary_of};

use crate::account::Account;
use crate::counts::Counts;
use rvm_mem::PagedMemory;
use rvm_refusal::LinkFault;
use std::io::Write;

/// Writes a line for each host, with what its journal adds up to, and one for all of them.
pub(crate) fn write_summary<M: PagedMemory + Drop, O: Write>(
    all: &[Account<M>],
    output: &mut O,
) -> Result<(), LinkFault>
    requires { length all.now ≤ 8 }
    ensures { OnOk result (Appends (O.contents output.old) (O.contents output.new) (summary_of all.now)) }
{
    let sum = write_hosts(all, output)?;
    write_counts(b"all".as_slice(), sum, output)?;
    Ok(())
}

/// Writes a line for each host. Returns what the journals of all add up to.
fn write_hosts<M: PagedMemory + Drop, O: Write>(
    all: &[Account<M>],
    output: &mut O,
) -> Result<Counts, LinkFault>
    requires { length all.now ≤ 8 }
    ensures written { OnOk result (Appends (O.contents output.old) (O.contents output.new) (host_lines 0 all.now)) }
    ensures sum { IfOk result (λ sum. sum ≡ counts_of (entries_of_all all.now)) }
{
    let mut sum = Counts::none();
    for host in 0..all.len() {
        let counts = write_host(host as u8, &all[host], output)?;
        sum = sum.with(counts);
    }
    Ok(sum)
}

/// Writes the line of a host, and returns what its journal adds up to.
fn write_host<M: PagedMemory + Drop, O: Write>(
    host: u8,
    account: &Account<M>,
    output: &mut O,
) -> Result<Counts, LinkFault>
    requires { host ≤ 8 }
    ensures written { OnOk result (Appends (O.contents output.old) (O.contents output.new) (host_line host account.now)) }
    ensures counts { IfOk result (λ counts. counts ≡ counts_of account.now.journal.entries) }
{
    let counts = account.counts();
    let letter = [b'A' + host];
    write_counts(&letter, counts, output)?;
    Ok(counts)
}

/// Writes the line of counts, with the name of what was counted.
fn write_counts<O: Write>(name: &[u8], counts: Counts, output: &mut O) -> Result<(), LinkFault>
    ensures { OnOk result (Appends (O.contents output.old) (O.contents output.new) (counts_line name.now counts)) }
{
    output.write_all(name)?;
    write_events(counts.events, counts.turns, counts.frames, output)?;
    write_moves(counts.moves, counts.console, output)
}

/// Writes how many events there are, and how many of them are turns and frames.
fn write_events<O: Write>(
    events: u64,
    turns: u64,
    frames: u64,
    output: &mut O,
) -> Result<(), LinkFault>
    ensures { OnOk result (Appends (O.contents output.old) (O.contents output.new) (events_text events turns frames)) }
{
    write!(output, ": events {events}, turns {turns}, frames {frames}")?;
    Ok(())
}

/// Writes how many moves there are, and how many bytes of the console, to the end of the line.
fn write_moves<O: Write>(moves: u64, console: u64, output: &mut O) -> Result<(), LinkFault>
    ensures { OnOk result (Appends (O.contents output.old) (O.contents output.new) (moves_text moves console)) }
{
    writeln!(output, ", moves {moves}, console {console}")?;
    Ok(())
}
