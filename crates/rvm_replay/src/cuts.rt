//! Which journals were cut off.

ghost use Rattle.std.specs.Prelude.{◌≡◌, IfOk};
ghost use Rattle.rvm_replay.specs.Findings.{cuts_of, is_cut, is_cut_of};

use crate::file::ReadFile;
use crate::places::is_of;
use std::alloc::{AllocError, Global};

/// For each of this many hosts, whether its journal was cut off. The journal of a host that has none was not.
pub(crate) fn cuts_of(
    alloc: Global,
    files: &[ReadFile<'_>],
    hosts: u8,
) -> Result<Vec<bool>, AllocError>
    ensures { IfOk result (λ cuts. cuts.items ≡ cuts_of files.now hosts) }
{
    let mut cuts = Vec::new(alloc);
    for host in 0..hosts {
        cuts.push(is_cut(files, host))?;
    }
    Ok(cuts)
}

/// Whether one of these journals is that of a host, and was cut off.
fn is_cut(files: &[ReadFile<'_>], host: u8) -> bool
    ensures { result ≡ is_cut files.now host }
{
    files.iter().any(|file| is_cut_of(file, host))
}

/// Whether a journal is that of a host, and was cut off.
fn is_cut_of(file: &ReadFile<'_>, host: u8) -> bool
    ensures { result ≡ is_cut_of host file.now }
{
    is_of(file, host) && !file.journal().is_whole()
}
