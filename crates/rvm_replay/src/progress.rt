//! What is shown while journals are audited. What cannot be written is lost.

use std::io::{self, Write};

/// Shows that the host of the journal in the file with this name does again what it tells: journal `number` of `of`.
pub(crate) fn show_replay<P: Write>(name: &str, number: usize, of: usize, progress: &mut P) {
    let _lost = write_replay(name, number, of, progress);
}

/// Writes that the host of a journal is replayed.
fn write_replay<P: Write>(
    name: &str,
    number: usize,
    of: usize,
    progress: &mut P,
) -> io::Result<()> {
    writeln!(progress, "replaying {name}, journal {number} of {of}")
}

/// Shows that an order is looked for.
pub(crate) fn show_search<P: Write>(progress: &mut P) {
    let _lost = writeln!(progress, "looking for an order");
}
