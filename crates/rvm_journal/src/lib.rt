//! Journals of hosts in files: a line for each event of a host, or for a run of turns, chained by SHA-256. What a writer
//! wrote tells a reader the events of the host, in their order.
//!
//! Stands on `rvm_core` for the lines of commands, on `rvm_frame` for frames, on `rvm_station` for the log of a host, on
//! `rvm_recorder` for the host that does again what a journal tells, and on `sha2` and `hex`. It must not know files,
//! processes or threads.
//!
//! To be read in this order: `run`, `numbers`, `noted`, `digest`, `texts`, `header`, `file`, `writer`,
//! `replay_error`, `recorder`, `replay`, `meeting`, `lines_read`, `read_journal`, `reader`; `letter`.
#![tactic(auto)]

mod digest;
mod file;
mod header;
mod letter;
mod lines_read;
mod meeting;
mod noted;
mod numbers;
mod read_journal;
mod reader;
mod recorder;
mod replay;
mod replay_error;
mod run;
mod texts;
mod writer;

pub use digest::LineDigest;
pub use header::{Header, Image};
pub use letter::letter_of;
pub use noted::Noted;
pub use read_journal::ReadJournal;
pub use reader::JournalReader;
pub use recorder::Recorder;
pub use replay::JournalFault;
pub use replay_error::ReplayError;
pub use run::Run;
pub use writer::JournalWriter;
