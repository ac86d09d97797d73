//! The files that a command line names: how much is read of each, and what is wrong with them if a command is refused.
//!
//! Stands on what a command line asks for (`rvm_arguments`) and on what reads its files: the assembler, the ELF reader
//! and the disassembler's numbers. Knows no command, and reaches files through the runtime or another `NamedFiles` alone.
//!
//! To be read in this order: `files`, `images`; how a refusal is explained, `file_fault`, `headers`, `image_parts`,
//! `line_fault`, `saved_fault`, `defect`, `found`, `refusal_report`, `finding`, `unfound`, `explaining`.
#![tactic(auto)]

mod defect;
mod explaining;
mod file_fault;
mod files;
mod finding;
mod found;
mod headers;
mod image_parts;
mod images;
mod line_fault;
mod refusal_report;
mod saved_fault;
mod unfound;

pub use defect::Defect;
pub use explaining::{explain_report, find_for_host, pass_on};
pub use file_fault::FileFault;
pub use files::{
    HostFiles, MAX_FILE_SIZE, MAX_JOURNAL_SIZE, NamedFiles, keep_apart, keep_read, read_beginning,
    read_file, read_whole, refusal_of,
};
pub use found::{Found, write_found};
pub use headers::ElfFault;
pub use image_parts::Outside;
pub use images::{begin_image, check_image, read_image};
pub use line_fault::{LineDefect, LineFault};
pub use saved_fault::SavedFault;
