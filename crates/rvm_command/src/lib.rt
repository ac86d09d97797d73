//! The commands as functions over values, and the loops of a run. A command takes parsed arguments, the bytes of its
//! files and its writers; it returns the status, or `LinkFault` if it could not report how it ended. The commands
//! over hosts have crates of their own.
//!
//! Stands on `rvm_board` and `rvm_debug` for the debugged board and its scripts, on `rvm_isa`, `rvm_csr` and `rvm_dev` for
//! what a trace and an extended session show of it, on `rvm_elf` for images, on `rvm_asm` and `rvm_dis`, on `rvm_host`
//! for guests that are read from a stream, and on `rvm_arguments`. It must not know worlds, files, processes or the
//! terminal.
//!
//! To be read in this order: `saved_fault`, `save`, `restore`; `guest`, `refused`, `flush`, `output_buffer`, `fault`, `run`,
//! `trace`, `latest_traps`, `coverage`, `symbols`, `profile`, `order`, `watched`, `report`, `run_command`, `orders_command`,
//! `asm_command`, `dis_command`; `extended_command`, `extended_line`, `find_fault`, `extended_answers`, `extended_lines`,
//! `extended_script`, `debug_command`; `laws`.
#![tactic(auto)]

pub mod asm_command;
mod coverage;
pub mod debug_command;
pub mod dis_command;
pub mod extended_answers;
mod extended_command;
pub mod extended_line;
mod extended_lines;
mod extended_script;
pub mod fault;
mod find_fault;
pub mod flush;
pub mod guest;
mod latest_traps;
pub mod laws;
mod order;
pub mod orders_command;
mod output_buffer;
mod profile;
pub mod refused;
mod report;
pub mod restore;
pub mod run;
pub mod run_command;
pub mod save;
pub mod saved_fault;
pub mod symbols;
mod trace;
mod watched;
