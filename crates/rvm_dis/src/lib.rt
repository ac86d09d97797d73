//! The disassembler: the text of the instruction that a word is, at an address.
//!
//! Stands on the instruction table, the names of registers and the list of refusals, and knows neither boards nor runs.
//! Its laws are stated by what the assembler makes of a text, which no code here uses: the text of a word, assembled,
//! is the word again, as a line alone and as a text with an address.
//!
//! To be read in this order: `digits`, `shapes`, `rows`, `line`, `laws`, `reassembly`.
#![tactic(auto)]

mod digits;
pub mod laws;
mod line;
pub mod reassembly;
mod rows;
mod shapes;

pub use digits::Digits;
pub use line::write_line;
pub use rows::write_ins;
