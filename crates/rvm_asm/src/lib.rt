//! The assembler: from assembly text to an image, the bytes of a program at their addresses. It stands on `rvm_text` for
//! the tokens of a line and on `rvm_isa` for the words of instructions, and knows no board.
//!
//! **A line**: the value of an expression, the name that the line gives, the place after it, and its bytes. `faults` says
//! why a line can't be assembled; `symbols` keeps the values of names; `reading` reads single tokens, `values`
//! expressions, `csrs` the names of control and status registers. `operations` lists the instructions by the shape of
//! their operands, `operands` reads operands, `instructions` makes the instruction of a line, `pseudo` that of a
//! pseudo-instruction. `statements` says what kind a line is, what it defines and where the next line stands; `content`
//! makes the bytes of a line. Both first ask `grammar` whether the operands have the shapes of their kind. `words` looks
//! words up in tables.
//!
//! **A text**: `image` is what an assembler makes, what a file of a program holds, and what a board loads. `assembler`
//! runs four passes over the lines, each of which reads the tokens of a line again: `line_tokens` checks that each line
//! consists of tokens, `layout` gives each name its value and each line its place, `placing` finds the `extents` of all
//! lines' bytes without keeping the bytes, and `filling` puts the bytes into the `segments` of an image. No pass knows an
//! instruction. `error` says why a text has no image. `laws` says that the bytes of a line end where the next line stands,
//! that a text has at most one image, and that a fault of a line counts before the size of all lines.
#![tactic(auto)]

mod assembler;
mod content;
mod csrs;
mod error;
mod extents;
mod faults;
mod filling;
mod grammar;
mod image;
mod instructions;
pub mod laws;
mod layout;
mod line_tokens;
mod operands;
mod operations;
mod placing;
mod pseudo;
mod reading;
mod segments;
mod statements;
mod symbols;
mod values;
mod words;

pub use assembler::assemble;
pub use error::AsmError;
pub use faults::{Fault, LineError};
pub use image::{Image, MAX_BYTES, Segment};
