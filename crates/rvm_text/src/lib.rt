//! Takes a line of text apart into tokens, reads what a word spells, and writes bytes as hexadecimal digits, as lines
//! of scripts and their answers have them. It stands on the numbered refusals, and knows neither instructions nor what
//! a line means.
//!
//! `token` takes a line apart; `numbers`, `registers` and `strings` read a number, the name of a register and the text of a
//! string; `digits` writes bytes.
#![tactic(auto)]

mod digits;
mod numbers;
mod registers;
mod strings;
mod token;

pub use digits::write_hex;
pub use numbers::{digit_value, number};
pub use registers::{register, register_name};
pub use strings::{text_length, unescape};
pub use token::{TextError, Token, is_name, tokens};
