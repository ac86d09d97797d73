//! Scripts for a debugged board: lines of text, the events that they make, and the text of the
//! answers.
//!
//! Stands on `rvm_board` for what events do, on `rvm_text` for numbers and names, and on `rvm_dis` for the text of a
//! word. It knows nothing of files, processes or hosts. The functions that read words and lines and write answers are
//! public, for scripts with further kinds of lines.
//!
//! To be read in this order: `words`, `hex_text`, `command`, `line`, `answers`, `lines`, `script`.
#![tactic(auto)]

mod answers;
mod command;
mod hex_text;
mod line;
mod lines;
mod script;
mod words;

pub use answers::{InWords, address_of, is_refused, write_reply, write_steps};
pub use hex_text::HexText;
pub use line::{Line, one_number, without_return};
pub use lines::do_line;
pub use rvm_board::{BoardEvent, BoardRefusal, BoardReply, Debugged, View};
pub use script::{MAX_SCRIPT_SIZE, ScriptError, read_script, run_script, split_line};
pub use words::{Words, numeral};
