//! What a command line asks for: a type for each command, with numbers within the limits of a board.
//!
//! Stands on no other crate. Commands take these types, and must not know the words that ask for them.
#![tactic(auto)]

mod arguments;

pub use arguments::{
    Arguments, AsmArguments, AuditJournalsArguments, CommandLine, DebugArguments, DisArguments,
    GuestArguments, HostArguments, LiveArguments, MoveArguments, OrdersArguments, ReplayArguments,
    ReplayTurnsArguments, Report, ReportArguments, RunArguments, ScriptArguments, StatusOf,
    TellArguments, TraceArguments, WordRange,
};
