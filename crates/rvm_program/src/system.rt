//! What a program needs of the system that it runs on.

use either::Either;
use std::io::{self, IsTerminal, Read, Sink, Write};
use std::random::RandomSource;
use std::rt::{Files, Stderr, Stdin};
use std::time::Clock;

/// The system that a program runs on: memory, files, clock, random numbers and standard streams.
pub trait System: Files + AllocGlobal + Clock + RandomSource + Copy + Send + Sync {
    /// A reader of standard input.
    type Live: Read + Drop + Send + 'static;

    /// Standard input, which is read as it comes.
    fn live_input(&self) -> Self::Live;

    /// A writer of what is shown while a command works.
    type Progress: Write + Drop;

    /// Standard error, if that is a terminal; else what is shown goes nowhere.
    fn progress(&self) -> Self::Progress;
}

impl System for HostRuntime {
    type Live = Stdin;

    fn live_input(&self) -> Stdin {
        self.stdin()
    }

    type Progress = Either<Stderr, Sink>;

    fn progress(&self) -> Either<Stderr, Sink> {
        let errors = self.stderr();
        if errors.is_terminal() {
            Either::Left(errors)
        } else {
            Either::Right(io::sink())
        }
    }
}
