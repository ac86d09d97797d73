//! Journals in files, after the fact: `rvmove replay`, with which the host of one journal does again what it tells, and
//! `rvmove audit-journals`, which looks for one order of all that the hosts of a world did.
//!
//! Stands on `rvm_journal` for the lines of journals and the hosts that do again what they tell, and on `rvm_audit` for
//! the order. It must not know files, sockets or workers.
//!
//! To be read in this order: `file`, `replaying`, `hosts`, `report`, `console_of_journal`, `replay_command`,
//! `replay_session`; `headers`, `meetings`, `kept`, `world`, `cuts`, `counts`, `account`, `summary`, `drawing`, `chart`,
//! `places`, `progress`, `audit`; `journal_turns`, `turns`, `turn_session`.
#![tactic(auto)]

mod account;
pub mod audit;
mod chart;
mod console_of_journal;
mod counts;
mod cuts;
mod drawing;
pub mod file;
mod headers;
mod hosts;
mod journal_turns;
mod kept;
mod meetings;
mod places;
mod progress;
pub mod replay_command;
pub mod replay_session;
mod replaying;
mod report;
mod summary;
pub mod turn_session;
mod turns;
mod world;
