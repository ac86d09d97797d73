//! Hosts: the reply to an event, the frame that it makes and the host after it are what the protocol of live migration
//! says, and depend on this host and this event alone. Each frame can be sent to another host, and its greatest length
//! is known before the event.
//!
//! Stands on `rvm_source`, `rvm_handover` and `rvm_message`, and must not know worlds, threads or links.
//!
//! To be read in this order: `mode`, `source`, `target`, `status`, `bound`, `limits`, `host`.
#![tactic(auto)]

mod bound;
mod host;
mod limits;
mod mode;
mod source;
mod status;
mod target;

pub use host::Host;
pub use limits::{BadSize, MAX_HOSTS, is_spoken, version_of};
pub use status::{HostStatus, ModeKind};
