//! What lies between hosts. Who the hosts of a world are, and what their processes say to each other before frames: a
//! file of peers names the hosts, each on a line by its letter, consecutive from A on, and its address, which may be any
//! word; a greeting says who speaks, proves that both ends know the secret of their world, and tells which world and which
//! processes they have met. What carries frames: links, and the sending end of a side, which its workers share; the
//! records on a connection, which carry bytes of a stream, questions and answers; and the routes of a host process, its
//! sending ends to other hosts, which may be opened, lost and opened again. A route sends only records, which carry Hello
//! and whole frames that were made here for the host at its other end.
//!
//! Stands on `rvm_frame`, on `rvm_debug` for lines and their words, and on `sha2`. Must not know workers, guests or
//! sockets; the crates above define what it means that a host made a frame.
//!
//! To be read in this order: `link`, `error`, `spelled`, `outgoing`; `number`, `record`, `record_fault`; `made`,
//! `stream`, `route`, `routes`; of greetings, `peer_line`, `peers`; `message`, `opening`, `secret`, `facts`,
//! `greeting_fault`, `registry`, `greeting`.
#![tactic(auto)]

mod error;
mod facts;
mod greeting;
mod greeting_fault;
mod link;
mod made;
mod message;
mod number;
mod opening;
mod outgoing;
mod peer_line;
mod peers;
mod record;
mod record_fault;
mod registry;
mod route;
mod routes;
mod secret;
mod spelled;
mod stream;

pub use error::SendError;
pub use facts::Facts;
pub use greeting::{Greeted, accept, greet};
pub use greeting_fault::GreetingFault;
pub use link::{Link, LinkRead};
pub use made::{Made, Origin};
pub use number::{number_bytes, read_number};
pub use opening::{Opening, Role};
pub use outgoing::Outgoing;
pub use peer_line::MAX_PEERS;
pub use peers::{Peers, PeersFault, read_peers};
pub use record::{
    MAX_DATA, RecordRead, read_record, write_answer, write_data, write_head, write_question,
};
pub use record_fault::RecordFault;
pub use registry::Registry;
pub use routes::Routes;
pub use secret::Secret;
pub use spelled::{may_wait, spell};
