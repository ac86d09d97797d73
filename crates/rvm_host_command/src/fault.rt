//! Why a host process or a live run does not begin, or a host process ends before it is told to.

use rvm_command::refused::Refused;
use rvm_link::PeersFault;
use std::alloc::AllocError;
use std::io;
use thiserror::Error;

/// Why a host process or a live run does not begin, or a host process ends before it is told to.
#[derive(Clone, Copy, Debug, Error)]
pub enum HostFault {
    /// Memory ran out, or the system started no thread.
    #[error("out of memory, or no thread could be made")]
    OutOfMemory,
    /// The file of peers does not name the hosts of a world.
    #[error("--peers: {0}")]
    Peers(PeersFault),
    /// The file of peers names no host with this letter.
    #[error("NAME: --peers has no such host")]
    NoSuchHost,
    /// The file of the secret is empty.
    #[error("--secret: the file is empty")]
    EmptySecret,
    /// The guest cannot be loaded from its image.
    #[error("IMAGE: {0}")]
    Image(Refused),
    /// A text is no address, or its host name is not known.
    #[error("{0}: no such address")]
    NoAddress(Place),
    /// An address is no loopback address, but must be one: there is no secret, or it is the one for operators.
    #[error("{0}: only an address of this machine is allowed, 127.0.0.0/8 or ::1")]
    NotLoopback(Place),
    /// The system refuses to listen at an address: it is none of this machine, or something else listens there.
    #[error("{0}: cannot listen there: {1}")]
    CannotListen(Place, io::Error),
    /// No random number can be drawn.
    #[error("no random number can be drawn")]
    NoRandom,
    /// The first line of the journal cannot be written.
    #[error("--journal: the file cannot be written")]
    NoJournal,
}

/// Which of the addresses it is.
#[derive(Clone, Copy, Debug, PartialEq, Eq, Error)]
pub enum Place {
    /// The address at which this host listens for other hosts, as `--listen` names it.
    #[error("--listen")]
    Listen,
    /// The address or path at which this host listens for operators, as `--control` names it.
    #[error("--control")]
    Control,
    /// The address that the file of peers has for the host with this letter.
    #[error("--peers: {0}")]
    Peer(char),
}

impl From<PeersFault> for HostFault {
    fn from(fault: PeersFault) -> HostFault {
        HostFault::Peers(fault)
    }
}

impl From<AllocError> for HostFault {
    fn from(_error: AllocError) -> HostFault {
        HostFault::OutOfMemory
    }
}
