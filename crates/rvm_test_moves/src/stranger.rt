//! A stranger that connects before the other host.

use rvm_move::connect_both;
use rvm_refusal::Refusal;
use std::io;
use std::net::{Net, SocketAddr};

/// A network in which a stranger connects to each port first, and leaves.
#[derive(Drop)]
struct Crowded<'r, R: Net> {
    rt: &'r R,
}

impl<R: Net> Net for Crowded<'_, R> {
    type Stream = R::Stream;

    type Listener = R::Listener;

    fn bind(&self, address: SocketAddr) -> io::Result<R::Listener> {
        self.rt.bind(address)
    }

    fn connect(&self, address: SocketAddr) -> io::Result<R::Stream> {
        let stranger = self.rt.connect(address)?;
        drop(stranger);
        self.rt.connect(address)
    }
}

/// Connects two hosts after a stranger has connected, and prints whether that is refused.
pub fn meet_a_stranger<R: AllocGlobal + Print + Net>(rt: &R) -> anyhow::Result<()> {
    let is_refused = match connect_both(&Crowded { rt }, rt.alloc()) {
        Ok(links) => {
            drop(links);
            false
        }
        Err(why) => why == Refusal::LinkFault,
    };
    println!(rt; "a stranger connects first: LinkFault {is_refused}")?;
    Ok(())
}
