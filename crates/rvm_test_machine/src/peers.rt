//! The hosts of a world, as a file names them: what is read, and what no clause says, that there is memory for it.

use rvm_link::read_peers;
use std::test::Fail;

/// Two hosts.
static WORLD: &[u8] = b"# a world\nA 10.0.0.1:7001\r\n\n B farm:7002 \n";

#[test]
fn two_hosts_are_read(rt: HostRuntime) -> Result<(), Fail> {
    let peers = read_peers(rt.alloc(), WORLD)?;
    assert_eq!(rt; peers.count(), 2);
    assert!(rt; peers.address(0) == Some(b"10.0.0.1:7001".as_slice()));
    assert!(rt; peers.address(1) == Some(b"farm:7002".as_slice()));
    Ok(())
}
