//! Greetings: what two ends say byte by byte, made by another program, and what is told to an end that does not know
//! the secret.

use rvm_link::{GreetingFault, Registry, Secret, accept, greet};
use std::test::Fail;

/// The secret of both ends.
static SECRET: &[u8] = b"open sesame";

/// What host 1 says, the connector: its nonce is 32 bytes of 17, its world 9 and its process 86.
static CONNECTOR: [u8; 99] = [
    114, 118, 109, 111, 118, 101, 49, 10, 1, 2, 3, 17, 17, 17, 17, 17, 17, 17, 17, 17, 17, 17, 17,
    17, 17, 17, 17, 17, 17, 17, 17, 17, 17, 17, 17, 17, 17, 17, 17, 17, 17, 17, 17, 32, 29, 48,
    232, 182, 66, 36, 73, 176, 69, 114, 249, 87, 54, 64, 23, 53, 84, 192, 210, 178, 124, 192, 89,
    204, 54, 6, 211, 143, 167, 246, 189, 9, 0, 0, 0, 0, 0, 0, 0, 86, 0, 0, 0, 0, 0, 0, 0, 0, 0, 0,
    0, 0, 0, 0, 0,
];

/// What host 2 says, the acceptor: its nonce is 32 bytes of 34, it knows no world, and its process is 70.
static ACCEPTOR: [u8; 99] = [
    114, 118, 109, 111, 118, 101, 49, 10, 2, 1, 3, 34, 34, 34, 34, 34, 34, 34, 34, 34, 34, 34, 34,
    34, 34, 34, 34, 34, 34, 34, 34, 34, 34, 34, 34, 34, 34, 34, 34, 34, 34, 34, 34, 242, 65, 114,
    225, 238, 7, 27, 233, 38, 116, 251, 100, 38, 29, 229, 242, 98, 55, 80, 11, 27, 125, 38, 94,
    194, 164, 189, 124, 127, 253, 78, 188, 0, 0, 0, 0, 0, 0, 0, 0, 70, 0, 0, 0, 0, 0, 0, 0, 0, 0,
    0, 0, 0, 0, 0, 0,
];

#[test]
fn the_connector_greets(rt: HostRuntime) -> Result<(), Fail> {
    let registry = Registry::new(1, 3, 86, 9);
    let secret = Secret::new(SECRET);
    let mut input = ACCEPTOR.as_slice();
    let mut room = [0u8; 99];
    let mut output = room.as_mut_slice();
    let greeted = greet(&mut input, &mut output, &secret, &registry, 2, &[17; 32]);
    assert!(rt; greeted.is_ok());
    assert!(rt; room.as_slice() == CONNECTOR.as_slice());
    Ok(())
}

#[test]
fn the_acceptor_answers(rt: HostRuntime) -> Result<(), Fail> {
    let registry = Registry::new(2, 3, 70, 0);
    let secret = Secret::new(SECRET);
    let mut input = CONNECTOR.as_slice();
    let mut room = [0u8; 99];
    let mut output = room.as_mut_slice();
    let greeted = accept(&mut input, &mut output, &secret, &registry, &[34; 32]);
    assert!(rt; greeted.is_ok());
    assert!(rt; room.as_slice() == ACCEPTOR.as_slice());
    Ok(())
}

#[test]
fn a_stranger_is_told_the_opening_alone(rt: HostRuntime) -> Result<(), Fail> {
    let registry = Registry::new(2, 3, 70, 0);
    let secret = Secret::new("another".as_bytes());
    let mut input = CONNECTOR.as_slice();
    // There is room for an opening, and a longer write would fail.
    let mut room = [0u8; 43];
    let mut output = room.as_mut_slice();
    let refused = accept(&mut input, &mut output, &secret, &registry, &[34; 32]);
    assert!(rt; matches!(refused, Err(GreetingFault::WrongSecret)));
    assert!(rt; ACCEPTOR.starts_with(&room));
    Ok(())
}
