//! Bytes that are typed for the guest's console.

use std::alloc::{AllocError, Global};
use std::collections::VecDeque;
use std::io::Read;
use std::sync::{Condvar, Mutex, Wait};

/// The most bytes that wait, of those that are read while the guest runs.
const MAX_WAITING: usize = 4096;

/// Bytes that wait for the guest's console. While 4096 wait, no more are added. Each call may wait for another thread.
#[derive(Drop)]
pub struct InputQueue {
    bytes: Mutex<VecDeque<u8>>,
    /// Wakes whoever waits for room.
    taken: Condvar,
}

impl InputQueue {
    /// The empty queue.
    pub fn new(alloc: Global) -> InputQueue {
        InputQueue {
            bytes: Mutex::new(VecDeque::new(alloc)),
            taken: Condvar::new(),
        }
    }

    /// The queue of these bytes, however many they are.
    pub fn with(alloc: Global, bytes: &[u8]) -> Result<InputQueue, AllocError> {
        let mut waiting = VecDeque::new(alloc);
        for byte in bytes {
            waiting.push_back(*byte)?;
        }
        Ok(InputQueue {
            bytes: Mutex::new(waiting),
            taken: Condvar::new(),
        })
    }

    /// The next byte, which stays in the queue.
    pub(crate) fn first<R: Wait>(&self, rt: &R) -> Option<u8> {
        self.bytes.lock(rt).front().copied()
    }

    /// Removes the next byte.
    pub(crate) fn take_first<R: Wait>(&self, rt: &R) {
        let _taken = self.bytes.lock(rt).pop_front();
        self.taken.notify_all();
    }

    /// Waits until fewer than 4096 bytes wait, and adds a byte after the others. Returns whether it was added: it is
    /// not if memory runs out, which ends the reader.
    fn push<R: Wait>(&self, rt: &R, byte: u8) -> bool {
        let mut bytes = self.taken.wait_while(
            rt,
            self.bytes.lock(rt),
            |bytes| bytes.len() >= MAX_WAITING,
        );
        bytes.push_back(byte).is_ok()
    }
}

/// Reads bytes for the console, as fast as the guest takes them, until there are no more, a read fails, or memory runs
/// out.
pub fn read_input<I: Read, R: Wait>(rt: &R, reader: &mut I, queue: &InputQueue) {
    let mut buffer = [0u8; 256];
    for _read in rt.forever() {
        match reader.read(&mut buffer) {
            Ok(0) | Err(_) => return,
            Ok(count) => {
                for byte in &buffer[..count] {
                    if !queue.push(rt, *byte) {
                        return;
                    }
                }
            }
        }
    }
    unreachable!()
}
