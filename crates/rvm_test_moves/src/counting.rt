//! A gate that counts calls.

use rvm_cell::{Gate, Worker};
use std::sync::atomic::{AtomicBool, AtomicU32, Ordering};

/// A gate that lets each call pass, counts those of each worker, and checks that each is announced and told with the
/// next number.
#[derive(Drop)]
pub struct CountingGate {
    harts: AtomicU32,
    copier: AtomicU32,
    receiver_a: AtomicU32,
    receiver_b: AtomicU32,
    is_wrong: AtomicBool,
}

impl CountingGate {
    /// A gate that no call has passed yet.
    pub fn new() -> CountingGate {
        CountingGate {
            harts: AtomicU32::new(0),
            copier: AtomicU32::new(0),
            receiver_a: AtomicU32::new(0),
            receiver_b: AtomicU32::new(0),
            is_wrong: AtomicBool::new(false),
        }
    }

    /// The count of a worker's calls.
    fn count_of(&self, worker: Worker) -> &AtomicU32 {
        match worker {
            Worker::Harts => &self.harts,
            Worker::Copier => &self.copier,
            Worker::ReceiverAtA => &self.receiver_a,
            Worker::ReceiverAtB => &self.receiver_b,
        }
    }

    /// The number of calls of a worker that the gate was told of.
    pub fn calls(&self, worker: Worker) -> u32 {
        self.count_of(worker).load(Ordering::SeqCst)
    }

    /// Whether each worker made calls, and each was announced and told with the next number.
    pub fn has_counted(&self) -> bool {
        let are_all = self.calls(Worker::Harts) > 0
            && self.calls(Worker::Copier) > 0
            && self.calls(Worker::ReceiverAtA) > 0
            && self.calls(Worker::ReceiverAtB) > 0;
        are_all && !self.is_wrong.load(Ordering::SeqCst)
    }

    /// Notes whether a call has the next number.
    fn note(&self, worker: Worker, call: u32) {
        if self.calls(worker) != call {
            self.is_wrong.store(true, Ordering::SeqCst);
        }
    }
}

impl Gate for CountingGate {
    fn before(&self, worker: Worker, call: u32) -> bool {
        self.note(worker, call);
        true
    }

    fn after(&self, worker: Worker, call: u32) {
        self.note(worker, call);
        self.count_of(worker)
            .store(call.wrapping_add(1), Ordering::SeqCst);
    }
}
