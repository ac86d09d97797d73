//! Gates, which workers pass before and after each call.

ghost use Rattle.std.specs.Prelude.{◌≡◌, ◌+◌, ◌-◌, ◌^◌, ℕ, false, true, min, IfErr, OnOk};
ghost use Rattle.rvm_cell.specs.declared.gate.Worker.{Worker};
ghost use Rattle.rvm_cell.specs.Workers.{number_of};

use crate::end::WorkEnd;

/// The workers of a move from host A to host B.
#[derive(Clone, Copy, Debug, PartialEq, Eq)]
pub enum Worker {
    Harts,
    Copier,
    ReceiverAtA,
    ReceiverAtB,
}

impl Worker {
    /// The number of this worker, 0 to 3.
    pub fn number(self) -> u32
        ensures { result ≡ number_of self }
    {
        match self {
            Worker::Harts => 0,
            Worker::Copier => 1,
            Worker::ReceiverAtA => 2,
            Worker::ReceiverAtB => 3,
        }
    }
}

/// What a worker passes before and after each call. The calls of each worker are numbered from 0; a slice is one call.
pub trait Gate {
    /// The gate let this call of a worker pass. Only `before` can show it.
    ghost has_passed: { Self → Worker → ℕ → Type 0 } = { λ _ _ _. Unit {0} };

    /// The gate refused this call of a worker. Only `before` can show it.
    ghost has_refused: { Self → Worker → ℕ → Type 0 } = { λ _ _ _. Unit {0} };

    /// The gate was told that this call of a worker was made. Only `after` can show it.
    ghost has_heard: { Self → Worker → ℕ → Type 0 } = { λ _ _ _. Unit {0} };

    /// Whether the call may be made; if not, the worker ends.
    fn before(&self, worker: Worker, call: u32) -> bool
        ensures passed { result ≡ true → has_passed self.now worker call }
        ensures refused { result ≡ false → has_refused self.now worker call };

    /// Takes note that the call was made, after the frame that it made, if any, was handed to its sending end.
    fn after(&self, worker: Worker, call: u32)
        ensures { has_heard self.now worker call };
}

/// A worker at its gate, and how many calls it has made.
#[derive(Drop)]
pub struct Watch<'g, G: Gate> {
    gate: &'g G,
    worker: Worker,
    calls: u32,
}

impl<'g, G: Gate> Watch<'g, G> {
    /// A worker at its gate, before its first call.
    pub fn new(gate: &'g G, worker: Worker) -> Watch<'g, G>
        ensures worker { result.worker ≡ worker }
        ensures none { result.calls ≡ 0 }
    {
        Watch {
            gate,
            worker,
            calls: 0,
        }
    }

    /// Waits until the gate lets the next call pass. `Stopped` if it refuses the call: the worker must end.
    pub fn before(&self) -> Result<(), WorkEnd>
        ensures passed { OnOk result (G.has_passed self.now.gate.now self.now.worker self.now.calls) }
        ensures refused { IfErr result (λ e. G.has_refused self.now.gate.now self.now.worker self.now.calls) }
        ensures stopped { IfErr result (λ e. e ≡ WorkEnd.Stopped) }
    {
        if self.gate.before(self.worker, self.calls) {
            Ok(())
        } else {
            Err(WorkEnd::Stopped)
        }
    }

    /// Tells the gate that the call was made, and counts it. All calls from number 2^32 - 1 on have that number.
    pub fn after(&mut self)
        ensures heard { G.has_heard self.old.gate.now self.old.worker self.old.calls }
        ensures worker { self.new.worker ≡ self.old.worker }
        ensures counted { self.new.calls ≡ min (self.old.calls + 1) (2 ^ 32 - 1) }
    {
        self.gate.after(self.worker, self.calls);
        self.calls = self.calls.saturating_add(1);
    }
}
