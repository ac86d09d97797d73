//! What holds of every step.

ghost use Rattle.std.specs.Prelude.{◌≡◌};
ghost use Rattle.rvm_hart.specs.Machine.{Machine, shape};
ghost use Rattle.rvm_hart.specs.Registers.{AreRegisters};
ghost use Rattle.rvm_hart.specs.Step.{step};
ghost use Rattle.rvm_mem.specs.Others.{Others};

/// No step changes the hart's number, the size of RAM, or the number of harts that the reservations
/// and devices are for.
pub fn a_step_keeps_the_shape()
    ensures { (m : Machine) → shape (step m).machine ≡ shape m }
{}

/// A step changes no page that it does not add to the dirty log.
pub fn a_step_leaves_other_pages()
    ensures { (m : Machine) → Others (step m).pages (step m).machine.shared.bytes m.shared.bytes }
{}

/// A step of a hart with 32 registers, of which x0 is 0, leaves it with 32 registers, of which x0
/// is 0.
pub fn a_step_keeps_the_registers()
    ensures { (m : Machine) → AreRegisters m.hart.regs → AreRegisters (step m).machine.hart.regs }
{}
