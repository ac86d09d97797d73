//! The board's devices: the halt word, the software interrupts and the timer (laid out as in the RISC-V ACLINT
//! specification, MSWI and MTIMER), and the console with its two queues.
//!
//! Stands on `rvm_word`, and on `circular_buffer` for the queues; must not know RAM, harts or instructions. Only
//! `Devices::new` takes memory. Addresses are the guest's, and each access is of an aligned word.
//!
//! To be read in this order: `register`, `fields`, `devices`.
#![tactic(auto)]

pub mod devices;
pub mod fields;
pub mod register;

pub use devices::{Devices, INPUT_CAPACITY, InputFull, OUTPUT_CAPACITY};
pub use fields::DeviceFields;
pub use register::Register;
