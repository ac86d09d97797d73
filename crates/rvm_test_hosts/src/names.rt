//! The public names that a crate's name promises, wherever their code lies: that they are there is what this shows.

pub use rvm_asm::{AsmError, Image, Segment, assemble};
pub use rvm_audit::{AuditError, audit};
pub use rvm_board::Board;
pub use rvm_cell::{
    CloseFault, Gate, Journal, Link, Receipt, RecordFault, Recorded, Seat, SharedHost, close,
    copier_worker, hart_worker, receiver_worker, share,
};
pub use rvm_core::{
    Command, Event, Host, HostEvent, HostId, HostReply, Reply, World, drive_move, run_world,
    run_world_script,
};
pub use rvm_csr::CsrFile;
pub use rvm_debug::{BoardEvent, BoardReply, Debugged, run_script};
pub use rvm_dev::{Devices, InputFull};
pub use rvm_dis::write_ins;
pub use rvm_elf::{load, raw_image, read_image, write_image};
pub use rvm_frame::{
    Addressed, Frame, FrameFault, FrameReader, append_frame, frame_bytes, read_frame, write_frame,
};
pub use rvm_handover::Staging;
pub use rvm_hart::{Bus, Hart, Stepped};
pub use rvm_isa::{CsrNo, Imm12, Imm20, Ins, Off13, Off21, Reg, Shamt, decode, encode};
pub use rvm_mem::{FlatMemory, Memory, PageSet, PagedMemory, read_bytes, write_bytes};
pub use rvm_paged::PagedRam;
pub use rvm_precopy::{Next, Rounds};
pub use rvm_res::Reservations;
pub use rvm_state::{StateFault, read_state, write_state};
pub use rvm_text::{number, register_name, tokens};
pub use rvm_word::{div, divu, mulh, mulhsu, mulhu, rem, remu, sext, sra};
