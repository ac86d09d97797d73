//! Values as bytes: little-endian numbers, lists of them, and codecs put together from smaller ones.
//!
//! Stands on `byteorder` and `arrayvec`, and must not know any format: frames, a board's state and images are described
//! with the codecs of `specs/`, and read and written with the functions here.
//!
//! To be read in this order: `fields`, `lists`, `append`, `write`, `laws`.
#![tactic(auto)]

mod append;
mod fields;
pub mod laws;
mod lists;
mod write;

pub use append::{
    append_bytes, append_flag, append_u8, append_u16, append_u16s, append_u32, append_u32s,
    append_u64,
};
pub use fields::{
    bytes_at, flag_at, u8_at, u8_within, u16_at, u16_within, u32_at, u32_within, u64_at,
};
pub use lists::{u16s_rise, u16s_within, u32s_rise, u32s_within};
pub use write::{write_u16s, write_u32s};
