//! Control and status registers (IEEE 1394-1995, 8): requests at a register and their replies, a register that a
//! compare_swap changes, and the four registers of the isochronous resource manager.
#![tactic(auto)]

mod access;
mod laws;
pub mod low_offset;
mod manager;
pub mod offset;
mod register;
mod reply;
mod request;
mod time;
mod word;

pub use access::QuadletAccess;
pub use laws::{registers_stand_at_their_low_offsets, registers_stand_at_their_offsets};
pub use manager::{Manager, NO_BUS_MANAGER};
pub use offset::{
    BANDWIDTH_AVAILABLE, BUS_MANAGER_ID, CHANNELS_AVAILABLE_HI, CHANNELS_AVAILABLE_LO,
    REGISTER_SPACE,
};
pub use register::RegisterAccess;
pub use reply::{Reply, ResponseCode};
pub use request::{RegisterRequest, Request};
pub use time::{CYCLES_PER_SECOND, SPLIT_TIMEOUT};
pub use word::Word;
