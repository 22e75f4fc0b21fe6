//! FCP frames (IEC 61883-1, 9; AV/C General 3.0, 6): what a controller writes to a unit, and what the unit writes back, as
//! bytes and back.
#![tactic(auto)]

mod codes;
mod frame;
mod padding;
mod read;
mod write;

pub use codes::{
    ACCEPTED, CHANGED, CONTROL, GENERAL_INQUIRY, IN_TRANSITION, INTERIM, NOT_IMPLEMENTED, NOTIFY,
    REJECTED, SPECIFIC_INQUIRY, STABLE, STATUS,
};
pub use frame::{Frame, Operands};
pub use padding::is_padding;
pub use read::read_frame;
pub use write::write_frame;

/// Why bytes are no frame, in the order of the tests.
#[derive(Clone, Copy, PartialEq, Eq)]
pub enum FrameFault {
    /// Fewer than three bytes are there.
    Short,
    /// The command transaction set, the first four bits, is this one and not 0, that of AV/C.
    NotAvc(u8),
    /// The command type or response code is this one, which is reserved: 5, 6, 7 or E hexadecimal.
    ReservedType(u8),
}
