//! The company of each unit, an invented one (own).

/// Its ID, 24 bits.
pub const COMPANY_ID: u32 = 0xA0B0C0;

/// The high byte of its ID.
pub(crate) const HIGH: u8 = (COMPANY_ID >> 16) as u8;
/// The middle byte.
pub(crate) const MIDDLE: u8 = (COMPANY_ID >> 8 & 0xFF) as u8;
/// The low byte.
pub(crate) const LOW: u8 = (COMPANY_ID & 0xFF) as u8;
