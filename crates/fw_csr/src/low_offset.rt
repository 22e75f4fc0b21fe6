//! The offsets of registers as scripts, logs and the account of a log have them: the low 12 bits of a destination_offset,
//! counted from FFFF F000 0000 (IEEE 1394-1995, initial register space).

use crate::offset;
use crate::offset::REGISTER_SPACE;

/// BUS_MANAGER_ID.
pub const BUS_MANAGER_ID: u64 = offset::BUS_MANAGER_ID - REGISTER_SPACE;
/// BANDWIDTH_AVAILABLE.
pub const BANDWIDTH_AVAILABLE: u64 = offset::BANDWIDTH_AVAILABLE - REGISTER_SPACE;
/// CHANNELS_AVAILABLE_HI.
pub const CHANNELS_AVAILABLE_HI: u64 = offset::CHANNELS_AVAILABLE_HI - REGISTER_SPACE;
/// CHANNELS_AVAILABLE_LO.
pub const CHANNELS_AVAILABLE_LO: u64 = offset::CHANNELS_AVAILABLE_LO - REGISTER_SPACE;

/// The first of the 31 output plug control registers.
pub const OPCR: u64 = offset::OPCR - REGISTER_SPACE;
/// The last of them.
pub const LAST_OPCR: u64 = OPCR + 4 * 30;
/// The first of the 31 input plug control registers.
pub const IPCR: u64 = offset::IPCR - REGISTER_SPACE;
/// The last of them.
pub const LAST_IPCR: u64 = offset::LAST_PLUG_REGISTER - REGISTER_SPACE;
