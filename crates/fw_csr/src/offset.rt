//! The offsets of a node's control and status registers: destination_offset, 48 bits (IEEE 1394-1995, 8.3; those of
//! plugs and of AV/C frames IEC 61883-1, 7 and 9).

/// The destination_offset at which a node's registers begin (IEEE 1394-1995, initial register space).
pub const REGISTER_SPACE: u64 = 0xFFFF_F000_0000;

/// STATE_CLEAR: what the node's state is, and bits of it to clear.
pub const STATE_CLEAR: u64 = REGISTER_SPACE;
/// STATE_SET: bits of the node's state to set.
pub const STATE_SET: u64 = REGISTER_SPACE + 0x004;
/// NODE_IDS: the node ID in the high 16 bits.
pub const NODE_IDS: u64 = REGISTER_SPACE + 0x008;
/// RESET_START: a write resets the node.
pub const RESET_START: u64 = REGISTER_SPACE + 0x00C;
/// SPLIT_TIMEOUT_HI: the seconds after which a response is too late.
pub const SPLIT_TIMEOUT_HI: u64 = REGISTER_SPACE + 0x018;
/// SPLIT_TIMEOUT_LO: the cycles of the second beside them.
pub const SPLIT_TIMEOUT_LO: u64 = REGISTER_SPACE + 0x01C;

/// CYCLE_TIME: where the second's cycles stand.
pub const CYCLE_TIME: u64 = REGISTER_SPACE + 0x200;
/// BUS_TIME: the seconds.
pub const BUS_TIME: u64 = REGISTER_SPACE + 0x204;
/// BUSY_TIMEOUT: how long a busy node is asked again.
pub const BUSY_TIMEOUT: u64 = REGISTER_SPACE + 0x210;
/// PRIORITY_BUDGET: how many priority requests the node may make (IEEE 1394a).
pub const PRIORITY_BUDGET: u64 = REGISTER_SPACE + 0x218;

/// BUS_MANAGER_ID: who is the bus manager, at the isochronous resource manager.
pub const BUS_MANAGER_ID: u64 = REGISTER_SPACE + 0x21C;
/// BANDWIDTH_AVAILABLE: the bandwidth allocation units that are left, at the isochronous resource manager.
pub const BANDWIDTH_AVAILABLE: u64 = REGISTER_SPACE + 0x220;
/// CHANNELS_AVAILABLE_HI: which of the channels 0 to 31 are free, at the isochronous resource manager.
pub const CHANNELS_AVAILABLE_HI: u64 = REGISTER_SPACE + 0x224;
/// CHANNELS_AVAILABLE_LO: which of the channels 32 to 63 are free, at the isochronous resource manager.
pub const CHANNELS_AVAILABLE_LO: u64 = REGISTER_SPACE + 0x228;

/// MAINT_UTILITY: a word for tests (IEEE 1394a).
pub const MAINT_UTILITY: u64 = REGISTER_SPACE + 0x230;
/// BROADCAST_CHANNEL: the channel of asynchronous streams (IEEE 1394a).
pub const BROADCAST_CHANNEL: u64 = REGISTER_SPACE + 0x234;

/// The first quadlet of the configuration ROM.
pub const CONFIG_ROM: u64 = REGISTER_SPACE + 0x400;
/// The bus name, first quadlet of the bus information block.
pub const BUS_NAME: u64 = REGISTER_SPACE + 0x404;
/// The capabilities, second quadlet of the bus information block.
pub const BUS_OPTIONS: u64 = REGISTER_SPACE + 0x408;
/// The high quadlet of the EUI-64: the company and the first bits of the device's number.
pub const EUI_64_HI: u64 = REGISTER_SPACE + 0x40C;
/// The low quadlet of the EUI-64: the rest of the device's number.
pub const EUI_64_LO: u64 = REGISTER_SPACE + 0x410;

/// The output master plug register.
pub const OMPR: u64 = REGISTER_SPACE + 0x900;
/// The first output plug control register; the others follow it, a quadlet each.
pub const OPCR: u64 = REGISTER_SPACE + 0x904;
/// The input master plug register.
pub const IMPR: u64 = REGISTER_SPACE + 0x980;
/// The first input plug control register; the others follow it, a quadlet each.
pub const IPCR: u64 = REGISTER_SPACE + 0x984;
/// The last of the plug control registers.
pub const LAST_PLUG_REGISTER: u64 = REGISTER_SPACE + 0x9FC;

/// Where AV/C command frames are written.
pub const FCP_COMMAND: u64 = REGISTER_SPACE + 0xB00;
/// Where AV/C response frames are written.
pub const FCP_RESPONSE: u64 = REGISTER_SPACE + 0xD00;

/// The first quadlet of the bus manager's map of the topology.
pub const TOPOLOGY_MAP: u64 = REGISTER_SPACE + 0x1000;
