//! What stands in the registers that a node keeps itself.

ghost use Rattle.std.specs.Prelude.{◌≡◌, ◌≤◌};
ghost use Rattle.fw_node.specs.Contents.{node_ids, cycle_time, capabilities};

use fw_async::node_id;
use fw_avc::COMPANY_ID;
use fw_csr::{CYCLES_PER_SECOND, SPLIT_TIMEOUT};
use fw_terms::DeviceKind;
use fw_words::with_field;

/// SPLIT_TIMEOUT_LO: the cycles, in the top 13 bits.
pub const SPLIT_TIMEOUT_LOW: u32 = (SPLIT_TIMEOUT as u32) << 19;
/// The letters "1394".
pub const NAME_1394: u32 = 0x3133_3934;
/// The high quadlet of the EUI-64: the company, and a 0. Its low quadlet is the device's number (own).
pub const COMPANY: u32 = COMPANY_ID << 8;

/// NODE_IDS: the node ID in the high 16 bits.
pub fn node_ids(number: u8) -> u32
    requires { number ≤ 62 }
    ensures { result ≡ node_ids number }
{
    u32::from(node_id(number)) << 16
}

/// CYCLE_TIME at a cycle number: seconds modulo 128, the cycle of the second, and cycle_offset 0 (own).
pub fn cycle_time(now: u64) -> u32
    ensures { result ≡ cycle_time now }
{
    let second_count = (now / CYCLES_PER_SECOND % 128) as u32;
    let cycle_count = (now % CYCLES_PER_SECOND) as u32;
    with_field(with_field(second_count, 13, cycle_count), 12, 0)
}

/// The capabilities: irmc of a contender, cmc and isc of a device with a link, bmc of one that may be the bus manager, then 28 zeros
/// (own).
pub fn capabilities(kind: DeviceKind) -> u32
    ensures { result ≡ capabilities kind }
{
    let irmc = u32::from(kind.is_contender());
    let link = u32::from(kind.has_link());
    let bmc = u32::from(kind.is_capable());
    (irmc << 31) + (link << 30) + (link << 29) + (bmc << 28)
}
