//! The fields of a packet, read from where they stand in its bytes.

ghost use Rattle.std.specs.Prelude.{◌≡◌, ◌≤◌, IfSome, length};
ghost use Rattle.fw_async_fields.specs.Reading.{tcode_of};
ghost use Rattle.fw_log_json_packets.specs.Standing.{head_standing, offset_standing, rcode_standing, block_standing};
ghost use Rattle.fw_log_json_packets.specs.Usual.{IsUsualCode, IsUsualHead};

use crate::digits::LONGEST;
use crate::fields::{ADDRESS_ERROR, COMPLETE};
use fw_async::Head;
use fw_words::quadlet_at;

/// The retry code retry_X (IEEE 1394-1995, retry codes).
const RETRY_X: u32 = 1;

/// The head.
#[inline(always)]
pub(crate) fn head_in(bytes: &[u8]) -> Head
    requires { 8 ≤ length bytes.now }
    ensures { result ≡ head_standing bytes.now }
{
    let first = quadlet_at(bytes, 0);
    Head {
        destination: first.field(0, 15) as u16,
        tl: first.field(16, 21) as u8,
        rt: first.field(22, 23) as u8,
        pri: first.field(28, 31) as u8,
        source: quadlet_at(bytes, 4).field(0, 15) as u16,
    }
}

/// The transaction code of a packet that has the retry code and the priority of most.
#[inline(always)]
pub(crate) fn usual_code(bytes: &[u8]) -> Option<u32>
    requires { 8 ≤ length bytes.now }
    ensures { IfSome result (λ t. (t ≡ tcode_of bytes.now) × IsUsualHead (head_standing bytes.now)) }
{
    let first = quadlet_at(bytes, 0);
    if first.field(22, 23) == RETRY_X && first.field(28, 31) == 0 {
        Some(first.field(24, 27))
    } else {
        None
    }
}

/// The offset of a request.
#[inline(always)]
pub(crate) fn offset_in(bytes: &[u8]) -> u64
    requires { 12 ≤ length bytes.now }
    ensures { result ≡ offset_standing bytes.now }
{
    ((quadlet_at(bytes, 4).field(16, 31) as u64) << 32) + quadlet_at(bytes, 8).0 as u64
}

/// The response code of a response, if it is one of the usual.
#[inline(always)]
pub(crate) fn rcode_in(bytes: &[u8]) -> Option<u8>
    requires { 8 ≤ length bytes.now }
    ensures { IfSome result (λ r. (r ≡ rcode_standing bytes.now) × IsUsualCode r) }
{
    let rcode = quadlet_at(bytes, 4).field(16, 19) as u8;
    if rcode == COMPLETE || rcode == ADDRESS_ERROR {
        Some(rcode)
    } else {
        None
    }
}

/// The bytes of a block after its size, if they are not too many.
#[inline(always)]
pub(crate) fn block_in<'a>(bytes: &'a [u8]) -> Option<&'a [u8]>
    requires { 16 ≤ length bytes.now }
    ensures { IfSome result (λ d. (d.now ≡ block_standing bytes.now) × (length d.now ≤ 512)) }
{
    let size = quadlet_at(bytes, 12).field(0, 15) as usize;
    if size <= LONGEST && size <= bytes.len() - 16 {
        Some(&bytes[16..16 + size])
    } else {
        None
    }
}
