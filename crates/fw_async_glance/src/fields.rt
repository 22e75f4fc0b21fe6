//! The fields of a packet, where they stand in its bytes.

ghost use Rattle.std.specs.Prelude.{◌≡◌, ◌≤◌, ◌<◌, ◌+◌, ◌/◌, ◌%◌, ◌^◌, length, take, drop};
ghost use Rattle.std.specs.Int.{to_be_bytes, w32};
ghost use Rattle.fw_words.specs.Quadlet.{field, quadlet_at};
ghost use Rattle.fw_words.specs.Layout.{packed};
ghost use Rattle.fw_async.specs.Async.{head_fields, HeadFits};
ghost use Rattle.fw_async_fields.specs.Reading.{tcode_of};

use fw_async::Head;
use fw_words::{Swap, quadlet_at};

/// The head.
#[inline(always)]
pub(crate) fn head_at(bytes: &[u8]) -> Head
    requires { 8 ≤ length bytes.now }
    ensures fits { HeadFits result }
    ensures first { packed (head_fields (tcode_of bytes.now) result) 0 ≡ quadlet_at bytes.now 0 }
    ensures source { result.source ≡ field (quadlet_at bytes.now 4) 0 15 }
{
    let first = quadlet_at(bytes, 0);
    Head {
        destination: first.field(0, 15) as u16,
        tl: first.field(16, 21) as u8,
        rt: first.field(22, 23) as u8,
        pri: first.field(28, 31) as u8,
        source: quadlet_at(bytes, 4).field(0, 15) as u16,
    }
}

/// The destination_offset of a request.
#[inline(always)]
pub(crate) fn offset_at(bytes: &[u8]) -> u64
    requires { 12 ≤ length bytes.now }
    ensures small { result < 2 ^ 48 }
    ensures high { result / 2 ^ 32 ≡ field (quadlet_at bytes.now 4) 16 31 }
    ensures low { result % 2 ^ 32 ≡ quadlet_at bytes.now 8 }
{
    ((quadlet_at(bytes, 4).field(16, 31) as u64) << 32) + quadlet_at(bytes, 8).0 as u64
}

/// The response code of a response.
#[inline(always)]
pub(crate) fn rcode_at(bytes: &[u8]) -> u8
    requires { 8 ≤ length bytes.now }
    ensures { result ≡ field (quadlet_at bytes.now 4) 16 19 }
{
    quadlet_at(bytes, 4).field(16, 19) as u8
}

/// The two quadlets of data that stand after quadlet 3.
#[inline(always)]
pub(crate) fn swap_at(bytes: &[u8]) -> Swap
    requires { 24 ≤ length bytes.now }
    ensures argument { to_be_bytes w32 result.argument ≡ take 4 (drop 16 bytes.now) }
    ensures new { to_be_bytes w32 result.new ≡ take 4 (drop 20 bytes.now) }
{
    Swap {
        argument: quadlet_at(bytes, 16).0,
        new: quadlet_at(bytes, 20).0,
    }
}
