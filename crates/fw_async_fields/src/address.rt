//! What stands beside the source in quadlets 1 and 2.

ghost use Rattle.std.specs.Prelude.{◌≡◌, ◌≤◌, ◌<◌, ◌/◌, ◌%◌, ◌^◌, length};
ghost use Rattle.fw_words.specs.Quadlet.{field, quadlet_at};

use fw_words::quadlet_at;

/// The destination_offset of a request.
pub fn offset_at(bytes: &[u8]) -> u64
    requires { 12 ≤ length bytes.now }
    ensures small { result < 2 ^ 48 }
    ensures high { result / 2 ^ 32 ≡ field (quadlet_at bytes.now 4) 16 31 }
    ensures low { result % 2 ^ 32 ≡ quadlet_at bytes.now 8 }
{
    ((quadlet_at(bytes, 4).field(16, 31) as u64) << 32) + quadlet_at(bytes, 8).0 as u64
}

/// The response code of a response.
pub fn rcode_at(bytes: &[u8]) -> u8
    requires { 8 ≤ length bytes.now }
    ensures { result ≡ field (quadlet_at bytes.now 4) 16 19 }
{
    quadlet_at(bytes, 4).field(16, 19) as u8
}
