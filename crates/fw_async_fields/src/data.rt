//! Quadlet 3 of blocks and locks, and the data after it.

ghost use Rattle.std.specs.Prelude.{◌≡◌, ◌≤◌, ◌+◌, length, take, drop, replicate};
ghost use Rattle.fw_words.specs.Quadlet.{field, quadlet_at};
ghost use Rattle.fw_async_fields.specs.Data.{AreBytes, padding};

use fw_words::{Bytes, Data, quadlet_at};

/// data_length: how many bytes of data there are, without their padding.
pub fn length_at(bytes: &[u8]) -> usize
    requires { 16 ≤ length bytes.now }
    ensures { result ≡ field (quadlet_at bytes.now 12) 0 15 }
{
    quadlet_at(bytes, 12).field(0, 15) as usize
}

/// What stands beside data_length: an extended_tcode, or 0.
pub fn function_at(bytes: &[u8]) -> u32
    requires { 16 ≤ length bytes.now }
    ensures { result ≡ field (quadlet_at bytes.now 12) 16 31 }
{
    quadlet_at(bytes, 12).field(16, 31)
}

/// The data of a block, after quadlet 3.
pub fn block_at<'a>(bytes: &'a [u8]) -> Data<'a>
    requires begun { 16 ≤ length bytes.now }
    requires there { 16 + field (quadlet_at bytes.now 12) 0 15 ≤ length bytes.now }
    ensures value { result ≡ take (field (quadlet_at bytes.now 12) 0 15) (drop 16 bytes.now) }
    ensures size { length result ≡ field (quadlet_at bytes.now 12) 0 15 }
    ensures bytes { AreBytes result }
{
    Data::new(&bytes[16..16 + length_at(bytes)])
}

/// The data of a lock, after quadlet 3.
pub fn data_at<const N: usize>(bytes: &[u8]) -> Bytes<N>
    requires begun { 16 ≤ length bytes.now }
    requires room { field (quadlet_at bytes.now 12) 0 15 ≤ N }
    requires there { 16 + field (quadlet_at bytes.now 12) 0 15 ≤ length bytes.now }
    ensures value { result ≡ take (field (quadlet_at bytes.now 12) 0 15) (drop 16 bytes.now) }
    ensures size { length result ≡ field (quadlet_at bytes.now 12) 0 15 }
    ensures bytes { AreBytes result }
{
    let mut data = Bytes::new();
    data.append(&bytes[16..16 + length_at(bytes)]);
    data
}

/// The zeros after so many bytes of data.
pub fn padding_of(count: usize) -> &'static [u8]
    requires { count ≤ 512 }
    ensures { result.now ≡ replicate (padding count) 0 }
{
    &[0; 3][..3 * count % 4]
}
