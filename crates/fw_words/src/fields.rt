ghost use Rattle.std.specs.Prelude.{◌≡◌, ◌≤◌, ◌<◌, ◌+◌, ◌-◌, ◌*◌, ◌^◌};
ghost use Rattle.fw_words.specs.Quadlet.{first_set};

use crate::Quadlet;

/// The first of the bits `first` to `last` that is 1.
pub fn first_set(q: Quadlet, first: u8, last: u8) -> Option<u8>
    requires order { first ≤ last }
    requires range { last ≤ 31 }
    ensures { result ≡ first_set q.0 first (last + 1 - first) }
{
    for bit in first..last + 1 {
        if q.field(bit, bit) == 1 {
            return Some(bit);
        }
    }
    None
}

/// A quadlet under construction with one field more: the fields before are in `q`, and `value` takes the
/// next `width` bits.
pub fn with_field(q: u32, width: u8, value: u32) -> u32
    requires width { width < 32 }
    requires value { value < 2 ^ width }
    requires room { q * 2 ^ width + value < 2 ^ 32 }
    ensures { result ≡ q * 2 ^ width + value }
{
    (q << width) | value
}
