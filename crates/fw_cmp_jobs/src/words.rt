//! What the words of the isochronous resource manager's registers say, and the words that a controller writes there.

ghost use Rattle.std.specs.Prelude.{◌≡◌, ◌<◌, ◌≤◌, ◌-◌, ◌^◌, IfSome, IsTrue};
ghost use Rattle.fw_terms.specs.Tables.{find_to};
ghost use Rattle.fw_cmp_jobs.specs.Plugs.{half_of, is_bit, with_bit, without_bit, remainder_of};

use fw_words::Quadlet;

/// The remainder that a word of BANDWIDTH_AVAILABLE shows.
pub(crate) fn remainder(word: u32) -> u32
    ensures value { result ≡ remainder_of word }
    ensures within { result ≤ word }
{
    Quadlet(word).field(19, 31)
}

/// The first channel of the CHANNELS_AVAILABLE register that a channel stands in.
pub(crate) fn half_of(channel: u8) -> u8
    ensures { result ≡ half_of channel }
{
    if channel < 32 { 0 } else { 32 }
}

/// The first bit that is 1 in a word of CHANNELS_AVAILABLE.
pub(crate) fn first_free(word: u32) -> Option<u8>
    ensures first { result ≡ find_to 32 (is_bit word) }
    ensures within { IfSome result (λ i. i < 32) }
    ensures free { IfSome result (λ i. IsTrue (is_bit word i)) }
{
    for i in 0..32 {
        if Quadlet(word).field(i, i) == 1 {
            return Some(i);
        }
    }
    None
}

/// The value of a bit, bit 0 being the most significant.
fn value_of(bit: u8) -> u32
    requires { bit < 32 }
    ensures { result ≡ 2 ^ (31 - bit) }
{
    1 << (31 - bit)
}

/// A word with a bit set.
pub(crate) fn with_bit(word: u32, bit: u8) -> u32
    requires { bit < 32 }
    ensures { result ≡ with_bit word bit }
{
    if Quadlet(word).field(bit, bit) == 1 {
        word
    } else {
        word + value_of(bit)
    }
}

/// A word with a bit cleared.
pub(crate) fn without_bit(word: u32, bit: u8) -> u32
    requires { bit < 32 }
    ensures { result ≡ without_bit word bit }
{
    if Quadlet(word).field(bit, bit) == 1 {
        word - value_of(bit)
    } else {
        word
    }
}
