ghost use Rattle.std.specs.Prelude.{◌≡◌, ◌≤◌, ◌+◌, length, take, drop};
ghost use Rattle.std.specs.Int.{to_be_bytes, from_be_bytes, w32};
ghost use Rattle.fw_words.specs.Quadlet.{field, quadlet_at};

/// A word of 32 bits, the unit of all packets and registers. Bit 0 is the most significant
/// (IEEE 1394-1995, bit and byte order).
#[derive(Clone, Copy)]
pub struct Quadlet(pub u32);

impl Quadlet {
    /// Bits `first` to `last` as a number. Both bits belong to the field, so it has 1 to 32 bits.
    pub fn field(self, first: u8, last: u8) -> u32
        requires order { first ≤ last }
        requires range { last ≤ 31 }
        ensures { result ≡ field self.0 first last }
    {
        let mask = u32::MAX >> (31 - (last - first));
        (self.0 >> (31 - last)) & mask
    }
}

/// The four bytes of a quadlet, the most significant first.
pub fn put_quadlet(q: Quadlet) -> [u8; 4]
    ensures bytes { result ≡ to_be_bytes w32 q.0 }
    ensures back { from_be_bytes w32 result ≡ q.0 }
{
    q.0.to_be_bytes()
}

/// The quadlet of four bytes, the most significant first.
pub fn get_quadlet(b: [u8; 4]) -> Quadlet
    ensures value { result.0 ≡ from_be_bytes w32 b }
    ensures back { to_be_bytes w32 result.0 ≡ b }
{
    Quadlet(u32::from_be_bytes(b))
}

/// The quadlet whose first byte has the index `at`.
pub fn quadlet_at(bytes: &[u8], at: usize) -> Quadlet
    requires { at + 4 ≤ length bytes.now }
    ensures value { result.0 ≡ quadlet_at bytes.now at }
    ensures back { to_be_bytes w32 result.0 ≡ take 4 (drop at bytes.now) }
{
    get_quadlet([bytes[at], bytes[at + 1], bytes[at + 2], bytes[at + 3]])
}
