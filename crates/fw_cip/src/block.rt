ghost use Rattle.std.specs.Prelude.{◌≡◌, length};
ghost use Rattle.fw_cip.specs.Iso.{IsBlock};

use std::marker::Model;

/// A block of SD-DVCR, the 480 bytes that one packet carries (IEC 61883-2). They lie elsewhere, and a move of it moves two
/// words. Contracts see it as the list of its bytes.
#[derive(Drop)]
pub struct Block<'a> {
    bytes: &'a [u8],
}

impl<'a> Model for Block<'a> {
    ghost use Rattle.std.specs.Prelude.{List, ℕ, ◌≡◌, length};

    ghost Value = { List ℕ };

    ghost view = { λ b. b.bytes.now };

    ghost invariant = { λ b. length b.bytes.now ≡ 480 };
}

impl<'a> Block<'a> {
    /// The block of these bytes, which are 480.
    pub fn new(bytes: &'a [u8]) -> Block<'a>
        requires { length bytes.now ≡ 480 }
        ensures same { result ≡ bytes.now }
        ensures fits { IsBlock result }
    {
        Block { bytes }
    }

    /// Its 480 bytes.
    pub fn as_slice(&self) -> &'a [u8]
        ensures same { result.now ≡ self.now }
        ensures size { length result.now ≡ 480 }
    {
        self.bytes
    }
}
