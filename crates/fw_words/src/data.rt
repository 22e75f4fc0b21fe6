ghost use Rattle.std.specs.Prelude.{◌≡◌};

use std::marker::Model;

/// Bytes that lie elsewhere, as the data of a block in the bytes of its packet. A copy of it moves two words.
#[derive(Drop)]
pub struct Data<'a> {
    bytes: &'a [u8],
}

impl<'a> Model for Data<'a> {
    ghost use Rattle.std.specs.Prelude.{List, ℕ};

    ghost Value = { List ℕ };

    ghost view = { λ d. d.bytes.now };
}

impl<'a> Data<'a> {
    /// These bytes.
    pub fn new(bytes: &'a [u8]) -> Data<'a>
        ensures { result ≡ bytes.now }
    {
        Data { bytes }
    }

    /// All bytes.
    pub fn as_slice(&self) -> &'a [u8]
        ensures { result.now ≡ self.now }
    {
        self.bytes
    }
}
