//! The hexadecimal digits of bytes, two a byte.

ghost use Rattle.std.specs.Prelude.{◌≡◌};
ghost use Rattle.fw_text.specs.Digits.{byte_digits};
ghost use Rattle.fw_text.specs.Texts.{hex};

use fw_text::{eight, four, six, twelve, two};

/// The digits of each byte, for what is not said to a `Text` yet.
#[derive(Clone, Copy)]
pub struct Pairs {}

impl Pairs {
    /// The table.
    pub fn new() -> Pairs {
        Pairs {}
    }

    /// The digits of the last eight bits.
    pub fn of(&self, n: u64) -> [u8; 2]
        ensures { result ≡ byte_digits n }
    {
        two(n)
    }

    /// The last four digits of a number.
    pub fn four(&self, n: u16) -> [u8; 4]
        ensures { result ≡ hex 4 n }
    {
        four(n)
    }

    /// The last six digits of a number.
    pub fn six(&self, n: u32) -> [u8; 6]
        ensures { result ≡ hex 6 n }
    {
        six(n)
    }

    /// The eight digits of a quadlet.
    pub fn eight(&self, n: u32) -> [u8; 8]
        ensures { result ≡ hex 8 n }
    {
        eight(n)
    }

    /// The last twelve digits of a number.
    pub fn twelve(&self, n: u64) -> [u8; 12]
        ensures { result ≡ hex 12 n }
    {
        twelve(n)
    }
}
