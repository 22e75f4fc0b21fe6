//! What a word of a line may be.

ghost use Rattle.std.specs.Prelude.{◌≡◌};
ghost use Rattle.fw_script_command.specs.Types.{fits, may_lack, range_of};

use crate::codes::{channel, kind, late, shown, speed, system};
use crate::hexadecimal;
use crate::words::{name, number, place};
use fw_words::Bytes;

/// The highest port of a device.
pub(crate) const LAST_PORT: u8 = 26;

/// The highest plug of a device, of its output plugs as of its input plugs.
pub(crate) const LAST_PLUG: u8 = 30;

/// What a word of a line after the first may be.
#[derive(Clone, Copy)]
pub enum WordType {
    /// A device's name.
    Name,
    /// A device's name, or `manager`.
    Shown,
    /// A kind of device.
    Kind,
    /// A speed in Mbit/s.
    Speed,
    /// How many lines a picture of a tape has.
    System,
    /// A port of a device.
    End,
    /// A plug of a device.
    Plug,
    /// A channel, or `any`.
    Channel,
    /// A register's offset from FFFF F000 0000.
    Offset,
    /// A register's word.
    Quadlet,
    /// The bytes of a frame.
    Frame,
    /// The word `late`, which may be missing.
    Late,
    /// A number in a range.
    Number(NumberType),
}

/// A number that a form asks for.
#[derive(Clone, Copy)]
pub enum NumberType {
    Ports,
    Overhead,
    Slot,
    /// Half steps.
    Count,
    /// Cycles that are written.
    WrittenCycles,
    Rounds,
    /// Cycles that go by unwritten.
    Cycles,
    Tape,
}

impl NumberType {
    /// The least and the greatest number.
    pub fn range(self) -> (u32, u32)
        ensures { result ≡ range_of self }
    {
        match self {
            NumberType::Ports => (1, 27),
            NumberType::Overhead => (0, 15),
            NumberType::Slot => (0, 31),
            NumberType::Count => (1, 10_000),
            NumberType::WrittenCycles => (1, 8_000),
            NumberType::Rounds => (1, 200_000),
            NumberType::Cycles => (0, 1_000_000_000),
            NumberType::Tape => (0, 65_535),
        }
    }

    /// The word is a number of this range.
    fn fits(self, word: &[u8]) -> bool
        ensures { result ≡ fits (WordType.Number self) word.now }
    {
        let (low, high) = self.range();
        number(word, low, high).is_some()
    }
}

impl WordType {
    /// The word is of this type.
    pub fn fits(self, word: &[u8]) -> bool
        ensures { result ≡ fits self word.now }
    {
        match self {
            WordType::Name => name(word).is_some(),
            WordType::Shown => shown(word).is_some(),
            WordType::Kind => kind(word).is_some(),
            WordType::Speed => speed(word).is_some(),
            WordType::System => system(word).is_some(),
            WordType::End => place(word, LAST_PORT).is_some(),
            WordType::Plug => place(word, LAST_PLUG).is_some(),
            WordType::Channel => channel(word).is_some(),
            WordType::Offset => hexadecimal::offset(word).is_some(),
            WordType::Quadlet => hexadecimal::word(word).is_some(),
            WordType::Frame => hexadecimal::frame(word, &mut Bytes::new()).is_some(),
            WordType::Late => late(word).is_some(),
            WordType::Number(number) => number.fits(word),
        }
    }

    /// The word may be missing.
    pub fn may_lack(self) -> bool
        ensures { result ≡ may_lack self }
    {
        matches!(self, WordType::Late)
    }
}
