//! The decimal digits of small numbers.

ghost use Rattle.std.specs.Prelude.{◌≡◌, ◌≤◌, decimal, take};
ghost use Rattle.fw_log_text.specs.Digits.{IsNumbers};

use itoa::Buffer;

/// How many bytes a number below 256 has room for.
pub(crate) const FEW: usize = 4;

/// The digits of each number below 256, made once, since most numbers of a line are small.
#[derive(Drop)]
pub(crate) struct Numbers {
    rows: [[u8; FEW]; 256],
    sizes: [u8; 256],
    ghost exact: { IsNumbers 256 rows sizes },
}

// The digits of a number, before other bytes, and how many they are.
fn row_of(n: u8) -> ([u8; FEW], u8)
    ensures within { result.1 ≤ 4 }
    ensures digits { take result.1 result.0 ≡ decimal n }
{
    let mut buffer = Buffer::new();
    let digits = buffer.format(n).as_bytes();
    let mut row = [0; FEW];
    row[..digits.len()].copy_from_slice(digits);
    (row, digits.len() as u8)
}

impl Numbers {
    pub(crate) fn new() -> Numbers {
        let mut rows = [[0; FEW]; 256];
        let mut sizes = [0; 256];
        for n in 0..256 {
            let (row, size) = row_of(n as u8);
            rows[n] = row;
            sizes[n] = size;
        }
        Numbers { rows, sizes }
    }

    /// The digits of a number, before other bytes, and how many they are.
    #[inline(always)]
    pub(crate) fn of(&self, n: u8) -> ([u8; FEW], usize)
        ensures within { result.1 ≤ 4 }
        ensures digits { take result.1 result.0 ≡ decimal n }
    {
        let at = usize::from(n);
        (self.rows[at], usize::from(self.sizes[at]))
    }
}
