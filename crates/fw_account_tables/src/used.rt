//! Which channels are open, by CHANNELS_AVAILABLE: most of the last ones are.

ghost use Rattle.std.specs.Prelude.{◌≡◌, ◌<◌, ◌≤◌, ◌-◌, ℕ, IsTrue};
ghost use Rattle.std.specs.Int.{bit_at};
ghost use Rattle.fw_plug.specs.Words.{flag};
ghost use Rattle.fw_model_account.specs.Account.{Account, is_open};
ghost use Rattle.fw_account_tables.specs.Stands.{Stands, StandsFor};

use crate::tables::Tables;

/// How many channels there are.
const CHANNELS: usize = 64;

// The channel after the last whose bit is 0; 64 if none is.
#[inline(always)]
fn end_of_zeros(word: u64) -> usize
    ensures within { result ≤ 64 }
    ensures ones { (ch : ℕ) → result ≤ ch → ch < 64 → bit_at word (63 - ch) ≡ 1 }
{
    if word == u64::MAX {
        return CHANNELS;
    }
    CHANNELS - word.trailing_ones() as usize
}

impl Tables {
    // CHANNELS_AVAILABLE_HI in the upper 32 bits, LO in the lower: bit 63 - c is 1 if channel c is open.
    #[inline(always)]
    fn open_channels(&self) -> u64
        requires stands { Stands self.now }
        ensures { (l : Account) (ch : ℕ) → StandsFor self.now l → ch < 64 → bit_at result (63 - ch) ≡ flag (is_open l.withheld l.allocations ch) }
    {
        (u64::from(self.high) << 32) + u64::from(self.low)
    }

    /// A channel from which on all are open; 64 if none is known. Most of the last channels are open, so that no more have to be
    /// looked at.
    #[inline(always)]
    pub fn end_of_used(&self) -> usize
        requires stands { Stands self.now }
        ensures within { result ≤ 64 }
        ensures free { (l : Account) (ch : ℕ) → StandsFor self.now l → result ≤ ch → ch < 64 → IsTrue (is_open l.withheld l.allocations ch) }
    {
        end_of_zeros(self.open_channels())
    }
}
