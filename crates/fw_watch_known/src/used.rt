//! How many plugs are known to be connected on each channel.

ghost use Rattle.std.specs.Prelude.{◌≡◌, ◌<◌, ◌+◌, ◌-◌, ℕ, IfSome, replicate, slice_index};
ghost use Rattle.fw_watch_known.specs.Used.{one_on};

/// None on any.
pub(crate) fn none_used() -> [u16; 64]
    ensures { result ≡ replicate 64 0 }
{
    [0; 64]
}

/// One fewer is on this channel, if it is on any.
pub(crate) fn one_fewer(used: &mut [u16; 64], channel: Option<u8>)
    requires { IfSome channel (λ k. k < 64) }
    ensures { (k : ℕ) → k < 64 → slice_index used.new k ≡ slice_index used.old k - one_on k channel }
{
    if let Some(k) = channel {
        let place = usize::from(k);
        used[place] = used[place].saturating_sub(1);
    }
}

/// One more is on this channel, if it is on any.
pub(crate) fn one_more(used: &mut [u16; 64], channel: Option<u8>)
    requires { IfSome channel (λ k. k < 64) }
    ensures { (k : ℕ) → k < 64 → slice_index used.old k < 65535 → slice_index used.new k ≡ slice_index used.old k + one_on k channel }
{
    if let Some(k) = channel {
        let place = usize::from(k);
        used[place] = used[place].saturating_add(1);
    }
}
