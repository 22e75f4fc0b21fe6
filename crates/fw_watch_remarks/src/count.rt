//! Counts.

ghost use Rattle.std.specs.Prelude.{◌≡◌};
ghost use Rattle.fw_watch_remarks.specs.Remarks.{counted};

/// One more, of a count that stays at the greatest that a number of 64 bits has.
#[tactic(auto, unfolding(crate::specs::Remarks::counted))]
pub fn counted(n: u64) -> u64
    ensures { result ≡ counted n }
{
    n.saturating_add(1)
}
