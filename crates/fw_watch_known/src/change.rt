//! Words that differ in one bit.

ghost use Rattle.std.specs.Prelude.{◌≡◌, IfSome};
ghost use Rattle.fw_watch_known.specs.Changes.{DifferAt};

use fw_watch_remarks::Known;

/// The bit in which two words differ, counted from the most significant, if it is one alone: so it is in most swaps of half of the
/// channels.
#[inline(always)]
pub fn only_change(old: u32, new: u32) -> Option<u8>
    ensures { IfSome result (λ at. DifferAt old new at) }
{
    let differing = old ^ new;
    let at = differing.leading_zeros();
    if at < 32 && differing == 1 << (31 - at) {
        Some(at as u8)
    } else {
        None
    }
}

/// The bit that is not as it was of a word of which the same bits are known, if it is one alone.
#[inline(always)]
pub(crate) fn only_forgotten(old: Known, now: Known) -> Option<u8>
    ensures { IfSome result (λ at. (old.mask ≡ now.mask) × DifferAt old.word now.word at) }
{
    if old.mask == now.mask {
        only_change(old.word, now.word)
    } else {
        None
    }
}
