//! What most isochronous packets have.

ghost use Rattle.std.specs.Prelude.{◌≡◌, IsTrue, false};
ghost use Rattle.fw_cip.specs.Iso.{block_bytes};

use fw_cip::{CipHeader, IsoPacket};

/// DBS of SD-DVCR (IEC 61883-2).
const DVCR_BLOCK: u8 = 120;

/// FDF of SD-DVCR with 525 lines and no time stamp (IEC 61883-2).
pub(crate) const LINES_525_UNTIMED: u32 = 0x00_ffff;

/// FDF of SD-DVCR with 625 lines and no time stamp.
const LINES_625_UNTIMED: u32 = 0x80_ffff;

/// Whether the blocks are those of SD-DVCR.
#[inline(always)]
pub fn has_usual_sizes(c: &CipHeader) -> bool
    ensures size { IsTrue result → (c.now.dbs ≡ 120) × (c.now.fraction ≡ 0) }
    ensures none { IsTrue result → (c.now.qpc ≡ 0) × (c.now.sph ≡ false) }
{
    c.dbs == DVCR_BLOCK && c.fraction == 0 && c.qpc == 0 && !c.sph
}

/// Whether the format is SD-DVCR with 525 lines, and has no time stamp.
#[inline(always)]
pub fn is_untimed_525(c: &CipHeader) -> bool
    ensures { IsTrue result → (c.now.fmt ≡ 0) × (c.now.fdf ≡ 65535) }
{
    c.fmt == 0 && c.fdf == LINES_525_UNTIMED
}

/// Whether it is SD-DVCR with 625 lines, and has none.
#[inline(always)]
pub fn is_untimed_625(c: &CipHeader) -> bool
    ensures { IsTrue result → (c.now.fmt ≡ 0) × (c.now.fdf ≡ 8454143) }
{
    c.fmt == 0 && c.fdf == LINES_625_UNTIMED
}

/// The bytes of the block, or none.
pub fn block_bytes<'p>(p: &'p IsoPacket) -> &'p [u8]
    ensures { result.now ≡ block_bytes p.now.block }
{
    match &p.block {
        Some(block) => block.as_slice(),
        None => &[],
    }
}
