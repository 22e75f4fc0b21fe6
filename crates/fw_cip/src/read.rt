ghost use Rattle.std.specs.Prelude.{◌≡◌, length, drop, IfOk, IfSome, None, IsTrue};
ghost use Rattle.std.specs.Result.{result_err};
ghost use Rattle.fw_words.specs.Quadlet.{field, quadlet_at};
ghost use Rattle.fw_words.specs.Layout.{packed, FitWidths};
ghost use Rattle.fw_cip.specs.declared.packet.IsoPacket.{IsoPacket};
ghost use Rattle.fw_cip.specs.Iso.{Fits, IsBlock, spelling, first_layout, second_layout, block_bytes, is_cip, is_size, iso_fault, IsSpelled};

use crate::{Block, CipHeader, IsoFault, IsoPacket};
use fw_words::{Quadlet, first_set, quadlet_at};

/// How many bytes the isochronous header and the CIP header have.
const HEADS_SIZE: usize = 12;

#[inline(always)]
fn is_cip(header: Quadlet, first: Quadlet, second: Quadlet) -> bool
    ensures { result ≡ is_cip header.0 first.0 second.0 }
{
    header.field(16, 17) == 1
        && header.field(24, 27) == 0xA
        && first.field(0, 1) == 0
        && second.field(0, 1) == 2
}

// data_length is that of a packet, and as many bytes are there.
#[inline(always)]
fn is_size(size: u32, count: usize) -> bool
    ensures { result ≡ is_size size count }
{
    (size == 8 || size == 488) && count == size as usize + 4
}

// The first fault of the bytes.
#[inline(always)]
fn iso_fault(b: &[u8]) -> Option<IsoFault>
    ensures { result ≡ iso_fault b.now }
{
    if b.len() < HEADS_SIZE {
        return Some(IsoFault::Short);
    }
    let header = quadlet_at(b, 0);
    let first = quadlet_at(b, 4);
    if !is_cip(header, first, quadlet_at(b, 8)) {
        return Some(IsoFault::NotCip);
    }
    if let Some(bit) = first_set(first, 22, 23) {
        return Some(IsoFault::Reserved(32 + bit));
    }
    let size = header.field(0, 15);
    if is_size(size, b.len()) {
        None
    } else {
        Some(IsoFault::BadSize(size as u16))
    }
}

#[inline(always)]
fn cip_of(first: Quadlet, second: Quadlet) -> CipHeader
    requires first { field first.0 0 1 ≡ 0 }
    requires reserved { field first.0 22 23 ≡ 0 }
    requires second { field second.0 0 1 ≡ 2 }
    ensures first_fits { FitWidths (first_layout result) }
    ensures second_fits { FitWidths (second_layout result) }
    ensures first_same { packed (first_layout result) 0 ≡ first.0 }
    ensures second_same { packed (second_layout result) 0 ≡ second.0 }
{
    CipHeader {
        sid: first.field(2, 7) as u8,
        dbs: first.field(8, 15) as u8,
        fraction: first.field(16, 17) as u8,
        qpc: first.field(18, 20) as u8,
        sph: first.field(21, 21) == 1,
        dbc: first.field(24, 31) as u8,
        fmt: second.field(2, 7) as u8,
        fdf: second.field(8, 31),
    }
}

// The block, if one is there.
#[inline(always)]
fn block_of<'a>(b: &'a [u8]) -> Option<Block<'a>>
    requires { IsTrue (is_size (field (quadlet_at b.now 0) 0 15) (length b.now)) }
    ensures fits { IfSome result IsBlock }
    ensures same { block_bytes result ≡ drop 12 b.now }
{
    if b.len() == HEADS_SIZE {
        return None;
    }
    Some(Block::new(&b[HEADS_SIZE..]))
}

// The packet that bytes without a fault are.
#[inline(always)]
#[tactic(auto, unfolding(crate::specs::Iso::three))]
fn packet_of<'a>(b: &'a [u8]) -> IsoPacket<'a>
    requires { iso_fault b.now ≡ None }
    ensures fits { Fits result }
    ensures same { spelling result ≡ b.now }
{
    let header = quadlet_at(b, 0);
    IsoPacket {
        channel: header.field(18, 23) as u8,
        sy: header.field(28, 31) as u8,
        cip: cip_of(quadlet_at(b, 4), quadlet_at(b, 8)),
        block: block_of(b),
    }
}

/// The packet that the bytes spell, all of them.
///
/// The first fault that holds is answered: `Short` under twelve bytes, `NotCip` if the tag, the tcode or the beginnings
/// of the CIP quadlets are not those of a CIP packet, `Reserved` if a reserved bit of the CIP header is 1, and `BadSize`
/// if data_length is not 8 or 488 or the bytes are not four more.
#[inline(always)]
pub fn read_iso<'a>(b: &'a [u8]) -> Result<IsoPacket<'a>, IsoFault>
    ensures fault { result_err result ≡ iso_fault b.now }
    ensures found { IfOk result (λ p. Fits p × (spelling p ≡ b.now)) }
    ensures only { (p : IsoPacket) → Fits p → spelling p ≡ b.now → result ≡ Ok p }
{
    match iso_fault(b) {
        Some(fault) => Err(fault),
        None => Ok(packet_of(b)),
    }
}

/// The packet that these bytes are. They are one packet's, and so no fault is looked for: what a caller has no use for is not even
/// read.
#[inline(always)]
pub fn whole_iso<'a>(b: &'a [u8]) -> IsoPacket<'a>
    requires { IsSpelled b.now }
    ensures fits { Fits result }
    ensures same { (p : IsoPacket) → Fits p → spelling p ≡ b.now → result ≡ p }
{
    packet_of(b)
}
