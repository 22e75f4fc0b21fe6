//! Isochronous packets as bytes: the quadlets of the headers, and the block after them.

ghost use Rattle.std.specs.Prelude.{ℕ, ◌≡◌, ◌≤◌, ◌+◌, ◌++◌, List, [], length};
ghost use Rattle.fw_words.specs.Layout.{packed, FitWidths};
ghost use Rattle.fw_cip.specs.declared.packet.IsoPacket.{IsoPacket};
ghost use Rattle.fw_cip.specs.Iso.{Fits, spelling, head_bytes, header_layout, first_layout, second_layout, block_bytes};

use crate::{CipHeader, IsoPacket};
use arrayvec::ArrayVec;
use fw_words::{Quadlet, put_quadlet, with_field};

// The isochronous header.
fn header_quadlet(p: &IsoPacket) -> u32
    requires { FitWidths (header_layout p.now) }
    ensures { result ≡ packed (header_layout p.now) 0 }
{
    let size = match &p.block {
        Some(_) => 488,
        None => 8,
    };
    let q = with_field(size, 2, 1);
    let q = with_field(q, 6, u32::from(p.channel));
    let q = with_field(q, 4, 0xA);
    with_field(q, 4, u32::from(p.sy))
}

// The first CIP quadlet.
fn first_quadlet(c: CipHeader) -> u32
    requires { FitWidths (first_layout c) }
    ensures { result ≡ packed (first_layout c) 0 }
{
    let q = with_field(0, 6, u32::from(c.sid));
    let q = with_field(q, 8, u32::from(c.dbs));
    let q = with_field(q, 2, u32::from(c.fraction));
    let q = with_field(q, 3, u32::from(c.qpc));
    let q = with_field(q, 1, u32::from(c.sph));
    let q = with_field(q, 2, 0);
    with_field(q, 8, u32::from(c.dbc))
}

// The second CIP quadlet.
fn second_quadlet(c: CipHeader) -> u32
    requires { FitWidths (second_layout c) }
    ensures { result ≡ packed (second_layout c) 0 }
{
    let q = with_field(2, 6, u32::from(c.fmt));
    with_field(q, 24, c.fdf)
}

/// The bytes of a packet's headers, after which its block stands, if it has one. Its numbers fit their fields.
#[inline(always)]
#[tactic(auto, unfolding(crate::specs::Iso::three))]
pub fn heads_of(p: &IsoPacket) -> [u8; 12]
    requires { Fits p.now }
    ensures { result ≡ head_bytes p.now }
{
    let mut heads = [0; 12];
    heads[..4].copy_from_slice(&put_quadlet(Quadlet(header_quadlet(p))));
    heads[4..8].copy_from_slice(&put_quadlet(Quadlet(first_quadlet(p.cip))));
    heads[8..].copy_from_slice(&put_quadlet(Quadlet(second_quadlet(p.cip))));
    heads
}

// What stands after the headers: the block's bytes, or nothing.
fn block_of<'a>(p: &'a IsoPacket) -> &'a [u8]
    requires { Fits p.now }
    ensures same { result.now ≡ block_bytes p.now.block }
    ensures few { length result.now ≤ 480 }
{
    match &p.block {
        Some(block) => block.as_slice(),
        None => &[],
    }
}

/// How many bytes the packet takes: 12, or 492 with a block.
pub fn iso_length(p: &IsoPacket) -> usize
    requires { Fits p.now }
    ensures { result ≡ length (spelling p.now) }
{
    12 + block_of(p).len()
}

fn extend(out: &mut ArrayVec<u8, 492>, more: &[u8])
    requires { length out.old.items + length more.now ≤ 492 }
    ensures { out.new.items ≡ out.old.items ++ more.now }
{
    let _ = out.try_extend_from_slice(more);
}

// The packet's bytes, in place of what `out` held.
fn spell(p: &IsoPacket, out: &mut ArrayVec<u8, 492>)
    requires { Fits p.now }
    ensures { out.new.items ≡ spelling p.now }
{
    out.clear();
    extend(out, &heads_of(p));
    extend(out, block_of(p));
}

/// Writes a packet's bytes in place of what `out` held: 12 bytes, or 492 with a block. Its numbers fit their fields. No
/// other packet's bytes begin with these.
pub fn write_iso(p: &IsoPacket, out: &mut ArrayVec<u8, 492>)
    requires { Fits p.now }
    ensures spelled { out.new.items ≡ spelling p.now }
    ensures begins_no_other { (q : IsoPacket) → (more : List ℕ) → Fits q → spelling q ≡ out.new.items ++ more → (q ≡ p.now) × (more ≡ []) }
{
    spell(p, out);
}
