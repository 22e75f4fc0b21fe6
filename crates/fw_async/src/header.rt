//! Quadlets 0 to 2, written before all others and read from there.

ghost use Rattle.std.specs.Prelude.{◌≡◌, ◌≤◌, ◌<◌, ◌+◌, ◌/◌, ◌^◌, ◌++◌, [], ◌∷◌, length, flat_map};
ghost use Rattle.std.specs.Int.{to_be_bytes, w32};
ghost use Rattle.fw_words.specs.Quadlet.{field, quadlet_at};
ghost use Rattle.fw_words.specs.Layout.{packed};
ghost use Rattle.fw_async.specs.Async.{request, response, head_fields, HeadFits};
ghost use Rattle.fw_async_fields.specs.Tcode.{code_of};
ghost use Rattle.fw_async_fields.specs.Reading.{tcode_of};

use crate::packet::Head;
use fw_async_fields::Tcode;
use fw_words::{Bytes16, Quadlet, put_quadlet, quadlet_at, with_field};

/// Appends a quadlet.
pub fn push_quadlet(out: &mut Bytes16, q: u32)
    requires { length out.old + 4 ≤ 16 }
    ensures { out.new ≡ out.old ++ to_be_bytes w32 q }
{
    out.append(&put_quadlet(Quadlet(q)));
}

/// Quadlet 0.
pub fn first_quadlet(tcode: Tcode, h: &Head) -> u32
    requires { HeadFits h.now }
    ensures { result ≡ packed (head_fields (code_of tcode) h.now) 0 }
{
    let q = with_field(h.destination as u32, 6, h.tl as u32);
    let q = with_field(q, 2, h.rt as u32);
    let q = with_field(q, 4, tcode.code());
    with_field(q, 4, h.pri as u32)
}

/// Quadlet 1 of a request: the source, and the high part of the offset.
pub fn source_quadlet(h: &Head, offset: u64) -> u32
    requires head { HeadFits h.now }
    requires offset { offset < 2 ^ 48 }
    ensures { result ≡ packed ((16, h.now.source) ∷ (16, offset / 2 ^ 32) ∷ []) 0 }
{
    with_field(h.source as u32, 16, (offset >> 32) as u32)
}

/// Quadlet 1 of a response: the source, the response code, and zeros.
pub fn rcode_quadlet(h: &Head, rcode: u8) -> u32
    requires head { HeadFits h.now }
    requires rcode { rcode < 2 ^ 4 }
    ensures { result ≡ packed ((16, h.now.source) ∷ (4, rcode) ∷ (12, 0) ∷ []) 0 }
{
    let q = with_field(h.source as u32, 4, rcode as u32);
    with_field(q, 12, 0)
}

/// The first three quadlets of a request, in place of what `out` held.
pub fn begin_request(tcode: Tcode, h: &Head, offset: u64, out: &mut Bytes16)
    requires head { HeadFits h.now }
    requires offset { offset < 2 ^ 48 }
    ensures { out.new ≡ flat_map (to_be_bytes w32) (request (code_of tcode) h.now offset [] []).quadlets }
{
    out.clear();
    push_quadlet(out, first_quadlet(tcode, h));
    push_quadlet(out, source_quadlet(h, offset));
    push_quadlet(out, (offset & 0xffff_ffff) as u32);
}

/// The first three quadlets of a response, in place of what `out` held.
pub fn begin_response(tcode: Tcode, h: &Head, rcode: u8, out: &mut Bytes16)
    requires head { HeadFits h.now }
    requires rcode { rcode < 2 ^ 4 }
    ensures { out.new ≡ flat_map (to_be_bytes w32) (response (code_of tcode) h.now rcode [] []).quadlets }
{
    out.clear();
    push_quadlet(out, first_quadlet(tcode, h));
    push_quadlet(out, rcode_quadlet(h, rcode));
    push_quadlet(out, 0);
}

/// The head of a packet.
pub fn head_at(bytes: &[u8]) -> Head
    requires { 8 ≤ length bytes.now }
    ensures fits { HeadFits result }
    ensures first { packed (head_fields (tcode_of bytes.now) result) 0 ≡ quadlet_at bytes.now 0 }
    ensures source { result.source ≡ field (quadlet_at bytes.now 4) 0 15 }
{
    let first = quadlet_at(bytes, 0);
    Head {
        destination: first.field(0, 15) as u16,
        tl: first.field(16, 21) as u8,
        rt: first.field(22, 23) as u8,
        pri: first.field(28, 31) as u8,
        source: quadlet_at(bytes, 4).field(0, 15) as u16,
    }
}
