//! Packets as bytes: the quadlets at the beginning, the data, and zeros up to a whole quadlet.

ghost use Rattle.std.specs.Prelude.{◌≡◌, ◌≤◌, ◌+◌, ◌++◌, ◌∷◌, IfSome, IfNone, List, ℕ, [], length, take, drop, flat_map};
ghost use Rattle.std.specs.Int.{to_be_bytes, w32};
ghost use Rattle.fw_async.specs.Async.{parts, size, spelling, Fits};

use crate::header::{begin_request, begin_response, push_quadlet};
use crate::packet::Packet;
use arrayvec::ArrayVec;
use fw_async_fields::{Tcode, padding_of};
use fw_words::{Bytes16, with_field};

// Quadlets 0 to 2, in place of what `out` held.
fn begin_packet(p: &Packet, out: &mut Bytes16)
    requires { Fits p.now }
    ensures { out.new ≡ flat_map (to_be_bytes w32) (take 3 (parts p.now).quadlets) }
{
    use Packet::*;
    match p {
        WriteQuadlet { head, offset, .. } => begin_request(Tcode::WriteQuadlet, head, *offset, out),
        WriteBlock { head, offset, .. } => begin_request(Tcode::WriteBlock, head, *offset, out),
        WriteReply { head, rcode } => begin_response(Tcode::WriteReply, head, *rcode, out),
        ReadQuadlet { head, offset } => begin_request(Tcode::ReadQuadlet, head, *offset, out),
        ReadBlock { head, offset, .. } => begin_request(Tcode::ReadBlock, head, *offset, out),
        ReadQuadletReply { head, rcode, .. } => {
            begin_response(Tcode::ReadQuadletReply, head, *rcode, out)
        }
        ReadBlockReply { head, rcode, .. } => {
            begin_response(Tcode::ReadBlockReply, head, *rcode, out)
        }
        CycleStart { head, offset, .. } => begin_request(Tcode::CycleStart, head, *offset, out),
        Lock { head, offset, .. } => begin_request(Tcode::Lock, head, *offset, out),
        LockReply { head, rcode, .. } => begin_response(Tcode::LockReply, head, *rcode, out),
    }
}

// data_length, and what stands beside it: an extended_tcode, or 0.
pub(crate) fn size_of(bytes: &[u8], low: u8) -> u32
    requires { length bytes.now ≤ 512 }
    ensures { result ≡ size (length bytes.now) low }
{
    with_field(bytes.len() as u32, 16, u32::from(low))
}

// Quadlet 3, if the packet has one.
fn quadlet_3(p: &Packet) -> Option<u32>
    requires { Fits p.now }
    ensures some { IfSome result (λ q. drop 3 (parts p.now).quadlets ≡ q ∷ []) }
    ensures none { IfNone result (drop 3 (parts p.now).quadlets ≡ []) }
{
    use Packet::*;
    match p {
        WriteQuadlet { value, .. } => Some(*value),
        WriteBlock { bytes, .. } => Some(size_of(bytes.as_slice(), 0)),
        WriteReply { .. } => None,
        ReadQuadlet { .. } => None,
        ReadBlock { length, .. } => Some(with_field(u32::from(*length), 16, 0)),
        ReadQuadletReply { value, .. } => Some(*value),
        ReadBlockReply { bytes, .. } => Some(size_of(bytes.as_slice(), 0)),
        CycleStart { time, .. } => Some(*time),
        Lock {
            function,
            bytes,
            ..
        } => Some(size_of(bytes.as_slice(), *function)),
        LockReply {
            function,
            bytes,
            ..
        } => Some(size_of(bytes.as_slice(), *function)),
    }
}

// Appends quadlet 3, if the packet has one.
fn push_quadlet_3(p: &Packet, out: &mut Bytes16)
    requires fits { Fits p.now }
    requires begun { length out.old ≡ 12 }
    ensures { out.new ≡ out.old ++ flat_map (to_be_bytes w32) (drop 3 (parts p.now).quadlets) }
{
    if let Some(quadlet) = quadlet_3(p) {
        push_quadlet(out, quadlet);
    }
}

// The quadlets at the packet's beginning.
pub(crate) fn prefix_of(p: &Packet) -> Bytes16
    requires { Fits p.now }
    ensures { result ≡ flat_map (to_be_bytes w32) (parts p.now).quadlets }
{
    let mut prefix = Bytes16::new();
    begin_packet(p, &mut prefix);
    push_quadlet_3(p, &mut prefix);
    prefix
}

// The data after the quadlets.
fn data_of<'a>(p: &'a Packet) -> &'a [u8]
    requires { Fits p.now }
    ensures same { result.now ≡ (parts p.now).bytes }
    ensures few { length result.now ≤ 512 }
{
    use Packet::*;
    match p {
        WriteBlock { bytes, .. } => bytes.as_slice(),
        ReadBlockReply { bytes, .. } => bytes.as_slice(),
        Lock { bytes, .. } => bytes.as_slice(),
        LockReply { bytes, .. } => bytes.as_slice(),
        WriteQuadlet { .. } => &[],
        WriteReply { .. } => &[],
        ReadQuadlet { .. } => &[],
        ReadBlock { .. } => &[],
        ReadQuadletReply { .. } => &[],
        CycleStart { .. } => &[],
    }
}

/// How many bytes the packet takes: 12 to 528, a multiple of four.
pub fn packet_length(p: &Packet) -> usize
    requires { Fits p.now }
    ensures { result ≡ length (spelling p.now) }
{
    let data = data_of(p).len();
    let prefix = match p {
        Packet::WriteReply { .. } => 12,
        Packet::ReadQuadlet { .. } => 12,
        _ => 16,
    };
    prefix + data + 3 * data % 4
}

fn extend(out: &mut ArrayVec<u8, 528>, more: &[u8])
    requires { length out.old.items + length more.now ≤ 528 }
    ensures { out.new.items ≡ out.old.items ++ more.now }
{
    let _ = out.try_extend_from_slice(more);
}

// The packet's bytes, in place of what `out` held.
fn spell(p: &Packet, out: &mut ArrayVec<u8, 528>)
    requires { Fits p.now }
    ensures { out.new.items ≡ spelling p.now }
{
    let prefix = prefix_of(p);
    let data = data_of(p);
    out.clear();
    extend(out, prefix.as_slice());
    if !data.is_empty() {
        extend(out, data);
        extend(out, padding_of(data.len()));
    }
}

/// Writes a packet's bytes in place of what `out` held: 12 to 528 bytes, a multiple of four. The packet's numbers
/// fit their fields, and its data is as long as its kind may have. No other packet's bytes begin with these.
pub fn write_packet(p: &Packet, out: &mut ArrayVec<u8, 528>)
    requires { Fits p.now }
    ensures spelled { out.new.items ≡ spelling p.now }
    ensures begins_no_other { (q : Packet) → (more : List ℕ) → Fits q → spelling q ≡ out.new.items ++ more → (q ≡ p.now) × (more ≡ []) }
{
    spell(p, out);
}

// Writes over the bytes from `at` on.
pub(crate) fn write_over(out: &mut [u8], at: usize, more: &[u8])
    requires { at + length more.now ≤ length out.old }
    ensures { take (at + length more.now) out.new ≡ take at out.old ++ more.now }
{
    out[at..at + more.len()].copy_from_slice(more);
}

/// Writes a packet's bytes over those of `out` from `at` on, if there is room for them, and answers where they end:
/// `packet_length` says how many they are. The packet's numbers fit their fields, and its data is as long as its kind may
/// have.
pub fn write_packet_at(p: &Packet, out: &mut [u8], at: usize) -> usize
    requires fits { Fits p.now }
    requires room { at + length (spelling p.now) ≤ length out.old }
    ensures bytes { take result out.new ≡ take at out.old ++ spelling p.now }
    ensures end { result ≡ at + length (spelling p.now) }
{
    let prefix = prefix_of(p);
    let prefix = prefix.as_slice();
    let data = data_of(p);
    write_over(out, at, prefix);
    let end = at + prefix.len();
    if data.is_empty() {
        return end;
    }
    let padding = padding_of(data.len());
    write_over(out, end, data);
    let end = end + data.len();
    write_over(out, end, padding);
    end + padding.len()
}

/// Writes a packet's bytes over the beginning of `out`, and answers how many they are.
#[tactic(auto, using(crate::proofs::SpelledSizeLaws::spelled_most))]
pub(crate) fn spell_over(p: &Packet, out: &mut [u8; 528]) -> usize
    requires { Fits p.now }
    ensures bytes { take result out.new ≡ spelling p.now }
    ensures size { result ≡ length (spelling p.now) }
    ensures room { result ≤ 528 }
{
    write_packet_at(p, out, 0)
}
