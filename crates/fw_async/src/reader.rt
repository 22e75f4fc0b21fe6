ghost use Rattle.std.specs.Prelude.{ℕ, ◌≡◌, ◌≤◌, ◌<◌, ◌+◌, ◌-◌, length, take};
ghost use Rattle.fw_async_fields.specs.Tcode.{code_of};
ghost use Rattle.fw_async.specs.Whole.{IsComplete, ReadsAs};
ghost use Rattle.fw_async_fields.specs.Reading.{IsPending, fault_of, need};
ghost use Rattle.fw_async.specs.Heads.{head_of};
ghost use Rattle.fw_async.specs.Reader.{Spells, Reads, IsPacket};
ghost use Rattle.fw_async_fields.specs.declared.PacketFault.{PacketFault};
ghost use Rattle.fw_async.specs.declared.packet.Packet.{Packet};

use crate::PacketFault;
use crate::cycle_start::cycle_start_at;
use crate::lock::{lock_at, lock_reply_at};
use crate::packet::Packet;
use crate::read::{read_block_at, read_block_reply_at, read_quadlet_at, read_quadlet_reply_at};
use crate::write::{write_block_at, write_quadlet_at, write_reply_at};
use fw_async_fields::{Tcode, least_length, tcode_at};
use fw_words::quadlet_at;

/// What a piece gave.
#[derive(Drop)]
pub struct Fed<'a> {
    /// How many of its bytes were taken: those up to the packet's end, or all.
    pub used: usize,
    /// The packet that ended with them.
    pub packet: Option<Packet<'a>>,
}

fn packet_of_kind<'a>(tcode: Tcode, bytes: &'a [u8]) -> Packet<'a>
    requires { IsComplete (code_of tcode) bytes.now }
    ensures { ReadsAs (code_of tcode) bytes.now result }
{
    match tcode {
        Tcode::WriteQuadlet => write_quadlet_at(bytes),
        Tcode::WriteBlock => write_block_at(bytes),
        Tcode::WriteReply => write_reply_at(bytes),
        Tcode::ReadQuadlet => read_quadlet_at(bytes),
        Tcode::ReadBlock => read_block_at(bytes),
        Tcode::ReadQuadletReply => read_quadlet_reply_at(bytes),
        Tcode::ReadBlockReply => read_block_reply_at(bytes),
        Tcode::CycleStart => cycle_start_at(bytes),
        Tcode::Lock => lock_at(bytes),
        Tcode::LockReply => lock_reply_at(bytes),
    }
}

// The packet whose bytes are all there and show no fault.
fn packet_at<'a>(bytes: &'a [u8]) -> Packet<'a>
    requires clear { fault_of bytes.now ≡ None }
    requires complete { length bytes.now ≡ need bytes.now }
    ensures { Spells result bytes.now }
{
    match tcode_at(bytes) {
        Some(tcode) => packet_of_kind(tcode, bytes),
        None => unreachable!(),
    }
}

fn at_most(count: usize, limit: usize) -> usize
    ensures { result ≡ count - (count - limit) }
{
    if count < limit { count } else { limit }
}

// A packet that ends in the bytes, a part of one, or the first fault.
fn read_prefix<'a>(bytes: &'a [u8]) -> Result<Fed<'a>, PacketFault>
    ensures { Reads bytes.now result }
{
    let mut end = 0;
    let mut need = 12;
    while end < bytes.len() {
        let next = at_most(need, bytes.len());
        let prefix = &bytes[..next];
        let least = match least_length(prefix) {
            Ok(least) => least,
            Err(fault) => return Err(fault),
        };
        if least <= next {
            return Ok(Fed {
                used: next,
                packet: Some(packet_at(prefix)),
            });
        }
        end = next;
        need = least;
    }
    Ok(Fed {
        used: end,
        packet: None,
    })
}

/// Reads a packet from bytes that are at hand. It takes those up to the packet's end, or all if none ends in them
/// and no fault shows. A fault is the one of the first byte that shows it: no packet begins with the bytes up to there.
pub fn read_packet<'a>(bytes: &'a [u8]) -> Result<Fed<'a>, PacketFault>
    ensures reads { Reads bytes.now result }
    ensures packet { (k : ℕ) → (p : Packet) → k ≤ length bytes.now → Spells p (take k bytes.now) → result ≡ Ok (record { used = k; packet = Some p }) }
    ensures fault { (k : ℕ) → (f : PacketFault) → k < length bytes.now → IsPending (take k bytes.now) → fault_of (take (k + 1) bytes.now) ≡ Some f → result ≡ Err f }
{
    read_prefix(bytes)
}

/// The destination_ID of the packet that these bytes are, 16 bits.
pub fn destination_at(bytes: &[u8]) -> u16
    requires { IsPacket bytes.now }
    ensures { (p : Packet) → Spells p bytes.now → result ≡ (head_of p).destination }
{
    quadlet_at(bytes, 0).field(0, 15) as u16
}

/// The packet that these bytes are. They are one packet's, as those of a `Wire` are, and so no fault is looked for.
pub fn whole_packet<'a>(bytes: &'a [u8]) -> Packet<'a>
    requires { IsPacket bytes.now }
    ensures spells { Spells result bytes.now }
    ensures same { (p : Packet) → Spells p bytes.now → result ≡ p }
{
    packet_at(bytes)
}
