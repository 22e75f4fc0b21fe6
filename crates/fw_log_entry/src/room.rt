ghost use Rattle.std.specs.Prelude.{◌≡◌, ◌≤◌, ◌+◌, [], ◌++◌, length, nat_le, IsTrue};
ghost use Rattle.fw_cip.specs.Iso.{Fits};
ghost use Rattle.fw_log_entry.specs.Log.{TimedFits, entry_bytes, epoch_after};
ghost use Rattle.fw_log_entry.specs.declared.entry.Entry.TheVariants.{Iso};
ghost use Rattle.fw_log_entry.specs.declared.version.Version.TheVariants.{Two};

use crate::codes::kind;
use crate::write::{long_head, put_entry};
use crate::{EntryRoom, Timed, Version};
use fw_cip::{IsoPacket, heads_of, iso_length};
use std::marker::Model;

/// What is longer than this is written. A sink that keeps no more bytes back passes it on without a copy.
const FULL: usize = 65_536;

/// How many bytes fit: so many, and two entries of any kind and a packet with a block on each of the 64 channels.
const ALL: usize = 102_632;

/// Room for the entries of version 2 of cycles, one after the other, until they are written together. Of an isochronous packet these
/// are the 16 bytes of its head, the 12 of the packet's headers, and a block. It is made once and used again.
#[derive(Drop)]
pub struct CycleRoom {
    bytes: [u8; ALL],
    /// How many bytes the entries have.
    length: usize,
}

impl Model for CycleRoom {
    ghost use Rattle.std.specs.Prelude.{List, ℕ, ◌≤◌, take};

    ghost Value = { List ℕ };

    ghost view = { λ r. take r.length r.bytes };

    ghost invariant = { λ r. r.length ≤ 102632 };
}

impl CycleRoom {
    /// No entries.
    pub fn new() -> CycleRoom
        ensures { result ≡ [] }
    {
        CycleRoom {
            bytes: [0; ALL],
            length: 0,
        }
    }

    /// The bytes of the entries.
    pub fn as_slice(&self) -> &[u8]
        ensures { result.now ≡ self.now }
    {
        &self.bytes[..self.length]
    }

    /// Takes all entries away, and touches no byte.
    pub fn clear(&mut self)
        ensures { self.new ≡ [] }
    {
        self.length = 0;
    }

    /// Whether at most 65,536 bytes are held. The entries of one cycle more fit then: two of any kind and 64 packets.
    pub fn has_room(&self) -> bool
        ensures few { result ≡ nat_le (length self.now) 65536 }
        ensures room { IsTrue result → length self.now + 37096 ≤ 102632 }
    {
        self.length <= FULL
    }

    /// Puts an entry after the others, if this is the epoch of the latest bus reset up to and including it. The other room is used
    /// for it, whatever an earlier entry left there.
    pub fn put_entry(&mut self, epoch: u32, t: &Timed, room: &mut EntryRoom)
        requires fits { TimedFits t.now }
        requires latest { epoch ≡ epoch_after epoch t.now.what }
        requires room { length self.old + 2292 ≤ 102632 }
        ensures bytes { self.new ≡ self.old ++ entry_bytes Two epoch t.now }
        ensures size { length self.new ≤ length self.old + 2292 }
    {
        put_entry(Version::Two, epoch, t, &mut room.bytes);
        self.extend(room.bytes.as_slice());
    }

    /// Puts the entry of an isochronous packet after the others, if this is the epoch of the latest bus reset.
    #[inline(always)]
    #[tactic(auto, using(crate::proofs::SizeLaws::iso_few))]
    pub fn put(&mut self, epoch: u32, cycle: u64, p: &IsoPacket)
        requires fits { Fits p.now }
        requires room { length self.old + 508 ≤ 102632 }
        ensures bytes { self.new ≡ self.old ++ entry_bytes Two epoch (record { cycle = cycle; what = Iso p.now }) }
        ensures size { length self.new ≤ length self.old + 508 }
    {
        let quadlets = (iso_length(p) / 4) as u16;
        self.extend(&joined(long_head(kind::ISO, quadlets, epoch, cycle), heads_of(p)));
        if let Some(block) = &p.block {
            self.extend(block.as_slice());
        }
    }

    #[inline(always)]
    fn extend(&mut self, more: &[u8])
        requires { length self.old + length more.now ≤ 102632 }
        ensures { self.new ≡ self.old ++ more.now }
    {
        let end = self.length + more.len();
        self.bytes[self.length..end].copy_from_slice(more);
        self.length = end;
    }
}

// The one after the other.
#[inline(always)]
fn joined(head: [u8; 16], heads: [u8; 12]) -> [u8; 28]
    ensures { result ≡ head ++ heads }
{
    let mut both = [0; 28];
    both[..16].copy_from_slice(&head);
    both[16..].copy_from_slice(&heads);
    both
}
