//! The outstanding requests on the bus between two half steps.

ghost use Rattle.std.specs.Prelude.{◌≡◌, ◌<◌, ◌≤◌, [], ◌∷◌, ◌++◌, length, take, None, IfNone, IfSome};
ghost use Rattle.std.specs.Option.{option_map};
ghost use Rattle.fw_async.specs.Async.{spelling, Fits};
ghost use Rattle.fw_async.specs.Reader.{IsPacket};
ghost use Rattle.fw_async.specs.Wire.{bytes_from, without};

use crate::letters::Letter;
use crate::packet::Packet;
use crate::room::PacketRoom;
use crate::senders::Senders;
use crate::writer::spell_over;
use fw_async_fields::MOST_NODES;
use fw_words::Bytes;
use std::marker::Model;

/// How many bytes the longest packet has.
const LONGEST: usize = 528;

/// Pairs of a sender's node number and the bytes of its request, in the order in which they were put: at most one of a
/// sender, and so at most 63. No call takes memory or moves the bytes of another pair, and the oldest pair is found at once.
#[derive(Drop)]
pub struct Wire {
    pub(crate) senders: Senders,
    /// By sender: how many bytes of its packet stand, at the beginning of its row; none if it has no pair.
    lengths: [usize; MOST_NODES],
    rows: [[u8; LONGEST]; MOST_NODES],
}

impl Model for Wire {
    ghost use Rattle.fw_async.specs.Wire.{Pairs, IsKept, pairs_at};

    ghost Value = { Pairs };

    ghost view = { λ w. pairs_at w.lengths w.rows w.senders };

    ghost invariant = { λ w. IsKept w.lengths w.senders };
}

// Copies the letter over the beginning of a row, and answers how many bytes it has.
fn copy_letter(letter: &Letter, row: &mut [u8; LONGEST]) -> usize
    ensures bytes { take result row.new ≡ letter.now }
    ensures size { result ≡ length letter.now }
    ensures some { 0 < result }
    ensures room { result ≤ 528 }
{
    let bytes = letter.bytes.as_slice();
    row[..bytes.len()].copy_from_slice(bytes);
    bytes.len()
}

impl Wire {
    /// Nothing stands.
    pub fn new() -> Wire
        ensures { result ≡ [] }
    {
        Wire {
            senders: Senders::new(),
            lengths: [0; MOST_NODES],
            rows: [[0; LONGEST]; MOST_NODES],
        }
    }

    /// Puts a sender's packet after all that stands.
    pub fn put(&mut self, from: u8, p: &Packet)
        requires from { from ≤ 62 }
        requires free { bytes_from from self.old ≡ None }
        requires fits { Fits p.now }
        ensures { self.new ≡ self.old ++ (from, spelling p.now) ∷ [] }
    {
        let at = usize::from(from);
        let length = spell_over(p, &mut self.rows[at]);
        self.lengths[at] = length;
        self.senders.push(from);
    }

    /// Puts the bytes of a sender's packet, which are at hand, after all that stands.
    #[inline(always)]
    pub fn put_bytes(&mut self, from: u8, packet: &PacketRoom)
        requires from { from ≤ 62 }
        requires free { bytes_from from self.old ≡ None }
        requires packet { IsPacket packet.now }
        ensures { self.new ≡ self.old ++ (from, packet.now) ∷ [] }
    {
        let at = usize::from(from);
        self.lengths[at] = packet.copy_to(&mut self.rows[at]);
        self.senders.push(from);
    }

    // Puts bytes that were kept after all that stands.
    pub(crate) fn put_letter(&mut self, from: u8, letter: &Letter)
        requires from { from ≤ 62 }
        requires free { bytes_from from self.old ≡ None }
        ensures { self.new ≡ self.old ++ (from, letter.now) ∷ [] }
    {
        let at = usize::from(from);
        self.lengths[at] = copy_letter(letter, &mut self.rows[at]);
        self.senders.push(from);
    }

    /// The bytes of a sender's packet. None exactly if no pair of that sender stands.
    pub fn get(&self, from: u8) -> Option<&[u8]>
        ensures { option_map (λ b. b.now) result ≡ bytes_from from self.now }
    {
        self.standing(from)
    }

    // The same, which are so many.
    #[inline(always)]
    pub(crate) fn standing(&self, from: u8) -> Option<&[u8]>
        ensures bytes { option_map (λ b. b.now) result ≡ bytes_from from self.now }
        ensures size { IfSome result (λ b. (0 < length b.now) × (length b.now ≤ 528)) }
    {
        let at = usize::from(from);
        if at >= MOST_NODES || self.lengths[at] == 0 {
            return None;
        }
        let row = &self.rows[at];
        Some(&row[..self.lengths[at]])
    }

    /// Takes a sender's pair away and answers its bytes, which are put into `room`; the others keep their order. None exactly
    /// if no pair of that sender stands, and then nothing changes.
    pub fn take<'a>(&mut self, from: u8, room: &'a mut Bytes<LONGEST>) -> Option<&'a [u8]>
        ensures bytes { option_map (λ b. b.now) result ≡ bytes_from from self.old }
        ensures rest { self.new ≡ without from self.old }
        ensures absent { IfNone result (self.new ≡ self.old) }
    {
        let at = usize::from(from);
        if at >= MOST_NODES || self.lengths[at] == 0 {
            return None;
        }
        let row = &self.rows[at];
        room.clear();
        room.append(&row[..self.lengths[at]]);
        self.remove(from);
        Some(room.as_slice())
    }

    /// Takes a sender's pair away, if one stands; the others keep their order.
    pub fn remove(&mut self, from: u8)
        requires { from ≤ 62 }
        ensures { self.new ≡ without from self.old }
    {
        self.lengths[usize::from(from)] = 0;
        self.senders.remove(from);
    }

    /// Takes all pairs away.
    pub fn clear(&mut self)
        ensures { self.new ≡ [] }
    {
        self.lengths = [0; MOST_NODES];
        self.senders.clear();
    }
}
