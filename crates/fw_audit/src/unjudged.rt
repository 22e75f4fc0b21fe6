//! Locks that no audit judges, and how words say it.

ghost use Rattle.std.specs.Prelude.{◌≡◌, ◌≤◌, length};
ghost use Rattle.fw_async.specs.Reader.{IsPacket, Spells};
ghost use Rattle.fw_async.specs.declared.packet.Packet.{Packet as AsyncPacket};
ghost use Rattle.fw_audit.specs.Unjudged.{is_unjudged, is_unjudged_lock, is_unjudged_packet, lock_noun, unjudged_text};

use crate::watch::watched_offset;
use arrayvec::ArrayVec;
use fw_async::{Head, Packet};
use fw_async_fields::offset_at;
use fw_log_entry::Entry;
use fw_terms::Label;
use fw_words::quadlet_at;
use itoa::Buffer;

/// Room for what was not judged, in bytes: with a number of twenty digits it has 64.
pub const UNJUDGED_ROOM: usize = 64;

/// The transaction code of a lock request.
const LOCK: u32 = 9;

// A lock with this head at this address is not judged.
fn is_unjudged_lock(head: &Head, address: u64) -> bool
    ensures { result ≡ is_unjudged_lock head.now address }
{
    !Label::Procedure.marks(head.tl) && watched_offset(address).is_some()
}

/// Whether an entry is a lock request at a watched register with another label than that of procedures, so that no audit judges it.
pub fn is_unjudged(e: &Entry) -> bool
    ensures { result ≡ is_unjudged e.now }
{
    match e {
        Entry::Async(Packet::Lock { head, offset, .. }) => is_unjudged_lock(head, *offset),
        _ => false,
    }
}

/// The same of the packet that these bytes are.
#[inline(always)]
pub fn is_unjudged_packet(bytes: &[u8]) -> bool
    requires { IsPacket bytes.now }
    ensures { (p : AsyncPacket) → Spells p bytes.now → result ≡ is_unjudged_packet p }
{
    quadlet_at(bytes, 0).field(24, 27) == LOCK
        && !Label::Procedure.marks(quadlet_at(bytes, 0).field(16, 21) as u8)
        && watched_offset(offset_at(bytes)).is_some()
}

// One lock, or more.
fn lock_noun(count: u64) -> &'static [u8]
    ensures name { result.now ≡ lock_noun count }
    ensures short { length result.now ≤ 6 }
{
    if count == 1 { b" lock" } else { b" locks" }
}

/// What stands behind a verdict on a log with so many locks that were not judged: nothing if there is none.
#[tactic(auto, unfolding(crate::specs::Unjudged::unjudged_text))]
pub fn unjudged_text(count: u64) -> ArrayVec<u8, UNJUDGED_ROOM>
    ensures bytes { result.items ≡ unjudged_text count }
    ensures few { length result.items ≤ 64 }
{
    let mut text = ArrayVec::new();
    if count == 0 {
        return text;
    }
    let _ = text.try_extend_from_slice(b", not judged ");
    let _ = text.try_extend_from_slice(Buffer::new().format(count).as_bytes());
    let _ = text.try_extend_from_slice(lock_noun(count));
    let _ = text.try_extend_from_slice(b" with labels other than 0");
    text
}
