//! How far an entry goes, by a look at its head that asks for no fault.

ghost use Rattle.std.specs.Prelude.{◌≡◌, ◌≤◌, ◌&&◌, length, None, IfSome, IsTrue};
ghost use Rattle.fw_log.specs.Stands.{position};
ghost use Rattle.fw_log.specs.Reading.{is_kind, is_length, has_epoch, head_fault, need, IsPending};
ghost use Rattle.fw_log_entry.specs.Log.{head_size};

use crate::Version;
use crate::log_position::{LogPosition, cycle_of, entry_need, length_of};
use crate::read_head::is_epoch;
use fw_log_entry::codes;

// Both at once, as one look at the kind decides them.
fn begins_entry(kind: u8, low: u8, len: usize) -> bool
    ensures { result ≡ (is_kind kind low && is_length kind len) }
{
    if low != 0 {
        return false;
    }
    match kind {
        codes::kind::RESET => 5 <= len && len <= 569,
        codes::kind::ASYNC => 3 <= len && len <= 132,
        codes::kind::ISO => len == 3 || len == 123,
        codes::kind::EVENT => len == 1 || len == 2,
        codes::kind::OUTCOME | codes::kind::SHOWN => len == 2,
        codes::kind::END => len == 0,
        _ => false,
    }
}

// The same, of a whole head.
fn has_epoch(version: Version, epoch: u32, e: &[u8]) -> bool
    requires { head_size version ≤ length e.now }
    ensures { result ≡ has_epoch version epoch e.now }
{
    match version {
        Version::One => true,
        Version::Two => is_epoch(epoch, e),
    }
}

/// Where the entry ends that the bytes begin with, after others, if the parts before its body are there and right.
#[inline(always)]
pub(crate) fn end_by_head(stand: LogPosition, bytes: &[u8]) -> Option<usize>
    ensures { IfSome result (λ n. (head_fault (position stand) bytes.now ≡ None) × (n ≡ need (position stand) bytes.now)) }
{
    let LogPosition::Entries {
        last,
        version,
        epoch,
        ..
    } = stand
    else {
        return None;
    };
    let head = version.head_size();
    if bytes.len() < head {
        return None;
    }
    let quadlets = length_of(bytes);
    if !begins_entry(bytes[0], bytes[1], quadlets)
        || !has_epoch(version, epoch, bytes)
        || cycle_of(version, bytes) < last
    {
        return None;
    }
    Some(head + 4 * quadlets)
}

/// Whether the bytes are a part of an entry, after others, with its head, all parts of which are right.
pub(crate) fn is_part(stand: LogPosition, bytes: &[u8]) -> bool
    ensures { IsTrue result → IsPending (position stand) bytes.now }
{
    let LogPosition::Entries { version, .. } = stand else {
        return false;
    };
    // Of an entry that is whole the head need not be looked at.
    if bytes.len() >= entry_need(version, bytes) {
        return false;
    }
    match end_by_head(stand, bytes) {
        Some(end) => bytes.len() < end,
        None => false,
    }
}
