//! The entry that some bytes begin with.

ghost use Rattle.std.specs.Prelude.{◌≡◌, ◌⊎◌, ◌≤◌, ◌<◌, ◌+◌, ◌^◌, length};
ghost use Rattle.fw_log.specs.Stands.{position};
ghost use Rattle.fw_log.specs.Reading.{fault_at, is_own_epoch, skip, need, IsComplete, IsPending};
ghost use Rattle.fw_log_entry.specs.Log.{head_size};
ghost use Rattle.fw_log.specs.Reader.{EntryJudges, Ends, Finds, Joins};

use crate::held::{ROOM, SplitEntry};
use crate::log_position::{
    EPOCH_AT, LENGTH_END, LogPosition, cycle_of, need, rest, skip, version_at,
};
use crate::read_body::entry_of;
use crate::read_head::{head_fault, whole_end};
use crate::{BodyFault, Entry, LogFault, LogWhy, ResetEntry, Timed, Version};
use fw_words::{Data, quadlet_at};

/// An entry that bytes begin with, where it ends, the bytes of its body, and the version of the log.
#[derive(Drop)]
pub struct Found<'a> {
    pub end: usize,
    pub version: Version,
    pub body: Data<'a>,
    pub entry: Timed<'a>,
}

// Where the entry ends that the bytes begin with, none if they are a part of it, or a fault before its body.
fn end_of(stand: LogPosition, bytes: &[u8]) -> Result<Option<usize>, LogFault>
    requires { (position stand).start + length bytes.now < 2 ^ 64 }
    ensures { Ends (position stand) bytes.now result }
{
    if let Some(end) = whole_end(stand, bytes) {
        return Ok(Some(end));
    }
    if let Some(fault) = head_fault(stand, bytes) {
        return Err(fault);
    }
    let end = need(stand, bytes);
    if bytes.len() < end {
        Ok(None)
    } else {
        Ok(Some(end))
    }
}

// The epoch in a bus reset's head is its own; that of other entries was judged with the head.
fn is_own_epoch(version: Version, what: &Entry, e: &[u8]) -> bool
    requires { head_size version ≤ length e.now }
    ensures { result ≡ is_own_epoch version what.now e.now }
{
    match (version, what) {
        (Version::Two, Entry::Reset(r)) => quadlet_at(e, EPOCH_AT).0 == r.get().epoch,
        _ => true,
    }
}

fn bad_body(place: u64, why: BodyFault) -> LogFault
    ensures { result ≡ fault_at place (LogWhy.BadBody why) }
{
    LogFault {
        place,
        why: LogWhy::BadBody(why),
    }
}

// The entry that the bytes are, or why its body is none.
fn complete_entry<'a>(
    stand: LogPosition,
    version: Version,
    bytes: &'a [u8],
    room: &'a mut ResetEntry,
) -> Result<Timed<'a>, LogFault>
    requires room { (position stand).start + length bytes.now < 2 ^ 64 }
    requires head { IsComplete version (position stand) bytes.now }
    ensures { EntryJudges (position stand) bytes.now result }
{
    let at = skip(stand);
    let entry = rest(bytes, at);
    let head = version.head_size();
    let cycle = cycle_of(version, entry);
    let place = stand.start() + (at + head) as u64;
    match entry_of(entry[0], rest(entry, head), room) {
        Ok(what) => {
            if is_own_epoch(version, &what, entry) {
                Ok(Timed { cycle, what })
            } else {
                Err(bad_body(place, BodyFault::Fields))
            }
        }
        Err(why) => Err(bad_body(place, why)),
    }
}

/// The entry that the bytes begin with, none if they are a part of it, or the first fault.
pub(crate) fn first_entry<'a>(
    stand: LogPosition,
    bytes: &'a [u8],
    room: &'a mut ResetEntry,
) -> Result<Option<Found<'a>>, LogFault>
    requires room { (position stand).start + length bytes.now < 2 ^ 64 }
    ensures { Finds (position stand) bytes.now result }
{
    let end = match end_of(stand, bytes) {
        Ok(Some(end)) => end,
        Ok(None) => return Ok(None),
        Err(fault) => return Err(fault),
    };
    let whole = &bytes[..end];
    let version = version_at(stand, whole);
    match complete_entry(stand, version, whole, room) {
        Ok(entry) => Ok(Some(Found {
            end,
            version,
            body: Data::new(rest(whole, skip(stand) + version.head_size())),
            entry,
        })),
        Err(fault) => Err(fault),
    }
}

// How many bytes the entry takes, if its length was kept, or else how many there is room for.
fn whole_size(stand: LogPosition, taken: &[u8]) -> usize
    requires few { length taken.now ≤ 2308 }
    requires pending { IsPending (position stand) taken.now }
    ensures prefix { length taken.now ≤ result }
    ensures room { result ≤ 2308 }
    ensures known { (result ≡ 2308) ⊎ ((skip (position stand).start + 4 ≤ length taken.now) × (result ≡ need (position stand) taken.now)) }
{
    if taken.len() < skip(stand) + LENGTH_END {
        return ROOM;
    }
    need(stand, taken)
}

/// The piece, if nothing was kept, or else what was kept and as much of the piece as the entry takes; as there is room for, if
/// its length is not known yet.
pub(crate) fn at_hand<'a>(
    stand: LogPosition,
    taken: &[u8],
    piece: &'a [u8],
    room: &'a mut SplitEntry,
) -> &'a [u8]
    requires few { length taken.now ≤ 2308 }
    requires pending { IsPending (position stand) taken.now }
    ensures { Joins (position stand) taken.now piece.now result.now }
{
    if taken.is_empty() {
        return piece;
    }
    room.join(taken, piece, whole_size(stand, taken));
    room.as_slice()
}
