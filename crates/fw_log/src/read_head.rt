//! What the bytes of an entry show before its body.

ghost use Rattle.std.specs.Prelude.{◌≡◌, ◌≤◌, ◌<◌, ◌+◌, ◌-◌, ◌*◌, ◌^◌, length};
ghost use Rattle.std.specs.Prelude.{None, Some, Ok, IfSome, ◌==◌, if◌then◌else◌};
ghost use Rattle.fw_log.specs.Stands.{position};
ghost use Rattle.fw_log.specs.Reading.{length_of, cycle_of, is_kind, is_length, is_epoch, epoch_fault, cycle_fault, entry_fault, header_fault, head_fault, fault_at};
ghost use Rattle.fw_log_entry.specs.declared.version.Version.TheVariants.{Two};
ghost use Rattle.fw_log.specs.Reader.{Ends};

use crate::extent::end_by_head;
use crate::log_position::{
    CYCLE, EPOCH_AT, EPOCH_END, HEADER_SIZE, LENGTH_AT, LENGTH_END, LogPosition, cycle_of,
    length_of, rest, version_at,
};
use crate::{LogFault, LogWhy, Version};
use fw_log_entry::codes;
use fw_words::quadlet_at;

fn is_kind(kind: u8, low: u8) -> bool
    ensures { result ≡ is_kind kind low }
{
    codes::kind::RESET <= kind && kind <= codes::kind::END && low == 0
}

fn is_length(kind: u8, len: usize) -> bool
    ensures { result ≡ is_length kind len }
{
    match kind {
        codes::kind::RESET => 5 <= len && len <= 569,
        codes::kind::ASYNC => 3 <= len && len <= 132,
        codes::kind::ISO => len == 3 || len == 123,
        codes::kind::EVENT => len == 1 || len == 2,
        codes::kind::END => len == 0,
        _ => len == 2,
    }
}

// The epoch in the head is that of the latest bus reset; that of a bus reset is judged with its body.
pub(crate) fn is_epoch(epoch: u32, e: &[u8]) -> bool
    requires { 8 ≤ length e.now }
    ensures { result ≡ is_epoch epoch e.now }
{
    e[0] == codes::kind::RESET || quadlet_at(e, EPOCH_AT).0 == epoch
}

// The fault of the cycle.
fn cycle_fault(version: Version, place: u64, last: u64, e: &[u8]) -> Option<LogFault>
    requires { place + length e.now < 2 ^ 64 }
    ensures { result ≡ cycle_fault version place last e.now }
{
    let head = version.head_size();
    if e.len() < head || cycle_of(version, e) >= last {
        return None;
    }
    Some(LogFault {
        place: place + (head - CYCLE) as u64,
        why: LogWhy::TimeBack,
    })
}

// The fault of the epoch in version 2, or that of the cycle after it.
fn epoch_fault(epoch: u32, place: u64, last: u64, e: &[u8]) -> Option<LogFault>
    requires { place + length e.now < 2 ^ 64 }
    ensures { result ≡ epoch_fault Two epoch place e.now (cycle_fault Two place last e.now) }
{
    if e.len() < EPOCH_END {
        return None;
    }
    if !is_epoch(epoch, e) {
        return Some(LogFault {
            place: place + EPOCH_AT as u64,
            why: LogWhy::BadEpoch(quadlet_at(e, EPOCH_AT).0),
        });
    }
    cycle_fault(Version::Two, place, last, e)
}

fn entry_fault(version: Version, epoch: u32, place: u64, last: u64, e: &[u8]) -> Option<LogFault>
    requires { place + length e.now < 2 ^ 64 }
    ensures { result ≡ entry_fault version epoch place last e.now }
{
    if e.len() < LENGTH_AT {
        return None;
    }
    let kind = e[0];
    if !is_kind(kind, e[1]) {
        return Some(LogFault {
            place,
            why: LogWhy::BadKind,
        });
    }
    if e.len() < LENGTH_END {
        return None;
    }
    if !is_length(kind, length_of(e)) {
        return Some(LogFault {
            place: place + LENGTH_AT as u64,
            why: LogWhy::BadLength,
        });
    }
    match version {
        Version::One => cycle_fault(version, place, last, e),
        Version::Two => epoch_fault(epoch, place, last, e),
    }
}

fn bad_header(place: u64) -> LogFault
    ensures { result ≡ fault_at place LogWhy.BadHeader }
{
    LogFault {
        place,
        why: LogWhy::BadHeader,
    }
}

// The first quadlet of the header that is there and is not as it must be.
fn header_fault(bytes: &[u8]) -> Option<LogFault>
    ensures { result ≡ header_fault bytes.now None }
{
    if bytes.len() < 4 {
        return None;
    }
    if quadlet_at(bytes, 0).0 != codes::LOG_MAGIC {
        return Some(bad_header(0));
    }
    if bytes.len() < 8 {
        return None;
    }
    if Version::of_number(quadlet_at(bytes, 4).0).is_none() {
        return Some(bad_header(4));
    }
    if bytes.len() < 12 {
        return None;
    }
    if quadlet_at(bytes, 8).0 != 0 {
        return Some(bad_header(8));
    }
    if bytes.len() < 16 {
        return None;
    }
    if quadlet_at(bytes, 12).0 != 0 {
        return Some(bad_header(12));
    }
    None
}

/// Where the entry ends that the bytes begin with, after others, if all of it is there and the parts before its body are
/// right.
#[inline(always)]
pub(crate) fn whole_end(stand: LogPosition, bytes: &[u8]) -> Option<usize>
    ensures { IfSome result (λ n. Ends (position stand) bytes.now (Ok (Some n))) }
{
    let end = end_by_head(stand, bytes)?;
    if bytes.len() < end { None } else { Some(end) }
}

// The first fault that the parts before the body show.
pub(crate) fn head_fault(stand: LogPosition, bytes: &[u8]) -> Option<LogFault>
    requires { (position stand).start + length bytes.now < 2 ^ 64 }
    ensures { result ≡ head_fault (position stand) bytes.now }
{
    match stand {
        LogPosition::Header => match header_fault(bytes) {
            Some(fault) => Some(fault),
            None => entry_fault(
                version_at(stand, bytes),
                0,
                HEADER_SIZE as u64,
                0,
                rest(bytes, HEADER_SIZE),
            ),
        },
        LogPosition::Entries {
            past,
            last,
            version,
            epoch,
        } => { entry_fault(version, epoch, past.get(), last, bytes) }
        LogPosition::Ended { past, .. } => {
            if bytes.is_empty() {
                return None;
            }
            Some(LogFault {
                place: past.get(),
                why: LogWhy::AfterEnd,
            })
        }
    }
}
