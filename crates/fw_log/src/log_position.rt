//! Where the parts of a log stand, and where a reader does.

ghost use Rattle.std.specs.Prelude.{◌≡◌, ◌≤◌, ◌+◌, ◌*◌, length, drop};
ghost use Rattle.fw_log.specs.Stands.{position};
ghost use Rattle.fw_log.specs.Reading.{length_of, cycle_of, skip, version_in, version_at, entry_need, need};
ghost use Rattle.fw_log_entry.specs.Log.{head_size};

use crate::Version;
use fw_words::quadlet_at;
use std::num::NonZero;

/// How many bytes the header has.
pub(crate) const HEADER_SIZE: usize = 16;

/// Where an entry's length begins, after its kind and a zero byte.
pub(crate) const LENGTH_AT: usize = 2;

/// Where an entry's length ends.
pub(crate) const LENGTH_END: usize = 4;

/// Where an entry's epoch begins, in version 2.
pub(crate) const EPOCH_AT: usize = 4;

/// Where an entry's epoch ends, in version 2.
pub(crate) const EPOCH_END: usize = 8;

/// How many bytes a cycle has, before the body.
pub(crate) const CYCLE: usize = 8;

/// Where a reader stands. `past` is the place of the first byte after the last entry, `last` the cycle of that entry, `epoch` that
/// of the latest bus reset among the entries, or 0.
#[derive(Clone, Copy)]
pub enum LogPosition {
    /// The header is to come, and the first entry after it.
    Header,
    /// An entry is to come.
    Entries {
        past: NonZero<u64>,
        last: u64,
        version: Version,
        epoch: u32,
    },
    /// The end was read.
    Ended {
        past: NonZero<u64>,
        last: u64,
        version: Version,
        epoch: u32,
    },
}

impl LogPosition {
    /// The place of the first byte that belongs to no entry yet.
    pub(crate) fn start(self) -> u64
        ensures { result ≡ (position self).start }
    {
        match self {
            LogPosition::Header => 0,
            LogPosition::Entries { past, .. } | LogPosition::Ended { past, .. } => past.get(),
        }
    }

    /// The epoch of the latest bus reset that was read, or 0.
    pub(crate) fn epoch(self) -> u32
        ensures { result ≡ (position self).epoch }
    {
        match self {
            LogPosition::Header => 0,
            LogPosition::Entries { epoch, .. } | LogPosition::Ended { epoch, .. } => epoch,
        }
    }
}

/// The bytes from a place on, as far as there are any.
pub(crate) fn rest(bytes: &[u8], at: usize) -> &[u8]
    ensures { result.now ≡ drop at bytes.now }
{
    if at < bytes.len() { &bytes[at..] } else { &[] }
}

/// The quadlets of an entry's body.
pub(crate) fn length_of(e: &[u8]) -> usize
    requires { 4 ≤ length e.now }
    ensures { result ≡ length_of e.now }
{
    256 * e[LENGTH_AT] as usize + e[LENGTH_AT + 1] as usize
}

/// The cycle of an entry.
pub(crate) fn cycle_of(version: Version, e: &[u8]) -> u64
    requires { head_size version ≤ length e.now }
    ensures { result ≡ cycle_of version e.now }
{
    let end = version.head_size();
    match e[end - CYCLE..end].first_chunk::<CYCLE>() {
        Some(eight) => u64::from_be_bytes(*eight),
        None => unreachable!(),
    }
}

// The version that a header names, as far as it is there.
fn version_in(bytes: &[u8]) -> Version
    ensures { result ≡ version_in bytes.now }
{
    if bytes.len() >= 8 && quadlet_at(bytes, 4).0 == 2 {
        Version::Two
    } else {
        Version::One
    }
}

/// The version of the log, as far as it is known.
pub(crate) fn version_at(stand: LogPosition, bytes: &[u8]) -> Version
    ensures { result ≡ version_at (position stand) bytes.now }
{
    match stand {
        LogPosition::Header => version_in(bytes),
        LogPosition::Entries { version, .. } | LogPosition::Ended { version, .. } => version,
    }
}

/// How many bytes of a header stand before the entry.
pub(crate) fn skip(stand: LogPosition) -> usize
    ensures { result ≡ skip (position stand).start }
{
    match stand {
        LogPosition::Header => HEADER_SIZE,
        _ => 0,
    }
}

/// How many bytes an entry takes at least, by what is there of it.
pub(crate) fn entry_need(version: Version, e: &[u8]) -> usize
    ensures { result ≡ entry_need version e.now }
{
    if e.len() < LENGTH_END {
        version.head_size()
    } else {
        version.head_size() + 4 * length_of(e)
    }
}

/// How many bytes the header and the entry take at least, by what is there of them.
pub(crate) fn need(stand: LogPosition, bytes: &[u8]) -> usize
    ensures { result ≡ need (position stand) bytes.now }
{
    let at = skip(stand);
    at + entry_need(version_at(stand, bytes), rest(bytes, at))
}
