//! The version of a log, which the first bytes of its header name.

ghost use Rattle.std.specs.Prelude.{◌≡◌};
ghost use Rattle.fw_log.specs.Stands.{position};
ghost use Rattle.fw_log.specs.Reader.{version_read, Keeps};

use crate::Version;
use crate::held::SplitEntry;
use crate::log_position::LogPosition;
use fw_log_entry::codes::LOG_MAGIC;
use fw_words::quadlet_at;

// How many bytes of the header name its version, after a fixed quadlet.
const VERSION_END: usize = 8;

/// The version that a header names, if its first two quadlets are there and right.
pub(crate) fn version_read(bytes: &[u8]) -> Option<Version>
    ensures { result ≡ version_read bytes.now }
{
    if bytes.len() >= VERSION_END && quadlet_at(bytes, 0).0 == LOG_MAGIC {
        Version::of_number(quadlet_at(bytes, 4).0)
    } else {
        None
    }
}

/// Takes as many bytes of a header as name its version, as far as they are there.
pub(crate) fn remember(taken: &mut SplitEntry, stand: LogPosition, piece: &[u8])
    ensures { Keeps (position stand).start taken.old piece.now taken.new }
{
    let count = taken.as_slice().len();
    if matches!(stand, LogPosition::Header) && count < VERSION_END {
        let more = (VERSION_END - count).min(piece.len());
        taken.append(&piece[..more]);
    }
}
