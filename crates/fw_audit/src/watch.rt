//! Which registers are watched.

ghost use Rattle.std.specs.Prelude.{◌≡◌, ◌<◌};
ghost use Rattle.fw_model_audit.specs.Looked.{is_plug_offset, is_watched};
ghost use Rattle.fw_model_audit.specs.Judged.{watched_offset};

use fw_csr::REGISTER_SPACE;
use fw_csr::low_offset::{
    BANDWIDTH_AVAILABLE, CHANNELS_AVAILABLE_HI, CHANNELS_AVAILABLE_LO, IPCR, OPCR,
};

// An offset of the 31 plug registers that begin at one.
fn is_plug_offset(first: u64, offset: u64) -> bool
    requires { first < 4096 }
    ensures { result ≡ is_plug_offset first offset }
{
    first <= offset && offset < first + 124 && (offset - first) % 4 == 0
}

/// A register of the account stands at this offset, on some node.
pub fn is_watched(offset: u64) -> bool
    ensures { result ≡ is_watched offset }
{
    matches!(
        offset,
        BANDWIDTH_AVAILABLE | CHANNELS_AVAILABLE_HI | CHANNELS_AVAILABLE_LO
    ) || is_plug_offset(OPCR, offset)
        || is_plug_offset(IPCR, offset)
}

/// The watched offset that an address is, if any.
pub fn watched_offset(address: u64) -> Option<u16>
    ensures { result ≡ watched_offset address }
{
    if address < REGISTER_SPACE {
        return None;
    }
    let offset = address - REGISTER_SPACE;
    if is_watched(offset) {
        Some(offset as u16)
    } else {
        None
    }
}
