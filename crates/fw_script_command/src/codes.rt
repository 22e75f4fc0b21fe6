//! Words with a meaning of their own: kinds, speeds, systems, channels and shown devices.

ghost use Rattle.std.specs.Prelude.{◌≡◌};
ghost use Rattle.fw_script_command.specs.Words.{kind_in, speed_in, system_in, channel_in, shown_in, late_in};

use crate::Name;
use crate::words::{is, name, small};
use fw_terms::DeviceKind;

/// The kind's code.
pub(crate) fn kind(word: &[u8]) -> Option<u8>
    ensures { result ≡ kind_in word.now }
{
    Some(DeviceKind::named(word)?.code())
}

/// The speed's code.
pub(crate) fn speed(word: &[u8]) -> Option<u8>
    ensures { result ≡ speed_in word.now }
{
    if is(word, b"100") {
        Some(0)
    } else if is(word, b"200") {
        Some(1)
    } else if is(word, b"400") {
        Some(2)
    } else {
        None
    }
}

/// The number of lines of the system.
pub(crate) fn system(word: &[u8]) -> Option<u16>
    ensures { result ≡ system_in word.now }
{
    if is(word, b"525") {
        Some(525)
    } else if is(word, b"625") {
        Some(625)
    } else {
        None
    }
}

/// A channel, or no certain one for `any`.
pub(crate) fn channel(word: &[u8]) -> Option<Option<u8>>
    ensures { result ≡ channel_in word.now }
{
    if matches!(word, b"any") {
        Some(None)
    } else {
        Some(Some(small(word, 0, 63)?))
    }
}

/// A device, or none for `manager`.
pub(crate) fn shown(word: &[u8]) -> Option<Option<Name>>
    ensures { result ≡ shown_in word.now }
{
    if is(word, b"manager") {
        Some(None)
    } else {
        Some(Some(name(word)?))
    }
}

/// Whether the word is `late`, or none.
pub(crate) fn late(word: &[u8]) -> Option<bool>
    ensures { result ≡ late_in word.now }
{
    if is(word, b"late") { Some(true) } else { None }
}
