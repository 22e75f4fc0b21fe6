//! The connections that a plug's word shows, and the word with others.

ghost use Rattle.std.specs.Prelude.{◌≡◌, ◌≤◌, ◌^◌, IsFalse, IsTrue};
ghost use Rattle.fw_plug.specs.Plugs.{disconnected};
ghost use Rattle.fw_plug.specs.Changes.{is_full, shows_connection, connection_value, one_more, one_less};

use crate::OutWord;
use fw_terms::ConnectionKind;
use fw_words::{Quadlet, with_field};

/// Whether a plug with this word takes no further connection of the kind: 63 are counted, or it has the broadcast connection.
pub fn is_full(kind: ConnectionKind, word: u32) -> bool
    ensures { result ≡ is_full kind word }
{
    match kind {
        ConnectionKind::PointToPoint => OutWord(word).counter() == 63,
        ConnectionKind::Broadcast => OutWord(word).broadcast(),
    }
}

/// Whether a plug's word shows a connection of the kind.
pub fn shows_connection(kind: ConnectionKind, word: u32) -> bool
    ensures { result ≡ shows_connection kind word }
{
    match kind {
        ConnectionKind::PointToPoint => OutWord(word).counter() > 0,
        ConnectionKind::Broadcast => OutWord(word).broadcast(),
    }
}

/// One count of the point-to-point connection counter, or the broadcast connection bit.
pub fn connection_value(kind: ConnectionKind) -> u32
    ensures value { result ≡ connection_value kind }
    ensures within { result ≤ 2 ^ 30 }
{
    match kind {
        ConnectionKind::PointToPoint => 1 << 24,
        ConnectionKind::Broadcast => 1 << 30,
    }
}

/// The word of a plug with one connection more of the kind.
pub fn one_more(kind: ConnectionKind, word: u32) -> u32
    requires { IsFalse (is_full kind word) }
    ensures { result ≡ one_more kind word }
{
    word + connection_value(kind)
}

/// The word of a plug with one connection less of the kind.
pub fn one_less(kind: ConnectionKind, word: u32) -> u32
    requires { IsTrue (shows_connection kind word) }
    ensures { result ≡ one_less kind word }
{
    word - connection_value(kind)
}

/// The word with the broadcast connection bit and the point-to-point connection counter cleared, as a bus reset leaves it.
pub fn disconnected(word: u32) -> u32
    ensures { result ≡ disconnected word }
{
    let word = Quadlet(word);
    let unconnected = with_field(word.field(0, 0), 7, 0);
    with_field(unconnected, 24, word.field(8, 31))
}
