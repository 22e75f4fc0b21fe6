//! What the words of plug registers say of connections, and whose the connections are.

ghost use Rattle.std.specs.Prelude.{◌≡◌, ◌<◌, length, slice_index};
ghost use Rattle.fw_plug.specs.Words.{out_fields, out_word};
ghost use Rattle.fw_model_account.specs.Account.{Connections};
ghost use Rattle.fw_model_account.specs.Moves.{add_connection, drop_connection};
ghost use Rattle.fw_model_account.specs.Decode.{is_more, kind_of, is_owner, has_connection_of};
ghost use Rattle.fw_account_tables.specs.Stands.{SeatsFor, owner_of, place, seats_at};
ghost use Rattle.fw_account_tables.specs.Swaps.{connected_once, shows_room};

use crate::place::place;
use crate::tables::{Broadcaster, Seats};
use fw_plug::{OutWord, is_full, one_more, unconnected_output};
use fw_terms::{ConnectionKind, PlugAt};

/// A connection is made, and none broken, if a plug's word becomes the other.
pub fn is_more(word: u32, new: u32) -> bool
    ensures { result ≡ is_more (out_fields word).broadcast (out_fields word).counter (out_fields new).broadcast (out_fields new).counter }
{
    let before = OutWord(word);
    let after = OutWord(new);
    if before.broadcast() == after.broadcast() {
        before.counter() < after.counter()
    } else {
        after.broadcast()
    }
}

/// The kind of that connection.
pub fn kind_of(word: u32, new: u32) -> ConnectionKind
    ensures { result ≡ kind_of (out_fields word).broadcast (out_fields new).broadcast }
{
    if OutWord(word).broadcast() == OutWord(new).broadcast() {
        ConnectionKind::PointToPoint
    } else {
        ConnectionKind::Broadcast
    }
}

/// A plug with this word has room for one connection more of the kind.
pub fn shows_room(kind: ConnectionKind, word: u32) -> bool
    ensures { result ≡ shows_room kind word }
{
    !is_full(kind, word)
}

/// The word of an output plug with its first connection.
pub fn first_word(kind: ConnectionKind, channel: u8, rate: u8, overhead: u8) -> u32
    requires channel { channel < 64 }
    requires rate { rate < 4 }
    requires overhead { overhead < 16 }
    ensures { result ≡ out_word (connected_once kind (record { channel = channel; rate = rate; overhead = overhead })) }
{
    one_more(kind, unconnected_output(channel, rate, overhead))
}

/// Whose the connections of a plug are.
pub fn seats_at(seats: &[Seats], p: PlugAt) -> Seats
    requires { place p < length seats.now }
    ensures { result ≡ seats_at seats.now p }
{
    seats[place(p)]
}

/// Controller `c` has such a connection.
pub fn has_connection_of(seats: &Seats, c: u8, kind: ConnectionKind) -> bool
    requires { c < 63 }
    ensures { (s : Connections) → SeatsFor seats.now s → result ≡ has_connection_of c kind s }
{
    match kind {
        ConnectionKind::PointToPoint => seats.counts[usize::from(c)] > 0,
        ConnectionKind::Broadcast => is_owner(seats.broadcaster, c),
    }
}

// The broadcast connection is that of controller `c`.
fn is_owner(broadcaster: Broadcaster, c: u8) -> bool
    ensures { result ≡ is_owner c (owner_of broadcaster) }
{
    match broadcaster {
        Broadcaster::Controller(d) => d == c,
        _ => false,
    }
}

/// With one connection more of controller `c`.
pub fn added(mut seats: Seats, c: u8, kind: ConnectionKind) -> Seats
    requires controller { c < 63 }
    requires room { slice_index seats.counts c < 255 }
    ensures { (s : Connections) → SeatsFor seats s → SeatsFor result (add_connection c kind s) }
{
    match kind {
        ConnectionKind::PointToPoint => seats.counts[usize::from(c)] += 1,
        ConnectionKind::Broadcast => seats.broadcaster = Broadcaster::Controller(c),
    }
    seats
}

/// With one connection less of controller `c`, which has it.
pub fn dropped(mut seats: Seats, c: u8, kind: ConnectionKind) -> Seats
    requires { c < 63 }
    ensures { (s : Connections) → SeatsFor seats s → SeatsFor result (drop_connection c kind s) }
{
    match kind {
        ConnectionKind::PointToPoint => {
            let count = seats.counts[usize::from(c)];
            seats.counts[usize::from(c)] = count.saturating_sub(1);
        },
        ConnectionKind::Broadcast => seats.broadcaster = Broadcaster::Nobody,
    }
    seats
}
