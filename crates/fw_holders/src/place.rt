//! Where the tables have a plug.

ghost use Rattle.std.specs.Prelude.{◌≡◌, ◌<◌, nat_lt, length, slice_index};
ghost use Rattle.fw_account_tables.specs.Stands.{place, seats_at, word_at};

use fw_account_tables::Seats;
use fw_terms::PlugAt;

/// The place of a plug.
pub(crate) fn place(p: PlugAt) -> usize
    ensures { result ≡ place p }
{
    usize::from(p.device) * 31 + usize::from(p.plug)
}

/// The plug is there, by how many plugs each device has.
pub(crate) fn has_plug(counts: &[u8], p: PlugAt) -> bool
    ensures { result ≡ nat_lt p.plug (slice_index counts.now p.device) }
{
    match counts.get(usize::from(p.device)) {
        Some(count) => p.plug < *count,
        None => false,
    }
}

/// The word of a plug's register.
pub(crate) fn word_at(words: &[u32], p: PlugAt) -> u32
    requires { place p < length words.now }
    ensures { result ≡ word_at words.now p }
{
    words[place(p)]
}

/// Whose the connections of a plug are.
pub(crate) fn seats_at(seats: &[Seats], p: PlugAt) -> Seats
    requires { place p < length seats.now }
    ensures { result ≡ seats_at seats.now p }
{
    seats[place(p)]
}
