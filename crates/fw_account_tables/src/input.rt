//! Swaps of input plug registers.

ghost use Rattle.std.specs.Prelude.{◌≡◌, ◌<◌, nat_lt, slice_index, Some, IsTrue};
ghost use Rattle.std.specs.Vec.{with_item};
ghost use Rattle.fw_plug.specs.Words.{in_fields};
ghost use Rattle.fw_model_account.specs.Account.{Account};
ghost use Rattle.fw_model_account.specs.Moves.{ConnectInput, DisconnectInput};
ghost use Rattle.fw_model_account.specs.Words.{InputPlug};
ghost use Rattle.fw_model_account.specs.Decode.{allowed, move_at};
ghost use Rattle.fw_account_tables.specs.Stands.{Stands, StandsFor, Follows, place, word_at};
ghost use Rattle.fw_account_tables.specs.Swaps.{moved_by, keeps_channel};

use crate::channel::exceeds;
use crate::connection::{
    added, dropped, has_connection_of, is_more, kind_of, seats_at, shows_room,
};
use crate::place::{place, word_at};
use crate::tables::{Seats, Tables};
use fw_plug::{InWord, connection_value, with_channel};
use fw_terms::{ConnectionKind, PlugAt};

// A plug with this word may be connected on the channel: if it is connected, it stays.
fn keeps_channel(word: u32, channel: u8) -> bool
    ensures { result ≡ keeps_channel word channel }
{
    !InWord(word).is_connected() || channel == InWord(word).channel()
}

impl Tables {
    // Another word and other connections at an input plug.
    fn set_input(&mut self, p: PlugAt, word: u32, seats: Seats)
        requires stands { Stands self.old }
        requires there { IsTrue (nat_lt p.plug (slice_index self.old.ins p.device)) }
        ensures { self.new ≡ record self.old { inputs = with_item self.old.inputs (place p) word; input_seats = with_item self.old.input_seats (place p) seats } }
    {
        let place = place(p);
        self.inputs[place] = word;
        self.input_seats[place] = seats;
    }

    // Controller `c` makes a connection.
    fn connect_input(&mut self, c: u8, p: PlugAt, kind: ConnectionKind, new: u32) -> bool
        requires stands { Stands self.old }
        requires controller { c < 63 }
        requires there { IsTrue (nat_lt p.plug (slice_index self.old.ins p.device)) }
        ensures { (l : Account) → StandsFor self.old l → Follows result self.old self.new (moved_by c (allowed l c (InputPlug p) (word_at self.old.inputs.items p) new (Some (p, ConnectInput kind (in_fields new).channel))) l) }
    {
        let word = word_at(&self.inputs, p);
        let channel = InWord(new).channel();
        if !shows_room(kind, word) || !keeps_channel(word, channel) {
            return false;
        }
        if !exceeds(new, with_channel(word, channel), connection_value(kind)) {
            return false;
        }
        let seats = added(seats_at(&self.input_seats, p), c, kind);
        self.set_input(p, new, seats);
        true
    }

    // Controller `c` breaks a connection.
    fn disconnect_input(&mut self, c: u8, p: PlugAt, kind: ConnectionKind, new: u32) -> bool
        requires stands { Stands self.old }
        requires controller { c < 63 }
        requires there { IsTrue (nat_lt p.plug (slice_index self.old.ins p.device)) }
        ensures { (l : Account) → StandsFor self.old l → Follows result self.old self.new (moved_by c (allowed l c (InputPlug p) (word_at self.old.inputs.items p) new (Some (p, DisconnectInput kind))) l) }
    {
        let word = word_at(&self.inputs, p);
        let seats = seats_at(&self.input_seats, p);
        if !has_connection_of(&seats, c, kind) || !exceeds(word, new, connection_value(kind)) {
            return false;
        }
        self.set_input(p, new, dropped(seats, c, kind));
        true
    }

    /// Controller `c` swaps the register of an input plug. It is refused if that is no move.
    pub fn swap_input(&mut self, c: u8, p: PlugAt, argument: u32, new: u32) -> bool
        requires stands { Stands self.old }
        requires controller { c < 63 }
        requires there { IsTrue (nat_lt p.plug (slice_index self.old.ins p.device)) }
        ensures { (l : Account) → StandsFor self.old l → Follows result self.old self.new (moved_by c (move_at l c (InputPlug p) argument new) l) }
    {
        if argument != word_at(&self.inputs, p) {
            return false;
        }
        let kind = kind_of(argument, new);
        if is_more(argument, new) {
            self.connect_input(c, p, kind, new)
        } else {
            self.disconnect_input(c, p, kind, new)
        }
    }
}
