//! Swaps of output plug registers.

ghost use Rattle.std.specs.Prelude.{◌≡◌, ◌<◌, ◌&&◌, not, nat_lt, slice_index, Some, IsTrue, IsFalse};
ghost use Rattle.std.specs.Vec.{with_item};
ghost use Rattle.fw_plug.specs.Words.{out_fields, is_connected};
ghost use Rattle.fw_model_account.specs.Account.{Account, has_pending};
ghost use Rattle.fw_model_account.specs.Moves.{ConnectFirst, ConnectOverlaid, DisconnectOutput};
ghost use Rattle.fw_model_account.specs.Words.{OutputPlug};
ghost use Rattle.fw_model_account.specs.Decode.{is_plug, allowed, move_at};
ghost use Rattle.fw_account_tables.specs.Stands.{Stands, StandsFor, Follows, plug_of, place, word_at};
ghost use Rattle.fw_account_tables.specs.Swaps.{moved_by};

use crate::channel::exceeds;
use crate::connection::{
    added, dropped, first_word, has_connection_of, is_more, kind_of, seats_at, shows_room,
};
use crate::held::{charge_at, is_held, is_same};
use crate::place::{place, word_at};
use crate::tables::{Addressed, Charge, Seats, Tables};
use fw_plug::{OutWord, connection_value, units};
use fw_terms::{ConnectionKind, PlugAt};

impl Tables {
    // Another word and other connections at an output plug.
    fn set_output(&mut self, p: PlugAt, word: u32, seats: Seats)
        requires stands { Stands self.old }
        requires there { IsTrue (nat_lt p.plug (slice_index self.old.outs p.device)) }
        ensures { self.new ≡ record self.old { outputs = with_item self.old.outputs (place p) word; output_seats = with_item self.old.output_seats (place p) seats } }
    {
        let place = place(p);
        self.outputs[place] = word;
        self.output_seats[place] = seats;
    }

    // Controller `c` overlays a connection.
    fn connect_overlaid(&mut self, c: u8, p: PlugAt, kind: ConnectionKind, new: u32) -> bool
        requires stands { Stands self.old }
        requires controller { c < 63 }
        requires there { IsTrue (nat_lt p.plug (slice_index self.old.outs p.device)) }
        requires connected { IsTrue (is_connected (word_at self.old.outputs.items p)) }
        ensures { (l : Account) → StandsFor self.old l → Follows result self.old self.new (moved_by c (allowed l c (OutputPlug p) (word_at self.old.outputs.items p) new (Some (p, ConnectOverlaid kind))) l) }
    {
        let word = word_at(&self.outputs, p);
        if !shows_room(kind, word) || !exceeds(new, word, connection_value(kind)) {
            return false;
        }
        let seats = added(seats_at(&self.output_seats, p), c, kind);
        self.set_output(p, new, seats);
        true
    }

    // Controller `c` makes the first connection, with the channel and the units that it holds for the plug.
    fn connect_first(&mut self, c: u8, p: PlugAt, kind: ConnectionKind, new: u32) -> bool
        requires stands { Stands self.old }
        requires controller { c < 63 }
        requires there { IsTrue (nat_lt p.plug (slice_index self.old.outs p.device)) }
        requires empty { IsFalse (is_connected (word_at self.old.outputs.items p)) }
        ensures { (l : Account) → StandsFor self.old l → Follows result self.old self.new (moved_by c (allowed l c (OutputPlug p) (word_at self.old.outputs.items p) new (Some (p, ConnectFirst kind (out_fields new).settings.channel (out_fields new).settings.overhead))) l) }
    {
        let rate = OutWord(word_at(&self.outputs, p)).rate();
        let after = OutWord(new);
        let channel = usize::from(after.channel());
        let units = units(after);
        if new != first_word(kind, after.channel(), rate, after.overhead())
            || !is_held(charge_at(&self.charges, channel), c, p, units)
        {
            return false;
        }
        let seats = added(seats_at(&self.output_seats, p), c, kind);
        self.set_output(p, new, seats);
        self.charges[channel] = Charge::Connected { plug: p, units };
        self.continues[place(p)] = false;
        true
    }

    // Controller `c` holds no channel, and last addressed this plug.
    fn may_hold(&self, c: u8, p: PlugAt) -> bool
        requires stands { Stands self.now }
        requires controller { c < 63 }
        ensures { (l : Account) → StandsFor self.now l → result ≡ (not (has_pending c l.allocations) && is_plug p (l.addressed c)) }
    {
        !self.holds(c) && is_plug(self.latest_addressed(c), p)
    }

    // Controller `c` breaks a connection. If it is the last, it gets the plug's channel and units back.
    fn disconnect_output(&mut self, c: u8, p: PlugAt, kind: ConnectionKind, new: u32) -> bool
        requires stands { Stands self.old }
        requires controller { c < 63 }
        requires there { IsTrue (nat_lt p.plug (slice_index self.old.outs p.device)) }
        ensures { (l : Account) → StandsFor self.old l → Follows result self.old self.new (moved_by c (allowed l c (OutputPlug p) (word_at self.old.outputs.items p) new (Some (p, DisconnectOutput kind))) l) }
    {
        let word = word_at(&self.outputs, p);
        let seats = seats_at(&self.output_seats, p);
        if !has_connection_of(&seats, c, kind) || !exceeds(word, new, connection_value(kind)) {
            return false;
        }
        if OutWord(new).is_connected() {
            self.set_output(p, new, dropped(seats, c, kind));
            return true;
        }
        if !self.may_hold(c, p) {
            return false;
        }
        self.set_output(p, new, dropped(seats, c, kind));
        self.charges[usize::from(OutWord(word).channel())] = Charge::Pending {
            controller: c,
            plug: p,
            units: units(OutWord(word)),
        };
        true
    }

    /// Controller `c` swaps the register of an output plug. It is refused if that is no move.
    pub fn swap_output(&mut self, c: u8, p: PlugAt, argument: u32, new: u32) -> bool
        requires stands { Stands self.old }
        requires controller { c < 63 }
        requires there { IsTrue (nat_lt p.plug (slice_index self.old.outs p.device)) }
        ensures { (l : Account) → StandsFor self.old l → Follows result self.old self.new (moved_by c (move_at l c (OutputPlug p) argument new) l) }
    {
        if argument != word_at(&self.outputs, p) {
            return false;
        }
        let kind = kind_of(argument, new);
        if !is_more(argument, new) {
            return self.disconnect_output(c, p, kind, new);
        }
        if OutWord(argument).is_connected() {
            self.connect_overlaid(c, p, kind, new)
        } else {
            self.connect_first(c, p, kind, new)
        }
    }
}

/// It is this plug.
pub fn is_plug(addressed: Addressed, p: PlugAt) -> bool
    ensures { result ≡ is_plug p (plug_of addressed) }
{
    match addressed {
        Addressed::Plug(q) => is_same(q, p),
        Addressed::Nowhere => false,
    }
}
