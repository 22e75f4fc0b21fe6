//! Swaps of BANDWIDTH_AVAILABLE.

ghost use Rattle.std.specs.Prelude.{◌<◌, ◌≤◌, ◌-◌, Some};
ghost use Rattle.fw_model_account.specs.Account.{Account};
ghost use Rattle.fw_model_account.specs.Moves.{AllocateUnits, ReleaseUnits};
ghost use Rattle.fw_model_account.specs.Words.{BandwidthAvailable};
ghost use Rattle.fw_model_account.specs.Decode.{allowed, move_at};
ghost use Rattle.fw_account_tables.specs.Stands.{Stands, StandsFor, Follows};
ghost use Rattle.fw_account_tables.specs.Swaps.{IsHeld, moved_by};

use crate::held::PendingAllocation;
use crate::tables::{Charge, Tables};

impl Tables {
    // Controller `c` allocates units for the channel that it holds.
    fn allocate_units(&mut self, c: u8, held: PendingAllocation, new: u32) -> bool
        requires stands { Stands self.old }
        requires controller { c < 63 }
        requires channel { held.channel < 64 }
        requires less { new < self.old.left }
        ensures { (l : Account) → StandsFor self.old l → IsHeld c (Some held) l → Follows result self.old self.new (moved_by c (allowed l c BandwidthAvailable self.old.left new (Some (held.plug, AllocateUnits held.channel (self.old.left - new)))) l) }
    {
        let units = self.left - new;
        if held.units != 0 || !self.may_reclaim_units(held.channel, held.plug, units) {
            return false;
        }
        self.left = new;
        self.charges[held.channel] = Charge::Pending {
            controller: c,
            plug: held.plug,
            units,
        };
        true
    }

    // Controller `c` gives back the units that it holds.
    fn release_units(&mut self, c: u8, held: PendingAllocation, new: u32) -> bool
        requires stands { Stands self.old }
        requires controller { c < 63 }
        requires channel { held.channel < 64 }
        requires more { self.old.left ≤ new }
        ensures { (l : Account) → StandsFor self.old l → IsHeld c (Some held) l → Follows result self.old self.new (moved_by c (allowed l c BandwidthAvailable self.old.left new (Some (held.plug, ReleaseUnits held.channel (new - self.old.left)))) l) }
    {
        if held.units == 0 || held.units != new - self.left {
            return false;
        }
        self.left = new;
        self.charges[held.channel] = Charge::Pending {
            controller: c,
            plug: held.plug,
            units: 0,
        };
        true
    }

    /// Controller `c` swaps BANDWIDTH_AVAILABLE. It is refused if that is no move.
    pub fn swap_units(&mut self, c: u8, argument: u32, new: u32) -> bool
        requires stands { Stands self.old }
        requires controller { c < 63 }
        ensures { (l : Account) → StandsFor self.old l → Follows result self.old self.new (moved_by c (move_at l c BandwidthAvailable argument new) l) }
    {
        if argument != self.left {
            return false;
        }
        let held = match self.held(c) {
            Some(held) => held,
            None => return false,
        };
        if new < argument {
            self.allocate_units(c, held, new)
        } else {
            self.release_units(c, held, new)
        }
    }
}
