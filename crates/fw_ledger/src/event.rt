//! The end of a reclaim second, the death of a controller, and a channel that is withheld.

ghost use Rattle.std.specs.Prelude.{◌≡◌, ◌<◌, Some, None, is_some, map, if◌then◌else◌};
ghost use Rattle.fw_model_account.specs.Account.{Account};
ghost use Rattle.fw_model_account.specs.Events.{after_second, after_death, after_withholding};
ghost use Rattle.fw_account_tables.specs.Stands.{Stands, StandsFor, Follows};
ghost use Rattle.fw_ledger.specs.Deaths.{orphaned_charge, orphaned_seats};

use fw_account_tables::{Asked, Broadcaster, Charge, Seats, Tables, first_high};

// The charge after the death of controller `c`.
fn orphaned_charge(charge: Charge, c: u8) -> Charge
    ensures { result ≡ orphaned_charge c charge }
{
    match charge {
        Charge::Pending {
            controller,
            plug,
            units,
        } if c == controller => Charge::Orphaned { plug, units },
        other => other,
    }
}

// Whose the connections of a plug are after the death of controller `c`.
fn orphan_seats(seats: &mut Seats, c: u8)
    ensures { seats.new ≡ orphaned_seats c seats.old }
{
    if c < 63 {
        seats.counts[usize::from(c)] = 0;
    }
    if let Broadcaster::Controller(owner) = seats.broadcaster
        && c == owner
    {
        seats.broadcaster = Broadcaster::Died;
    }
}

// All charges after the death of controller `c`.
fn orphan_charges(charges: &mut [Charge], c: u8)
    ensures { charges.new ≡ map (orphaned_charge c) charges.old }
{
    for charge in charges.iter_mut() {
        *charge = orphaned_charge(*charge, c);
    }
}

// The connections of all plugs after the death of controller `c`.
fn orphan_plugs(plugs: &mut [Seats], c: u8)
    ensures { plugs.new ≡ map (orphaned_seats c) plugs.old }
{
    for seats in plugs.iter_mut() {
        orphan_seats(seats, c);
    }
}

/// The reclaim second is over. It is refused if none runs.
pub fn take_second(tables: &mut Tables) -> bool
    requires stands { Stands tables.old }
    ensures { (l : Account) → StandsFor tables.old l → Follows result tables.old tables.new (if l.reclaiming then Some (after_second l) else None) }
{
    if !tables.reclaiming {
        return false;
    }
    tables.reclaiming = false;
    true
}

/// Channel 31 is withheld from now on. It is refused after a reset entry.
pub fn take_withholding(tables: &mut Tables) -> bool
    requires stands { Stands tables.old }
    ensures { (l : Account) → StandsFor tables.old l → Follows result tables.old tables.new (if is_some l.latest then None else Some (after_withholding l)) }
{
    if tables.started {
        return false;
    }
    tables.withheld = true;
    tables.high = first_high(true);
    true
}

/// The controller of this device dies.
pub fn take_death(tables: &mut Tables, device: u8)
    requires stands { Stands tables.old }
    ensures { (l : Account) → StandsFor tables.old l → StandsFor tables.new (after_death device l) }
{
    orphan_charges(&mut tables.charges, device);
    orphan_plugs(&mut tables.output_seats, device);
    orphan_plugs(&mut tables.input_seats, device);
    if device < 63 {
        tables.asked[usize::from(device)] = Asked::Nothing;
    }
}
