//! Bus resets.

ghost use Rattle.std.specs.Prelude.{◌≡◌, ◌↔◌, ◌<◌, ◌≤◌, ℕ, length, slice_index, IsTrue, IsFalse};
ghost use Rattle.std.specs.List.{All};
ghost use Rattle.fw_log_entry.specs.Log.{ResetFits, RowFits};
ghost use Rattle.fw_log_entry.specs.declared.entry.ResetEntry.{ResetEntry as AReset};
ghost use Rattle.fw_model_account.specs.Account.{Account};
ghost use Rattle.fw_model_account.specs.Events.{after_reset};
ghost use Rattle.fw_ledger.specs.Resets.{HasNoNewOutput};
ghost use Rattle.fw_ledger.specs.Renewed.{AreOuts, IsRenewed};
ghost use Rattle.fw_account_tables.specs.Stands.{Stands, StandsFor};

use crate::counts::{forget, free, gains_plugs, ins_of, outs_of, renew_flows, same_nodes};
use crate::renew::{rates_of, renew_inputs, renew_outputs};
use fw_account_tables::{Tables, first_high};
use fw_log_entry::{NodeRow, ResetEntry};

// A bus reset to these nodes, of which this is the resource manager. The devices have so many output plugs, and those that have new
// ones have these speeds.
fn renew(
    tables: &mut Tables,
    manager: Option<u8>,
    nodes: &[NodeRow],
    outs: &[u8; 63],
    rates: &[u8; 63],
)
    requires stands { Stands tables.old }
    requires rows { All RowFits nodes.now }
    requires few { length nodes.now ≤ 63 }
    requires outs { AreOuts nodes.now outs.now }
    requires rates { (d : ℕ) → slice_index rates.now d < 4 }
    ensures outs { tables.new.outs ≡ outs.now }
    ensures renewed { IsRenewed tables.old manager nodes.now rates.now tables.new }
{
    let ins = ins_of(nodes);
    renew_outputs(
        &mut tables.outputs,
        &mut tables.output_seats,
        &mut tables.continues,
        &tables.outs,
        outs,
        tables.reclaiming,
        rates,
    );
    renew_inputs(
        &mut tables.inputs,
        &mut tables.input_seats,
        &tables.ins,
        &ins,
    );
    renew_flows(&mut tables.reclaimable, &tables.charges, tables.reclaiming);
    free(&mut tables.charges);
    forget(&mut tables.asked);
    tables.outs = *outs;
    tables.ins = ins;
    tables.reclaiming = tables.started;
    tables.started = true;
    tables.manager = manager;
    tables.nodes = same_nodes(nodes);
    tables.left = 4915;
    tables.high = first_high(tables.withheld);
    tables.low = u32::MAX;
}

/// A bus reset.
pub fn take_reset(tables: &mut Tables, r: &ResetEntry)
    requires stands { Stands tables.old }
    requires fits { ResetFits r.now }
    ensures { (l : Account) → StandsFor tables.old l → StandsFor tables.new (after_reset r.now l) }
{
    let nodes = r.nodes.as_slice();
    let outs = outs_of(nodes);
    let rates = rates_of(&tables.outs, &outs, nodes, r.ids.as_slice());
    renew(tables, r.manager, nodes, &outs, &rates);
}

/// A bus reset of which the nodes and the resource manager are known, and not the self-ID packets. It is not taken, and nothing is
/// changed, if a device has more output plugs than before it: a new plug begins with the speed of its device.
pub fn take_bus(tables: &mut Tables, manager: Option<u8>, nodes: &[NodeRow]) -> bool
    requires stands { Stands tables.old }
    requires fits { (r : AReset) × ResetFits r × (r.manager ≡ manager) × (r.nodes ≡ nodes.now) }
    ensures taken { IsTrue result → (l : Account) (r : AReset) → StandsFor tables.old l → ResetFits r → r.manager ≡ manager → r.nodes ≡ nodes.now
        → StandsFor tables.new (after_reset r l) }
    ensures exactly { (l : Account) → StandsFor tables.old l → IsTrue result ↔ HasNoNewOutput l.latest nodes.now }
    ensures kept { IsFalse result → tables.new ≡ tables.old }
{
    let outs = outs_of(nodes);
    if gains_plugs(&tables.outs, &outs) {
        return false;
    }
    renew(tables, manager, nodes, &outs, &[0; 63]);
    true
}
