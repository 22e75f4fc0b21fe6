//! How many plugs each device has, by a reset entry, and what else is set at a bus reset.

ghost use Rattle.std.specs.Prelude.{◌≡◌, ◌<◌, ◌≤◌, ℕ, length, max, nat_lt, slice_index, slice_set, if◌then◌else◌, IsTrue, IsFalse};
ghost use Rattle.std.specs.List.{list_any, All};
ghost use Rattle.fw_terms.specs.declared.plug.PlugAt.{PlugAt};
ghost use Rattle.fw_log_entry.specs.Log.{RowFits};
ghost use Rattle.fw_model_account.specs.Network.{is_output_of, is_input_of};
ghost use Rattle.fw_ledger.specs.Resets.{GainsNone, GainsSome, talker};
ghost use Rattle.fw_account_tables.specs.Stands.{charge_at, reclaimable_at, asked_at};

use fw_account_tables::{Asked, Charge, Reclaimable};
use fw_log_entry::{NodeList, NodeRow};

// The device has so many plugs at least.
fn raise(counts: &mut [u8; 63], device: u8, count: u8)
    requires { device < 63 }
    ensures { counts.new ≡ slice_set counts.old device (max (slice_index counts.old device) count) }
{
    let d = usize::from(device);
    counts[d] = counts[d].max(count);
}

/// The number of output plugs of each device.
pub fn outs_of(nodes: &[NodeRow]) -> [u8; 63]
    requires { All RowFits nodes.now }
    ensures { (p : PlugAt) → list_any (is_output_of p) nodes.now ≡ nat_lt p.plug (slice_index result p.device) }
{
    let mut counts = [0; 63];
    for row in nodes {
        raise(&mut counts, row.device, row.outs);
    }
    counts
}

/// Whether some device has more plugs now than before.
pub fn gains_plugs(before: &[u8; 63], now: &[u8; 63]) -> bool
    ensures some { IsTrue result → GainsSome before.now now.now }
    ensures none { IsFalse result → GainsNone before.now now.now }
{
    for device in 0..63 {
        if before[device] < now[device] {
            return true;
        }
    }
    false
}

/// The number of input plugs of each device.
pub fn ins_of(nodes: &[NodeRow]) -> [u8; 63]
    requires { All RowFits nodes.now }
    ensures { (p : PlugAt) → list_any (is_input_of p) nodes.now ≡ nat_lt p.plug (slice_index result p.device) }
{
    let mut counts = [0; 63];
    for row in nodes {
        raise(&mut counts, row.device, row.ins);
    }
    counts
}

/// The same nodes.
pub fn same_nodes(nodes: &[NodeRow]) -> NodeList
    requires { length nodes.now ≤ 63 }
    ensures { result ≡ nodes.now }
{
    let mut same = NodeList::new();
    for row in nodes {
        same.push(*row);
    }
    same
}

/// The flows that may be allocated again after a bus reset: if no reclaim second runs, those that talk.
pub fn renew_flows(flows: &mut [Reclaimable], charges: &[Charge], runs: bool)
    requires flows { length flows.old ≡ 64 }
    requires charges { length charges.now ≡ 64 }
    ensures size { length flows.new ≡ 64 }
    ensures flows { (ch : ℕ) → ch < 64 → reclaimable_at flows.new ch ≡ (if runs then reclaimable_at flows.old ch else talker (charge_at charges.now ch)) }
{
    for (ch, flow) in flows.iter_mut().enumerate() {
        *flow = if runs { *flow } else { talker(charges[ch]) };
    }
}

// The flow of a charge.
fn talker(charge: Charge) -> Reclaimable
    ensures { result ≡ talker charge }
{
    match charge {
        Charge::Connected { plug, units } => Reclaimable::Flow { plug, units },
        _ => Reclaimable::Nothing,
    }
}

/// Each channel is free.
pub fn free(charges: &mut [Charge])
    ensures size { length charges.new ≡ length charges.old }
    ensures all { (ch : ℕ) → ch < length charges.old → charge_at charges.new ch ≡ Charge.Free }
{
    for charge in charges.iter_mut() {
        *charge = Charge::Free;
    }
}

/// No request is outstanding.
pub fn forget(requests: &mut [Asked])
    ensures size { length requests.new ≡ length requests.old }
    ensures all { (c : ℕ) → c < length requests.old → asked_at requests.new c ≡ Asked.Nothing }
{
    for asked in requests.iter_mut() {
        *asked = Asked::Nothing;
    }
}
