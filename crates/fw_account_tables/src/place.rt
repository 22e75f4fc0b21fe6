//! Where the tables have a plug, a controller's channel, a node.

ghost use Rattle.std.specs.Prelude.{◌≡◌, ◌<◌, ◌≤◌, ◌+◌, ◌-◌, ℕ, nat_lt, length, slice_index, IfSome, Some, None};
ghost use Rattle.fw_terms.specs.Tables.{find_to};
ghost use Rattle.fw_model_account.specs.Account.{is_pending};
ghost use Rattle.fw_model_account.specs.Words.{plug_number};
ghost use Rattle.fw_account_tables.specs.Stands.{allocation_of, charge_at, place, word_at, row_at};

use crate::tables::Charge;
use fw_async::local_number;
use fw_log_entry::NodeRow;
use fw_terms::PlugAt;

/// The place of a plug.
pub fn place(p: PlugAt) -> usize
    ensures { result ≡ place p }
{
    usize::from(p.device) * 31 + usize::from(p.plug)
}

/// The plug is there, by how many plugs each device has.
pub fn has_plug(counts: &[u8], p: PlugAt) -> bool
    ensures { result ≡ nat_lt p.plug (slice_index counts.now p.device) }
{
    match counts.get(usize::from(p.device)) {
        Some(count) => p.plug < *count,
        None => false,
    }
}

/// The word of a plug's register.
pub fn word_at(words: &[u32], p: PlugAt) -> u32
    requires { place p < length words.now }
    ensures { result ≡ word_at words.now p }
{
    words[place(p)]
}

/// The row of the node with this node ID.
pub fn row_at(nodes: &[NodeRow], id: u16) -> Option<NodeRow>
    ensures { result ≡ row_at nodes.now id }
{
    let number = local_number(id)?;
    nodes.get(usize::from(number)).copied()
}

/// The number of the plug whose register stands at an offset, if the first of the 31 stands at another.
pub fn plug_number(first: u64, offset: u64) -> Option<u8>
    requires { first < 4096 }
    ensures { result ≡ plug_number first offset }
{
    if first <= offset && offset < first + 124 && (offset - first) % 4 == 0 {
        Some(((offset - first) / 4) as u8)
    } else {
        None
    }
}

/// The first channel before this one of which controller `c` has a Pending allocation.
pub fn pending_channel(charges: &[Charge], c: u8, end: usize) -> Option<usize>
    requires size { length charges.now ≡ 64 }
    requires end { end ≤ 64 }
    ensures first { result ≡ find_to end (λ ch. is_pending c (allocation_of (charge_at charges.now ch))) }
    ensures within { IfSome result (λ ch. ch < 64) }
{
    for ch in 0..end {
        if is_pending(charges[ch], c) {
            return Some(ch);
        }
    }
    None
}

// Whether this is a Pending allocation of controller `c`.
fn is_pending(charge: Charge, c: u8) -> bool
    ensures { result ≡ is_pending c (allocation_of charge) }
{
    match charge {
        Charge::Pending { controller, .. } => c == controller,
        _ => false,
    }
}
