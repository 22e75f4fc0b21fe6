//! What the body of a bus reset says of the bus, but for the root and the self-ID packets.

ghost use Rattle.std.specs.Prelude.{◌≡◌, ◌≤◌, ◌<◌, ◌*◌, IfSome, length, map, take};
ghost use Rattle.std.specs.List.{All};
ghost use Rattle.fw_log_entry.specs.Log.{ResetFits, body, manager_byte, node_quad, quads};
ghost use Rattle.fw_log_entry.specs.declared.entry.Entry.TheVariants.{Reset};
ghost use Rattle.fw_log_entry.specs.declared.entry.ResetEntry.{ResetEntry as AReset};
ghost use Rattle.fw_log.specs.Resets.{RowShape};
ghost use Rattle.fw_log_latest.specs.Latest.{IsBusOf};

use fw_log::count_of;
use fw_log_entry::{NodeList, NodeRow, ResetEntry};
use fw_words::{Quadlet, quadlet_at};

// The manager that a byte names; 255 is none.
fn manager_of(byte: u8) -> Option<u8>
    ensures same { manager_byte result ≡ byte }
    ensures small { IfSome result (λ m. m < 255) }
{
    if byte == 255 { None } else { Some(byte) }
}

// The node that a quadlet is.
fn node_of(q: Quadlet) -> NodeRow
    ensures fits { RowShape result }
    ensures same { node_quad result ≡ q.0 }
{
    NodeRow {
        device: q.field(0, 7) as u8,
        outs: q.field(8, 15) as u8,
        ins: q.field(16, 23) as u8,
        kind: q.field(24, 31) as u8,
    }
}

// The nodes that the first quadlets are.
fn nodes_of(bytes: &[u8], count: usize) -> NodeList
    requires few { count ≤ 63 }
    requires there { 4 * count ≤ length bytes.now }
    ensures count { length result ≡ count }
    ensures fits { All RowShape result }
    ensures same { quads (map node_quad result) ≡ take (4 * count) bytes.now }
{
    let mut nodes = NodeList::new();
    for i in 0..count {
        nodes.push(node_of(quadlet_at(bytes, 4 * i)));
    }
    nodes
}

/// Puts the epoch, the resource manager, the initiator and the nodes of the bus reset whose body these bytes are into room for one. No fault is looked for.
pub fn read_bus(reset: &mut ResetEntry, bytes: &[u8])
    requires { (r : AReset) × ResetFits r × (body (Reset r) ≡ bytes.now) }
    ensures { (r : AReset) → ResetFits r → body (Reset r) ≡ bytes.now → IsBusOf r reset.new }
{
    let second = quadlet_at(bytes, 4);
    reset.epoch = quadlet_at(bytes, 0).0;
    reset.manager = manager_of(second.field(8, 15) as u8);
    reset.initiator = second.field(16, 23) as u8;
    reset.nodes = nodes_of(&bytes[8..], count_of(bytes));
}
