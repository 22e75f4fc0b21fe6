//! What the line of a packet begins with: its cycle, from whom it goes to whom, and its label.

ghost use Rattle.std.specs.Prelude.{◌≡◌, ◌≤◌, ◌++◌, IfSome, codes, decimal, take};
ghost use Rattle.fw_log_names.specs.Names.{node_text};
ghost use Rattle.fw_log_explain.specs.Lines.{head_text};

use crate::write::{write_cycle, write_part};
use fw_async::{Head, local_number};

/// In how many bytes the prefix of a line is written: the cycle has at most 21, and the rest 31.
pub(crate) const PREFIX: usize = 64;

/// The node_ID of all nodes.
const BROADCAST: u16 = 0xffff;

// The number that a node of the local bus is named by.
#[inline(always)]
fn node_of(id: u16) -> Option<u8>
    ensures { IfSome result (λ n. node_text id ≡ codes "node " ++ decimal n) }
{
    if id == BROADCAST {
        return None;
    }
    local_number(id)
}

/// The numbers of the nodes that a packet is between, if both are of the local bus.
#[inline(always)]
#[tactic(auto, unfolding(fw_log_explain::specs::Lines::head_text))]
pub(crate) fn nodes_of(head: &Head) -> Option<(u8, u8)>
    ensures { IfSome result (λ n. head_text head.now ≡ codes "node " ++ decimal n.0 ++ (codes " to node " ++ decimal n.1) ++ (codes " label " ++ decimal head.now.tl)) }
{
    let source = node_of(head.source)?;
    let destination = node_of(head.destination)?;
    Some((source, destination))
}

/// The number of the node that sends a packet to all, if that is what it is.
#[inline(always)]
#[tactic(auto, unfolding(fw_log_explain::specs::Lines::head_text))]
pub(crate) fn caller_of(head: &Head) -> Option<u8>
    ensures { IfSome result (λ n. head_text head.now ≡ codes "node " ++ decimal n ++ (codes " to broadcast label " ++ decimal head.now.tl)) }
{
    if head.destination != BROADCAST {
        return None;
    }
    let source = node_of(head.source)?;
    Some(source)
}

/// Writes the cycle, which has so many bytes of a row, and the head of a packet between nodes of the local bus, and answers where they
/// end.
#[inline(always)]
pub(crate) fn write_prefix(
    out: &mut [u8; PREFIX],
    row: &[u8; 24],
    size: usize,
    nodes: (u8, u8),
    label: u8,
) -> usize
    requires { size ≤ 24 }
    ensures end { result ≤ 64 }
    ensures text { take result out.new ≡ take size row.now ++ (codes "node " ++ decimal nodes.0 ++ (codes " to node " ++ decimal nodes.1) ++ (codes " label " ++ decimal label)) }
{
    let at = write_cycle(out, row, size);
    let at = write_part(out, at, *b"node ", nodes.0);
    let at = write_part(out, at, *b" to node ", nodes.1);
    write_part(out, at, *b" label ", label)
}
