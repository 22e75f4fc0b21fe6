//! Bus resets that are right at the first look.

ghost use Rattle.std.specs.Prelude.{◌≡◌, ◌≤◌, IsTrue, IfSome, length};
ghost use Rattle.fw_log.specs.Plain.{GoesOnBy, AreIdsOf, IsReset, are_of_nodes};

use crate::read_reset::{are_apart, count_of, has_nodes, nodes_of, rows_fit};
use fw_phy::begins_self_id;
use fw_words::{Quadlet, quadlet_at};

// Which self-ID packet comes next: the node whose it is, and how many packets of that node come before it.
#[derive(Clone, Copy)]
struct Turn {
    node: u32,
    met: u32,
}

// What comes after the packet that the quadlet is, if that comes next.
fn turn_after(q: Quadlet, turn: Turn, count: u32) -> Option<Turn>
    requires { count ≤ 63 }
    ensures { IfSome result (GoesOnBy q.0 turn) }
{
    if turn.node >= count || turn.met > 3 || !begins_self_id(q, turn.node, turn.met) {
        return None;
    }
    if q.field(31, 31) == 1 {
        Some(Turn {
            node: turn.node,
            met: turn.met + 1,
        })
    } else {
        Some(Turn {
            node: turn.node + 1,
            met: 0,
        })
    }
}

// Whether the bytes are the self-ID packets of so many nodes.
fn are_plain_ids(bytes: &[u8], count: u32) -> bool
    requires { count ≤ 63 }
    ensures { IsTrue result → AreIdsOf count bytes.now }
{
    let mut turn = Turn { node: 0, met: 0 };
    let mut rest = bytes;
    while rest.len() >= 8 {
        let q = quadlet_at(rest, 0);
        if quadlet_at(rest, 4).0 != !q.0 {
            return false;
        }
        let Some(next) = turn_after(q, turn, count) else {
            return false;
        };
        turn = next;
        rest = &rest[8..];
    }
    if !rest.is_empty() {
        return false;
    }
    turn.met == 0 && turn.node == count
}

// Root, isochronous resource manager, if any, and initiator are nodes.
fn are_of_nodes(second: Quadlet, count: u32) -> bool
    ensures { result ≡ are_of_nodes second.0 count }
{
    let manager = second.field(8, 15);
    second.field(0, 7) < count
        && (manager == 255 || manager < count)
        && second.field(16, 23) < count
}

/// Whether the body is a reset's. It is long, and within a loop over entries of all kinds it would slow the others down.
#[inline(never)]
pub(crate) fn is_plain_reset(body: &[u8]) -> bool
    requires { 8 ≤ length body.now }
    ensures { IsTrue result → IsReset body.now }
{
    if !has_nodes(body) {
        return false;
    }
    let count = count_of(body);
    let nodes = nodes_of(&body[8..], count);
    let rows = nodes.as_slice();
    if !are_of_nodes(quadlet_at(body, 4), count as u32) || !rows_fit(rows) || !are_apart(rows) {
        return false;
    }
    are_plain_ids(&body[8 + 4 * count..], count as u32)
}
