ghost use Rattle.std.specs.Prelude.{◌≡◌, ◌<◌, ◌≤◌, ◌+◌, ◌↔◌, ℕ, Ok, Err, Some, None, IfOk, OnOk, length, true, false};
ghost use Rattle.std.specs.Bool.{OnTrue, OnFalse};
ghost use Rattle.std.specs.List.{All};
ghost use Rattle.std.specs.Result.{result_err};
ghost use Rattle.fw_phy.specs.Phy.{Fits};
ghost use Rattle.fw_log_entry.specs.Log.{ResetFits};
ghost use Rattle.fw_tree.specs.Numbers.{counted};
ghost use Rattle.fw_map.specs.declared.MapFault.{MapFault};
ghost use Rattle.fw_map.specs.declared.tree.Tree.{Tree as Shape};
ghost use Rattle.fw_map.specs.Fields.{fields};
ghost use Rattle.fw_map.specs.Trees.{HasSizes, HasPackets};
ghost use Rattle.fw_map.specs.Faults.{IsFault, branches, due, joining_fault};
ghost use Rattle.fw_map.specs.Rebuilt.{rebuilt};
ghost use Rattle.fw_map.specs.Growing.{Agrees, Grown, Joining, KeepsRest, is_open};

use crate::fields::{CHILD, Ids, PORTS, parent_ports};
use crate::{MapFault, MapWhy, Tree};
use fw_log_entry::ResetEntry;

// Hangs branches on a node, at its child ports from the highest down: each time the one whose node is highest of those without
// a parent. Says whether there was one for each port.
fn take_children(ids: &Ids, node: u8, tree: &mut Tree) -> bool
    requires node { node < 63 }
    requires fits { All Fits ids.now }
    requires sizes { HasSizes tree.old }
    requires grown { Grown ids.now node 27 tree.old }
    requires counts { counted (is_open tree.old) node ≡ branches ids.now node }
    ensures missing { OnFalse result (branches ids.now node < fields ids.now node 3) }
    ensures enough { OnTrue result (fields ids.now node 3 ≤ branches ids.now node) }
    ensures grown { OnTrue result (Grown ids.now (node + 1) 27 tree.new) }
    ensures counts { OnTrue result (counted (is_open tree.new) (node + 1) ≡ branches ids.now (node + 1)) }
    ensures agrees { (s : Shape) → (n : ℕ) → node < n → Grown ids.now n 27 s → Agrees s tree.old node 27 → (result ≡ true) × Agrees s tree.new (node + 1) 27 }
    ensures rest { KeepsRest tree.old tree.new }
{
    let fields = ids.fields_of(node);
    let mut below = node;
    for port in (0..PORTS).rev() {
        if fields[usize::from(port)] == CHILD {
            match tree.open_below(below) {
                Some(child) => {
                    tree.join(child, node, port);
                    below = child;
                }
                None => return false,
            }
        }
    }
    true
}

// How many parent ports a node is to have.
fn due(e: &ResetEntry, node: u8) -> u8
    ensures { result ≡ due e.now node }
{
    if usize::from(node) + 1 == e.nodes.as_slice().len() {
        0
    } else {
        1
    }
}

// Joins the next node: its children hang on it, and its own port and speed are noted.
fn add_node(e: &ResetEntry, ids: &Ids, node: u8, tree: &mut Tree) -> Result<(), MapWhy>
    requires fits { ResetFits e.now }
    requires ids { ids.now ≡ e.now.ids }
    requires node { node < length e.now.nodes }
    requires joining { Joining e.now node tree.old }
    ensures fault { result_err result ≡ joining_fault e.now node }
    ensures joining { OnOk result (Joining e.now (node + 1) tree.new) }
    ensures agrees { (s : Shape) → HasPackets e.now s → Agrees s tree.old node 27 → (result_err result ≡ None) × Agrees s tree.new (node + 1) 27 }
{
    let (count, own_port) = parent_ports(ids, node);
    if count != due(e, node) {
        return Err(MapWhy::Parents);
    }
    if !take_children(ids, node, tree) {
        return Err(MapWhy::Missing);
    }
    tree.own_port[usize::from(node)] = own_port;
    tree.sp[usize::from(node)] = ids.speed_of(node);
    Ok(())
}

/// The one tree that has the packets of a reset entry, or why none has them.
pub fn rebuild(e: &ResetEntry) -> Result<Tree, MapFault>
    requires { ResetFits e.now }
    ensures tree { IfOk result (λ t. HasPackets e.now t) }
    ensures only { (t : Shape) → HasPackets e.now t → result ≡ Ok t }
    ensures fault { (f : MapFault) → (result ≡ Err f) ↔ IsFault e.now f }
    ensures value { result ≡ rebuilt e.now }
{
    let count = e.nodes.as_slice().len() as u8;
    let ids = Ids::of(e.ids.as_slice());
    let mut tree = Tree::bare(count);
    for node in 0..count {
        if let Err(why) = add_node(e, &ids, node, &mut tree) {
            return Err(MapFault { node, why });
        }
    }
    let last = count - 1;
    if tree.open_below(last).is_some() {
        return Err(MapFault {
            node: last,
            why: MapWhy::Left,
        });
    }
    if e.root != last {
        return Err(MapFault {
            node: last,
            why: MapWhy::Root,
        });
    }
    Ok(tree)
}
