ghost use Rattle.std.specs.Prelude.{◌≡◌, ◌<◌, ◌≤◌, ℕ, Bool, List, Option, length, IfSome, IfNone, None, replicate, true};
ghost use Rattle.fw_tree.specs.declared.rounds.Parent.{Parent as Left};
ghost use Rattle.fw_tree.specs.Cables.{InRange, Peers};
ghost use Rattle.fw_tree.specs.Forest.{AreCables};
ghost use Rattle.fw_tree.specs.Parents.{IsParent, parent_at};
ghost use Rattle.fw_tree.specs.Numbers.{IsChild, counted, has_number, number_at, rank, shown};
ghost use Rattle.fw_tree.specs.Branch.{Branch, Ports};
ghost use Rattle.fw_tree.specs.Topology.{ArePlaced};

use crate::PhyFacts;
use crate::facts::AllCables;
use crate::ports::cables_of;
use crate::rounds::Parent;

// The device that hangs on another at a port.
fn child_at(g: &AllCables, parents: &[Option<Parent>; 63], d: u8, p: usize) -> Option<u8>
    requires range { InRange g.now }
    requires device { d < 63 }
    requires port { p < 27 }
    ensures within { IfSome result (λ c. c < 63) }
    ensures child { IfSome result (λ c. IsChild g.now parents.now d p c) }
    ensures none { IfNone result ((c : ℕ) → IsChild g.now parents.now d p c → ⊥) }
{
    let end = g[d as usize][p]?;
    let parent = parents[end.device as usize]?;
    if parent.port == end.port {
        Some(end.device)
    } else {
        None
    }
}

/// How many devices have a number.
// Not inlined, nor is `parent_ports`: there the lists lie in memory, and not byte by byte in registers.
#[inline(never)]
#[tactic(auto, using(crate::proofs::CountLaws::counted_none, crate::proofs::CountLaws::counted_yes, crate::proofs::CountLaws::counted_else))]
pub fn numbered(number: &[Option<u8>; 63]) -> u8
    ensures count { result ≡ counted (has_number number.now) 63 }
    ensures most { result ≤ 63 }
{
    let mut count = 0;
    for d in 0..63 {
        if number[d].is_some() {
            count += 1;
        }
    }
    count
}

// The device left in the first round: it has no children.
fn is_leaf(parent: &Option<Parent>) -> bool
    ensures { result ≡ true → rank parent.now ≡ 0 }
{
    match parent {
        Some(parent) => parent.round == 0,
        None => false,
    }
}

// Gives a device this number, if it has none, and says which is the next. The branch that hangs on it has its numbers.
fn number_one(d: u8, next: u8, number: &mut [Option<u8>; 63]) -> u8
    requires device { d < 63 }
    requires next { next ≡ counted (has_number number.old) 63 }
    ensures branch { (g : Peers) (par : List (Option Left)) (root : ℕ) (on : ℕ → Bool) (paths : ℕ → List ℕ) (before : List (Option ℕ)) → Ports g par root on paths d 27 before number.old
        → Branch g par root on paths d before number.new }
    ensures next { result ≡ counted (has_number number.new) 63 }
{
    if number[d as usize].is_some() {
        return next;
    }
    number[d as usize] = Some(next);
    next + 1
}

// Numbers the branch that hangs on a device, and then the device, from this number on, and says which is the next.
fn number_branch(
    g: &AllCables,
    facts: &[PhyFacts; 63],
    parents: &[Option<Parent>; 63],
    d: u8,
    next: u8,
    number: &mut [Option<u8>; 63],
) -> u8
    requires range { InRange g.now }
    requires cables { AreCables g.now }
    requires placed { ArePlaced facts.now g.now }
    requires parents { (k : ℕ) → k < 63 → IsParent g.now k (parent_at parents.now k) }
    requires device { d < 63 }
    requires next { next ≡ counted (has_number number.old) 63 }
    ensures branch { (root : ℕ) (on : ℕ → Bool) (paths : ℕ → List ℕ) → Branch g.now parents.now root on paths d number.old number.new }
    ensures next { result ≡ counted (has_number number.new) 63 }
{
    let mut next = next;
    for p in 0..cables_of(g, facts, usize::from(d)).len() {
        match child_at(g, parents, d, p) {
            Some(child) => {
                next = if is_leaf(&parents[child as usize]) {
                    number_one(child, next, number)
                } else {
                    number_branch(g, facts, parents, child, next, number)
                };
            }
            None => {}
        }
    }
    number_one(d, next, number)
}

/// The numbers of all devices that hang together with the root.
pub fn numbers_from(
    g: &AllCables,
    facts: &[PhyFacts; 63],
    parents: &[Option<Parent>; 63],
    root: u8,
) -> [Option<u8>; 63]
    requires range { InRange g.now }
    requires cables { AreCables g.now }
    requires placed { ArePlaced facts.now g.now }
    requires parents { (k : ℕ) → k < 63 → IsParent g.now k (parent_at parents.now k) }
    requires device { root < 63 }
    ensures { (on : ℕ → Bool) (paths : ℕ → List ℕ) → Branch g.now parents.now root on paths root (replicate 63 None) result }
{
    let mut number = [None; 63];
    number_branch(g, facts, parents, root, 0, &mut number);
    number
}

// The port at which the parent is, if the device is on the bus.
fn shown(on: bool, parent: &Option<Parent>) -> Option<u8>
    ensures { result ≡ shown on parent.now }
{
    match parent {
        Some(parent) => if on { Some(parent.port) } else { None },
        None => None,
    }
}

/// The parents' ports of the devices of the bus, which are those that have a number.
#[inline(never)]
pub fn parent_ports(number: &[Option<u8>; 63], parents: &[Option<Parent>; 63]) -> [Option<u8>; 63]
    ensures ports { (d : ℕ) → d < 63 → number_at result d ≡ shown (has_number number.now d) (parent_at parents.now d) }
    ensures size { length result ≡ 63 }
{
    let mut ports = [None; 63];
    for d in 0..63 {
        ports[d] = shown(number[d].is_some(), &parents[d]);
    }
    ports
}
