ghost use Rattle.std.specs.Prelude.{◌≡◌, ◌<◌, ◌↔◌, ◌⊎◌, ℕ, [], IsTrue, true, false, None, IfSome, slice_index_or, slice_set};
ghost use Rattle.fw_tree.specs.Cables.{Walk, InRange, AllReached, IsClosed, is_seen, unseen, Spreads, MarksPeers, AreMarked, LeadsTo};
ghost use Rattle.fw_tree.specs.Forest.{AreCables};
ghost use Rattle.fw_tree.specs.Topology.{ArePlaced, Separates};

use crate::facts::AllCables;
use crate::ports::cables_of;
use crate::{End, PhyFacts};

// Marks a device, and says whether it is new.
fn mark(seen: &mut [bool; 63], device: u8) -> bool
    requires { device < 63 }
    ensures after { seen.new ≡ slice_set seen.old device true }
    ensures new { IsTrue result ↔ (is_seen seen.old device ≡ false) }
{
    let new = !seen[device as usize];
    seen[device as usize] = true;
    new
}

// Marks what is at the other end of a cable, and says whether it is new.
fn mark_port(port: &Option<End>, seen: &mut [bool; 63]) -> bool
    requires { IfSome port.now (λ e. e.device < 63) }
    ensures keeps { (d : ℕ) → IsTrue (is_seen seen.old d) → IsTrue (is_seen seen.new d) }
    ensures from { (d : ℕ) → IsTrue (is_seen seen.new d) → IsTrue (is_seen seen.old d) ⊎ LeadsTo port.now d }
    ensures marked { IfSome port.now (λ e. IsTrue (is_seen seen.new e.device)) }
    ensures same { result ≡ false → seen.new ≡ seen.old }
    ensures fewer { result ≡ true → unseen seen.new < unseen seen.old }
{
    match port {
        Some(end) => mark(seen, end.device),
        None => false,
    }
}

/// Marks what is joined to a device by its ports, and says whether any of it is new.
pub fn mark_peers(ports: &[Option<End>], seen: &mut [bool; 63]) -> bool
    requires { (p : ℕ) → IfSome (slice_index_or ports.now p None) (λ e. e.device < 63) }
    ensures marks { MarksPeers ports.now seen.old seen.new }
    ensures marked { AreMarked ports.now seen.new }
    ensures same { result ≡ false → seen.new ≡ seen.old }
    ensures fewer { result ≡ true → unseen seen.new < unseen seen.old }
{
    let mut changed = false;
    for port in ports {
        let new = mark_port(port, seen);
        changed |= new;
    }
    changed
}

// Marks what is joined to a device, if that was seen, and says whether any of it is new.
fn spread_from(g: &AllCables, facts: &[PhyFacts; 63], d: usize, seen: &mut [bool; 63]) -> bool
    requires range { InRange g.now }
    requires placed { ArePlaced facts.now g.now }
    requires device { d < 63 }
    ensures marks { Spreads g.now seen.old seen.new }
    ensures closed { IsTrue (is_seen seen.old d) → AreMarked (slice_index_or g.now d []) seen.new }
    ensures same { result ≡ false → seen.new ≡ seen.old }
    ensures fewer { result ≡ true → unseen seen.new < unseen seen.old }
{
    if seen[d] {
        mark_peers(cables_of(g, facts, d), seen)
    } else {
        false
    }
}

// Marks what is joined to devices that were seen, and says whether any of it is new.
fn spread(g: &AllCables, facts: &[PhyFacts; 63], seen: &mut [bool; 63]) -> bool
    requires range { InRange g.now }
    requires placed { ArePlaced facts.now g.now }
    ensures marks { Spreads g.now seen.old seen.new }
    ensures same { result ≡ false → (seen.new ≡ seen.old) × IsClosed g.now seen.new }
    ensures fewer { result ≡ true → unseen seen.new < unseen seen.old }
{
    let mut changed = false;
    for d in 0..63 {
        let new = spread_from(g, facts, d, seen);
        changed |= new;
    }
    changed
}

// One device alone was seen.
fn only(a: u8) -> [bool; 63]
    requires { a < 63 }
    ensures first { IsTrue (is_seen result a) }
    ensures others { (d : ℕ) → IsTrue (is_seen result d) → d ≡ a }
{
    let mut seen = [false; 63];
    seen[a as usize] = true;
    seen
}

/// The devices to which walks of cables lead.
pub fn reach(g: &AllCables, facts: &[PhyFacts; 63], a: u8) -> [bool; 63]
    requires range { InRange g.now }
    requires placed { ArePlaced facts.now g.now }
    requires a { a < 63 }
    ensures reached { AllReached g.now a result }
    ensures closed { IsClosed g.now result }
    ensures first { is_seen result a ≡ true }
{
    let mut seen = only(a);
    // A device that was just declared has no cables, so that nothing more is reached.
    if !spread_from(g, facts, usize::from(a), &mut seen) {
        return seen;
    }
    while spread(g, facts, &mut seen) {}
    seen
}

/// A walk of cables leads from the one device to the other. It is sought from the other on, which is mostly the device that
/// is new.
pub fn are_connected(g: &AllCables, facts: &[PhyFacts; 63], a: u8, b: u8) -> bool
    requires range { InRange g.now }
    requires cables { AreCables g.now }
    requires placed { ArePlaced facts.now g.now }
    requires a { a < 63 }
    requires b { b < 63 }
    ensures walk { IsTrue result ↔ Walk g.now a b }
    ensures apart { result ≡ false → Separates g.now a b }
{
    reach(g, facts, b)[a as usize]
}
