ghost use Rattle.std.specs.Prelude.{◌≡◌, ◌<◌, ◌≤◌, ◌==◌, ◌&&◌, not, ℕ, [], true, false, None, Some, IfSome, IfNone, IsTrue, count_by, length, nat_lt, slice_index_or, slice_set};
ghost use Rattle.fw_tree.specs.Cables.{InRange, is_seen, peer};
ghost use Rattle.fw_tree.specs.declared.facts.End.{End as Far};
ghost use Rattle.fw_tree.specs.Rounds.{is_open, open_count, LeavesBy};
ghost use Rattle.fw_tree.specs.Forest.{AreCables};
ghost use Rattle.fw_tree.specs.Parents.{Notes, IsDue, IsOpenMarked, IsParent, Settled, parent_at, staying};
ghost use Rattle.fw_tree.specs.Topology.{ArePlaced};

use crate::facts::AllCables;
use crate::ports::cables_of;
use crate::{End, PhyFacts};

// A cable of a device: its port, and the far end.
#[derive(Clone, Copy)]
struct Cable {
    port: u8,
    end: End,
}

/// The port at which a device's parent is, and the round in which the device left.
#[derive(Clone, Copy)]
pub struct Parent {
    pub port: u8,
    pub round: u8,
}

// Who takes part in a round.
#[derive(Clone, Copy)]
struct Round {
    // The device has not left.
    stays: [bool; 63],
    // The device may leave in the round: in the first round each device, and later those to which the one open cable of a device led
    // that left in the round before, since no other that stays has fewer open cables than before.
    due: [bool; 63],
}

// The one cable that leads to a device that stays: None if there is none, or more than one.
fn only_open(ports: &[Option<End>], stays: &[bool; 63]) -> Option<Cable>
    requires most { length ports.now ≤ 27 }
    requires ends { (p : ℕ) → IfSome (slice_index_or ports.now p None) (λ e. e.device < 63) }
    ensures none { IfNone result (count_by (is_open (is_seen stays.now)) ports.now ≡ 1 → ⊥) }
    ensures one { IfSome result (λ c. count_by (is_open (is_seen stays.now)) ports.now ≡ 1) }
    ensures port { IfSome result (λ c. c.port < 27) }
    ensures end { IfSome result (λ c. slice_index_or ports.now c.port None ≡ Some c.end) }
    ensures stays { IfSome result (λ c. is_seen stays.now c.end.device ≡ true) }
{
    let mut open = None;
    for p in 0..ports.len() {
        if let Some(end) = ports[p] {
            if stays[end.device as usize] {
                if open.is_some() {
                    return None;
                }
                open = Some(Cable { port: p as u8, end });
            }
        }
    }
    open
}

// The cable by which a device leaves in a round at whose start these stay, if it leaves.
fn way_out(g: &AllCables, facts: &[PhyFacts; 63], d: usize, stays: &[bool; 63]) -> Option<Cable>
    requires range { InRange g.now }
    requires placed { ArePlaced facts.now g.now }
    requires device { d < 63 }
    ensures none { IfNone result ((is_seen stays.now d && (open_count g.now (is_seen stays.now) d == 1)) ≡ false) }
    ensures leaves { IfSome result (λ c. LeavesBy g.now (is_seen stays.now) d c.port) }
    ensures port { IfSome result (λ c. c.port < 27) }
    ensures end { IfSome result (λ c. peer g.now d c.port ≡ Some c.end) }
{
    if stays[d] {
        only_open(cables_of(g, facts, d), stays)
    } else {
        None
    }
}

// The other device has left in the round, and was declared before this one: towards it the device cannot leave.
fn has_left(before: &[bool; 63], after: &[bool; 63], other: usize, d: usize) -> bool
    requires { other < 63 }
    ensures { result ≡ (nat_lt other d && is_seen before.now other && not (is_seen after.now other)) }
{
    other < d && before[other] && !after[other]
}

// Lets a device leave if it has one open cable, and says whether it left. Then the one at that cable may leave in the next
// round. Those before it have left already, so that they need not be asked again.
fn leave_one(
    g: &AllCables,
    facts: &[PhyFacts; 63],
    d: usize,
    round: u8,
    before: &[bool; 63],
    after: &mut Round,
    parents: &mut [Option<Parent>; 63],
) -> bool
    requires range { InRange g.now }
    requires cables { AreCables g.now }
    requires placed { ArePlaced facts.now g.now }
    requires device { d < 63 }
    requires before { (k : ℕ) → k < d → is_seen after.old.stays k ≡ (is_seen before.now k && not (open_count g.now (is_seen before.now) k == 1)) }
    ensures left { result ≡ (is_seen before.now d && (open_count g.now (is_seen before.now) d == 1)) }
    ensures gone { result ≡ true → after.new.stays ≡ slice_set after.old.stays d false }
    ensures notes { result ≡ true → Notes g.now (is_seen before.now) round d (parent_at parents.new d) }
    ensures others { (k : ℕ) → (k ≡ d → ⊥) → parent_at parents.new k ≡ parent_at parents.old k }
    ensures same { result ≡ false → after.new.stays ≡ after.old.stays }
    ensures same_parents { result ≡ false → parents.new ≡ parents.old }
    ensures keeps { (k : ℕ) → IsTrue (is_seen after.old.due k) → IsTrue (is_seen after.new.due k) }
    ensures marked { result ≡ true → IsOpenMarked g.now (is_seen before.now) d after.new.due }
{
    let Some(cable) = way_out(g, facts, d, before) else {
        return false;
    };
    parents[d] = if has_left(before, &after.stays, cable.end.device as usize, d) {
        None
    } else {
        Some(Parent {
            port: cable.port,
            round,
        })
    };
    after.stays[d] = false;
    after.due[cable.end.device as usize] = true;
    true
}

// One round: all devices that leave in it leave at once. Says whether any left.
fn leave(
    g: &AllCables,
    facts: &[PhyFacts; 63],
    count: u8,
    round: u8,
    now: &mut Round,
    parents: &mut [Option<Parent>; 63],
) -> bool
    requires range { InRange g.now }
    requires cables { AreCables g.now }
    requires placed { ArePlaced facts.now g.now }
    requires few { count ≤ 63 }
    requires declared { (d p : ℕ) (e : Far) → peer g.now d p ≡ Some e → d < count }
    requires due { (d : ℕ) → d < 63 → IsDue g.now now.old.stays now.old.due d }
    ensures after { (d : ℕ) → d < 63 → is_seen now.new.stays d ≡ (is_seen now.old.stays d && not (open_count g.now (is_seen now.old.stays) d == 1)) }
    ensures notes { (d : ℕ) → d < 63 → is_seen now.old.stays d ≡ true → is_seen now.new.stays d ≡ false → Notes g.now (is_seen now.old.stays) round d (parent_at parents.new d) }
    ensures others { (d : ℕ) → d < 63 → is_seen now.new.stays d ≡ is_seen now.old.stays d → parent_at parents.new d ≡ parent_at parents.old d }
    ensures due { (d : ℕ) → d < 63 → IsDue g.now now.new.stays now.new.due d }
    ensures same { result ≡ false → now.new.stays ≡ now.old.stays }
    ensures fewer { result ≡ true → staying now.new.stays < staying now.old.stays }
{
    let before = *now;
    now.due = [false; 63];
    let mut changed = false;
    for d in 0..usize::from(count) {
        if before.due[d] {
            let left = leave_one(g, facts, d, round, &before.stays, now, parents);
            changed |= left;
        }
    }
    changed
}

/// The parent of each device, after all rounds. So many devices are there, and the others have no cables.
pub fn parents(g: &AllCables, facts: &[PhyFacts; 63], count: u8) -> [Option<Parent>; 63]
    requires range { InRange g.now }
    requires cables { AreCables g.now }
    requires placed { ArePlaced facts.now g.now }
    requires few { count ≤ 63 }
    requires declared { (d p : ℕ) (e : Far) → peer g.now d p ≡ Some e → d < count }
    ensures parents { (d : ℕ) → d < 63 → IsParent g.now d (parent_at result d) }
    ensures settled { (r : ℕ) × Settled g.now r }
{
    let mut now = Round {
        stays: [true; 63],
        due: [true; 63],
    };
    let mut parents = [None; 63];
    let mut round = 0;
    while leave(g, facts, count, round, &mut now, &mut parents) {
        round += 1;
    }
    parents
}
