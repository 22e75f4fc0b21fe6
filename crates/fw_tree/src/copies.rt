//! A cabling as a value: a copy of it, and whether two are the same.

ghost use Rattle.std.specs.Prelude.{◌≡◌, ◌<◌, ◌≤◌, ℕ, IsTrue};
ghost use Rattle.fw_tree.specs.Cables.{InRange, peer};
ghost use Rattle.fw_tree.specs.Topology.{ArePlaced};

use crate::cabling::Cabling;
use crate::facts::{AllCables, End, PhyFacts};
use crate::ports::cables_of;

// Two that are found the same are the same.
fn same_facts(facts: &[PhyFacts], others: &[PhyFacts]) -> bool
    ensures { IsTrue result → facts.now ≡ others.now }
{
    facts == others
}

fn same_end(end: Option<End>, other: Option<End>) -> bool
    ensures { IsTrue result → end ≡ other }
{
    end == other
}

fn same_ports(ports: &[Option<End>], others: &[Option<End>]) -> bool
    ensures { IsTrue result → ports.now ≡ others.now }
{
    if ports.len() != others.len() {
        return false;
    }
    for port in 0..ports.len() {
        if !same_end(ports[port], others[port]) {
            return false;
        }
    }
    true
}

// Whether the first devices have the same cables: if no port is, none is looked at.
fn same_cables(
    cables: &AllCables,
    facts: &[PhyFacts; 63],
    others: &AllCables,
    other_facts: &[PhyFacts; 63],
    count: u8,
) -> bool
    requires count { count ≤ 63 }
    requires range { InRange cables.now }
    requires placed { ArePlaced facts.now cables.now }
    requires others_range { InRange others.now }
    requires others_placed { ArePlaced other_facts.now others.now }
    ensures { IsTrue result → (d p : ℕ) → d < count → peer cables.now d p ≡ peer others.now d p }
{
    for device in 0..usize::from(count) {
        let ports = cables_of(cables, facts, device);
        if !same_ports(ports, cables_of(others, other_facts, device)) {
            return false;
        }
    }
    true
}

impl Cabling {
    /// Becomes a copy of another.
    pub fn copy_from(&mut self, other: &Cabling)
        ensures { self.new ≡ other.now }
    {
        self.facts = other.facts;
        self.count = other.count;
        self.cables = other.cables;
    }

    /// Two that are found the same are the same.
    pub fn is_same(&self, other: &Cabling) -> bool
        ensures { IsTrue result → self.now ≡ other.now }
    {
        let count = usize::from(self.count);
        if self.count != other.count || !same_facts(&self.facts[..count], &other.facts[..count]) {
            return false;
        }
        same_cables(
            &self.cables,
            &self.facts,
            &other.cables,
            &other.facts,
            self.count,
        )
    }
}
