//! The entry of a bus reset as a value: a copy of it, and whether two are the same.

ghost use Rattle.std.specs.Prelude.{◌≡◌, IsTrue};

use crate::entry::ResetEntry;
use crate::nodes::{NodeList, NodeRow};

// Two that are found the same are the same.
fn same_rows(rows: &[NodeRow], others: &[NodeRow]) -> bool
    ensures { IsTrue result → rows.now ≡ others.now }
{
    rows == others
}

impl NodeList {
    fn copy_from(&mut self, other: &NodeList)
        ensures { self.new ≡ other.now }
    {
        self.rows.clear();
        let _ = self.rows.try_extend_from_slice(other.rows.as_slice());
    }

    fn is_same(&self, other: &NodeList) -> bool
        ensures { IsTrue result → self.now ≡ other.now }
    {
        same_rows(self.rows.as_slice(), other.rows.as_slice())
    }
}

impl ResetEntry {
    /// Becomes a copy of another.
    pub fn copy_from(&mut self, other: &ResetEntry)
        ensures { self.new ≡ other.now }
    {
        self.epoch = other.epoch;
        self.root = other.root;
        self.manager = other.manager;
        self.initiator = other.initiator;
        self.nodes.copy_from(&other.nodes);
        self.ids.copy_from(&other.ids);
    }

    /// Two that are found the same are the same.
    pub fn is_same(&self, other: &ResetEntry) -> bool
        ensures { IsTrue result → self.now ≡ other.now }
    {
        if self.epoch != other.epoch || self.initiator != other.initiator {
            return false;
        }
        if self.root != other.root || self.manager != other.manager {
            return false;
        }
        if !self.nodes.is_same(&other.nodes) {
            return false;
        }
        self.ids.is_same(&other.ids)
    }
}
