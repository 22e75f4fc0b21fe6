//! A node as a value: a copy of it, and whether two are the same.

ghost use Rattle.std.specs.Prelude.{◌≡◌, IfOk, IsTrue};

use crate::node::Node;
use crate::waiting::Waiting;
use fw_avc::Unit;
use fw_csr::Manager;
use fw_kept_parts::{Part, mixed};
use fw_terms::DeviceKind;
use std::alloc::{AllocError, Global};

impl Waiting {
    fn copy_from(&mut self, other: &Waiting)
        ensures { self.new ≡ other.now }
    {
        self.to = other.to;
        if other.to.is_some() {
            self.frame.copy_from(&other.frame);
        }
    }

    fn is_same(&self, other: &Waiting) -> bool
        ensures { IsTrue result → self.now ≡ other.now }
    {
        if self.to != other.to {
            return false;
        }
        self.to.is_none() || self.frame == other.frame
    }
}

impl Node {
    /// Becomes a copy of another.
    pub fn copy_from(&mut self, other: &Node)
        ensures { self.new ≡ other.now }
    {
        self.kind = other.kind;
        self.device = other.device;
        self.withhold = other.withhold;
        self.number = other.number;
        self.plugs.copy_from(&other.plugs);
        self.manager = other.manager;
        self.unit = copy_of(&other.unit);
        self.waiting.copy_from(&other.waiting);
    }

    /// Two that are found the same are the same.
    pub fn is_same(&self, other: &Node) -> bool
        ensures { IsTrue result → self.now ≡ other.now }
    {
        if self.device != other.device || self.withhold != other.withhold {
            return false;
        }
        if self.number != other.number || !same_kind(self.kind, other.kind) {
            return false;
        }
        if self.manager != other.manager || !self.plugs.is_same(&other.plugs) {
            return false;
        }
        if !same_unit(&self.unit, &other.unit) {
            return false;
        }
        self.waiting.is_same(&other.waiting)
    }
}

impl Part for Node {
    type Whole = Node;

    ghost IsOf = { λ kept node. kept ≡ node };

    fn of(_alloc: Global, node: &Node) -> Result<Node, AllocError> {
        let mut copy = Node::new(0, 0, 0, false);
        copy.copy_from(node);
        Ok(copy)
    }

    fn is_of(&self, node: &Node) -> bool {
        self.is_same(node)
    }

    fn mark(node: &Node) -> u64 {
        manager_mark(&node.manager, node.plugs.mark())
    }
}

// A mark with the words of the resource manager's registers.
fn manager_mark(manager: &Option<Manager>, prefix: u64) -> u64 {
    let mut mark = prefix;
    if let Some(manager) = manager {
        let words = manager.registers();
        for word in &words {
            mark = mixed(mark, *word);
        }
    }
    mark
}

// Two that are found the same are the same.
fn same_kind(kind: DeviceKind, other: DeviceKind) -> bool
    ensures { IsTrue result → kind ≡ other }
{
    matches!(
        (kind, other),
        (DeviceKind::Relay, DeviceKind::Relay)
            | (DeviceKind::Deck, DeviceKind::Deck)
            | (DeviceKind::Camcorder, DeviceKind::Camcorder)
            | (DeviceKind::Computer, DeviceKind::Computer)
    )
}

fn copy_of(unit: &Option<Unit>) -> Option<Unit>
    ensures { result ≡ unit.now }
{
    match unit {
        Some(unit) => {
            let mut copy = Unit::new(0, 0);
            copy.copy_from(unit);
            Some(copy)
        }
        None => None,
    }
}

fn same_unit(unit: &Option<Unit>, other: &Option<Unit>) -> bool
    ensures { IsTrue result → unit.now ≡ other.now }
{
    match (unit, other) {
        (None, None) => true,
        (Some(unit), Some(other)) => unit.is_same(other),
        _ => false,
    }
}
