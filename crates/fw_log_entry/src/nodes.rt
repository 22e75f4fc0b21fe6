ghost use Rattle.std.specs.Prelude.{◌≡◌, ◌<◌, ◌≤◌, ◌++◌, [], ◌∷◌, length};

use arrayvec::ArrayVec;
use std::marker::Model;

/// A node of the bus, in a reset entry (own).
#[derive(Clone, Copy, PartialEq, Eq)]
pub struct NodeRow {
    /// The number of the device that the node is, below 63.
    pub device: u8,
    /// How many output plugs it has, at most 31.
    pub outs: u8,
    /// How many input plugs it has, at most 31.
    pub ins: u8,
    /// The code of the device's kind, at most 3.
    pub kind: u8,
}

impl Default for NodeRow {
    fn default() -> Self {
        NodeRow {
            device: 0,
            outs: 0,
            ins: 0,
            kind: 0,
        }
    }
}

/// At most 63 nodes, in order of their numbers.
#[derive(Drop)]
pub struct NodeList {
    pub(crate) rows: ArrayVec<NodeRow, 63>,
}

impl Model for NodeList {
    ghost use Rattle.std.specs.Prelude.{List};
    ghost use Rattle.fw_log_entry.specs.declared.nodes.NodeRow.{NodeRow};

    ghost Value = { List NodeRow };

    ghost view = { λ s. s.rows.items };

    ghost inverse = { λ xs. record { rows = record { items = xs } } };
}

impl NodeList {
    /// No nodes.
    pub fn new() -> Self
        ensures { result ≡ [] }
    {
        NodeList {
            rows: ArrayVec::new(),
        }
    }

    /// Appends a node.
    pub fn push(&mut self, r: NodeRow)
        requires { length self.old < 63 }
        ensures { self.new ≡ self.old ++ r ∷ [] }
    {
        self.rows.push(r);
    }

    /// All nodes.
    pub fn as_slice(&self) -> &[NodeRow]
        ensures value { result.now ≡ self.now }
        ensures fits { length self.now ≤ 63 }
    {
        self.rows.as_slice()
    }
}
