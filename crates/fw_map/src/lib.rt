//! The tree of an IEEE 1394 bus from the self-ID packets of a bus reset, and the speeds between its nodes.
#![tactic(auto)]

mod build;
mod fields;
mod graph;
mod laws;
mod text;
mod tree;

pub use build::rebuild;
pub use graph::tree_graph;
pub use laws::self_ids_tell_the_tree;
pub use text::tree_text;
pub use tree::Tree;

/// Why no tree has the packets of a reset, in the order of the tests.
#[derive(Clone, Copy)]
pub enum MapWhy {
    /// A node before the last has not exactly one parent port, or the last has one.
    Parents,
    /// A node has more child ports than branches before it are without a parent.
    Missing,
    /// After the last node another branch is without a parent.
    Left,
    /// The root is not the last node.
    Root,
}

/// The first node at which a test fails, and which test.
#[derive(Clone, Copy)]
pub struct MapFault {
    /// The number of the node.
    pub node: u8,
    /// The test.
    pub why: MapWhy,
}
