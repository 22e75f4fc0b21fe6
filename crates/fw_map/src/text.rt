//! The text of a tree.

ghost use Rattle.std.specs.Prelude.{◌≡◌, ◌<◌, ◌++◌, ◌∷◌, [], List, ℕ, Some, IfOk, OnOk, string_bytes};
ghost use Rattle.fw_map.specs.Walks.{IsRebuilt};
ghost use Rattle.fw_map.specs.Texts.{node_line, place_text, IsRow, IsTreeText};

use crate::Tree;
use std::alloc::{AllocError, Global};

// Appends if a node hangs.
fn put_place(text: &mut String, parent: u8, port: u8, own: u8) -> Result<(), AllocError>
    ensures { OnOk result (string_bytes text.new ≡ string_bytes text.old ++ place_text (Some parent) (Some port) (Some own)) }
{
    write!(text, " parent {parent}.{port}")?;
    write!(text, " port {own}\n")
}

// Appends the line of a node.
fn put_node(text: &mut String, tree: &Tree, node: u8) -> Result<(), AllocError>
    requires { node < 63 }
    ensures { OnOk result (string_bytes text.new ≡ string_bytes text.old ++ node_line tree.now node) }
{
    write!(text, "node {node}")?;
    let at = usize::from(node);
    match (tree.parent[at], tree.parent_port[at], tree.own_port[at]) {
        (Some(parent), Some(port), Some(own)) => put_place(text, parent, port, own),
        _ => write!(text, " root\n"),
    }
}

// Appends the line of the speeds from a node to all nodes.
fn put_row(text: &mut String, tree: &Tree, a: u8) -> Result<(), AllocError>
    requires tree { IsRebuilt tree.now }
    requires node { a < tree.now.count }
    ensures { OnOk result ((row : List ℕ) × IsRow tree.now a tree.now.count row × (string_bytes text.new ≡ string_bytes text.old ++ (row ++ 10 ∷ []))) }
{
    for b in 0..tree.count {
        let speed = tree.least_speed(a, b);
        write!(text, "{speed}")?;
    }
    write!(text, "\n")
}

/// The text of a tree: a line for each node, in order of number, a line `speeds`, and for each node a line of the speeds to all
/// nodes, a digit each. The tree came from `rebuild`. An error says that memory ran out, and comes for nothing else.
pub fn tree_text(alloc: Global, tree: &Tree) -> Result<String, AllocError>
    requires { IsRebuilt tree.now }
    ensures { IfOk result (λ s. IsTreeText tree.now (string_bytes s)) }
{
    let mut text = String::new(alloc);
    for node in 0..tree.count {
        put_node(&mut text, tree, node)?;
    }
    write!(text, "speeds\n")?;
    for node in 0..tree.count {
        put_row(&mut text, tree, node)?;
    }
    Ok(text)
}
