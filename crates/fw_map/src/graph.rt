//! A tree as a graph, in Graphviz's language.

ghost use Rattle.std.specs.Prelude.{◌≡◌, ◌<◌, ◌++◌, Some, slice_get, IfOk, OnOk, string_bytes};
ghost use Rattle.fw_map.specs.Graphs.{kind_word, speed_word, number_text, device_text, box_line, cable_line, edge_line, graph_text};
ghost use Rattle.fw_map.specs.Trees.{speed_at};
ghost use Rattle.fw_map.specs.Walks.{IsRebuilt};

use crate::Tree;
use fw_log_entry::NodeRow;
use fw_terms::DeviceKind;
use std::alloc::{AllocError, Global};

// The name of the kind with this code; no log has a code above 3.
fn kind_word(code: u8) -> &'static str
    ensures { result.now ≡ kind_word code }
{
    match DeviceKind::from_code(code) {
        Some(kind) => kind.name(),
        None => DeviceKind::Computer.name(),
    }
}

// The speed with this code.
fn speed_word(speed: u8) -> &'static str
    ensures { result.now ≡ speed_word speed }
{
    match speed {
        0 => "S100",
        1 => "S200",
        _ => "S400",
    }
}

// sp of a node, 0 after the last one.
fn speed_of(tree: &Tree, node: u8) -> u8
    ensures { result ≡ speed_at tree.now.sp node }
{
    match tree.sp.get(usize::from(node)) {
        Some(speed) => *speed,
        None => 0,
    }
}

// Appends the kind and the number of a device, and the end of its node's box.
fn put_device(text: &mut String, kind: &str, device: u8) -> Result<(), AllocError>
    ensures { OnOk result (string_bytes text.new ≡ string_bytes text.old ++ device_text kind.now device) }
{
    write!(text, "\\n{kind} {device}\"];\n")
}

// Appends the beginning of a node's box.
fn put_number(text: &mut String, node: u8) -> Result<(), AllocError>
    ensures { OnOk result (string_bytes text.new ≡ string_bytes text.old ++ number_text node) }
{
    write!(text, "  n{node}")?;
    write!(text, " [label=\"node {node}")
}

// Appends the box of a node with this row.
fn put_row(text: &mut String, node: u8, row: &NodeRow) -> Result<(), AllocError>
    ensures { OnOk result (string_bytes text.new ≡ string_bytes text.old ++ box_line node (Some row.now)) }
{
    put_number(text, node)?;
    put_device(text, kind_word(row.kind), row.device)
}

// Appends the box of a node, if it has a row.
fn put_box(text: &mut String, rows: &[NodeRow], node: u8) -> Result<(), AllocError>
    ensures { OnOk result (string_bytes text.new ≡ string_bytes text.old ++ box_line node (slice_get rows.now node)) }
{
    match rows.get(usize::from(node)) {
        Some(row) => put_row(text, node, row),
        None => Ok(()),
    }
}

// Appends the cable between a node and its parent.
fn put_cable(
    text: &mut String,
    node: u8,
    parent: u8,
    port: u8,
    own: u8,
    speed: u8,
) -> Result<(), AllocError>
    ensures { OnOk result (string_bytes text.new ≡ string_bytes text.old ++ cable_line node parent port own speed) }
{
    let speed = speed_word(speed);
    write!(text, "  n{parent} -- n{node}")?;
    write!(text, " [taillabel=\"{port}\", headlabel=\"{own}")?;
    write!(text, "\", label=\"{speed}\"];\n")
}

// Appends the cable of a node to its parent, if it has one.
fn put_edge(text: &mut String, tree: &Tree, node: u8) -> Result<(), AllocError>
    requires { node < 63 }
    ensures { OnOk result (string_bytes text.new ≡ string_bytes text.old ++ edge_line tree.now node) }
{
    let at = usize::from(node);
    match (tree.parent[at], tree.parent_port[at], tree.own_port[at]) {
        (Some(parent), Some(port), Some(own)) => {
            let speed = speed_of(tree, node).min(speed_of(tree, parent));
            put_cable(text, node, parent, port, own, speed)
        }
        _ => Ok(()),
    }
}

/// The tree as a graph: a box for each node, with the kind and the number of its device by these rows, and a line for each cable,
/// with both ports and its speed, the lesser sp of its two ends. The tree came from `rebuild`. An error says that memory ran out,
/// and comes for nothing else.
pub fn tree_graph(alloc: Global, tree: &Tree, rows: &[NodeRow]) -> Result<String, AllocError>
    requires { IsRebuilt tree.now }
    ensures { IfOk result (λ s. string_bytes s ≡ graph_text tree.now rows.now) }
{
    let mut text = String::new(alloc);
    text.push_str("graph bus {\n  node [shape=box];\n")?;
    for node in 0..tree.count {
        put_box(&mut text, rows, node)?;
    }
    for node in 0..tree.count {
        put_edge(&mut text, tree, node)?;
    }
    text.push_str("}\n")?;
    Ok(text)
}
