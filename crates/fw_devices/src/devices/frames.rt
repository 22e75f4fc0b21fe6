//! Devices kept as a frame and the numbers of kept nodes, and given back.

ghost use Rattle.std.specs.Prelude.{◌≡◌, ◌≤◌, length, vec_capacity, IfOk, IsTrue};
ghost use Rattle.fw_devices.specs.Frames.{AreWithin, IsOf, frame_of, nodes_at};
ghost use Rattle.fw_devices.specs.Network.{Network, kinds_of};

use super::Devices;
use crate::bus::no_reset;
use crate::frame::Frame;
use crate::names::Names;
use fw_node::Node;
use fw_terms::DeviceKind;
use fw_tree::Cabling;
use std::alloc::{AllocError, Global};

// Becomes copies of the nodes that are kept under these numbers.
fn copy_nodes(nodes: &mut Vec<Node>, kept: &[Node], numbers: &[u32])
    requires room { 63 ≤ vec_capacity nodes.old }
    requires few { length numbers.now ≤ 63 }
    requires within { AreWithin numbers.now (length kept.now) }
    ensures nodes { nodes.new.items ≡ nodes_at kept.now numbers.now }
    ensures room { 63 ≤ vec_capacity nodes.new }
{
    nodes.clear();
    for number in numbers.iter() {
        let mut node = Node::new(0, 0, 0, false);
        node.copy_from(&kept[*number as usize]);
        nodes.push(node).unwrap();
    }
}

// Two that are found to be of one kind are.
fn same_kind(node: &Node, other: &Node) -> bool
    ensures { IsTrue result → node.now.kind ≡ other.now.kind }
{
    matches!(
        (node.kind(), other.kind()),
        (DeviceKind::Relay, DeviceKind::Relay)
            | (DeviceKind::Deck, DeviceKind::Deck)
            | (DeviceKind::Camcorder, DeviceKind::Camcorder)
            | (DeviceKind::Computer, DeviceKind::Computer)
    )
}

// The nodes are those that are kept under `now`, and become those under `numbers`: only if the two differ is one copied. Whether each
// is of the kind that it was of.
fn change_nodes(nodes: &mut [Node], kept: &[Node], now: &[u32], numbers: &[u32]) -> bool
    requires now { nodes.old ≡ nodes_at kept.now now.now }
    requires size { length now.now ≡ length numbers.now }
    requires within { AreWithin numbers.now (length kept.now) }
    ensures nodes { nodes.new ≡ nodes_at kept.now numbers.now }
    ensures kinds { IsTrue result → kinds_of nodes.new ≡ kinds_of nodes.old }
{
    let mut same = true;
    for n in 0..numbers.len() {
        if now[n] != numbers[n] {
            let node = &kept[numbers[n] as usize];
            same &= same_kind(node, &nodes[n]);
            nodes[n].copy_from(node);
        }
    }
    same
}

impl Devices {
    /// All but the nodes, kept apart.
    pub fn frame(&self, alloc: Global) -> Result<Frame, AllocError>
        ensures { IfOk result (λ f. f ≡ frame_of self.now) }
    {
        let mut frame = Frame {
            cabling: Cabling::new(),
            names: Names::new(alloc)?,
            manager: self.bus.manager,
            entry: no_reset(),
            withhold: self.withhold,
        };
        frame.cabling.copy_from(&self.cabling);
        frame.names.copy_from(&self.names);
        frame.entry.copy_from(&self.bus.entry);
        Ok(frame)
    }

    // If it is found that they have the names and cables of a frame, they do.
    fn has_lines(&self, frame: &Frame) -> bool
        ensures { IsTrue result → (self.now.topology ≡ frame.now.topology) × (self.now.names ≡ frame.now.names) }
    {
        self.cabling.is_same(&frame.cabling) && self.names.is_same(&frame.names)
    }

    /// If it is found that they have a frame, they do.
    pub fn has_frame(&self, frame: &Frame) -> bool
        ensures { IsTrue result → frame_of self.now ≡ frame.now }
    {
        if self.bus.manager != frame.manager || self.withhold != frame.withhold {
            return false;
        }
        if !self.bus.entry.is_same(&frame.entry) {
            return false;
        }
        if !self.cabling.is_same(&frame.cabling) {
            return false;
        }
        self.names.is_same(&frame.names)
    }

    /// The node of each device, by number.
    pub fn nodes(&self) -> &[Node]
        ensures { result.now ≡ self.now.nodes }
    {
        self.nodes.as_slice()
    }

    /// Become the devices with this frame whose nodes are kept under these numbers.
    pub fn give_back(&mut self, frame: &Frame, kept: &[Node], numbers: &[u32])
        requires { (n : Network) × IsOf frame.now kept.now numbers.now n }
        ensures { (n : Network) → IsOf frame.now kept.now numbers.now n → self.new ≡ n }
    {
        self.cabling.copy_from(&frame.cabling);
        self.names.copy_from(&frame.names);
        self.bus.manager = frame.manager;
        self.bus.entry.copy_from(&frame.entry);
        self.bus.current = false;
        self.withhold = frame.withhold;
        copy_nodes(&mut self.nodes, kept, numbers);
    }

    /// They are those with their own frame whose nodes are kept under `now`, and become those with the same frame whose nodes are kept
    /// under `numbers`: only nodes whose numbers differ are copied.
    pub fn change(&mut self, kept: &[Node], now: &[u32], numbers: &[u32])
        requires now { IsOf (frame_of self.old) kept.now now.now self.old }
        requires kept { (n : Network) × IsOf (frame_of self.old) kept.now numbers.now n }
        ensures { (n : Network) → IsOf (frame_of self.old) kept.now numbers.now n → self.new ≡ n }
    {
        let same = change_nodes(&mut self.nodes, kept, now, numbers);
        self.bus.current &= same;
    }

    /// The same with another frame: names and cables are copied only if they differ, and what was found of the bus stays if it is still so.
    pub fn change_frame(&mut self, frame: &Frame, kept: &[Node], now: &[u32], numbers: &[u32])
        requires now { IsOf (frame_of self.old) kept.now now.now self.old }
        requires kept { (n : Network) × IsOf frame.now kept.now numbers.now n }
        ensures { (n : Network) → IsOf frame.now kept.now numbers.now n → self.new ≡ n }
    {
        if now.len() != numbers.len() || !self.has_lines(frame) {
            self.give_back(frame, kept, numbers);
            return;
        }
        let same = change_nodes(&mut self.nodes, kept, now, numbers);
        self.bus.current &= same;
        self.bus.change(&frame.entry, frame.manager);
        self.withhold = frame.withhold;
    }
}
