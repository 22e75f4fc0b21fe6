//! The port fields and speeds in self-ID packets.
ghost use Rattle.std.specs.Prelude.{◌≡◌, ◌<◌, ◌==◌, ℕ, [], Some, None, length, slice_index, slice_index_or, unwrap_or};
ghost use Rattle.fw_log_entry.specs.Network.{speed_of};
ghost use Rattle.fw_map.specs.Fields.{field_in, field_of, fields, IsLast, AreRows};

use fw_phy::PhyPacket;
use std::marker::Model;

/// How many nodes a bus has at most.
const NODES: u8 = 63;

/// How many ports the packets of a node hold at most.
pub(crate) const PORTS: u8 = 27;

/// The field of a port with a child.
pub(crate) const CHILD: u8 = 3;

/// The field of a port with the parent.
pub(crate) const PARENT: u8 = 2;

// The field of the node's port in a packet, if the packet is the node's and has that port.
fn field_in(packet: &PhyPacket, node: u8, port: u8) -> Option<u8>
    ensures { result ≡ field_in packet.now node port }
{
    match packet {
        PhyPacket::SelfId(zero) => if zero.phy == node {
            zero.ports.get(usize::from(port)).copied()
        } else {
            None
        },
        PhyPacket::SelfIdMore(more) => {
            let first = 3 + 8 * usize::from(more.number);
            let port = usize::from(port);
            if more.phy == node && first <= port {
                more.ports.get(port - first).copied()
            } else {
                None
            }
        }
        PhyPacket::Config { .. } => None,
        PhyPacket::LinkOn { .. } => None,
    }
}

// The node whose self-ID packet it is, if it is one.
fn node_of(packet: &PhyPacket) -> Option<u8>
    ensures { (n p : ℕ) → (result ≡ Some n → ⊥) → field_in packet.now n p ≡ None }
{
    match packet {
        PhyPacket::SelfId(zero) => Some(zero.phy),
        PhyPacket::SelfIdMore(more) => Some(more.phy),
        PhyPacket::Config { .. } => None,
        PhyPacket::LinkOn { .. } => None,
    }
}

// Notes the fields that a packet has of the node, over those of the packets after it.
fn put_fields(packet: &PhyPacket, node: u8, fields: &mut [u8; 27])
    requires { length fields.old ≡ 27 }
    ensures size { length fields.new ≡ 27 }
    ensures fields { (p : ℕ) → p < 27 → slice_index fields.new p ≡ unwrap_or (field_in packet.now node p) (slice_index fields.old p) }
{
    for port in 0..PORTS {
        if let Some(field) = field_in(packet, node, port) {
            fields[usize::from(port)] = field;
        }
    }
}

// Notes the fields that a packet has, in the row of its node.
fn put_packet(packet: &PhyPacket, rows: &mut [[u8; 27]; 63])
    requires { AreRows rows.old }
    ensures rows { AreRows rows.new }
    ensures fields { (n p : ℕ) → n < 63 → p < 27 → slice_index (slice_index_or rows.new n []) p ≡ unwrap_or (field_in packet.now n p) (slice_index (slice_index_or rows.old n []) p) }
{
    let Some(node) = node_of(packet) else {
        return;
    };
    if node < NODES {
        let mut fields = rows[usize::from(node)];
        put_fields(packet, node, &mut fields);
        rows[usize::from(node)] = fields;
    }
}

/// The self-ID packets of a bus reset, with the fields of each node's ports in them, which are gathered once. Contracts see the packets.
#[derive(Drop)]
pub(crate) struct Ids<'a> {
    packets: &'a [PhyPacket],
    rows: [[u8; 27]; 63],
}

impl<'a> Model for Ids<'a> {
    ghost use Rattle.std.specs.Prelude.{List};
    ghost use Rattle.fw_phy.specs.declared.packet.PhyPacket.{PhyPacket as APacket};
    ghost use Rattle.fw_map.specs.Fields.{HasFields};

    ghost Value = { List APacket };

    ghost view = { λ i. i.packets.now };

    ghost invariant = { λ i. HasFields i.packets.now i.rows };
}

impl<'a> Ids<'a> {
    ghost use Rattle.std.specs.Prelude.{◌≡◌, ◌<◌, ℕ, slice_index};
    ghost use Rattle.fw_log_entry.specs.Network.{speed_of};
    ghost use Rattle.fw_map.specs.Fields.{field_of};

    /// These packets.
    pub(crate) fn of(packets: &'a [PhyPacket]) -> Ids<'a>
        ensures { result ≡ packets.now }
    {
        let mut rows = [[0; 27]; 63];
        for k in (0..packets.len()).rev() {
            put_packet(&packets[k], &mut rows);
        }
        Ids { packets, rows }
    }

    /// The fields of the node's ports, 0 if no packet has the port.
    pub(crate) fn fields_of(&self, node: u8) -> [u8; 27]
        requires { node < 63 }
        ensures { (p : ℕ) → p < 27 → slice_index result p ≡ field_of self.now node p }
    {
        self.rows[usize::from(node)]
    }

    /// sp of the node's packet zero, or 0 if it has none.
    pub(crate) fn speed_of(&self, node: u8) -> u8
        ensures { result ≡ speed_of node self.now }
    {
        speed_of(self.packets, node)
    }
}

/// At how many of its ports a node has its parent, and the last of these ports.
pub(crate) fn parent_ports(ids: &Ids, node: u8) -> (u8, Option<u8>)
    requires { node < 63 }
    ensures count { result.0 ≡ fields ids.now node 2 }
    ensures last { IsLast (λ p. field_of ids.now node p == 2) 27 result.1 }
{
    let mut count = 0;
    let mut last = None;
    let fields = ids.fields_of(node);
    for port in 0..PORTS {
        if fields[usize::from(port)] == PARENT {
            count += 1;
            last = Some(port);
        }
    }
    (count, last)
}

// sp of the node's packet zero, or 0 if it has none.
fn speed_of(ids: &[PhyPacket], node: u8) -> u8
    ensures { result ≡ speed_of node ids.now }
{
    for packet in ids {
        if let PhyPacket::SelfId(zero) = packet {
            if zero.phy == node {
                return zero.speed;
            }
        }
    }
    0
}
