//! A bus reset in words.

ghost use Rattle.std.specs.Prelude.{◌≡◌, ◌++◌, ◌+◌, ◌*◌, ◌<◌, ◌≤◌, OnOk, Some, codes, decimal, flat_map, length, slice_get};
ghost use Rattle.fw_log_explain.specs.Resets.{port_text, ports_text, row_text, speed_text, link_text, contender_text, gap_text, self_text, number_text, first_id_text, id_text, manager_text, epoch_text, root_text, resource_manager_text, initiator_text, later_text, reset_text};

use crate::parts::{put_flag, put_named_part, put_part};
use fw_log_entry::{NodeRow, ResetEntry};
use fw_log_names::{device_name, port_name, put_named, put_word, speed_name};
use fw_phy::{PhyPacket, SelfId, SelfIdMore};
use std::alloc::AllocError;

/// The first port of an extended self-ID packet, and how many it has (IEEE 1394-1995, self-ID packets).
const FURTHER_PORTS: u64 = 3;

const PORTS_PER_PACKET: u64 = 8;

// Appends a port with this state.
#[inline(always)]
fn put_port_with(text: &mut Vec<u8>, number: u64, state: &str) -> Result<(), AllocError>
    ensures { OnOk result (text.new.items ≡ text.old.items ++ (codes ", port " ++ decimal number ++ state.now)) }
{
    put_part(text, ", port ", number)?;
    put_word(text, state)
}

// Appends a port whose state has no name.
#[tactic(auto, unfolding(crate::specs::Resets::port_text))]
fn put_other_port(text: &mut Vec<u8>, number: u64, port: u8) -> Result<(), AllocError>
    requires { 0 < port }
    ensures { OnOk result (text.new.items ≡ text.old.items ++ port_text number port) }
{
    put_part(text, ", port ", number)?;
    put_named_part(text, " ", port_name(port), "code", u64::from(port))
}

// Appends a port, unless it is not there. Those of most nodes have a state that has a name.
#[inline(always)]
#[tactic(auto, unfolding(crate::specs::Resets::port_text))]
fn put_port(text: &mut Vec<u8>, number: u64, port: u8) -> Result<(), AllocError>
    ensures { OnOk result (text.new.items ≡ text.old.items ++ port_text number port) }
{
    match port {
        0 => Ok(()),
        1 => put_port_with(text, number, " not connected"),
        2 => put_port_with(text, number, " parent"),
        3 => put_port_with(text, number, " child"),
        _ => put_other_port(text, number, port),
    }
}

// Appends the ports of a packet, the first of which has this number.
fn put_ports(text: &mut Vec<u8>, first: u64, ports: &[u8]) -> Result<(), AllocError>
    requires few { length ports.now ≤ 8 }
    requires first { first < 10000 }
    ensures { OnOk result (text.new.items ≡ text.old.items ++ ports_text first ports.now) }
{
    for i in 0..ports.len() {
        put_port(text, first + i as u64, ports[i])?;
    }
    Ok(())
}

// Appends the device that a node is, its kind, and its plugs.
#[tactic(auto, unfolding(crate::specs::Resets::row_text))]
fn put_device(text: &mut Vec<u8>, row: &NodeRow) -> Result<(), AllocError>
    ensures { OnOk result (text.new.items ≡ text.old.items ++ row_text (Some row.now)) }
{
    put_part(text, "device ", u64::from(row.device))?;
    put_named_part(
        text,
        " ",
        device_name(row.kind),
        "kind",
        u64::from(row.kind),
    )?;
    put_part(text, ", plugs ", u64::from(row.outs))?;
    put_part(text, " out ", u64::from(row.ins))?;
    put_word(text, " in, ")
}

/// Appends the device that the node with this number is, if there is one. An error says that memory ran out, as below.
#[tactic(auto, unfolding(crate::specs::Resets::row_text))]
pub fn put_row(text: &mut Vec<u8>, rows: &[NodeRow], number: u8) -> Result<(), AllocError>
    ensures { OnOk result (text.new.items ≡ text.old.items ++ row_text (slice_get rows.now number)) }
{
    match rows.get(usize::from(number)) {
        Some(row) => put_device(text, row),
        None => Ok(()),
    }
}

// Appends the speed of a node.
#[tactic(auto, unfolding(crate::specs::Resets::speed_text))]
fn put_speed(text: &mut Vec<u8>, speed: u8) -> Result<(), AllocError>
    ensures { OnOk result (text.new.items ≡ text.old.items ++ speed_text speed) }
{
    put_named(text, speed_name(speed), "speed", u64::from(speed))
}

// Appends whether a node's link is active.
#[tactic(auto, unfolding(crate::specs::Resets::link_text))]
fn put_link(text: &mut Vec<u8>, link: bool) -> Result<(), AllocError>
    ensures { OnOk result (text.new.items ≡ text.old.items ++ link_text link) }
{
    put_flag(text, link, ", link", ", no link")
}

// Appends that a node may become resource manager, if it may.
#[tactic(auto, unfolding(crate::specs::Resets::contender_text))]
fn put_contender(text: &mut Vec<u8>, contender: bool) -> Result<(), AllocError>
    ensures { OnOk result (text.new.items ≡ text.old.items ++ contender_text contender) }
{
    put_flag(text, contender, ", contender", "")
}

// Appends a gap count.
#[tactic(auto, unfolding(crate::specs::Resets::gap_text))]
fn put_gap(text: &mut Vec<u8>, gap: u8) -> Result<(), AllocError>
    ensures { OnOk result (text.new.items ≡ text.old.items ++ gap_text gap) }
{
    put_part(text, ", gap ", u64::from(gap))
}

/// Appends what a node says of itself.
#[tactic(auto, unfolding(crate::specs::Resets::self_text))]
pub fn put_self(text: &mut Vec<u8>, s: &SelfId) -> Result<(), AllocError>
    ensures { OnOk result (text.new.items ≡ text.old.items ++ self_text s.now) }
{
    put_speed(text, s.speed)?;
    put_link(text, s.link)?;
    put_contender(text, s.contender)?;
    put_gap(text, s.gap)?;
    put_ports(text, 0, &s.ports)
}

// Appends the number of a node.
#[tactic(auto, unfolding(crate::specs::Resets::number_text))]
fn put_node_number(text: &mut Vec<u8>, number: u8) -> Result<(), AllocError>
    ensures { OnOk result (text.new.items ≡ text.old.items ++ number_text number) }
{
    put_part(text, "; node ", u64::from(number))?;
    put_word(text, ": ")
}

// Appends the first self-ID packet of a node.
#[tactic(auto, unfolding(crate::specs::Resets::first_id_text))]
fn put_node(text: &mut Vec<u8>, rows: &[NodeRow], s: &SelfId) -> Result<(), AllocError>
    ensures { OnOk result (text.new.items ≡ text.old.items ++ first_id_text rows.now s.now) }
{
    put_node_number(text, s.phy)?;
    put_row(text, rows, s.phy)?;
    put_self(text, s)
}

/// Appends a further self-ID packet of a node.
pub fn put_further(text: &mut Vec<u8>, s: &SelfIdMore) -> Result<(), AllocError>
    ensures { OnOk result (text.new.items ≡ text.old.items ++ ports_text (3 + 8 * s.now.number) s.now.ports) }
{
    put_ports(
        text,
        FURTHER_PORTS + PORTS_PER_PACKET * u64::from(s.number),
        &s.ports,
    )
}

#[tactic(auto, unfolding(crate::specs::Resets::id_text))]
fn put_id(text: &mut Vec<u8>, rows: &[NodeRow], p: &PhyPacket) -> Result<(), AllocError>
    ensures { OnOk result (text.new.items ≡ text.old.items ++ id_text rows.now p.now) }
{
    match p {
        PhyPacket::SelfId(s) => put_node(text, rows, s),
        PhyPacket::SelfIdMore(s) => put_further(text, s),
        PhyPacket::Config { .. } | PhyPacket::LinkOn { .. } => Ok(()),
    }
}

// Appends all self-ID packets.
fn put_ids(text: &mut Vec<u8>, rows: &[NodeRow], ids: &[PhyPacket]) -> Result<(), AllocError>
    ensures { OnOk result (text.new.items ≡ text.old.items ++ flat_map (id_text rows.now) ids.now) }
{
    for i in 0..ids.len() {
        put_id(text, rows, &ids[i])?;
    }
    Ok(())
}

/// Appends the node that is the isochronous resource manager, or that there is none.
#[tactic(auto, unfolding(crate::specs::Resets::manager_text))]
pub fn put_manager(text: &mut Vec<u8>, manager: Option<u8>) -> Result<(), AllocError>
    ensures { OnOk result (text.new.items ≡ text.old.items ++ manager_text manager) }
{
    match manager {
        Some(node) => put_part(text, "node ", u64::from(node)),
        None => put_word(text, "none"),
    }
}

/// Appends the number of a bus reset. An error says that memory ran out, and comes for nothing else.
#[tactic(auto, unfolding(crate::specs::Resets::epoch_text))]
pub fn put_epoch(text: &mut Vec<u8>, epoch: u32) -> Result<(), AllocError>
    ensures { OnOk result (text.new.items ≡ text.old.items ++ epoch_text epoch) }
{
    put_part(text, "bus reset epoch ", u64::from(epoch))
}

// Appends the root.
#[tactic(auto, unfolding(crate::specs::Resets::root_text))]
fn put_root(text: &mut Vec<u8>, root: u8) -> Result<(), AllocError>
    ensures { OnOk result (text.new.items ≡ text.old.items ++ root_text root) }
{
    put_part(text, ", root node ", u64::from(root))
}

// Appends the isochronous resource manager.
#[tactic(auto, unfolding(crate::specs::Resets::resource_manager_text))]
fn put_resource_manager(text: &mut Vec<u8>, manager: Option<u8>) -> Result<(), AllocError>
    ensures { OnOk result (text.new.items ≡ text.old.items ++ resource_manager_text manager) }
{
    put_word(text, ", resource manager ")?;
    put_manager(text, manager)
}

// Appends the initiator.
#[tactic(auto, unfolding(crate::specs::Resets::initiator_text))]
fn put_initiator(text: &mut Vec<u8>, initiator: u8) -> Result<(), AllocError>
    ensures { OnOk result (text.new.items ≡ text.old.items ++ initiator_text initiator) }
{
    put_part(text, ", initiator node ", u64::from(initiator))
}

/// Appends a bus reset after its number. An error says that memory ran out, and comes for nothing else.
#[tactic(auto, unfolding(crate::specs::Resets::later_text))]
pub fn put_later(text: &mut Vec<u8>, r: &ResetEntry) -> Result<(), AllocError>
    ensures { OnOk result (text.new.items ≡ text.old.items ++ later_text r.now) }
{
    put_root(text, r.root)?;
    put_resource_manager(text, r.manager)?;
    put_initiator(text, r.initiator)?;
    put_ids(text, r.nodes.as_slice(), r.ids.as_slice())
}

// Appends a bus reset.
pub(crate) fn put_reset(text: &mut Vec<u8>, r: &ResetEntry) -> Result<(), AllocError>
    ensures { OnOk result (text.new.items ≡ text.old.items ++ reset_text r.now) }
{
    put_epoch(text, r.epoch)?;
    put_later(text, r)
}
