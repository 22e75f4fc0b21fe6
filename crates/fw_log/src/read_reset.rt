//! The bodies of reset entries, from bytes.

ghost use Rattle.std.specs.Prelude.{ℕ, ◌≡◌, ◌≤◌, ◌<◌, ◌+◌, ◌*◌, ◌++◌, ◌∷◌, [], List, length, take, drop, map, IsTrue, ◌↔◌, IfSome, None, Ok, Err, OnOk, IfErr};
ghost use Rattle.std.specs.List.{All};
ghost use Rattle.fw_phy.specs.Phy.{Fits as PhyFits};
ghost use Rattle.fw_phy.specs.declared.packet.PhyPacket.{PhyPacket};
ghost use Rattle.fw_log_entry.specs.Log as Log;
ghost use Rattle.fw_log_entry.specs.Log.{quads, node_quad, RowFits, AreApart, ResetFits, are_ids, manager_byte};
ghost use Rattle.fw_log.specs.Bodies.{count_of, ids_at, has_nodes, AreIds, IdsJudges, ResetJudges};
ghost use Rattle.fw_log.specs.Resets.{RowShape, ResetShape, goes_on};

use crate::{BodyFault, Entry, NodeList, NodeRow, ResetEntry};
use fw_phy::{PhyPacket, SelfIds, read_phy};
use fw_words::{Quadlet, quadlet_at};

// Keeps a packet more, as far as there is room.
fn keep(ids: &mut SelfIds, packet: PhyPacket)
    requires { length ids.old ≤ 252 }
    ensures { ids.new ≡ take 252 (ids.old ++ packet ∷ []) }
{
    if ids.as_slice().len() < 252 {
        ids.push(packet);
    }
}

// Puts the packets that the bytes are into a list, or tells the first refusal, or that they are more than a reset has.
fn read_ids(ids: &mut SelfIds, bytes: &[u8]) -> Result<(), BodyFault>
    requires { length bytes.now ≤ 2276 }
    ensures ids { OnOk result (IdsJudges bytes.now (Ok ids.new)) }
    ensures fault { IfErr result (λ f. IdsJudges bytes.now (Err f)) }
{
    *ids = SelfIds::new();
    let mut at = 0;
    while at < bytes.len() {
        match read_phy(&bytes[at..]) {
            Ok(packet) => keep(ids, packet),
            Err(fault) => return Err(BodyFault::Phy(fault)),
        }
        at += 8;
    }
    if at > 8 * 252 {
        return Err(BodyFault::Fields);
    }
    Ok(())
}

fn node_of(q: Quadlet) -> NodeRow
    ensures fits { RowShape result }
    ensures same { node_quad result ≡ q.0 }
{
    NodeRow {
        device: q.field(0, 7) as u8,
        outs: q.field(8, 15) as u8,
        ins: q.field(16, 23) as u8,
        kind: q.field(24, 31) as u8,
    }
}

// The nodes that the first quadlets are.
pub(crate) fn nodes_of(bytes: &[u8], count: usize) -> NodeList
    requires few { count ≤ 63 }
    requires there { 4 * count ≤ length bytes.now }
    ensures count { length result ≡ count }
    ensures fits { All RowShape result }
    ensures same { quads (map node_quad result) ≡ take (4 * count) bytes.now }
{
    let mut nodes = NodeList::new();
    for i in 0..count {
        nodes.push(node_of(quadlet_at(bytes, 4 * i)));
    }
    nodes
}

fn manager_of(byte: u8) -> Option<u8>
    ensures same { manager_byte result ≡ byte }
    ensures small { IfSome result (λ m. m < 255) }
{
    if byte == 255 { None } else { Some(byte) }
}

fn row_fits(r: &NodeRow) -> bool
    ensures { IsTrue result ↔ RowFits r.now }
{
    r.device < 63 && r.outs <= 31 && r.ins <= 31 && r.kind <= 3
}

pub(crate) fn rows_fit(rows: &[NodeRow]) -> bool
    ensures { IsTrue result ↔ All RowFits rows.now }
{
    rows.iter().all(|r| row_fits(r))
}

// Whether each device is at most once among the rows, by a table of those that were met.
pub(crate) fn are_apart(rows: &[NodeRow]) -> bool
    ensures { IsTrue result ↔ AreApart rows.now }
{
    let mut met = [false; 256];
    for i in 0..rows.len() {
        let device = usize::from(rows[i].device);
        if met[device] {
            return false;
        }
        met[device] = true;
    }
    true
}

// After a packet: the node whose packet is to come, and the number of its further packet that is.
fn next_of(packet: &PhyPacket, node: u8, next: Option<u8>) -> Option<(u8, Option<u8>)>
    requires { PhyFits packet.now }
    ensures { (ps : List PhyPacket) → (n : ℕ) → are_ids node next (packet.now ∷ ps) n ≡ goes_on result ps n }
{
    let more = match (packet, next) {
        (PhyPacket::SelfId(s), None) if s.phy == node => s.more,
        (PhyPacket::SelfIdMore(m), Some(number)) if m.phy == node && m.number == number => m.more,
        _ => return None,
    };
    if !more {
        return Some((node + 1, None));
    }
    Some((node, Some(next.map_or(0, |number| number + 1))))
}

fn are_ids(ids: &[PhyPacket], count: u8) -> bool
    requires { All PhyFits ids.now }
    ensures { result ≡ are_ids 0 None ids.now count }
{
    let mut node = 0;
    let mut next = None;
    for packet in ids {
        match next_of(packet, node, next) {
            Some((k, number)) => {
                node = k;
                next = number;
            }
            None => return false,
        }
    }
    node == count && next.is_none()
}

// The fields of a reset are as they must be. Its loops are for resets alone, and stay out of the loop over all entries.
#[inline(never)]
fn reset_fits(r: &ResetEntry) -> bool
    requires { ResetShape r.now }
    ensures { IsTrue result ↔ ResetFits r.now }
{
    let nodes = r.nodes.as_slice();
    let count = nodes.len() as u8;
    r.root < count
        && r.manager.is_none_or(|m| m < count)
        && r.initiator < count
        && rows_fit(nodes)
        && are_apart(nodes)
        && are_ids(r.ids.as_slice(), count)
}

/// How many nodes the body of a reset entry names.
pub fn count_of(body: &[u8]) -> usize
    requires { 8 ≤ length body.now }
    ensures value { result ≡ count_of body.now }
    ensures small { result < 256 }
{
    quadlet_at(body, 4).field(24, 31) as usize
}

pub(crate) fn has_nodes(body: &[u8]) -> bool
    requires { 8 ≤ length body.now }
    ensures { result ≡ has_nodes body.now }
{
    let count = count_of(body);
    1 <= count && count <= 63 && 8 + 4 * count <= body.len()
}

/// Puts what the fields of a body are into a reset that has its self-ID packets, whatever the rules say.
pub fn read_fields(reset: &mut ResetEntry, body: &[u8])
    requires nodes { IsTrue (has_nodes body.now) }
    requires some { 8 ≤ length body.now }
    requires ids { AreIds reset.old.ids (drop (ids_at body.now) body.now) }
    requires few { length reset.old.ids ≤ 252 }
    ensures shape { ResetShape reset.new }
    ensures same { Log.body (Entry.Reset reset.new) ≡ body.now }
{
    let second = quadlet_at(body, 4);
    reset.epoch = quadlet_at(body, 0).0;
    reset.root = second.field(0, 7) as u8;
    reset.manager = manager_of(second.field(8, 15) as u8);
    reset.initiator = second.field(16, 23) as u8;
    reset.nodes = nodes_of(&body[8..], count_of(body));
}

/// Puts the reset that a body is into room that is kept for it, or tells why it is none.
pub(crate) fn read_reset(reset: &mut ResetEntry, body: &[u8]) -> Result<(), BodyFault>
    requires some { 20 ≤ length body.now }
    requires few { length body.now ≤ 2276 }
    ensures reset { OnOk result (ResetJudges body.now (Ok reset.new)) }
    ensures fault { IfErr result (λ f. ResetJudges body.now (Err f)) }
{
    if !has_nodes(body) {
        return Err(BodyFault::Fields);
    }
    if let Err(fault) = read_ids(&mut reset.ids, &body[8 + 4 * count_of(body)..]) {
        return Err(fault);
    }
    read_fields(reset, body);
    if reset_fits(reset) {
        Ok(())
    } else {
        Err(BodyFault::Fields)
    }
}
