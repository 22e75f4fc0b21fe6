//! The bodies of entries, as bytes.

ghost use Rattle.std.specs.Prelude.{◌≡◌, ◌≤◌, ◌+◌, ◌*◌, ◌/◌, ◌++◌, length, map, flat_map};
ghost use Rattle.std.specs.Int.{to_be_bytes, w32};
ghost use Rattle.std.specs.List.{All};
ghost use Rattle.fw_cip.specs.Iso as Iso;
ghost use Rattle.fw_phy.specs.Phy as Phy;
ghost use Rattle.fw_log_entry.specs.Log.{RowFits, node_quad, manager_byte, ResetFits, reset_quads, quads, event_quads, outcome_quads, shown_quads, EventFits, OutcomeFits, ShownFits, Fits, body};

use crate::codes::NO_NODE;
use crate::entry_room::EntryBytes;
use crate::rows::has_tape;
use crate::{Entry, EventEntry, NodeRow, OutcomeEntry, ResetEntry, ShownEntry};
use fw_async::packet_length;
use fw_cip::{IsoPacket, heads_of, iso_length};
use fw_phy::{PhyPacket, write_phy};
use fw_words::{Quadlet, put_quadlet, with_field};

fn put_quad(out: &mut EntryBytes, q: u32)
    requires { length out.old + 4 ≤ 2292 }
    ensures { out.new ≡ out.old ++ to_be_bytes w32 q }
{
    out.append(&put_quadlet(Quadlet(q)));
}

fn event_quadlets(e: &EventEntry) -> u16
    ensures { result ≡ length (event_quads e.now) }
{
    if has_tape(e.code) { 2 } else { 1 }
}

fn put_event(e: &EventEntry, out: &mut EntryBytes)
    requires fits { EventFits e.now }
    requires begun { length out.old ≤ 16 }
    ensures { out.new ≡ out.old ++ quads (event_quads e.now) }
{
    let first = with_field(u32::from(e.code), 8, u32::from(e.device));
    put_quad(out, with_field(first, 16, 0));
    if has_tape(e.code) {
        put_quad(out, with_field(u32::from(e.tape), 16, u32::from(e.system)));
    }
}

fn put_outcome(o: &OutcomeEntry, out: &mut EntryBytes)
    requires fits { OutcomeFits o.now }
    requires begun { length out.old ≤ 16 }
    ensures { out.new ≡ out.old ++ quads (outcome_quads o.now) }
{
    let first = with_field(u32::from(o.code), 8, u32::from(o.device));
    let first = with_field(first, 8, u32::from(o.slot));
    put_quad(out, with_field(first, 8, 0));
    put_quad(out, o.value);
}

fn put_shown(s: &ShownEntry, out: &mut EntryBytes)
    requires fits { ShownFits s.now }
    requires begun { length out.old ≤ 16 }
    ensures { out.new ≡ out.old ++ quads (shown_quads s.now) }
{
    let first = with_field(u32::from(s.device), 8, 0);
    put_quad(out, with_field(first, 16, u32::from(s.offset)));
    put_quad(out, s.word);
}

fn node_quad(r: &NodeRow) -> u32
    requires { RowFits r.now }
    ensures { result ≡ node_quad r.now }
{
    let q = with_field(u32::from(r.device), 8, u32::from(r.outs));
    let q = with_field(q, 8, u32::from(r.ins));
    with_field(q, 8, u32::from(r.kind))
}

fn put_nodes(rows: &[NodeRow], out: &mut EntryBytes)
    requires fits { All RowFits rows.now }
    requires room { length out.old + 4 * length rows.now ≤ 2292 }
    ensures written { out.new ≡ out.old ++ quads (map node_quad rows.now) }
    ensures size { length out.new ≡ length out.old + 4 * length rows.now }
{
    for row in rows {
        put_quad(out, node_quad(row));
    }
}

fn put_ids(ids: &[PhyPacket], out: &mut EntryBytes)
    requires fits { All Phy.Fits ids.now }
    requires room { length out.old + 8 * length ids.now ≤ 2292 }
    ensures { out.new ≡ out.old ++ flat_map Phy.spelling ids.now }
{
    for packet in ids {
        out.append(&write_phy(packet));
    }
}

fn manager_byte(manager: Option<u8>) -> u8
    ensures { result ≡ manager_byte manager }
{
    manager.unwrap_or(NO_NODE)
}

fn reset_quadlets(r: &ResetEntry) -> u16
    requires { ResetFits r.now }
    ensures { result ≡ 2 + length r.now.nodes + 2 * length r.now.ids }
{
    (2 + r.nodes.as_slice().len() + 2 * r.ids.as_slice().len()) as u16
}

fn put_reset(r: &ResetEntry, out: &mut EntryBytes)
    requires fits { ResetFits r.now }
    requires begun { length out.old ≤ 16 }
    ensures { out.new ≡ out.old ++ (quads (reset_quads r.now) ++ flat_map Phy.spelling r.now.ids) }
{
    let rows = r.nodes.as_slice();
    let ids = r.ids.as_slice();
    put_quad(out, r.epoch);
    let q = with_field(u32::from(r.root), 8, u32::from(manager_byte(r.manager)));
    let q = with_field(q, 8, u32::from(r.initiator));
    put_quad(out, with_field(q, 8, rows.len() as u32));
    put_nodes(rows, out);
    put_ids(ids, out);
}

#[tactic(auto, using(crate::proofs::SizeLaws::iso_few))]
fn put_iso(p: &IsoPacket, out: &mut EntryBytes)
    requires fits { Iso.Fits p.now }
    requires begun { length out.old ≤ 16 }
    ensures { out.new ≡ out.old ++ Iso.spelling p.now }
{
    out.append(&heads_of(p));
    if let Some(block) = &p.block {
        out.append(block.as_slice());
    }
}

/// How many quadlets the entry's body has.
#[tactic(auto, using(crate::proofs::SizeLaws::iso_few, crate::proofs::SizeLaws::quadlets_of_reset))]
pub(crate) fn body_quadlets(what: &Entry) -> u16
    requires { Fits what.now }
    ensures { result ≡ length (body what.now) / 4 }
{
    match what {
        Entry::Reset(r) => reset_quadlets(r.get()),
        Entry::Async(p) => (packet_length(p) / 4) as u16,
        Entry::Iso(p) => (iso_length(p) / 4) as u16,
        Entry::Event(e) => event_quadlets(e),
        Entry::Outcome(_) => 2,
        Entry::Shown(_) => 2,
        Entry::End => 0,
    }
}

/// Appends the entry's body to its head, or to nothing.
#[tactic(auto, using(crate::proofs::SizeLaws::iso_few))]
pub(crate) fn put_body(what: &Entry, out: &mut EntryBytes)
    requires fits { Fits what.now }
    requires begun { length out.old ≤ 16 }
    ensures { out.new ≡ out.old ++ body what.now }
{
    match what {
        Entry::Reset(r) => put_reset(r.get(), out),
        Entry::Async(p) => out.append_packet(p),
        Entry::Iso(p) => put_iso(p, out),
        Entry::Event(e) => put_event(e, out),
        Entry::Outcome(o) => put_outcome(o, out),
        Entry::Shown(s) => put_shown(s, out),
        Entry::End => {}
    }
}
