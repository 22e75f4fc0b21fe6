//! Objects, one after another, and room for what they are made from.

ghost use Rattle.std.specs.Prelude.{◌≡◌, ◌++◌, [], false, IfOk, IsTrue, OnOk, OnErr, drop};
ghost use Rattle.fw_async.specs.Reader.{IsPacket, Spells};
ghost use Rattle.fw_async.specs.declared.packet.Packet.{Packet};
ghost use Rattle.fw_log_entry.specs.Log.{ResetFits, body};
ghost use Rattle.fw_log_entry.specs.declared.entry.Entry.TheVariants.{Async, Iso, Reset};
ghost use Rattle.fw_log_entry.specs.declared.entry.ResetEntry.{ResetEntry as AReset};
ghost use Rattle.fw_log_json.specs.Objects.{object};

use crate::latest::LatestReset;
use crate::lines::Lines;
use fw_cip::IsoPacket;
use fw_log_entry::{ResetEntry, Timed};
use std::alloc::{AllocError, Global};
use std::marker::Model;

/// The objects that were appended, each in a line, and what the next one is made with. It is made once and kept, so that an
/// object costs no memory of its own. Contracts see it as the bytes of its lines.
#[derive(Drop)]
pub struct ObjectRoom {
    lines: Lines,
    latest: LatestReset,
}

impl Model for ObjectRoom {
    ghost use Rattle.std.specs.Prelude.{List, ℕ};

    ghost Value = { List ℕ };

    ghost view = { λ r. r.lines };
}

impl ObjectRoom {
    /// Room for the objects of 4,096 bytes of a log. An error says that memory ran out.
    pub fn new(alloc: Global) -> Result<ObjectRoom, AllocError>
        ensures { IfOk result (λ r. r ≡ []) }
    {
        Ok(ObjectRoom {
            lines: Lines::new(alloc)?,
            latest: LatestReset::new(alloc)?,
        })
    }

    /// All objects, each with its line feed.
    pub fn as_slice(&self) -> &[u8]
        ensures { result.now ≡ self.now }
    {
        self.lines.as_slice()
    }

    /// Drops all objects, and keeps the memory.
    pub fn clear(&mut self)
        ensures { self.new ≡ [] }
    {
        self.lines.clear();
    }
}

/// Appends the object of an entry, with its line feed. An error says that memory ran out, and comes for nothing else; the room
/// has no objects then.
pub fn put_object(room: &mut ObjectRoom, t: &Timed) -> Result<(), AllocError>
    ensures object { OnOk result (room.new ≡ room.old ++ object t.now) }
    ensures emptied { OnErr result (room.new ≡ []) }
{
    match room.lines.put(t) {
        Ok(()) => Ok(()),
        Err(error) => {
            room.clear();
            Err(error)
        }
    }
}

/// Appends the object of the entry of an asynchronous packet of this cycle, from the packet's bytes, as `put_object` does.
pub fn put_packet_from(room: &mut ObjectRoom, cycle: u64, bytes: &[u8]) -> Result<(), AllocError>
    requires { IsPacket bytes.now }
    ensures object { (p : Packet) → Spells p bytes.now → OnOk result (room.new ≡ room.old ++ object (record { cycle = cycle; what = Async p })) }
    ensures emptied { OnErr result (room.new ≡ []) }
{
    match room.lines.put_packet(cycle, bytes) {
        Ok(()) => Ok(()),
        Err(error) => {
            room.clear();
            Err(error)
        }
    }
}

/// Appends the object of the entry of an isochronous packet of this cycle, as `put_object` does.
pub fn put_iso_from(room: &mut ObjectRoom, cycle: u64, packet: &IsoPacket) -> Result<(), AllocError>
    ensures object { OnOk result (room.new ≡ room.old ++ object (record { cycle = cycle; what = Iso packet.now })) }
    ensures emptied { OnErr result (room.new ≡ []) }
{
    match room.lines.put_iso(cycle, packet) {
        Ok(()) => Ok(()),
        Err(error) => {
            room.clear();
            Err(error)
        }
    }
}

// Keeps a bus reset as the latest, and appends its object.
fn put_kept(
    room: &mut ObjectRoom,
    cycle: u64,
    r: &ResetEntry,
    later: &[u8],
) -> Result<(), AllocError>
    requires fits { ResetFits r.now }
    requires later { drop 4 (body (Reset r.now)) ≡ later.now }
    ensures { OnOk result (room.new ≡ room.old ++ object (record { cycle = cycle; what = Reset r.now })) }
{
    room.latest.keep(r, later)?;
    room.lines.put_latest(cycle, r.epoch, &room.latest)
}

/// Appends the object of the entry of a bus reset of this cycle, as `put_object` does, and keeps what it tells; the bytes are those
/// of its body after its epoch.
pub fn put_reset_from(
    room: &mut ObjectRoom,
    cycle: u64,
    r: &ResetEntry,
    later: &[u8],
) -> Result<(), AllocError>
    requires fits { ResetFits r.now }
    requires later { drop 4 (body (Reset r.now)) ≡ later.now }
    ensures object { OnOk result (room.new ≡ room.old ++ object (record { cycle = cycle; what = Reset r.now })) }
    ensures emptied { OnErr result (room.new ≡ []) }
{
    match put_kept(room, cycle, r, later) {
        Ok(()) => Ok(()),
        Err(error) => {
            room.clear();
            Err(error)
        }
    }
}

/// Appends the object of the entry of a bus reset of this cycle, as `put_object` does, if the bytes of its body after its epoch are
/// those of the bus reset that `put_reset_from` told last, and answers whether it did.
pub fn put_reset_again(
    room: &mut ObjectRoom,
    cycle: u64,
    epoch: u32,
    later: &[u8],
) -> Result<bool, AllocError>
    ensures object { IfOk result (λ known. IsTrue known → (r : AReset) × ResetFits r × (drop 4 (body (Reset r)) ≡ later.now) × (room.new ≡ room.old ++ object (record { cycle = cycle; what = Reset (record r { epoch = epoch }) }))) }
    ensures other { IfOk result (λ known. known ≡ false → room.new ≡ room.old) }
    ensures emptied { OnErr result (room.new ≡ []) }
{
    if !room.latest.is(later) {
        return Ok(false);
    }
    match room.lines.put_latest(cycle, epoch, &room.latest) {
        Ok(()) => Ok(true),
        Err(error) => {
            room.clear();
            Err(error)
        }
    }
}
