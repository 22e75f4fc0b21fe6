//! Lines, and room for what they are made from.

ghost use Rattle.std.specs.Prelude.{◌≡◌, ◌++◌, [], IfOk, OnOk, OnErr};
ghost use Rattle.fw_async.specs.Reader.{IsPacket, Spells};
ghost use Rattle.fw_async.specs.declared.packet.Packet.{Packet};
ghost use Rattle.fw_log_entry.specs.declared.entry.Entry.TheVariants.{Async, Iso, Reset};
ghost use Rattle.fw_log_entry.specs.declared.entry.ResetEntry.{ResetEntry};
ghost use Rattle.fw_log_text.specs.Resets.{IsResetBody};
ghost use Rattle.fw_log_entry.specs.Log.{Fits, ResetFits, body};
ghost use Rattle.fw_log_text.specs.Line.{entry_line};

use crate::lines::Lines;
use fw_cip::IsoPacket;
use fw_log_entry::{EntryRoom, Timed, body_of};
use std::alloc::{AllocError, Global};
use std::marker::Model;

/// The lines that were appended, and what the next one is made with. It is made once and kept, so that a line costs no memory
/// of its own. Contracts see it as the bytes of its lines.
#[derive(Drop)]
pub struct LineRoom {
    lines: Lines,
    entry: EntryRoom,
}

impl Model for LineRoom {
    ghost use Rattle.std.specs.Prelude.{List, ℕ};

    ghost Value = { List ℕ };

    ghost view = { λ r. r.lines };
}

impl LineRoom {
    /// Room for the lines of 4,096 bytes of a log. An error says that memory ran out.
    pub fn new(alloc: Global) -> Result<LineRoom, AllocError>
        ensures { IfOk result (λ r. r ≡ []) }
    {
        Ok(LineRoom {
            lines: Lines::new(alloc)?,
            entry: EntryRoom::new(alloc)?,
        })
    }

    /// All lines, each with its line feed.
    pub fn as_slice(&self) -> &[u8]
        ensures { result.now ≡ self.now }
    {
        self.lines.as_slice()
    }

    /// Drops all lines, and keeps the memory.
    pub fn clear(&mut self)
        ensures { self.new ≡ [] }
    {
        self.lines.clear();
    }
}

/// Appends the line of an entry whose body is at hand as bytes, as `put_entry` does; it is not written anew.
pub fn put_entry_from(room: &mut LineRoom, t: &Timed, bytes: &[u8]) -> Result<(), AllocError>
    requires fits { Fits t.now.what }
    requires bytes { bytes.now ≡ body t.now.what }
    ensures line { OnOk result (room.new ≡ room.old ++ entry_line t.now) }
    ensures emptied { OnErr result (room.new ≡ []) }
{
    room.lines.put(t, bytes)
}

/// Appends the line of the entry of an asynchronous packet of this cycle, from the packet's bytes, as `put_entry` does.
pub fn put_packet_from(room: &mut LineRoom, cycle: u64, bytes: &[u8]) -> Result<(), AllocError>
    requires { IsPacket bytes.now }
    ensures line { (p : Packet) → Spells p bytes.now → OnOk result (room.new ≡ room.old ++ entry_line (record { cycle = cycle; what = Async p })) }
    ensures emptied { OnErr result (room.new ≡ []) }
{
    room.lines.put_packet(cycle, bytes)
}

/// Appends the line of the entry of an isochronous packet of this cycle, as `put_entry` does.
pub fn put_iso_from(room: &mut LineRoom, cycle: u64, packet: &IsoPacket) -> Result<(), AllocError>
    ensures line { OnOk result (room.new ≡ room.old ++ entry_line (record { cycle = cycle; what = Iso packet.now })) }
    ensures emptied { OnErr result (room.new ≡ []) }
{
    room.lines.put_iso(cycle, packet)
}

/// Appends the line of the entry of a bus reset of this cycle, from the bytes of its body, as `put_entry` does.
pub fn put_reset_from(room: &mut LineRoom, cycle: u64, bytes: &[u8]) -> Result<(), AllocError>
    requires { IsResetBody bytes.now }
    ensures line { (r : ResetEntry) → ResetFits r → body (Reset r) ≡ bytes.now → OnOk result (room.new ≡ room.old ++ entry_line (record { cycle = cycle; what = Reset r })) }
    ensures emptied { OnErr result (room.new ≡ []) }
{
    room.lines.put_reset(cycle, bytes)
}

/// Appends the line of an entry, with its line feed. An error says that memory ran out, and comes for nothing else; the room
/// has no lines then.
pub fn put_entry(room: &mut LineRoom, t: &Timed) -> Result<(), AllocError>
    requires { Fits t.now.what }
    ensures line { OnOk result (room.new ≡ room.old ++ entry_line t.now) }
    ensures emptied { OnErr result (room.new ≡ []) }
{
    let bytes = body_of(&t.what, &mut room.entry);
    room.lines.put(t, bytes)
}
