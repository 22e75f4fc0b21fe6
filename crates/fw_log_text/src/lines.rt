//! The lines of entries, one after another.

ghost use Rattle.std.specs.Prelude.{◌≡◌, ◌++◌, [], IfOk, OnOk, OnErr, codes, decimal};
ghost use Rattle.fw_async.specs.Reader.{IsPacket, Spells};
ghost use Rattle.fw_async.specs.declared.packet.Packet.{Packet};
ghost use Rattle.fw_log_entry.specs.declared.entry.Entry.TheVariants.{Async, Iso, Reset};
ghost use Rattle.fw_log_entry.specs.declared.entry.ResetEntry.{ResetEntry};
ghost use Rattle.fw_log_text.specs.Resets.{IsResetBody};
ghost use Rattle.fw_log_entry.specs.Log.{Fits, ResetFits, body};
ghost use Rattle.fw_log_text.specs.Line.{entry_line};

use crate::line::{put_iso, put_what};
use crate::names::word_by_code;
use crate::quadlets::put_word;
use crate::resets::put_reset_bytes;
use crate::rows::Row;
use crate::tables::Tables;
use crate::text_room::TextRoom;
use fw_cip::IsoPacket;
use fw_log_entry::Timed;
use fw_log_names::CycleRow;
use fw_words::quadlet_at;
use std::alloc::{AllocError, Global};
use std::marker::Model;

/// The bytes of lines, and what the next one is made with.
#[derive(Drop)]
pub(crate) struct Lines {
    text: TextRoom,
    cycle: CycleRow,
    tables: Tables,
}

impl Model for Lines {
    ghost use Rattle.std.specs.Prelude.{List, ℕ};

    ghost Value = { List ℕ };

    ghost view = { λ r. r.text };
}

impl Lines {
    pub(crate) fn new(alloc: Global) -> Result<Lines, AllocError>
        ensures { IfOk result (λ r. r ≡ []) }
    {
        Ok(Lines {
            text: TextRoom::new(alloc)?,
            cycle: CycleRow::of(0),
            tables: Tables::new(),
        })
    }

    pub(crate) fn as_slice(&self) -> &[u8]
        ensures { result.now ≡ self.now }
    {
        self.text.as_slice()
    }

    pub(crate) fn clear(&mut self)
        ensures { self.new ≡ [] }
    {
        self.text.clear();
    }

    // Appends a cycle and a space.
    fn put_cycle(&mut self, cycle: u64) -> Result<(), AllocError>
        ensures { OnOk result (self.new ≡ self.old ++ (decimal cycle ++ codes " ")) }
    {
        self.cycle.set(cycle);
        self.text.put_row(Row::of_cycle(&self.cycle))
    }

    fn put_line(&mut self, t: &Timed, bytes: &[u8]) -> Result<(), AllocError>
        requires fits { Fits t.now.what }
        requires bytes { bytes.now ≡ body t.now.what }
        ensures { OnOk result (self.new ≡ self.old ++ entry_line t.now) }
    {
        self.put_cycle(t.cycle)?;
        put_what(&mut self.text, &self.tables, &t.what, bytes)?;
        put_word(&mut self.text, "\n")
    }

    fn put_packet_line(&mut self, cycle: u64, bytes: &[u8]) -> Result<(), AllocError>
        requires { IsPacket bytes.now }
        ensures { (p : Packet) → Spells p bytes.now → OnOk result (self.new ≡ self.old ++ entry_line (record { cycle = cycle; what = Async p })) }
    {
        self.cycle.set(cycle);
        let word = word_by_code(quadlet_at(bytes, 0).field(24, 27));
        self.text.put_line(Row::of_cycle(&self.cycle), word, &self.tables.pairs, bytes)
    }

    // The line of the entry of an isochronous packet.
    fn put_iso_line(&mut self, cycle: u64, packet: &IsoPacket) -> Result<(), AllocError>
        ensures { OnOk result (self.new ≡ self.old ++ entry_line (record { cycle = cycle; what = Iso packet.now })) }
    {
        self.put_cycle(cycle)?;
        put_iso(&mut self.text, &self.tables, packet)?;
        put_word(&mut self.text, "\n")
    }

    // The line of the entry of a bus reset, whose body's bytes these are.
    fn put_reset_line(&mut self, cycle: u64, bytes: &[u8]) -> Result<(), AllocError>
        requires { IsResetBody bytes.now }
        ensures { (r : ResetEntry) → ResetFits r → body (Reset r) ≡ bytes.now → OnOk result (self.new ≡ self.old ++ entry_line (record { cycle = cycle; what = Reset r })) }
    {
        self.put_cycle(cycle)?;
        put_reset_bytes(&mut self.text, &self.tables, bytes)?;
        put_word(&mut self.text, "\n")
    }

    // Drops all lines if memory ran out.
    fn or_none(&mut self, put: Result<(), AllocError>) -> Result<(), AllocError>
        ensures same { result ≡ put }
        ensures kept { OnOk put (self.new ≡ self.old) }
        ensures emptied { OnErr put (self.new ≡ []) }
    {
        if put.is_err() {
            self.clear();
        }
        put
    }

    // Appends the line of the entry of a packet whose bytes these are, or drops all lines if memory runs out.
    pub(crate) fn put_packet(&mut self, cycle: u64, bytes: &[u8]) -> Result<(), AllocError>
        requires { IsPacket bytes.now }
        ensures line { (p : Packet) → Spells p bytes.now → OnOk result (self.new ≡ self.old ++ entry_line (record { cycle = cycle; what = Async p })) }
        ensures emptied { OnErr result (self.new ≡ []) }
    {
        let put = self.put_packet_line(cycle, bytes);
        self.or_none(put)
    }

    // The same of an isochronous packet.
    pub(crate) fn put_iso(&mut self, cycle: u64, packet: &IsoPacket) -> Result<(), AllocError>
        ensures line { OnOk result (self.new ≡ self.old ++ entry_line (record { cycle = cycle; what = Iso packet.now })) }
        ensures emptied { OnErr result (self.new ≡ []) }
    {
        let put = self.put_iso_line(cycle, packet);
        self.or_none(put)
    }

    // The same of a bus reset, whose body's bytes these are.
    pub(crate) fn put_reset(&mut self, cycle: u64, bytes: &[u8]) -> Result<(), AllocError>
        requires { IsResetBody bytes.now }
        ensures line { (r : ResetEntry) → ResetFits r → body (Reset r) ≡ bytes.now → OnOk result (self.new ≡ self.old ++ entry_line (record { cycle = cycle; what = Reset r })) }
        ensures emptied { OnErr result (self.new ≡ []) }
    {
        let put = self.put_reset_line(cycle, bytes);
        self.or_none(put)
    }

    // Appends the line of an entry, whose body's bytes these are, or drops all lines if memory runs out.
    pub(crate) fn put(&mut self, t: &Timed, bytes: &[u8]) -> Result<(), AllocError>
        requires fits { Fits t.now.what }
        requires bytes { bytes.now ≡ body t.now.what }
        ensures line { OnOk result (self.new ≡ self.old ++ entry_line t.now) }
        ensures emptied { OnErr result (self.new ≡ []) }
    {
        let put = self.put_line(t, bytes);
        self.or_none(put)
    }
}
