//! Objects, one after another.

ghost use Rattle.std.specs.Prelude.{◌≡◌, ◌++◌, [], false, IfOk, IsTrue, OnOk, codes, decimal};
ghost use Rattle.fw_async.specs.Reader.{IsPacket, Spells};
ghost use Rattle.fw_async.specs.declared.packet.Packet.{Packet as APacket};
ghost use Rattle.fw_log_entry.specs.declared.codes.kind.TheConstants.{RESET};
ghost use Rattle.fw_log_entry.specs.declared.entry.Entry.TheVariants.{Async, Iso};
ghost use Rattle.fw_log_json_packets.specs.Values.{field};
ghost use Rattle.fw_log_json_packets.specs.Packets.{iso_fields};
ghost use Rattle.fw_log_json.specs.Objects.{prefix_fields, what_fields, object};

use crate::entry::put_what;
use crate::iso::put_iso;
use crate::latest::LatestReset;
use crate::prefix_row::PrefixRow;
use crate::values::{put_count, put_text};
use fw_async::whole_packet;
use fw_cip::IsoPacket;
use fw_log_entry::codes::kind;
use fw_log_entry::{Entry, Timed};
use fw_log_json_packets::{TextRoom, is_usual_iso};
use fw_log_names::{Pairs, kind_number, put_word};
use std::alloc::{AllocError, Global};
use std::marker::Model;

/// The objects that were appended, and what the next one is made with.
#[derive(Drop)]
pub(crate) struct Lines {
    text: TextRoom,
    // The object that is being made, if it is not written in place.
    object: Vec<u8>,
    prefix: PrefixRow,
    pairs: Pairs,
}

impl Model for Lines {
    ghost use Rattle.std.specs.Prelude.{List, ℕ};

    ghost Value = { List ℕ };

    ghost view = { λ r. r.text };
}

impl Lines {
    pub(crate) fn new(alloc: Global) -> Result<Lines, AllocError>
        ensures { IfOk result (λ r. r ≡ []) }
    {
        Ok(Lines {
            text: TextRoom::new(alloc)?,
            object: Vec::new(alloc),
            prefix: PrefixRow::new(alloc)?,
            pairs: Pairs::new(),
        })
    }

    pub(crate) fn as_slice(&self) -> &[u8]
        ensures { result.now ≡ self.now }
    {
        self.text.as_slice()
    }

    pub(crate) fn clear(&mut self)
        ensures { self.new ≡ [] }
    {
        self.text.clear();
    }

    // Appends the object of an entry.
    pub(crate) fn put(&mut self, t: &Timed) -> Result<(), AllocError>
        ensures { OnOk result (self.new ≡ self.old ++ object t.now) }
    {
        self.prefix.set(t.cycle, kind_number(&t.what))?;
        make_object(&mut self.object, &self.prefix, &self.pairs, &t.what)?;
        self.text.put(&self.object)
    }

    // Appends the object of a packet of a usual kind, from the packet's bytes, if its prefix is short, and answers whether it did.
    #[inline(always)]
    fn put_usual(&mut self, cycle: u64, bytes: &[u8]) -> Result<bool, AllocError>
        ensures object { (p : APacket) → Spells p bytes.now → IfOk result (λ put. IsTrue put → self.new ≡ self.old ++ object (record { cycle = cycle; what = Async p })) }
        ensures other { IfOk result (λ put. put ≡ false → self.new ≡ self.old) }
    {
        self.prefix.set(cycle, kind::ASYNC)?;
        match self.prefix.row() {
            Some((row, size)) => self.text.put_packet(row, size, &self.pairs, bytes),
            None => Ok(false),
        }
    }

    // Appends the object of another packet.
    #[cold]
    #[inline(never)]
    fn put_other(&mut self, cycle: u64, bytes: &[u8]) -> Result<(), AllocError>
        requires { IsPacket bytes.now }
        ensures { (p : APacket) → Spells p bytes.now → OnOk result (self.new ≡ self.old ++ object (record { cycle = cycle; what = Async p })) }
    {
        self.put(&Timed {
            cycle,
            what: Entry::Async(whole_packet(bytes)),
        })
    }

    // Appends the object of the entry of an asynchronous packet, from the packet's bytes.
    #[inline(always)]
    pub(crate) fn put_packet(&mut self, cycle: u64, bytes: &[u8]) -> Result<(), AllocError>
        requires { IsPacket bytes.now }
        ensures { (p : APacket) → Spells p bytes.now → OnOk result (self.new ≡ self.old ++ object (record { cycle = cycle; what = Async p })) }
    {
        let is_put = self.put_usual(cycle, bytes)?;
        if is_put {
            return Ok(());
        }
        self.put_other(cycle, bytes)
    }

    // Appends the object of the entry of an isochronous packet.
    pub(crate) fn put_iso(&mut self, cycle: u64, p: &IsoPacket) -> Result<(), AllocError>
        ensures { OnOk result (self.new ≡ self.old ++ object (record { cycle = cycle; what = Iso p.now })) }
    {
        self.prefix.set(cycle, kind::ISO)?;
        match self.prefix.row() {
            Some((row, size)) if is_usual_iso(p) => self.text.put_iso(row, size, p),
            _ => {
                make_iso(&mut self.object, &self.prefix, &self.pairs, p)?;
                self.text.put(&self.object)
            }
        }
    }

    // Appends the object of a bus reset that is as the latest, but for its epoch.
    pub(crate) fn put_latest(
        &mut self,
        cycle: u64,
        epoch: u32,
        latest: &LatestReset,
    ) -> Result<(), AllocError>
        ensures { OnOk result (self.new ≡ self.old ++ (prefix_fields cycle RESET ++ (field (codes ",\"epoch\":") (decimal epoch) ++ latest.now) ++ codes "}\n")) }
    {
        self.prefix.set(cycle, kind::RESET)?;
        make_epoch(&mut self.object, &self.prefix, epoch)?;
        self.text.put(&self.object)?;
        self.text.put(latest.as_slice())?;
        self.text.put(b"}\n")
    }
}

// Makes an object, from its beginning on.
fn make_object(
    object: &mut Vec<u8>,
    prefix: &PrefixRow,
    pairs: &Pairs,
    what: &Entry,
) -> Result<(), AllocError>
    ensures { OnOk result (object.new.items ≡ prefix.now ++ what_fields what.now ++ codes "}\n") }
{
    object.clear();
    put_text(object, prefix.as_slice())?;
    put_what(object, pairs, what)?;
    put_word(object, "}\n")
}

// Makes that of an isochronous packet.
fn make_iso(
    object: &mut Vec<u8>,
    prefix: &PrefixRow,
    pairs: &Pairs,
    p: &IsoPacket,
) -> Result<(), AllocError>
    ensures { OnOk result (object.new.items ≡ prefix.now ++ iso_fields p.now ++ codes "}\n") }
{
    object.clear();
    put_text(object, prefix.as_slice())?;
    put_iso(object, pairs, p)?;
    put_word(object, "}\n")
}

// Makes what the object of a bus reset begins with, up to its epoch.
fn make_epoch(object: &mut Vec<u8>, prefix: &PrefixRow, epoch: u32) -> Result<(), AllocError>
    ensures { OnOk result (object.new.items ≡ prefix.now ++ field (codes ",\"epoch\":") (decimal epoch)) }
{
    object.clear();
    put_text(object, prefix.as_slice())?;
    put_count(object, r#","epoch":"#, u64::from(epoch))
}
