//! The lines of entries, one after another.

ghost use Rattle.std.specs.Prelude.{◌≡◌, ◌++◌, [], false, IfOk, IsTrue, OnOk, codes, decimal};
ghost use Rattle.fw_log_explain.specs.Lines.{head_text, iso_text, line};
ghost use Rattle.fw_log_explain.specs.Resets.{epoch_text};
ghost use Rattle.fw_log_explainer.specs.Lines.{time_text, usual_line};

use crate::cycle_start::{START, write_start};
use crate::iso::{ISO, same_packet, write_iso};
use crate::latest::LatestReset;
use crate::memo::Memo;
use crate::prefix::{PREFIX, caller_of, nodes_of, write_prefix};
use crate::write::put_row;
use fw_async::Head;
use fw_cip::IsoPacket;
use fw_log_entry::Timed;
use fw_log_explain::{Tail, put_head, put_iso, put_what};
use fw_log_names::{CycleRow, Pairs, put_word};
use fw_log_requests::Requests;
use std::alloc::{AllocError, Global};
use std::marker::Model;

/// How many bytes of text there is room for at first: more than the lines have of 4,096 bytes of a log, and of the longest entry
/// after them.
const TEXT_ROOM: usize = 81_920;

/// The bytes of lines, and what the next one is made with.
#[derive(Drop)]
pub(crate) struct Lines {
    text: Vec<u8>,
    cycle: CycleRow,
    pairs: Pairs,
    memo: Memo,
    // What is written of a line before it is appended.
    prefix: [u8; PREFIX],
    iso: [u8; ISO],
    start: [u8; START],
}

impl Model for Lines {
    ghost use Rattle.std.specs.Prelude.{List, ℕ};

    ghost Value = { List ℕ };

    ghost view = { λ r. r.text.items };
}

impl Lines {
    pub(crate) fn new(alloc: Global) -> Result<Lines, AllocError>
        ensures { IfOk result (λ r. r ≡ []) }
    {
        Ok(Lines {
            text: Vec::with_capacity(alloc, TEXT_ROOM)?,
            cycle: CycleRow::of(0),
            pairs: Pairs::new(),
            memo: Memo::new(alloc)?,
            prefix: [0; PREFIX],
            iso: [0; ISO],
            start: [0; START],
        })
    }

    pub(crate) fn as_slice(&self) -> &[u8]
        ensures { result.now ≡ self.now }
    {
        &self.text
    }

    pub(crate) fn clear(&mut self)
        ensures { self.new ≡ [] }
    {
        self.text.clear();
    }

    // Appends a cycle and a space.
    fn put_cycle(&mut self, cycle: u64) -> Result<(), AllocError>
        ensures { OnOk result (self.new ≡ self.old ++ (decimal cycle ++ codes " ")) }
    {
        self.cycle.set(cycle);
        self.text.extend_from_slice(self.cycle.as_slice())
    }

    // Appends the line of an entry, by the outstanding requests before it.
    pub(crate) fn put(&mut self, requests: &Requests, t: &Timed) -> Result<(), AllocError>
        ensures { OnOk result (self.new ≡ self.old ++ line requests.now t.now) }
    {
        self.put_cycle(t.cycle)?;
        put_what(&mut self.text, &self.pairs, requests, &t.what)?;
        put_word(&mut self.text, "\n")
    }

    // Appends the cycle and the head of a packet.
    #[inline(always)]
    fn put_prefix(&mut self, cycle: u64, head: &Head) -> Result<(), AllocError>
        ensures { OnOk result (self.new ≡ self.old ++ (decimal cycle ++ codes " " ++ head_text head.now)) }
    {
        let Some(nodes) = nodes_of(head) else {
            self.put_cycle(cycle)?;
            return put_head(&mut self.text, &self.pairs, head);
        };
        self.cycle.set(cycle);
        let (row, size) = self.cycle.row();
        let end = write_prefix(&mut self.prefix, row, size, nodes, head.tl);
        put_row(&mut self.text, &self.prefix, end)
    }

    // Appends the line of a usual packet.
    #[inline(always)]
    pub(crate) fn put_usual(
        &mut self,
        cycle: u64,
        head: &Head,
        tail: &Tail,
    ) -> Result<(), AllocError>
        ensures { OnOk result (self.new ≡ self.old ++ usual_line cycle head.now tail.now) }
    {
        self.put_prefix(cycle, head)?;
        self.memo.put(&mut self.text, &self.pairs, tail)
    }

    // Appends the line of a cycle start, if a node of the local bus sends it to all, and answers whether it did.
    pub(crate) fn put_start(
        &mut self,
        cycle: u64,
        head: &Head,
        time: u32,
    ) -> Result<bool, AllocError>
        ensures put { IfOk result (λ put. IsTrue put → self.new ≡ self.old ++ (decimal cycle ++ codes " " ++ head_text head.now ++ (time_text time ++ codes "\n"))) }
        ensures other { IfOk result (λ put. put ≡ false → self.new ≡ self.old) }
    {
        let Some(source) = caller_of(head) else {
            return Ok(false);
        };
        self.cycle.set(cycle);
        let (row, size) = self.cycle.row();
        let end = write_start(
            &mut self.start,
            row,
            size,
            &self.pairs,
            source,
            head.tl,
            time,
        );
        self.text.extend_from_slice(&self.start[..end])?;
        Ok(true)
    }

    // Appends the line of an isochronous packet whose format has no name. The packet is given by value, so that of others what a line
    // has no use for is not put into memory.
    #[cold]
    #[inline(never)]
    fn put_other_iso(&mut self, cycle: u64, p: IsoPacket) -> Result<(), AllocError>
        ensures { OnOk result (self.new ≡ self.old ++ (decimal cycle ++ codes " " ++ iso_text p.entry ++ codes "\n")) }
    {
        self.put_cycle(cycle)?;
        put_iso(&mut self.text, &self.pairs, &p)?;
        put_word(&mut self.text, "\n")
    }

    // Appends the line of an isochronous packet.
    #[inline(always)]
    pub(crate) fn put_iso(&mut self, cycle: u64, p: &IsoPacket) -> Result<(), AllocError>
        ensures { OnOk result (self.new ≡ self.old ++ (decimal cycle ++ codes " " ++ iso_text p.now ++ codes "\n")) }
    {
        self.cycle.set(cycle);
        let (row, size) = self.cycle.row();
        if let Some(end) = write_iso(&mut self.iso, row, size, &self.pairs, p) {
            return put_row(&mut self.text, &self.iso, end);
        }
        self.put_other_iso(cycle, same_packet(p))
    }

    // Appends the line of a bus reset that is as the latest, but for its epoch.
    pub(crate) fn put_latest(
        &mut self,
        cycle: u64,
        epoch: u32,
        latest: &LatestReset,
    ) -> Result<(), AllocError>
        ensures { OnOk result (self.new ≡ self.old ++ (decimal cycle ++ codes " " ++ (epoch_text epoch ++ latest.now) ++ codes "\n")) }
    {
        self.put_cycle(cycle)?;
        latest.put(&mut self.text, epoch)?;
        put_word(&mut self.text, "\n")
    }
}
