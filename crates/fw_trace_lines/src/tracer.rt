//! The text of lines and entries, one after another.

ghost use Rattle.std.specs.Prelude.{◌≡◌, ◌++◌, [], ℕ, OnOk};
ghost use Rattle.fw_log_entry.specs.declared.entry.Entry.TheVariants.{Async, Iso};
ghost use Rattle.fw_trace_lines.specs.Caused.{untold, entry_lines, telling_after};
ghost use Rattle.fw_trace_names.specs.CausedLines.{caused_text};
ghost use Rattle.fw_trace_lines.specs.Commands.{begun, ended, last_lines};
ghost use Rattle.fw_trace_lines.specs.Lines.{line_text};

use crate::job::Connection;
use crate::jobs::Jobs;
use crate::line::put_line;
use crate::streams::Streams;
use fw_async::Packet;
use fw_cip::IsoPacket;
use fw_log_entry::Timed;
use fw_log_names::{CycleRow, Pairs};
use fw_script_command::Command;
use fw_trace_names::Names;
use fw_trace_requests::{HeldBack, Memo, Requests, asked_by};
use std::alloc::{AllocError, Global};
use std::marker::Model;

mod glances;
mod lines;
mod taking;

/// The text of the lines and entries that were taken, and what is kept of them for those that follow. Contracts see it as both.
#[derive(Drop)]
pub struct Tracer {
    text: Vec<u8>,
    digits: CycleRow,
    pairs: Pairs,
    memo: Memo,
    names: Names,
    requests: Requests,
    jobs: Jobs,
    held: HeldBack,
    streams: Streams,
    cycle: u64,
}

impl Model for Tracer {
    ghost use Rattle.fw_trace_lines.specs.Commands.{Traced};
    ghost use Rattle.fw_trace_requests.specs.Held.{held_by_names};

    ghost Value = { Traced };

    ghost view = { λ t. record { text = t.text.items; telling = record { naming = t.names; requests = t.requests; jobs = t.jobs; held = held_by_names t.names t.held.bare t.held.made; streams = t.streams; cycle = t.cycle } } };
}

impl Tracer {
    /// No line was taken.
    pub fn new(alloc: Global) -> Tracer
        ensures { result ≡ record { text = []; telling = untold } }
    {
        Tracer {
            text: Vec::new(alloc),
            digits: CycleRow::of(0),
            pairs: Pairs::new(),
            memo: Memo::new(alloc),
            names: Names::new(alloc),
            requests: Requests::new(alloc),
            jobs: Jobs::new(alloc),
            held: HeldBack::new(alloc),
            streams: Streams::new(),
            cycle: 0,
        }
    }

    /// The text.
    pub fn as_slice(&self) -> &[u8]
        ensures { result.now ≡ self.now.text }
    {
        &self.text
    }

    /// Drops the text, and keeps its memory and all else.
    pub fn clear(&mut self)
        ensures { self.new ≡ record self.old { text = [] } }
    {
        self.text.clear();
    }

    /// Appends a line of the script with its number; nothing of an empty one. An error says that memory ran out, and comes for nothing else.
    pub fn put_line(&mut self, number: u32, line: &[u8]) -> Result<(), AllocError>
        ensures text { OnOk result (self.new.text ≡ self.old.text ++ line_text number line.now) }
        ensures kept { self.new.telling ≡ self.old.telling }
    {
        put_line(&mut self.text, number, line)
    }

    /// Takes a command that is about to be carried out, before its entries: a device that it declares has its name from then on. An error
    /// says that memory ran out, and comes for nothing else.
    pub fn begin(&mut self, command: &Command) -> Result<(), AllocError>
        ensures text { self.new.text ≡ self.old.text }
        ensures kept { OnOk result (self.new.telling ≡ begun command.now self.old.telling) }
    {
        self.held
            .settle(&mut self.digits, &self.pairs, &mut self.memo, &self.names)?;
        self.names.declare(command)
    }

    /// Appends the lines that the next entry brings, each with its line feed. An error says that memory ran out, and comes for nothing else.
    pub fn put(&mut self, t: &Timed) -> Result<(), AllocError>
        ensures text { OnOk result (self.new.text ≡ self.old.text ++ caused_text (entry_lines self.old.telling t.now)) }
        ensures kept { OnOk result (self.new.telling ≡ telling_after self.old.telling t.now) }
    {
        self.renumber(&t.what)?;
        self.put_lines(t.cycle, &t.what)?;
        self.take(t)
    }

    // As `put`, of an asynchronous packet in this cycle.
    #[inline(never)]
    #[tactic(auto, unfolding(crate::specs::Caused::lines_by))]
    fn put_async(&mut self, cycle: u64, p: &Packet) -> Result<(), AllocError>
        ensures text { OnOk result (self.new.text ≡ self.old.text ++ caused_text (entry_lines self.old.telling (record { cycle = cycle; what = Async p.now }))) }
        ensures kept { OnOk result (self.new.telling ≡ telling_after self.old.telling (record { cycle = cycle; what = Async p.now })) }
    {
        self.put_packet(cycle, p)?;
        self.take_asked(cycle, p, asked_by(p))?;
        self.cycle = cycle;
        Ok(())
    }

    /// As `put`, of an isochronous packet in this cycle: most entries of a stream's cycles are such.
    #[inline(always)]
    #[tactic(auto, unfolding(crate::specs::Caused::lines_by, crate::specs::Caused::own_lines))]
    pub fn put_iso(&mut self, cycle: u64, p: &IsoPacket) -> Result<(), AllocError>
        ensures text { OnOk result (self.new.text ≡ self.old.text ++ caused_text (entry_lines self.old.telling (record { cycle = cycle; what = Iso p.now }))) }
        ensures kept { OnOk result (self.new.telling ≡ telling_after self.old.telling (record { cycle = cycle; what = Iso p.now })) }
    {
        self.put_silent(cycle)?;
        self.streams.take(p);
        Ok(())
    }

    /// Appends the last lines of a command that was carried out, after those of its entries: those of the request that is held back and
    /// of the streams. The connection that the command asks for, if any, has taken this slot of this device's controller. An error says
    /// that memory ran out, and comes for nothing else.
    #[tactic(auto, unfolding(crate::specs::Commands::jobs_given))]
    pub fn end(&mut self, command: &Command, place: Option<(u8, u8)>) -> Result<(), AllocError>
        ensures text { OnOk result (self.new.text ≡ self.old.text ++ caused_text (last_lines self.old.telling)) }
        ensures kept { OnOk result (self.new.telling ≡ ended command.now place self.old.telling) }
    {
        self.put_last()?;
        self.held.release();
        self.streams.clear();
        match (Connection::of(command), place) {
            (Some(connection), Some((device, slot))) => self.jobs.add(device, slot, connection),
            _ => Ok(()),
        }
    }
}
