//! The report of a log's streams.

ghost use Rattle.std.specs.Prelude.{◌≡◌, ◌+◌, ◌-◌, ◌^◌, ◌<◌, ◌≤◌, ◌++◌, ◌∷◌, [], List, length, IfOk, OnOk, string_bytes};
ghost use Rattle.fw_cip.specs.Iso.{Fits as IsoFits};
ghost use Rattle.fw_cip.specs.declared.packet.IsoPacket.{IsoPacket};
ghost use Rattle.fw_log_entry.specs.Log.{Fits};
ghost use Rattle.fw_log_entry.specs.declared.entry.Entry.TheVariants.{Iso};
ghost use Rattle.fw_log_entry.specs.declared.entry.Timed.{Timed};
ghost use Rattle.fw_log_text.specs.Report.{counts_text, channel_text, report_text};

use fw_cip::{Heard, IsoPacket, Listener};
use fw_log_entry::{Entry, Timed};
use std::alloc::{AllocError, Global};
use std::marker::Model;

/// What a listener of one channel counted.
#[derive(Clone, Copy)]
pub struct Channel {
    listener: Listener,
    packets: u64,
    blocks: u64,
    gaps: u64,
    ghost fewer_blocks: { blocks ≤ packets },
    ghost fewer_gaps: { gaps ≤ packets },
}

impl Channel {
    ghost use Rattle.fw_log_text.specs.Tallies.{Counts};

    fn new() -> Self
        ensures { Counts [] result }
    {
        Channel {
            listener: Listener::new(),
            packets: 0,
            blocks: 0,
            gaps: 0,
        }
    }

    fn take(self, packet: &IsoPacket) -> Self
        ensures { (packets : List IsoPacket) → length packets + 1 < 2 ^ 64 → Counts packets self → Counts (packets ++ packet.now ∷ []) result }
    {
        let mut listener = self.listener;
        let gap = match listener.take(packet) {
            Heard::Block => 0,
            Heard::Empty => 0,
            Heard::Gap { .. } => 1,
        };
        let block = if packet.block.is_some() { 1 } else { 0 };
        Channel {
            listener,
            packets: self.packets.saturating_add(1),
            blocks: self.blocks.saturating_add(block),
            gaps: self.gaps.saturating_add(gap),
        }
    }

    // Appends the line of a channel with packets.
    fn put_line(&self, text: &mut String, number: usize) -> Result<(), AllocError>
        ensures { OnOk result (string_bytes text.new ≡ string_bytes text.old ++ counts_text number self.now.packets self.now.blocks (self.now.packets - self.now.blocks) self.now.gaps) }
    {
        let empties = self.packets - self.blocks;
        write!(text, "channel {number} packets {}", self.packets)?;
        write!(text, " blocks {} empty {empties}", self.blocks)?;
        write!(text, " gaps {}\n", self.gaps)
    }

    // Appends the channel's line, if it has packets.
    fn put(&self, text: &mut String, number: usize) -> Result<(), AllocError>
        ensures { (packets : List IsoPacket) → Counts packets self.now → OnOk result (string_bytes text.new ≡ string_bytes text.old ++ channel_text number packets) }
    {
        if self.packets == 0 {
            return Ok(());
        }
        self.put_line(text, number)
    }
}

/// Counts the isochronous packets of a log, channel by channel.
#[derive(Drop)]
pub struct StreamReport {
    channels: [Channel; 64],
}

impl Model for StreamReport {
    ghost use Rattle.std.specs.Prelude.{List, length, ◌≡◌};
    ghost use Rattle.fw_log_text.specs.declared.report.Channel.{Channel};

    ghost Value = { List Channel };

    ghost view = { λ r. r.channels };

    ghost inverse = { λ xs. record { channels = xs } };
}

impl StreamReport {
    ghost use Rattle.fw_log_text.specs.Tallies.{Reports};

    /// The report of no entries.
    pub fn new() -> Self
        ensures { Reports [] result }
    {
        StreamReport {
            channels: [Channel::new(); 64],
        }
    }

    /// Counts an entry more. The counts stand still at 2^64 - 1, so they are right for fewer entries.
    pub fn take(&mut self, entry: &Timed)
        requires { Fits entry.now.what }
        ensures { (entries : List Timed) → length entries + 1 < 2 ^ 64 → Reports entries self.old → Reports (entries ++ entry.now ∷ []) self.new }
    {
        if let Entry::Iso(packet) = &entry.what {
            self.take_packet(packet);
        }
    }

    /// Counts the entry of an isochronous packet more, as `take` does.
    #[inline(always)]
    pub fn take_packet(&mut self, packet: &IsoPacket)
        requires { IsoFits packet.now }
        ensures { (entries : List Timed) → (entry : Timed) → entry.what ≡ Iso packet.now → length entries + 1 < 2 ^ 64
            → Reports entries self.old → Reports (entries ++ entry ∷ []) self.new }
    {
        let number = usize::from(packet.channel);
        self.channels[number] = self.channels[number].take(packet);
    }

    /// The report's lines: one for each channel that has packets, in order. An error says that memory ran out, and
    /// comes for nothing else.
    pub fn text(&self, alloc: Global) -> Result<String, AllocError>
        ensures { (entries : List Timed) → Reports entries self.now → IfOk result (λ s. string_bytes s ≡ report_text entries) }
    {
        let mut text = String::new(alloc);
        for (number, channel) in self.channels.iter().enumerate() {
            channel.put(&mut text, number)?;
        }
        Ok(text)
    }
}
