//! The packets of a command's streams, counted by channel.

ghost use Rattle.std.specs.Prelude.{◌≡◌, ◌++◌, OnOk};
ghost use Rattle.std.specs.Option.{is_some};
ghost use Rattle.fw_outside.specs.Outside.{counted};
ghost use Rattle.fw_trace_names.specs.CausedLines.{caused_text};
ghost use Rattle.fw_trace_lines.specs.Commands.{stream_lines, first_streams};
ghost use Rattle.fw_trace_lines.specs.Streams.{count_text, no_stream, no_streams, stream_at, with_block, with_packet, amounts_text, stream_text};

use fw_cip::IsoPacket;
use fw_log_names::{CycleRow, put_number, put_word};
use fw_trace_names::{Names, put_cycle, put_part};
use std::alloc::AllocError;
use std::marker::Model;

/// What was counted of a channel.
#[derive(Clone, Copy)]
pub struct Stream {
    /// The node number of the sender, from the latest packet.
    pub sender: u8,
    /// How many packets; the count stands still at 2^64 - 1.
    pub packets: u64,
    /// How many of them have a block.
    pub blocks: u64,
}

impl Stream {
    // No packet.
    fn none() -> Stream
        ensures { result ≡ no_stream }
    {
        Stream {
            sender: 0,
            packets: 0,
            blocks: 0,
        }
    }

    // Counts a packet.
    #[inline(always)]
    fn count(&mut self, p: &IsoPacket)
        ensures { self.new ≡ with_block (is_some p.now.block) self.old p.now }
    {
        self.sender = p.cip.sid;
        self.packets = counted(self.packets);
        if p.block.is_some() {
            self.blocks = counted(self.blocks);
        }
    }

    // Appends the line of the stream on a channel, if it has packets.
    #[tactic(auto, unfolding(crate::specs::Commands::stream_lines))]
    fn put_line(
        &self,
        text: &mut Vec<u8>,
        digits: &mut CycleRow,
        cycle: u64,
        names: &Names,
        channel: u8,
    ) -> Result<(), AllocError>
        ensures { OnOk result (text.new.items ≡ text.old.items ++ caused_text (stream_lines names.now cycle channel self.now)) }
    {
        if self.packets == 0 {
            return Ok(());
        }
        put_cycle(text, digits, cycle)?;
        self.put(text, names, channel)?;
        put_word(text, "\n")
    }

    // Appends the stream on a channel: who sends it, and how much.
    #[tactic(auto, unfolding(crate::specs::Streams::stream_text))]
    fn put(&self, text: &mut Vec<u8>, names: &Names, channel: u8) -> Result<(), AllocError>
        ensures { OnOk result (text.new.items ≡ text.old.items ++ stream_text names.now channel self.now) }
    {
        names.put_node(text, u32::from(self.sender))?;
        put_part(text, " on channel ", u64::from(channel))?;
        put_word(text, ": ")?;
        self.put_amounts(text)
    }

    // Appends how many packets and blocks the stream has.
    #[tactic(auto, unfolding(crate::specs::Streams::amounts_text))]
    fn put_amounts(&self, text: &mut Vec<u8>) -> Result<(), AllocError>
        ensures { OnOk result (text.new.items ≡ text.old.items ++ amounts_text self.now) }
    {
        put_count(text, self.packets, "packet")?;
        put_word(text, ", ")?;
        put_count(text, self.blocks, "block")
    }
}

// Appends so many of a thing.
#[tactic(auto, unfolding(crate::specs::Streams::count_text))]
fn put_count(text: &mut Vec<u8>, n: u64, noun: &str) -> Result<(), AllocError>
    ensures { OnOk result (text.new.items ≡ text.old.items ++ count_text n noun.now) }
{
    put_number(text, n)?;
    put_word(text, " ")?;
    put_word(text, noun)?;
    put_word(text, if n == 1 { "" } else { "s" })
}

// One more, of a count that stands still at the last number of 64 bits.
fn counted(n: u64) -> u64
    ensures { result ≡ counted n }
{
    n.saturating_add(1)
}

/// What was counted of the 64 channels, and whether anything was: most commands bring no packet of a stream.
#[derive(Drop)]
pub(crate) struct Streams {
    rows: [Stream; 64],
    heard: bool,
}

impl Model for Streams {
    ghost use Rattle.std.specs.Prelude.{◌≡◌, IsFalse, List, length};
    ghost use Rattle.fw_trace_lines.specs.declared.streams.Stream.{Stream};
    ghost use Rattle.fw_trace_lines.specs.Streams.{no_streams};

    ghost Value = { List Stream };

    ghost view = { λ s. s.rows };

    ghost invariant = { λ s. (length s.rows ≡ 64) × (IsFalse s.heard → s.rows ≡ no_streams) };
}

// Appends the lines of channels that have packets.
fn put_lines(
    text: &mut Vec<u8>,
    digits: &mut CycleRow,
    cycle: u64,
    names: &Names,
    rows: &[Stream; 64],
) -> Result<(), AllocError>
    ensures { OnOk result (text.new.items ≡ text.old.items ++ caused_text (first_streams names.now cycle rows.now 64)) }
{
    for channel in 0..64 {
        rows[usize::from(channel)].put_line(text, digits, cycle, names, channel)?;
    }
    Ok(())
}

impl Streams {
    // No packet on any.
    pub(crate) fn new() -> Streams
        ensures { result ≡ no_streams }
    {
        Streams {
            rows: [Stream::none(); 64],
            heard: false,
        }
    }

    // No packet on any, any more.
    pub(crate) fn clear(&mut self)
        ensures { self.new ≡ no_streams }
    {
        if self.heard {
            *self = Streams::new();
        }
    }

    // Appends the lines of all channels that have packets.
    pub(crate) fn put_all(
        &self,
        text: &mut Vec<u8>,
        digits: &mut CycleRow,
        cycle: u64,
        names: &Names,
    ) -> Result<(), AllocError>
        ensures { OnOk result (text.new.items ≡ text.old.items ++ caused_text (first_streams names.now cycle self.now 64)) }
    {
        if !self.heard {
            return Ok(());
        }
        put_lines(text, digits, cycle, names, &self.rows)
    }

    // Counts a packet.
    #[tactic(auto, unfolding(crate::specs::Streams::with_packet))]
    pub(crate) fn take(&mut self, p: &IsoPacket)
        ensures { self.new ≡ with_packet p.now self.old }
    {
        let channel = usize::from(p.channel);
        if channel < self.rows.len() {
            self.rows[channel].count(p);
            self.heard = true;
        }
    }
}
