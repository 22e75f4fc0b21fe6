//! The latest texts of what was done and is held.

ghost use Rattle.std.specs.Prelude.{◌≡◌, ◌≤◌, ◌++◌, IfOk, IfSome, OnOk, [], length, codes, decimal};
ghost use Rattle.fw_holders_text.specs.Deeds.{done_text};
ghost use Rattle.fw_holders_text.specs.Holdings.{holding_text};
ghost use Rattle.fw_holders_text.specs.Kept.{NoneDone, NoneTold};
ghost use Rattle.fw_holders_text.specs.Names.{left, right};

use crate::bus_nodes::BusNodes;
use crate::deed::Deed;
use crate::holding::Holding;
use crate::kept_channel::{CHANNEL_ROWS, HeldChannel, KeptChannel, channel_row, put_channel};
use crate::kept_done::{DONE_ROWS, Done, KeptDone, done_row, put_done_column};
use crate::kept_number::{KeptNumber, keep_number, number_row, number_rows};
use crate::names::put_right;
use crate::text_row::TextRow;
use fw_log_entry::NodeRow;
use fw_log_names::put_word;
use std::alloc::{AllocError, Global};
use std::marker::Model;

// How many columns a cycle has, and the units that are left.
const CYCLE_WIDTH: usize = 8;

const UNITS_WIDTH: usize = 4;

/// The latest texts of what was done and of the channels that were held, over the nodes of one bus reset: most of a line was told in
/// an earlier one. Contracts see it as these nodes.
#[derive(Drop)]
pub struct HeldTexts {
    nodes: BusNodes,
    channels: Vec<KeptChannel>,
    done: Vec<KeptDone>,
    cycle: KeptNumber,
    left: Vec<KeptNumber>,
    scratch: Vec<u8>,
}

impl Model for HeldTexts {
    ghost use Rattle.std.specs.Prelude.{List, codes};
    ghost use Rattle.fw_log_entry.specs.declared.nodes.NodeRow.{NodeRow};
    ghost use Rattle.fw_holders_text.specs.Kept.{AreChannels, AreDone, AreNumbers, IsNumber};

    ghost Value = { List NodeRow };

    ghost view = { λ t. t.nodes };

    ghost invariant = { λ t. AreChannels t.nodes t.channels.items × AreDone t.nodes t.done.items × IsNumber 8 (codes " ") t.cycle × AreNumbers 4 (codes " left: ") t.left.items };
}

// No text of a channel is at hand.
fn forget_channels(rows: &mut [KeptChannel])
    ensures size { length rows.new ≡ length rows.old }
    ensures none { NoneTold rows.new }
{
    for row in rows.iter_mut() {
        row.told = None;
    }
}

// No text of what was done is at hand.
fn forget_done(rows: &mut [KeptDone])
    ensures size { length rows.new ≡ length rows.old }
    ensures none { NoneDone rows.new }
{
    for row in rows.iter_mut() {
        row.done = None;
    }
}

// Rows for channels.
fn channel_rows(alloc: Global) -> Result<Vec<KeptChannel>, AllocError>
    ensures { IfOk result (λ rows. NoneTold rows.items) }
{
    let mut rows = Vec::with_capacity(alloc, CHANNEL_ROWS)?;
    for _ in 0..CHANNEL_ROWS {
        rows.push(KeptChannel::new())?;
    }
    Ok(rows)
}

// Rows for what is done.
fn done_rows(alloc: Global) -> Result<Vec<KeptDone>, AllocError>
    ensures { IfOk result (λ rows. NoneDone rows.items) }
{
    let mut rows = Vec::with_capacity(alloc, DONE_ROWS)?;
    for _ in 0..DONE_ROWS {
        rows.push(KeptDone::new())?;
    }
    Ok(rows)
}

impl HeldTexts {
    /// None so far, of no nodes. An error says that memory ran out.
    pub fn new(alloc: Global) -> Result<HeldTexts, AllocError>
        ensures { IfOk result (λ t. t ≡ []) }
    {
        Ok(HeldTexts {
            nodes: BusNodes::of(&[]),
            channels: channel_rows(alloc)?,
            done: done_rows(alloc)?,
            cycle: KeptNumber::new(),
            left: number_rows(alloc)?,
            scratch: Vec::new(alloc),
        })
    }

    /// Goes on to these nodes. If they are others no text is at hand any more.
    #[inline(never)]
    pub fn renew(&mut self, nodes: &[NodeRow])
        requires { length nodes.now ≤ 63 }
        ensures { self.new ≡ nodes.now }
    {
        if self.nodes.as_slice() == nodes {
            return;
        }
        forget_channels(&mut self.channels);
        forget_done(&mut self.done);
        self.nodes = BusNodes::of(nodes);
    }

    /// Appends what a line begins with: its cycle, in eight columns or more, and a space.
    #[inline(always)]
    pub fn put_cycle(&mut self, text: &mut Vec<u8>, cycle: u64) -> Result<(), AllocError>
        ensures same { self.new ≡ self.old }
        ensures text { OnOk result (text.new.items ≡ text.old.items ++ (right 8 (decimal cycle) ++ codes " ")) }
    {
        self.cycle.put(text, cycle, CYCLE_WIDTH, " ")
    }

    /// Appends what the controller of a device does, in 40 columns or more, and a space.
    #[inline(always)]
    pub fn put_done(
        &mut self,
        text: &mut Vec<u8>,
        reclaiming: bool,
        controller: u8,
        deed: Deed,
    ) -> Result<(), AllocError>
        ensures same { self.new ≡ self.old }
        ensures text { OnOk result (text.new.items ≡ text.old.items ++ (left 40 (done_text self.old reclaiming controller deed) ++ codes " ")) }
    {
        let done = Done {
            reclaiming,
            controller,
            deed,
        };
        put_done_column(&mut self.done, text, &self.nodes, done)
    }

    /// Appends the bandwidth units that are left, in four columns or more, that they are, and what stands before a channel.
    #[inline(always)]
    pub fn put_left(&self, text: &mut Vec<u8>, units: u64) -> Result<(), AllocError>
        ensures text { OnOk result (text.new.items ≡ text.old.items ++ (right 4 (decimal units) ++ codes " left: ")) }
    {
        put_right(text, units, UNITS_WIDTH)?;
        put_word(text, " left: ")
    }

    /// Appends a channel that is held, and what separates it from the next.
    #[inline(always)]
    pub fn put_channel(
        &mut self,
        text: &mut Vec<u8>,
        channel: u8,
        held: Holding,
    ) -> Result<(), AllocError>
        ensures same { self.new ≡ self.old }
        ensures text { OnOk result (text.new.items ≡ text.old.items ++ (holding_text self.old channel held ++ codes ", ")) }
    {
        put_channel(
            &mut self.channels,
            text,
            &self.nodes,
            HeldChannel { channel, held },
        )
    }

    /// Goes on to this cycle, and to these units that are left.
    #[inline(always)]
    pub fn keep_numbers(&mut self, cycle: u64, left: u64) -> Result<(), AllocError>
        ensures { self.new ≡ self.old }
    {
        self.cycle.keep(&mut self.scratch, cycle, CYCLE_WIDTH, " ")?;
        keep_number(
            &mut self.left,
            &mut self.scratch,
            left,
            UNITS_WIDTH,
            " left: ",
        )
    }

    /// What `put_cycle` appends, if it is at hand.
    #[inline(always)]
    pub fn cycle_row(&self, cycle: u64) -> Option<&TextRow>
        ensures { IfSome result (λ row. row.now ≡ right 8 (decimal cycle) ++ codes " ") }
    {
        self.cycle.row(cycle)
    }

    /// What `put_done` appends, if it is at hand.
    #[inline(always)]
    pub fn done_row(&self, reclaiming: bool, controller: u8, deed: Deed) -> Option<&TextRow>
        ensures { IfSome result (λ row. row.now ≡ left 40 (done_text self.now reclaiming controller deed) ++ codes " ") }
    {
        let done = Done {
            reclaiming,
            controller,
            deed,
        };
        done_row(&self.done, done)
    }

    /// What `put_left` appends, if it is at hand.
    #[inline(always)]
    pub fn left_row(&self, units: u64) -> Option<&TextRow>
        ensures { IfSome result (λ row. row.now ≡ right 4 (decimal units) ++ codes " left: ") }
    {
        number_row(&self.left, units)
    }

    /// What `put_channel` appends, if it is at hand.
    #[inline(always)]
    pub fn channel_row(&self, channel: u8, held: Holding) -> Option<&TextRow>
        ensures { IfSome result (λ row. row.now ≡ holding_text self.now channel held ++ codes ", ") }
    {
        channel_row(&self.channels, HeldChannel { channel, held })
    }
}
