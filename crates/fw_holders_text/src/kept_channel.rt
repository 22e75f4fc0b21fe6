//! The latest texts of the channels that are held.

ghost use Rattle.std.specs.Prelude.{◌≡◌, ◌++◌, List, IsTrue, IfSome, OnOk, Some, None, length};
ghost use Rattle.fw_log_entry.specs.declared.nodes.NodeRow.{NodeRow as ANode};
ghost use Rattle.fw_holders_text.specs.Kept.{AreChannels, IsChannel, channel_text};

use crate::bus_nodes::BusNodes;
use crate::holding::{Holding, How, put_holding};
use crate::text_row::TextRow;
use fw_log_names::put_word;
use std::alloc::AllocError;

/// How many rows there are: so many for each channel as it has texts when it is taken, given units, and connected.
pub(crate) const CHANNEL_ROWS: usize = 256;

/// A channel that is held, and what is held with it.
#[derive(Clone, Copy)]
pub(crate) struct HeldChannel {
    pub channel: u8,
    pub held: Holding,
}

/// A channel that was told, if its text is kept; and the text, with what separates it from the next.
#[derive(Drop)]
pub(crate) struct KeptChannel {
    pub told: Option<HeldChannel>,
    pub text: TextRow,
}

// They are held in the same way.
#[inline(always)]
fn is_how(how: How, other: How) -> bool
    ensures { IsTrue result → how ≡ other }
{
    match (how, other) {
        (How::Pending(controller), How::Pending(another)) => controller == another,
        (How::Connected, How::Connected) => true,
        (How::Orphaned, How::Orphaned) => true,
        (How::Continues, How::Continues) => true,
        (How::Reclaimable, How::Reclaimable) => true,
        _ => false,
    }
}

// The same is held.
#[inline(always)]
fn is_same(other: Holding, held: Holding) -> bool
    ensures { IsTrue result → other ≡ held }
{
    other.units == held.units
        && other.plug.device == held.plug.device
        && other.plug.plug == held.plug.plug
        && is_how(other.how, held.how)
}

// It is what was told.
#[inline(always)]
fn is_told(told: &Option<HeldChannel>, c: HeldChannel) -> bool
    ensures { IsTrue result → told.now ≡ Some c }
{
    match told {
        Some(other) => other.channel == c.channel && is_same(other.held, c.held),
        None => false,
    }
}

// The row that a channel belongs to: any would do.
#[inline(always)]
fn row_of(c: HeldChannel) -> usize {
    let form = match c.held.how {
        How::Pending(_) if c.held.units == 0 => 0,
        How::Pending(_) => 1,
        How::Connected => 2,
        _ => 3,
    };
    usize::from(c.channel) * 4 + form
}

// Appends a channel, and what separates it from the next.
fn put_text(text: &mut Vec<u8>, nodes: &BusNodes, c: HeldChannel) -> Result<(), AllocError>
    ensures { OnOk result (text.new.items ≡ text.old.items ++ channel_text nodes.now c) }
{
    put_holding(text, nodes, usize::from(c.channel), c.held)?;
    put_word(text, ", ")
}

impl KeptChannel {
    /// None so far.
    pub(crate) fn new() -> KeptChannel
        ensures { result.told ≡ None }
    {
        KeptChannel {
            told: None,
            text: TextRow::new(),
        }
    }

    // Appends another channel, and keeps its text.
    #[inline(never)]
    fn put_new(
        &mut self,
        text: &mut Vec<u8>,
        nodes: &BusNodes,
        c: HeldChannel,
    ) -> Result<(), AllocError>
        ensures kept { IsChannel nodes.now self.new }
        ensures text { OnOk result (text.new.items ≡ text.old.items ++ channel_text nodes.now c) }
    {
        self.told = None;
        let begins = text.len();
        put_text(text, nodes, c)?;
        if self.text.keep(&text[begins..]) {
            self.told = Some(c);
        }
        Ok(())
    }

    // Appends a channel, whose text is mostly at hand.
    #[inline(always)]
    fn put(
        &mut self,
        text: &mut Vec<u8>,
        nodes: &BusNodes,
        c: HeldChannel,
    ) -> Result<(), AllocError>
        requires kept { IsChannel nodes.now self.old }
        ensures kept { IsChannel nodes.now self.new }
        ensures text { OnOk result (text.new.items ≡ text.old.items ++ channel_text nodes.now c) }
    {
        if is_told(&self.told, c) {
            self.text.put(text)
        } else {
            self.put_new(text, nodes, c)
        }
    }
}

/// Appends a channel, whose text is mostly at hand in one of the rows, and what separates it from the next.
#[inline(always)]
pub(crate) fn put_channel(
    rows: &mut [KeptChannel],
    text: &mut Vec<u8>,
    nodes: &BusNodes,
    c: HeldChannel,
) -> Result<(), AllocError>
    requires kept { AreChannels nodes.now rows.old }
    ensures size { length rows.new ≡ length rows.old }
    ensures kept { AreChannels nodes.now rows.new }
    ensures text { OnOk result (text.new.items ≡ text.old.items ++ channel_text nodes.now c) }
{
    let row = row_of(c);
    if row >= rows.len() {
        return put_text(text, nodes, c);
    }
    rows[row].put(text, nodes, c)
}

/// The text of a channel, with what separates it from the next, if it is at hand in one of the rows.
#[inline(always)]
pub(crate) fn channel_row(rows: &[KeptChannel], c: HeldChannel) -> Option<&TextRow>
    ensures { (nodes : List ANode) → AreChannels nodes rows.now → IfSome result (λ row. row.now ≡ channel_text nodes c) }
{
    let kept = rows.get(row_of(c))?;
    if is_told(&kept.told, c) {
        Some(&kept.text)
    } else {
        None
    }
}
