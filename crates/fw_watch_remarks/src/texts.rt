//! The lines of what happened, and of what changed unseen.

ghost use Rattle.std.specs.Prelude.{◌≡◌, ◌++◌, OnOk};
ghost use Rattle.fw_watch_remarks.specs.Remarks.{reset_text, mover_text, unit_text, channel_text, counts_text, done_text, plug_text, sends_text, remark_text, line, said};

use crate::findings::put_finding;
use crate::known::is_connected;
use crate::nodes::put_who;
use crate::parts::{
    apart, put_either, put_field, put_manager, put_part, put_small, put_units, put_wide,
};
use crate::register::{At, put_at};
use crate::remark::Remark;
use crate::unseen::put_unseen;
use fw_log_names::{CycleRow, Pairs, put_word};
use std::alloc::AllocError;

// Appends a bus reset.
#[tactic(auto, unfolding(crate::specs::Remarks::reset_text))]
fn put_reset(
    text: &mut Vec<u8>,
    epoch: u32,
    nodes: u8,
    manager: Option<u8>,
) -> Result<(), AllocError>
    ensures { OnOk result (text.new.items ≡ text.old.items ++ reset_text epoch nodes manager) }
{
    put_wide(text, "bus reset ", epoch)?;
    put_small(text, ": ", nodes)?;
    put_word(text, if nodes == 1 { " node" } else { " nodes" })?;
    put_word(text, ", resource manager ")?;
    put_manager(text, manager)
}

// Appends who took units or gave them back.
#[tactic(auto, unfolding(crate::specs::Remarks::mover_text))]
fn put_mover(
    text: &mut Vec<u8>,
    pairs: &Pairs,
    by: u16,
    old: u32,
    new: u32,
) -> Result<(), AllocError>
    ensures { OnOk result (text.new.items ≡ text.old.items ++ mover_text by old new) }
{
    put_who(text, pairs, by)?;
    put_either(text, new < old, " takes ", " gives back ")?;
    put_units(text, apart(old, new))
}

// Appends units that were taken or given back.
#[tactic(auto, unfolding(crate::specs::Remarks::unit_text))]
fn put_taken_units(
    text: &mut Vec<u8>,
    pairs: &Pairs,
    by: u16,
    old: u32,
    new: u32,
) -> Result<(), AllocError>
    ensures { OnOk result (text.new.items ≡ text.old.items ++ unit_text by old new) }
{
    put_mover(text, pairs, by, old, new)?;
    put_wide(text, ", ", new)?;
    put_word(text, " left")
}

// Appends a channel after who does something with it.
#[tactic(auto, unfolding(crate::specs::Remarks::channel_text))]
fn put_channel(
    text: &mut Vec<u8>,
    pairs: &Pairs,
    by: u16,
    does: &str,
    channel: u8,
) -> Result<(), AllocError>
    ensures { OnOk result (text.new.items ≡ text.old.items ++ channel_text by does.now channel) }
{
    put_who(text, pairs, by)?;
    put_part(text, does, u64::from(channel))
}

// Appends the counts of a plug.
#[tactic(auto, unfolding(crate::specs::Remarks::counts_text))]
fn put_counts(text: &mut Vec<u8>, word: u32) -> Result<(), AllocError>
    ensures { OnOk result (text.new.items ≡ text.old.items ++ counts_text word) }
{
    put_field(text, " to ", word, 2, 7)?;
    put_field(text, " point-to-point, ", word, 1, 1)?;
    put_field(text, " broadcast, channel ", word, 10, 15)
}

// Appends what a swap does to a plug.
#[inline(always)]
#[tactic(auto, unfolding(crate::specs::Remarks::done_text))]
fn put_done(
    text: &mut Vec<u8>,
    pairs: &Pairs,
    by: u16,
    does: &str,
    at: At,
) -> Result<(), AllocError>
    ensures { OnOk result (text.new.items ≡ text.old.items ++ done_text by does.now at) }
{
    put_who(text, pairs, by)?;
    put_word(text, does)?;
    put_at(text, at)
}

// Appends a plug whose word became another.
#[tactic(auto, unfolding(crate::specs::Remarks::plug_text))]
fn put_plug(
    text: &mut Vec<u8>,
    pairs: &Pairs,
    by: u16,
    at: At,
    old: u32,
    new: u32,
) -> Result<(), AllocError>
    ensures { OnOk result (text.new.items ≡ text.old.items ++ plug_text by at old new) }
{
    if is_connected(old) {
        if is_connected(new) {
            put_done(text, pairs, by, " changes ", at)?;
            put_counts(text, new)
        } else {
            put_done(text, pairs, by, " disconnects ", at)?;
            put_field(text, " from channel ", old, 10, 15)
        }
    } else if is_connected(new) {
        put_done(text, pairs, by, " connects ", at)?;
        put_field(text, " on channel ", new, 10, 15)
    } else {
        put_done(text, pairs, by, " changes ", at)?;
        put_counts(text, new)
    }
}

// Appends that a node began to send.
#[tactic(auto, unfolding(crate::specs::Remarks::sends_text))]
fn put_sends(text: &mut Vec<u8>, node: u8, channel: u8) -> Result<(), AllocError>
    ensures { OnOk result (text.new.items ≡ text.old.items ++ sends_text node channel) }
{
    put_small(text, "node ", node)?;
    put_small(text, " sends on channel ", channel)
}

// Appends what a remark tells.
#[tactic(auto, unfolding(crate::specs::Remarks::remark_text))]
fn put_remark(text: &mut Vec<u8>, pairs: &Pairs, remark: &Remark) -> Result<(), AllocError>
    ensures { OnOk result (text.new.items ≡ text.old.items ++ remark_text remark.now) }
{
    match *remark {
        Remark::Reset {
            epoch,
            nodes,
            manager,
        } => put_reset(text, epoch, nodes, manager),
        Remark::Units { by, old, new } => put_taken_units(text, pairs, by, old, new),
        Remark::Takes { by, channel } => {
            put_channel(text, pairs, by, " takes channel ", channel)
        }
        Remark::Returns { by, channel } => {
            put_channel(text, pairs, by, " gives back channel ", channel)
        }
        Remark::Plug { by, at, old, new } => put_plug(text, pairs, by, at, old, new),
        Remark::Unseen { at, known, found } => put_unseen(text, pairs, at, known, found),
        Remark::Sends { node, channel } => put_sends(text, node, channel),
        _ => put_finding(text, pairs, remark),
    }
}

// Appends the cycle that a line begins with, and a space: all bytes of its row, of which those after the space are cut off again.
#[inline(always)]
fn put_cycle(text: &mut Vec<u8>, row: &CycleRow) -> Result<(), AllocError>
    ensures { OnOk result (text.new.items ≡ text.old.items ++ row.now) }
{
    let (bytes, size) = row.row();
    text.extend_from_slice(bytes)?;
    let over = 24 - size;
    text.truncate(text.len() - over);
    Ok(())
}

/// Appends the line of a remark.
#[tactic(auto, unfolding(crate::specs::Remarks::line))]
pub fn put_line(
    text: &mut Vec<u8>,
    pairs: &Pairs,
    row: &mut CycleRow,
    cycle: u64,
    remark: &Remark,
) -> Result<(), AllocError>
    ensures { OnOk result (text.new.items ≡ text.old.items ++ line (said cycle remark.now)) }
{
    row.set(cycle);
    put_cycle(text, row)?;
    put_remark(text, pairs, remark)?;
    put_word(text, "\n")
}
