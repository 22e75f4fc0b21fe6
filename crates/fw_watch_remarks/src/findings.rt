//! The lines of findings.

ghost use Rattle.std.specs.Prelude.{◌≡◌, ◌++◌, OnOk, IsTrue};
ghost use Rattle.fw_watch_remarks.specs.Remarks.{asker_text, held_text, swapper_text, not_manager_text, too_many_text, several_text, changer_text, to_text, words_text, more_text, two_text, carries_text, not_taken_text, other_plug_text, remark_text, is_finding};

use crate::nodes::put_who;
use crate::parts::{put_manager_clause, put_owners, put_small, put_units};
use crate::register::{At, put_at};
use crate::remark::Remark;
use crate::seconds::{put_new_in_second, put_units_in_second};
use fw_log_names::{Pairs, put_hex8, put_word};
use std::alloc::AllocError;

// Appends the sign of a finding, and who asked for what it is of.
#[tactic(auto, unfolding(crate::specs::Remarks::asker_text))]
pub fn put_asker(text: &mut Vec<u8>, pairs: &Pairs, by: u16) -> Result<(), AllocError>
    ensures { OnOk result (text.new.items ≡ text.old.items ++ asker_text by) }
{
    put_word(text, "! ")?;
    put_who(text, pairs, by)
}

#[tactic(auto, unfolding(crate::specs::Remarks::held_text))]
fn put_held(text: &mut Vec<u8>, node: u8, channel: u8) -> Result<(), AllocError>
    ensures { OnOk result (text.new.items ≡ text.old.items ++ held_text node channel) }
{
    put_small(text, "! node ", node)?;
    put_small(text, " has held channel ", channel)?;
    put_word(
        text,
        " for 8000 cycles, and no plug and no packet was on it",
    )
}

// Appends who swapped a register.
#[tactic(auto, unfolding(crate::specs::Remarks::swapper_text))]
fn put_swapper(text: &mut Vec<u8>, pairs: &Pairs, by: u16, at: At) -> Result<(), AllocError>
    ensures { OnOk result (text.new.items ≡ text.old.items ++ swapper_text by at) }
{
    put_asker(text, pairs, by)?;
    put_word(text, " swaps ")?;
    put_at(text, at)
}

#[tactic(auto, unfolding(crate::specs::Remarks::not_manager_text))]
fn put_not_manager(
    text: &mut Vec<u8>,
    pairs: &Pairs,
    by: u16,
    at: At,
    manager: Option<u8>,
) -> Result<(), AllocError>
    ensures { OnOk result (text.new.items ≡ text.old.items ++ not_manager_text by at manager) }
{
    put_swapper(text, pairs, by, at)?;
    put_word(text, " as of the resource manager, and ")?;
    put_manager_clause(text, manager)
}

#[tactic(auto, unfolding(crate::specs::Remarks::too_many_text))]
fn put_too_many(text: &mut Vec<u8>, pairs: &Pairs, by: u16, left: u32) -> Result<(), AllocError>
    ensures { OnOk result (text.new.items ≡ text.old.items ++ too_many_text by left) }
{
    put_asker(text, pairs, by)?;
    put_word(text, " leaves ")?;
    put_units(text, left)?;
    put_word(text, ", and there are 4915")
}

#[tactic(auto, unfolding(crate::specs::Remarks::several_text))]
fn put_several(text: &mut Vec<u8>, pairs: &Pairs, by: u16, count: u8) -> Result<(), AllocError>
    ensures { OnOk result (text.new.items ≡ text.old.items ++ several_text by count) }
{
    put_asker(text, pairs, by)?;
    put_small(text, " changes ", count)?;
    put_word(text, " channels at once")
}

// Appends who changed a plug.
#[tactic(auto, unfolding(crate::specs::Remarks::changer_text))]
fn put_changer(text: &mut Vec<u8>, pairs: &Pairs, by: u16, at: At) -> Result<(), AllocError>
    ensures { OnOk result (text.new.items ≡ text.old.items ++ changer_text by at) }
{
    put_asker(text, pairs, by)?;
    put_word(text, " changes more than a connection of ")?;
    put_at(text, at)
}

// Appends the word that a plug became.
#[tactic(auto, unfolding(crate::specs::Remarks::to_text))]
fn put_to(text: &mut Vec<u8>, pairs: &Pairs, new: u32) -> Result<(), AllocError>
    ensures { OnOk result (text.new.items ≡ text.old.items ++ to_text new) }
{
    put_word(text, " to ")?;
    put_hex8(text, pairs, new)
}

// Appends the two words of a swap.
#[tactic(auto, unfolding(crate::specs::Remarks::words_text))]
fn put_words(text: &mut Vec<u8>, pairs: &Pairs, old: u32, new: u32) -> Result<(), AllocError>
    ensures { OnOk result (text.new.items ≡ text.old.items ++ words_text old new) }
{
    put_word(text, ": ")?;
    put_hex8(text, pairs, old)?;
    put_to(text, pairs, new)
}

#[tactic(auto, unfolding(crate::specs::Remarks::more_text))]
fn put_more(
    text: &mut Vec<u8>,
    pairs: &Pairs,
    by: u16,
    at: At,
    old: u32,
    new: u32,
) -> Result<(), AllocError>
    ensures { OnOk result (text.new.items ≡ text.old.items ++ more_text by at old new) }
{
    put_changer(text, pairs, by, at)?;
    put_words(text, pairs, old, new)
}

#[tactic(auto, unfolding(crate::specs::Remarks::two_text))]
fn put_two(text: &mut Vec<u8>, channel: u8, first: u8, second: u8) -> Result<(), AllocError>
    ensures { OnOk result (text.new.items ≡ text.old.items ++ two_text channel first second) }
{
    put_small(text, "! channel ", channel)?;
    put_small(text, " has two senders, node ", first)?;
    put_small(text, " and node ", second)
}

// Appends a channel, and the node whose packets it carries.
#[tactic(auto, unfolding(crate::specs::Remarks::carries_text))]
fn put_carries(text: &mut Vec<u8>, channel: u8, node: u8) -> Result<(), AllocError>
    ensures { OnOk result (text.new.items ≡ text.old.items ++ carries_text channel node) }
{
    put_small(text, "! channel ", channel)?;
    put_small(text, " carries packets of node ", node)
}

#[tactic(auto, unfolding(crate::specs::Remarks::not_taken_text))]
fn put_not_taken(text: &mut Vec<u8>, channel: u8, node: u8) -> Result<(), AllocError>
    ensures { OnOk result (text.new.items ≡ text.old.items ++ not_taken_text channel node) }
{
    put_carries(text, channel, node)?;
    put_word(text, ", and nobody was seen to take it")
}

#[tactic(auto, unfolding(crate::specs::Remarks::other_plug_text))]
fn put_other_plug(text: &mut Vec<u8>, channel: u8, node: u8, owners: u64) -> Result<(), AllocError>
    ensures { OnOk result (text.new.items ≡ text.old.items ++ other_plug_text channel node owners) }
{
    put_carries(text, channel, node)?;
    put_word(text, ", and the plug on it is of node")?;
    put_owners(text, owners)
}

// Appends what a finding tells.
#[tactic(auto, unfolding(crate::specs::Remarks::remark_text))]
pub fn put_finding(text: &mut Vec<u8>, pairs: &Pairs, remark: &Remark) -> Result<(), AllocError>
    ensures { IsTrue (is_finding remark.now) → OnOk result (text.new.items ≡ text.old.items ++ remark_text remark.now) }
{
    match *remark {
        Remark::UnusedChannel { node, channel } => put_held(text, node, channel),
        Remark::NotManager { by, at, manager } => put_not_manager(text, pairs, by, at, manager),
        Remark::TooMany { by, left } => put_too_many(text, pairs, by, left),
        Remark::UnitsInSecond {
            by,
            epoch,
            taken,
            held,
        } => put_units_in_second(text, pairs, by, epoch, taken, held),
        Remark::NewInSecond { by, channel, epoch } => {
            put_new_in_second(text, pairs, by, channel, epoch)
        }
        Remark::Several { by, count } => put_several(text, pairs, by, count),
        Remark::MoreThanMove { by, at, old, new } => put_more(text, pairs, by, at, old, new),
        Remark::TwoSenders {
            channel,
            first,
            second,
        } => put_two(text, channel, first, second),
        Remark::NotTaken { channel, node } => put_not_taken(text, channel, node),
        Remark::OtherPlug {
            channel,
            node,
            owners,
        } => put_other_plug(text, channel, node, owners),
        _ => Ok(()),
    }
}
