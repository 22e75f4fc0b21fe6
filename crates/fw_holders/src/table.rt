//! The table at a log's end.

ghost use Rattle.std.specs.Prelude.{◌≡◌, ◌++◌, OnOk};
ghost use Rattle.fw_model_account.specs.Account.{Account};
ghost use Rattle.fw_account_tables.specs.Stands.{Stands, StandsFor};
ghost use Rattle.fw_audit.specs.Unjudged.{unjudged_text};
ghost use Rattle.fw_holders.specs.Table.{how_word, units_words, by_text, channel_line, channel_lines, amount_text, if_unjudged, judged_line, left_line, table_text};

use crate::holding::taken_on;
use crate::judged::Judged;
use crate::plugs::put_plugs;
use fw_account_tables::Tables;
use fw_audit::unjudged_text;
use fw_holders_text::{CHANNELS, Holding, How, Side, put_count, put_plug, put_who};
use fw_log_entry::NodeRow;
use fw_log_names::{put_number, put_word};
use std::alloc::AllocError;

// Appends how a channel is held.
#[tactic(auto, unfolding(crate::specs::Table::how_word))]
fn put_how(text: &mut Vec<u8>, how: How) -> Result<(), AllocError>
    ensures { OnOk result (text.new.items ≡ text.old.items ++ how_word how) }
{
    match how {
        How::Pending(_) => put_word(text, " pending: "),
        How::Connected => put_word(text, " connected: "),
        How::Orphaned => put_word(text, " orphaned: "),
        How::Continues => put_word(text, " continues: "),
        How::Reclaimable => put_word(text, " reclaimable: "),
    }
}

// Appends the controller that has a channel, if one has it.
#[tactic(auto, unfolding(crate::specs::Table::by_text))]
fn put_by(text: &mut Vec<u8>, nodes: &[NodeRow], how: How) -> Result<(), AllocError>
    ensures { OnOk result (text.new.items ≡ text.old.items ++ by_text nodes.now how) }
{
    match how {
        How::Pending(controller) => {
            put_word(text, ", by ")?;
            put_who(text, nodes, controller)
        },
        _ => Ok(()),
    }
}

// Appends the units that are held with a channel.
#[tactic(auto, unfolding(crate::specs::Table::units_words))]
fn put_units(text: &mut Vec<u8>, units: u32) -> Result<(), AllocError>
    ensures { OnOk result (text.new.items ≡ text.old.items ++ units_words units) }
{
    if units == 0 {
        return put_word(text, ", no units");
    }
    put_word(text, ", ")?;
    put_count(text, u64::from(units), "unit")
}

// Appends the line of a channel, if it is held.
#[tactic(auto, unfolding(crate::specs::Table::channel_line))]
fn put_channel(
    text: &mut Vec<u8>,
    nodes: &[NodeRow],
    channel: usize,
    held: Option<Holding>,
) -> Result<(), AllocError>
    ensures { OnOk result (text.new.items ≡ text.old.items ++ channel_line nodes.now channel held) }
{
    let Some(held) = held else {
        return Ok(());
    };
    put_word(text, "channel ")?;
    put_number(text, channel as u64)?;
    put_how(text, held.how)?;
    put_plug(text, nodes, Side::Output, held.plug)?;
    put_units(text, held.units)?;
    put_by(text, nodes, held.how)?;
    put_word(text, "\n")
}

// Appends the lines of all channels that are held.
fn put_channels(text: &mut Vec<u8>, tables: &Tables) -> Result<(), AllocError>
    requires stands { Stands tables.now }
    ensures { (l : Account) → StandsFor tables.now l → OnOk result (text.new.items ≡ text.old.items ++ channel_lines 64 l) }
{
    let nodes = tables.nodes.as_slice();
    for channel in 0..CHANNELS {
        put_channel(text, nodes, channel, taken_on(tables, channel))?;
    }
    Ok(())
}

// Appends what was judged of answers and shown words.
#[tactic(auto, unfolding(crate::specs::Table::amount_text))]
fn put_amount(text: &mut Vec<u8>, judged: &Judged) -> Result<(), AllocError>
    ensures { OnOk result (text.new.items ≡ text.old.items ++ amount_text judged.now) }
{
    if judged.is_nothing() {
        return put_word(
            text,
            "nothing: no answer with label 0 of a watched register, no shown word of one,",
        );
    }
    put_count(text, judged.reads, "read")?;
    put_word(text, ", ")?;
    put_count(text, judged.made, "swap")?;
    put_word(text, " made, ")?;
    put_number(text, judged.unmade)?;
    put_word(text, " not made, ")?;
    put_count(text, judged.shown, "shown word")
}

// Appends how many locks were not judged, if there are any.
fn put_unjudged(text: &mut Vec<u8>, unjudged: u64) -> Result<(), AllocError>
    ensures { OnOk result (text.new.items ≡ text.old.items ++ unjudged_text unjudged) }
{
    text.extend_from_slice(unjudged_text(unjudged).as_slice())
}

// Appends a word if there are locks that were not judged.
#[tactic(auto, unfolding(crate::specs::Table::if_unjudged))]
fn put_if_unjudged(text: &mut Vec<u8>, unjudged: u64, word: &str) -> Result<(), AllocError>
    ensures { OnOk result (text.new.items ≡ text.old.items ++ if_unjudged unjudged word.now) }
{
    if unjudged == 0 {
        return Ok(());
    }
    put_word(text, word)
}

// Appends how much was judged, and how many locks were not.
#[tactic(auto, unfolding(crate::specs::Table::judged_line))]
fn put_judged(text: &mut Vec<u8>, judged: &Judged, unjudged: u64) -> Result<(), AllocError>
    ensures { OnOk result (text.new.items ≡ text.old.items ++ judged_line judged.now unjudged) }
{
    put_word(text, "judged ")?;
    put_amount(text, judged)?;
    put_word(text, " in ")?;
    put_count(text, judged.resets, "bus reset")?;
    put_unjudged(text, unjudged)?;
    put_if_unjudged(text, unjudged, ": see watch")?;
    put_word(text, "\n")
}

// Appends the units that are left.
#[tactic(auto, unfolding(crate::specs::Table::left_line))]
fn put_left(text: &mut Vec<u8>, units: u32, unjudged: u64) -> Result<(), AllocError>
    ensures { OnOk result (text.new.items ≡ text.old.items ++ left_line units unjudged) }
{
    put_word(text, "left ")?;
    put_number(text, u64::from(units))?;
    put_word(text, " of 4915 units")?;
    put_if_unjudged(text, unjudged, " by label 0 alone")?;
    put_word(text, "\n")
}

/// Appends the table: a line for each channel that is held, a line for each plug that has connections, the units that are left, and
/// how much was judged, and how many locks were not.
pub(crate) fn put_table(
    text: &mut Vec<u8>,
    tables: &Tables,
    judged: &Judged,
    unjudged: u64,
) -> Result<(), AllocError>
    requires stands { Stands tables.now }
    ensures { (l : Account) → StandsFor tables.now l → OnOk result (text.new.items ≡ text.old.items ++ table_text l judged.now unjudged) }
{
    put_channels(text, tables)?;
    put_plugs(text, tables)?;
    put_left(text, tables.left, unjudged)?;
    put_judged(text, judged, unjudged)
}
