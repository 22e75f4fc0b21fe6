//! The lines of what is new in the second after a bus reset.

ghost use Rattle.std.specs.Prelude.{◌≡◌, ◌++◌, OnOk};
ghost use Rattle.fw_watch_remarks.specs.Remarks.{unit_taker_text, held_units_text, units_in_second_text, channel_taker_text, new_in_second_text};

use crate::findings::put_asker;
use crate::parts::{put_part, put_small, put_wide};
use fw_log_names::{Pairs, put_word};
use std::alloc::AllocError;

// Appends who takes units in the second.
#[tactic(auto, unfolding(crate::specs::Remarks::unit_taker_text))]
fn put_unit_taker(text: &mut Vec<u8>, pairs: &Pairs, by: u16, epoch: u32) -> Result<(), AllocError>
    ensures { OnOk result (text.new.items ≡ text.old.items ++ unit_taker_text by epoch) }
{
    put_asker(text, pairs, by)?;
    put_wide(text, " takes units in the second after bus reset ", epoch)
}

// Appends how many units are taken, and how many were held.
#[tactic(auto, unfolding(crate::specs::Remarks::held_units_text))]
fn put_held_units(text: &mut Vec<u8>, taken: u64, held: u32) -> Result<(), AllocError>
    ensures { OnOk result (text.new.items ≡ text.old.items ++ held_units_text taken held) }
{
    put_part(text, ": ", taken)?;
    put_wide(text, " are taken in it, and ", held)?;
    put_word(text, " were held before")
}

#[tactic(auto, unfolding(crate::specs::Remarks::units_in_second_text))]
pub fn put_units_in_second(
    text: &mut Vec<u8>,
    pairs: &Pairs,
    by: u16,
    epoch: u32,
    taken: u64,
    held: u32,
) -> Result<(), AllocError>
    ensures { OnOk result (text.new.items ≡ text.old.items ++ units_in_second_text by epoch taken held) }
{
    put_unit_taker(text, pairs, by, epoch)?;
    put_held_units(text, taken, held)
}

// Appends who takes a channel.
#[tactic(auto, unfolding(crate::specs::Remarks::channel_taker_text))]
fn put_channel_taker(
    text: &mut Vec<u8>,
    pairs: &Pairs,
    by: u16,
    channel: u8,
) -> Result<(), AllocError>
    ensures { OnOk result (text.new.items ≡ text.old.items ++ channel_taker_text by channel) }
{
    put_asker(text, pairs, by)?;
    put_small(text, " takes channel ", channel)
}

#[tactic(auto, unfolding(crate::specs::Remarks::new_in_second_text))]
pub fn put_new_in_second(
    text: &mut Vec<u8>,
    pairs: &Pairs,
    by: u16,
    channel: u8,
    epoch: u32,
) -> Result<(), AllocError>
    ensures { OnOk result (text.new.items ≡ text.old.items ++ new_in_second_text by channel epoch) }
{
    put_channel_taker(text, pairs, by, channel)?;
    put_wide(text, " in the second after bus reset ", epoch)?;
    put_word(text, ", and it was free before")
}
