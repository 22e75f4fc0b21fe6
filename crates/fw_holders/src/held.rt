//! All that is held, as text: channel by channel, each with what separates it from the next, which is taken off the last again.

ghost use Rattle.std.specs.Prelude.{◌≡◌, ◌<◌, ◌++◌, List, ℕ, OnOk, codes};
ghost use Rattle.fw_model_account.specs.Account.{Account};
ghost use Rattle.fw_account_tables.specs.Stands.{Stands, StandsFor};
ghost use Rattle.fw_holders.specs.Held.{with_holding, listed, held_text};

use crate::holding::{end_of_taken, next_taken, taken_on};
use fw_account_tables::Tables;
use fw_holders_text::{CHANNELS, HeldTexts, Holding};
use std::alloc::AllocError;

/// How many bytes what separates a channel from the next has, as what stands before the first.
const SEPARATOR: usize = 2;

// Appends a channel, if it is held.
fn put_channel(
    text: &mut Vec<u8>,
    texts: &mut HeldTexts,
    channel: usize,
    held: Option<Holding>,
) -> Result<(), AllocError>
    requires within { channel < 64 }
    ensures same { texts.new ≡ texts.old }
    ensures text { (before told : List ℕ) → text.old.items ≡ before ++ listed told → OnOk result (text.new.items ≡ before ++ listed (with_holding texts.old channel held told)) }
{
    match held {
        Some(held) => texts.put_channel(text, channel as u8, held),
        None => Ok(()),
    }
}

/// Appends all channels that are held to a text that ends with what stands before the first, which is taken off if none is held.
pub(crate) fn put_held(
    text: &mut Vec<u8>,
    tables: &Tables,
    texts: &mut HeldTexts,
) -> Result<(), AllocError>
    requires stands { Stands tables.now }
    requires nodes { texts.old ≡ tables.now.nodes }
    ensures same { texts.new ≡ texts.old }
    ensures text { (before : List ℕ) (l : Account) → text.old.items ≡ before ++ codes ": " → StandsFor tables.now l → OnOk result (text.new.items ≡ before ++ held_text l) }
{
    let end = end_of_taken(tables);
    let mut channel = next_taken(tables, 0, end);
    while channel < CHANNELS {
        put_channel(text, texts, channel, taken_on(tables, channel))?;
        channel = next_taken(tables, channel + 1, end);
    }
    text.truncate(text.len().saturating_sub(SEPARATOR));
    Ok(())
}
