//! Parts of lines.

ghost use Rattle.std.specs.Prelude.{◌≡◌, ◌++◌, ◌<◌, ◌≤◌, ◌||◌, OnOk, decimal};
ghost use Rattle.fw_words.specs.Quadlet.{field};
ghost use Rattle.fw_watch_remarks.specs.Parts.{part, either, units_text, channel_at, channels_to, set_text, moved_channels, apart, moved_units, moved_text, mask_text, has_bit, next_owner, owners_to, manager_text, manager_clause};

use crate::known::{Known, bit};
use crate::register::WatchedRegister;
use fw_log_names::{Pairs, put_hex8, put_number, put_word};
use fw_words::Quadlet;
use std::alloc::AllocError;

// Appends a word and a number.
#[inline(always)]
pub fn put_part(text: &mut Vec<u8>, word: &str, n: u64) -> Result<(), AllocError>
    ensures { OnOk result (text.new.items ≡ text.old.items ++ part word.now n) }
{
    put_word(text, word)?;
    put_number(text, n)
}

// Appends a word and a number of 8 bits.
pub fn put_small(text: &mut Vec<u8>, word: &str, n: u8) -> Result<(), AllocError>
    ensures { OnOk result (text.new.items ≡ text.old.items ++ part word.now n) }
{
    put_part(text, word, u64::from(n))
}

// Appends a word and a number of 32 bits.
#[inline(always)]
pub fn put_wide(text: &mut Vec<u8>, word: &str, n: u32) -> Result<(), AllocError>
    ensures { OnOk result (text.new.items ≡ text.old.items ++ part word.now n) }
{
    put_part(text, word, u64::from(n))
}

// Appends a word and a field of a quadlet.
#[inline(always)]
pub fn put_field(
    text: &mut Vec<u8>,
    word: &str,
    quadlet: u32,
    first: u8,
    last: u8,
) -> Result<(), AllocError>
    requires order { first ≤ last }
    requires range { last ≤ 31 }
    ensures { OnOk result (text.new.items ≡ text.old.items ++ part word.now (field quadlet first last)) }
{
    put_wide(text, word, Quadlet(quadlet).field(first, last))
}

// Appends one word or another.
#[inline(always)]
#[tactic(auto, unfolding(crate::specs::Parts::either))]
pub fn put_either(text: &mut Vec<u8>, flag: bool, yes: &str, no: &str) -> Result<(), AllocError>
    ensures { OnOk result (text.new.items ≡ text.old.items ++ either flag yes.now no.now) }
{
    if flag {
        put_word(text, yes)
    } else {
        put_word(text, no)
    }
}

// Appends so many units.
#[tactic(auto, unfolding(crate::specs::Parts::units_text))]
pub fn put_units(text: &mut Vec<u8>, count: u32) -> Result<(), AllocError>
    ensures { OnOk result (text.new.items ≡ text.old.items ++ units_text count) }
{
    put_number(text, u64::from(count))?;
    put_word(text, if count == 1 { " unit" } else { " units" })
}

// Appends the channel at a bit of a set, if the bit is 1.
fn put_channel(text: &mut Vec<u8>, first: u8, set: u32, at: u8) -> Result<(), AllocError>
    requires { at < 32 }
    ensures { OnOk result (text.new.items ≡ text.old.items ++ channel_at at first set) }
{
    if !bit(set, at) {
        return Ok(());
    }
    put_part(text, " ", u64::from(first) + u64::from(at))
}

// Appends the channels of a set, whose first is `first`.
fn put_channels(text: &mut Vec<u8>, first: u8, set: u32) -> Result<(), AllocError>
    ensures { OnOk result (text.new.items ≡ text.old.items ++ channels_to 32 first set) }
{
    for at in 0..32 {
        put_channel(text, first, set, at)?;
    }
    Ok(())
}

// Appends the channels of a set after a word, if there are any.
#[tactic(auto, unfolding(crate::specs::Parts::set_text))]
fn put_set(text: &mut Vec<u8>, word: &str, first: u8, set: u32) -> Result<(), AllocError>
    ensures { OnOk result (text.new.items ≡ text.old.items ++ set_text word.now first set) }
{
    if set == 0 {
        return Ok(());
    }
    put_word(text, word)?;
    put_channels(text, first, set)
}

// Appends the channels that were taken and given back unseen.
#[tactic(auto, unfolding(crate::specs::Parts::moved_channels))]
fn put_moved_channels(
    text: &mut Vec<u8>,
    known: Known,
    found: u32,
    first: u8,
) -> Result<(), AllocError>
    ensures { OnOk result (text.new.items ≡ text.old.items ++ moved_channels known found first) }
{
    put_set(
        text,
        ", channels taken",
        first,
        known.word & !found & known.mask,
    )?;
    put_set(
        text,
        ", channels given back",
        first,
        found & !known.word & known.mask,
    )
}

// How far two numbers are apart.
pub fn apart(old: u32, new: u32) -> u32
    ensures { result ≡ apart old new }
{
    if new < old { old - new } else { new - old }
}

// Appends by how much the units left differ.
#[tactic(auto, unfolding(crate::specs::Parts::moved_units))]
fn put_moved_units(text: &mut Vec<u8>, old: u32, new: u32) -> Result<(), AllocError>
    ensures { OnOk result (text.new.items ≡ text.old.items ++ moved_units old new) }
{
    put_word(text, ", ")?;
    put_units(text, apart(old, new))?;
    put_either(text, new < old, " taken", " given back")
}

// Appends what changed unseen in a register.
#[tactic(auto, unfolding(crate::specs::Parts::moved_text))]
pub fn put_moved(
    text: &mut Vec<u8>,
    register: WatchedRegister,
    known: Known,
    found: u32,
) -> Result<(), AllocError>
    ensures { OnOk result (text.new.items ≡ text.old.items ++ moved_text register known found) }
{
    match register {
        WatchedRegister::Bandwidth => put_moved_units(text, known.word, found),
        WatchedRegister::ChannelsHigh => put_moved_channels(text, known, found, 0),
        WatchedRegister::ChannelsLow => put_moved_channels(text, known, found, 32),
        WatchedRegister::Output(_) | WatchedRegister::Input(_) => Ok(()),
    }
}

// Appends which bits were known, unless all were.
#[tactic(auto, unfolding(crate::specs::Parts::mask_text))]
pub fn put_mask(text: &mut Vec<u8>, pairs: &Pairs, mask: u32) -> Result<(), AllocError>
    ensures { OnOk result (text.new.items ≡ text.old.items ++ mask_text mask) }
{
    if mask == u32::MAX {
        return Ok(());
    }
    put_word(text, " of bits ")?;
    put_hex8(text, pairs, mask)
}

// A node of a set has a bit.
fn has_bit(owners: u64, node: u8) -> bool
    requires { node < 64 }
    ensures { result ≡ has_bit owners node }
{
    (owners >> node) % 2 == 1
}

// Appends a node of a set, if it has a bit, after others or as the first.
fn put_owner(text: &mut Vec<u8>, owners: u64, node: u8, others: bool) -> Result<(), AllocError>
    requires { node < 64 }
    ensures { OnOk result (text.new.items ≡ text.old.items ++ next_owner owners node others) }
{
    if !has_bit(owners, node) {
        return Ok(());
    }
    put_small(text, if others { " and " } else { " " }, node)
}

// One fact or another holds.
fn is_either(a: bool, b: bool) -> bool
    ensures { result ≡ (a || b) }
{
    a || b
}

// Appends the nodes of a set.
pub fn put_owners(text: &mut Vec<u8>, owners: u64) -> Result<(), AllocError>
    ensures { OnOk result (text.new.items ≡ text.old.items ++ owners_to 63 owners) }
{
    let mut others = false;
    for node in 0..63 {
        put_owner(text, owners, node, others)?;
        others = is_either(others, has_bit(owners, node));
    }
    Ok(())
}

// Appends the manager, or that there is none.
#[tactic(auto, unfolding(crate::specs::Parts::manager_text))]
pub fn put_manager(text: &mut Vec<u8>, manager: Option<u8>) -> Result<(), AllocError>
    ensures { OnOk result (text.new.items ≡ text.old.items ++ manager_text manager) }
{
    match manager {
        Some(node) => put_small(text, "node ", node),
        None => put_word(text, "none"),
    }
}

// Appends who is the manager, or that there is none.
#[tactic(auto, unfolding(crate::specs::Parts::manager_clause))]
pub fn put_manager_clause(text: &mut Vec<u8>, manager: Option<u8>) -> Result<(), AllocError>
    ensures { OnOk result (text.new.items ≡ text.old.items ++ manager_clause manager) }
{
    match manager {
        Some(node) => put_small(text, "that is node ", node),
        None => put_word(text, "there is none"),
    }
}
