//! Words with what stands after them.

ghost use Rattle.std.specs.Prelude.{◌≡◌, ◌++◌, OnOk, decimal};
ghost use Rattle.std.specs.Option.{option_copied};
ghost use Rattle.fw_text.specs.Texts.{named, quadlet_text};
ghost use Rattle.fw_log_explain.specs.Lines.{block_text};
ghost use Rattle.fw_log_explain.specs.Resets.{flag_text};

use fw_log_names::{Pairs, put_blank_hex, put_named, put_number, put_quadlet, put_word};
use std::alloc::AllocError;

// Appends a text that is at hand.
#[inline(always)]
pub(crate) fn put_text(text: &mut Vec<u8>, more: &[u8]) -> Result<(), AllocError>
    ensures { OnOk result (text.new.items ≡ text.old.items ++ more.now) }
{
    text.extend_from_slice(more)
}

// Appends a word and a number.
#[inline(always)]
pub(crate) fn put_part(text: &mut Vec<u8>, word: &str, n: u64) -> Result<(), AllocError>
    ensures { OnOk result (text.new.items ≡ text.old.items ++ (word.now ++ decimal n)) }
{
    put_word(text, word)?;
    put_number(text, n)
}

// Appends a word and a quadlet.
#[inline(always)]
pub(crate) fn put_word_part(
    text: &mut Vec<u8>,
    pairs: &Pairs,
    word: &str,
    quadlet: u32,
) -> Result<(), AllocError>
    ensures { OnOk result (text.new.items ≡ text.old.items ++ (word.now ++ quadlet_text quadlet)) }
{
    put_word(text, word)?;
    put_quadlet(text, pairs, quadlet)
}

// Appends a word, and the name that a table has for a number, or another word and the number.
#[inline(always)]
pub(crate) fn put_named_part(
    text: &mut Vec<u8>,
    word: &str,
    name: Option<&str>,
    other: &str,
    number: u64,
) -> Result<(), AllocError>
    ensures { OnOk result (text.new.items ≡ text.old.items ++ (word.now ++ named (option_copied name.entry) other.now number)) }
{
    put_word(text, word)?;
    put_named(text, name, other, number)
}

// Appends one word or another.
#[inline(always)]
#[tactic(auto, unfolding(crate::specs::Resets::flag_text))]
pub(crate) fn put_flag(
    text: &mut Vec<u8>,
    flag: bool,
    yes: &str,
    no: &str,
) -> Result<(), AllocError>
    ensures { OnOk result (text.new.items ≡ text.old.items ++ flag_text flag yes.now no.now) }
{
    put_word(text, if flag { yes } else { no })
}

// Appends how many bytes a block has, and their digits.
#[tactic(auto, unfolding(crate::specs::Lines::block_text))]
pub(crate) fn put_block(text: &mut Vec<u8>, pairs: &Pairs, bytes: &[u8]) -> Result<(), AllocError>
    ensures { OnOk result (text.new.items ≡ text.old.items ++ block_text bytes.now) }
{
    put_part(text, " data_length ", bytes.len() as u64)?;
    put_blank_hex(text, pairs, bytes)
}
