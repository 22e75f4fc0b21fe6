//! What is told of a place, as text.

ghost use Rattle.std.specs.Prelude.{◌≡◌, ◌++◌, OnOk, Some, codes};
ghost use Rattle.fw_log_registers.specs.Words.{place_text};
ghost use Rattle.fw_trace_names.specs.Registers.{changes_of, named_word};
ghost use Rattle.fw_trace_requests.specs.Answers.{if_made, made_text, not_made_text, swap_asked};
ghost use Rattle.fw_trace_requests.specs.Carried.{frame_told};
ghost use Rattle.fw_trace_requests.specs.Phrases.{words_text};

use crate::carried::{Carried, put_frame_of};
use crate::phrase::Words;
use fw_log_names::{Pairs, put_quadlet, put_word};
use fw_log_registers::{RegisterPlace, RegisterValue, append_place};
use fw_trace_names::{Names, put_named_told, put_named_word};
use fw_words::Swap;
use std::alloc::AllocError;

// Appends a word, and what stands at a place.
fn put_at(text: &mut Vec<u8>, word: &str, place: RegisterPlace) -> Result<(), AllocError>
    ensures { OnOk result (text.new.items ≡ text.old.items ++ (word.now ++ place_text place)) }
{
    put_word(text, word)?;
    append_place(text, place)
}

// Appends a swap that is asked.
#[tactic(auto, unfolding(crate::specs::Answers::swap_asked))]
fn put_swap_asked(
    text: &mut Vec<u8>,
    pairs: &Pairs,
    place: RegisterPlace,
    swap: Option<Swap>,
) -> Result<(), AllocError>
    ensures { OnOk result (text.new.items ≡ text.old.items ++ swap_asked place swap) }
{
    let Some(swap) = swap else {
        return put_at(text, "lock ", place);
    };
    put_at(text, "swap ", place)?;
    put_quadlet(text, pairs, swap.argument)?;
    put_word(text, " to")?;
    put_quadlet(text, pairs, swap.new)
}

// Appends what a swap at a place changes.
fn put_changes_of(
    text: &mut Vec<u8>,
    names: &Names,
    place: RegisterPlace,
    swap: Swap,
) -> Result<(), AllocError>
    ensures { OnOk result (text.new.items ≡ text.old.items ++ changes_of names.now place swap) }
{
    let told = RegisterValue::Swap {
        old: swap.argument,
        new: swap.new,
    };
    put_named_told(text, names, place, told)
}

// Appends a read that is asked, and the word that it brings.
fn put_read(
    text: &mut Vec<u8>,
    pairs: &Pairs,
    names: &Names,
    place: RegisterPlace,
    word: u32,
) -> Result<(), AllocError>
    ensures { OnOk result (text.new.items ≡ text.old.items ++ (codes "read " ++ place_text place ++ named_word names.now place word)) }
{
    put_at(text, "read ", place)?;
    put_named_word(text, pairs, names, place, word)
}

// Appends what a swap at a place would change that no answer has decided.
#[tactic(auto, unfolding(crate::specs::Answers::if_made))]
pub(crate) fn put_if_made(
    text: &mut Vec<u8>,
    names: &Names,
    place: RegisterPlace,
    swap: Swap,
) -> Result<(), AllocError>
    ensures { OnOk result (text.new.items ≡ text.old.items ++ if_made (changes_of names.now place swap)) }
{
    let before = text.len();
    put_word(text, "; if made")?;
    let begins = text.len();
    put_changes_of(text, names, place, swap)?;
    if text.len() == begins {
        text.truncate(before);
    }
    Ok(())
}

// Appends a swap that is asked, and what it would change.
fn put_proposed(
    text: &mut Vec<u8>,
    pairs: &Pairs,
    names: &Names,
    place: RegisterPlace,
    swap: Swap,
) -> Result<(), AllocError>
    ensures { OnOk result (text.new.items ≡ text.old.items ++ (swap_asked place (Some swap) ++ if_made (changes_of names.now place swap))) }
{
    put_swap_asked(text, pairs, place, Some(swap))?;
    put_if_made(text, names, place, swap)
}

// Appends that a swap was not made that found this word.
#[tactic(auto, unfolding(crate::specs::Answers::not_made_text))]
fn put_not_made(
    text: &mut Vec<u8>,
    pairs: &Pairs,
    names: &Names,
    place: RegisterPlace,
    word: u32,
) -> Result<(), AllocError>
    ensures { OnOk result (text.new.items ≡ text.old.items ++ not_made_text names.now place word) }
{
    put_word(text, ": not made,")?;
    put_named_word(text, pairs, names, place, word)
}

// Appends whether a swap was made that found this word.
#[tactic(auto, unfolding(crate::specs::Answers::made_text))]
fn put_made(
    text: &mut Vec<u8>,
    pairs: &Pairs,
    names: &Names,
    place: RegisterPlace,
    swap: Swap,
    word: u32,
) -> Result<(), AllocError>
    ensures { OnOk result (text.new.items ≡ text.old.items ++ made_text names.now place swap word) }
{
    if word == swap.argument {
        put_word(text, ": made")?;
        put_changes_of(text, names, place, swap)
    } else {
        put_not_made(text, pairs, names, place, word)
    }
}

// Appends a swap that is asked, and the word that it finds.
fn put_swapped(
    text: &mut Vec<u8>,
    pairs: &Pairs,
    names: &Names,
    place: RegisterPlace,
    swap: Swap,
    word: u32,
) -> Result<(), AllocError>
    ensures { OnOk result (text.new.items ≡ text.old.items ++ (swap_asked place (Some swap) ++ made_text names.now place swap word)) }
{
    put_swap_asked(text, pairs, place, Some(swap))?;
    put_made(text, pairs, names, place, swap, word)
}

// Appends a write that is asked, and the frame that it carries.
fn put_written(text: &mut Vec<u8>, place: RegisterPlace, carried: Carried) -> Result<(), AllocError>
    ensures { OnOk result (text.new.items ≡ text.old.items ++ (codes "write " ++ place_text place ++ frame_told carried)) }
{
    put_at(text, "write ", place)?;
    put_frame_of(text, carried)
}

// Appends what is told of a place.
#[tactic(auto, unfolding(crate::specs::Phrases::words_text))]
pub(crate) fn put_words(
    text: &mut Vec<u8>,
    pairs: &Pairs,
    names: &Names,
    place: RegisterPlace,
    words: Words,
) -> Result<(), AllocError>
    ensures { OnOk result (text.new.items ≡ text.old.items ++ words_text names.now place words) }
{
    match words {
        Words::Write => put_at(text, "write ", place),
        Words::Read => put_at(text, "read ", place),
        Words::Lock(swap) => put_swap_asked(text, pairs, place, swap),
        Words::Word(word) => put_named_word(text, pairs, names, place, word),
        Words::Change(swap) => put_changes_of(text, names, place, swap),
        Words::Brought(word) => put_read(text, pairs, names, place, word),
        Words::Proposed(swap) => put_proposed(text, pairs, names, place, swap),
        Words::Swapped(swap, word) => put_swapped(text, pairs, names, place, swap, word),
        Words::Written(carried) => put_written(text, place, carried),
    }
}
