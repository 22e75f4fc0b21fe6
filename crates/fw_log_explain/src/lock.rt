//! Locks in words: what a swap is to change, and what it did.

ghost use Rattle.std.specs.Prelude.{◌≡◌, ◌++◌, OnOk};
ghost use Rattle.std.specs.Option.{option_copied};
ghost use Rattle.fw_log_registers.specs.Places.{place_of};
ghost use Rattle.fw_log_registers.specs.Words.{told_text};
ghost use Rattle.fw_words.specs.Swaps.{quadlet_swap};
ghost use Rattle.fw_log_explain.specs.Lines.{at_text, function_text, swap_text, lock_text, made_text, swapped_text, found_text, old_text};

use crate::parts::put_named_part;
use fw_log_names::{Pairs, function_name, put_quadlet, put_quadlets, put_word};
use fw_log_registers::{RegisterPlace, RegisterValue, append_place, append_told};
use fw_log_requests::Asked;
use fw_words::{COMPARE_SWAP, Swap, quadlet_at};
use std::alloc::AllocError;

// Appends where a request is.
#[tactic(auto, unfolding(crate::specs::Lines::at_text))]
pub(crate) fn put_at(text: &mut Vec<u8>, place: RegisterPlace) -> Result<(), AllocError>
    ensures { OnOk result (text.new.items ≡ text.old.items ++ at_text place) }
{
    put_word(text, " ")?;
    append_place(text, place)
}

// Appends a lock's function.
#[tactic(auto, unfolding(crate::specs::Lines::function_text))]
pub(crate) fn put_function(text: &mut Vec<u8>, function: u8) -> Result<(), AllocError>
    ensures { OnOk result (text.new.items ≡ text.old.items ++ function_text function) }
{
    put_named_part(
        text,
        " ",
        function_name(function),
        "extended_tcode",
        u64::from(function),
    )
}

// What a swap is told as.
fn told(s: Swap) -> RegisterValue
    ensures { result ≡ RegisterValue.Swap s.argument s.new }
{
    RegisterValue::Swap {
        old: s.argument,
        new: s.new,
    }
}

// Appends the two words of a swap, and what it changes.
#[tactic(auto, unfolding(crate::specs::Lines::swap_text))]
pub(crate) fn put_swap(
    text: &mut Vec<u8>,
    pairs: &Pairs,
    place: RegisterPlace,
    s: Swap,
) -> Result<(), AllocError>
    ensures { OnOk result (text.new.items ≡ text.old.items ++ swap_text place s) }
{
    put_quadlet(text, pairs, s.argument)?;
    put_word(text, " to")?;
    put_quadlet(text, pairs, s.new)?;
    append_told(text, place, told(s))
}

// Appends a lock request.
#[tactic(auto, unfolding(crate::specs::Lines::lock_text))]
pub(crate) fn put_lock(
    text: &mut Vec<u8>,
    pairs: &Pairs,
    place: RegisterPlace,
    function: u8,
    bytes: &[u8],
) -> Result<(), AllocError>
    ensures { OnOk result (text.new.items ≡ text.old.items ++ lock_text place function bytes.now (quadlet_swap function bytes.now)) }
{
    put_function(text, function)?;
    put_at(text, place)?;
    match Swap::of_lock(function, bytes) {
        Some(s) => put_swap(text, pairs, place, s),
        None => put_quadlets(text, pairs, bytes),
    }
}

// Appends words, and what is told of a place.
fn put_verdict(
    text: &mut Vec<u8>,
    words: &str,
    place: RegisterPlace,
    told: RegisterValue,
) -> Result<(), AllocError>
    ensures { OnOk result (text.new.items ≡ text.old.items ++ (words.now ++ told_text told place)) }
{
    put_word(text, words)?;
    append_told(text, place, told)
}

// Appends whether a swap was made that found this word, and what that changed or left.
#[tactic(auto, unfolding(crate::specs::Lines::made_text))]
fn put_made(text: &mut Vec<u8>, place: RegisterPlace, s: Swap, old: u32) -> Result<(), AllocError>
    ensures { OnOk result (text.new.items ≡ text.old.items ++ made_text place s old) }
{
    if old == s.argument {
        put_verdict(text, ", swap made", place, told(s))
    } else {
        put_verdict(text, ", no swap", place, RegisterValue::Word(old))
    }
}

// Appends the word that a swap found, and what it did.
#[tactic(auto, unfolding(crate::specs::Lines::swapped_text))]
pub(crate) fn put_swapped(
    text: &mut Vec<u8>,
    pairs: &Pairs,
    place: RegisterPlace,
    s: Swap,
    old: u32,
) -> Result<(), AllocError>
    ensures { OnOk result (text.new.items ≡ text.old.items ++ swapped_text place s old) }
{
    put_quadlet(text, pairs, old)?;
    put_made(text, place, s, old)
}

// Appends the old value that a lock brings from a place, by the swap that was asked there.
#[tactic(auto, unfolding(crate::specs::Lines::found_text))]
fn put_found(
    text: &mut Vec<u8>,
    pairs: &Pairs,
    q: &Asked,
    function: u8,
    bytes: &[u8],
) -> Result<(), AllocError>
    ensures { OnOk result (text.new.items ≡ text.old.items ++ found_text (place_of q.now.offset) q.now.swap function bytes.now) }
{
    match q.swap {
        Some(s) if function == COMPARE_SWAP && bytes.len() == 4 => {
            put_swapped(
                text,
                pairs,
                RegisterPlace::of(q.offset),
                s,
                quadlet_at(bytes, 0).0,
            )
        }
        _ => put_quadlets(text, pairs, bytes),
    }
}

// Appends the old value that a lock response brings.
#[tactic(auto, unfolding(crate::specs::Lines::old_text))]
pub(crate) fn put_old(
    text: &mut Vec<u8>,
    pairs: &Pairs,
    q: Option<&Asked>,
    function: u8,
    bytes: &[u8],
) -> Result<(), AllocError>
    ensures { OnOk result (text.new.items ≡ text.old.items ++ old_text (option_copied q.entry) function bytes.now) }
{
    match q {
        Some(q) => put_found(text, pairs, q, function, bytes),
        None => put_quadlets(text, pairs, bytes),
    }
}
