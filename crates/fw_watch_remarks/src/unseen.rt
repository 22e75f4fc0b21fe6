//! The line of a word that changed unseen.

ghost use Rattle.std.specs.Prelude.{◌≡◌, ◌++◌, OnOk};
ghost use Rattle.fw_watch_remarks.specs.Remarks.{place_found, known_text, found_text, changed_text, unseen_text};

use crate::known::Known;
use crate::parts::{put_mask, put_moved};
use crate::register::{At, WatchedRegister, put_at};
use fw_log_names::{Pairs, put_hex8, put_word};
use std::alloc::AllocError;

// Appends where a word was found.
#[tactic(auto, unfolding(crate::specs::Remarks::place_found))]
fn put_place_found(text: &mut Vec<u8>, at: At) -> Result<(), AllocError>
    ensures { OnOk result (text.new.items ≡ text.old.items ++ place_found at) }
{
    put_word(text, "? ")?;
    put_at(text, at)?;
    put_word(text, " is ")
}

// Appends what was known.
#[tactic(auto, unfolding(crate::specs::Remarks::known_text))]
fn put_known(text: &mut Vec<u8>, pairs: &Pairs, known: Known) -> Result<(), AllocError>
    ensures { OnOk result (text.new.items ≡ text.old.items ++ known_text known) }
{
    put_word(text, ", ")?;
    put_hex8(text, pairs, known.word & known.mask)?;
    put_word(text, " was known")
}

// Appends what was found in a register, and what was known of it.
#[tactic(auto, unfolding(crate::specs::Remarks::found_text))]
fn put_found(
    text: &mut Vec<u8>,
    pairs: &Pairs,
    at: At,
    known: Known,
    found: u32,
) -> Result<(), AllocError>
    ensures { OnOk result (text.new.items ≡ text.old.items ++ found_text at known found) }
{
    put_place_found(text, at)?;
    put_hex8(text, pairs, found)?;
    put_known(text, pairs, known)
}

// Appends that a word changed, and what.
#[tactic(auto, unfolding(crate::specs::Remarks::changed_text))]
fn put_changed(
    text: &mut Vec<u8>,
    pairs: &Pairs,
    register: WatchedRegister,
    known: Known,
    found: u32,
) -> Result<(), AllocError>
    ensures { OnOk result (text.new.items ≡ text.old.items ++ changed_text register known found) }
{
    put_mask(text, pairs, known.mask)?;
    put_word(text, ": changed unseen")?;
    put_moved(text, register, known, found)
}

// Appends a word that changed unseen.
#[tactic(auto, unfolding(crate::specs::Remarks::unseen_text))]
pub fn put_unseen(
    text: &mut Vec<u8>,
    pairs: &Pairs,
    at: At,
    known: Known,
    found: u32,
) -> Result<(), AllocError>
    ensures { OnOk result (text.new.items ≡ text.old.items ++ unseen_text at known found) }
{
    put_found(text, pairs, at, known, found)?;
    put_changed(text, pairs, at.register, known, found)
}
