//! The same after a text that may fail, for those that do not say a `Text` yet. An error says that memory ran out, and comes for
//! nothing else.

ghost use Rattle.std.specs.Prelude.{◌≡◌, ◌++◌, OnOk};
ghost use Rattle.fw_log_registers.specs.Words.{place_text, told_text, word_text};

use crate::place::RegisterPlace;
use crate::text::{put_place, put_register_word, put_told};
use crate::told::RegisterValue;
use fw_text::Text;
use std::alloc::AllocError;
use std::mem;

// The text, to be said more of.
fn taken(text: &mut Vec<u8>) -> Text
    ensures { result ≡ text.old.items }
{
    let alloc = *text.allocator();
    Text::after(mem::replace(text, Vec::new(alloc)))
}

/// Appends what stands at an offset.
pub fn append_place(text: &mut Vec<u8>, place: RegisterPlace) -> Result<(), AllocError>
    ensures { OnOk result (text.new.items ≡ text.old.items ++ place_text place) }
{
    let mut said = taken(text);
    put_place(&mut said, place);
    *text = said.into_bytes()?;
    Ok(())
}

/// Appends what a word says that stands at a place, or what a swap there changes.
pub fn append_told(
    text: &mut Vec<u8>,
    place: RegisterPlace,
    told: RegisterValue,
) -> Result<(), AllocError>
    ensures { OnOk result (text.new.items ≡ text.old.items ++ told_text told place) }
{
    let mut said = taken(text);
    put_told(&mut said, place, told);
    *text = said.into_bytes()?;
    Ok(())
}

/// Appends a space, a word that stands at a place, and what it says.
pub fn append_register_word(
    text: &mut Vec<u8>,
    place: RegisterPlace,
    word: u32,
) -> Result<(), AllocError>
    ensures { OnOk result (text.new.items ≡ text.old.items ++ word_text place word) }
{
    let mut said = taken(text);
    put_register_word(&mut said, place, word);
    *text = said.into_bytes()?;
    Ok(())
}
