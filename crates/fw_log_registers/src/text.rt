//! What stands at an offset as text, and what its word says.

ghost use Rattle.std.specs.Prelude.{◌≡◌, ◌++◌};
ghost use Rattle.fw_log_registers.specs.Words.{place_text, told_text, word_text};

use crate::fields::put_register;
use crate::place::RegisterPlace;
use crate::told::RegisterValue;
use fw_text::Text;

/// Says what stands at an offset: the name of a register, with its index if there is more than one of it, or the offset's twelve
/// hexadecimal digits.
#[tactic(auto, unfolding(crate::specs::Words::place_text))]
pub fn put_place(text: &mut Text, place: RegisterPlace)
    ensures { text.new ≡ text.old ++ place_text place }
{
    match place {
        RegisterPlace::Named(register, index) => {
            text.word(register.name());
            if register.is_row() {
                text.word("[");
                text.number(u64::from(index));
                text.word("]");
            }
        }
        RegisterPlace::Unnamed(offset) => {
            text.word("offset ");
            text.hex12(offset);
        }
    }
}

/// Says what a word says that stands at a place, or what a swap there changes; nothing if the place has no fields. Each part begins
/// with a comma and a space.
#[tactic(auto, unfolding(crate::specs::Words::told_text))]
pub fn put_told(text: &mut Text, place: RegisterPlace, told: RegisterValue)
    ensures { text.new ≡ text.old ++ told_text told place }
{
    if let RegisterPlace::Named(register, _) = place {
        put_register(text, told, register);
    }
}

/// Says a space, a word that stands at a place in eight hexadecimal digits, and what it says.
#[tactic(auto, unfolding(crate::specs::Words::word_text))]
pub fn put_register_word(text: &mut Text, place: RegisterPlace, word: u32)
    ensures { text.new ≡ text.old ++ word_text place word }
{
    text.quadlet(word);
    put_told(text, place, RegisterValue::Word(word));
}
