//! What words and swaps of registers say, with names in place of numbers.

ghost use Rattle.std.specs.Prelude.{◌≡◌, ◌++◌, ◌≤◌, OnOk, codes, decimal};
ghost use Rattle.fw_words.specs.Quadlet.{field};
ghost use Rattle.fw_trace_names.specs.Registers.{number_told, connections_told, holder_is, holder_told, manager_told, named_told, named_word};

use crate::naming::Names;
use crate::parts::put_part;
use fw_log_names::{Pairs, put_quadlet, put_word};
use fw_log_registers::{NamedRegister, RegisterPlace, RegisterValue, append_told};
use fw_words::Quadlet;
use std::alloc::AllocError;

// Appends a number of a register with its label, or how a swap changes it if it does.
#[tactic(auto, unfolding(crate::specs::Registers::number_told))]
fn put_field(
    text: &mut Vec<u8>,
    told: RegisterValue,
    label: &str,
    first: u8,
    last: u8,
) -> Result<(), AllocError>
    requires order { first ≤ last }
    requires range { last ≤ 31 }
    ensures { OnOk result (text.new.items ≡ text.old.items ++ number_told told label.now first last) }
{
    match told {
        RegisterValue::Word(word) => put_number_of(text, label, Quadlet(word).field(first, last)),
        RegisterValue::Swap { old, new } => {
            let from = Quadlet(old).field(first, last);
            let to = Quadlet(new).field(first, last);
            if from == to {
                return Ok(());
            }
            put_number_of(text, label, from)?;
            put_part(text, " to ", u64::from(to))
        }
    }
}

// Appends a label after a comma, and a number.
fn put_number_of(text: &mut Vec<u8>, label: &str, n: u32) -> Result<(), AllocError>
    ensures { OnOk result (text.new.items ≡ text.old.items ++ (codes ", " ++ label.now ++ codes " " ++ decimal n)) }
{
    put_word(text, ", ")?;
    put_word(text, label)?;
    put_part(text, " ", u64::from(n))
}

// Appends how a plug is connected.
fn put_connections(text: &mut Vec<u8>, told: RegisterValue) -> Result<(), AllocError>
    ensures { OnOk result (text.new.items ≡ text.old.items ++ connections_told told) }
{
    put_field(text, told, "broadcast", 1, 1)?;
    put_field(text, told, "point-to-point", 2, 7)?;
    put_field(text, told, "channel", 10, 15)
}

// The node number in BUS_MANAGER_ID.
fn holder_of(word: u32) -> u32
    ensures { result ≡ field word 26 31 }
{
    Quadlet(word).field(26, 31)
}

// Appends who is bus manager.
#[tactic(auto, unfolding(crate::specs::Registers::holder_is))]
fn put_holder(text: &mut Vec<u8>, names: &Names, number: u32) -> Result<(), AllocError>
    ensures { OnOk result (text.new.items ≡ text.old.items ++ holder_is names.now number) }
{
    put_word(text, ", bus manager ")?;
    names.put_holder(text, number)
}

// Appends who was bus manager, and who is after a swap.
#[tactic(auto, unfolding(crate::specs::Registers::holder_told))]
fn put_change(text: &mut Vec<u8>, names: &Names, old: u32, new: u32) -> Result<(), AllocError>
    ensures { OnOk result (text.new.items ≡ text.old.items ++ holder_told names.now old new) }
{
    put_word(text, ", bus manager ")?;
    names.put_holder(text, old)?;
    put_word(text, " to ")?;
    names.put_holder(text, new)
}

// Appends what is told of BUS_MANAGER_ID.
#[tactic(auto, unfolding(crate::specs::Registers::manager_told))]
fn put_manager(text: &mut Vec<u8>, names: &Names, told: RegisterValue) -> Result<(), AllocError>
    ensures { OnOk result (text.new.items ≡ text.old.items ++ manager_told names.now told) }
{
    match told {
        RegisterValue::Word(word) => put_holder(text, names, holder_of(word)),
        RegisterValue::Swap { old, new } => {
            let from = holder_of(old);
            let to = holder_of(new);
            if from == to {
                return Ok(());
            }
            put_change(text, names, from, to)
        }
    }
}

/// Appends what a word says that stands at a place, or what a swap there changes; nothing of a place of which nothing is told.
/// An error says that memory ran out, and comes for nothing else: a part of the text may be appended then.
#[tactic(auto, unfolding(crate::specs::Registers::named_told))]
pub fn put_named_told(
    text: &mut Vec<u8>,
    names: &Names,
    place: RegisterPlace,
    told: RegisterValue,
) -> Result<(), AllocError>
    ensures { OnOk result (text.new.items ≡ text.old.items ++ named_told names.now place told) }
{
    match place {
        RegisterPlace::Named(NamedRegister::OutputPlug | NamedRegister::InputPlug, _) => {
            put_connections(text, told)
        }
        RegisterPlace::Named(NamedRegister::BusManagerId, _) => put_manager(text, names, told),
        other => append_told(text, other, told),
    }
}

/// Appends a word that stands at a place, after a space, and what it says. An error says that memory ran out, and comes for nothing else: a part of the text may be appended then.
#[tactic(auto, unfolding(crate::specs::Registers::named_word))]
pub fn put_named_word(
    text: &mut Vec<u8>,
    pairs: &Pairs,
    names: &Names,
    place: RegisterPlace,
    word: u32,
) -> Result<(), AllocError>
    ensures { OnOk result (text.new.items ≡ text.old.items ++ named_word names.now place word) }
{
    put_quadlet(text, pairs, word)?;
    put_named_told(text, names, place, RegisterValue::Word(word))
}
