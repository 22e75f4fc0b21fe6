//! What is told of a field.

ghost use Rattle.std.specs.Prelude.{◌≡◌, ◌++◌, ◌≤◌, codes};
ghost use Rattle.fw_log_registers.specs.Words.{amount_text, difference_text, change_text, field_at, told_field};

use crate::shown::{Amount, Shown, put_value};
use fw_text::Text;
use fw_words::Quadlet;

/// A field of a word: its label, its first and last bit, and how its value is shown.
pub type Field = (&'static str, u8, u8, Shown);

/// What is told of a register.
#[derive(Clone, Copy)]
pub enum RegisterValue {
    /// The word that it holds, or that is written to it.
    Word(u32),
    /// A swap of one word for another.
    Swap { old: u32, new: u32 },
}

// Says a label after a comma.
#[inline(always)]
fn put_label(text: &mut Text, label: &str)
    ensures { text.new ≡ text.old ++ codes ", " ++ label.now ++ codes " " }
{
    text.word(", ");
    text.word(label);
    text.word(" ");
}

// Says how much less or more there is of an amount.
fn put_amount(text: &mut Text, lead: &str, noun: &str, count: u32)
    ensures { text.new ≡ text.old ++ amount_text lead.now noun.now count }
{
    put_label(text, lead);
    text.number(u64::from(count));
    text.word(" ");
    text.word(noun);
    text.word(if count == 1 { "" } else { "s" });
}

fn put_difference(text: &mut Text, amount: Amount, old: u32, new: u32)
    ensures { text.new ≡ text.old ++ difference_text amount old new }
{
    if new < old {
        put_amount(text, amount.less(), amount.noun(), old - new);
    } else {
        put_amount(text, amount.more(), amount.noun(), new - old);
    }
}

// Says the change of a field's value.
#[inline(never)]
fn put_change(text: &mut Text, label: &str, shown: Shown, old: u32, new: u32)
    ensures { text.new ≡ text.old ++ change_text label.now shown old new }
{
    if let Shown::Counted(amount) = shown {
        return put_difference(text, amount, old, new);
    }
    put_label(text, label);
    put_value(text, shown, old);
    text.word(" to ");
    put_value(text, shown, new);
}

// Says what is told of a field: its label and its value, or how a swap changes it if it does.
#[tactic(auto, unfolding(crate::specs::Words::told_field))]
pub(crate) fn put_field(text: &mut Text, told: RegisterValue, field: &Field)
    requires order { field.now.1 ≤ field.now.2 }
    requires range { field.now.2 ≤ 31 }
    ensures { text.new ≡ text.old ++ told_field told (field_at field.now.0.now field.now.1 field.now.2 field.now.3) }
{
    let (label, first, last, shown) = *field;
    match told {
        RegisterValue::Word(word) => {
            put_label(text, label);
            put_value(text, shown, Quadlet(word).field(first, last));
        }
        RegisterValue::Swap { old, new } => {
            let from = Quadlet(old).field(first, last);
            let to = Quadlet(new).field(first, last);
            if from != to {
                put_change(text, label, shown, from, to);
            }
        }
    }
}
