//! The first word that a form refuses.

ghost use Rattle.std.specs.Prelude.{◌≡◌, ◌≤◌, length};
ghost use Rattle.fw_script_command.specs.Form.{after_first};
ghost use Rattle.fw_check.specs.Misfits.{first_misfit, misfit_at, surplus_at};

use fw_script_command::{Pieces, WordType};

/// The first word that a form refuses, by its number from 1 in the line.
#[derive(Clone, Copy)]
pub enum Misfit {
    /// The word is missing, and is to be of this type.
    Missing(u8, WordType),
    /// The word is not of this type.
    Unfit(u8, WordType),
    /// The form has no such word.
    Extra(u8),
}

// The next word, if it is missing or not of this type.
fn misfit_at(number: u8, ty: WordType, words: &mut Pieces) -> Option<Misfit>
    ensures found { result ≡ misfit_at number ty words.old }
    ensures left { words.new ≡ after_first words.old }
{
    let Some(word) = words.next() else {
        return if ty.may_lack() {
            None
        } else {
            Some(Misfit::Missing(number, ty))
        };
    };
    if ty.fits(word) {
        None
    } else {
        Some(Misfit::Unfit(number, ty))
    }
}

// The next word, if there is one too many.
fn surplus_at(number: u8, words: &mut Pieces) -> Option<Misfit>
    ensures { result ≡ surplus_at number words.old }
{
    match words.next() {
        Some(_) => Some(Misfit::Extra(number)),
        None => None,
    }
}

/// The first of these words, which stand after the first of a line, that is missing, is not of its type, or is one too many.
pub(crate) fn first_misfit(types: &[WordType], words: &mut Pieces) -> Option<Misfit>
    requires { length types.now ≤ 8 }
    ensures { result ≡ first_misfit 2 types.now words.old }
{
    let mut number = 2;
    for ty in types {
        if let Some(misfit) = misfit_at(number, *ty, words) {
            return Some(misfit);
        }
        number += 1;
    }
    surplus_at(number, words)
}
