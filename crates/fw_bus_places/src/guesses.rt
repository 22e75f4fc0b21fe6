//! What followed last: most half steps lead from one part to one other.

ghost use Rattle.std.specs.Prelude.{◌≡◌, ◌<◌, IfOk, IsTrue, OnOk, length, slice_index_or};
ghost use Rattle.fw_kept_parts.specs.Tables.{Keeps, KeepsAll};

use crate::numbers::number_at;
use fw_kept_parts::{Full, Part, Table};
use std::alloc::{AllocError, Global};
use std::marker::Model;

/// A number that no part has.
const NO_NUMBER: u32 = 0xFFFF_FFFF;

/// How many guesses there are of what follows one part.
pub(crate) const FEW_GUESSES: usize = 4096;

/// How many of what follows two parts, of which there are many pairs.
pub(crate) const MANY_GUESSES: usize = 65_536;

/// The number of the part that came last after what has a key. It is only where a part is looked for first.
#[derive(Drop)]
pub(crate) struct Guesses {
    last: Vec<u32>,
}

impl Model for Guesses {
    ghost use Rattle.std.specs.Prelude.{⊤};

    ghost Value = { ⊤ };

    ghost view = { λ _. tt };
}

impl Guesses {
    /// Nothing came yet. Guesses are a power of two.
    pub(crate) fn new(alloc: Global, guesses: usize) -> Result<Guesses, AllocError> {
        Ok(Guesses {
            last: vec![in alloc; 0; guesses]?,
        })
    }

    // The place of a key: its bits are spread over all (the golden ratio, times 2^32).
    fn place(&self, key: u32) -> usize {
        let spread = key.wrapping_mul(0x9E37_79B9) >> 12;
        spread as usize & self.last.len().wrapping_sub(1)
    }

    fn get(&self, key: u32) -> u32 {
        match self.last.get(self.place(key)) {
            Some(number) => *number,
            None => 0,
        }
    }

    fn set(&mut self, key: u32, number: u32) {
        let place = self.place(key);
        match self.last.get_mut(place) {
            Some(last) => *last = number,
            None => {}
        }
    }
}

// Whether this is the number of the part of a whole.
fn has<T: Part>(kept: &Table<T>, number: u32, whole: &T::Whole) -> bool
    ensures { IsTrue result → (number < length kept.now) × ((d : T) → T.IsOf (slice_index_or kept.now number d) whole.now) }
{
    match kept.as_slice().get(number as usize) {
        Some(part) => part.is_of(whole),
        None => false,
    }
}

/// The number of the part of a whole, which is kept if none is found: the one that came last after this key is looked at before all others.
pub(crate) fn keep_guessed<T: Part>(
    kept: &mut Table<T>,
    guesses: &mut Guesses,
    key: u32,
    whole: &T::Whole,
) -> Result<u32, Full>
    ensures { IfOk result (λ number. Keeps T.IsOf kept.old kept.new whole.now number) }
{
    let guess = guesses.get(key);
    if has(kept, guess, whole) {
        return Ok(guess);
    }
    let number = kept.keep(NO_NUMBER, whole)?;
    guesses.set(key, number);
    Ok(number)
}

/// Appends the numbers of the parts of wholes, in their order. The one that came last after the number at its place in `near` is looked at
/// before all others.
pub(crate) fn keep_all_guessed<T: Part>(
    kept: &mut Table<T>,
    guesses: &mut Guesses,
    near: &[u32],
    wholes: &[T::Whole],
    out: &mut Vec<u32>,
) -> Result<(), Full>
    ensures { OnOk result (KeepsAll T.IsOf kept.old kept.new wholes.now out.old.items out.new.items) }
{
    for k in 0..wholes.len() {
        out.push(keep_guessed(kept, guesses, number_at(near, k), &wholes[k])?)?;
    }
    Ok(())
}
