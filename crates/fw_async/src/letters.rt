//! What stands on a wire, kept apart from it.

ghost use Rattle.std.specs.Prelude.{◌≡◌, ◌<◌, ◌≤◌, ℕ, Some, None, IfOk, IfSome, IsTrue, length, slice_index_or};
ghost use Rattle.std.specs.Option.{option_map};
ghost use Rattle.fw_async.specs.Letters.{HasLetters};
ghost use Rattle.fw_async.specs.Wire.{bytes_from};

use crate::wire::Wire;
use fw_async_fields::MOST_NODES;
use fw_kept_parts::{Part, mixed};
use std::alloc::{AllocError, Global};
use std::marker::Model;

/// The bytes of a request.
#[derive(Drop)]
pub(crate) struct Letter {
    pub(crate) bytes: Vec<u8>,
}

impl Model for Letter {
    ghost use Rattle.std.specs.Prelude.{ℕ, List, ◌<◌, ◌≤◌, length};

    ghost Value = { List ℕ };

    ghost view = { λ l. l.bytes.items };

    ghost invariant = { λ l. (0 < length l.bytes.items) × (length l.bytes.items ≤ 528) };
}

/// The bytes that stand on a wire, by the number of the node that sent them; the order in which they were put is not kept.
#[derive(Drop)]
pub struct Letters {
    // Up to the last that stands.
    list: Vec<Option<Letter>>,
}

impl Model for Letters {
    ghost use Rattle.std.specs.Prelude.{ℕ, ◌≤◌, List, Option, length};

    ghost Value = { List (Option (List ℕ)) };

    ghost view = { λ l. l.list.items };

    ghost invariant = { λ l. length l.list.items ≤ 63 };
}

impl Letter {
    fn new(alloc: Global, bytes: &[u8]) -> Result<Letter, AllocError>
        requires some { 0 < length bytes.now }
        requires most { length bytes.now ≤ 528 }
        ensures { IfOk result (λ l. l ≡ bytes.now) }
    {
        let mut copy = Vec::new(alloc);
        copy.extend_from_slice(bytes)?;
        Ok(Letter { bytes: copy })
    }

    fn of(alloc: Global, bytes: Option<&[u8]>) -> Result<Option<Letter>, AllocError>
        requires { IfSome bytes (λ b. (0 < length b.now) × (length b.now ≤ 528)) }
        ensures { IfOk result (λ l. l ≡ option_map (λ b. b.now) bytes.entry) }
    {
        match bytes {
            Some(bytes) => Ok(Some(Letter::new(alloc, bytes)?)),
            None => Ok(None),
        }
    }

    fn is_same(&self, bytes: &[u8]) -> bool
        ensures { IsTrue result → self.now ≡ bytes.now }
    {
        self.bytes.as_slice() == bytes
    }
}

// Whether these are the bytes of the letter, or there are neither.
fn is_letter(bytes: Option<&[u8]>, letter: &Option<Letter>) -> bool
    ensures { IsTrue result → option_map (λ b. b.now) bytes.entry ≡ letter.now }
{
    match (bytes, letter) {
        (Some(bytes), Some(letter)) => letter.is_same(bytes),
        (None, None) => true,
        _ => false,
    }
}

impl Wire {
    // One more than the greatest node of which something stands, or 0.
    fn end(&self) -> u8
        ensures none { (node : ℕ) → result ≤ node → bytes_from node self.now ≡ None }
        ensures most { result ≤ 63 }
    {
        self.senders.end().min(MOST_NODES) as u8
    }

    /// What stands, kept apart.
    #[tactic(auto, using(crate::proofs::LetterLaws::told_more))]
    pub fn letters(&self, alloc: Global) -> Result<Letters, AllocError>
        ensures { IfOk result (λ l. HasLetters self.now l) }
    {
        let mut list = Vec::new(alloc);
        for node in 0..self.end() {
            list.push(Letter::of(alloc, self.standing(node))?)?;
        }
        Ok(Letters { list })
    }

    /// If it is found that these stand, they do.
    pub fn has_letters(&self, letters: &Letters) -> bool
        ensures { IsTrue result → HasLetters self.now letters.now }
    {
        let count = letters.list.len() as u8;
        if self.end() > count {
            return false;
        }
        for node in 0..count {
            if !is_letter(self.standing(node), &letters.list[usize::from(node)]) {
                return false;
            }
        }
        true
    }

    /// These stand, in place of what did, in order of node.
    pub fn set_letters(&mut self, letters: &Letters)
        ensures { HasLetters self.new letters.now }
    {
        self.clear();
        for node in 0..letters.list.len() as u8 {
            if let Some(letter) = &letters.list[usize::from(node)] {
                self.put_letter(node, letter);
            }
        }
    }
}

impl Part for Letters {
    type Whole = Wire;

    ghost IsOf = { λ letters wire. HasLetters wire letters };

    fn of(alloc: Global, wire: &Wire) -> Result<Letters, AllocError> {
        wire.letters(alloc)
    }

    fn is_of(&self, wire: &Wire) -> bool {
        wire.has_letters(self)
    }

    fn mark(wire: &Wire) -> u64 {
        let mut mark: u64 = 0;
        for node in 0..wire.end() {
            if let Some(bytes) = wire.standing(node) {
                mark = bytes_mark(mixed(mark, u32::from(node)), bytes);
            }
        }
        mark
    }
}

// A mark with bytes.
fn bytes_mark(prefix: u64, bytes: &[u8]) -> u64 {
    let mut mark = prefix;
    for byte in bytes {
        mark = mixed(mark, u32::from(*byte));
    }
    mark
}
