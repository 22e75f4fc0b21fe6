//! Bytes cut at a separator.

ghost use Rattle.std.specs.Prelude.{ℕ, ◌≡◌, ◌++◌, ◌∷◌, [], List, IfSome, IfNone, false};
ghost use Rattle.std.specs.List.{AllPass};
ghost use Rattle.hex.specs.Hex.{is_hex_digit};
ghost use Rattle.fw_script_command.specs.Form.{after_first};
ghost use Rattle.fw_script_command.specs.Pieces.{IsFirstAt, IsFree, pieces, byte_of};

use std::marker::Model;

mod next_word;

/// What separates pieces.
#[derive(Clone, Copy)]
pub enum Separator {
    /// The space between the words of a line.
    Space,
    /// The full stop between a name and a number.
    FullStop,
}

impl Separator {
    fn byte(self) -> u8
        ensures value { result ≡ byte_of self }
        ensures digit { is_hex_digit result ≡ false }
    {
        match self {
            Separator::Space => b' ',
            Separator::FullStop => b'.',
        }
    }
}

/// The place of the first separator.
fn find(bytes: &[u8], separator: u8) -> Option<usize>
    ensures found { IfSome result (IsFirstAt separator bytes.now) }
    ensures none { IfNone result (IsFree separator bytes.now) }
{
    for (i, b) in bytes.iter().enumerate() {
        if *b == separator {
            return Some(i);
        }
    }
    None
}

/// The bytes before and after the first separator.
pub(crate) fn cut(bytes: &[u8], separator: u8) -> Option<(&[u8], &[u8])>
    ensures found { IfSome result (λ p. (bytes.now ≡ p.0.now ++ separator ∷ p.1.now) × IsFree separator p.0.now) }
    ensures none { IfNone result (IsFree separator bytes.now) }
{
    let i = find(bytes, separator)?;
    Some((&bytes[..i], &bytes[i + 1..]))
}

/// The pieces between separators that are not yet read.
#[derive(Drop)]
pub struct Pieces<'a> {
    separator: u8,
    rest: &'a [u8],
    more: bool,
}

impl<'a> Model for Pieces<'a> {
    ghost use Rattle.std.specs.Prelude.{List, ℕ, [], ◌≡◌, false, if◌then◌else◌};
    ghost use Rattle.hex.specs.Hex.{is_hex_digit};
    ghost use Rattle.fw_script_command.specs.Pieces.{pieces};

    ghost Value = { List (List ℕ) };

    ghost view = { λ p. if p.more then pieces p.separator p.rest.now else [] };

    ghost invariant = { λ p. is_hex_digit p.separator ≡ false };
}

impl<'a> Pieces<'a> {
    /// All pieces of the bytes.
    pub fn new(bytes: &'a [u8], separator: Separator) -> Self
        ensures { result ≡ pieces (byte_of separator) bytes.now }
    {
        Pieces {
            separator: separator.byte(),
            rest: bytes,
            more: true,
        }
    }

    /// The next piece.
    pub fn next(&mut self) -> Option<&'a [u8]>
        ensures some { IfSome result (λ w. self.old ≡ w.now ∷ self.new) }
        ensures none { IfNone result (self.old ≡ []) }
        ensures left { self.new ≡ after_first self.old }
    {
        if !self.more {
            return None;
        }
        match cut(self.rest, self.separator) {
            Some((piece, rest)) => {
                self.rest = rest;
                Some(piece)
            }
            None => {
                self.more = false;
                Some(self.rest)
            }
        }
    }

    // What is left, whole. It is not searched for a separator: no hexadecimal digit is one, so that it is the last piece if it has
    // only digits.
    #[inline(always)]
    fn whole(&self) -> Option<&'a [u8]>
        ensures digits { IfSome result (λ w. AllPass is_hex_digit w.now → self.now ≡ w.now ∷ []) }
        ensures only { IfSome result (λ w. (v : List ℕ) → self.now ≡ v ∷ [] → v ≡ w.now) }
        ensures none { IfNone result (self.now ≡ []) }
    {
        if self.more { Some(self.rest) } else { None }
    }

    /// Some if no piece is left, so that a form which takes no more of them ends by `?`.
    pub fn end(&self) -> Option<()>
        ensures some { IfSome result (λ u. self.now ≡ []) }
        ensures none { IfNone result (self.now ≡ [] → ⊥) }
    {
        if self.more { None } else { Some(()) }
    }
}
