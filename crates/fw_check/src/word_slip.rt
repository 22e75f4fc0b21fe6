//! What is amiss with a word that is not of its type.

ghost use Rattle.std.specs.Prelude.{◌≡◌, ◌<◌, ◌==◌, ◌&&◌, drop, length, take_while, IfOk};
ghost use Rattle.std.specs.List.{list_all};
ghost use Rattle.std.specs.Char.{is_ascii_digit};
ghost use Rattle.fw_script_command.specs.Types.{fits};
ghost use Rattle.fw_check.specs.WordSlips.{has_name, has_prefix, has_zero, is_hexadecimal, is_reserved, lower, lowered, word_slip, zeros};

use fw_script_command::{Pieces, Separator, WordType, is_taken};
use std::alloc::{AllocError, Global};

// The small letter for a capital.
fn lower(b: u8) -> u8
    ensures { result ≡ lower b }
{
    if matches!(b, b'A'..=b'Z') { b + 32 } else { b }
}

/// The word with small letters for its capitals.
pub(crate) fn lowered(alloc: Global, word: &[u8]) -> Result<Vec<u8>, AllocError>
    ensures { IfOk result (λ v. v.items ≡ lowered word.now) }
{
    word.iter().map(|b| lower(*b)).collect(alloc)
}

fn has_name(ty: WordType) -> bool
    ensures { result ≡ has_name ty }
{
    matches!(
        ty,
        WordType::Name | WordType::Shown | WordType::End | WordType::Plug
    )
}

fn is_hexadecimal(ty: WordType) -> bool
    ensures { result ≡ is_hexadecimal ty }
{
    matches!(ty, WordType::Offset | WordType::Quadlet | WordType::Frame)
}

// The word, or what stands before its first full stop, is reserved.
fn is_reserved(word: &[u8]) -> bool
    ensures { result ≡ is_reserved word.now }
{
    match Pieces::new(word, Separator::FullStop).next() {
        Some(name) => is_taken(name),
        None => false,
    }
}

fn has_prefix(word: &[u8]) -> bool
    ensures { result ≡ has_prefix word.now }
{
    word.starts_with(b"0x") || word.starts_with(b"0X")
}

// How many zeros it begins with.
fn leading_zeros(word: &[u8]) -> usize
    ensures { result ≡ length (take_while (λ b. b == 48) word.now) }
{
    word.iter().take_while(|b| **b == b'0').count()
}

// How many zeros stand before another digit.
fn zeros(word: &[u8]) -> usize
    requires { 0 < length word.now }
    ensures { result ≡ zeros word.now }
{
    leading_zeros(word).min(word.len() - 1)
}

fn are_digits(word: &[u8]) -> bool
    ensures { result ≡ list_all is_ascii_digit word.now }
{
    word.iter().all(|b| b.is_ascii_digit())
}

fn has_zero(word: &[u8]) -> bool
    ensures { result ≡ has_zero word.now }
{
    if word.len() < 2 || !are_digits(word) {
        return false;
    }
    word[0] == b'0'
}

// Without its leading zeros the word is of the type.
fn fits_without_zeros(ty: WordType, word: &[u8]) -> bool
    ensures { result ≡ (has_zero word.now && fits ty (drop (zeros word.now) word.now)) }
{
    has_zero(word) && ty.fits(&word[zeros(word)..])
}

/// What is amiss with a word that is not of its type, if it is told.
pub(crate) fn word_slip(
    alloc: Global,
    ty: WordType,
    word: &[u8],
) -> Result<&'static str, AllocError>
    ensures { IfOk result (λ slip. slip.now ≡ word_slip ty word.now) }
{
    let small = lowered(alloc, word)?;
    Ok(if ty.fits(&small) {
        ", with capital letters"
    } else if has_name(ty) && is_reserved(word) {
        ", a reserved word"
    } else if is_hexadecimal(ty) && has_prefix(word) {
        ", with 0x before the digits"
    } else if fits_without_zeros(ty, word) {
        ", with a leading 0"
    } else {
        ""
    })
}
