//! What a word after `explore` is.

ghost use Rattle.std.specs.Prelude.{◌≡◌, ◌≤◌, ◌^◌, ◌++◌, IfOk, IfNone, IfSome, MatchOption, None, Some, codes, true};
ghost use Rattle.std.specs.List.{list_all};
ghost use Rattle.std.specs.Char.{is_ascii_digit};
ghost use Rattle.std.specs.Str.Parse.{digits_value};
ghost use Rattle.fw_script_command.specs.Words.{is_decimal, number_in};
ghost use Rattle.fw_explore_movers.specs.Words.{line_of_half_steps, may_follow, may_move, is_number, takes_steps};

use fw_script_command::{Command, Pieces, Separator};
use std::alloc::{AllocError, Global};

/// The most half steps that a word may say.
const LARGEST: u32 = 10_000;

/// Whether a command may be a mover as it stands.
#[tactic(auto, unfolding(crate::specs::Words::may_move))]
pub(crate) fn may_move(command: &Command) -> bool
    ensures { result ≡ may_move command.now }
{
    matches!(
        command,
        Command::Cable(..)
            | Command::Reset(..)
            | Command::Connect(..)
            | Command::Broadcast(..)
            | Command::Listen(..)
            | Command::Break(..)
            | Command::Die(..)
            | Command::Start(..)
            | Command::Lose(..)
            | Command::Candidate(..)
            | Command::Wait(..)
    )
}

/// Whether a command may stand after `then`.
#[tactic(auto, unfolding(crate::specs::Words::may_follow))]
pub(crate) fn may_follow(command: &Command) -> bool
    ensures { result ≡ may_follow command.now }
{
    !matches!(
        command,
        Command::Device(..) | Command::Withhold | Command::End
    )
}

/// Whether the first word is a number.
pub(crate) fn is_number(number: usize, word: &[u8]) -> bool
    ensures { result ≡ is_number number word.now }
{
    if number != 1 {
        return false;
    }
    match word.first() {
        Some(first) => first.is_ascii_digit(),
        None => false,
    }
}

// Whether a keyword is that of half steps.
fn takes_steps(keyword: &[u8]) -> bool
    ensures { result ≡ takes_steps keyword.now }
{
    if keyword == b"step".as_slice() {
        return true;
    }
    keyword == b"contend".as_slice()
}

// The line of one half step.
fn half_step(alloc: Global, prefix: &[u8], word: &[u8]) -> Result<Vec<u8>, AllocError>
    ensures { IfOk result (λ v. v.items ≡ prefix.now ++ word.now ++ codes " 1") }
{
    let mut line = Vec::new(alloc);
    line.extend_from_slice(prefix)?;
    line.extend_from_slice(word)?;
    line.extend_from_slice(b" 1")?;
    Ok(line)
}

/// The line of half steps that a word stands for: of `NAME`, `step NAME` and `contend NAME`.
pub(crate) fn half_step_line(alloc: Global, word: &[u8]) -> Result<Option<Vec<u8>>, AllocError>
    ensures { IfOk result (λ o. MatchOption o (line_of_half_steps word.now ≡ None) (λ v. line_of_half_steps word.now ≡ Some v.items)) }
{
    let mut pieces = Pieces::new(word, Separator::Space);
    let Some(keyword) = pieces.next() else {
        return Ok(None);
    };
    if pieces.end().is_some() {
        return Ok(Some(half_step(alloc, b"step ", word)?));
    }
    let _name = pieces.next();
    if pieces.end().is_none() || !takes_steps(keyword) {
        return Ok(None);
    }
    Ok(Some(half_step(alloc, b"", word)?))
}

fn are_digits(word: &[u8]) -> bool
    ensures { result ≡ list_all is_ascii_digit word.now }
{
    word.iter().all(|b| b.is_ascii_digit())
}

// The value of decimal digits without a leading zero.
fn decimal(word: &[u8]) -> Option<u32>
    ensures some { IfSome result (λ n. (is_decimal word.now ≡ true) × (digits_value 10 word.now ≡ n)) }
    ensures none { IfNone result (is_decimal word.now ≡ true → 2 ^ 32 ≤ digits_value 10 word.now) }
{
    if word.is_empty() || !are_digits(word) {
        return None;
    }
    if word.len() > 1 && word[0] == b'0' {
        return None;
    }
    match str::from_utf8(word) {
        Ok(text) => match text.parse::<u32>() {
            Ok(n) => Some(n),
            Err(_) => None,
        },
        Err(_) => None,
    }
}

/// The number of half steps, from 1 to 10,000, that a word is.
pub(crate) fn number_in(word: &[u8]) -> Option<u32>
    ensures { result ≡ number_in 1 10000 word.now }
{
    match decimal(word) {
        Some(n) if 1 <= n && n <= LARGEST => Some(n),
        _ => None,
    }
}
