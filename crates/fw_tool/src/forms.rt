//! The forms of the words of the command line.

ghost use Rattle.std.specs.Prelude.{◌≡◌, ◌↔◌, ◌<◌, ◌^◌, ◌∷◌, [], ℕ, List, Some, IsTrue, IsFalse, codes, decimal};
ghost use Rattle.fw_tool.specs.Words.{Names, IsWord, IsExploration, Spells};
ghost use Rattle.fw_tool.specs.declared.about.About.{About as AnAbout};
ghost use Rattle.fw_tool.specs.declared.words.Word.{Word as AWord};

use crate::about::About;
use crate::scripts::ScriptWord;
use crate::words::Word;
use fw_log::Version;
use fw_log_words::LogWord;
use itoa::Buffer;

/// The number of 32 bits that a word is, in decimal digits without a leading zero.
fn number_in(word: &str) -> Option<u32>
    ensures { (n : ℕ) → (result ≡ Some n) ↔ ((word.now ≡ decimal n) × (n < 2 ^ 32)) }
{
    let Ok(number) = word.parse::<u32>() else {
        return None;
    };
    if Buffer::new().format(number) == word {
        Some(number)
    } else {
        None
    }
}

// What one word has the program say of itself.
fn about_of(word: &str) -> Option<About>
    ensures { (about : AnAbout) → (result ≡ Some about) ↔ Spells (AWord.About about) (word.now ∷ []) }
{
    if word == "help" || word == "--help" || word == "-h" {
        Some(About::Help)
    } else if word == "version" || word == "--version" || word == "-V" {
        Some(About::Version)
    } else {
        None
    }
}

// What one word says, that does not explore.
fn one_word(word: &str) -> Option<Word>
    requires { word.now ≡ codes "explore" → ⊥ }
    ensures { Names (word.now ∷ []) result }
{
    if word == "run" {
        Some(Word::Script(ScriptWord::Run))
    } else if word == "trace" {
        Some(Word::Script(ScriptWord::Trace))
    } else if word == "dub" {
        Some(Word::Script(ScriptWord::Dub))
    } else if word == "check" {
        Some(Word::Script(ScriptWord::Check))
    } else if word == "decode" {
        Some(Word::Log(LogWord::Decode))
    } else if word == "explain" {
        Some(Word::Log(LogWord::Explain))
    } else if word == "json" {
        Some(Word::Log(LogWord::Json))
    } else if word == "page" {
        Some(Word::Log(LogWord::Page))
    } else if word == "dv" {
        Some(Word::Log(LogWord::Dv))
    } else if word == "audit" {
        Some(Word::Log(LogWord::Audit))
    } else if word == "holders" {
        Some(Word::Log(LogWord::Holders))
    } else if word == "watch" {
        Some(Word::Log(LogWord::Watch))
    } else if word == "map" {
        Some(Word::Log(LogWord::Map))
    } else {
        about_of(word).map(Word::About)
    }
}

// What the word `gen` and a word after it say.
fn seed_of(word: &str) -> Option<Word>
    ensures { Names (codes "gen" ∷ word.now ∷ []) result }
{
    let Some(seed) = number_in(word) else {
        return None;
    };
    Some(Word::Gen(seed))
}

// What the word `convert` and a word after it say.
fn version_of(word: &str) -> Option<Word>
    ensures { Names (codes "convert" ∷ word.now ∷ []) result }
{
    if word == "1" {
        Some(Word::Log(LogWord::Convert(Version::One)))
    } else if word == "2" {
        Some(Word::Log(LogWord::Convert(Version::Two)))
    } else {
        None
    }
}

// What the word `map` and a word after it say.
fn drawing_of(word: &str) -> Option<Word>
    ensures { Names (codes "map" ∷ word.now ∷ []) result }
{
    if word == "dot" {
        Some(Word::Log(LogWord::Graph))
    } else {
        None
    }
}

// What two words say, of which the first does not explore.
fn two_words(word: &str, more: &str) -> Option<Word>
    requires { word.now ≡ codes "explore" → ⊥ }
    ensures { Names (word.now ∷ more.now ∷ []) result }
{
    if word == "gen" {
        seed_of(more)
    } else if word == "convert" {
        version_of(more)
    } else if word == "map" {
        drawing_of(more)
    } else {
        None
    }
}

// Whether the first word is `explore`.
fn explores(words: &[String]) -> bool
    ensures yes { IsTrue result → (more : List (List ℕ)) × IsExploration words.now more }
    ensures no { IsFalse result → (more : List (List ℕ)) → IsExploration words.now more → ⊥ }
{
    match words {
        [word, ..] => word.as_str() == "explore",
        [] => false,
    }
}

/// What the words say, if they are of one of the forms.
pub(crate) fn word_of(words: &[String]) -> Option<Word>
    ensures { (w : AWord) → (result ≡ Some w) ↔ IsWord words.now w }
{
    if explores(words) {
        return Some(Word::Explore);
    }
    match words {
        [word] => one_word(word.as_str()),
        [word, more] => two_words(word.as_str(), more.as_str()),
        _ => None,
    }
}
