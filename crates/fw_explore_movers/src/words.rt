//! All words after `explore`.

ghost use Rattle.std.specs.Prelude.{◌≡◌, map, string_bytes, MatchResult};
ghost use Rattle.fw_explore_movers.specs.Words.{IsExploredBy, IsNoExploration};

use crate::fault::{WordFault, WordsFault};
use crate::mover::Explored;
use crate::reading::Reading;
use std::alloc::Global;

/// Reads the words after `explore`: a number, if it is there, the movers, and the lines after `then`. The first word that is refused
/// is told by its number, from 1; `Usage` if none is refused and none is a mover; `NoMemory` if memory ran out, and for nothing else.
pub fn read_words(alloc: Global, words: &[String]) -> Result<Explored, WordsFault>
    ensures { MatchResult result (IsExploredBy (map string_bytes words.now)) (IsNoExploration (map string_bytes words.now)) }
{
    let mut reading = Reading::new(alloc);
    for (at, word) in words.iter().enumerate() {
        let number = at + 1;
        match reading.take(number, word.as_bytes()) {
            Ok(None) => {}
            Ok(Some(why)) => return Err(WordsFault::Refused(WordFault { word: number, why })),
            Err(_) => return Err(WordsFault::NoMemory),
        }
    }
    let Reading {
        most,
        movers,
        following,
        ..
    } = reading;
    if movers.is_empty() {
        return Err(WordsFault::Usage);
    }
    Ok(Explored {
        most,
        movers,
        following,
    })
}
