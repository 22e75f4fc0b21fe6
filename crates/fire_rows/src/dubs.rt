//! What decks record: how many bytes `dub` writes of a script, the first of them, and their sum.

use crate::Program;
use crate::call::Call;
use crate::due::Due;
use crate::miss::Miss;
use crate::row::Row;
use std::alloc::Global;
use std::fs;

/// What the longest reel of the table has room in, in bytes.
const ROOM: usize = 2_304_000;

/// A reel: how many bytes it has, the first of them in hexadecimal, and the sum of all.
#[derive(Clone, Copy)]
struct Reel<'a> {
    length: usize,
    first: &'a str,
    sum: u64,
}

impl<'a> Reel<'a> {
    fn of(text: &'a str) -> Option<Reel<'a>> {
        let (length, rest) = text.split_once(" ")?;
        let (first, sum) = rest.split_once(" ")?;
        Some(Reel {
            length: length.parse::<usize>().ok()?,
            first: first.strip_prefix("-").unwrap_or(first),
            sum: sum.parse::<u64>().ok()?,
        })
    }

    /// Whether these bytes are this reel.
    fn is(&self, alloc: Global, bytes: &[u8]) -> bool {
        bytes.len() == self.length
            && sum_of(bytes) == self.sum
            && begin_with(alloc, bytes, self.first)
    }

    /// That `dub` writes it of a script.
    fn is_written<P: Program>(
        &self,
        program: &P,
        alloc: Global,
        script: &[u8],
    ) -> Result<(), Miss> {
        let ended = Call::over("dub", script, ROOM).ends(program, alloc, &Due::DONE)?;
        let bytes = ended.output();
        if self.is(alloc, bytes) {
            return Ok(());
        }
        let expected = format!(in alloc;
            "{} bytes from {} on, whose sum is {}",
            self.length, self.first, self.sum
        )?;
        let first = hex::encode(alloc, bytes.get(..32).unwrap_or(bytes))?;
        let found = format!(in alloc;
            "{} bytes from {first} on, whose sum is {}",
            bytes.len(),
            sum_of(bytes)
        )?;
        Err(Miss::otherwise(alloc, &expected, &found))
    }
}

fn begin_with(alloc: Global, bytes: &[u8], first: &str) -> bool {
    match hex::decode(alloc, first) {
        Ok(first) => bytes.starts_with(&first),
        Err(_) => false,
    }
}

fn sum_of(bytes: &[u8]) -> u64 {
    let mut sum: u64 = 0;
    for byte in bytes {
        sum = sum.saturating_add(u64::from(*byte));
    }
    sum
}

/// A row is `SCRIPT : BYTES FIRST SUM`, with the first bytes in hexadecimal, or `-` if there are none.
pub(crate) fn check<P: Program>(program: &P, rt: &HostRuntime, row: &Row<'_>) -> Result<(), Miss> {
    let Some(reel) = row.following.and_then(Reel::of) else {
        return Err(Miss::NoRow("a reel"));
    };
    let script = fs::read(rt, row.what)?;
    reel.is_written(program, rt.alloc(), &script)
}
