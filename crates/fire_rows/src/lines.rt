//! Scripts that are put together of pieces, and what the text of their logs tells of outcomes, shown words and bids.

use crate::Program;
use crate::call::Call;
use crate::due::Due;
use crate::miss::{Miss, at};
use crate::numbers::numbers_of;
use crate::pieces::text_of;
use crate::row::Row;
use std::alloc::Global;

/// What stands for a row's number: in a script for its digits, in the lines for a word, as the text of a log has it.
const NUMBER: &str = "N";

/// What a log, and its text, have room for, in bytes.
const ROOM: usize = 100_000;

/// What is said in place of a line that is missing.
const NO_LINE: &str = "no line more";

/// Whether a line tells how a job or a bid ended, what a register showed, or that `settle` left something to do.
fn tells(line: &str) -> bool {
    line.contains(" outcome ")
        || line.contains(" shown ")
        || line.contains(" unsettled")
        || line.contains(" elected ")
        || line.contains(" defeated ")
}

/// That a text tells these lines, and no others of their kind.
fn has_lines(alloc: Global, text: &[u8], told: &str) -> Result<(), Miss> {
    let text = str::from_utf8(text).unwrap_or("");
    let mut due = told.lines();
    for line in text.lines() {
        if tells(line) {
            is_line(alloc, due.next().unwrap_or(NO_LINE), line)?;
        }
    }
    match due.next() {
        Some(line) => Err(Miss::otherwise(alloc, line, NO_LINE)),
        None => Ok(()),
    }
}

fn is_line(alloc: Global, due: &str, line: &str) -> Result<(), Miss> {
    if due == line {
        Ok(())
    } else {
        Err(Miss::otherwise(alloc, due, line))
    }
}

/// That the log of a script tells these lines.
fn is_told<P: Program>(program: &P, alloc: Global, script: &str, told: &str) -> Result<(), Miss> {
    let log = Call::over("run", script.as_bytes(), ROOM).ends(program, alloc, &Due::DONE)?;
    let text = Call::over("decode", log.output(), ROOM).ends(program, alloc, &Due::DONE)?;
    has_lines(alloc, text.output(), told)
}

/// That it is so with a number in its place.
fn is_told_with<P: Program>(
    program: &P,
    alloc: Global,
    number: u32,
    (script, told): (&str, &str),
) -> Result<(), Miss> {
    let script = script.replace(alloc, NUMBER, &format!(in alloc; "{number}")?)?;
    let told = told.replace(alloc, NUMBER, &format!(in alloc; "{number:08x}")?)?;
    is_told(program, alloc, &script, &told)
}

/// That it is so with each number of a list, if there is one.
fn are_told<P: Program>(
    program: &P,
    alloc: Global,
    list: Option<&str>,
    (script, told): (&str, &str),
) -> Result<(), Miss> {
    let Some(list) = list else {
        return is_told(program, alloc, script, told);
    };
    for number in &numbers_of(alloc, list)? {
        let result = is_told_with(program, alloc, *number, (script, told));
        at(alloc, "with number", *number as usize, result)?;
    }
    Ok(())
}

/// A row is `PIECES > PIECES`, those of the script and those of the lines that are told, in order; and ` : NUMBERS` after it if the row
/// is one for each number.
pub(crate) fn check<P: Program>(program: &P, rt: &HostRuntime, row: &Row<'_>) -> Result<(), Miss> {
    let Some(told) = row.output else {
        return Err(Miss::NoRow("lines that are told"));
    };
    let script = text_of(rt, row.what)?;
    let told = text_of(rt, told)?;
    are_told(program, rt.alloc(), row.following, (&script, &told))
}
