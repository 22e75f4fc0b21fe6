//! Calls over files: what each ends with, tells and writes.

use crate::Program;
use crate::call::Call;
use crate::due::Due;
use crate::files::read_joined;
use crate::miss::Miss;
use crate::row::Row;
use std::alloc::Global;
use std::fs;

/// What a word has room for whose output another word reads, in bytes.
const BETWEEN: usize = 4_000_000;

/// That a call over this input ends so, with room for so many bytes; of two calls the first ends with 0 and no note, and the second
/// reads what it writes.
fn end_so<P: Program>(
    program: &P,
    alloc: Global,
    words: &str,
    input: &[u8],
    (due, room): (&Due<'_>, usize),
) -> Result<(), Miss> {
    let Some((first, second)) = words.split_once(" | ") else {
        Call::over(words, input, room).ends(program, alloc, due)?;
        return Ok(());
    };
    let between = Call::over(first, input, BETWEEN).ends(program, alloc, &Due::DONE)?;
    Call::over(second, between.output(), room).ends(program, alloc, due)?;
    Ok(())
}

/// A row is `WORDS < INPUT > OUTPUT`, and ` : STATUS NOTE` after it if the status is not 0. Input and output are names of files, of which the
/// output may have several, one after another. In place of one call there may be two, `WORDS | WORDS`: the second reads what the first writes.
pub(crate) fn check<P: Program>(program: &P, rt: &HostRuntime, row: &Row<'_>) -> Result<(), Miss> {
    let (Some(input), Some(output)) = (row.input, row.output) else {
        return Err(Miss::NoRow("an input and an output"));
    };
    let input = fs::read(rt, input)?;
    let output = read_joined(rt, output)?;
    match Due::of(row.following, &output) {
        Some(due) => end_so(program, rt.alloc(), row.what, &input, (&due, output.len())),
        None => Err(Miss::NoRow("a status")),
    }
}
