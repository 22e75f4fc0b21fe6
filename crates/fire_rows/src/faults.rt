//! Calls of which each read and each write fails in turn. After a failing read stands what the whole lines, or the whole entries, before
//! it give; after a failing write what was written before it.

use crate::call::{Call, NONE};
use crate::due::Due;
use crate::ended::Failing;
use crate::files::read_joined;
use crate::miss::{Miss, at};
use crate::numbers::numbers_of;
use crate::parts::Parts;
use crate::row::Row;
use crate::{Portions, Program};
use std::alloc::Global;
use std::fs;

/// A call, what it reads and what it writes if nothing fails, and the parts of both. `following` says how many parts of the output are
/// written after none of the input's parts, after the first, and so on; without it, one for each entry of a log. `before` says how many are
/// written before the first write, before the second, and so on; without it each part is a write.
#[derive(Clone, Copy)]
struct Case<'a> {
    words: &'a str,
    input: &'a [u8],
    output: &'a [u8],
    read: Parts,
    written: Parts,
    before: Option<&'a str>,
    following: Option<&'a str>,
}

impl Case<'_> {
    /// How many parts are written after so many that were read.
    fn count_after(&self, parts: usize) -> Option<usize> {
        match self.following {
            Some(following) => following
                .split_whitespace()
                .nth(parts)?
                .parse::<usize>()
                .ok(),
            None => Some(parts.saturating_sub(1)),
        }
    }

    /// What stands after so many parts that were read.
    fn prefix_behind(&self, parts: usize) -> Option<&[u8]> {
        let end = self
            .written
            .end_after(self.output, self.count_after(parts)?)?;
        self.output.get(..end)
    }

    /// Whether one line of the script writes parts of the output before and after this place, and the line is `cycles`: then no write
    /// ends there.
    fn is_within_a_write(&self, parts: usize) -> bool {
        for line in 0..self.input.len() {
            let before = self.count_after(line);
            let following = self.count_after(line.saturating_add(1));
            let (Some(before), Some(following)) = (before, following) else {
                return false;
            };
            if parts < following {
                return before < parts && self.is_cycles(line);
            }
        }
        false
    }

    fn is_cycles(&self, line: usize) -> bool {
        match self.read.end_after(self.input, line) {
            Some(start) => self
                .input
                .get(start..)
                .is_some_and(|text| text.starts_with(b"cycles ")),
            None => false,
        }
    }

    /// That the read after these bytes fails, leaves what their parts give, and tells a read fault.
    fn read_fails<P: Program>(&self, program: &P, alloc: Global, taken: &[u8]) -> Result<(), Miss> {
        let Some(prefix) = self.prefix_behind(self.read.count_in(taken)) else {
            return Err(Miss::NoRow("a number for each part that is read"));
        };
        let call = Call::failing_after(self.words, taken, self.output.len());
        call.ends(program, alloc, &Due::exactly(5, "read fault", prefix))?;
        Ok(())
    }

    /// That it is so of each read.
    fn reads_fail<P: Program>(&self, program: &P, alloc: Global) -> Result<(), Miss> {
        for taken in 0..=self.input.len() {
            let result = self.read_fails(program, alloc, &self.input[..taken]);
            at(alloc, "with a read that fails after byte", taken, result)?;
        }
        Ok(())
    }

    /// That the write of this number fails, leaves what was written before, and tells a write fault.
    fn write_fails<P: Program>(
        &self,
        program: &P,
        alloc: Global,
        write: u32,
        prefix: &[u8],
    ) -> Result<(), Miss> {
        let writes = &[write];
        let call = Call {
            words: self.words,
            source: Portions::of(self.input, 1),
            room: self.output.len(),
            failing: Failing { writes, ..NONE },
        };
        call.ends(program, alloc, &Due::exactly(6, "write fault", prefix))?;
        Ok(())
    }

    /// That it is so of each write, if so many parts are written before each.
    fn listed_writes_fail<P: Program>(
        &self,
        program: &P,
        alloc: Global,
        before: &str,
    ) -> Result<(), Miss> {
        let mut write: u32 = 0;
        for parts in &numbers_of(alloc, before)? {
            write = write.saturating_add(1);
            let Some(end) = self.written.end_after(self.output, *parts as usize) else {
                return Err(Miss::NoRow("parts that are written before each write"));
            };
            let prefix = self.output.get(..end).unwrap_or(&[]);
            let result = self.write_fails(program, alloc, write, prefix);
            at(
                alloc,
                "with a write that fails, of number",
                write as usize,
                result,
            )?;
        }
        Ok(())
    }

    /// That it is so of each write.
    fn writes_fail<P: Program>(&self, program: &P, alloc: Global) -> Result<(), Miss> {
        if let Some(before) = self.before {
            return self.listed_writes_fail(program, alloc, before);
        }
        let mut write: u32 = 0;
        for parts in 0..self.written.count_in(self.output) {
            if self.is_within_a_write(parts) {
                continue;
            }
            write = write.saturating_add(1);
            let end = self.written.end_after(self.output, parts).unwrap_or(0);
            let prefix = self.output.get(..end).unwrap_or(&[]);
            let result = self.write_fails(program, alloc, write, prefix);
            at(
                alloc,
                "with a write that fails, of number",
                write as usize,
                result,
            )?;
        }
        Ok(())
    }
}

/// A row is `WORD < INPUT > OUTPUT`, and after ` : ` the numbers of parts, if they are not one for each entry of a log; after the word and ` ; `
/// those before each write, if not each part is a write.
pub(crate) fn check<P: Program>(program: &P, rt: &HostRuntime, row: &Row<'_>) -> Result<(), Miss> {
    let (Some(input), Some(output)) = (row.input, row.output) else {
        return Err(Miss::NoRow("an input and an output"));
    };
    let given = fs::read(rt, input)?;
    let due = read_joined(rt, output)?;
    let case = Case {
        words: row.what,
        input: &given,
        output: &due,
        read: Parts::of(input),
        written: Parts::of(output),
        before: row.lines,
        following: row.following,
    };
    case.reads_fail(program, rt.alloc())?;
    case.writes_fail(program, rt.alloc())
}
