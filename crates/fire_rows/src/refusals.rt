//! Scripts of which a line is refused: what is told, and what was written before it.

use crate::call::{Call, NONE};
use crate::due::Due;
use crate::ended::{Ended, Failing};
use crate::miss::Miss;
use crate::pieces::text_of;
use crate::row::Row;
use crate::{Portions, Program};
use std::alloc::{AllocError, Global};
use std::fs;

/// What the longest log of a refused script has room in, in bytes: 8,000 cycles, or 10,000 bus resets of one device.
const ROOM: usize = 400_000;

/// The script of a row.
fn script_of(rt: &HostRuntime, row: &Row<'_>) -> Result<String, Miss> {
    let mut script = text_of(rt, row.what)?;
    if let Some(lines) = row.lines {
        put_lines(rt.alloc(), lines, &mut script)?;
    }
    Ok(script)
}

/// Appends lines that are separated by ` ; `.
fn put_lines(alloc: Global, lines: &str, script: &mut String) -> Result<(), AllocError> {
    script.push_str(&lines.replace(alloc, " ; ", "\n")?)?;
    script.push_str("\n")
}

/// What is written of a script that is refused with this note; if the note cannot be written, it is the same.
fn refused<P: Program>(
    program: &P,
    alloc: Global,
    script: &str,
    note: &str,
) -> Result<Ended, Miss> {
    let call = Call::over("run", script.as_bytes(), ROOM);
    let told = call.ends(program, alloc, &Due::telling(3, note))?;
    is_same_untold(program, alloc, script, told.output())?;
    Ok(told)
}

/// That this is written as well if the note cannot be.
fn is_same_untold<P: Program>(
    program: &P,
    alloc: Global,
    script: &str,
    written: &[u8],
) -> Result<(), Miss> {
    let notes = &[1];
    let call = Call {
        words: "run",
        source: Portions::whole(script.as_bytes()),
        room: ROOM,
        failing: Failing { notes, ..NONE },
    };
    call.ends(program, alloc, &Due::exactly(6, "", written))?;
    Ok(())
}

/// That what was written is the beginning of a log, `LOG LENGTH`: so many of its first bytes.
fn is_prefix(rt: &HostRuntime, told: &Ended, note: &str, prefix: &str) -> Result<(), Miss> {
    let Some((log, length)) = prefix.split_once(" ") else {
        return Err(Miss::NoRow("a log and how many of its bytes"));
    };
    let Ok(length) = length.parse::<usize>() else {
        return Err(Miss::NoRow("how many bytes of a log"));
    };
    let log = fs::read(rt, log)?;
    match log.get(..length) {
        Some(prefix) => told.check(rt.alloc(), &Due::exactly(3, note, prefix)),
        None => Err(Miss::NoRow("a log with so many bytes")),
    }
}

/// A row is `PIECES ; LINE ; LINE > LOG LENGTH : NOTE`, the pieces of a script and the lines after them; then the log and the number of
/// its first bytes that are written, if that is known; and the note.
pub(crate) fn check<P: Program>(program: &P, rt: &HostRuntime, row: &Row<'_>) -> Result<(), Miss> {
    let Some(note) = row.following else {
        return Err(Miss::NoRow("a note"));
    };
    let script = script_of(rt, row)?;
    let told = refused(program, rt.alloc(), &script, note)?;
    match row.output {
        Some(prefix) => is_prefix(rt, &told, note, prefix),
        None => Ok(()),
    }
}
