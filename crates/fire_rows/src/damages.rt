//! Logs of which bytes are changed, or that are cut: what is told of them, in pieces of three sizes.

use crate::call::{Call, NONE};
use crate::changes::{Change, log_with};
use crate::due::{Due, Written};
use crate::miss::{Miss, at};
use crate::numbers::numbers_of;
use crate::row::Row;
use crate::{Portions, Program};
use std::alloc::{AllocError, Global};
use std::fs;

/// What the report of a log has room for, in bytes.
const REPORT: usize = 4096;

/// The word that writes a log in its own version.
fn same_version(log: &[u8]) -> &'static str {
    match log.get(7) {
        Some(1) => "convert 1",
        _ => "convert 2",
    }
}

/// What is to be written of a log in its own version: a prefix of it, and all of it if there is no note.
fn converted<'a>(log: &'a [u8], note: &'a str) -> Due<'a> {
    Due {
        status: status_of(note),
        note,
        output: if note.is_empty() {
            Written::Whole(log)
        } else {
            Written::Prefix(log)
        },
    }
}

fn status_of(note: &str) -> u8 {
    if note.is_empty() { 0 } else { 4 }
}

/// That `convert` ends so, and `dv`, which passes most entries over, in pieces of this size.
fn is_told_in<P: Program>(
    program: &P,
    alloc: Global,
    log: &[u8],
    note: &str,
    most: usize,
) -> Result<(), Miss> {
    let convert = Call {
        words: same_version(log),
        source: Portions::of(log, most),
        room: log.len(),
        failing: NONE,
    };
    convert.ends(program, alloc, &converted(log, note))?;
    let report = Call {
        words: "dv",
        source: Portions::of(log, most),
        room: REPORT,
        failing: NONE,
    };
    report.ends(program, alloc, &Due::telling(status_of(note), note))?;
    Ok(())
}

/// That this is told of a log, in pieces of each size.
fn is_told<P: Program>(program: &P, alloc: Global, log: &[u8], note: &str) -> Result<(), Miss> {
    for most in [1, 7, log.len()] {
        let result = is_told_in(program, alloc, log, note, most);
        at(alloc, "in pieces of at most", most, result)?;
    }
    Ok(())
}

/// A note with a place in it, for which `*` stands.
fn note_at(alloc: Global, note: &str, at: usize) -> Result<String, AllocError> {
    note.replace(alloc, "*", &format!(in alloc; "{at}")?)
}

/// That it is told with each of the changes at a place.
fn is_told_at<P: Program>(
    program: &P,
    alloc: Global,
    log: &[u8],
    (changes, place): (&[Change], usize),
    note: &str,
) -> Result<(), Miss> {
    let note = note_at(alloc, note, place)?;
    for (before, change) in changes.iter().enumerate() {
        let log = change.of(alloc, log, place)?;
        let result = is_told(program, alloc, &log, &note);
        at(alloc, "with change", before.saturating_add(1), result)?;
    }
    Ok(())
}

/// That it is told with each of the changes at each of the places.
fn are_told<P: Program>(
    program: &P,
    alloc: Global,
    log: &[u8],
    (changes, places): (&[Change], &[u32]),
    note: &str,
) -> Result<(), Miss> {
    if changes.is_empty() {
        return Err(Miss::NoRow("a change"));
    }
    for place in places {
        let place = *place as usize;
        let result = is_told_at(program, alloc, log, (changes, place), note);
        at(alloc, "at byte", place, result)?;
    }
    Ok(())
}

/// That this is told of a log that is changed as the words say: `CHANGES at PLACES`, `PLACE=BYTE PLACE=BYTE` or `whole`.
fn is_so<P: Program>(
    program: &P,
    alloc: Global,
    log: &[u8],
    words: &str,
    note: &str,
) -> Result<(), Miss> {
    let Some((changes, places)) = words.split_once(" at ") else {
        return is_told(program, alloc, &log_with(alloc, log, words)?, note);
    };
    let places = numbers_of(alloc, places)?;
    let changes = Change::all_of(changes);
    are_told(program, alloc, log, (changes, &places), note)
}

/// A row is `CHANGE < LOG : NOTE`, and has no note if it is another log.
pub(crate) fn check<P: Program>(program: &P, rt: &HostRuntime, row: &Row<'_>) -> Result<(), Miss> {
    let Some(log) = row.input else {
        return Err(Miss::NoRow("a log"));
    };
    let log = fs::read(rt, log)?;
    let note = row.following.unwrap_or("");
    is_so(program, rt.alloc(), &log, row.what, note)
}
