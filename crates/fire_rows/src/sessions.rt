//! All tables, row by row.

use crate::Program;
use crate::miss::Miss;
use crate::names::is_asked;
use crate::row::is_row;
use crate::table::Table;
use crate::tally::Tally;
use std::{fs, io};

/// The tables, and after them the rows that are wrong.
const FILES: [&str; 7] = [
    "calls.txt",
    "damages.txt",
    "faults.txt",
    "dubs.txt",
    "lines.txt",
    "refusals.txt",
    "wrong.txt",
];

/// That a row `TABLE: ROW` names a table, and this row of it is told apart from those that hold.
fn is_told_apart<P: Program>(program: &P, rt: &HostRuntime, line: &str) -> Result<(), Miss> {
    let Some((file, row)) = line.split_once(": ") else {
        return Err(Miss::NoRow("the name of a table"));
    };
    let Some(table) = Table::of(file) else {
        return Err(Miss::NoRow("the name of a table"));
    };
    match table.check(program, rt, row) {
        Ok(()) => Err(Miss::otherwise(rt.alloc(), "a row that does not hold", "one that holds")),
        Err(Miss::Failed(error)) => Err(Miss::Failed(error)),
        Err(_) => Ok(()),
    }
}

/// That a row of a file is as it should be.
fn is_due<P: Program>(program: &P, rt: &HostRuntime, file: &str, line: &str) -> Result<(), Miss> {
    match Table::of(file) {
        Some(table) => table.check(program, rt, line),
        None => is_told_apart(program, rt, line),
    }
}

/// Counts the rows of a file that are asked for, and tells of each that is otherwise than it should be.
fn tally_of<P: Program>(
    program: &P,
    rt: &HostRuntime,
    file: &str,
    names: &[String],
) -> io::Result<Tally> {
    let text = fs::read_to_string(rt, file)?;
    let mut tally = Tally::NEW;
    for line in text.lines().filter(|line| is_row(line)) {
        if is_asked(names, file, line) {
            tally.count(rt, line, is_due(program, rt, file, line))?;
        }
    }
    Ok(tally)
}

/// Makes the calls of the rows that are asked for, tells how many rows of each table there were and which of them do not hold, and
/// answers whether all hold. Without names all rows are asked for; else those in which one of the names stands, as a word or as a part
/// of a file's name, and those of a table of that name. If there is none, it is told so, and the answer is no. The tables are files of
/// the folder in which the program runs; an error is one of reading them or the files that they name, of writing, or of memory.
pub fn hold<P: Program>(program: &P, rt: &HostRuntime, names: &[String]) -> io::Result<bool> {
    let mut all_hold = true;
    let mut rows: u64 = 0;
    for file in FILES {
        let tally = tally_of(program, rt, file, names)?;
        rows = rows.saturating_add(tally.rows());
        if names.is_empty() || tally.rows() > 0 {
            all_hold = tally.tell(rt, file)? && all_hold;
        }
    }
    if rows == 0 {
        println!(rt; "no row has that name")?;
        return Ok(false);
    }
    Ok(all_hold)
}
