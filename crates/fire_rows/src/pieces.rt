//! The pieces of which scripts, and lines that logs tell, are put together.

use crate::miss::Miss;
use crate::row::is_row;
use std::alloc::{AllocError, Global};
use std::fs;

/// The file of the pieces: a line `NAME:`, and the piece's lines after it, each after two spaces.
const FILE: &str = "pieces.txt";

/// The text of the pieces that these names, separated by spaces, stand for, in order. A name is that of a piece, of a piece so many
/// times, `NAME*COUNT`, or of a file in a folder.
pub(crate) fn text_of(rt: &HostRuntime, names: &str) -> Result<String, Miss> {
    let table = fs::read_to_string(rt, FILE)?;
    let mut text = String::new(rt.alloc());
    for name in names.split_whitespace() {
        put_named(rt, &table, name, &mut text)?;
    }
    Ok(text)
}

/// Appends a file, or a piece as often as its name says.
fn put_named(rt: &HostRuntime, table: &str, name: &str, text: &mut String) -> Result<(), Miss> {
    if !name.contains("/") {
        return put_times(rt.alloc(), table, name, text);
    }
    text.push_str(&fs::read_to_string(rt, name)?)?;
    Ok(())
}

/// Appends a piece as often as its name says.
fn put_times(alloc: Global, table: &str, name: &str, text: &mut String) -> Result<(), Miss> {
    let (name, count) = name.split_once("*").unwrap_or((name, "1"));
    let Ok(count) = count.parse::<u32>() else {
        return Err(Miss::NoRow("how often a piece stands there"));
    };
    let Some(piece) = piece_of(alloc, table, name)? else {
        return Err(Miss::NoRow("a piece of that name"));
    };
    for _ in 0..count {
        text.push_str(&piece)?;
    }
    Ok(())
}

/// The lines of the piece of a name. None if there is no such piece.
fn piece_of(alloc: Global, table: &str, name: &str) -> Result<Option<String>, AllocError> {
    let mut text = String::new(alloc);
    let mut is_there = false;
    let mut is_here = false;
    for line in table.lines().filter(|line| is_row(line)) {
        if let Some(found) = line.strip_suffix(":") {
            is_here = found == name;
            is_there = is_there || is_here;
        } else if is_here {
            text.push_str(line.strip_prefix("  ").unwrap_or(line))?;
            text.push_str("\n")?;
        }
    }
    Ok(if is_there { Some(text) } else { None })
}
