//! The text of an exploration.

ghost use Rattle.std.specs.Prelude.{◌≡◌, ◌++◌, ◌∷◌, OnOk, IfOk, Some, decimal, length};
ghost use Rattle.fw_explore_told.specs.Telling.{remark};
ghost use Rattle.fw_explore_endings.specs.Texts.{count_text, counts_text, device_line, devices_text, first_text, goes_on, moves_text};
ghost use Rattle.fw_explore_endings.specs.Texts.{row_head, row_text, rows_text, run_text, shortest, takes_half_steps, text_of};

use crate::names::names_device;
use crate::rows::{Row, Rows};
use fw_explore_movers::{Explored, Mover, MoverKind};
use fw_script_command::Name;
use std::alloc::{AllocError, Global};

/// From here on a count may be more.
const MOST_TOLD: u128 = 0xFFFF_FFFF_FFFF_FFFF_FFFF_FFFF_FFFF_FFFF;

// Appends a number.
fn put_number(alloc: Global, out: &mut Vec<u8>, number: u128) -> Result<(), AllocError>
    ensures { OnOk result (out.new.items ≡ out.old.items ++ decimal number) }
{
    let digits = format!(in alloc; "{number}")?;
    out.extend_from_slice(digits.as_bytes())
}

// Appends a count, and that it may be more.
fn put_count(alloc: Global, out: &mut Vec<u8>, count: u128) -> Result<(), AllocError>
    ensures { OnOk result (out.new.items ≡ out.old.items ++ count_text count) }
{
    put_number(alloc, out, count)?;
    if count == MOST_TOLD {
        return out.extend_from_slice(b" or more");
    }
    Ok(())
}

// Appends a text and a number.
fn put_part(alloc: Global, out: &mut Vec<u8>, prefix: &[u8], number: u128) -> Result<(), AllocError>
    ensures { OnOk result (out.new.items ≡ out.old.items ++ prefix.now ++ decimal number) }
{
    out.extend_from_slice(prefix)?;
    put_number(alloc, out, number)
}

// Appends how many interleavings ended, and how many were cut off.
fn put_counts(alloc: Global, out: &mut Vec<u8>, ended: u128, cut: u128) -> Result<(), AllocError>
    ensures { OnOk result (out.new.items ≡ out.old.items ++ counts_text ended cut) }
{
    out.extend_from_slice(b"ended ")?;
    put_count(alloc, out, ended)?;
    out.extend_from_slice(b", cut off ")?;
    put_count(alloc, out, cut)
}

// Appends the line of a mover, for so many half steps in a row.
fn put_run(alloc: Global, out: &mut Vec<u8>, mover: &Mover, count: u128) -> Result<(), AllocError>
    ensures { OnOk result (out.new.items ≡ out.old.items ++ run_text (Some mover.now) count) }
{
    let line = mover.line.as_slice();
    match mover.kind {
        MoverKind::HalfSteps => {
            out.extend_from_slice(&line[..line.len().saturating_sub(1)])?;
            put_number(alloc, out, count)?;
        }
        MoverKind::Once => out.extend_from_slice(line)?,
    }
    out.extend_from_slice(b"\n")
}

fn takes_half_steps(mover: &Mover) -> bool
    ensures { result ≡ takes_half_steps (Some mover.now) }
{
    match mover.kind {
        MoverKind::HalfSteps => true,
        MoverKind::Once => false,
    }
}

// Whether a move of a mover is told with the next: half steps of one mover.
fn goes_on(mover: &Mover, here: u8, next: Option<u8>) -> bool
    ensures { result ≡ goes_on (Some mover.now) here next }
{
    match next {
        Some(next) => here == next && takes_half_steps(mover),
        None => false,
    }
}

// Appends moves as lines: half steps of one mover that follow each other are one.
fn put_moves(
    alloc: Global,
    out: &mut Vec<u8>,
    explored: &Explored,
    moves: &[u8],
) -> Result<(), AllocError>
    ensures { OnOk result (out.new.items ≡ out.old.items ++ moves_text explored.now moves.now) }
{
    let mut count: u128 = 0;
    for at in 0..moves.len() {
        let here = moves[at];
        count += 1;
        if let Some(mover) = explored.movers.get(usize::from(here)) {
            if goes_on(mover, here, moves.get(at + 1).copied()) {
                continue;
            }
            put_run(alloc, out, mover, count)?;
        }
        count = 0;
    }
    Ok(())
}

// Appends what a paragraph begins with: an empty line, and the ending's number and counts.
fn put_row_head(alloc: Global, out: &mut Vec<u8>, number: u128, row: &Row) -> Result<(), AllocError>
    ensures { OnOk result (out.new.items ≡ out.old.items ++ 10 ∷ remark (row_head number row.now)) }
{
    put_part(alloc, out, b"\n# ending ", number)?;
    out.extend_from_slice(b": ")?;
    put_counts(alloc, out, row.ended, row.cut)?;
    put_part(alloc, out, b"; first in ", row.first.len() as u128)?;
    out.extend_from_slice(b" moves\n")
}

// Appends a paragraph.
fn put_row(
    alloc: Global,
    out: &mut Vec<u8>,
    explored: &Explored,
    number: u128,
    row: &Row,
) -> Result<(), AllocError>
    ensures { OnOk result (out.new.items ≡ out.old.items ++ row_text explored.now number row.now) }
{
    put_row_head(alloc, out, number, row)?;
    out.extend_from_slice(row.ending.as_slice())?;
    put_moves(alloc, out, explored, row.first.as_slice())?;
    out.extend_from_slice(row.lines.as_slice())?;
    out.extend_from_slice(b"end\n")
}

// Appends all paragraphs.
fn put_rows(
    alloc: Global,
    out: &mut Vec<u8>,
    explored: &Explored,
    rows: &[Row],
) -> Result<(), AllocError>
    ensures { OnOk result (out.new.items ≡ out.old.items ++ rows_text explored.now 1 rows.now) }
{
    for (at, row) in rows.iter().enumerate() {
        put_row(alloc, out, explored, at as u128 + 1, row)?;
    }
    Ok(())
}

// The moves of the first interleaving of all.
fn shortest(rows: &[Row]) -> u128
    ensures { result ≡ shortest rows.now }
{
    match rows.first() {
        Some(row) => row.first.len() as u128,
        None => 0,
    }
}

// Appends the first line.
fn put_first(alloc: Global, out: &mut Vec<u8>, rows: &Rows) -> Result<(), AllocError>
    ensures { OnOk result (out.new.items ≡ out.old.items ++ first_text rows.now.list.items rows.now.ended rows.now.cut rows.now.longest) }
{
    out.extend_from_slice(b"# interleavings: ")?;
    put_counts(alloc, out, rows.ended, rows.cut)?;
    put_part(alloc, out, b"; moves ", shortest(rows.list.as_slice()))?;
    put_part(alloc, out, b" to ", u128::from(rows.longest))?;
    put_part(alloc, out, b"; endings ", rows.list.len() as u128)?;
    out.extend_from_slice(b"\n")
}

// Appends the line of a device that movers name.
fn put_device(alloc: Global, out: &mut Vec<u8>, device: u128, name: &Name) -> Result<(), AllocError>
    ensures { OnOk result (out.new.items ≡ out.old.items ++ device_line device name.now) }
{
    put_part(alloc, out, b"# device ", device)?;
    out.extend_from_slice(b" ")?;
    out.extend_from_slice(name.as_slice())?;
    out.extend_from_slice(b"\n")
}

// Appends the devices that movers name, in order of declaration.
fn put_devices(
    alloc: Global,
    out: &mut Vec<u8>,
    movers: &[Mover],
    names: &[Name],
) -> Result<(), AllocError>
    ensures { OnOk result (out.new.items ≡ out.old.items ++ devices_text movers.now names.now (length names.now)) }
{
    for device in 0..names.len() {
        let name = names[device];
        if names_device(movers, &name) {
            put_device(alloc, out, device as u128, &name)?;
        }
    }
    Ok(())
}

/// The text of all that was found: the head, and a paragraph for each ending. An error says that memory ran out.
pub fn text_of(
    alloc: Global,
    explored: &Explored,
    names: &[Name],
    rows: &Rows,
) -> Result<Vec<u8>, AllocError>
    ensures { IfOk result (λ t. t.items ≡ text_of explored.now names.now rows.now.list.items rows.now.ended rows.now.cut rows.now.longest) }
{
    let mut out = Vec::new(alloc);
    put_first(alloc, &mut out, rows)?;
    put_devices(alloc, &mut out, explored.movers.as_slice(), names)?;
    put_rows(alloc, &mut out, explored, rows.list.as_slice())?;
    Ok(out)
}
