//! Short texts in rows of bytes that are copied whole, and lines that are put together of them.

ghost use Rattle.std.specs.Prelude.{◌≡◌, ◌≤◌, ◌-◌, ◌+◌, ◌++◌, [], IsTrue, OnOk, codes, length, take};

use std::alloc::AllocError;
use std::marker::Model;

/// How many bytes a row has.
const ROOM: usize = 48;

/// How many bytes a line has at most: rows for its beginning and for each channel.
const LINE_ROOM: usize = 3216;

/// A text of at most 48 bytes. To copy its whole row takes less than to copy so many bytes. Contracts see it as the text.
#[derive(Drop)]
pub struct TextRow {
    bytes: [u8; ROOM],
    // How many of the bytes are the text.
    size: usize,
}

impl Model for TextRow {
    ghost use Rattle.std.specs.Prelude.{List, ℕ, ◌≤◌, take};

    ghost Value = { List ℕ };

    ghost view = { λ r. take r.size r.bytes };

    ghost invariant = { λ r. r.size ≤ 48 };
}

impl TextRow {
    /// Of no text.
    pub(crate) fn new() -> TextRow
        ensures { result ≡ [] }
    {
        TextRow {
            bytes: [0; ROOM],
            size: 0,
        }
    }

    /// Keeps a text unless it is too long, and answers whether it does.
    pub(crate) fn keep(&mut self, text: &[u8]) -> bool
        ensures { IsTrue result → self.new ≡ text.now }
    {
        if text.len() > ROOM {
            return false;
        }
        self.bytes[..text.len()].copy_from_slice(text);
        self.size = text.len();
        true
    }

    /// Appends the text.
    #[inline(always)]
    pub(crate) fn put(&self, text: &mut Vec<u8>) -> Result<(), AllocError>
        ensures { OnOk result (text.new.items ≡ text.old.items ++ self.now) }
    {
        text.extend_from_slice(&self.bytes)?;
        let over = ROOM - self.size;
        text.truncate(text.len() - over);
        Ok(())
    }
}

// Writes a row over the bytes from `at` on, and answers where so many of its bytes end.
#[inline(always)]
fn write_row<const N: usize>(out: &mut [u8], at: usize, row: &[u8; N], size: usize) -> usize
    requires within { size ≤ N }
    requires room { at + N ≤ length out.old }
    ensures size { length out.new ≡ length out.old }
    ensures end { result ≡ at + size }
    ensures text { take result out.new ≡ take at out.old ++ take size row.now }
{
    out[at..at + N].copy_from_slice(row);
    at + size
}

/// A line that is put together of rows. Contracts see it as its text.
#[derive(Drop)]
pub struct Line {
    bytes: [u8; LINE_ROOM],
    // How many of the bytes are the line.
    size: usize,
}

impl Model for Line {
    ghost use Rattle.std.specs.Prelude.{List, ℕ, ◌≤◌, take};

    ghost Value = { List ℕ };

    ghost view = { λ l. take l.size l.bytes };

    ghost invariant = { λ l. l.size ≤ 3216 };
}

impl Line {
    /// Of no text.
    pub fn new() -> Line
        ensures { result ≡ [] }
    {
        Line {
            bytes: [0; LINE_ROOM],
            size: 0,
        }
    }

    /// Begins anew.
    #[inline(always)]
    pub fn clear(&mut self)
        ensures { self.new ≡ [] }
    {
        self.size = 0;
    }

    /// Appends a text.
    #[inline(always)]
    pub fn put(&mut self, row: &TextRow)
        requires room { length self.old + 48 ≤ 3216 }
        ensures text { self.new ≡ self.old ++ row.now }
        ensures few { length self.new ≤ length self.old + 48 }
    {
        self.size = write_row(&mut self.bytes, self.size, &row.bytes, row.size);
    }

    /// Takes off the last two bytes, and ends the line.
    #[inline(always)]
    pub fn end(&mut self)
        requires some { 2 ≤ length self.old }
        ensures { self.new ≡ take (length self.old - 2) self.old ++ codes "\n" }
    {
        self.size = write_row(&mut self.bytes, self.size - 2, b"\n", 1);
    }

    /// The text.
    #[inline(always)]
    pub fn as_slice(&self) -> &[u8]
        ensures { result.now ≡ self.now }
    {
        &self.bytes[..self.size]
    }
}
