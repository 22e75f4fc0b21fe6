//! The latest text of a number at the right end of a column.

ghost use Rattle.std.specs.Prelude.{◌≡◌, ◌++◌, List, ℕ, IfOk, IfSome, OnOk, None, decimal, length};
ghost use Rattle.fw_holders_text.specs.Kept.{AreNumbers, IsNumber, NoNumbers};
ghost use Rattle.fw_holders_text.specs.Names.{right};

use crate::names::put_right;
use crate::text_row::TextRow;
use fw_log_names::put_word;
use std::alloc::{AllocError, Global};

/// How many rows there are for numbers of one kind.
const NUMBER_ROWS: usize = 64;

/// The number that was last put, if its text is kept; and the text, with the word after it.
#[derive(Drop)]
pub(crate) struct KeptNumber {
    pub number: Option<u64>,
    pub text: TextRow,
}

impl KeptNumber {
    /// None so far.
    pub(crate) fn new() -> KeptNumber
        ensures { result.number ≡ None }
    {
        KeptNumber {
            number: None,
            text: TextRow::new(),
        }
    }

    // Appends another number, and keeps its text.
    #[inline(never)]
    fn put_new(
        &mut self,
        text: &mut Vec<u8>,
        number: u64,
        width: usize,
        after: &str,
    ) -> Result<(), AllocError>
        ensures kept { IsNumber width after.now self.new }
        ensures text { OnOk result (text.new.items ≡ text.old.items ++ (right width (decimal number) ++ after.now)) }
    {
        self.number = None;
        let begins = text.len();
        put_right(text, number, width)?;
        put_word(text, after)?;
        if self.text.keep(&text[begins..]) {
            self.number = Some(number);
        }
        Ok(())
    }

    /// Appends a number at the right end of a column of this width, and a word: always the same width and the same word.
    #[inline(always)]
    pub(crate) fn put(
        &mut self,
        text: &mut Vec<u8>,
        number: u64,
        width: usize,
        after: &str,
    ) -> Result<(), AllocError>
        requires kept { IsNumber width after.now self.old }
        ensures kept { IsNumber width after.now self.new }
        ensures text { OnOk result (text.new.items ≡ text.old.items ++ (right width (decimal number) ++ after.now)) }
    {
        if self.number == Some(number) {
            self.text.put(text)
        } else {
            self.put_new(text, number, width, after)
        }
    }

    /// Goes on to this number, for a column of this width and this word: always the same.
    #[inline(always)]
    pub(crate) fn keep(
        &mut self,
        scratch: &mut Vec<u8>,
        number: u64,
        width: usize,
        after: &str,
    ) -> Result<(), AllocError>
        requires kept { IsNumber width after.now self.old }
        ensures { IsNumber width after.now self.new }
    {
        if self.number == Some(number) {
            return Ok(());
        }
        scratch.clear();
        self.put_new(scratch, number, width, after)
    }

    /// The text of a number, if it is at hand.
    #[inline(always)]
    pub(crate) fn row(&self, number: u64) -> Option<&TextRow>
        ensures { (width : ℕ) (after : List ℕ) → IsNumber width after self.now → IfSome result (λ row. row.now ≡ right width (decimal number) ++ after) }
    {
        if self.number == Some(number) {
            Some(&self.text)
        } else {
            None
        }
    }
}

// The row that a number belongs to: any would do.
#[inline(always)]
fn row_of(number: u64) -> usize {
    (number % 64) as usize
}

/// Rows for numbers. An error says that memory ran out.
pub(crate) fn number_rows(alloc: Global) -> Result<Vec<KeptNumber>, AllocError>
    ensures { IfOk result (λ rows. NoNumbers rows.items) }
{
    let mut rows = Vec::with_capacity(alloc, NUMBER_ROWS)?;
    for _ in 0..NUMBER_ROWS {
        rows.push(KeptNumber::new())?;
    }
    Ok(rows)
}

/// Sees to it that the text of a number is in one of the rows, for a column of this width and this word: always the same.
#[inline(always)]
pub(crate) fn keep_number(
    rows: &mut [KeptNumber],
    scratch: &mut Vec<u8>,
    number: u64,
    width: usize,
    after: &str,
) -> Result<(), AllocError>
    requires kept { AreNumbers width after.now rows.old }
    ensures size { length rows.new ≡ length rows.old }
    ensures kept { AreNumbers width after.now rows.new }
{
    let row = row_of(number);
    if row >= rows.len() {
        return Ok(());
    }
    rows[row].keep(scratch, number, width, after)
}

/// The text of a number, if it is at hand in one of the rows.
#[inline(always)]
pub(crate) fn number_row(rows: &[KeptNumber], number: u64) -> Option<&TextRow>
    ensures { (width : ℕ) (after : List ℕ) → AreNumbers width after rows.now → IfSome result (λ row. row.now ≡ right width (decimal number) ++ after) }
{
    let kept = rows.get(row_of(number))?;
    kept.row(number)
}
