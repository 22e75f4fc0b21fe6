//! The latest tails of packets, as text.

ghost use Rattle.std.specs.Prelude.{◌≡◌, ◌++◌, IsTrue, OnOk, Some, codes};
ghost use Rattle.fw_log_explain.specs.Tails.{tail_text};

use fw_log_explain::{Tail, TailWords, put_tail};
use fw_log_names::{Pairs, put_word};
use std::alloc::{AllocError, Global};
use std::marker::Model;
use std::mem::swap;

/// How many rows there are: each tail belongs to one, and two are kept of each.
const ROWS: usize = 1024;

/// A tail, if there is one, and its text with a line feed. Contracts see it as the text.
#[derive(Drop)]
struct Kept {
    tail: Option<Tail>,
    text: Vec<u8>,
}

impl Model for Kept {
    ghost use Rattle.std.specs.Prelude.{List, ℕ, ◌≡◌, ◌++◌, IfSome, codes};
    ghost use Rattle.fw_log_explain.specs.Tails.{tail_text};

    ghost Value = { List ℕ };

    ghost view = { λ r. r.text.items };

    ghost invariant = { λ r. IfSome r.tail (λ t. r.text.items ≡ tail_text t ++ codes "\n") };
}

// The words are of one kind, and the same.
#[inline(always)]
fn are_same(words: TailWords, others: TailWords) -> bool
    ensures { IsTrue result → words ≡ others }
{
    match (words, others) {
        (TailWords::Read, TailWords::Read) => true,
        (TailWords::Value(value), TailWords::Value(other)) => value == other,
        (TailWords::NoValue(rcode), TailWords::NoValue(other)) => rcode == other,
        (TailWords::Swap(s), TailWords::Swap(t)) => s == t,
        (TailWords::Old(s, old), TailWords::Old(t, other)) => s == t && old == other,
        (TailWords::Write(value), TailWords::Write(other)) => value == other,
        (TailWords::WritePair(first, second), TailWords::WritePair(third, fourth)) => {
            first == third && second == fourth
        }
        (TailWords::Written(rcode), TailWords::Written(other)) => rcode == other,
        _ => false,
    }
}

// It is this tail.
#[inline(always)]
fn is_same(kept: &Option<Tail>, tail: &Tail) -> bool
    ensures { IsTrue result → kept.now ≡ Some tail.now }
{
    match kept {
        Some(other) => other.offset == tail.offset && are_same(other.words, tail.words),
        None => false,
    }
}

// The row that a tail belongs to: any would do.
#[inline(always)]
fn row_of(tail: &Tail) -> usize {
    let (kind, words) = match tail.words {
        TailWords::Read => (0, 0),
        TailWords::Value(value) | TailWords::Write(value) => (1, value),
        TailWords::Swap(s) => (2, s.argument ^ (s.new >> 3)),
        TailWords::WritePair(first, second) => (2, first ^ (second >> 3)),
        TailWords::Old(s, old) => (3, s.argument ^ (s.new >> 3) ^ (old >> 5)),
        TailWords::Written(_) => (1, 0),
        TailWords::NoValue(_) => (3, 0),
    };
    let mixed = (tail.offset % 4096) as u32 ^ words ^ (words >> 11) ^ (words >> 21) ^ (kind << 8);
    mixed as usize % ROWS
}

impl Kept {
    fn new(alloc: Global) -> Kept {
        Kept {
            tail: None,
            text: Vec::new(alloc),
        }
    }

    // Makes the text of this tail.
    #[cold]
    #[inline(never)]
    fn make(&mut self, pairs: &Pairs, tail: &Tail) -> Result<(), AllocError>
        ensures { OnOk result (self.new ≡ tail_text tail.now ++ codes "\n") }
    {
        self.tail = None;
        self.text.clear();
        put_tail(&mut self.text, pairs, tail)?;
        put_word(&mut self.text, "\n")?;
        self.tail = Some(*tail);
        Ok(())
    }

    // Goes on to the text of this tail.
    fn set(&mut self, pairs: &Pairs, tail: &Tail) -> Result<(), AllocError>
        ensures { OnOk result (self.new ≡ tail_text tail.now ++ codes "\n") }
    {
        if is_same(&self.tail, tail) {
            return Ok(());
        }
        self.make(pairs, tail)
    }
}

/// The two latest tails that belong to a row, the latest first.
#[derive(Drop)]
struct Row {
    first: Kept,
    second: Kept,
}

impl Row {
    fn new(alloc: Global) -> Row {
        Row {
            first: Kept::new(alloc),
            second: Kept::new(alloc),
        }
    }

    // Goes on to this tail, which is not the latest.
    #[inline(never)]
    fn turn(&mut self, pairs: &Pairs, tail: &Tail) -> Result<(), AllocError>
        ensures { OnOk result (self.new.first ≡ tail_text tail.now ++ codes "\n") }
    {
        swap(&mut self.first, &mut self.second);
        self.first.set(pairs, tail)
    }

    // Goes on to this tail, which it mostly is at already.
    #[inline(always)]
    fn set(&mut self, pairs: &Pairs, tail: &Tail) -> Result<(), AllocError>
        ensures { OnOk result (self.new.first ≡ tail_text tail.now ++ codes "\n") }
    {
        if is_same(&self.first.tail, tail) {
            return Ok(());
        }
        self.turn(pairs, tail)
    }

    fn as_slice(&self) -> &[u8]
        ensures { result.now ≡ self.now.first }
    {
        &self.first.text
    }
}

/// The latest tails.
#[derive(Drop)]
pub(crate) struct Memo {
    rows: Vec<Row>,
}

impl Memo {
    /// None so far. An error says that memory ran out.
    pub(crate) fn new(alloc: Global) -> Result<Memo, AllocError> {
        let mut rows = Vec::with_capacity(alloc, ROWS)?;
        for _ in 0..ROWS {
            rows.push(Row::new(alloc))?;
        }
        Ok(Memo { rows })
    }

    /// Appends what a packet says after its head, and a line feed.
    #[inline(always)]
    pub(crate) fn put(
        &mut self,
        text: &mut Vec<u8>,
        pairs: &Pairs,
        tail: &Tail,
    ) -> Result<(), AllocError>
        ensures { OnOk result (text.new.items ≡ text.old.items ++ (tail_text tail.now ++ codes "\n")) }
    {
        match self.rows.get_mut(row_of(tail)) {
            Some(row) => {
                row.set(pairs, tail)?;
                text.extend_from_slice(row.as_slice())
            }
            None => {
                put_tail(text, pairs, tail)?;
                put_word(text, "\n")
            }
        }
    }
}
