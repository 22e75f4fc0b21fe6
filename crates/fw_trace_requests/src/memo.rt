//! The latest phrases, as text.

ghost use Rattle.std.specs.Prelude.{◌≡◌, ◌≤◌, ◌++◌, IfSome, IsTrue, OnOk, Some, take};
ghost use Rattle.fw_trace_names.specs.Names.{Naming};
ghost use Rattle.fw_trace_requests.specs.Phrases.{phrase_text};

use crate::carried::Carried;
use crate::phrase::{Phrase, Words, is_nameless};
use crate::spread::row_of;
use crate::words::put_words;
use fw_log_names::Pairs;
use fw_log_registers::RegisterPlace;
use fw_trace_names::{Names, TOLD, put_row};
use std::alloc::{AllocError, Global};
use std::marker::Model;

/// How many phrases are kept at most, each in the row that it belongs to or in the one beside it. A power of two.
const ROWS: usize = 1024;

/// A phrase that has no name in it, if there is one, and its text in a row that is copied whole.
#[derive(Drop)]
struct Row {
    phrase: Option<Phrase>,
    text: [u8; TOLD],
    size: usize,
}

impl Model for Row {
    ghost use Rattle.std.specs.Prelude.{◌≡◌, ◌≤◌, List, ℕ, IfSome, take};
    ghost use Rattle.fw_trace_names.specs.Names.{Naming};
    ghost use Rattle.fw_trace_requests.specs.Phrases.{phrase_text};

    ghost Value = { List ℕ };

    ghost view = { λ r. take r.size r.text };

    ghost invariant = { λ r. (r.size ≤ 112) × IfSome r.phrase (λ p. (n : Naming) → take r.size r.text ≡ phrase_text n p) };
}

// The same is carried.
#[inline(always)]
fn is_same_frame(carried: Carried, other: Carried) -> bool
    ensures { IsTrue result → carried ≡ other }
{
    match (carried, other) {
        (Carried::Nothing, Carried::Nothing) => true,
        (Carried::Quadlet(q), Carried::Quadlet(r)) => q == r,
        (Carried::Pair(a, b), Carried::Pair(c, d)) => a == c && b == d,
        _ => false,
    }
}

// The words are of one kind, and the same.
#[inline(always)]
fn are_same(words: Words, others: Words) -> bool
    ensures { IsTrue result → words ≡ others }
{
    match (words, others) {
        (Words::Write, Words::Write) | (Words::Read, Words::Read) => true,
        (Words::Lock(Some(s)), Words::Lock(Some(t))) => s == t,
        (Words::Word(word), Words::Word(other)) => word == other,
        (Words::Change(s), Words::Change(t)) | (Words::Proposed(s), Words::Proposed(t)) => s == t,
        (Words::Brought(word), Words::Brought(other)) => word == other,
        (Words::Swapped(s, word), Words::Swapped(t, other)) => s == t && word == other,
        (Words::Written(carried), Words::Written(other)) => is_same_frame(carried, other),
        _ => false,
    }
}

// It is this phrase.
#[inline(always)]
fn is_same(kept: &Option<Phrase>, phrase: &Phrase) -> bool
    ensures { IsTrue result → kept.now ≡ Some phrase.now }
{
    match kept {
        Some(other) => other.offset == phrase.offset && are_same(phrase.words, other.words),
        None => false,
    }
}

impl Row {
    fn new() -> Row {
        Row {
            phrase: None,
            text: [0; TOLD],
            size: 0,
        }
    }

    // Keeps a phrase that has no name in it, and its text, unless that is too long.
    fn keep(&mut self, phrase: &Phrase, text: &[u8])
        requires { (n : Naming) → text.now ≡ phrase_text n phrase.now }
    {
        self.phrase = None;
        if text.len() > TOLD {
            return;
        }
        self.text[..text.len()].copy_from_slice(text);
        self.size = text.len();
        self.phrase = Some(*phrase);
    }

    // Appends a phrase, and keeps it if it has no name in it. An error says that memory ran out.
    #[inline(never)]
    fn put_new(
        &mut self,
        text: &mut Vec<u8>,
        pairs: &Pairs,
        names: &Names,
        phrase: &Phrase,
    ) -> Result<(), AllocError>
        ensures { OnOk result (text.new.items ≡ text.old.items ++ phrase_text names.now phrase.now) }
    {
        let place = RegisterPlace::of(phrase.offset);
        let begins = text.len();
        put_words(text, pairs, names, place, phrase.words)?;
        if is_nameless(place) {
            self.keep(phrase, &text[begins..]);
        }
        Ok(())
    }
}

/// The latest phrases, as text that is at hand. What is put does not depend on it.
#[derive(Drop)]
pub struct Memo {
    rows: Vec<Row>,
}

impl Memo {
    /// None so far, and no memory yet: it takes some 160,000 bytes when the first phrase is put.
    pub fn new(alloc: Global) -> Memo {
        Memo {
            rows: Vec::new(alloc),
        }
    }

    // Makes the rows. An error says that memory ran out.
    #[inline(never)]
    fn fill(&mut self) -> Result<(), AllocError> {
        let alloc = *self.rows.allocator();
        self.rows = Vec::with_capacity(alloc, ROWS)?;
        for _ in 0..ROWS {
            self.rows.push(Row::new())?;
        }
        Ok(())
    }

    // What is kept in this row begins with a phrase: that, and the phrase's length, if it is so.
    #[inline(always)]
    fn row_at(&self, at: usize, phrase: &Phrase) -> Option<(&[u8; TOLD], usize)>
        ensures { IfSome result (λ r. (r.1 ≤ 112) × ((n : Naming) → take r.1 r.0.now ≡ phrase_text n phrase.now)) }
    {
        match self.rows.get(at) {
            Some(row) if is_same(&row.phrase, phrase) => Some((&row.text, row.size)),
            _ => None,
        }
    }

    // The same, if it is rare.
    #[inline(never)]
    fn row_beside(&self, own: usize, phrase: &Phrase) -> Option<(&[u8; TOLD], usize)>
        ensures { IfSome result (λ r. (r.1 ≤ 112) × ((n : Naming) → take r.1 r.0.now ≡ phrase_text n phrase.now)) }
    {
        self.row_at(own ^ 1, phrase)
    }

    // The row that begins with a phrase, and the phrase's length, if it is kept.
    #[inline(always)]
    pub(crate) fn row(&self, phrase: &Phrase) -> Option<(&[u8; TOLD], usize)>
        ensures { IfSome result (λ r. (r.1 ≤ 112) × ((n : Naming) → take r.1 r.0.now ≡ phrase_text n phrase.now)) }
    {
        let own = row_of(phrase);
        match self.row_at(own, phrase) {
            Some(told) => Some(told),
            None => self.row_beside(own, phrase),
        }
    }

    // The row that a phrase goes to which is not in its own: that one if it is empty, else the one beside it.
    fn other_row(&self, own: usize) -> usize {
        match self.rows.get(own) {
            Some(row) if row.phrase.is_none() => own,
            _ => own ^ 1,
        }
    }

    // Appends a phrase that is not in its own row.
    #[inline(never)]
    fn put_elsewhere(
        &mut self,
        text: &mut Vec<u8>,
        pairs: &Pairs,
        names: &Names,
        phrase: &Phrase,
        own: usize,
    ) -> Result<(), AllocError>
        ensures { OnOk result (text.new.items ≡ text.old.items ++ phrase_text names.now phrase.now) }
    {
        let at = self.other_row(own);
        match self.rows.get_mut(at) {
            Some(row) => {
                if is_same(&row.phrase, phrase) {
                    put_row(text, &row.text, row.size)
                } else {
                    row.put_new(text, pairs, names, phrase)
                }
            }
            None => {
                self.fill()?;
                put_words(
                    text,
                    pairs,
                    names,
                    RegisterPlace::of(phrase.offset),
                    phrase.words,
                )
            }
        }
    }

    /// Appends a phrase. An error says that memory ran out.
    // Inlined, since its callers know of which kind the phrase is.
    #[inline(always)]
    pub(crate) fn put(
        &mut self,
        text: &mut Vec<u8>,
        pairs: &Pairs,
        names: &Names,
        phrase: &Phrase,
    ) -> Result<(), AllocError>
        ensures { OnOk result (text.new.items ≡ text.old.items ++ phrase_text names.now phrase.now) }
    {
        let own = row_of(phrase);
        match self.rows.get(own) {
            Some(row) if is_same(&row.phrase, phrase) => put_row(text, &row.text, row.size),
            _ => self.put_elsewhere(text, pairs, names, phrase, own),
        }
    }
}
