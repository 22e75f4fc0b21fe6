//! What requests ask, and what responses answer.

ghost use Rattle.std.specs.Prelude.{◌≡◌, ◌++◌, [], OnOk};
ghost use Rattle.fw_log_registers.specs.Places.{place_of};
ghost use Rattle.fw_trace_names.specs.Registers.{named_word, changes_of};
ghost use Rattle.fw_trace_requests.specs.Answers.{asked_text, changes_by, changes_asked, if_made, rcode_or, not_made_text, made_text};
ghost use Rattle.fw_trace_requests.specs.Carried.{frame_told};
ghost use Rattle.fw_trace_requests.specs.Replies.{found_text, word_told, reply_text};

use crate::carried::{Carried, put_frame_of};
use crate::memo::Memo;
use crate::packets::{COMPLETE, Reply};
use crate::phrase::{Phrase, Words};
use crate::words::put_if_made;
use fw_log_names::{Pairs, put_word, rcode_name};
use fw_log_registers::RegisterPlace;
use fw_log_requests::{Answer, Asked};
use fw_trace_names::{Names, put_named_part};
use fw_words::Swap;
use std::alloc::AllocError;

// Appends what a request asks.
pub(crate) fn put_asked(
    text: &mut Vec<u8>,
    pairs: &Pairs,
    memo: &mut Memo,
    names: &Names,
    q: &Asked,
) -> Result<(), AllocError>
    ensures { OnOk result (text.new.items ≡ text.old.items ++ asked_text q.now) }
{
    memo.put(text, pairs, names, &Phrase::asked(q))
}

// Appends what a swap at an offset changes.
#[tactic(auto, unfolding(crate::specs::Phrases::words_text))]
fn put_change(
    text: &mut Vec<u8>,
    pairs: &Pairs,
    memo: &mut Memo,
    names: &Names,
    offset: u64,
    swap: Swap,
) -> Result<(), AllocError>
    ensures { OnOk result (text.new.items ≡ text.old.items ++ changes_of names.now (place_of offset) swap) }
{
    let words = Words::Change(swap);
    memo.put(text, pairs, names, &Phrase { offset, words })
}

// Appends a word that stands at an offset, and what it says.
#[tactic(auto, unfolding(crate::specs::Phrases::words_text))]
fn put_word_at(
    text: &mut Vec<u8>,
    pairs: &Pairs,
    memo: &mut Memo,
    names: &Names,
    offset: u64,
    word: u32,
) -> Result<(), AllocError>
    ensures { OnOk result (text.new.items ≡ text.old.items ++ named_word names.now (place_of offset) word) }
{
    let words = Words::Word(word);
    memo.put(text, pairs, names, &Phrase { offset, words })
}

// Appends what a request would change.
#[tactic(auto, unfolding(crate::specs::Answers::changes_by))]
pub(crate) fn put_changes(
    text: &mut Vec<u8>,
    pairs: &Pairs,
    memo: &mut Memo,
    names: &Names,
    q: &Asked,
) -> Result<(), AllocError>
    ensures { OnOk result (text.new.items ≡ text.old.items ++ changes_asked names.now q.now) }
{
    match q.swap {
        Some(swap) => put_change(text, pairs, memo, names, q.offset, swap),
        None => Ok(()),
    }
}

// Appends what a request would change that no answer has decided.
#[tactic(auto, unfolding(crate::specs::Answers::changes_by, crate::specs::Answers::if_made))]
fn put_changes_if_made(text: &mut Vec<u8>, names: &Names, q: &Asked) -> Result<(), AllocError>
    ensures { OnOk result (text.new.items ≡ text.old.items ++ if_made (changes_asked names.now q.now)) }
{
    match q.swap {
        Some(swap) => put_if_made(text, names, RegisterPlace::of(q.offset), swap),
        None => Ok(()),
    }
}

// Appends what a request asks, carries and would change, one after the other.
#[inline(never)]
fn put_apart(
    text: &mut Vec<u8>,
    pairs: &Pairs,
    memo: &mut Memo,
    names: &Names,
    q: &Asked,
    carried: Carried,
) -> Result<(), AllocError>
    ensures { OnOk result (text.new.items ≡ text.old.items ++ (asked_text q.now ++ (frame_told carried ++ if_made (changes_asked names.now q.now)))) }
{
    put_asked(text, pairs, memo, names, q)?;
    put_frame_of(text, carried)?;
    put_changes_if_made(text, names, q)
}

// Appends what a request asks, carries and would change.
#[inline(always)]
pub(crate) fn put_proposed(
    text: &mut Vec<u8>,
    pairs: &Pairs,
    memo: &mut Memo,
    names: &Names,
    q: &Asked,
    carried: Carried,
) -> Result<(), AllocError>
    ensures { OnOk result (text.new.items ≡ text.old.items ++ (asked_text q.now ++ (frame_told carried ++ if_made (changes_asked names.now q.now)))) }
{
    match Phrase::proposed(q, carried) {
        Some(phrase) => memo.put(text, pairs, names, &phrase),
        None => put_apart(text, pairs, memo, names, q, carried),
    }
}

// Appends the code of an answer that is not complete.
#[tactic(auto, unfolding(crate::specs::Answers::rcode_or))]
fn put_rcode(text: &mut Vec<u8>, rcode: u8) -> Result<(), AllocError>
    ensures { OnOk result (text.new.items ≡ text.old.items ++ rcode_or rcode []) }
{
    if rcode == COMPLETE {
        return Ok(());
    }
    put_named_part(text, ": ", rcode_name(rcode), "rcode", u64::from(rcode))
}

// Appends that a swap was not made that found this word.
#[tactic(auto, unfolding(crate::specs::Answers::not_made_text))]
fn put_not_made(
    text: &mut Vec<u8>,
    pairs: &Pairs,
    memo: &mut Memo,
    names: &Names,
    offset: u64,
    word: u32,
) -> Result<(), AllocError>
    ensures { OnOk result (text.new.items ≡ text.old.items ++ not_made_text names.now (place_of offset) word) }
{
    put_word(text, ": not made,")?;
    put_word_at(text, pairs, memo, names, offset, word)
}

// Appends whether a swap was made that found this word.
#[tactic(auto, unfolding(crate::specs::Answers::made_text))]
fn put_made(
    text: &mut Vec<u8>,
    pairs: &Pairs,
    memo: &mut Memo,
    names: &Names,
    offset: u64,
    swap: Swap,
    word: u32,
) -> Result<(), AllocError>
    ensures { OnOk result (text.new.items ≡ text.old.items ++ made_text names.now (place_of offset) swap word) }
{
    if word == swap.argument {
        put_word(text, ": made")?;
        put_change(text, pairs, memo, names, offset, swap)
    } else {
        put_not_made(text, pairs, memo, names, offset, word)
    }
}

// Appends what a swap brings that found this word.
#[tactic(auto, unfolding(crate::specs::Replies::found_text))]
fn put_found(
    text: &mut Vec<u8>,
    pairs: &Pairs,
    memo: &mut Memo,
    names: &Names,
    q: &Asked,
    word: u32,
) -> Result<(), AllocError>
    ensures { OnOk result (text.new.items ≡ text.old.items ++ found_text names.now (place_of q.now.offset) q.now.swap word) }
{
    match q.swap {
        Some(swap) => put_made(text, pairs, memo, names, q.offset, swap, word),
        None => Ok(()),
    }
}

// Appends what a word says that a response of this kind brings.
#[tactic(auto, unfolding(crate::specs::Replies::word_told))]
fn put_brought(
    text: &mut Vec<u8>,
    pairs: &Pairs,
    memo: &mut Memo,
    names: &Names,
    q: &Asked,
    kind: Answer,
    word: u32,
) -> Result<(), AllocError>
    ensures { OnOk result (text.new.items ≡ text.old.items ++ word_told names.now q.now kind word) }
{
    match kind {
        Answer::ReadQuadlet => put_word_at(text, pairs, memo, names, q.offset, word),
        Answer::Lock => put_found(text, pairs, memo, names, q, word),
        Answer::Write | Answer::ReadBlock => Ok(()),
    }
}

// Appends what a response answers to a request.
#[tactic(auto, unfolding(crate::specs::Replies::reply_text, crate::specs::Replies::brought_text, crate::specs::Answers::rcode_or))]
pub(crate) fn put_answer(
    text: &mut Vec<u8>,
    pairs: &Pairs,
    memo: &mut Memo,
    names: &Names,
    q: &Asked,
    r: &Reply,
) -> Result<(), AllocError>
    ensures { OnOk result (text.new.items ≡ text.old.items ++ reply_text names.now q.now r.now) }
{
    if r.rcode != COMPLETE {
        return put_rcode(text, r.rcode);
    }
    match r.word {
        Some(word) => put_brought(text, pairs, memo, names, q, r.kind, word),
        None => Ok(()),
    }
}
