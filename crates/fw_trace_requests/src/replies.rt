//! Responses with the requests that they answer.

ghost use Rattle.std.specs.Prelude.{◌≡◌, ◌++◌, ◌∷◌, [], OnOk, codes};
ghost use Rattle.fw_trace_names.specs.CausedLines.{at_cycle};
ghost use Rattle.fw_trace_names.specs.Names.{id_text};
ghost use Rattle.fw_trace_requests.specs.Answers.{asked_text};
ghost use Rattle.fw_trace_requests.specs.Carried.{frame_told};
ghost use Rattle.fw_trace_requests.specs.Replies.{reply_text, replied_text};

use crate::answers::{put_answer, put_asked};
use crate::carried::{Carried, put_frame_of};
use crate::memo::Memo;
use crate::packets::Reply;
use crate::phrase::Phrase;
use fw_log_names::{CycleRow, Pairs, put_word};
use fw_log_requests::Asked;
use fw_trace_names::{Names, put_ends, put_whole_line};
use std::alloc::AllocError;

// Appends a request, what it carries, and what a response answers to it, one after the other.
#[inline(never)]
fn put_apart(
    text: &mut Vec<u8>,
    pairs: &Pairs,
    memo: &mut Memo,
    names: &Names,
    q: &Asked,
    carried: Carried,
    r: &Reply,
) -> Result<(), AllocError>
    ensures { OnOk result (text.new.items ≡ text.old.items ++ (asked_text q.now ++ (frame_told carried ++ reply_text names.now q.now r.now))) }
{
    put_asked(text, pairs, memo, names, q)?;
    put_frame_of(text, carried)?;
    put_answer(text, pairs, memo, names, q, r)
}

// Appends a request, what it carries, and what a response answers to it.
#[inline(always)]
pub(crate) fn put_replied(
    text: &mut Vec<u8>,
    pairs: &Pairs,
    memo: &mut Memo,
    names: &Names,
    q: &Asked,
    carried: Carried,
    r: &Reply,
) -> Result<(), AllocError>
    ensures { OnOk result (text.new.items ≡ text.old.items ++ (asked_text q.now ++ (frame_told carried ++ reply_text names.now q.now r.now))) }
{
    match Phrase::replied(q, carried, r) {
        Some(phrase) => memo.put(text, pairs, names, &phrase),
        None => put_apart(text, pairs, memo, names, q, carried, r),
    }
}

// Appends the line of a response, piece by piece.
#[inline(never)]
#[tactic(auto, unfolding(crate::specs::Replies::replied_text, crate::specs::Carried::frame_told))]
fn put_pieces(
    text: &mut Vec<u8>,
    digits: &mut CycleRow,
    cycle: u64,
    pairs: &Pairs,
    memo: &mut Memo,
    names: &Names,
    q: Option<Asked>,
    r: &Reply,
) -> Result<(), AllocError>
    ensures { OnOk result (text.new.items ≡ text.old.items ++ ((at_cycle cycle ++ id_text names.now r.now.head.destination ++ codes " <- " ++ id_text names.now r.now.head.source ++ codes " ") ++ (replied_text names.now q r.now ++ 10 ∷ []))) }
{
    let head = &r.head;
    put_ends(
        text,
        digits,
        cycle,
        names,
        head.destination,
        b" <- ",
        head.source,
    )?;
    match &q {
        Some(q) => put_replied(text, pairs, memo, names, q, Carried::Nothing, r)?,
        None => put_word(text, "no request")?,
    }
    put_word(text, "\n")
}

/// Appends the line of a response in this cycle, which does not come directly after its request: who sends it to whom, and the request that it
/// answers with what it brings, or `no request` in place of both. An error says that memory ran out, and comes for nothing else: a part of the text may be appended then.
#[inline(always)]
pub fn put_response(
    text: &mut Vec<u8>,
    digits: &mut CycleRow,
    cycle: u64,
    pairs: &Pairs,
    memo: &mut Memo,
    names: &Names,
    q: Option<Asked>,
    r: &Reply,
) -> Result<(), AllocError>
    ensures { OnOk result (text.new.items ≡ text.old.items ++ ((at_cycle cycle ++ id_text names.now r.now.head.destination ++ codes " <- " ++ id_text names.now r.now.head.source ++ codes " ") ++ (replied_text names.now q r.now ++ 10 ∷ []))) }
{
    match memo.answered(&q, r) {
        Some(told) => put_whole_line(
            text,
            digits,
            cycle,
            names,
            r.head.destination,
            b" <- ",
            r.head.source,
            told,
        ),
        None => put_pieces(text, digits, cycle, pairs, memo, names, q, r),
    }
}
