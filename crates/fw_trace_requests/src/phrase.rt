//! What is told of a place again and again.

ghost use Rattle.std.specs.Prelude.{◌≡◌, ◌++◌, IfSome, IsTrue};
ghost use Rattle.fw_log_registers.specs.declared.told.RegisterValue.{RegisterValue as AnyTold};
ghost use Rattle.fw_trace_requests.specs.declared.phrase.Words.{Words as TheWords};
ghost use Rattle.fw_trace_names.specs.Names.{Naming};
ghost use Rattle.fw_trace_requests.specs.Phrases.{phrase_text, words_text};
ghost use Rattle.fw_trace_requests.specs.Replies.{reply_text};
ghost use Rattle.fw_trace_requests.specs.Answers.{asked_text, changes_asked, if_made};
ghost use Rattle.fw_trace_requests.specs.Carried.{frame_told};
ghost use Rattle.fw_trace_names.specs.Registers.{named_told};

use crate::carried::Carried;
use crate::packets::{COMPLETE, Reply};
use fw_log_registers::{NamedRegister, RegisterPlace};
use fw_log_requests::{Answer, Asked};
use fw_words::Swap;

/// What is told of a place.
#[derive(Clone, Copy)]
pub(crate) struct Phrase {
    /// Its offset, 48 bits.
    pub offset: u64,
    pub words: Words,
}

/// What it is that is told.
#[derive(Clone, Copy)]
pub(crate) enum Words {
    /// A write is asked.
    Write,
    /// A read is asked.
    Read,
    /// A lock is asked: its swap, if it is one of a quadlet.
    Lock(Option<Swap>),
    /// This word stands there.
    Word(u32),
    /// A swap changes it.
    Change(Swap),
    /// A read is asked, and brings this word.
    Brought(u32),
    /// A swap is asked, which may change what it would.
    Proposed(Swap),
    /// A swap is asked, and finds this word.
    Swapped(Swap, u32),
    /// A write is asked, which carries this.
    Written(Carried),
}

impl Phrase {
    // What a request asks.
    #[tactic(auto, unfolding(crate::specs::Answers::asked_text, crate::specs::Phrases::words_text))]
    pub(crate) fn asked(q: &Asked) -> Phrase
        ensures { (n : Naming) → phrase_text n result ≡ asked_text q.now }
    {
        let words = match q.answer {
            Answer::Write => Words::Write,
            Answer::ReadQuadlet | Answer::ReadBlock => Words::Read,
            Answer::Lock => Words::Lock(q.swap),
        };
        Phrase {
            offset: q.offset,
            words,
        }
    }

    // What a request asks, carries and would change, if these are told as one.
    #[inline(always)]
    #[tactic(auto, unfolding(crate::specs::Phrases::words_text, crate::specs::Answers::asked_text, crate::specs::Answers::changes_by, crate::specs::Answers::if_made, crate::specs::Carried::frame_told))]
    pub(crate) fn proposed(q: &Asked, carried: Carried) -> Option<Phrase>
        ensures { IfSome result (λ p. (n : Naming) → phrase_text n p ≡ asked_text q.now ++ (frame_told carried ++ if_made (changes_asked n q.now))) }
    {
        let words = match (q.answer, q.swap, carried) {
            (Answer::ReadQuadlet, None, Carried::Nothing) => Words::Read,
            (Answer::Lock, Some(swap), Carried::Nothing) => Words::Proposed(swap),
            (Answer::Write, None, carried) => Words::Written(carried),
            _ => return None,
        };
        Some(Phrase {
            offset: q.offset,
            words,
        })
    }

    // What a request asks and carries, and the response brings that answers it, if these are told as one.
    #[inline(always)]
    #[tactic(auto, unfolding(crate::specs::Phrases::words_text, crate::specs::Answers::asked_text, crate::specs::Answers::rcode_or, crate::specs::Replies::reply_text, crate::specs::Replies::brought_text, crate::specs::Replies::word_told, crate::specs::Replies::found_text, crate::specs::Carried::frame_told))]
    pub(crate) fn replied(q: &Asked, carried: Carried, r: &Reply) -> Option<Phrase>
        ensures { IfSome result (λ p. (n : Naming) → phrase_text n p ≡ asked_text q.now ++ (frame_told carried ++ reply_text n q.now r.now)) }
    {
        if r.rcode != COMPLETE {
            return None;
        }
        let words = match (q.answer, r.kind, r.word, q.swap, carried) {
            (Answer::ReadQuadlet, Answer::ReadQuadlet, Some(word), _, Carried::Nothing) => {
                Words::Brought(word)
            }
            (Answer::Lock, Answer::Lock, Some(word), Some(swap), Carried::Nothing) => {
                Words::Swapped(swap, word)
            }
            (Answer::Write, Answer::Write, None, _, carried) => Words::Written(carried),
            _ => return None,
        };
        Some(Phrase {
            offset: q.offset,
            words,
        })
    }
}

// No name of a node stands in what is told of this place.
#[tactic(auto, unfolding(fw_trace_names::specs::Registers::named_told))]
fn has_no_node(place: RegisterPlace) -> bool
    ensures { IsTrue result → (n m : Naming) → (told : AnyTold) → named_told n place told ≡ named_told m place told }
{
    !matches!(place, RegisterPlace::Named(NamedRegister::BusManagerId, _))
}

// What is told of this place has no name of a node in it.
pub(crate) fn is_nameless(place: RegisterPlace) -> bool
    ensures { IsTrue result → (n m : Naming) → (words : TheWords) → words_text n place words ≡ words_text m place words }
{
    has_no_node(place)
}
