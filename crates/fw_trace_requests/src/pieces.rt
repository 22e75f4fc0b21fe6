//! The line of a request that is held back, piece by piece.

ghost use Rattle.std.specs.Prelude.{◌≡◌, ◌++◌, Some, OnOk};
ghost use Rattle.fw_trace_names.specs.CausedLines.{caused_text};
ghost use Rattle.fw_trace_requests.specs.Held.{lone_lines, held_bare, joined_with};

use crate::answers::put_proposed;
use crate::held::Bare;
use crate::memo::Memo;
use crate::packets::Reply;
use crate::replies::put_replied;
use fw_log_names::{CycleRow, Pairs, put_word};
use fw_trace_names::{Names, put_ends};
use std::alloc::AllocError;

impl Bare {
    // Appends its line, if it is answered later, or not at all, piece by piece.
    #[inline(never)]
    #[tactic(auto, unfolding(crate::specs::Held::lone_lines))]
    pub(crate) fn put_lone_pieces(
        &self,
        text: &mut Vec<u8>,
        digits: &mut CycleRow,
        pairs: &Pairs,
        memo: &mut Memo,
        names: &Names,
    ) -> Result<(), AllocError>
        ensures { OnOk result (text.new.items ≡ text.old.items ++ caused_text (lone_lines (Some (held_bare names.now self.now.cycle self.now.asked self.now.carried)))) }
    {
        let q = &self.asked;
        put_ends(
            text,
            digits,
            self.cycle,
            names,
            q.source,
            b" -> ",
            q.destination,
        )?;
        put_proposed(text, pairs, memo, names, q, self.carried)?;
        put_word(text, "\n")
    }

    // Appends its line, and of its answer, piece by piece.
    #[inline(never)]
    #[tactic(auto, unfolding(crate::specs::Held::joined_with))]
    pub(crate) fn put_joined_pieces(
        &self,
        text: &mut Vec<u8>,
        digits: &mut CycleRow,
        pairs: &Pairs,
        memo: &mut Memo,
        names: &Names,
        r: &Reply,
    ) -> Result<(), AllocError>
        ensures { OnOk result (text.new.items ≡ text.old.items ++ caused_text (joined_with names.now r.now (Some (held_bare names.now self.now.cycle self.now.asked self.now.carried)))) }
    {
        let q = &self.asked;
        put_ends(
            text,
            digits,
            self.cycle,
            names,
            q.source,
            b" <-> ",
            q.destination,
        )?;
        put_replied(text, pairs, memo, names, q, self.carried, r)?;
        put_word(text, "\n")
    }
}
