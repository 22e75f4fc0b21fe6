//! The line of a request that is held back, made before its turn comes: of one that carries a frame, or whose names may change.

ghost use Rattle.std.specs.Prelude.{◌≡◌, ◌++◌, None, Some, OnOk, codes};
ghost use Rattle.fw_trace_names.specs.CausedLines.{at_cycle, caused_text};
ghost use Rattle.fw_trace_requests.specs.Carried.{frame_told};
ghost use Rattle.fw_trace_requests.specs.Held.{held_of, lone_lines, is_joined, held_bare, joined_with};
ghost use Rattle.fw_trace_names.specs.Names.{id_text};
ghost use Rattle.fw_trace_requests.specs.Answers.{asked_text, carried_text, changes_asked, if_made};

use crate::answers::{put_answer, put_asked, put_changes};
use crate::carried::{Carried, put_carried, put_frame_of};
use crate::memo::Memo;
use crate::packets::{Reply, is_answered};
use fw_async::Packet;
use fw_log_names::{CycleRow, Pairs, put_word};
use fw_log_requests::Asked;
use fw_trace_names::{Names, put_cycle};
use std::alloc::{AllocError, Global};
use std::marker::Model;

/// The request, if any, with its line up to what is asked and carried, which may be that of a request alone, the place of the arrow in it,
/// and what it would change. Their memory is kept.
#[derive(Drop)]
pub struct MadeLine {
    asked: Option<Asked>,
    line: Vec<u8>,
    arrow: usize,
    changes: Vec<u8>,
}

impl Model for MadeLine {
    ghost use Rattle.std.specs.Prelude.{◌≡◌, ◌++◌, ◌+◌, Option, IfSome, codes, drop, option_map, take};
    ghost use Rattle.fw_trace_requests.specs.Held.{DeferredRequest};

    ghost Value = { Option DeferredRequest };

    ghost view = { λ h. option_map (λ q. record { asked = q; prefix = take h.arrow h.line.items; told = drop (h.arrow + 4) h.line.items; changes = h.changes.items }) h.asked };

    ghost invariant = { λ h. IfSome h.asked (λ q. h.line.items ≡ take h.arrow h.line.items ++ codes " -> " ++ drop (h.arrow + 4) h.line.items) };
}

/// The arrow of a request alone.
const ARROW: &str = " -> ";

// Puts what a line that was caused begins with, and who asks, in place of what was there.
fn set_prefix(
    line: &mut Vec<u8>,
    digits: &mut CycleRow,
    cycle: u64,
    names: &Names,
    source: u16,
) -> Result<(), AllocError>
    ensures { OnOk result (line.new.items ≡ at_cycle cycle ++ id_text names.now source) }
{
    line.clear();
    put_cycle(line, digits, cycle)?;
    names.put_id(line, source)
}

// Appends who is asked, and what.
fn put_told(
    line: &mut Vec<u8>,
    pairs: &Pairs,
    memo: &mut Memo,
    names: &Names,
    q: &Asked,
) -> Result<(), AllocError>
    ensures { OnOk result (line.new.items ≡ line.old.items ++ (id_text names.now q.now.destination ++ codes " " ++ asked_text q.now)) }
{
    names.put_id(line, q.destination)?;
    put_word(line, " ")?;
    put_asked(line, pairs, memo, names, q)
}

// Appends who is asked, and what, and the frame that the request carries.
fn put_carrying(
    line: &mut Vec<u8>,
    pairs: &Pairs,
    memo: &mut Memo,
    names: &Names,
    p: &Packet,
    q: &Asked,
) -> Result<(), AllocError>
    ensures { OnOk result (line.new.items ≡ line.old.items ++ (id_text names.now q.now.destination ++ codes " " ++ asked_text q.now ++ carried_text p.now)) }
{
    put_told(line, pairs, memo, names, q)?;
    put_carried(line, p)
}

// Appends who is asked, and what, and the frame that is carried.
fn put_bare(
    line: &mut Vec<u8>,
    pairs: &Pairs,
    memo: &mut Memo,
    names: &Names,
    q: &Asked,
    carried: Carried,
) -> Result<(), AllocError>
    ensures { OnOk result (line.new.items ≡ line.old.items ++ (id_text names.now q.now.destination ++ codes " " ++ asked_text q.now ++ frame_told carried)) }
{
    put_told(line, pairs, memo, names, q)?;
    put_frame_of(line, carried)
}

// Puts what a request would change in place of what was there.
fn set_changes(
    changes: &mut Vec<u8>,
    pairs: &Pairs,
    memo: &mut Memo,
    names: &Names,
    q: &Asked,
) -> Result<(), AllocError>
    ensures { OnOk result (changes.new.items ≡ changes_asked names.now q.now) }
{
    changes.clear();
    put_changes(changes, pairs, memo, names, q)
}

// Appends what a swap would change that no answer has decided.
#[tactic(auto, unfolding(crate::specs::Answers::if_made))]
fn put_if_made(text: &mut Vec<u8>, changes: &[u8]) -> Result<(), AllocError>
    ensures { OnOk result (text.new.items ≡ text.old.items ++ if_made changes.now) }
{
    if changes.is_empty() {
        return Ok(());
    }
    put_word(text, "; if made")?;
    text.extend_from_slice(changes)
}

impl MadeLine {
    // None is made.
    pub(crate) fn new(alloc: Global) -> MadeLine
        ensures { result ≡ None }
    {
        MadeLine {
            asked: None,
            line: Vec::new(alloc),
            arrow: 0,
            changes: Vec::new(alloc),
        }
    }

    // Makes the line of a request, of this cycle.
    pub(crate) fn hold(
        &mut self,
        digits: &mut CycleRow,
        cycle: u64,
        pairs: &Pairs,
        memo: &mut Memo,
        names: &Names,
        p: &Packet,
        q: Asked,
    ) -> Result<(), AllocError>
        ensures { OnOk result (self.new ≡ Some (held_of names.now cycle p.now q)) }
    {
        self.asked = None;
        set_prefix(&mut self.line, digits, cycle, names, q.source)?;
        let arrow = self.line.len();
        put_word(&mut self.line, ARROW)?;
        put_carrying(&mut self.line, pairs, memo, names, p, &q)?;
        set_changes(&mut self.changes, pairs, memo, names, &q)?;
        self.arrow = arrow;
        self.asked = Some(q);
        Ok(())
    }

    // Makes the line of a request, of this cycle, which carries this.
    pub(crate) fn hold_bare(
        &mut self,
        digits: &mut CycleRow,
        cycle: u64,
        pairs: &Pairs,
        memo: &mut Memo,
        names: &Names,
        q: Asked,
        carried: Carried,
    ) -> Result<(), AllocError>
        ensures { OnOk result (self.new ≡ Some (held_bare names.now cycle q carried)) }
    {
        self.asked = None;
        set_prefix(&mut self.line, digits, cycle, names, q.source)?;
        let arrow = self.line.len();
        put_word(&mut self.line, ARROW)?;
        put_bare(&mut self.line, pairs, memo, names, &q, carried)?;
        set_changes(&mut self.changes, pairs, memo, names, &q)?;
        self.arrow = arrow;
        self.asked = Some(q);
        Ok(())
    }

    // Drops it.
    pub(crate) fn release(&mut self)
        ensures { self.new ≡ None }
    {
        if let Some(_) = &self.asked {
            self.asked = None;
        }
    }

    // A response answers the request.
    #[tactic(auto, unfolding(crate::specs::Held::is_joined))]
    pub(crate) fn is_joined(&self, r: &Reply) -> bool
        ensures { result ≡ is_joined (Some r.now.kind) r.now.head self.now }
    {
        match &self.asked {
            Some(q) => is_answered(q, r.kind, &r.head),
            None => false,
        }
    }

    // Appends the line of the request, which is answered later, or not at all.
    #[tactic(auto, unfolding(crate::specs::Held::lone_lines))]
    pub(crate) fn put_lone(&self, text: &mut Vec<u8>) -> Result<(), AllocError>
        ensures { OnOk result (text.new.items ≡ text.old.items ++ caused_text (lone_lines self.now)) }
    {
        let Some(_) = &self.asked else {
            return Ok(());
        };
        text.extend_from_slice(&self.line)?;
        put_if_made(text, &self.changes)?;
        put_word(text, "\n")
    }

    // Appends the line of the request, and of its answer.
    #[tactic(auto, unfolding(crate::specs::Held::joined_with))]
    pub(crate) fn put_joined(
        &self,
        text: &mut Vec<u8>,
        pairs: &Pairs,
        memo: &mut Memo,
        names: &Names,
        r: &Reply,
    ) -> Result<(), AllocError>
        ensures { OnOk result (text.new.items ≡ text.old.items ++ caused_text (joined_with names.now r.now self.now)) }
    {
        let Some(q) = &self.asked else {
            return Ok(());
        };
        text.extend_from_slice(&self.line[..self.arrow])?;
        put_word(text, " <-> ")?;
        text.extend_from_slice(&self.line[self.arrow + ARROW.len()..])?;
        put_answer(text, pairs, memo, names, q, r)?;
        put_word(text, "\n")
    }
}
