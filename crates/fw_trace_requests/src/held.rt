//! The request that is held back, since the response that answers it may come next.

ghost use Rattle.std.specs.Prelude.{◌≡◌, ◌++◌, None, Some, OnOk};
ghost use Rattle.fw_trace_names.specs.CausedLines.{caused_text};
ghost use Rattle.fw_trace_requests.specs.Held.{held_of, is_joined, lone_lines, held_by_names, held_bare, joined_with};
ghost use Rattle.fw_trace_names.specs.Names.{Naming};

use crate::carried::Carried;
use crate::made::MadeLine;
use crate::memo::Memo;
use crate::packets::{Reply, is_answered};
use fw_async::Packet;
use fw_log_names::{CycleRow, Pairs};
use fw_log_requests::Asked;
use fw_trace_names::{Names, put_whole_line};
use std::alloc::{AllocError, Global};

/// A request that carries nothing or a usual frame, and its cycle.
#[derive(Clone, Copy)]
pub struct Bare {
    /// The cycle of its entry.
    pub cycle: u64,
    /// What is kept of it.
    pub asked: Asked,
    /// What it carries.
    pub carried: Carried,
}

/// The request that is held back, if any. Of one that carries nothing or a usual frame no line is made before its turn comes: most are such.
#[derive(Drop)]
pub struct HeldBack {
    /// One whose line is not made: it comes before the other.
    pub bare: Option<Bare>,
    /// Else the one whose line is made, if there is one.
    pub made: MadeLine,
}

impl Bare {
    // Appends its line, if it is answered later, or not at all.
    #[inline(always)]
    #[tactic(auto, unfolding(crate::specs::Held::lone_lines))]
    fn put_lone(
        &self,
        text: &mut Vec<u8>,
        digits: &mut CycleRow,
        pairs: &Pairs,
        memo: &mut Memo,
        names: &Names,
    ) -> Result<(), AllocError>
        ensures { OnOk result (text.new.items ≡ text.old.items ++ caused_text (lone_lines (Some (held_bare names.now self.now.cycle self.now.asked self.now.carried)))) }
    {
        let q = &self.asked;
        match memo.proposed(q, self.carried) {
            Some(told) => put_whole_line(
                text,
                digits,
                self.cycle,
                names,
                q.source,
                b" -> ",
                q.destination,
                told,
            ),
            None => self.put_lone_pieces(text, digits, pairs, memo, names),
        }
    }

    // Appends its line, and of its answer.
    #[inline(always)]
    #[tactic(auto, unfolding(crate::specs::Held::joined_with))]
    fn put_joined(
        &self,
        text: &mut Vec<u8>,
        digits: &mut CycleRow,
        pairs: &Pairs,
        memo: &mut Memo,
        names: &Names,
        r: &Reply,
    ) -> Result<(), AllocError>
        ensures { OnOk result (text.new.items ≡ text.old.items ++ caused_text (joined_with names.now r.now (Some (held_bare names.now self.now.cycle self.now.asked self.now.carried)))) }
    {
        let q = &self.asked;
        match memo.replied(q, self.carried, r) {
            Some(told) => put_whole_line(
                text,
                digits,
                self.cycle,
                names,
                q.source,
                b" <-> ",
                q.destination,
                told,
            ),
            None => self.put_joined_pieces(text, digits, pairs, memo, names, r),
        }
    }
}

impl HeldBack {
    /// None is held back.
    pub fn new(alloc: Global) -> HeldBack
        ensures { result ≡ record { bare = None; made = None } }
    {
        HeldBack {
            bare: None,
            made: MadeLine::new(alloc),
        }
    }

    /// Holds a request back, of this cycle, which this packet is, in place of the one before: its line is made at once, by these names.
    /// An error says that memory ran out, and comes for nothing else: none is held back then.
    pub fn hold(
        &mut self,
        digits: &mut CycleRow,
        cycle: u64,
        pairs: &Pairs,
        memo: &mut Memo,
        names: &Names,
        p: &Packet,
        q: Asked,
    ) -> Result<(), AllocError>
        ensures { OnOk result (self.new ≡ record { bare = None; made = Some (held_of names.now cycle p.now q) }) }
    {
        self.bare = None;
        self.made.hold(digits, cycle, pairs, memo, names, p, q)
    }

    /// Holds a request back, of this cycle, which carries this, in place of the one before: its line is made when its turn comes.
    #[inline(always)]
    pub fn hold_bare(&mut self, cycle: u64, q: Asked, carried: Carried)
        ensures { self.new ≡ record self.old { bare = Some (record { cycle = cycle; asked = q; carried = carried }) } }
    {
        self.bare = Some(Bare {
            cycle,
            asked: q,
            carried,
        });
    }

    /// Makes the line of the request that is held back, since the names are about to change. An error says that memory ran out, and comes for
    /// nothing else: none is held back then.
    pub fn settle(
        &mut self,
        digits: &mut CycleRow,
        pairs: &Pairs,
        memo: &mut Memo,
        names: &Names,
    ) -> Result<(), AllocError>
        ensures { OnOk result (self.new ≡ record { bare = None; made = held_by_names names.now self.old.bare self.old.made }) }
    {
        let Some(bare) = self.bare else {
            return Ok(());
        };
        self.bare = None;
        self.made.hold_bare(
            digits,
            bare.cycle,
            pairs,
            memo,
            names,
            bare.asked,
            bare.carried,
        )
    }

    /// Holds none back.
    #[inline(always)]
    pub fn release(&mut self)
        ensures { self.new ≡ record { bare = None; made = None } }
    {
        // Mostly none is held back, and then nothing is written.
        if let Some(_) = &self.bare {
            self.bare = None;
        }
        self.made.release();
    }

    /// A response answers the request that is held back: it is of the kind that the request asks for, between the same nodes, with its label.
    #[inline(always)]
    #[tactic(auto, unfolding(crate::specs::Held::is_joined))]
    pub fn is_joined(&self, r: &Reply) -> bool
        ensures { (n : Naming) → result ≡ is_joined (Some r.now.kind) r.now.head (held_by_names n self.now.bare self.now.made) }
    {
        match &self.bare {
            Some(b) => is_answered(&b.asked, r.kind, &r.head),
            None => self.made.is_joined(r),
        }
    }

    /// Appends the line of the request that is held back, which is answered later, or not at all; nothing if none is held back. The request
    /// is held back still. An error says that memory ran out, and comes for nothing else: a part of the text may be appended then.
    #[inline(always)]
    pub fn put_lone(
        &self,
        text: &mut Vec<u8>,
        digits: &mut CycleRow,
        pairs: &Pairs,
        memo: &mut Memo,
        names: &Names,
    ) -> Result<(), AllocError>
        ensures { OnOk result (text.new.items ≡ text.old.items ++ caused_text (lone_lines (held_by_names names.now self.now.bare self.now.made))) }
    {
        match &self.bare {
            Some(b) => b.put_lone(text, digits, pairs, memo, names),
            None => self.made.put_lone(text),
        }
    }

    /// Appends the line of the request that is held back, and of its answer; nothing if none is held back. The request is held back still.
    /// An error says that memory ran out, and comes for nothing else: a part of the text may be appended then.
    pub fn put_joined(
        &self,
        text: &mut Vec<u8>,
        digits: &mut CycleRow,
        pairs: &Pairs,
        memo: &mut Memo,
        names: &Names,
        r: &Reply,
    ) -> Result<(), AllocError>
        ensures { OnOk result (text.new.items ≡ text.old.items ++ caused_text (joined_with names.now r.now (held_by_names names.now self.now.bare self.now.made))) }
    {
        match &self.bare {
            Some(b) => b.put_joined(text, digits, pairs, memo, names, r),
            None => self.made.put_joined(text, pairs, memo, names, r),
        }
    }
}
