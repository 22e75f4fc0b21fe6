//! The lines that an entry brings.

ghost use Rattle.std.specs.Prelude.{◌≡◌, ◌++◌, OnOk};
ghost use Rattle.fw_trace_names.specs.CausedLines.{caused_text};
ghost use Rattle.fw_trace_requests.specs.Held.{lone_lines};
ghost use Rattle.fw_trace_lines.specs.Caused.{packet_lines, what_text, own_lines, lines_by};
ghost use Rattle.fw_trace_lines.specs.Commands.{last_lines};
ghost use Rattle.fw_trace_lines.specs.Replies.{late_reply, reply_lines, said_lines};

use super::Tracer;
use crate::events::{put_event, put_outcome, put_reset, put_shown};
use fw_async::Packet;
use fw_log_entry::Entry;
use fw_log_names::put_word;
use fw_trace_names::put_cycle;
use fw_trace_requests::{Reply, put_response};
use std::alloc::AllocError;

impl Tracer {
    // Appends the line of the request that is held back, if any, which is answered later, or not at all.
    #[inline(always)]
    pub(super) fn put_held(&mut self) -> Result<(), AllocError>
        ensures text { OnOk result (self.new.text ≡ self.old.text ++ caused_text (lone_lines self.old.telling.held)) }
        ensures kept { self.new.telling ≡ self.old.telling }
    {
        self.held.put_lone(
            &mut self.text,
            &mut self.digits,
            &self.pairs,
            &mut self.memo,
            &self.names,
        )
    }

    // Appends a response to an earlier request.
    #[tactic(auto, using(crate::proofs::ReplyLaws::late_put), unfolding(crate::specs::Replies::late_reply))]
    fn put_late(&mut self, cycle: u64, r: &Reply) -> Result<(), AllocError>
        ensures text { OnOk result (self.new.text ≡ self.old.text ++ caused_text (late_reply self.old.telling cycle r.now)) }
        ensures kept { self.new.telling ≡ self.old.telling }
    {
        let q = self.requests.latest(&r.head);
        put_response(
            &mut self.text,
            &mut self.digits,
            cycle,
            &self.pairs,
            &mut self.memo,
            &self.names,
            q,
            r,
        )
    }

    // Appends the lines of a request that is held back, and of a response which does not answer it.
    fn put_apart(&mut self, cycle: u64, r: &Reply) -> Result<(), AllocError>
        ensures text { OnOk result (self.new.text ≡ self.old.text ++ caused_text (lone_lines self.old.telling.held ++ late_reply self.old.telling cycle r.now)) }
        ensures kept { self.new.telling ≡ self.old.telling }
    {
        self.put_held()?;
        self.put_late(cycle, r)?;
        Ok(())
    }

    // Appends the lines of a response.
    #[tactic(auto, unfolding(crate::specs::Replies::reply_lines))]
    pub(super) fn put_reply(&mut self, cycle: u64, r: &Reply) -> Result<(), AllocError>
        ensures text { OnOk result (self.new.text ≡ self.old.text ++ caused_text (reply_lines self.old.telling cycle r.now)) }
        ensures kept { self.new.telling ≡ self.old.telling }
    {
        if self.held.is_joined(r) {
            self.held.put_joined(
                &mut self.text,
                &mut self.digits,
                &self.pairs,
                &mut self.memo,
                &self.names,
                r,
            )
        } else {
            self.put_apart(cycle, r)
        }
    }

    // Appends the lines of a packet, by what it says as a response.
    #[tactic(auto, unfolding(crate::specs::Replies::said_lines))]
    fn put_said(&mut self, cycle: u64, r: Option<Reply>) -> Result<(), AllocError>
        ensures text { OnOk result (self.new.text ≡ self.old.text ++ caused_text (said_lines self.old.telling cycle r)) }
        ensures kept { self.new.telling ≡ self.old.telling }
    {
        match r {
            Some(r) => self.put_reply(cycle, &r),
            None => self.put_held(),
        }
    }

    // Appends the lines of a packet.
    pub(super) fn put_packet(&mut self, cycle: u64, p: &Packet) -> Result<(), AllocError>
        ensures text { OnOk result (self.new.text ≡ self.old.text ++ caused_text (packet_lines self.old.telling cycle p.now)) }
        ensures kept { self.new.telling ≡ self.old.telling }
    {
        self.put_said(cycle, Reply::of(p))
    }

    // Appends what an entry says that is no packet.
    #[tactic(auto, unfolding(crate::specs::Caused::what_text))]
    fn put_what(&mut self, what: &Entry) -> Result<(), AllocError>
        ensures text { OnOk result (self.new.text ≡ self.old.text ++ what_text self.old.telling what.now) }
        ensures kept { self.new.telling ≡ self.old.telling }
    {
        match what {
            Entry::Reset(r) => put_reset(&mut self.text, &self.names, r.get()),
            Entry::Event(e) => put_event(&mut self.text, &self.names, e),
            Entry::Outcome(o) => {
                let job = self.jobs.at(o.device, o.slot);
                put_outcome(&mut self.text, &self.pairs, &self.names, job, o)
            }
            Entry::Shown(s) => put_shown(&mut self.text, &self.pairs, &self.names, s),
            Entry::End => put_word(&mut self.text, "end"),
            Entry::Async(_) | Entry::Iso(_) => Ok(()),
        }
    }

    // Appends the line of an entry itself.
    #[tactic(auto, unfolding(crate::specs::Caused::own_lines))]
    fn put_own(&mut self, cycle: u64, what: &Entry) -> Result<(), AllocError>
        ensures text { OnOk result (self.new.text ≡ self.old.text ++ caused_text (own_lines self.old.telling cycle what.now)) }
        ensures kept { self.new.telling ≡ self.old.telling }
    {
        if matches!(what, Entry::Async(_) | Entry::Iso(_)) {
            return Ok(());
        }
        put_cycle(&mut self.text, &mut self.digits, cycle)?;
        self.put_what(what)?;
        put_word(&mut self.text, "\n")
    }

    // Appends the lines of a request that is held back, and of an entry that is no packet.
    fn put_others(&mut self, cycle: u64, what: &Entry) -> Result<(), AllocError>
        ensures text { OnOk result (self.new.text ≡ self.old.text ++ caused_text (lone_lines self.old.telling.held ++ own_lines self.old.telling cycle what.now)) }
        ensures kept { self.new.telling ≡ self.old.telling }
    {
        self.put_held()?;
        self.put_own(cycle, what)?;
        Ok(())
    }

    // Appends the lines of an entry, by the nodes that it leaves.
    #[tactic(auto, unfolding(crate::specs::Caused::lines_by))]
    pub(super) fn put_lines(&mut self, cycle: u64, what: &Entry) -> Result<(), AllocError>
        ensures text { OnOk result (self.new.text ≡ self.old.text ++ caused_text (lines_by self.old.telling cycle what.now)) }
        ensures kept { self.new.telling ≡ self.old.telling }
    {
        match what {
            Entry::Async(p) => self.put_packet(cycle, p),
            other => self.put_others(cycle, other),
        }
    }

    // Appends the last lines of a command.
    pub(super) fn put_last(&mut self) -> Result<(), AllocError>
        ensures text { OnOk result (self.new.text ≡ self.old.text ++ caused_text (last_lines self.old.telling)) }
        ensures kept { self.new.telling ≡ self.old.telling }
    {
        self.put_held()?;
        self.streams
            .put_all(&mut self.text, &mut self.digits, self.cycle, &self.names)?;
        Ok(())
    }
}
