//! What is kept after an entry.

ghost use Rattle.std.specs.Prelude.{◌≡◌, OnOk, Some};
ghost use Rattle.fw_trace_lines.specs.Caused.{renumbered, taken, jobs_from, held_after, held_by};
ghost use Rattle.fw_trace_requests.specs.Requests.{with_asked, with_latest};
ghost use Rattle.fw_trace_requests.specs.Held.{held_bare};

use super::Tracer;
use fw_async::Packet;
use fw_log_entry::codes::event;
use fw_log_entry::{Entry, Timed};
use fw_log_requests::Asked;
use fw_trace_requests::{Carried, asked_by};
use std::alloc::AllocError;

impl Tracer {
    // Takes the nodes that an entry leaves.
    pub(super) fn renumber(&mut self, what: &Entry) -> Result<(), AllocError>
        ensures text { self.new.text ≡ self.old.text }
        ensures kept { OnOk result (self.new.telling ≡ renumbered what.now self.old.telling) }
    {
        if let Entry::Reset(r) = what {
            self.held
                .settle(&mut self.digits, &self.pairs, &mut self.memo, &self.names)?;
            self.names.renumber(&r.get().nodes);
        }
        Ok(())
    }

    // Takes what an entry makes of the jobs.
    #[tactic(auto, unfolding(crate::specs::Caused::jobs_following))]
    fn take_job(&mut self, what: &Entry) -> Result<(), AllocError>
        ensures { OnOk result (self.new ≡ record self.old { telling = record self.old.telling { jobs = jobs_from what.now self.old.telling.jobs } }) }
    {
        match what {
            Entry::Event(e) if e.code == event::DIED => {
                self.jobs.forget(e.device);
                Ok(())
            }
            Entry::Outcome(o) => self.jobs.take_outcome(o.code, o.device, o.slot),
            _ => Ok(()),
        }
    }

    // Holds an entry back, if it is a request.
    #[tactic(auto, unfolding(crate::specs::Caused::held_by))]
    fn hold(&mut self, cycle: u64, what: &Entry) -> Result<(), AllocError>
        ensures { OnOk result (self.new ≡ record self.old { telling = record self.old.telling { held = held_after self.old.telling.naming cycle what.now } }) }
    {
        self.held.release();
        let Entry::Async(p) = what else {
            return Ok(());
        };
        let Some(q) = asked_by(p) else {
            return Ok(());
        };
        self.held.hold(
            &mut self.digits,
            cycle,
            &self.pairs,
            &mut self.memo,
            &self.names,
            p,
            q,
        )
    }

    // Takes what a packet asks, if it asks anything.
    #[inline(always)]
    #[tactic(auto, unfolding(crate::specs::Caused::held_by))]
    pub(super) fn take_asked(
        &mut self,
        cycle: u64,
        p: &Packet,
        asked: Option<Asked>,
    ) -> Result<(), AllocError>
        ensures { OnOk result (self.new ≡ record self.old {
          telling = record self.old.telling {
            requests = with_asked asked self.old.telling.requests;
            held = held_by self.old.telling.naming cycle p.now asked;
          };
        }) }
    {
        let Some(q) = asked else {
            self.held.release();
            return Ok(());
        };
        self.requests.ask(q)?;
        self.held.hold(
            &mut self.digits,
            cycle,
            &self.pairs,
            &mut self.memo,
            &self.names,
            p,
            q,
        )
    }

    // Takes a request that carries this.
    #[inline(always)]
    pub(super) fn take_request(
        &mut self,
        cycle: u64,
        q: Asked,
        carried: Carried,
    ) -> Result<(), AllocError>
        ensures { OnOk result (self.new ≡ record self.old {
          telling = record self.old.telling {
            requests = with_latest q self.old.telling.requests;
            held = Some (held_bare self.old.telling.naming cycle q carried);
          };
        }) }
    {
        self.requests.ask(q)?;
        self.held.hold_bare(cycle, q, carried);
        Ok(())
    }

    // Takes an entry, whose lines were told.
    pub(super) fn take(&mut self, t: &Timed) -> Result<(), AllocError>
        ensures text { OnOk result (self.new.text ≡ self.old.text) }
        ensures kept { OnOk result (self.new.telling ≡ taken t.now self.old.telling) }
    {
        self.take_job(&t.what)?;
        self.hold(t.cycle, &t.what)?;
        self.requests.take(&t.what)?;
        if let Entry::Iso(p) = &t.what {
            self.streams.take(p);
        }
        self.cycle = t.cycle;
        Ok(())
    }
}
