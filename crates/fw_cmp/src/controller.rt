ghost use Rattle.std.specs.Prelude.{◌≡◌, ◌<◌, ◌≤◌, ◌^◌, ◌↔◌, ℕ, IsTrue, IsFalse, IfNone, IfSome};
ghost use Rattle.fw_cmp_jobs.specs.declared.directory.Directory.{Directory as BusDirectory};
ghost use Rattle.fw_cmp.specs.Causes.{IsAtRest, IsHeldBack};
ghost use Rattle.fw_cmp.specs.Holdings.{CanGoOn};
ghost use Rattle.fw_cmp.specs.Losses.{ListeningFits, first_listening, MayTurn, Awaits, deaf_turn, deaf_until, turn_of, after_turn, after_answer, after_loss, after_bus_reset, after_end};
ghost use Rattle.fw_cmp.specs.Losses.{IsDeafUntil, IsToForce};
ghost use Rattle.fw_cmp_jobs.specs.Nodes.{HasNodeNumbers};
ghost use Rattle.fw_cmp.specs.Outcomes.{EndsWithCause};
ghost use Rattle.fw_cmp.specs.Turns.{addressee_in, is_busy};

use crate::agenda::Agenda;
use crate::{Directory, Next};
use fw_csr::{QuadletAccess, Reply, SPLIT_TIMEOUT};
use std::marker::Model;

mod starts;

/// A connection controller: its slots and jobs, and whether it has lost the response to its request.
#[derive(Drop)]
pub struct Controller {
    pub(crate) agenda: Agenda,
    /// The cycle of its latest request.
    pub(crate) asked_at: u64,
    /// The response to that was lost, and no bus reset has come since.
    pub(crate) lost: bool,
}

impl Model for Controller {
    ghost use Rattle.fw_cmp.specs.Losses.{Listening, ListeningFits};

    ghost Value = { Listening };

    ghost view = { λ c. record { state = c.agenda; asked_at = c.asked_at; lost = c.lost } };

    ghost invariant = { λ c. ListeningFits (record { state = c.agenda; asked_at = c.asked_at; lost = c.lost }) };
}

impl Controller {
    /// A controller with free slots and no jobs.
    pub fn new() -> Controller
        ensures state { result ≡ first_listening }
        ensures fits { ListeningFits result }
        ensures goes_on { (d : BusDirectory) → CanGoOn d result.state }
    {
        Controller {
            agenda: Agenda::new(),
            asked_at: 0,
            lost: false,
        }
    }

    /// What the controller does next in this cycle. The directory is that of each call since the latest bus reset. One that
    /// has lost a response keeps its stage and sends nothing.
    pub fn next(&mut self, now: u64, directory: &Directory) -> Next
        requires heard { MayTurn self.old }
        requires now { now ≤ 2 ^ 52 }
        requires nodes { HasNodeNumbers directory.now }
        requires reached { IsFalse self.old.lost → CanGoOn directory.now self.old.state }
        ensures answer { result ≡ turn_of now directory.now self.old }
        ensures state { self.new ≡ after_turn now directory.now self.old }
        ensures fits { ListeningFits self.new }
        ensures goes_on { CanGoOn directory.now self.old.state → CanGoOn directory.now self.new.state }

        ensures idle { (result ≡ Next.Idle) ↔ IsAtRest self.old.state }
        ensures waiting { (until : ℕ) → (result ≡ Next.Waiting until) ↔ (IsHeldBack now directory.now self.old.state × (until ≡ directory.now.over_at)) }
        ensures deaf { (until : ℕ) → (result ≡ Next.Deaf until) ↔ IsDeafUntil now self.old until }
        ensures force { (result ≡ Next.Force) ↔ IsToForce now self.old }
        ensures ended { EndsWithCause now directory.now self.old.state result }
        ensures addressee { IfSome (addressee_in result) (λ to. to < 63) }
    {
        if self.lost {
            return self.deaf(now);
        }
        let next = self.agenda.next(now, directory);
        if let Next::Send { .. } = &next {
            self.asked_at = now;
        }
        next
    }

    /// The request that goes out in this cycle, and its node's number, if the current job makes one at the stage at which it stands:
    /// what `next` would do, found at once. None tells nothing, and then nothing changes.
    #[inline(always)]
    pub fn ask(&mut self, now: u64, directory: &Directory) -> Option<(u8, QuadletAccess)>
        requires heard { MayTurn self.old }
        requires now { now ≤ 2 ^ 52 }
        requires nodes { HasNodeNumbers directory.now }
        requires reached { IsFalse self.old.lost → CanGoOn directory.now self.old.state }
        ensures sends { IfSome result (λ asked. turn_of now directory.now self.old ≡ Next.Send asked.0 asked.1) }
        ensures state { IfSome result (λ asked. self.new ≡ after_turn now directory.now self.old) }
        ensures none { IfNone result (self.new ≡ self.old) }
        ensures fits { ListeningFits self.new }
        ensures addressee { IfSome result (λ asked. asked.0 < 63) }
    {
        if self.lost {
            return None;
        }
        let asked = self.agenda.ask(directory)?;
        self.asked_at = now;
        Some(asked)
    }

    /// A response was lost: the controller waits for its split timeout, and then forces a bus reset.
    fn deaf(&self, now: u64) -> Next
        ensures { result ≡ deaf_turn now (deaf_until self.now) }
    {
        let until = self.asked_at + SPLIT_TIMEOUT;
        if now < until {
            Next::Deaf { until }
        } else {
            Next::Force
        }
    }

    /// Whether a request is outstanding, whose reply is still to be heard.
    pub fn has_request(&self) -> bool
        ensures standing { IsTrue result ↔ Awaits self.now }
        ensures heard { IsFalse result ↔ MayTurn self.now }
    {
        !self.lost && self.agenda.has_request()
    }

    /// Whether a response was lost, and no bus reset has come since.
    pub fn is_deaf(&self) -> bool
        ensures { result ≡ self.now.lost }
    {
        self.lost
    }

    /// Whether the controller has something to do: a request is outstanding, or `next` would be neither Idle nor Waiting.
    pub fn busy(&self, now: u64, directory: &Directory) -> bool
        ensures heard { MayTurn self.now → result ≡ is_busy (turn_of now directory.now self.now) }
        ensures standing { Awaits self.now → IsTrue result }
    {
        self.lost || self.agenda.busy(now, directory)
    }

    /// Hears the reply to the outstanding request.
    pub fn hear(&mut self, r: &Reply)
        requires { Awaits self.old }
        ensures state { self.new ≡ after_answer self.old r.now }
        ensures fits { ListeningFits self.new }
        ensures goes_on { (d : BusDirectory) → CanGoOn d self.old.state → CanGoOn d self.new.state }
    {
        self.agenda.hear(r);
    }

    /// The response to the outstanding request is lost.
    pub fn lose(&mut self)
        requires { Awaits self.old }
        ensures state { self.new ≡ after_loss self.old }
        ensures fits { ListeningFits self.new }
        ensures goes_on { (d : BusDirectory) → CanGoOn d self.old.state → CanGoOn d self.new.state }
    {
        self.lost = true;
    }

    /// A bus reset that begins this epoch. A job whose last response was lost counts as one whose answer was not heard.
    pub fn reset(&mut self, epoch: u32)
        ensures state { self.new ≡ after_bus_reset epoch self.old }
        ensures fits { ListeningFits self.new }
        ensures goes_on { (d : BusDirectory) → CanGoOn d self.new.state }
    {
        if self.lost {
            self.agenda.reset_unheard(epoch);
        } else {
            self.agenda.reset(epoch);
        }
        self.lost = false;
    }

    /// The reclaim second is over: so is the own second of each slot that is to be restored.
    pub fn second_over(&mut self)
        ensures state { self.new ≡ after_end self.old }
        ensures fits { ListeningFits self.new }
        ensures goes_on { (d : BusDirectory) → CanGoOn d self.old.state → CanGoOn d self.new.state }
    {
        self.agenda.second_over();
    }
}
