//! Who is a candidate for the bus manager.

ghost use Rattle.std.specs.Prelude.{◌≡◌, ◌<◌, ◌+◌, Some, None, IfOk, IsTrue, IsFalse, is_some};
ghost use Rattle.fw_manager.specs.Bids.{CandidateState, next, after_next, after_hear, is_asked, is_standing_in};
ghost use Rattle.fw_model_run.specs.Elections.{Election, no_election, with_candidate, with_new_candidate};
ghost use Rattle.fw_bus_state.specs.Candidates.{HasElection, count_of, candidate_in};

use fw_csr::Reply;
use fw_devices::MOST_DEVICES;
use fw_manager::{Bid, Candidate};
use std::alloc::{AllocError, Global};
use std::marker::Model;

/// The candidate that each declared device is, by number, if it is one.
#[derive(Drop)]
pub struct Candidates {
    pub(crate) list: Vec<Option<Candidate>>,
    /// A computer was made a candidate: from then on the script swaps BUS_MANAGER_ID no more.
    pub(crate) begun: bool,
}

impl Model for Candidates {
    ghost use Rattle.std.specs.Prelude.{vec_capacity, length, ◌≤◌};
    ghost use Rattle.fw_bus_state.specs.Candidates.{CandidateTable};

    ghost Value = { CandidateTable };

    ghost view = { λ c. record { list = c.list.items; begun = c.begun } };

    ghost invariant = { λ c. (length c.list.items ≤ 63) × (63 ≤ vec_capacity c.list) };
}

impl Candidates {
    /// No devices. The memory for 63 is taken here, and no later call takes any.
    pub fn new(alloc: Global) -> Result<Candidates, AllocError>
        ensures { IfOk result (λ c. HasElection c 0 no_election) }
    {
        Ok(Candidates {
            list: Vec::with_capacity(alloc, MOST_DEVICES)?,
            begun: false,
        })
    }

    /// One device more, which is no candidate.
    pub fn add(&mut self)
        requires { count_of self.old < 63 }
        ensures { (e : Election) → HasElection self.old (count_of self.old) e → HasElection self.new (count_of self.old + 1) e }
    {
        self.list.push(None).unwrap();
    }

    /// Whether a computer was ever made a candidate.
    pub fn begun(&self) -> bool
        ensures { result ≡ self.now.begun }
    {
        self.begun
    }

    /// Whether a device is a candidate.
    pub fn is_candidate(&self, device: u8) -> bool
        ensures value { result ≡ is_some (candidate_in self.now device) }
        ensures election { (e : Election) → HasElection self.now (count_of self.now) e → result ≡ is_some (e.candidates device) }
    {
        matches!(self.list.get(usize::from(device)), Some(Some(_)))
    }

    /// Whether the request of a device's candidate stands in this epoch.
    pub fn has_request(&self, device: u8, epoch: u32) -> bool
        ensures { (e : Election) (c : CandidateState) → HasElection self.now (count_of self.now) e → e.candidates device ≡ Some c → result ≡ is_standing_in epoch c }
    {
        match self.list.get(usize::from(device)) {
            Some(Some(candidate)) => candidate.has_request(epoch),
            _ => false,
        }
    }

    /// A device becomes a candidate.
    pub fn enter(&mut self, device: u8)
        requires { device < count_of self.old }
        ensures { (e : Election) → HasElection self.old (count_of self.old) e → HasElection self.new (count_of self.old) (with_new_candidate e device) }
    {
        self.list[usize::from(device)] = Some(Candidate::new());
        self.begun = true;
    }

    /// A device is a candidate no more.
    pub fn leave(&mut self, device: u8)
        requires { device < count_of self.old }
        ensures { (e : Election) → HasElection self.old (count_of self.old) e → HasElection self.new (count_of self.old) (with_candidate e device None) }
    {
        self.list[usize::from(device)] = None;
    }

    /// What the candidate of a device does next (`Candidate::next`); nothing if it is none.
    pub fn next(&mut self, device: u8, epoch: u32, node: u8, manager: u8) -> Bid
        requires device { device < count_of self.old }
        requires heard { (c : CandidateState) → candidate_in self.old device ≡ Some c → IsFalse (is_standing_in epoch c) }
        ensures answer { (e : Election) (c : CandidateState) → HasElection self.old (count_of self.old) e → e.candidates device ≡ Some c
            → (result ≡ next epoch node manager c) × HasElection self.new (count_of self.old) (with_candidate e device (Some (after_next epoch c))) }
    {
        match &mut self.list[usize::from(device)] {
            Some(candidate) => candidate.next(epoch, node, manager),
            None => Bid::Done,
        }
    }

    /// The candidate of a device hears the reply to its request (`Candidate::hear`).
    pub fn hear(&mut self, device: u8, reply: &Reply)
        requires device { device < count_of self.old }
        requires stands { (c : CandidateState) → candidate_in self.old device ≡ Some c → IsTrue (is_asked c.stage) }
        requires complete { reply.now.rcode ≡ 0 }
        ensures { (e : Election) (c : CandidateState) → HasElection self.old (count_of self.old) e → e.candidates device ≡ Some c → HasElection self.new (count_of self.old) (with_candidate e device (Some (after_hear reply.now.value c))) }
    {
        if let Some(candidate) = &mut self.list[usize::from(device)] {
            candidate.hear(reply);
        }
    }
}
