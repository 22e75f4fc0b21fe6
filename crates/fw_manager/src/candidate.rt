ghost use Rattle.std.specs.Prelude.{◌≡◌, ◌≢◌, ◌↔◌, ℕ, IsTrue, IsFalse};
ghost use Rattle.fw_manager.specs.Bids.{first_state, stage_in, next, after_next, after_hear, is_asked, is_standing_in};
ghost use Rattle.fw_manager.specs.declared.candidate.BidProgress.TheVariants.{Heard, Answered};

use crate::Bid;
use fw_csr::{BUS_MANAGER_ID, NO_BUS_MANAGER, QuadletAccess, Reply};
use fw_words::Swap;
use std::marker::Model;

/// How far a bid has come.
#[derive(Clone, Copy, PartialEq, Eq)]
pub enum BidProgress {
    /// It is still to be made.
    Fresh,
    /// Its request is outstanding.
    Asked,
    /// The word that its compare_swap found.
    Heard(u32),
    /// It has ended.
    Answered,
}

/// A candidate: the epoch of its latest bid, and how far that came.
#[derive(Clone, Copy, PartialEq, Eq)]
pub struct Candidate {
    epoch: u32,
    stage: BidProgress,
}

impl Model for Candidate {
    ghost use Rattle.fw_manager.specs.Bids.{CandidateState};

    ghost Value = { CandidateState };

    ghost view = { λ c. record { epoch = c.epoch; stage = c.stage } };

    ghost inverse = { λ c. record { epoch = c.epoch; stage = c.stage } };
}

impl Candidate {
    /// A candidate that has made no bid yet.
    pub fn new() -> Candidate
        ensures { result ≡ first_state }
    {
        Candidate {
            epoch: 0,
            stage: BidProgress::Fresh,
        }
    }

    /// What the candidate does next in this epoch, as this node, if `manager` is the isochronous resource manager. A new epoch
    /// begins its bid anew, and so drops what was asked and heard in another.
    pub fn next(&mut self, epoch: u32, node: u8, manager: u8) -> Bid
        requires heard { IsFalse (is_standing_in epoch self.old) }
        ensures answer { result ≡ next epoch node manager self.old }
        ensures state { self.new ≡ after_next epoch self.old }

        ensures elected { (result ≡ Bid.Elected) ↔ (stage_in epoch self.old ≡ Heard 0x3F) }
        ensures defeated { (by : ℕ) → (result ≡ Bid.Defeated by) ↔ ((stage_in epoch self.old ≡ Heard by) × (by ≢ 0x3F)) }
        ensures done { (result ≡ Bid.Done) ↔ (stage_in epoch self.old ≡ Answered) }
    {
        let stage = self.stage_in(epoch);
        self.epoch = epoch;
        if let BidProgress::Fresh = stage {
            self.stage = BidProgress::Asked;
            let swap = Swap {
                argument: NO_BUS_MANAGER,
                new: u32::from(node),
            };
            return Bid::Send {
                to: manager,
                request: QuadletAccess::new(BUS_MANAGER_ID, Some(swap)),
            };
        }
        self.stage = BidProgress::Answered;
        match stage {
            BidProgress::Heard(NO_BUS_MANAGER) => Bid::Elected,
            BidProgress::Heard(by) => Bid::Defeated { by },
            BidProgress::Fresh | BidProgress::Asked | BidProgress::Answered => Bid::Done,
        }
    }

    /// Hears the reply to the outstanding request.
    pub fn hear(&mut self, r: &Reply)
        requires stands { IsTrue (is_asked self.old.stage) }
        requires complete { r.now.rcode ≡ 0 }
        ensures state { self.new ≡ after_hear r.now.value self.old }
    {
        self.stage = BidProgress::Heard(r.value);
    }

    /// Whether its request of this epoch is outstanding, whose reply is still to be heard.
    pub fn has_request(&self, epoch: u32) -> bool
        ensures { result ≡ is_standing_in epoch self.now }
    {
        matches!(self.stage_in(epoch), BidProgress::Asked)
    }

    /// How far its bid of this epoch has come.
    fn stage_in(&self, epoch: u32) -> BidProgress
        ensures { result ≡ stage_in epoch self.now }
    {
        if self.epoch == epoch {
            self.stage
        } else {
            BidProgress::Fresh
        }
    }
}
