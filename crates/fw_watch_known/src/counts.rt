//! What is counted of a log.

ghost use Rattle.std.specs.Prelude.{◌≡◌};

use fw_watch_remarks::{Known, counted};

/// What is counted of a log. Each count stays at the greatest that a number of 64 bits has.
#[derive(Clone, Copy)]
pub struct Counts {
    /// Bus resets.
    pub resets: u64,
    /// Answers and shown words at registers of which something was known.
    pub judged: u64,
    /// Those of which nothing was known.
    pub not_known: u64,
    /// Those that showed another word than was known.
    pub unseen: u64,
    /// Isochronous packets.
    pub packets: u64,
}

impl Counts {
    ghost use Rattle.fw_watch_known.specs.Judging.{judged_counts};
    ghost use Rattle.fw_watch_known.specs.States.{no_counts};

    /// Nothing was counted.
    pub fn none() -> Counts
        ensures { result ≡ no_counts }
    {
        Counts {
            resets: 0,
            judged: 0,
            not_known: 0,
            unseen: 0,
            packets: 0,
        }
    }

    // A word was found where this was known.
    #[tactic(auto, unfolding(crate::specs::Judging::judged_counts))]
    pub fn judge(&mut self, known: Known, found: u32)
        ensures { self.new ≡ judged_counts known found self.old }
    {
        if known.mask == 0 {
            self.not_known = counted(self.not_known);
        } else {
            self.judged = counted(self.judged);
        }
        if known.differing(found) != 0 {
            self.unseen = counted(self.unseen);
        }
    }
}
