//! Words that are found of registers.

ghost use Rattle.std.specs.Prelude.{◌≡◌, IsTrue, IsFalse};
ghost use Rattle.fw_watch_remarks.specs.Knowing.{differing};
ghost use Rattle.fw_watch_known.specs.Judging.{judged};
ghost use Rattle.fw_watch_known.specs.States.{known_of};

use crate::state::State;
use fw_watch_remarks::{At, Known, counted};

impl State {
    /// A word was found.
    #[tactic(auto, unfolding(crate::specs::Judging::judged))]
    pub fn judge(&mut self, at: At, found: u32)
        ensures { self.new ≡ judged self.old at found }
    {
        let known = self.known(at);
        self.counts.judge(known, found);
        self.put(at, Known::all(found));
    }

    /// As `judge`, if the word that was found is known in all of its bits; elsewhere nothing happens. Answers whether it is so.
    #[inline(always)]
    pub fn judge_same(&mut self, at: At, found: u32) -> bool
        ensures same { IsTrue result → differing (known_of self.old at) found ≡ 0 }
        ensures judged { IsTrue result → self.new ≡ judged self.old at found }
        ensures other { IsFalse result → self.new ≡ self.old }
    {
        let known = self.known(at);
        if known.mask != u32::MAX || known.word != found {
            return false;
        }
        self.count_same(at, known);
        true
    }

    // A word was found that is known.
    #[inline(always)]
    fn count_same(&mut self, at: At, known: Known)
        requires all { known.mask ≡ 0xFFFFFFFF }
        requires known { known ≡ known_of self.old at }
        ensures { self.new ≡ judged self.old at known.word }
    {
        self.counts.judged = counted(self.counts.judged);
        if at.register.is_managed() {
            return;
        }
        self.channels.note_use(known.channel());
    }
}
