//! The lines of words that changed unseen.

ghost use Rattle.std.specs.Prelude.{◌≡◌, OnOk};
ghost use Rattle.fw_watch_remarks.specs.Remarks.{told};
ghost use Rattle.fw_watch.specs.Judging.{judge_remarks};

use fw_watch_known::State;
use fw_watch_remarks::{At, Journal, Remark};
use std::alloc::AllocError;

/// Tells if a word that is found differs from what is known.
#[tactic(auto, unfolding(crate::specs::Judging::judge_remarks))]
pub(crate) fn tell_judged(
    state: &State,
    journal: &mut Journal,
    cycle: u64,
    at: At,
    found: u32,
) -> Result<(), AllocError>
    ensures { OnOk result (journal.new ≡ told journal.old (judge_remarks state.now cycle at found)) }
{
    let known = state.known(at);
    if known.differing(found) == 0 {
        return Ok(());
    }
    journal.say(cycle, Remark::Unseen { at, known, found })
}
