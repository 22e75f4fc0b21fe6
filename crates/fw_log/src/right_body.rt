//! The body of the latest bus reset that was found right: a bus reset mostly has the same, but for its epoch.

ghost use Rattle.std.specs.Prelude.{◌≡◌, ◌≤◌, [], IsFalse, IsTrue, drop, length};
ghost use Rattle.fw_log.specs.Plain.{IsReset};

use crate::held::SplitEntry;
use crate::plain_reset::is_plain_reset;
use std::marker::Model;

/// How many bytes of a body the epoch takes, which comes first. Any epoch is right.
const EPOCH_SIZE: usize = 4;

/// The body of the latest bus reset that was found right, after its epoch; no bytes if there is none.
#[derive(Drop)]
pub struct RightBody {
    later: SplitEntry,
}

impl Model for RightBody {
    ghost use Rattle.std.specs.Prelude.{List, ℕ, ◌<◌, length};
    ghost use Rattle.fw_log.specs.Plain.{EndsReset};

    ghost Value = { List ℕ };

    ghost view = { λ r. r.later };

    ghost invariant = { λ r. 0 < length r.later → EndsReset r.later };
}

impl RightBody {
    /// There is none.
    pub(crate) fn new() -> RightBody
        ensures { result ≡ [] }
    {
        RightBody {
            later: SplitEntry::new(),
        }
    }

    /// Whether the body is a reset's. One that is, is the latest from then on. A reset with the later bytes of the latest is found in few instructions.
    #[inline(never)]
    pub(crate) fn is_right(&mut self, body: &[u8]) -> bool
        requires some { 8 ≤ length body.now }
        requires few { length body.now ≤ 2276 }
        ensures reset { IsTrue result → IsReset body.now }
        ensures latest { IsTrue result → self.new ≡ drop 4 body.now }
        ensures same { IsFalse result → self.new ≡ self.old }
    {
        let later = &body[EPOCH_SIZE..];
        if self.later.as_slice() == later {
            return true;
        }
        if !is_plain_reset(body) {
            return false;
        }
        self.later.clear();
        self.later.append(later);
        true
    }
}
