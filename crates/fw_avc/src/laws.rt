ghost use Rattle.std.specs.Prelude.{◌≡◌, ◌≢◌, ℕ};
ghost use Rattle.fw_fcp.specs.declared.frame.Frame.{Frame};
ghost use Rattle.fw_avc.specs.State.{UnitState};
ghost use Rattle.fw_avc.specs.Replies.{unit_after};
ghost use Rattle.fw_avc.specs.Notices.{notice_of};
ghost use Rattle.fw_avc.specs.Laws.{Tells};

/// Status commands and inquiries change nothing, and a NOTIFY request changes alone which requests are kept.
pub fn frames_change_what_they_command()
    ensures asked { (u : UnitState) (from : ℕ) (f : Frame) → f.code ≢ 0 → f.code ≢ 3 → unit_after u from f ≡ u }
    ensures notified { (u : UnitState) (from : ℕ) (f : Frame) → f.code ≢ 0 → record (unit_after u from f) { kept = u.kept } ≡ u }
{}

/// A notice is of the first kept request whose state has changed, shows the state as it is now, and goes to the node that
/// asked; the request is then no longer kept. There is none exactly if no state has changed.
pub fn notices_tell_the_first_change()
    ensures { (u : UnitState) → Tells u (notice_of u) }
{}
