ghost use Rattle.std.specs.Prelude.{◌≡◌, ◌⊎◌, ◌<◌, ◌^◌, ℕ, Some, IfSome};
ghost use Rattle.fw_cmp_jobs.specs.declared.job.Job.{Job as JobRecord};
ghost use Rattle.fw_cmp_jobs.specs.declared.stage.Stage.{Stage as StageRecord};
ghost use Rattle.fw_cmp_jobs.specs.Answers.{decision_of, DecidedBy};
ghost use Rattle.fw_cmp_jobs.specs.Stages.{hear_reply};
ghost use Rattle.fw_csr.specs.declared.reply.Reply.{Reply as ReplyRecord};
ghost use Rattle.fw_cmp_jobs.specs.Plugs.{remainder_of};

/// An answer decides how a job ends, only if it shows the cause: the asked channel taken, or no free one; too few units;
/// a plug that is full, or an input plug that is busy; an output plug on another channel than the one to be restored; or
/// a response code other than 0. What was decided stays so.
pub fn answers_decide_by_what_they_show()
    ensures { (j : JobRecord) (s : StageRecord) (r : ReplyRecord) → IfSome (decision_of (hear_reply j s r)) (λ e. (decision_of s ≡ Some e) ⊎ DecidedBy j s r e) }
{}

/// The remainder that a controller reads is the whole word of BANDWIDTH_AVAILABLE.
pub fn the_remainder_is_the_word()
    ensures { (w : ℕ) → w < 2 ^ 13 → remainder_of w ≡ w }
{}
