//! How many rounds the controllers take to restore their connections after a bus reset: the distance of one restoring
//! from its next success over registers that stand still, progress of all within eight rounds, and the count.
#![tactic(auto)]

ghost use Rattle.std.specs.Prelude.{◌≡◌, ℕ};
ghost use Rattle.fw_cmp.specs.Controllers.{Fits, first_state};
ghost use Rattle.fw_model_rounds.specs.HalfSteps.{to_come};
ghost use Rattle.fw_model_rounds.specs.Rounds.{WasReset};
ghost use Rattle.fw_model_rounds.specs.Laws.{RestoringsAreNear, AnswersLeaveFewer};
ghost use Rattle.fw_model_rounds.specs.Laws.{DistancesAreFew, SuccessIsAtTwo, DistancesFall};
ghost use Rattle.fw_model_rounds.specs.Laws.{ControllersMakeProgress, HalfStepsLeaveNoMore, ControllersGoOnRestoring};
ghost use Rattle.fw_model_rounds.specs.Laws.{EightRoundsMakeProgress};
ghost use Rattle.fw_model_rounds.specs.Laws.{RoundsRestoreAll, RoundsRestoreAllAfterReset};
ghost use Rattle.fw_model_rounds.specs.Laws.{AccountTellsWhoHoldsChannels, AnswersAreHalfSteps, TurnsAreHalfSteps};
ghost use Rattle.fw_model_rounds.specs.Laws.{OnlyLivingAfterReset, OnlyLivingAfterMove};
ghost use Rattle.fw_model_rounds.specs.Laws.{TurnsAskWhatStands, ResetsLeaveWhatStands};
ghost use Rattle.fw_model_rounds.specs.Laws.{RoundsTakeInUsedControllers};
ghost use Rattle.fw_model_rounds.specs.Laws.{ResetsOpenSettling, ResetsBeginAllAnew, SettlingRestoresAll};

/// A restoring that does not wait for its channel has a successful swap, or its end, within three answers. Each answer
/// leaves at most the successes that were still to come, and one less if a swap succeeds.
pub fn restorings_are_near()
    ensures near { RestoringsAreNear }
    ensures fewer { AnswersLeaveFewer }
{}

/// The table of distances: by stage, the half steps of a restoring up to its next success while the registers stand still.
/// It is at most six if the restoring does not wait, two at a swap that succeeds, and each answer without a success
/// lowers it by two, the request and the answer.
pub fn distances_fall()
    ensures few { DistancesAreFew }
    ensures success { SuccessIsAtTwo }
    ensures falls { DistancesFall }
{}

/// A controller with a slot to be restored makes progress within eight half steps of its own while the registers stand
/// still, or the slot waits for the holder of its channel. A half step never leaves more to come, and leaves less if it
/// makes progress; and the controller goes on restoring.
pub fn controllers_make_progress()
    ensures progress { ControllersMakeProgress }
    ensures fewer { HalfStepsLeaveNoMore }
    ensures restores { ControllersGoOnRestoring }
{}

/// While a slot is to be restored, eight rounds make progress.
pub fn eight_rounds_make_progress()
    ensures { EightRoundsMakeProgress }
{}

/// Right after a reset that begins a reclaim second, with no break waiting, 64 rounds for each connection that is to be
/// restored, and 64 more, leave no slot to be restored. The number of controllers does not matter.
pub fn rounds_restore_all()
    ensures enough { RoundsRestoreAll }
    ensures after_reset { RoundsRestoreAllAfterReset }
{}

/// In a reclaim second in which no controller has died, the account of controllers that are in step with it tells who
/// holds the channel that a slot waits for. A half step over the account is one over registers that stand still, unless
/// it makes progress: an answer at a register that stands, or what comes next, if the words of the registers stay.
pub fn account_tells_of_controllers()
    ensures holders { AccountTellsWhoHoldsChannels }
    ensures answers { AnswersAreHalfSteps }
    ensures next { TurnsAreHalfSteps }
{}

/// Right after a bus reset only living controllers have Pending allocations, and their moves leave it so.
pub fn only_living_controllers_allocate()
    ensures reset { OnlyLivingAfterReset }
    ensures moves { OnlyLivingAfterMove }
{}

/// A request is outstanding only of a stage that makes one: what comes next begins it, and a bus reset leaves it so.
pub fn requests_stand_of_their_stage()
    ensures next { TurnsAskWhatStands }
    ensures reset { ResetsLeaveWhatStands }
{}

/// A controller that has just started has nothing to restore, and is as a bus reset leaves it. So a round takes in each
/// controller that has something to restore if it takes in each one that is not as it started.
pub fn new_controllers_have_nothing_to_restore()
    ensures none { to_come first_state ≡ 0 }
    ensures round { RoundsTakeInUsedControllers }
    ensures reset { (epoch : ℕ) → Fits first_state → WasReset first_state }
{}

/// The bound over the account. Right after a bus reset that begins a reclaim second, with no break waiting and all
/// controllers in step with the account, 64 rounds of half steps for each connection that is to be restored, and 64 more,
/// leave no slot to be restored. The first two clauses say what such a reset leaves.
pub fn settling_restores_all()
    ensures begins { ResetsOpenSettling }
    ensures reset { ResetsBeginAllAnew }
    ensures enough { SettlingRestoresAll }
{}
