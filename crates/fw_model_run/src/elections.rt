ghost use Rattle.std.specs.Prelude.{◌≡◌, ◌<◌, ℕ, List, Some, None, IsTrue};
ghost use Rattle.fw_log_entry.specs.declared.entry.Timed.{Timed};
ghost use Rattle.fw_order.specs.declared.limits.TheConstants.{MOST_HALF_STEPS};
ghost use Rattle.fw_model_run.specs.Actions.{Action, Contend};
ghost use Rattle.fw_model_run.specs.Deeds.{Transition, Transitions};
ghost use Rattle.fw_model_run.specs.Bidding.{is_candidate};
ghost use Rattle.fw_model_run.specs.Candidates.{HasCandidates};
ghost use Rattle.fw_model_run.specs.Elected.{ElectsOne};
ghost use Rattle.fw_model_run.specs.Good.{IsGood};
ghost use Rattle.fw_model_run.specs.State.{State, first_state, manager_in, is_living};

/// Between two bus resets one device at most is elected bus manager, and it is the winner: the first whose bid found no bus manager. From
/// the answer to it to the next bus reset BUS_MANAGER_ID holds its node number, and each defeated candidate has heard another word.
pub fn one_device_is_elected()
    ensures { (actions : List Action) (log : List Timed) (s : State) → Transitions first_state actions log s → ElectsOne actions log }
{}

/// Candidates are computers whose controllers live, on a bus that has an isochronous resource manager, whatever happens. So between the
/// commands of a script a half step of a candidate can be carried out until the limit of half steps is reached, and it writes and leaves what
/// the candidate says.
pub fn candidates_can_bid()
    ensures first { HasCandidates first_state }
    ensures actions { (s : State) (a : Action) (out : List Timed) (t : State) → IsGood s → HasCandidates s → Transition s a out t → HasCandidates t }
    ensures lives { (s : State) (d : ℕ) → HasCandidates s → IsTrue (is_candidate s d) → IsTrue (is_living s d) }
    ensures manager { (s : State) (d : ℕ) → HasCandidates s → IsTrue (is_candidate s d) → (n : ℕ) × (manager_in s.account.latest ≡ Some n) }
    ensures bids { (s : State) (d : ℕ) → HasCandidates s → IsTrue (is_candidate s d) → s.half_steps < MOST_HALF_STEPS → s.transaction ≡ None
        → (out : List Timed) × (t : State) × Transition s (Contend d) out t }
{}
