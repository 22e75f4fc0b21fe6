ghost use Rattle.std.specs.Prelude.{List, ℕ, IsTrue};
ghost use Rattle.fw_log_entry.specs.declared.entry.Timed.{Timed};
ghost use Rattle.fw_model_account.specs.Account.{is_withheld};
ghost use Rattle.fw_model_run.specs.Actions.{Action};
ghost use Rattle.fw_model_run.specs.Deeds.{Transitions};
ghost use Rattle.fw_model_run.specs.State.{State, first_state};
ghost use Rattle.fw_model_run.specs.Withheld.{IsUnused, WithholdsThroughout};

/// On a bus that withholds channel 31 nothing ever has it, whatever is asked for: it is not allocated and no flow of it comes
/// back, no plug sends or is connected on it, and no controller has a connection there. What a bus withholds it withholds to
/// the end. Of one run both are said in one clause.
pub fn withheld_channels_stay_unused()
    ensures unused { (actions : List Action) (log : List Timed) (s : State) → Transitions first_state actions log s → (ch : ℕ) → IsTrue (is_withheld s.account.withheld ch) → IsUnused s ch }
    ensures ever { (actions more : List Action) (log out : List Timed) (s t : State) → Transitions first_state actions log s → Transitions s more out t → IsTrue s.account.withheld → IsTrue t.account.withheld }
    ensures throughout { (actions : List Action) (log : List Timed) (s : State) → Transitions first_state actions log s → WithholdsThroughout actions }
{}
