//! Laws of `watch` on the logs of runs, each as the contract of an empty function.

ghost use Rattle.std.specs.Prelude.{◌≡◌, ◌∷◌, [], ◌++◌, List};
ghost use Rattle.fw_log_entry.specs.declared.entry.Timed.{Timed};
ghost use Rattle.fw_script_command.specs.declared.command.Command.{Command};
ghost use Rattle.fw_script_command.specs.declared.command.Command.TheVariants.{End};
ghost use Rattle.fw_model_run.specs.Actions.{Action};
ghost use Rattle.fw_model_run.specs.Logs.{HasNoEnd};
ghost use Rattle.fw_model_run.specs.Runs.{Run};
ghost use Rattle.fw_model_run.specs.State.{State};
ghost use Rattle.fw_audit.specs.Unjudged.{unjudged};
ghost use Rattle.fw_watch_laws.specs.Orderly.{IsOrderly};
ghost use Rattle.fw_watch_runs.specs.Elsewhere.{HasNoBadSwap};

/// An audit finds no fault in the log of a run, and its locks at watched registers have the label of procedures: the script swaps there
/// nowhere. So it is while the script goes on, and when its end was written.
pub fn run_logs_are_orderly()
    ensures open { (commands : List Command) (actions : List Action) (log : List Timed) (s : State) → Run commands actions log s → HasNoEnd commands → IsOrderly log }
    ensures whole { (commands : List Command) (actions : List Action) (log : List Timed) (s : State) → Run (commands ++ End ∷ []) actions log s → HasNoEnd commands → IsOrderly log }
{}

/// No lock of the log of a run is left without a judgement: so `audit` and `holders` say nothing of such locks.
pub fn runs_leave_nothing_unjudged()
    ensures open { (commands : List Command) (actions : List Action) (log : List Timed) (s : State) → Run commands actions log s → HasNoEnd commands → unjudged log ≡ 0 }
    ensures whole { (commands : List Command) (actions : List Action) (log : List Timed) (s : State) → Run (commands ++ End ∷ []) actions log s → HasNoEnd commands → unjudged log ≡ 0 }
{}

/// In the log of a run `watch` tells of no swap as of another than the resource manager, as too many units, several channels at once or
/// more than a connection.
pub fn runs_have_no_bad_swap()
    ensures open { (commands : List Command) (actions : List Action) (log : List Timed) (s : State) → Run commands actions log s → HasNoEnd commands → HasNoBadSwap log }
    ensures whole { (commands : List Command) (actions : List Action) (log : List Timed) (s : State) → Run (commands ++ End ∷ []) actions log s → HasNoEnd commands → HasNoBadSwap log }
{}
