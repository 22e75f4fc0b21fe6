ghost use Rattle.std.specs.Prelude.{◌≡◌, List, ℕ, IsTrue, IsFalse};
ghost use Rattle.fw_log_entry.specs.declared.entry.ResetEntry.{ResetEntry};
ghost use Rattle.fw_log_entry.specs.declared.entry.Timed.{Timed};
ghost use Rattle.fw_cmp.specs.Controllers.{IsHeard};
ghost use Rattle.fw_cmp.specs.Losses.{first_listening, turn_of, after_turn, after_loss as lost, after_bus_reset, after_end, with_state};
ghost use Rattle.fw_cmp.specs.Starts.{break_fault, break_started, started};
ghost use Rattle.fw_order.specs.declared.order.Wanted.{Wanted};
ghost use Rattle.fw_model_run.specs.Actions.{Action};
ghost use Rattle.fw_model_run.specs.Deeds.{Transitions};
ghost use Rattle.fw_model_run.specs.Afterwards.{after_loss, after_reset_entry, after_second, after_death, with_connection, slot_of, start_of};
ghost use Rattle.fw_model_run.specs.Good.{IsGood};
ghost use Rattle.fw_model_run.specs.HalfSteps.{after_half, has_request, with_controller};
ghost use Rattle.fw_model_run.specs.Recovery.{LosesNothing, RecoversThroughout};
ghost use Rattle.fw_model_run.specs.State.{State, first_state, directory_of, is_deaf, is_living};
ghost use Rattle.fw_model_run.specs.Truth.{controller_at, deaf_says};

/// A state has a controller that has lost a response as one that heard it; in truth it has not heard it. So each controller
/// goes as its own definitions say: it is deaf until its split timeout is over and then forces a bus reset, it keeps its stage,
/// and at a bus reset its job counts as one whose answer was not heard.
pub fn lost_responses_are_not_heard()
    ensures first { (d : ℕ) → controller_at first_state d ≡ first_listening }
    ensures deaf { (s : State) (d : ℕ) → IsTrue (is_deaf s d) → turn_of s.clock.cycle (directory_of s) (controller_at s d) ≡ deaf_says s d }
    ensures turn { (s : State) (d : ℕ) → IsFalse (is_deaf s d) → IsHeard (s.controllers d).current → controller_at (after_half s d) d ≡ after_turn s.clock.cycle (directory_of s) (controller_at s d) }
    ensures loses { (s : State) (d : ℕ) → IsGood s → IsTrue (is_living s d) → IsTrue (has_request (s.controllers d).current) → controller_at (after_loss s d) d ≡ lost (controller_at s d) }
    ensures reset { (s : State) (e : ResetEntry) (d : ℕ) → IsGood s → controller_at (after_reset_entry s e) d ≡ after_bus_reset e.epoch (controller_at s d) }
    ensures second { (s : State) (d : ℕ) → controller_at (after_second s) d ≡ after_end (controller_at s d) }
    ensures connection { (s : State) (d : ℕ) (w : Wanted) → controller_at (with_connection s d w) d ≡ with_state (controller_at s d) (started (start_of d w (controller_at s d).state) (slot_of w) (controller_at s d).state) }
    ensures breaks { (s : State) (d i : ℕ) → break_fault (controller_at s d).state i ≡ break_fault (s.controllers d) i }
    ensures breaking { (s : State) (d i : ℕ) → controller_at (with_controller s d (break_started (s.controllers d) i)) d ≡ with_state (controller_at s d) (break_started (controller_at s d).state i) }
    ensures death { (s : State) (d : ℕ) → controller_at (after_death s d) d ≡ first_listening }
{}

/// Nothing is lost by a lost response. The bus reset that follows, whichever it is, frees what the lost swap took: then nothing is
/// allocated, no plug has a connection, and each controller has heard. From then on, until the next loss, what is allocated and
/// connected is exactly what the controllers themselves know of, by their slots and their jobs. And in each settled state a
/// channel is free, or it belongs to a standing connection, which is whole, or was left by a controller that died. Of one run all of
/// this is said in one clause.
pub fn lost_swaps_come_right()
    ensures states { (actions : List Action) (log : List Timed) (s : State) → Transitions first_state actions log s → LosesNothing s }
    ensures throughout { (actions : List Action) (log : List Timed) (s : State) → Transitions first_state actions log s → RecoversThroughout actions }
{}
