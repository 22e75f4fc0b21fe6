ghost use Rattle.fw_cmp.specs.declared.outcome.StartFault.TheVariants.{TableFull, Busy, NoSuchConnection};
ghost use Rattle.fw_cmp.specs.Refusals.{IsFull, HasFree, TakesSlot};
ghost use Rattle.std.specs.Prelude.{◌≡◌, ◌↔◌, ◌≤◌, Ok, Err, length, ℕ, Bool, true, false};
ghost use Rattle.fw_cmp.specs.Outcomes.{IsDecidedByAnswers};
ghost use Rattle.fw_csr.specs.declared.reply.Reply.{Reply as ReplyRecord};
ghost use Rattle.fw_cmp_jobs.specs.declared.connection.Slot.{Slot as SlotRecord};
ghost use Rattle.fw_cmp_jobs.specs.declared.directory.Directory.{Directory as BusDirectory};
ghost use Rattle.fw_cmp.specs.Controllers.{ControllerState, Fits, first_state};
ghost use Rattle.fw_cmp.specs.Holdings.{CanGoOn};
ghost use Rattle.fw_cmp.specs.Resets.{after_hear, state_reset, after_second};
ghost use Rattle.fw_cmp.specs.Starts.{start, started, start_break, can_break, break_started};
ghost use Rattle.fw_cmp_jobs.specs.Slots.{IsMaking};
ghost use Rattle.fw_cmp.specs.Turns.{after_next};

/// A new connection takes the lowest free slot. It is refused exactly if all 32 slots are in use, or else eight jobs
/// wait. A break is refused exactly if the slot's connection does not stand and is not to be restored, or a break of
/// it waits or is current, or else eight jobs wait.
pub fn starts_are_refused_by_the_rules()
    ensures full { (c : ControllerState) → (start c ≡ Err TableFull) ↔ IsFull c }
    ensures crowded { (c : ControllerState) → (start c ≡ Err Busy) ↔ (HasFree c × (8 ≤ length c.waiting)) }
    ensures slot { (c : ControllerState) (i : ℕ) → start c ≡ Ok i → TakesSlot c i }
    ensures no_connection { (c : ControllerState) (i : ℕ) → (start_break c i ≡ Err NoSuchConnection) ↔ (can_break c i ≡ false) }
    ensures crowded_break { (c : ControllerState) (i : ℕ) → (start_break c i ≡ Err Busy) ↔ ((can_break c i ≡ true) × (8 ≤ length c.waiting)) }
{}

/// A bus at which a controller can go on is one at which it can go on after each of its steps; at first, and after a bus
/// reset, whether it had lost a response or not, each bus is.
pub fn controllers_go_on()
    ensures first { (d : BusDirectory) → CanGoOn d first_state }
    ensures connection { (d : BusDirectory) (c : ControllerState) (s : SlotRecord) → Fits c → IsMaking s → CanGoOn d c → CanGoOn d (started (start c) s c) }
    ensures breaking { (d : BusDirectory) (c : ControllerState) (i : ℕ) → CanGoOn d c → CanGoOn d (break_started c i) }
    ensures turn { (now : ℕ) (d : BusDirectory) (c : ControllerState) → Fits c → CanGoOn d c → CanGoOn d (after_next now d c) }
    ensures answer { (d : BusDirectory) (c : ControllerState) (r : ReplyRecord) → CanGoOn d c → CanGoOn d (after_hear c r) }
    ensures reset { (d : BusDirectory) (epoch : ℕ) (lost : Bool) (c : ControllerState) → CanGoOn d (state_reset epoch lost c) }
    ensures second { (d : BusDirectory) (c : ControllerState) → CanGoOn d c → CanGoOn d (after_second c) }
{}

/// Between calls no job is decided by the directory: that there is no manager, or no such device, is answered in the call
/// that begins the job. At first, and after a bus reset, a turn and an answer, what is decided was decided by answers;
/// starts and the end of the reclaim second leave the current job as it is.
pub fn the_directory_decides_only_as_a_job_begins()
    ensures first { IsDecidedByAnswers first_state.current }
    ensures turn { (now : ℕ) (d : BusDirectory) (c : ControllerState) → IsDecidedByAnswers c.current → IsDecidedByAnswers (after_next now d c).current }
    ensures answer { (c : ControllerState) (r : ReplyRecord) → IsDecidedByAnswers c.current → IsDecidedByAnswers (after_hear c r).current }
    ensures reset { (epoch : ℕ) (lost : Bool) (c : ControllerState) → IsDecidedByAnswers c.current → IsDecidedByAnswers (state_reset epoch lost c).current }
    ensures second { (c : ControllerState) → (after_second c).current ≡ c.current }
{}
