ghost use Rattle.std.specs.Prelude.{◌≡◌, ◌≢◌, ◌+◌, ◌<◌, ℕ, [], ◌∷◌, Option, Some, is_some, false, if◌then◌else◌};
ghost use Rattle.std.specs.Option.{option_map};
ghost use Rattle.fw_fcp.specs.declared.frame.Frame.{Frame};
ghost use Rattle.fw_fcp.specs.Tables.{row_of};
ghost use Rattle.fw_tape.specs.declared.system.TapeSystem.{TapeSystem};
ghost use Rattle.fw_tape.specs.declared.transport.Transport.{Transport};
ghost use Rattle.fw_tape.specs.declared.cassette.Cassette.{Cassette};
ghost use Rattle.fw_tape.specs.declared.row.TapeRow.TheVariants.{Enter};
ghost use Rattle.fw_tape.specs.Systems.{frames_per_day, share_cycles, share_blocks};
ghost use Rattle.fw_tape.specs.Transports.{codes_of, same_state};
ghost use Rattle.fw_tape.specs.Motion.{moved_on, moved_back, passed_on, transport_of, frame_of, first_frame, entered, IsInRange};
ghost use Rattle.fw_tape.specs.Blocks.{due_among, blocks_among, next_block, block_now, IsCycleOf};
ghost use Rattle.fw_tape.specs.TimeCodes.{time_code, Counts};
ghost use Rattle.fw_tape.specs.Rows.{control_rows};
ghost use Rattle.fw_tape.specs.Commands.{response, tape_after};

/// What a play gives, cycle by cycle: each block is due in exactly one cycle; in any 2002 cycles, or 16, the share of
/// blocks is due; and cycles that pass in two parts count as one. As a cycle passes, the block that was due next is the one
/// that is due now, and counts as one.
pub fn blocks_are_due_in_order()
    ensures once { (s : TapeSystem) (b : ℕ) → (k : ℕ) × IsCycleOf s b k }
    ensures one { (s : TapeSystem) (b j k : ℕ) → IsCycleOf s b j → IsCycleOf s b k → j ≡ k }
    ensures share { (s : TapeSystem) (k : ℕ) → due_among s k (share_cycles s) ≡ share_blocks s }
    ensures parts { (c : Cassette) (m n : ℕ) → passed_on (m + n) c ≡ passed_on n (passed_on m c) }
    ensures blocks { (c : Cassette) (m n : ℕ) → blocks_among (Some c) (m + n) ≡ blocks_among (Some c) m + blocks_among (Some (passed_on m c)) n }
    ensures given { (t : Option Cassette) → block_now (option_map (passed_on 1) t) ≡ next_block t }
    ensures counted { (t : Option Cassette) → blocks_among t 1 ≡ (if is_some (next_block t) then 1 else 0) }
{}

/// A tape that moved some frames forward and as many back stands where it stood, and a time code counts the frames from
/// the tape's begin. A tape stands on a frame of its day, and a new state of the transport finds it where the old one left
/// it, but for winding, which leaves it at the first or the last frame.
pub fn frames_are_counted()
    ensures back { (s : TapeSystem) (start n : ℕ) → start < frames_per_day s → moved_back s (moved_on s start n) n ≡ start }
    ensures forth { (s : TapeSystem) (start n : ℕ) → start < frames_per_day s → moved_on s (moved_back s start n) n ≡ start }
    ensures time_code { (s : TapeSystem) (frame : ℕ) → frame < frames_per_day s → Counts s frame (time_code s frame) }
    ensures within { (c : Cassette) → IsInRange c → frame_of c < frames_per_day c.system }
    ensures begun { (c : Cassette) (t : Transport) → IsInRange c → same_state t c.transport ≡ false → frame_of (entered t c) ≡ first_frame t c }
{}

/// Control commands alone change the tape, and only those that are accepted: these leave the state that they name, which
/// a status then shows. The control commands of the transport are those with the codes of its states.
pub fn commands_enter_their_states()
    ensures named { (t : Transport) → row_of control_rows (codes_of t).0 ((codes_of t).1 ∷ []) ≡ Some (Enter t) }
    ensures entered { (c : Cassette) (f : Frame) (t : Transport) → f.code ≡ 0 → row_of control_rows f.opcode f.operands ≡ Some (Enter t) → transport_of (tape_after (Some c) f) ≡ t }
    ensures kept { (t : Option Cassette) (f : Frame) → (response t f).code ≢ 9 → tape_after t f ≡ t }
    ensures asked { (t : Option Cassette) (f : Frame) → f.code ≢ 0 → tape_after t f ≡ t }
{}
