ghost use Rattle.std.specs.Prelude.{◌≡◌, ◌+◌, ◌≤◌, ◌<◌, ◌^◌, ℕ, List, Bool, Option, Some, None, if◌then◌else◌};
ghost use Rattle.fw_terms.specs.Devices.{has_unit};
ghost use Rattle.fw_terms.specs.declared.device.DeviceKind.{DeviceKind};
ghost use Rattle.fw_csr.specs.declared.request.Request.{Request};
ghost use Rattle.fw_fcp.specs.declared.frame.Frame.{Frame};
ghost use Rattle.fw_tape.specs.declared.cassette.Cassette.{Cassette};
ghost use Rattle.fw_tape.specs.Motion.{MayPass};
ghost use Rattle.fw_model_account.specs.Words.{node_of};
ghost use Rattle.fw_node.specs.Fcp.{HasFollowed, frame_packet as packet_of_frame, next_frame as next_of_node, after_frame as node_after_frame};
ghost use Rattle.fw_async.specs.Async.{Fits};
ghost use Rattle.fw_node.specs.Packets.{RequestFits};
ghost use Rattle.fw_node.specs.State.{NodeState, first_state, after_second, after_request, after_reset as node_after_reset};
ghost use Rattle.fw_devices.specs.Decks.{tape_of, with_tape as node_with_tape, passed as node_passed};
ghost use Rattle.fw_model_run.specs.Decks.{DeckState, FrameWrite, first_deck, next_frame, after_frame, most_frames, after_reset, with_tape, passed, IsAtRest};
ghost use Rattle.fw_model_run.specs.Frames.{next_told, request_of, frame_packet, response_write};
ghost use Rattle.fw_log_entry.specs.declared.entry.Timed.{Timed};
ghost use Rattle.fw_order.specs.declared.order.Order.{Order};
ghost use Rattle.fw_model_run.specs.Actions.{Action};
ghost use Rattle.fw_model_run.specs.Carrying.{SendsAll, Carries};
ghost use Rattle.fw_model_run.specs.Given.{AreGiven, AsksNoDesk};
ghost use Rattle.fw_model_run.specs.Good.{IsGood};
ghost use Rattle.fw_model_run.specs.State.{State, has_deck};
ghost use Rattle.fw_model_run.specs.Units.{HasDeck, CanSendAll, IsAddressed, FollowsInRun};

use fw_tape::Desk;

/// In a good state what a deck has to send goes from a node with a link to another, and all of it can be sent, each frame being
/// one less; and tapes may move on for as long as time may go on. A node sends the packet that the run writes, and one that may be written is a request that may be asked.
pub fn decks_tell_linked_nodes()
    ensures frames { (s : State) (d : ℕ) (told : ℕ × Frame) → IsGood s → next_told s d ≡ Some told → IsAddressed s d told }
    ensures all { (s : State) (d : ℕ) → IsGood s → s.transaction ≡ None → s.frame ≡ None → CanSendAll s d }
    ensures fewer { (k : DeckState) (told : ℕ × Frame) → next_frame k ≡ Some told → most_frames (after_frame k) + 1 ≡ most_frames k }
    ensures tapes { (s : State) (n d : ℕ) → IsGood s → s.clock.cycle + n ≤ 2 ^ 52 → MayPass n (s.decks d).unit.tape }
    ensures packets { (s : State) (d to : ℕ) (told : ℕ × Frame) → node_of s.account.latest d < 64 → node_of s.account.latest to ≡ told.0 → told.0 < 64
        → packet_of_frame (node_of s.account.latest d) told ≡ frame_packet s (response_write d to told.1) }
    ensures fits { (s : State) (w : FrameWrite) → Fits (frame_packet s w) → RequestFits (request_of w) }
{}

/// A node keeps the unit of its deck, whatever happens to both: at first, at requests, bus resets and the ends of seconds, as
/// tapes go in and out and time goes by, and as frames are sent. A deck that is off stays as it is at a bus reset, and one that
/// has nothing to send as it is asked for a frame.
pub fn nodes_keep_decks()
    ensures first { (kind : DeviceKind) (d rate : ℕ) (withheld : Bool) → HasDeck (first_state kind d rate withheld) (has_unit kind) first_deck }
    ensures requests { (r : Request) (b : Bool) (n : NodeState) (k : DeckState) → HasDeck n b k → HasDeck (after_request (Some r) n) b k }
    ensures resets { (number : ℕ) (manager b : Bool) (n : NodeState) (k : DeckState) → HasDeck n b k → HasDeck (node_after_reset number manager n) b (after_reset k) }
    ensures rests { (b : Bool) (n : NodeState) (k : DeckState) → IsAtRest k → HasDeck n b k → HasDeck n b (after_reset k) }
    ensures seconds { (b : Bool) (n : NodeState) (k : DeckState) → HasDeck n b k → HasDeck (after_second n) b k }
    ensures tapes { (tape : Option Cassette) (b : Bool) (n : NodeState) (k : DeckState) → HasDeck n b k → HasDeck (node_with_tape tape n) b (with_tape tape k) }
    ensures cycles { (cycles : ℕ) (b : Bool) (n : NodeState) (k : DeckState) → HasDeck n b k → HasDeck (node_passed cycles n) b (passed cycles k) }
    ensures tape { (b : Bool) (n : NodeState) (k : DeckState) → HasDeck n b k → tape_of n ≡ (if b then k.unit.tape else None) }
    ensures next { (b : Bool) (n : NodeState) (k : DeckState) → HasDeck n b k → next_of_node n ≡ (if b then next_frame k else None) }
    ensures sent { (b : Bool) (n : NodeState) (k : DeckState) → HasDeck n b k → HasDeck (node_after_frame n) b (after_frame k) }
    ensures quiet { (b : Bool) (n : NodeState) (k : DeckState) → (if b then next_frame k else None) ≡ None → HasDeck n b k → HasDeck (node_after_frame n) b k }
{}

/// What follows at a node from a write with this desk follows in the run, and the desk allows the response. Orders but commands and
/// written cycles have nothing of a desk.
pub fn commands_are_followed<F: Fn(u16, u32, u16) -> [u8; 480], H: Fn(u32, u8) -> u8>(
    desk: &Desk<F, H>,
)
    ensures follows { (s : State) (w : FrameWrite) (before after : NodeState) → HasDeck before (has_deck s w.to) (s.decks w.to)
        → HasFollowed (H.post desk.now.vendor) (node_of s.account.latest w.from) (Some (request_of w)) before after
        → FollowsInRun (record { blocks = F.post desk.now.blocks; vendor = H.post desk.now.vendor }) s w after }
    ensures sent { (d : ℕ) (s : State) (actions : List Action) (out : List Timed) (t : State) → SendsAll d s actions out t
        → AreGiven (record { blocks = F.post desk.now.blocks; vendor = H.post desk.now.vendor }) actions }
    ensures others { (s : State) (o : Order) (actions : List Action) (out : List Timed) (t : State) → AsksNoDesk o → Carries s o actions out t
        → AreGiven (record { blocks = F.post desk.now.blocks; vendor = H.post desk.now.vendor }) actions }
{
    let _ = desk;
}
