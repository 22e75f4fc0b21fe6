ghost use Rattle.std.specs.Prelude.{◌≡◌, ◌<◌, List, Some, ℕ, false, IsTrue};
ghost use Rattle.fw_terms.specs.Devices.{input_plugs_of};
ghost use Rattle.fw_terms.specs.Tables.{at_plug};
ghost use Rattle.fw_devices.specs.Network.{kind_at};
ghost use Rattle.fw_log_entry.specs.declared.entry.Timed.{Timed};
ghost use Rattle.fw_model_account.specs.Words.{InputPlug, word_of};
ghost use Rattle.fw_plug.specs.Plugs.{is_active};
ghost use Rattle.fw_script_command.specs.declared.command.Command.{Command};
ghost use Rattle.fw_model_run.specs.Actions.{Action};
ghost use Rattle.fw_model_run.specs.Deeds.{Transition};
ghost use Rattle.fw_model_run.specs.Carrying.{KeepsCycle};
ghost use Rattle.fw_model_run.specs.Dubs.{hears_in};
ghost use Rattle.fw_model_run.specs.Given.{AreGiven};
ghost use Rattle.fw_model_run.specs.Good.{IsGood};
ghost use Rattle.fw_model_run.specs.Hearing.{HasHearing, HearThrough};
ghost use Rattle.fw_model_run.specs.Recorded.{IsRecorded, AreRecorded};
ghost use Rattle.fw_model_run.specs.Recording.{heard_in};
ghost use Rattle.fw_model_run.specs.Runs.{Run};
ghost use Rattle.fw_model_run.specs.State.{State, first_state, is_on};

use fw_tape::Desk;

/// A block that goes onto the reel in a written cycle is that of the one output plug which talks on the channel that the tied deck's input
/// plug hears: its tape gives the block in that cycle, and the desk allows the bytes.
pub fn recorded_blocks_are_heard<F: Fn(u16, u32, u16) -> [u8; 480], H: Fn(u32, u8) -> u8>(
    desk: &Desk<F, H>,
)
    ensures { (s : State) (actions : List Action) (out : List Timed) (t : State) (bytes : List ℕ) → IsGood s → (f : KeepsCycle s actions out t)
        → AreGiven (record { blocks = F.post desk.now.blocks; vendor = H.post desk.now.vendor }) actions → heard_in f.sent out ≡ Some bytes
        → IsRecorded (record { blocks = F.post desk.now.blocks; vendor = H.post desk.now.vendor }) f.sent bytes }
{
    let _ = desk;
}

/// Each block of the reel of a run was recorded so in the course of the run.
pub fn reels_are_recorded<F: Fn(u16, u32, u16) -> [u8; 480], H: Fn(u32, u8) -> u8>(
    desk: &Desk<F, H>,
)
    ensures { (commands : List Command) (actions : List Action) (log : List Timed) (s : State) → Run commands actions log s
        → AreGiven (record { blocks = F.post desk.now.blocks; vendor = H.post desk.now.vendor }) actions
        → AreRecorded (record { blocks = F.post desk.now.blocks; vendor = H.post desk.now.vendor }) first_state actions s.dub.reel }
{
    let _ = desk;
}

/// No input plug of a device that is off hears, whatever happens. On the bus a plug's word, and whether it goes on, say whether it hears.
pub fn input_plugs_hear_by_their_words()
    ensures first { HasHearing first_state }
    ensures actions { (s : State) (a : Action) (out : List Timed) (t : State) → IsGood s → HasHearing s → Transition s a out t → HasHearing t }
    ensures off { (s : State) (d k : ℕ) → IsGood s → HasHearing s → is_on s d ≡ false → hears_in s.account s.dub (at_plug d k) ≡ false }
    ensures on { (s : State) (d k : ℕ) → IsGood s → IsTrue (is_on s d) → k < input_plugs_of (kind_at s.declared.kinds d)
        → is_active (word_of s.account (InputPlug (at_plug d k))) (s.dub.lingers (at_plug d k)) ≡ hears_in s.account s.dub (at_plug d k) }
{}

/// What each action leaves of the input plugs that go on hearing with no connection: a half step ends the hearing of exactly those whose
/// words it changes, a bus reset leaves those that heard, by their words, and the end of the second none.
pub fn input_plugs_linger_through_runs()
    ensures { (s : State) (a : Action) (out : List Timed) (t : State) → IsGood s → HasHearing s → Transition s a out t → HearThrough a out s t }
{}
