ghost use Rattle.std.specs.Prelude.{◌≡◌, ◌<◌, ℕ, List, IsTrue, IsFalse};
ghost use Rattle.fw_terms.specs.Devices.{output_plugs_of};
ghost use Rattle.fw_terms.specs.Tables.{at_plug};
ghost use Rattle.fw_devices.specs.Network.{kind_at};
ghost use Rattle.fw_log_entry.specs.declared.entry.Timed.{Timed};
ghost use Rattle.fw_model_account.specs.Account.{talks};
ghost use Rattle.fw_model_account.specs.Words.{OutputPlug, word_of};
ghost use Rattle.fw_plug.specs.Plugs.{is_active};
ghost use Rattle.fw_model_controllers.specs.Lingering.{LingerUnchanged};
ghost use Rattle.fw_model_run.specs.Actions.{Action};
ghost use Rattle.fw_model_run.specs.Deeds.{Transition};
ghost use Rattle.fw_model_run.specs.Good.{IsGood};
ghost use Rattle.fw_model_run.specs.HalfSteps.{after_half};
ghost use Rattle.fw_model_run.specs.Lingering.{LingerThrough};
ghost use Rattle.fw_model_run.specs.State.{State, is_on, is_living};

/// What each action leaves of the output plugs that linger: a half step ends the lingering of exactly those whose words it
/// changes, a bus reset leaves those that were active, and the end of the second none. A plug of a device on the bus talks if
/// its word says that it is connected or it lingers, and no plug of a device that is off does.
pub fn plugs_linger_through_runs()
    ensures actions { (s : State) (a : Action) (out : List Timed) (t : State) → IsGood s → Transition s a out t → LingerThrough a out s.account t.account }
    ensures half_steps { (s : State) (d : ℕ) → IsGood s → IsTrue (is_living s d) → LingerUnchanged s.account (after_half s d).account }
    ensures talks { (s : State) (d k : ℕ) → IsGood s → IsTrue (is_on s d) → k < output_plugs_of (kind_at s.declared.kinds d)
        → is_active (word_of s.account (OutputPlug (at_plug d k))) (s.account.continues (at_plug d k)) ≡ talks s.account (at_plug d k) }
    ensures off { (s : State) (d k : ℕ) → IsGood s → IsFalse (is_on s d) → IsFalse (talks s.account (at_plug d k)) }
{}
