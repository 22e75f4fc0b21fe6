ghost use Rattle.std.specs.Prelude.{◌≡◌, ◌<◌, ℕ, List, Some, None, IsTrue, slice_get};
ghost use Rattle.fw_terms.specs.declared.plug.PlugAt.{PlugAt};
ghost use Rattle.fw_cip.specs.declared.packet.IsoPacket.{IsoPacket};
ghost use Rattle.fw_log_entry.specs.declared.entry.Entry.TheVariants.{Iso};
ghost use Rattle.fw_log_entry.specs.declared.entry.Timed.{Timed};
ghost use Rattle.fw_model_account.specs.Account.{Account, talks};
ghost use Rattle.fw_model_account.specs.Fold.{next_account};
ghost use Rattle.fw_model_run.specs.Actions.{Action, Die};
ghost use Rattle.fw_model_run.specs.Deeds.{Transition};
ghost use Rattle.fw_model_run.specs.Carrying.{next_cycle, SendsPackets};
ghost use Rattle.fw_model_run.specs.Cycles.{AllTalk, ArePackets, CanSendPackets, CanWriteCycles, CountsThrough, MayWrite};
ghost use Rattle.fw_model_run.specs.Good.{IsGood};
ghost use Rattle.fw_model_run.specs.Reclaiming.{IsBusReset};
ghost use Rattle.fw_model_run.specs.State.{State};
ghost use Rattle.fw_model_run.specs.Streams.{sent_before, talkers};

/// Each plug counts its data packets since it began to talk: whatever an action does, the count of a plug that goes on talking rises by
/// the blocks that its tape gives in it, and that of a plug that begins is 0. So bus resets and deaths leave each count as it was.
pub fn counts_follow_who_talks()
    ensures actions { (s : State) (a : Action) (out : List Timed) (t : State) → IsGood s → Transition s a out t → (p : PlugAt) → CountsThrough a s t p }
    ensures resets { (s : State) (a : Action) (t : State) → IsGood s → IsBusReset s a t → (p : PlugAt) → t.streams p ≡ s.streams p }
    ensures deaths { (s : State) (d : ℕ) (out : List Timed) (t : State) → IsGood s → Transition s (Die d) out t → (p : PlugAt) → t.streams p ≡ s.streams p }
{}

/// The packets of a cycle are those of the plugs that talk in it, one a plug and one a channel, in order of channel. The DBC of each is the
/// count of its plug's data packets before the cycle. A packet changes nothing, neither of the account nor of the state.
pub fn cycles_have_a_packet_a_talker()
    ensures talk { (l : Account) (i : ℕ) (p : PlugAt) → slice_get (talkers l) i ≡ Some p → IsTrue (talks l p) }
    ensures all { (s : State) (p : PlugAt) → IsGood s → IsTrue (talks s.account p) → (i : ℕ) × (slice_get (talkers s.account) i ≡ Some p) }
    ensures order { (l : Account) (i j : ℕ) (p q : PlugAt) → i < j → slice_get (talkers l) i ≡ Some p → slice_get (talkers l) j ≡ Some q
        → (l.settings p).channel < (l.settings q).channel }
    ensures packets { (plugs : List PlugAt) (s : State) (actions : List Action) (out : List Timed) (t : State) → SendsPackets plugs s actions out t
        → ArePackets s plugs out × (t ≡ s) }
    ensures counts { (s : State) (out : List Timed) (t : State) (p : PlugAt) → Transition s (next_cycle s) out t → IsTrue (talks t.account p)
        → sent_before t p ≡ s.streams p }
    ensures account { (l : Account) (q : IsoPacket) → next_account l (Iso q) ≡ Some l }
{}

/// In a good state cycles can be written for as long as no limit is passed, whatever talks, and so can the packets of plugs that talk: what
/// is left of cycles that were cut off inside can always be written.
pub fn cycles_can_be_written()
    ensures cycles { (n : ℕ) (s : State) → IsGood s → MayWrite n s → CanWriteCycles n s }
    ensures packets { (plugs : List PlugAt) (s : State) → s.transaction ≡ None → AllTalk s plugs → CanSendPackets plugs s }
    ensures talkers { (s : State) → AllTalk s (talkers s.account) }
{}
