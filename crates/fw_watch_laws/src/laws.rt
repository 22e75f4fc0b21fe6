//! Laws of `watch`, each as the contract of an empty function.

ghost use Rattle.std.specs.Prelude.{◌≡◌, ◌≢◌, ◌<◌, ◌∷◌, [], ◌++◌, List, ℕ, true};
ghost use Rattle.std.specs.List.{filter};
ghost use Rattle.fw_log_entry.specs.Log.{InOrder};
ghost use Rattle.fw_log_entry.specs.declared.entry.Timed.{Timed};
ghost use Rattle.fw_watch_remarks.specs.declared.register.At.{At};
ghost use Rattle.fw_watch_known.specs.States.{known_of};
ghost use Rattle.fw_watch.specs.Watched.{known};
ghost use Rattle.fw_watch.specs.Steps.{remarks};
ghost use Rattle.fw_watch_laws.specs.LastKnown.{IsPlace, last_known};
ghost use Rattle.fw_watch_laws.specs.ChangedUnseen.{is_unseen, unseen_due};
ghost use Rattle.fw_watch_laws.specs.TwoSenders.{IsPacket, stays, TwoTold};

/// A word is told as changed unseen exactly if it differs, in a bit that is known, from the last that was known of its register.
/// What `watch` knows of a register is what was last known of it by looking back over the entries: what the last answer, shown word
/// or made swap of it since the last bus reset has left known, or else the bits that the bus reset fixes, or else nothing. And of an
/// entry of a log the remarks `Unseen` are exactly the one that is due: if it shows a word that differs from that.
pub fn changed_words_are_told()
    ensures kept { (entries : List Timed) (at : At) → IsPlace at → known_of (known entries) at ≡ last_known entries at }
    ensures told { (entries prefix rest : List Timed) (t : Timed) → InOrder 0 entries → entries ≡ prefix ++ t ∷ rest → filter is_unseen (remarks (known prefix) t) ≡ unseen_due prefix t }
{}

/// Two senders on one channel are told whenever they are there: of two isochronous packets of a channel with different SIDs, between
/// which nothing moves the channel (no bus reset, and no answer or shown word that changes its bit, or whether a plug is on it, or
/// after which that is not known any more), the finding stands at an entry up to the second one, since which nothing moved it.
pub fn two_senders_are_told()
    ensures { (prefix mid : List Timed) (p q : Timed) (channel a b : ℕ) → InOrder 0 (prefix ++ p ∷ (mid ++ q ∷ [])) → channel < 64 → IsPacket p channel a → IsPacket q channel b → a ≢ b
        → stays (known (prefix ++ p ∷ [])) mid channel ≡ true → TwoTold (prefix ++ p ∷ (mid ++ q ∷ [])) channel }
{}
