//! Laws of `holders`, each as the contract of an empty function.

ghost use Rattle.std.specs.Prelude.{◌≡◌, ◌↔◌, ◌<◌, ◌+◌, ◌++◌, ◌⊎◌, [], List, Some, ℕ, IsTrue, IsFalse};
ghost use Rattle.fw_async.specs.declared.packet.Packet.{Packet};
ghost use Rattle.fw_terms.specs.declared.plug.PlugAt.{PlugAt};
ghost use Rattle.fw_log_entry.specs.declared.entry.Entry.TheVariants.{Async};
ghost use Rattle.fw_log_entry.specs.declared.entry.Timed.{Timed};
ghost use Rattle.fw_model_account.specs.Account.{Account, Flow, has_connection, total};
ghost use Rattle.fw_model_account.specs.Fold.{account_of, entries_of, next_account};
ghost use Rattle.fw_model_account.specs.Sound.{IsSound};
ghost use Rattle.fw_model_account.specs.Words.{BandwidthAvailable, word_of};
ghost use Rattle.fw_audit.specs.Unjudged.{unjudged};
ghost use Rattle.fw_holders.specs.Counts.{judged_of};
ghost use Rattle.fw_holders.specs.Deeds.{told};
ghost use Rattle.fw_holders.specs.Table.{input_line, judged_line, left_line, output_line, plug_lines};
ghost use Rattle.fw_holders.specs.Told.{holders, table_of};
ghost use Rattle.fw_holders_laws.specs.Channels.{account_lines};
ghost use Rattle.fw_holders_laws.specs.Moves.{IsMoveTold};
ghost use Rattle.fw_holders_laws.specs.Between.{HasSameHolders};

/// The table at a log's end is the account: a line for each channel that is allocated, with its holder and units, or else that is
/// reclaimable, in the second that runs; the lines of plugs; and what BANDWIDTH_AVAILABLE says, which is 4915 with all that is allocated.
pub fn tables_tell_the_account()
    ensures table { (entries : List Timed) (l : Account) → account_of (entries_of entries) ≡ Some l
        → table_of entries ≡ account_lines 64 l ++ plug_lines 63 l ++ left_line (word_of l BandwidthAvailable) (unjudged entries) ++ judged_line (judged_of entries) (unjudged entries) }
    ensures flows { (l : Account) (ch : ℕ) (f : Flow) → IsSound l → l.reclaimable ch ≡ Some f → IsTrue l.reclaiming }
    ensures left { (l : Account) → IsSound l → total l.allocations + word_of l BandwidthAvailable ≡ 4915 }
{}

/// The plugs of the table are those that have a connection: a plug has a line exactly if it has one, and each plug that has one
/// is among those that the table goes through.
pub fn tables_tell_the_connections()
    ensures outputs { (l : Account) (p : PlugAt) → (output_line l p ≡ []) ↔ IsFalse (has_connection (l.outputs p)) }
    ensures inputs { (l : Account) (p : PlugAt) → (input_line l p ≡ []) ↔ IsFalse (has_connection (l.inputs p)) }
    ensures range { (l : Account) (p : PlugAt) → IsSound l → IsTrue (has_connection (l.outputs p)) ⊎ IsTrue (has_connection (l.inputs p)) → (p.device < 63) × (p.plug < 31) }
{}

/// What is told of a response is a move of the account: one that its controller may make, with that account after it.
pub fn moves_are_told()
    ensures { (l k : Account) (p : Packet) (what : List ℕ) → IsSound l → next_account l (Async p) ≡ Some k → told l (Async p) ≡ Some what → IsMoveTold l k what }
{}

/// Between two lines the account's holders are as they were: entries without a line leave what is allocated and reclaimable, the
/// connections and what plugs keep.
pub fn holders_stay_between_lines()
    ensures { (before more : List Timed) (l k : Account) → account_of (entries_of before) ≡ Some l → account_of (entries_of (before ++ more)) ≡ Some k → holders before more ≡ []
        → HasSameHolders l k }
{}
