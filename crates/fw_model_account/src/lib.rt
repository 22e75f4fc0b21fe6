//! The account of channels, bandwidth units and plug connections that the transactions of a log make: as definitions, with
//! their laws. The functions of this file do nothing: their contracts are the laws.
#![tactic(auto)]

ghost use Rattle.std.specs.Prelude.{◌≡◌, ◌≢◌, ◌<◌, ◌≤◌, ◌+◌, ◌^◌, ◌++◌, ◌↔◌, [], ◌∷◌, ◌||◌, ℕ, Bool, List, count_by, Some, None, if◌then◌else◌, IsTrue, IsFalse};
ghost use Rattle.std.specs.List.{All};
ghost use Rattle.fw_terms.specs.declared.plug.PlugAt.{PlugAt};
ghost use Rattle.fw_log_entry.specs.declared.entry.ResetEntry.{ResetEntry};
ghost use Rattle.fw_log_entry.specs.declared.entry.Entry.{Entry};
ghost use Rattle.fw_log_entry.specs.Log.{Fits};
ghost use Rattle.fw_model_account.specs.Account.{Account, Holder, is_withheld, talks};
ghost use Rattle.fw_log_entry.specs.Network.{IsNetwork};
ghost use Rattle.fw_plug.specs.Words.{out_fields, in_fields};
ghost use Rattle.fw_words.specs.Quadlet.{field};
ghost use Rattle.fw_model_account.specs.Network.{is_output, is_input};
ghost use Rattle.fw_model_account.specs.Moves.{Move, Can, after, HasNoPending};
ghost use Rattle.fw_model_account.specs.Events.{after_reset, after_second, after_death, after_withholding};
ghost use Rattle.fw_model_account.specs.Words.{Register, BandwidthAvailable, ChannelsAvailable, OutputPlug, InputPlug, word_of, word_at, fields_at, input_fields_at};
ghost use Rattle.fw_model_account.specs.Decode.{IsMove, move_at, register_of_move};
ghost use Rattle.fw_model_account.specs.Fold.{next_account, account_of};
ghost use Rattle.fw_model_account.specs.Refused.{IsRefused};
ghost use Rattle.fw_model_account.specs.Sound.{IsSound, IsConflictFree};
ghost use Rattle.fw_model_account.specs.Listing.{resources, listed_units, lists_channel, is_channel, is_channel_of, is_units_of, IsAllocatedForFlows};
ghost use Rattle.fw_model_account.specs.Example.{first_path, restored, other_channel, not_allocated, listening, died, second_over, reset, registers_after, input_after};

/// Each move and each event keeps the account sound, and so does each entry in the grammar of the log: at every prefix of a
/// list of entries that has an account, there is one, and it is sound. In a sound account no channel has two talkers, and
/// they take at most 4915 units.
pub fn account_stays_sound()
    ensures moves { (c : ℕ) (p : PlugAt) (m : Move) (l : Account) → c < 63 → IsSound l → Can c p m l → IsSound (after c p m l) }
    ensures reset { (r : ResetEntry) (l : Account) → IsNetwork r → IsSound l → IsSound (after_reset r l) }
    ensures second { (l : Account) → IsSound l → IsSound (after_second l) }
    ensures death { (c : ℕ) (l : Account) → IsSound l → IsSound (after_death c l) }
    ensures withholding { (l : Account) → l.latest ≡ None → IsSound l → IsSound (after_withholding l) }
    ensures entries { (l m : Account) (e : Entry) → Fits e → IsSound l → next_account l e ≡ Some m → IsSound m }
    ensures prefixes { (before later : List Entry) (m : Account) → All Fits before → account_of (before ++ later) ≡ Some m → (k : Account) × (account_of before ≡ Some k) × IsSound k }
    ensures shared { (l : Account) → IsSound l → IsConflictFree l }
{}

/// A compare_swap is found to be a move exactly if it is one: the controller may make the move, and it swaps the move's
/// own register from its word in the account before to its word in the account after. So a compare_swap is one move at most.
pub fn moves_are_found()
    ensures { (c : ℕ) (p : PlugAt) (m : Move) (register : Register) (arg new : ℕ) (l : Account) → c < 63 → IsSound l → (move_at l c register arg new ≡ Some (p, m)) ↔ IsMove c p m register arg new l }
{}

/// From a sound account, exactly the entries that are refused lead to no next account: a request of no node or beside an
/// outstanding one, a response that is to no outstanding request, a compare_swap that changes a register of the account and
/// is no move, the end of a reclaim second if none runs, and channel 31 withheld after a reset entry.
pub fn entries_are_refused()
    ensures { (l : Account) (e : Entry) → IsSound l → (next_account l e ≡ None) ↔ IsRefused e l }
{}

/// Each move at an input plug changes the word of its register. So that no swap was made at it is seen by its word alone.
pub fn input_moves_show()
    ensures { (c : ℕ) (p : PlugAt) (m : Move) (l : Account) → c < 63 → IsSound l → Can c p m l → register_of_move p m ≡ InputPlug p
        → word_of (after c p m l) (InputPlug p) ≢ word_of l (InputPlug p) }
{}

/// What the registers of a sound account say, each in 32 bits: the units that are left beside those of the list of all that
/// is allocated, a bit that is 1 exactly for a channel that the list does not name and that is not withheld, and the fields of
/// the plug registers.
pub fn registers_tell()
    ensures below { (l : Account) (n offset word : ℕ) → IsSound l → word_at l n offset ≡ Some word → word < 2 ^ 32 }
    ensures units { (l : Account) → IsSound l → listed_units (resources l) + word_of l BandwidthAvailable ≡ 4915 }
    ensures channels { (l : Account) (base i : ℕ) → i < 32 → base + i < 64 → field (word_of l (ChannelsAvailable base)) i i ≡ (if lists_channel (base + i) (resources l) || is_withheld l.withheld (base + i) then 0 else 1) }
    ensures outputs { (l : Account) (p : PlugAt) → IsSound l → IsTrue (is_output l.latest p) → out_fields (word_of l (OutputPlug p)) ≡ fields_at l p }
    ensures inputs { (l : Account) (p : PlugAt) → IsSound l → IsTrue (is_input l.latest p) → in_fields (word_of l (InputPlug p)) ≡ input_fields_at l p }
{}

/// What a bus withholds is not used there: nothing is allocated with the channel, no flow on it may be allocated again, and no
/// output plug talks on it.
pub fn withheld_channels_are_unused()
    ensures allocations { (l : Account) (ch : ℕ) → IsSound l → IsTrue (is_withheld l.withheld ch) → l.allocations ch ≡ None }
    ensures flows { (l : Account) (ch : ℕ) → IsSound l → IsTrue (is_withheld l.withheld ch) → l.reclaimable ch ≡ None }
    ensures talkers { (l : Account) (p : PlugAt) → IsSound l → IsTrue (talks l p) → IsFalse (is_withheld l.withheld (l.settings p).channel) }
{}

/// The list of all that is allocated has each channel once, and for each kind of holder no more entries of units than of
/// channels: units are allocated only beside a channel.
pub fn resources_are_distinct()
    ensures once { (l : Account) (ch : ℕ) → count_by (is_channel ch) (resources l) ≤ 1 }
    ensures beside { (l : Account) (test : Holder → Bool) → count_by (is_units_of test) (resources l) ≤ count_by (is_channel_of test) (resources l) }
{}

/// If no controller has a Pending allocation, and only there, what is allocated is exactly the channels and units of the
/// connected plugs, and what controllers left that died since the reset.
pub fn allocations_are_flows()
    ensures { (l : Account) → IsSound l → ((c : ℕ) → HasNoPending c l.allocations) ↔ IsAllocatedForFlows l }
{}

/// The account of an example, computed: one deck makes a broadcast connection at overhead_ID 0, and after a reset again. The
/// registers are BANDWIDTH_AVAILABLE, CHANNELS_AVAILABLE_LO and the deck's oPCR.
pub fn example_has_account()
    ensures connected { registers_after first_path ≡ Some (2403 ∷ 0xfffffffe ∷ 0xc03f007a ∷ []) }
    ensures restored { registers_after restored ≡ Some (2403 ∷ 0xfffffffe ∷ 0xc03f007a ∷ []) }
    ensures other_channel { account_of other_channel ≡ None }
    ensures not_allocated { account_of not_allocated ≡ None }
    ensures listening { input_after listening ≡ Some 0xc03f0000 }
    ensures died { registers_after died ≡ Some (2403 ∷ 0xfffffffe ∷ 0xc03f007a ∷ []) }
    ensures no_second { account_of (reset 1 ∷ second_over ∷ []) ≡ None }
{}
