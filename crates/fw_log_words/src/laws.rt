//! Laws of the words, each as the contract of an empty function.

ghost use Rattle.std.specs.Prelude.{◌≡◌, List, ℕ};
ghost use Rattle.fw_log_entry.specs.Log.{LogSpells};
ghost use Rattle.fw_log_entry.specs.declared.entry.Timed.{Timed};
ghost use Rattle.fw_log_entry.specs.declared.version.Version.{Version};
ghost use Rattle.fw_log_words.specs.Converting.{Converts};
ghost use Rattle.fw_log_words.specs.Marks.{MarksGiveBack};
ghost use Rattle.fw_log_words.specs.Swapped.{SwapsAreTold};

/// What is converted to a version and then back to its own is as it was.
pub fn logs_convert_back()
    ensures { (v w : Version) (entries : List Timed) (bytes out back : List ℕ) → LogSpells entries w bytes → Converts v bytes out → Converts w out back → back ≡ bytes }
{}

/// Of the response to a lock whose request it keeps, `explain` says that the swap was made exactly if the account, to which the
/// response is one to this request, replaces the word: if a quadlet compare_swap is complete and shows its argument.
pub fn swaps_are_told()
    ensures { SwapsAreTold }
{}

/// Each mark of a page gives its word back: its lines are, to the byte, what the word writes of the same entries, of `holders` up to the
/// entry at which it stops. The page is these lines between its head and its tail.
pub fn marks_give_words_back()
    ensures { MarksGiveBack }
{}
