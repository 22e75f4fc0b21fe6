//! A law of audits, as the contract of an empty function.

ghost use Rattle.std.specs.Prelude.{List, ℕ};
ghost use Rattle.fw_log_entry.specs.declared.entry.Timed.{Timed};
ghost use Rattle.fw_log.specs.History.{IsLog};
ghost use Rattle.fw_model_account.specs.Fold.{entries_of};
ghost use Rattle.fw_model_audit.specs.Audited.{IsVouched};
ghost use Rattle.fw_log_reports.specs.Verdicts.{IsSoundLog};

/// In a log that an audit accepts the account is defined and sound at every prefix, no channel has two talkers and they take at most
/// 4915 units; and each complete answer to a controller at a watched offset, and each shown word of a watched register, is the
/// account's word.
pub fn sound_logs_are_vouched()
    ensures { (entries : List Timed) (bytes : List ℕ) → IsLog entries bytes → IsSoundLog entries → IsVouched (entries_of entries) }
{}
