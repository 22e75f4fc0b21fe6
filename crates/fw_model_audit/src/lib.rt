//! The faults of a log's entries over the account, whoever made the log, and what it comes to that there is none: whether the
//! registers of a log ran as an account that is sound.
//!
//! Resets, events and shown words are looked at, and of packets the requests and responses of controllers: those with the transaction
//! label of procedures that read a quadlet or lock. The registers of the account are watched: BANDWIDTH_AVAILABLE, both halves of
//! CHANNELS_AVAILABLE, and the plug control registers. The functions of this file do nothing: their contracts are the laws.
#![tactic(auto)]

ghost use Rattle.std.specs.Prelude.{◌≡◌, ◌↔◌, Some, List};
ghost use Rattle.std.specs.List.{All};
ghost use Rattle.fw_log_entry.specs.declared.entry.Entry.{Entry};
ghost use Rattle.fw_log_entry.specs.Log.{Fits};
ghost use Rattle.fw_model_account.specs.Account.{Account};
ghost use Rattle.fw_model_account.specs.Fold.{next_account};
ghost use Rattle.fw_model_account.specs.Sound.{IsSound};
ghost use Rattle.fw_model_audit.specs.Looked.{looked, ShowsWords};
ghost use Rattle.fw_model_audit.specs.Faults.{HasNoFault, IsVerdict};
ghost use Rattle.fw_model_audit.specs.Judged.{verdict};
ghost use Rattle.fw_model_audit.specs.Audited.{IsAudited, IsVouched};

mod fault;

pub use fault::AuditFault;

/// The tests find the first fault of an entry, and none exactly if it has none. It has none exactly if the account goes on
/// and each watched register that is answered or shown is there, with the account's word.
pub fn verdicts_are_first()
    ensures first { (l : Account) (e : Entry) → IsSound l → IsVerdict l (looked e) (verdict l e) }
    ensures none { (l : Account) (e : Entry) → IsSound l → HasNoFault l (looked e) ↔ (((m : Account) × (next_account l e ≡ Some m)) × ShowsWords l (looked e)) }
{}

/// If no entry has a fault, the account is sound at every prefix, no channel has two talkers and they take at most 4915 units; and
/// each complete answer to a controller at a watched offset, and each shown word of a watched register, is that of the account.
/// So it is, and there only.
pub fn audits_vouch()
    ensures { (entries : List Entry) → All Fits entries → IsAudited entries ↔ IsVouched entries }
{}
