//! Shown words.

ghost use Rattle.std.specs.Prelude.{◌≡◌};
ghost use Rattle.fw_model_account.specs.Account.{Account};
ghost use Rattle.fw_account_tables.specs.Stands.{StandsFor};
ghost use Rattle.fw_model_audit.specs.Looked.{Shows};
ghost use Rattle.fw_model_audit.specs.Judged.{judged};

use crate::watch::is_watched;
use crate::words::judge_word;
use fw_csr::REGISTER_SPACE;
use fw_ledger::Ledger;
use fw_log_entry::ShownEntry;
use fw_model_audit::AuditFault;

/// The fault of a shown word at a watched offset: it is not the word that is due there, or no register of the account stands
/// there. A device that is no node has the node ID FFFF.
pub(crate) fn judge_shown(ledger: &Ledger, shown: &ShownEntry) -> Option<AuditFault>
    ensures { (l : Account) → StandsFor ledger.now l → result ≡ judged l (Shows shown.now) }
{
    let offset = u64::from(shown.offset);
    if !is_watched(offset) {
        return None;
    }
    match ledger.id(shown.device) {
        Some(id) => judge_word(
            id,
            shown.offset,
            shown.word,
            ledger.word(id, REGISTER_SPACE + offset),
        ),
        None => Some(AuditFault::NotAllowed(0xffff, shown.offset)),
    }
}
