//! The tests of the words that answers show.

ghost use Rattle.std.specs.Prelude.{◌≡◌, ℕ};
ghost use Rattle.std.specs.Option.{option_map};
ghost use Rattle.fw_model_account.specs.Account.{Account};
ghost use Rattle.fw_model_account.specs.Words.{register_of, word_of};
ghost use Rattle.fw_model_audit.specs.Judged.{judged_quadlet, judged_word, watched_offset, not_allowed as no_quadlet};

use crate::watch::watched_offset;
use fw_model_audit::AuditFault;

// A complete answer that shows no quadlet, or is to no quadlet read or swap.
pub(crate) fn not_allowed(id: u16, address: u64) -> Option<AuditFault>
    ensures { result ≡ no_quadlet id (watched_offset address) }
{
    let offset = watched_offset(address)?;
    Some(AuditFault::NotAllowed(id, offset))
}

// The word that was found at a watched offset, if this one is due.
pub(crate) fn judge_word(id: u16, offset: u16, found: u32, due: Option<u32>) -> Option<AuditFault>
    ensures { result ≡ judged_word id offset found due }
{
    match due {
        None => Some(AuditFault::NotAllowed(id, offset)),
        Some(expected) => {
            if found == expected {
                None
            } else {
                Some(AuditFault::WrongWord(found, expected))
            }
        }
    }
}

// A complete answer that shows this of an address, if this word is due.
pub(crate) fn judge_quadlet(
    id: u16,
    address: u64,
    shown: Option<u32>,
    due: Option<u32>,
) -> Option<AuditFault>
    ensures { (l : Account) (target : ℕ) → due ≡ option_map (word_of l) (register_of l.latest target address) → result ≡ judged_quadlet l id target address shown }
{
    let found = match shown {
        Some(found) => found,
        None => return not_allowed(id, address),
    };
    let offset = watched_offset(address)?;
    judge_word(id, offset, found, due)
}
