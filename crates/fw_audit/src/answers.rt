//! The one test that is an audit's own: the word that an answer shows is the one that is due.

ghost use Rattle.std.specs.Prelude.{◌≡◌};
ghost use Rattle.fw_model_account.specs.Account.{Account};
ghost use Rattle.fw_ledger.specs.Refused.{IsAnswered};
ghost use Rattle.fw_model_audit.specs.Looked.{Response, Replies};
ghost use Rattle.fw_model_audit.specs.Judged.{judged};

use crate::words::{judge_quadlet, not_allowed};
use fw_account_tables::Asked;
use fw_ledger::Answer;
use fw_model_audit::AuditFault;

/// The fault of an answer that ends a request, if it is complete and at a watched offset: it shows no quadlet, or is to a
/// lock that is no quadlet swap, or no register of the account stands there, or the quadlet is not the word that is due.
pub(crate) fn judge_answer(answer: &Answer) -> Option<AuditFault>
    ensures { (l : Account) (r : Response) → IsAnswered l r answer.now → result ≡ judged l (Replies r) }
{
    if answer.rcode != 0 {
        return None;
    }
    match answer.asked {
        Asked::Read { address, .. } => {
            judge_quadlet(answer.requester, address, answer.shown, answer.due)
        },
        Asked::Swap { address, .. } => {
            judge_quadlet(answer.requester, address, answer.shown, answer.due)
        },
        Asked::Lock { address, .. } => not_allowed(answer.requester, address),
        Asked::Nothing => None,
    }
}
