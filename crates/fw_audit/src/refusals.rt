//! The faults of entries after which there is no account.

ghost use Rattle.std.specs.Prelude.{Some};
ghost use Rattle.fw_model_account.specs.Account.{Account};
ghost use Rattle.fw_ledger.specs.Refused.{IsDue, IsRefusedFor};
ghost use Rattle.fw_model_audit.specs.Looked.{Looked};
ghost use Rattle.fw_model_audit.specs.Faults.{IsNoMove, IsVerdict};

use fw_ledger::Refused;
use fw_model_audit::AuditFault;
use fw_words::Swap;

// The first fault of a swap that is no move, if this word is due: it shows another, or else it is none.
fn fault_of_swap(swap: Swap, due: u32) -> AuditFault
    ensures { (l : Account) (x : Looked) → IsNoMove l x swap.argument swap.new → IsDue l x due → IsVerdict l x (Some result) }
{
    if swap.argument == due {
        AuditFault::NoMove(swap.argument, swap.new)
    } else {
        AuditFault::WrongWord(swap.argument, due)
    }
}

/// The first fault of an entry that is refused.
pub(crate) fn fault_of(refused: Refused) -> AuditFault
    ensures { (l : Account) (x : Looked) → IsRefusedFor l x refused → IsVerdict l x (Some result) }
{
    match refused {
        Refused::NoNode(id) => AuditFault::NoNode(id),
        Refused::Overlap(id) => AuditFault::Overlap(id),
        Refused::Orphan(id) => AuditFault::Orphan(id),
        Refused::NoMove { swap, due } => fault_of_swap(swap, due),
        Refused::NoEvent(code) => AuditFault::NoEvent(code),
    }
}
