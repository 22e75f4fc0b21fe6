//! Responses to lock requests, and the swaps of registers that they end.

ghost use Rattle.std.specs.Prelude.{◌≡◌, ◌<◌, IfSome, Some, ⊤};
ghost use Rattle.std.specs.Option.{option_map};
ghost use Rattle.fw_log_entry.specs.Network.{device_of_id};
ghost use Rattle.fw_model_account.specs.Account.{Account};
ghost use Rattle.fw_model_account.specs.Packets.{Locked, replied_to, after_reply};
ghost use Rattle.fw_model_audit.specs.Looked.{Replies, labelled, quadlet_in};
ghost use Rattle.fw_account_tables.specs.Stands.{Stands, StandsFor, Follows};
ghost use Rattle.fw_account_tables.specs.Swaps.{IsThere, register_named, moved_by};
ghost use Rattle.fw_ledger.specs.Swapped.{shows_argument};
ghost use Rattle.fw_ledger.specs.Swapped.{is_lock_of, swap_done, account_swapped};
ghost use Rattle.fw_ledger.specs.Refused.{Takes, IsRefusedFor, IsSwapRefused, IsAnswered, ShowsAnswer, response_in};

use crate::answer::Answer;
use crate::refused::Refused;
use fw_account_tables::{Asked, Register, Tables};
use fw_async::Head;
use fw_terms::Label;
use fw_words::{COMPARE_SWAP, Swap, quadlet_at};

// The response is complete and shows the argument as the old value.
fn shows_argument(argument: u32, rcode: u8, old: &[u8]) -> bool
    ensures { result ≡ shows_argument argument rcode old.now }
{
    rcode == 0 && old.len() == 4 && quadlet_at(old, 0).0 == argument
}

// The quadlet that an old value is.
fn quadlet_in(old: &[u8]) -> Option<u32>
    ensures { result ≡ quadlet_in old.now }
{
    if old.len() == 4 {
        Some(quadlet_at(old, 0).0)
    } else {
        None
    }
}

// It is a request to this node for this lock function.
fn is_lock_of(asked: Asked, source: u16, function: u8) -> bool
    ensures { result ≡ is_lock_of asked source function }
{
    match asked {
        Asked::Swap { target, .. } => target == source && function == COMPARE_SWAP,
        Asked::Lock {
            target,
            function: other,
            ..
        } => target == source && other == function,
        _ => false,
    }
}

// The swap that a response to the request makes, if it makes one.
fn swap_done(asked: Asked, rcode: u8, old: &[u8]) -> Option<Swap>
    ensures { result ≡ swap_done asked rcode old.now }
{
    match asked {
        Asked::Swap { swap, .. } if shows_argument(swap.argument, rcode, old) => Some(swap),
        _ => None,
    }
}

// Controller `c` swaps the register, if it is one of the account. It is refused if that is no move.
fn swap_at(
    tables: &mut Tables,
    c: u8,
    register: Option<Register>,
    swap: Swap,
) -> Result<(), Refused>
    requires stands { Stands tables.old }
    requires controller { c < 63 }
    requires there { IfSome register (λ r. IsThere r tables.old) }
    ensures { (l : Account) → StandsFor tables.old l
        → Takes result (λ none. ⊤) tables.old tables.new (account_swapped c (option_map register_named register) (Some swap) l) (IsSwapRefused l c (option_map register_named register) (Some swap)) }
{
    let register = match register {
        Some(register) => register,
        None => return Ok(()),
    };
    let due = tables.word(register);
    if !tables.swap(c, register, swap) {
        return Err(Refused::NoMove { swap, due });
    }
    Ok(())
}

// Controller `c` makes the swap that a response completes, if it completes one.
fn make_swap(
    tables: &mut Tables,
    c: u8,
    register: Option<Register>,
    done: Option<Swap>,
) -> Result<(), Refused>
    requires stands { Stands tables.old }
    requires controller { c < 63 }
    requires there { IfSome register (λ r. IsThere r tables.old) }
    ensures { (l : Account) → StandsFor tables.old l
        → Takes result (λ none. ⊤) tables.old tables.new (account_swapped c (option_map register_named register) done l) (IsSwapRefused l c (option_map register_named register) done) }
{
    match done {
        Some(swap) => swap_at(tables, c, register, swap),
        None => Ok(()),
    }
}

// The response to a lock request of controller `c`.
fn end_lock(
    tables: &mut Tables,
    c: u8,
    head: &Head,
    rcode: u8,
    function: u8,
    old: &[u8],
) -> Result<Answer, Refused>
    requires stands { Stands tables.old }
    requires controller { c < 63 }
    ensures { (l : Account) → StandsFor tables.old l → device_of_id l.latest head.now.destination ≡ Some c
        → Takes result (IsAnswered l (response_in head.now rcode (Locked function rcode old.now) (quadlet_in old.now))) tables.old tables.new (replied_to c (l.outstanding c) head.now.source (Locked function rcode old.now) l)
        (IsRefusedFor l (Replies (response_in head.now rcode (Locked function rcode old.now) (quadlet_in old.now)))) }
{
    let asked = tables.outstanding(c);
    if !is_lock_of(asked, head.source, function) {
        return Err(Refused::Orphan(head.destination));
    }
    let register = tables.register_asked(asked);
    let answer = Answer {
        requester: head.destination,
        asked,
        rcode,
        shown: quadlet_in(old),
        due: tables.word_in(register),
    };
    let done = swap_done(asked, rcode, old);
    make_swap(tables, c, register, done)?;
    tables.end(c);
    Ok(answer)
}

/// The response to a lock request.
pub fn take_lock_reply(
    tables: &mut Tables,
    head: &Head,
    rcode: u8,
    function: u8,
    old: &[u8],
) -> Result<Option<Answer>, Refused>
    requires stands { Stands tables.old }
    ensures { (l : Account) → StandsFor tables.old l
        → Takes result (ShowsAnswer l (labelled head.now (Replies (response_in head.now rcode (Locked function rcode old.now) (quadlet_in old.now))))) tables.old tables.new (after_reply head.now (Locked function rcode old.now) l)
        (IsRefusedFor l (labelled head.now (Replies (response_in head.now rcode (Locked function rcode old.now) (quadlet_in old.now))))) }
{
    if !Label::Procedure.marks(head.tl) {
        return Ok(None);
    }
    let device = match tables.device(head.destination) {
        Some(device) => device,
        None => return Err(Refused::NoNode(head.destination)),
    };
    let answer = end_lock(tables, device, head, rcode, function, old)?;
    Ok(Some(answer))
}
