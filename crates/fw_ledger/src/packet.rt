//! Packets of procedures: requests, and the responses to reads.

ghost use Rattle.std.specs.Prelude.{◌≡◌, ◌<◌, Some, ⊤};
ghost use Rattle.fw_log_entry.specs.Network.{device_of_id};
ghost use Rattle.fw_model_account.specs.Account.{Account, Operation, Reads, Locks};
ghost use Rattle.fw_model_account.specs.Packets.{Read, asked_by, after_request, after_reply, replied_to};
ghost use Rattle.fw_model_audit.specs.Looked.{Asks, Replies, labelled};
ghost use Rattle.fw_account_tables.specs.Stands.{Stands, StandsFor, AskedFor};
ghost use Rattle.fw_ledger.specs.Swapped.{is_read_of};
ghost use Rattle.fw_ledger.specs.Refused.{Takes, IsRefusedFor, IsAnswered, ShowsAnswer, response_in};

use crate::answer::Answer;
use crate::refused::Refused;
use fw_account_tables::{Asked, Tables};
use fw_async::Head;
use fw_terms::Label;
use fw_words::Swap;

// What a lock request asks for.
fn lock_asked(target: u16, address: u64, function: u8, bytes: &[u8]) -> Asked
    ensures { AskedFor result (Some (record { target = target; address = address; operation = Locks function bytes.now })) }
{
    match Swap::of_lock(function, bytes) {
        Some(swap) => Asked::Swap {
            target,
            address,
            swap,
        },
        None => Asked::Lock {
            target,
            address,
            function,
        },
    }
}

/// A request of the node with the ID `source`, for what `asked` says. It is refused if the ID is no node's, and
/// beside an outstanding request of that node.
#[inline(always)]
pub fn take_request(
    tables: &mut Tables,
    source: u16,
    target: u16,
    address: u64,
    asked: Asked,
) -> Result<(), Refused>
    requires stands { Stands tables.old }
    ensures { (l : Account) (operation : Operation) → StandsFor tables.old l → AskedFor asked (Some (record { target = target; address = address; operation = operation }))
        → Takes result (λ done. ⊤) tables.old tables.new (asked_by (device_of_id l.latest source) (record { target = target; address = address; operation = operation }) l) (IsRefusedFor l (Asks source)) }
{
    let device = match tables.device(source) {
        Some(device) => device,
        None => return Err(Refused::NoNode(source)),
    };
    if tables.is_busy(device) {
        return Err(Refused::Overlap(source));
    }
    let plug = tables.addressed_after(device, target, address);
    let c = usize::from(device);
    tables.addressed[c] = plug;
    tables.asked[c] = asked;
    Ok(())
}

/// A read request.
pub fn take_read(tables: &mut Tables, head: &Head, offset: u64) -> Result<Option<Answer>, Refused>
    requires stands { Stands tables.old }
    ensures { (l : Account) → StandsFor tables.old l
        → Takes result (ShowsAnswer l (labelled head.now (Asks head.now.source))) tables.old tables.new (after_request head.now offset Reads l) (IsRefusedFor l (labelled head.now (Asks head.now.source))) }
{
    if !Label::Procedure.marks(head.tl) {
        return Ok(None);
    }
    let asked = Asked::Read {
        target: head.destination,
        address: offset,
    };
    take_request(tables, head.source, head.destination, offset, asked)?;
    Ok(None)
}

/// A lock request.
pub fn take_lock(
    tables: &mut Tables,
    head: &Head,
    offset: u64,
    function: u8,
    bytes: &[u8],
) -> Result<Option<Answer>, Refused>
    requires stands { Stands tables.old }
    ensures { (l : Account) → StandsFor tables.old l
        → Takes result (ShowsAnswer l (labelled head.now (Asks head.now.source))) tables.old tables.new (after_request head.now offset (Locks function bytes.now) l) (IsRefusedFor l (labelled head.now (Asks head.now.source))) }
{
    if !Label::Procedure.marks(head.tl) {
        return Ok(None);
    }
    let asked = lock_asked(head.destination, offset, function, bytes);
    take_request(tables, head.source, head.destination, offset, asked)?;
    Ok(None)
}

// The response to a read request of controller `c`.
fn end_read(
    tables: &mut Tables,
    c: u8,
    head: &Head,
    rcode: u8,
    value: u32,
) -> Result<Answer, Refused>
    requires stands { Stands tables.old }
    requires controller { c < 63 }
    ensures { (l : Account) → StandsFor tables.old l → device_of_id l.latest head.now.destination ≡ Some c
        → Takes result (IsAnswered l (response_in head.now rcode Read (Some value))) tables.old tables.new (replied_to c (l.outstanding c) head.now.source Read l) (IsRefusedFor l (Replies (response_in head.now rcode Read (Some value)))) }
{
    let asked = tables.outstanding(c);
    if !is_read_of(asked, head.source) {
        return Err(Refused::Orphan(head.destination));
    }
    let answer = Answer {
        requester: head.destination,
        asked,
        rcode,
        shown: Some(value),
        due: tables.word_in(tables.register_asked(asked)),
    };
    tables.end(c);
    Ok(answer)
}

/// A read response.
pub fn take_read_reply(
    tables: &mut Tables,
    head: &Head,
    rcode: u8,
    value: u32,
) -> Result<Option<Answer>, Refused>
    requires stands { Stands tables.old }
    ensures { (l : Account) → StandsFor tables.old l
        → Takes result (ShowsAnswer l (labelled head.now (Replies (response_in head.now rcode Read (Some value))))) tables.old tables.new (after_reply head.now Read l) (IsRefusedFor l (labelled head.now (Replies (response_in head.now rcode Read (Some value))))) }
{
    if !Label::Procedure.marks(head.tl) {
        return Ok(None);
    }
    let device = match tables.device(head.destination) {
        Some(device) => device,
        None => return Err(Refused::NoNode(head.destination)),
    };
    let answer = end_read(tables, device, head, rcode, value)?;
    Ok(Some(answer))
}

// It is a request to read a quadlet of this node.
fn is_read_of(asked: Asked, source: u16) -> bool
    ensures { result ≡ is_read_of asked source }
{
    match asked {
        Asked::Read { target, .. } => target == source,
        _ => false,
    }
}
