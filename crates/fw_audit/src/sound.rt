//! Packets that are taken from their bytes, and only if they have no fault.

ghost use Rattle.std.specs.Prelude.{◌≡◌, ◌<◌, ◌==◌, ◌&&◌, ℕ, Some, None, Ok, IfSome, IfNone, IsTrue, IsFalse, if◌then◌else◌};
ghost use Rattle.std.specs.Int.{to_be_bytes, w32};
ghost use Rattle.std.specs.Option.{option_map};
ghost use Rattle.fw_async.specs.Reader.{IsPacket, Spells};
ghost use Rattle.fw_async.specs.declared.packet.Packet.{Packet as AsyncPacket};
ghost use Rattle.fw_async.specs.declared.packet.Packet.TheVariants.{Lock, LockReply, ReadQuadlet, ReadQuadletReply};
ghost use Rattle.fw_words.specs.Swaps.{swap_bytes};
ghost use Rattle.fw_words.specs.declared.swap.TheConstants.{COMPARE_SWAP};
ghost use Rattle.fw_log_entry.specs.declared.entry.Entry.TheVariants.{Async};
ghost use Rattle.fw_model_account.specs.Account.{Account};
ghost use Rattle.fw_ledger.specs.Refused.{GoesOn};
ghost use Rattle.fw_account_tables.specs.Stands.{Stands, StandsFor};
ghost use Rattle.fw_account_tables.specs.Swaps.{IsThere, register_named};
ghost use Rattle.fw_ledger.specs.Swapped.{account_swapped};
ghost use Rattle.fw_model_audit.specs.Judged.{judged_at, watched_offset};
ghost use Rattle.fw_audit.specs.Found.{Judges};

use crate::watch::watched_offset;
use fw_account_tables::{Asked, Register};
use fw_async::Head;
use fw_async_glance::{Glance, glance_at};
use fw_ledger::{Answer, Ledger};
use fw_terms::Label;
use fw_words::Swap;

// The ledger takes the request to read a quadlet, if it is one of a procedure and has no fault.
#[inline(always)]
fn take_read(ledger: &mut Ledger, head: &Head, offset: u64) -> bool
    ensures taken { IsTrue result → (l : Account) → StandsFor ledger.old l → Judges ledger.new l (Async (ReadQuadlet head.now offset)) (Ok None) }
    ensures kept { IsFalse result → ledger.new ≡ ledger.old }
{
    if !ledger.tables().started || !Label::Procedure.marks(head.tl) {
        return false;
    }
    let asked = Asked::Read {
        target: head.destination,
        address: offset,
    };
    match ledger.take_request(head.source, head.destination, offset, asked) {
        Ok(()) => true,
        Err(_) => false,
    }
}

// The same of the request of a quadlet compare_swap.
#[inline(always)]
fn take_swap(ledger: &mut Ledger, head: &Head, offset: u64, swap: Swap) -> bool
    ensures taken { IsTrue result → (l : Account) → StandsFor ledger.old l → Judges ledger.new l (Async (Lock head.now offset COMPARE_SWAP (swap_bytes swap))) (Ok None) }
    ensures kept { IsFalse result → ledger.new ≡ ledger.old }
{
    if !ledger.tables().started || !Label::Procedure.marks(head.tl) {
        return false;
    }
    let asked = Asked::Swap {
        target: head.destination,
        address: offset,
        swap,
    };
    match ledger.take_request(head.source, head.destination, offset, asked) {
        Ok(()) => true,
        Err(_) => false,
    }
}

// A quadlet that is read at an address is the word that is due there, if the address is watched.
fn reads_due(address: u64, due: Option<u32>, value: u32) -> bool
    ensures { IsTrue result → (id : ℕ) → judged_at id value (watched_offset address) due ≡ None }
{
    match due {
        Some(due) => due == value,
        None => watched_offset(address).is_none(),
    }
}

// The ledger takes the response to a quadlet read, if it is one of a procedure and shows the word that is due.
#[inline(always)]
fn take_read_reply(ledger: &mut Ledger, head: &Head, rcode: u8, value: u32) -> Option<Answer>
    ensures taken { (l : Account) → StandsFor ledger.old l → IfSome result (λ a. Judges ledger.new l (Async (ReadQuadletReply head.now rcode value)) (Ok (Some a))) }
    ensures kept { IfNone result (ledger.new ≡ ledger.old) }
{
    if !Label::Procedure.marks(head.tl) {
        return None;
    }
    let tables = ledger.tables();
    let Some(device) = tables.device(head.destination) else {
        return None;
    };
    let Asked::Read { target, address } = tables.outstanding(device) else {
        return None;
    };
    let due = tables.word_in(tables.register_at(target, address));
    if target != head.source || !reads_due(address, due, value) {
        return None;
    }
    ledger.end(device);
    Some(Answer {
        requester: head.destination,
        asked: Asked::Read { target, address },
        rcode,
        shown: Some(value),
        due,
    })
}

// The swap that a complete response makes which shows this as the old value.
fn swap_made(swap: Swap, rcode: u8, value: u32) -> Option<Swap>
    ensures { result ≡ (if (rcode == 0) && (value == swap.argument) then Some swap else None) }
{
    if rcode == 0 && value == swap.argument {
        Some(swap)
    } else {
        None
    }
}

// The controller of this device swaps a register, if it is one of the account. It does not if that is no move.
fn swap_at(ledger: &mut Ledger, device: u8, register: Option<Register>, swap: Swap) -> bool
    requires stands { Stands ledger.old }
    requires device { device < 63 }
    requires there { IfSome register (λ r. IsThere r ledger.old) }
    ensures made { IsTrue result → (l : Account) → StandsFor ledger.old l → GoesOn ledger.new (account_swapped device (option_map register_named register) (Some swap) l) }
    ensures kept { IsFalse result → ledger.new ≡ ledger.old }
{
    match register {
        Some(register) => ledger.swap(device, register, swap),
        None => true,
    }
}

// The controller of this device makes a swap, if it makes one.
fn make_swap(
    ledger: &mut Ledger,
    device: u8,
    register: Option<Register>,
    done: Option<Swap>,
) -> bool
    requires stands { Stands ledger.old }
    requires device { device < 63 }
    requires there { IfSome register (λ r. IsThere r ledger.old) }
    ensures made { IsTrue result → (l : Account) → StandsFor ledger.old l → GoesOn ledger.new (account_swapped device (option_map register_named register) done l) }
    ensures kept { IsFalse result → ledger.new ≡ ledger.old }
{
    match done {
        Some(swap) => swap_at(ledger, device, register, swap),
        None => true,
    }
}

// The ledger takes the response to a quadlet compare_swap, if it is one of a procedure, shows the word that is due, and makes no swap
// that is no move.
#[inline(always)]
fn take_swap_reply(ledger: &mut Ledger, head: &Head, rcode: u8, old: u32) -> Option<Answer>
    ensures taken { (l : Account) → StandsFor ledger.old l → IfSome result (λ a. Judges ledger.new l (Async (LockReply head.now rcode COMPARE_SWAP (to_be_bytes w32 old))) (Ok (Some a))) }
    ensures kept { IfNone result (ledger.new ≡ ledger.old) }
{
    if !Label::Procedure.marks(head.tl) {
        return None;
    }
    let tables = ledger.tables();
    let Some(device) = tables.device(head.destination) else {
        return None;
    };
    let Asked::Swap {
        target,
        address,
        swap,
    } = tables.outstanding(device)
    else {
        return None;
    };
    let register = tables.register_at(target, address);
    let due = tables.word_in(register);
    if target != head.source || !reads_due(address, due, old) {
        return None;
    }
    if !make_swap(ledger, device, register, swap_made(swap, rcode, old)) {
        return None;
    }
    ledger.end(device);
    Some(Answer {
        requester: head.destination,
        asked: Asked::Swap {
            target,
            address,
            swap,
        },
        rcode,
        shown: Some(old),
        due,
    })
}

/// A ledger takes the packet that these bytes are, as `take_entry` takes its entry, if a short look finds that it has no fault, as
/// of nearly all. If it is not taken the ledger is unchanged, and `take_entry` says what the packet is. No memory is taken.
#[inline(always)]
pub fn take_packet(ledger: &mut Ledger, bytes: &[u8]) -> Option<Option<Answer>>
    requires packet { IsPacket bytes.now }
    ensures taken { (l : Account) (p : AsyncPacket) → StandsFor ledger.old l → Spells p bytes.now → IfSome result (λ a. Judges ledger.new l (Async p) (Ok a)) }
    ensures kept { IfNone result (ledger.new ≡ ledger.old) }
{
    match glance_at(bytes) {
        Glance::Read { head, offset } => {
            if !take_read(ledger, &head, offset) {
                return None;
            }
            Some(None)
        }
        Glance::Swap { head, offset, swap } => {
            if !take_swap(ledger, &head, offset, swap) {
                return None;
            }
            Some(None)
        }
        Glance::ReadReply { head, rcode, value } => {
            Some(Some(take_read_reply(ledger, &head, rcode, value)?))
        }
        Glance::SwapReply { head, rcode, old } => {
            Some(Some(take_swap_reply(ledger, &head, rcode, old)?))
        }
        // An account looks at no cycle start.
        Glance::CycleStart { .. } => Some(None),
        _ => None,
    }
}
