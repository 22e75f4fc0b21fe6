//! Entries.

ghost use Rattle.fw_log_entry.specs.Log.{Fits};
ghost use Rattle.fw_model_account.specs.Account.{Account};
ghost use Rattle.fw_model_account.specs.Fold.{after_event, next_account};
ghost use Rattle.fw_model_account.specs.Packets.{after_packet};
ghost use Rattle.fw_model_audit.specs.Looked.{Happens, looked, looked_packet};
ghost use Rattle.fw_account_tables.specs.Stands.{Stands, StandsFor, Follows};
ghost use Rattle.fw_ledger.specs.Refused.{Takes, IsRefusedFor, ShowsAnswer};

use crate::answer::Answer;
use crate::event::{take_death, take_second, take_withholding};
use crate::packet::{take_lock, take_read, take_read_reply};
use crate::refused::Refused;
use crate::reset::take_reset;
use crate::swap::take_lock_reply;
use fw_account_tables::Tables;
use fw_async::Packet;
use fw_log_entry::codes::event::{DIED, SECOND_OVER, WITHHELD};
use fw_log_entry::{Entry, EventEntry};

// An event happens, unless there can be none.
fn happen(tables: &mut Tables, e: &EventEntry) -> bool
    requires stands { Stands tables.old }
    ensures { (l : Account) → StandsFor tables.old l → Follows result tables.old tables.new (after_event e.now l) }
{
    if e.code == SECOND_OVER {
        return take_second(tables);
    }
    if e.code == WITHHELD {
        return take_withholding(tables);
    }
    if e.code == DIED {
        take_death(tables, e.device);
    }
    true
}

// An event.
fn take_event(tables: &mut Tables, e: &EventEntry) -> Result<Option<Answer>, Refused>
    requires stands { Stands tables.old }
    ensures { (l : Account) → StandsFor tables.old l → Takes result (ShowsAnswer l (Happens e.now)) tables.old tables.new (after_event e.now l) (IsRefusedFor l (Happens e.now)) }
{
    if !happen(tables, e) {
        return Err(Refused::NoEvent(e.code));
    }
    Ok(None)
}

// A packet.
fn take_packet(tables: &mut Tables, p: &Packet) -> Result<Option<Answer>, Refused>
    requires stands { Stands tables.old }
    ensures { (l : Account) → StandsFor tables.old l → Takes result (ShowsAnswer l (looked_packet p.now)) tables.old tables.new (after_packet p.now l) (IsRefusedFor l (looked_packet p.now)) }
{
    match p {
        Packet::ReadQuadlet { head, offset } => take_read(tables, head, *offset),
        Packet::Lock {
            head,
            offset,
            function,
            bytes,
        } => take_lock(tables, head, *offset, *function, bytes.as_slice()),
        Packet::ReadQuadletReply { head, rcode, value } => {
            take_read_reply(tables, head, *rcode, *value)
        },
        Packet::LockReply {
            head,
            rcode,
            function,
            bytes,
        } => take_lock_reply(tables, head, *rcode, *function, bytes.as_slice()),
        _ => Ok(None),
    }
}

/// An entry. It is refused if the account has no next one. A response that ends a request is answered.
pub fn take_entry(tables: &mut Tables, e: &Entry) -> Result<Option<Answer>, Refused>
    requires stands { Stands tables.old }
    requires fits { Fits e.now }
    ensures { (l : Account) → StandsFor tables.old l → Takes result (ShowsAnswer l (looked e.now)) tables.old tables.new (next_account l e.now) (IsRefusedFor l (looked e.now)) }
{
    match e {
        Entry::Reset(r) => {
            take_reset(tables, r.get());
            Ok(None)
        },
        Entry::Async(p) => take_packet(tables, p),
        Entry::Event(e) => take_event(tables, e),
        _ => Ok(None),
    }
}
