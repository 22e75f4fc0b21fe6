ghost use Rattle.std.specs.Prelude.{◌≡◌, ◌↔◌, ◌++◌, ◌∷◌, [], List, Option, Some, None, IfOk, IfErr, IsOkAnd, IsTrue, IsFalse};
ghost use Rattle.fw_async.specs.Reader.{IsPacket, Spells};
ghost use Rattle.fw_async.specs.declared.packet.Packet.{Packet as AsyncPacket};
ghost use Rattle.fw_log_entry.specs.declared.entry.Entry.{Entry as LogEntry};
ghost use Rattle.fw_log_entry.specs.declared.entry.Entry.TheVariants.{Async, Reset, Shown};
ghost use Rattle.fw_log_entry.specs.declared.entry.ResetEntry.{ResetEntry as AReset};
ghost use Rattle.fw_log_entry.specs.declared.entry.ShownEntry.{ShownEntry};
ghost use Rattle.fw_log_entry.specs.Log.{Fits, ResetFits};
ghost use Rattle.fw_model_account.specs.Account.{Account};
ghost use Rattle.fw_ledger.specs.Resets.{HasNoNewOutput};
ghost use Rattle.fw_account_tables.specs.Stands.{StandsFor};
ghost use Rattle.fw_model_audit.specs.Looked.{looked};
ghost use Rattle.fw_model_audit.specs.Faults.{IsVerdict};
ghost use Rattle.fw_model_audit.specs.declared.fault.AuditFault.{AuditFault as Fault};
ghost use Rattle.fw_audit.specs.Found.{Found, StandsAfter, Judges};

use crate::answers::judge_answer;
use crate::refusals::fault_of;
use crate::shown::judge_shown;
use crate::sound::take_packet;
use fw_ledger::{Answer, Ledger};
use fw_log_entry::{Entry, NodeRow, Timed};
use fw_model_audit::AuditFault;
use std::alloc::{AllocError, Global};

/// What was found of the entries that were taken so far.
#[derive(Drop)]
pub struct Audit {
    ledger: Ledger,
    fault: Option<AuditFault>,
}

// The ledger takes an entry that is no shown word.
fn take_other(ledger: &mut Ledger, e: &Entry) -> Result<Option<Answer>, AuditFault>
    requires fits { Fits e.now }
    requires other { (s : ShownEntry) → e.now ≡ Shown s → ⊥ }
    ensures { (l : Account) → StandsFor ledger.old l → Judges ledger.new l e.now result }
{
    let answer = match ledger.take_entry(e) {
        Ok(answer) => answer,
        Err(refused) => return Err(fault_of(refused)),
    };
    let fault = match &answer {
        Some(answer) => judge_answer(answer),
        None => None,
    };
    match fault {
        Some(fault) => Err(fault),
        None => Ok(answer),
    }
}

/// A ledger takes an entry, and answers with the response that it is, if it is one of a procedure; or with the first fault that the
/// entry has over the account of the entries before it. After a fault nothing is said of the ledger. No memory is taken.
#[inline(always)]
pub fn take_entry(ledger: &mut Ledger, e: &Entry) -> Result<Option<Answer>, AuditFault>
    requires fits { Fits e.now }
    ensures { (l : Account) → StandsFor ledger.old l → Judges ledger.new l e.now result }
{
    let Entry::Shown(shown) = e else {
        return take_other(ledger, e);
    };
    match judge_shown(ledger, shown) {
        Some(fault) => Err(fault),
        None => Ok(None),
    }
}

// The ledger takes an entry, which has this fault.
fn fault_at(ledger: &mut Ledger, e: &Entry) -> Option<AuditFault>
    requires fits { Fits e.now }
    ensures found { (l : Account) → StandsFor ledger.old l → IsVerdict l (looked e.now) result }
    ensures taken { (l : Account) → StandsFor ledger.old l → result ≡ None → StandsAfter ledger.new l e.now }
{
    take_entry(ledger, e).err()
}

impl Audit {
    /// The audit of no entries. All memory is taken here.
    pub fn new(alloc: Global) -> Result<Audit, AllocError>
        ensures { IfOk result (λ a. (a.fault ≡ None) × Found [] a None) }
    {
        Ok(Audit {
            ledger: Ledger::new(alloc)?,
            fault: None,
        })
    }

    /// Takes the packet that these bytes are if a short look finds that it has no fault, as of nearly all, and answers whether it
    /// did. If it did not the audit is unchanged, and `take` says what the packet is. No memory is taken.
    #[inline(always)]
    pub fn pass_packet(&mut self, bytes: &[u8]) -> bool
        requires packet { IsPacket bytes.now }
        ensures fresh { self.new.fault ≡ self.old.fault }
        ensures found { IsTrue result → (entries : List LogEntry) (p : AsyncPacket) → Spells p bytes.now → Found entries self.old None → Found (entries ++ Async p ∷ []) self.new None }
        ensures kept { IsFalse result → self.new ≡ self.old }
    {
        if self.fault.is_some() {
            return false;
        }
        match take_packet(&mut self.ledger, bytes) {
            Some(_) => true,
            None => false,
        }
    }

    /// Takes the bus reset that has these nodes and this resource manager if no device has more output plugs than before it, and no
    /// entry had a fault, and answers whether it did: a reset has no fault. If it did not the audit is unchanged, and `take` takes the entry. No memory is taken.
    pub fn pass_reset(&mut self, manager: Option<u8>, nodes: &[NodeRow]) -> bool
        requires fits { (r : AReset) × ResetFits r × (r.manager ≡ manager) × (r.nodes ≡ nodes.now) }
        ensures fresh { self.new.fault ≡ self.old.fault }
        ensures found { IsTrue result → (entries : List LogEntry) (r : AReset) → ResetFits r → r.manager ≡ manager → r.nodes ≡ nodes.now → Found entries self.old None
            → Found (entries ++ Reset r ∷ []) self.new None }
        ensures exactly { (l : Account) → StandsFor self.old.ledger l → IsTrue result ↔ ((self.old.fault ≡ None) × HasNoNewOutput l.latest nodes.now) }
        ensures kept { IsFalse result → self.new ≡ self.old }
    {
        if self.fault.is_some() {
            return false;
        }
        self.ledger.take_bus(manager, nodes)
    }

    /// Takes an entry, and answers the first fault that it has, over the account of the entries before: None exactly if it
    /// has none. After a fault it answers that fault at each call. After want of memory, of which it takes none, it is unchanged.
    pub fn take(&mut self, t: &Timed) -> Result<Option<AuditFault>, AllocError>
        requires fits { Fits t.now.what }
        ensures kept { (f : Fault) → self.old.fault ≡ Some f → (result ≡ Ok (Some f)) × (self.new ≡ self.old) }
        ensures first { (l : Account) → self.old.fault ≡ None → StandsFor self.old.ledger l → IsOkAnd result (IsVerdict l (looked t.now.what)) }
        ensures found { (entries : List LogEntry) → self.old.fault ≡ None → Found entries self.old None
            → IsOkAnd result (λ f. (f ≡ self.new.fault) × Found (entries ++ t.now.what ∷ []) self.new f) }
        ensures memory { IfErr result (λ e. self.new ≡ self.old) }
    {
        if self.fault.is_none() {
            self.fault = fault_at(&mut self.ledger, &t.what);
        }
        Ok(self.fault)
    }
}
