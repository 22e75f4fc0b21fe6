//! Entries that an audit need not take.

ghost use Rattle.std.specs.Prelude.{◌≡◌, ◌++◌, ◌∷◌, [], List, None, IsTrue, IsFalse};
ghost use Rattle.fw_async.specs.Reader.{IsPacket, Spells};
ghost use Rattle.fw_async.specs.declared.packet.Packet.{Packet as AsyncPacket};
ghost use Rattle.fw_log_entry.specs.declared.entry.Entry.{Entry as LogEntry};
ghost use Rattle.fw_log_entry.specs.declared.entry.Entry.TheVariants.{Async};
ghost use Rattle.fw_model_audit.specs.Looked.{Other, looked, looked_packet};
ghost use Rattle.fw_audit.specs.declared.audit.Audit.{Audit};
ghost use Rattle.fw_audit.specs.Found.{Found, IsPassedOver, IsReset};

use fw_async::Packet;
use fw_log_entry::Entry;
use fw_terms::Label;
use fw_words::quadlet_at;

/// Whether the packet is none that an account looks at: by its kind alone, or since its label is not that of procedures. An
/// audit looks at each other one.
pub fn is_passed_packet(p: &Packet) -> bool
    ensures passed { IsTrue result → IsPassedOver (Async p.now) }
    ensures others { IsFalse result → looked_packet p.now ≡ Other → ⊥ }
{
    match p {
        Packet::ReadQuadlet { head, .. } => !Label::Procedure.marks(head.tl),
        Packet::ReadQuadletReply { head, .. } => !Label::Procedure.marks(head.tl),
        Packet::Lock { head, .. } => !Label::Procedure.marks(head.tl),
        Packet::LockReply { head, .. } => !Label::Procedure.marks(head.tl),
        _ => true,
    }
}

/// Whether the label of the packet that these bytes are is not that of procedures: an account looks at no such packet.
#[inline(always)]
pub fn has_other_label(bytes: &[u8]) -> bool
    requires { IsPacket bytes.now }
    ensures { IsTrue result → (p : AsyncPacket) → Spells p bytes.now → IsPassedOver (Async p) }
{
    !Label::Procedure.marks(quadlet_at(bytes, 0).field(16, 21) as u8)
}

/// Whether an entry changes no account and has no fault over any, by its kind alone: isochronous packets, outcomes, the end, and
/// packets that are none of a procedure's requests and responses for quadlet reads and locks. So an audit finds the same
/// without it. Each other entry is a reset, or one that an audit looks at.
pub fn is_passed_over(e: &Entry) -> bool
    ensures passed { IsTrue result → IsPassedOver e.now }
    ensures others { IsFalse result → looked e.now ≡ Other → IsReset e.now }
    ensures same { IsTrue result → (entries : List LogEntry) (a : Audit) → Found entries a None → Found (entries ++ e.now ∷ []) a None }
{
    match e {
        Entry::Iso(_) => true,
        Entry::Async(p) => is_passed_packet(p),
        Entry::Outcome(_) => true,
        Entry::End => true,
        _ => false,
    }
}
