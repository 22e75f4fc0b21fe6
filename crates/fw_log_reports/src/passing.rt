//! Entries that no audit looks at, taken without a value made of them.

ghost use Rattle.std.specs.Prelude.{◌≡◌, IsTrue};
ghost use Rattle.fw_log_entry.specs.declared.entry.Entry.{Entry};
ghost use Rattle.fw_log.specs.Passing.{HasBody};
ghost use Rattle.fw_audit.specs.Found.{IsPassedOver};
ghost use Rattle.fw_audit.specs.Unjudged.{is_unjudged};

use fw_audit::{has_other_label, is_unjudged_packet};
use fw_log::PlainBody;
use fw_log_entry::codes::kind;

/// Whether it is worth while to look at the body of the entry that comes next: that of a packet, as most are, or of a bus reset.
#[inline(always)]
pub(crate) fn may_pass(kind: Option<u8>) -> bool {
    matches!(kind, Some(kind::ASYNC | kind::ISO | kind::RESET))
}

/// Whether an entry that has this body changes no account and has no fault over any.
#[inline(always)]
pub(crate) fn is_passed_body(body: &PlainBody) -> bool
    requires { (e : Entry) × HasBody body.now e }
    ensures { IsTrue result → (e : Entry) → HasBody body.now e → IsPassedOver e }
{
    match body {
        PlainBody::Packet(bytes) => has_other_label(bytes.as_slice()),
        PlainBody::Iso(_) => true,
        PlainBody::Reset(_) => false,
    }
}

/// Whether an entry that has this body is a lock that no audit judges.
#[inline(always)]
pub(crate) fn is_unjudged_body(body: &PlainBody) -> bool
    requires { (e : Entry) × HasBody body.now e }
    ensures { (e : Entry) → HasBody body.now e → result ≡ is_unjudged e }
{
    match body {
        PlainBody::Packet(bytes) => is_unjudged_packet(bytes.as_slice()),
        PlainBody::Iso(_) => false,
        PlainBody::Reset(_) => false,
    }
}
