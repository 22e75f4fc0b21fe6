//! What a log is refused with by an audit, as text.

ghost use Rattle.std.specs.Prelude.{◌≡◌, ◌+◌, ◌≤◌, ◌++◌, length};
ghost use Rattle.arrayvec.specs.ArrayVec.{array_vec_len};
ghost use Rattle.fw_log_text.specs.Line.{quadlet_text};
ghost use Rattle.fw_log_reports.specs.Unsounds.{fault_of, values_of, unsound_text};

use crate::Unsound;
use arrayvec::ArrayVec;
use fw_audit::{AuditFault, unjudged_text};
use fw_log_text::quadlet_word;
use itoa::Buffer;

/// Room for any such text, in bytes: the longest has 120, that of an entry of twenty digits with two values and as many locks.
pub const UNSOUND_ROOM: usize = 120;

/// Such a text.
type UnsoundText = ArrayVec<u8, UNSOUND_ROOM>;

// Appends a text.
fn put(text: &mut UnsoundText, more: &[u8])
    requires { array_vec_len text.old + length more.now ≤ 120 }
    ensures bytes { text.new.items ≡ text.old.items ++ more.now }
    ensures len { array_vec_len text.new ≡ array_vec_len text.old + length more.now }
{
    let _ = text.try_extend_from_slice(more);
}

// Appends a value of a fault.
fn put_value(text: &mut UnsoundText, value: u32)
    requires { array_vec_len text.old + 9 ≤ 120 }
    ensures bytes { text.new.items ≡ text.old.items ++ quadlet_text value }
    ensures len { array_vec_len text.new ≡ array_vec_len text.old + 9 }
{
    put(text, &quadlet_word(value));
}

// Appends two values.
fn put_values(text: &mut UnsoundText, first: u32, second: u32)
    requires { array_vec_len text.old + 18 ≤ 120 }
    ensures bytes { text.new.items ≡ text.old.items ++ (quadlet_text first ++ quadlet_text second) }
    ensures len { array_vec_len text.new ≡ array_vec_len text.old + 18 }
{
    put_value(text, first);
    put_value(text, second);
}

// The name of a fault.
fn fault_name(fault: AuditFault) -> &'static [u8]
    ensures name { result.now ≡ fault_of fault }
    ensures short { length result.now ≤ 12 }
{
    match fault {
        AuditFault::NoNode(_) => b": NoNode",
        AuditFault::Overlap(_) => b": Overlap",
        AuditFault::Orphan(_) => b": Orphan",
        AuditFault::NotAllowed(_, _) => b": NotAllowed",
        AuditFault::WrongWord(_, _) => b": WrongWord",
        AuditFault::NoMove(_, _) => b": NoMove",
        AuditFault::NoEvent(_) => b": NoEvent",
    }
}

// Appends the values of a fault.
fn put_fault(text: &mut UnsoundText, fault: AuditFault)
    requires { array_vec_len text.old + 18 ≤ 120 }
    ensures bytes { text.new.items ≡ text.old.items ++ values_of fault }
    ensures len { array_vec_len text.new ≤ array_vec_len text.old + 18 }
{
    match fault {
        AuditFault::NoNode(id) => put_value(text, u32::from(id)),
        AuditFault::Overlap(id) => put_value(text, u32::from(id)),
        AuditFault::Orphan(id) => put_value(text, u32::from(id)),
        AuditFault::NotAllowed(id, offset) => {
            put_values(text, u32::from(id), u32::from(offset));
        }
        AuditFault::WrongWord(found, expected) => put_values(text, found, expected),
        AuditFault::NoMove(old, new) => put_values(text, old, new),
        AuditFault::NoEvent(code) => put_value(text, u32::from(code)),
    }
}

/// The entry, its fault with its values as eight hexadecimal digits each, and how many locks up to it no audit judges, if any.
pub fn unsound_text(unsound: &Unsound) -> ArrayVec<u8, UNSOUND_ROOM>
    ensures bytes { result.items ≡ unsound_text unsound.now }
    ensures few { length result.items ≤ 120 }
{
    let mut text = UnsoundText::new();
    put(&mut text, b"entry ");
    put(&mut text, Buffer::new().format(unsound.entry).as_bytes());
    put(&mut text, fault_name(unsound.fault));
    put_fault(&mut text, unsound.fault);
    put(&mut text, unjudged_text(unsound.unjudged).as_slice());
    text
}
