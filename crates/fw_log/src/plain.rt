//! Bodies that are right at the first look, as nearly all are: no fault of them is looked for.
//!
//! Of other bodies nothing is said here, and the readers of their kinds judge them: those that are wrong, and rare forms, as
//! blocks with padding, reads of blocks, and locks but compare_swap of a quadlet.

ghost use Rattle.std.specs.Prelude.{ℕ, ◌≡◌, ◌*◌, IsTrue, IfSome, length, true};
ghost use Rattle.fw_log.specs.Reading.{is_kind, is_length};
ghost use Rattle.fw_log.specs.Bodies.{IsBody};
ghost use Rattle.fw_log.specs.Passing.{IsPlain, IsPlainBody, IsAnnotation, IsAnnotationBody};

use crate::Entry;
use crate::read_body::{event_of, outcome_of, shown_of};
use crate::right_body::RightBody;
use fw_async::is_plain_packet;
use fw_cip::read_iso;
use fw_log_entry::codes::kind;
use fw_words::Data;

/// The body of an entry that is given without a value made of it.
#[derive(Drop)]
pub enum PlainBody<'a> {
    /// The bytes of an asynchronous packet.
    Packet(Data<'a>),
    /// The bytes of an isochronous packet.
    Iso(Data<'a>),
    /// The bytes of a bus reset.
    Reset(Data<'a>),
}

/// The body of a packet or a bus reset, if it is right at the first look, or as that of the latest bus reset.
#[inline(always)]
pub(crate) fn plain_body<'a>(
    kind: u8,
    bytes: &'a [u8],
    latest: &mut RightBody,
) -> Option<PlainBody<'a>>
    requires kind { is_kind kind 0 ≡ true }
    requires size { (n : ℕ) × (length bytes.now ≡ 4 * n) × (is_length kind n ≡ true) }
    ensures { IfSome result (IsPlainBody kind bytes.now) }
{
    match kind {
        kind::RESET => {
            if !latest.is_right(bytes) {
                return None;
            }
            Some(PlainBody::Reset(Data::new(bytes)))
        }
        kind::ASYNC => {
            if !is_plain_packet(bytes) {
                return None;
            }
            Some(PlainBody::Packet(Data::new(bytes)))
        }
        kind::ISO => match read_iso(bytes) {
            Ok(_) => Some(PlainBody::Iso(Data::new(bytes))),
            Err(_) => None,
        },
        _ => None,
    }
}

/// The event, the outcome or the register that was shown whose body these bytes are, if the body is right at the first look.
#[inline(always)]
pub(crate) fn annotation_of<'a>(kind: u8, body: &[u8]) -> Option<Entry<'a>>
    requires kind { is_kind kind 0 ≡ true }
    requires size { (n : ℕ) × (length body.now ≡ 4 * n) × (is_length kind n ≡ true) }
    ensures { IfSome result (λ e. IsBody kind body.now e × IsAnnotation e) }
{
    match kind {
        kind::EVENT => {
            let event = event_of(body)?;
            Some(Entry::Event(event))
        }
        kind::OUTCOME => {
            let outcome = outcome_of(body)?;
            Some(Entry::Outcome(outcome))
        }
        kind::SHOWN => {
            let shown = shown_of(body)?;
            Some(Entry::Shown(shown))
        }
        _ => None,
    }
}

/// Whether the body is that of an event, an outcome or a register that was shown, right at the first look.
pub(crate) fn is_annotation_body(kind: u8, body: &[u8]) -> bool
    requires kind { is_kind kind 0 ≡ true }
    requires size { (n : ℕ) × (length body.now ≡ 4 * n) × (is_length kind n ≡ true) }
    ensures { IsTrue result → IsAnnotationBody kind body.now }
{
    match kind {
        kind::EVENT => event_of(body).is_some(),
        kind::OUTCOME => outcome_of(body).is_some(),
        kind::SHOWN => shown_of(body).is_some(),
        _ => false,
    }
}

/// Whether the body is that of an entry of its kind, right at the first look, which is no isochronous packet and not the end.
pub(crate) fn is_plain_body(kind: u8, body: &[u8], latest: &mut RightBody) -> bool
    requires kind { is_kind kind 0 ≡ true }
    requires size { (n : ℕ) × (length body.now ≡ 4 * n) × (is_length kind n ≡ true) }
    ensures { IsTrue result → IsPlain kind body.now }
{
    match kind {
        kind::RESET => latest.is_right(body),
        kind::ASYNC => is_plain_packet(body),
        _ => is_annotation_body(kind, body),
    }
}
