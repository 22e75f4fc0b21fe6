//! The entry that some bytes begin with, if it is whole and right at the first look.

ghost use Rattle.std.specs.Prelude.{◌≡◌, ◌≤◌, length, slice_index, IfSome, Ok, Some};
ghost use Rattle.fw_log.specs.Stands.{position};
ghost use Rattle.fw_log_entry.specs.Log.{head_size};
ghost use Rattle.fw_log.specs.Reader.{Finds};
ghost use Rattle.fw_log.specs.Passing.{BodyFirst, HeadFirst, IsPlainEpoch, AnnotationFirst, PassesFirst};

use crate::first::Found;
use crate::log_position::{EPOCH_AT, LogPosition, cycle_of, rest, skip, version_at};
use crate::plain::{PlainBody, annotation_of, is_annotation_body, is_plain_body, plain_body};
use crate::read_head::whole_end;
use crate::right_body::RightBody;
use crate::{Entry, Timed, Version};
use fw_async::{is_plain_packet, whole_packet};
use fw_log_entry::codes::kind;
use fw_words::{Data, quadlet_at};

/// An entry that is passed over: where it ends, its cycle, the version of the log, and the epoch of the latest bus reset up to and
/// including it.
#[derive(Drop)]
pub struct Passed {
    pub end: usize,
    pub cycle: u64,
    pub version: Version,
    pub epoch: u32,
}

// The epoch of a bus reset, which its body begins with, or that of the latest before another entry; none if it is not the one
// in the entry's head.
fn plain_epoch(version: Version, epoch: u32, e: &[u8], body: &[u8]) -> Option<u32>
    requires head { head_size version ≤ length e.now }
    requires body { slice_index e.now 0 ≡ 1 → 4 ≤ length body.now }
    ensures { IfSome result (IsPlainEpoch version epoch e.now body.now) }
{
    if e[0] != kind::RESET {
        return Some(epoch);
    }
    let own = quadlet_at(body, 0).0;
    match version {
        Version::Two if quadlet_at(e, EPOCH_AT).0 != own => None,
        _ => Some(own),
    }
}

/// The head of an entry, all parts of which are right, and the bytes of the body after it.
#[derive(Drop)]
pub struct PlainHead<'a> {
    pub passed: Passed,
    pub kind: u8,
    pub content: Data<'a>,
}

// The head of the entry that the bytes begin with, if the entry is whole and its head right at the first look.
#[inline(always)]
fn plain_head<'a>(stand: LogPosition, bytes: &'a [u8]) -> Option<PlainHead<'a>>
    ensures { IfSome result (HeadFirst (position stand) bytes.now) }
{
    let end = whole_end(stand, bytes)?;
    let whole = &bytes[..end];
    let version = version_at(stand, whole);
    let entry = rest(whole, skip(stand));
    let content = &entry[version.head_size()..];
    let epoch = plain_epoch(version, stand.epoch(), entry, content)?;
    Some(PlainHead {
        passed: Passed {
            end,
            cycle: cycle_of(version, entry),
            version,
            epoch,
        },
        kind: entry[0],
        content: Data::new(content),
    })
}

/// The packet that the bytes begin with, if it is whole and right at the first look, as nearly all are.
#[inline(always)]
pub(crate) fn plain_found<'a>(stand: LogPosition, bytes: &'a [u8]) -> Option<Found<'a>>
    ensures { IfSome result (λ found. Finds (position stand) bytes.now (Ok (Some found))) }
{
    let PlainHead {
        passed,
        kind,
        content,
    } = plain_head(stand, bytes)?;
    if kind != kind::ASYNC {
        return None;
    }
    let packet = content.as_slice();
    if !is_plain_packet(packet) {
        return None;
    }
    let entry = Timed {
        cycle: passed.cycle,
        what: Entry::Async(whole_packet(packet)),
    };
    Some(Found {
        end: passed.end,
        version: passed.version,
        body: content,
        entry,
    })
}

/// The event, the outcome or the register that was shown that the bytes begin with, if it is whole and right at the first look, as nearly
/// all are.
#[inline(always)]
pub(crate) fn annotation_found<'a>(stand: LogPosition, bytes: &'a [u8]) -> Option<Found<'a>>
    ensures { IfSome result (λ found. Finds (position stand) bytes.now (Ok (Some found))) }
{
    let PlainHead {
        passed,
        kind,
        content,
    } = plain_head(stand, bytes)?;
    let what = annotation_of(kind, content.as_slice())?;
    let entry = Timed {
        cycle: passed.cycle,
        what,
    };
    Some(Found {
        end: passed.end,
        version: passed.version,
        body: content,
        entry,
    })
}

/// An entry that is given as its body.
#[derive(Drop)]
pub struct PlainEntry<'a> {
    pub passed: Passed,
    pub body: PlainBody<'a>,
}

/// The body of the entry that the bytes begin with, if that is a packet's or a bus reset's, whole and right at the first look.
#[inline(always)]
pub(crate) fn plain_bodied<'a>(
    stand: LogPosition,
    bytes: &'a [u8],
    latest: &mut RightBody,
) -> Option<PlainEntry<'a>>
    ensures { IfSome result (BodyFirst (position stand) bytes.now) }
{
    let head = plain_head(stand, bytes)?;
    let body = plain_body(head.kind, head.content.as_slice(), latest)?;
    Some(PlainEntry {
        passed: head.passed,
        body,
    })
}

/// The head of the entry that the bytes begin with, if it is an event, an outcome or a register that was shown, of this kind, whole and
/// right at the first look.
pub(crate) fn plain_annotation<'a>(
    stand: LogPosition,
    bytes: &'a [u8],
    kind: u8,
) -> Option<PlainHead<'a>>
    ensures { IfSome result (AnnotationFirst (position stand) bytes.now kind) }
{
    let head = plain_head(stand, bytes)?;
    if head.kind != kind || !is_annotation_body(head.kind, head.content.as_slice()) {
        return None;
    }
    Some(head)
}

/// The entry that the bytes begin with, if it is whole and right at the first look, and may be passed over.
pub(crate) fn plain_entry(
    stand: LogPosition,
    bytes: &[u8],
    latest: &mut RightBody,
) -> Option<Passed>
    ensures { IfSome result (PassesFirst (position stand) bytes.now) }
{
    let head = plain_head(stand, bytes)?;
    if !is_plain_body(head.kind, head.content.as_slice(), latest) {
        return None;
    }
    Some(head.passed)
}
