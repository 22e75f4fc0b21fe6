//! Entries that are judged, and not given as values.

ghost use Rattle.std.specs.Prelude.{ℕ, ◌≡◌, ◌<◌, ◌+◌, ◌^◌, ◌++◌, List, length, slice_get, take, IfSome, IfNone, None, false};
ghost use Rattle.fw_log_entry.specs.declared.entry.Entry.{Entry as AnEntry};
ghost use Rattle.fw_log_entry.specs.declared.entry.Timed.{Timed};
ghost use Rattle.fw_log.specs.Stands.{position};
ghost use Rattle.fw_log.specs.Reader.{total};
ghost use Rattle.fw_log.specs.History.{HasRead};
ghost use Rattle.fw_log.specs.Next.{IsNext};
ghost use Rattle.fw_log.specs.Passing.{CountsUp, HasBody, PassesBody, PassesOn};
ghost use Rattle.fw_log.specs.declared.plain.PlainBody.{PlainBody};

use crate::first::at_hand;
use crate::first_look::{Passed, PlainEntry, plain_bodied, plain_entry};
use crate::log_position::LogPosition;
use crate::plain::PlainBody;
use crate::read::LogReader;
use crate::{ReadBuffers, Version};
use fw_log_entry::codes::kind;
use std::num::NonZero;

/// An entry that was given as its body.
#[derive(Drop)]
pub struct PassedBody<'a> {
    /// How many bytes of the piece were taken.
    pub used: usize,
    /// The cycle of the entry.
    pub cycle: u64,
    /// The body.
    pub body: PlainBody<'a>,
}

/// Where a reader stands after an entry that ends at this place and is not the end.
pub(crate) fn going_on(place: u64, last: u64, version: Version, epoch: u32) -> LogPosition
    requires { 0 < place }
    ensures { position result ≡ record { start = place; last = last; ended = false; version = version; epoch = epoch } }
{
    let Some(past) = NonZero::<u64>::new(place) else {
        unreachable!()
    };
    LogPosition::Entries {
        past,
        last,
        version,
        epoch,
    }
}

impl LogReader {
    /// The first byte of what was kept and the piece: after the header it is the kind of the entry that comes next.
    pub fn next_kind(&self, piece: &[u8]) -> Option<u8>
        ensures { result ≡ slice_get (self.now.taken ++ piece.now) 0 }
    {
        // What is kept is not put before the piece: that would copy an entry which `feed` is to read.
        let taken = self.taken.as_slice();
        let bytes = if taken.is_empty() { piece } else { taken };
        bytes.first().copied()
    }

    /// Takes bytes up to the end of one entry, as `feed` does, and answers how many, if the entry is right at the first look
    /// and is neither an isochronous packet nor the end. It is judged and not given: a report of the streams has no use for it.
    /// If it takes none, `feed` says what comes.
    pub fn take_raw(&mut self, piece: &[u8], room: &mut ReadBuffers) -> Option<usize>
        requires { self.old.fault ≡ None → total self.old + length piece.now < 2 ^ 64 }
        ensures kept { IfNone result (self.new ≡ self.old) }
        ensures fresh { IfSome result (λ n. self.new.fault ≡ None) }
        ensures counts { IfSome result (CountsUp self.old piece.now self.new) }
        ensures history { (entries : List Timed) → (bytes : List ℕ) → HasRead entries bytes self.old
            → IfSome result (λ n. PassesOn entries (bytes ++ take n piece.now) self.new) }
    {
        if self.fault.is_some() || self.next_kind(piece) == Some(kind::ISO) {
            return None;
        }
        let bytes = at_hand(self.stand, self.taken.as_slice(), piece, &mut room.bytes);
        let Passed {
            end,
            cycle,
            version,
            epoch,
        } = plain_entry(self.stand, bytes, &mut room.latest)?;
        let used = end - self.taken.as_slice().len();
        self.stand = going_on(self.stand.start() + end as u64, cycle, version, epoch);
        self.taken.clear();
        Some(used)
    }

    /// The entry that comes next, if it is a packet or a bus reset of a usual form, whole in the piece, or in what was kept and the
    /// piece. It is not taken: `go_past` takes it.
    #[inline(always)]
    pub fn next_body<'a>(
        &self,
        piece: &'a [u8],
        room: &'a mut ReadBuffers,
    ) -> Option<PlainEntry<'a>>
        ensures { IfSome result (IsNext self.now piece.now) }
    {
        if self.fault.is_some() {
            return None;
        }
        let bytes = at_hand(self.stand, self.taken.as_slice(), piece, &mut room.bytes);
        plain_bodied(self.stand, bytes, &mut room.latest)
    }

    /// Takes the bytes of a piece up to the end of the entry that comes next, and answers how many.
    #[inline(always)]
    pub fn go_past(&mut self, piece: &[u8], passed: &Passed) -> usize
        requires room { total self.old + length piece.now < 2 ^ 64 }
        requires next { (b : PlainBody) × IsNext self.old piece.now (record { passed = passed.now; body = b }) }
        ensures fresh { self.new.fault ≡ None }
        ensures counts { CountsUp self.old piece.now self.new result }
        ensures history { (b : PlainBody) → IsNext self.old piece.now (record { passed = passed.now; body = b })
            → (entries : List Timed) → (bytes : List ℕ) → HasRead entries bytes self.old
            → PassesBody entries (bytes ++ take result piece.now) self.new (record { used = result; cycle = passed.now.cycle; body = b }) }
    {
        let used = passed.end - self.taken.as_slice().len();
        let past = self.stand.start() + passed.end as u64;
        self.stand = going_on(past, passed.cycle, passed.version, passed.epoch);
        self.taken.clear();
        used
    }

    /// As `pass`, of packets and bus resets: the body is given, and no entry is made of it.
    #[inline(always)]
    pub fn pass_body<'a>(
        &mut self,
        piece: &'a [u8],
        room: &'a mut ReadBuffers,
    ) -> Option<PassedBody<'a>>
        requires { self.old.fault ≡ None → total self.old + length piece.now < 2 ^ 64 }
        ensures kept { IfNone result (self.new ≡ self.old) }
        ensures fresh { IfSome result (λ p. self.new.fault ≡ None) }
        ensures counts { IfSome result (λ p. CountsUp self.old piece.now self.new p.used) }
        ensures body { IfSome result (λ p. (e : AnEntry) × HasBody p.body e) }
        ensures history { (entries : List Timed) → (bytes : List ℕ) → HasRead entries bytes self.old
            → IfSome result (λ p. PassesBody entries (bytes ++ take p.used piece.now) self.new p) }
    {
        let PlainEntry { passed, body } = self.next_body(piece, room)?;
        let cycle = passed.cycle;
        let used = self.go_past(piece, &passed);
        Some(PassedBody { used, cycle, body })
    }
}
