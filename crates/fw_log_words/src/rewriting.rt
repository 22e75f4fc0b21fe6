//! `convert`: a log that is written again in a version, as its entries end.

ghost use Rattle.std.specs.Prelude.{◌≡◌, ◌≤◌, ◌<◌, ◌+◌, ◌/◌, ◌^◌, ◌++◌, ℕ, [], List, length, take, None, IfNone, IfOk, IfSome, OnOk};
ghost use Rattle.fw_log_entry.specs.Log.{Fits, body, epoch_after, latest_epoch, entry_bytes, entry_head};
ghost use Rattle.fw_log_entry.specs.declared.entry.Entry.{Entry};
ghost use Rattle.fw_log_entry.specs.declared.entry.Timed.{Timed as TimedEntry};
ghost use Rattle.fw_log.specs.History.{HasRead};
ghost use Rattle.fw_log.specs.Passing.{CountsUp, HasBody};
ghost use Rattle.fw_log.specs.Reader.{total};
ghost use Rattle.fw_log_loop.specs.Endings.{ReadsLog};
ghost use Rattle.fw_log_loop.specs.Readings.{Passes};
ghost use Rattle.fw_log_reports.specs.Texts.{nothing};
ghost use Rattle.fw_log_words.specs.Texts.{log_form};
ghost use Rattle.fw_log_reports.specs.Silences.{never_refused};

use crate::LogRefusal;
use crate::entry_room::EntryRoom;
use fw_log::{LogReader, PlainBody, ReadBuffers, Timed, Version, write_header};
use fw_log_entry::codes::kind;
use fw_log_entry::{epoch_after, head_of, long_head, short_head};
use fw_log_loop::{Closing, LogEnding, Reading, Stop, read_log};
use fw_outside::{Failed, Flush, Sink, Source};
use fw_words::quadlet_at;
use std::alloc::{AllocError, Global};
use std::marker::Model;

// Whether an entry of this kind is an annotation.
fn is_annotation(kind: u8) -> bool {
    kind == kind::EVENT || kind == kind::OUTCOME || kind == kind::SHOWN
}

// The entries that were gathered, in a version, and the epoch of the latest bus reset up to there.
#[derive(Drop)]
struct Rewriting {
    entries: EntryRoom,
    version: Version,
    epoch: u32,
}

impl Model for Rewriting {
    ghost use Rattle.fw_log_words.specs.Texts.{Rewritten};

    ghost Value = { Rewritten };

    ghost view = { λ r. record { bytes = r.entries; version = r.version; epoch = r.epoch } };
}

impl Rewriting {
    // No entries. An error says that memory ran out.
    fn new(alloc: Global, version: Version) -> Result<Rewriting, AllocError>
        ensures { IfOk result (λ r. r ≡ record { bytes = []; version = version; epoch = 0 }) }
    {
        Ok(Rewriting {
            entries: EntryRoom::new(alloc)?,
            version,
            epoch: 0,
        })
    }

    // Appends an entry, from the bytes of its body. An error says that memory ran out.
    fn put(&mut self, entry: &Timed, bytes: &[u8]) -> Result<(), AllocError>
        requires fits { Fits entry.now.what }
        requires body { bytes.now ≡ body entry.now.what }
        ensures version { self.new.version ≡ self.old.version }
        ensures bytes { OnOk result (self.new.bytes ≡ self.old.bytes ++ entry_bytes self.old.version (epoch_after self.old.epoch entry.now.what) entry.now) }
        ensures epoch { OnOk result (self.new.epoch ≡ epoch_after self.old.epoch entry.now.what) }
    {
        self.epoch = epoch_after(self.epoch, &entry.what);
        let head = head_of(self.version, self.epoch, entry);
        self.entries.put([], head.as_slice())?;
        self.entries.put([], bytes)
    }

    // Appends an entry of this kind and cycle, whose body these bytes are, in the epoch of the latest bus reset.
    #[inline(always)]
    fn copy(&mut self, kind: u8, cycle: u64, bytes: &[u8]) -> Result<(), AllocError>
        requires { length bytes.now ≤ 2276 }
        ensures version { self.new.version ≡ self.old.version }
        ensures epoch { self.new.epoch ≡ self.old.epoch }
        ensures bytes { OnOk result (self.new.bytes ≡ self.old.bytes ++ (entry_head self.old.version self.old.epoch kind (length bytes.now / 4) cycle ++ bytes.now)) }
    {
        let quadlets = (bytes.len() / 4) as u16;
        match self.version {
            Version::One => self.entries.put(short_head(kind, quadlets, cycle), bytes),
            Version::Two => {
                self.entries
                    .put(long_head(kind, quadlets, self.epoch, cycle), bytes)
            }
        }
    }

    // Appends the entry of this cycle that has this body. An error says that memory ran out.
    #[inline(always)]
    fn put_body(&mut self, cycle: u64, body: &PlainBody) -> Result<(), AllocError>
        requires { (e : Entry) × HasBody body.now e }
        ensures version { self.new.version ≡ self.old.version }
        ensures bytes { (e : Entry) → HasBody body.now e
            → OnOk result (self.new.bytes ≡ self.old.bytes ++ entry_bytes self.old.version (epoch_after self.old.epoch e) (record { cycle = cycle; what = e })) }
        ensures epoch { (e : Entry) → HasBody body.now e → OnOk result (self.new.epoch ≡ epoch_after self.old.epoch e) }
    {
        match body {
            PlainBody::Packet(bytes) => self.copy(kind::ASYNC, cycle, bytes.as_slice()),
            PlainBody::Iso(bytes) => self.copy(kind::ISO, cycle, bytes.as_slice()),
            PlainBody::Reset(bytes) => {
                self.epoch = quadlet_at(bytes.as_slice(), 0).0;
                self.copy(kind::RESET, cycle, bytes.as_slice())
            }
        }
    }

    // Copies the annotation of this kind that ends in a piece, as `Reading::take_raw` says. Not in line: such entries are few beside
    // packets.
    #[inline(never)]
    fn copy_annotation(
        &mut self,
        kind: u8,
        reader: &mut LogReader,
        room: &mut ReadBuffers,
        piece: &[u8],
    ) -> Result<Option<usize>, AllocError>
        requires { total reader.old + length piece.now < 2 ^ 64 }
        ensures version { self.new.version ≡ self.old.version }
        ensures kept { IfOk result (λ used. IfNone used ((reader.new ≡ reader.old) × (self.new ≡ self.old))) }
        ensures fresh { IfOk result (λ used. IfSome used (λ n. reader.new.fault ≡ None)) }
        ensures counts { IfOk result (λ used. IfSome used (CountsUp reader.old piece.now reader.new)) }
        ensures history { (entries : List TimedEntry) → (bytes : List ℕ) → HasRead entries bytes reader.old → self.old.epoch ≡ latest_epoch 0 entries
            → IfOk result (λ used. IfSome used (λ n. Passes (log_form self.old.version).text (λ es. self.new.epoch ≡ latest_epoch 0 es) self.old.bytes self.new.bytes entries (bytes ++ take n piece.now) reader.new)) }
    {
        let Some(annotation) = reader.pass_annotation(kind, piece, room) else {
            return Ok(None);
        };
        self.copy(kind, annotation.cycle, annotation.body.as_slice())?;
        Ok(Some(annotation.used))
    }

    // Copies the entry that ends in a piece, if it is an annotation, as `Reading::take_raw` says.
    #[inline(always)]
    fn copy_other(
        &mut self,
        reader: &mut LogReader,
        room: &mut ReadBuffers,
        piece: &[u8],
    ) -> Result<Option<usize>, AllocError>
        requires { total reader.old + length piece.now < 2 ^ 64 }
        ensures version { self.new.version ≡ self.old.version }
        ensures kept { IfOk result (λ used. IfNone used ((reader.new ≡ reader.old) × (self.new ≡ self.old))) }
        ensures fresh { IfOk result (λ used. IfSome used (λ n. reader.new.fault ≡ None)) }
        ensures counts { IfOk result (λ used. IfSome used (CountsUp reader.old piece.now reader.new)) }
        ensures history { (entries : List TimedEntry) → (bytes : List ℕ) → HasRead entries bytes reader.old → self.old.epoch ≡ latest_epoch 0 entries
            → IfOk result (λ used. IfSome used (λ n. Passes (log_form self.old.version).text (λ es. self.new.epoch ≡ latest_epoch 0 es) self.old.bytes self.new.bytes entries (bytes ++ take n piece.now) reader.new)) }
    {
        let Some(kind) = reader.next_kind(piece) else {
            return Ok(None);
        };
        if !is_annotation(kind) {
            return Ok(None);
        }
        self.copy_annotation(kind, reader, room, piece)
    }
}

impl Reading for Rewriting {
    type Refusal = LogRefusal;

    ghost use Rattle.fw_log_entry.specs.Log.{latest_epoch};
    ghost use Rattle.fw_log_reports.specs.Silences.{none_unrefused};
    ghost use Rattle.fw_log_words.specs.Texts.{log_each};

    ghost form = { λ r. log_form r.version };

    ghost rules = { never_refused nothing };

    ghost took = { λ r entries. r.epoch ≡ latest_epoch 0 entries };

    ghost gathered = { λ r. r.bytes };

    fn open<K: Sink>(&self, sink: &mut K) -> Result<(), Failed> {
        write_header(self.version, sink)
    }

    fn take(&mut self, entry: &Timed, bytes: &[u8]) -> Result<Option<LogRefusal>, AllocError> {
        self.put(entry, bytes)?;
        Ok(None)
    }

    // Between versions only the head of an entry changes: a body of a usual form is copied.
    fn take_raw(
        &mut self,
        reader: &mut LogReader,
        room: &mut ReadBuffers,
        piece: &[u8],
    ) -> Result<Option<usize>, AllocError> {
        let Some(passed) = reader.pass_body(piece, room) else {
            return self.copy_other(reader, room, piece);
        };
        self.put_body(passed.cycle, &passed.body)?;
        Ok(Some(passed.used))
    }

    fn gathered(&self) -> &[u8] {
        self.entries.as_slice()
    }

    fn clear(&mut self) {
        self.entries.clear();
    }

    fn close(&self, alloc: Global) -> Result<Closing<LogRefusal>, AllocError> {
        Ok(Closing::Text(String::new(alloc)))
    }

    ghost each = { λ r. log_each r.version };

    ghost accepted = { λ r entries t. tt };

    ghost unrefused = { λ entries h. none_unrefused nothing entries };
}

/// Reads a log of either version, and writes its entries as a log of this version.
///
/// The header is written once the header of the log that is read was taken whole, and the entries as they end, before more is read.
pub fn convert<S: Source, K: Flush>(
    alloc: Global,
    version: Version,
    source: &mut S,
    sink: &mut K,
) -> LogEnding<LogRefusal>
    ensures { ReadsLog (log_form version) (never_refused nothing) (record { left = S.left; faults = S.faults; old = source.old; new = source.new })
        (record { held = K.held; faults = K.faults; old = sink.old; new = sink.new }) result }
{
    match Rewriting::new(alloc, version) {
        Ok(rewriting) => read_log(alloc, rewriting, source, sink),
        Err(_) => LogEnding::Stopped(Stop::NoMemory),
    }
}
