//! The last bus reset of a log.

ghost use Rattle.std.specs.Prelude.{◌≡◌, ◌+◌, ◌<◌, ◌^◌, ◌++◌, ◌∷◌, [], List, ℕ, None, IfNone, IfOk, IfSome, OnOk, length, take, true};
ghost use Rattle.fw_log_entry.specs.Log.{Fits, ResetFits, body};
ghost use Rattle.fw_log_entry.specs.declared.entry.Timed.{Timed as TimedEntry};
ghost use Rattle.fw_log.specs.History.{HasRead};
ghost use Rattle.fw_log.specs.Passing.{CountsUp, HasBody};
ghost use Rattle.fw_log.specs.Reader.{total};
ghost use Rattle.fw_log_loop.specs.Readings.{Passes};
ghost use Rattle.fw_log_reports.specs.Texts.{silent_form};
ghost use Rattle.fw_log_reports.specs.Trees.{last_reset, KeepsLast};

use crate::whole_reset::{no_reset, read_whole_reset};
use fw_log::{Entry, LogReader, PlainBody, ReadBuffers, Timed};
use fw_log_entry::ResetEntry;
use std::alloc::{AllocError, Global};

/// The body of the last bus reset of the entries so far, if there is one. The reset is made of it at the end of the log, since
/// all but the last are of no use.
#[derive(Drop)]
pub(crate) struct LastReset {
    there: bool,
    body: Vec<u8>,
}

impl LastReset {
    /// No entries have none.
    pub(crate) fn new(alloc: Global) -> LastReset
        ensures { KeepsLast [] result.there result.body.items }
    {
        LastReset {
            there: false,
            body: Vec::new(alloc),
        }
    }

    // Keeps a body in place of the one before.
    fn keep(&mut self, body: &[u8]) -> Result<(), AllocError>
        ensures there { OnOk result (self.new.there ≡ true) }
        ensures body { OnOk result (self.new.body.items ≡ body.now) }
    {
        self.body.clear();
        self.body.extend_from_slice(body)?;
        self.there = true;
        Ok(())
    }

    /// Takes an entry more, and the bytes of its body. An error says that memory ran out.
    pub(crate) fn take(&mut self, entry: &Timed, bytes: &[u8]) -> Result<(), AllocError>
        requires fits { Fits entry.now.what }
        requires body { bytes.now ≡ body entry.now.what }
        ensures { (entries : List TimedEntry) → KeepsLast entries self.old.there self.old.body.items
            → OnOk result (KeepsLast (entries ++ entry.now ∷ []) self.new.there self.new.body.items) }
    {
        match &entry.what {
            Entry::Reset(_) => self.keep(bytes),
            _ => Ok(()),
        }
    }

    // Takes an entry more that has this body.
    fn take_body(&mut self, body: &PlainBody) -> Result<(), AllocError>
        ensures { (entries : List TimedEntry) (t : TimedEntry) → HasBody body.now t.what → KeepsLast entries self.old.there self.old.body.items
            → OnOk result (KeepsLast (entries ++ t ∷ []) self.new.there self.new.body.items) }
    {
        match body {
            PlainBody::Reset(bytes) => self.keep(bytes.as_slice()),
            _ => Ok(()),
        }
    }

    // Takes the annotation that ends in a piece: it changes nothing.
    fn take_annotation(
        &self,
        reader: &mut LogReader,
        room: &mut ReadBuffers,
        piece: &[u8],
    ) -> Option<usize>
        requires { total reader.old + length piece.now < 2 ^ 64 }
        ensures kept { IfNone result (reader.new ≡ reader.old) }
        ensures fresh { IfSome result (λ n. reader.new.fault ≡ None) }
        ensures counts { IfSome result (CountsUp reader.old piece.now reader.new) }
        ensures history { (entries : List TimedEntry) → (bytes : List ℕ) → HasRead entries bytes reader.old → KeepsLast entries self.now.there self.now.body.items
            → IfSome result (λ n. Passes silent_form.text (λ es. KeepsLast es self.now.there self.now.body.items) [] [] entries (bytes ++ take n piece.now) reader.new) }
    {
        let kind = reader.next_kind(piece)?;
        let annotation = reader.pass_annotation(kind, piece, room)?;
        Some(annotation.used)
    }

    /// Takes the entry that ends in a piece from its bytes, if it has a body of a usual form, as `Reading::pass` says.
    #[inline(always)]
    pub(crate) fn take_raw(
        &mut self,
        reader: &mut LogReader,
        room: &mut ReadBuffers,
        piece: &[u8],
    ) -> Result<Option<usize>, AllocError>
        requires { total reader.old + length piece.now < 2 ^ 64 }
        ensures kept { IfOk result (λ used. IfNone used ((reader.new ≡ reader.old) × (self.new ≡ self.old))) }
        ensures fresh { IfOk result (λ used. IfSome used (λ n. reader.new.fault ≡ None)) }
        ensures counts { IfOk result (λ used. IfSome used (CountsUp reader.old piece.now reader.new)) }
        ensures history { (entries : List TimedEntry) → (bytes : List ℕ) → HasRead entries bytes reader.old → KeepsLast entries self.old.there self.old.body.items
            → IfOk result (λ used. IfSome used (λ n. Passes silent_form.text (λ es. KeepsLast es self.new.there self.new.body.items) [] [] entries (bytes ++ take n piece.now) reader.new)) }
    {
        let Some(passed) = reader.pass_body(piece, room) else {
            return Ok(self.take_annotation(reader, room, piece));
        };
        self.take_body(&passed.body)?;
        Ok(Some(passed.used))
    }

    /// The reset, if there is one.
    pub(crate) fn reset(&self) -> Option<ResetEntry>
        requires { (entries : List TimedEntry) × KeepsLast entries self.now.there self.now.body.items }
        ensures last { (entries : List TimedEntry) → KeepsLast entries self.now.there self.now.body.items → result ≡ last_reset entries }
        ensures fits { IfSome result ResetFits }
    {
        if !self.there {
            return None;
        }
        let mut reset = no_reset();
        read_whole_reset(&mut reset, &self.body);
        Some(reset)
    }
}
