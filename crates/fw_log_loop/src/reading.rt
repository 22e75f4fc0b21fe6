//! What a word makes of the entries of a log.

ghost use Rattle.std.specs.Prelude.{◌≡◌, ◌+◌, ◌<◌, ◌^◌, ◌++◌, [], List, ℕ, length, take, IfSome, IfNone, IfOk, OnOk, OnErr, None};
ghost use Rattle.fw_outside.specs.Outside.{Rose, Writes};
ghost use Rattle.fw_log_entry.specs.Log.{Fits, body};
ghost use Rattle.fw_log_entry.specs.declared.entry.Timed.{Timed as TimedEntry};
ghost use Rattle.fw_log.specs.History.{HasRead};
ghost use Rattle.fw_log.specs.Passing.{CountsUp};
ghost use Rattle.fw_log.specs.Reader.{total};
ghost use Rattle.fw_log_loop.specs.Readings.{Form, Rules, IsEach, IsAccepted, TakesEntry, Passes, Closes};

use crate::Closing;
use fw_log::{LogReader, ReadBuffers, Timed};
use fw_outside::{Failed, Sink};
use std::alloc::{AllocError, Global};

/// What a word makes of the entries of a log.
pub trait Reading: Drop {
    /// What it refuses a log with.
    type Refusal: Drop;

    /// What it writes while a log is read.
    ghost form: { Self → Form };

    /// Which entries it goes on after, which entry and which log it refuses, what it writes at a log's end, and which logs it reads whole.
    ghost rules: { Rules Self.Refusal };

    /// It took these entries.
    ghost took: { Self → List TimedEntry → Type 0 };

    /// The text of entries that was gathered and is not yet written.
    ghost gathered: { Self → List ℕ };

    /// Writes what is due once the header of the log was taken whole.
    fn open<K: Sink>(&self, sink: &mut K) -> Result<(), Failed>
        ensures text { Writes (K.held sink.old) (K.held sink.new) result (form self.now).head }
        ensures stays { OnOk result (K.faults sink.new ≡ K.faults sink.old) }
        ensures failed { OnErr result (Rose (K.faults sink.old) (K.faults sink.new)) };

    /// Takes an entry that has ended, and the bytes of its body, and answers why it refuses the log at this entry, if it does. An
    /// error says that memory ran out.
    fn take(&mut self, entry: &Timed, bytes: &[u8]) -> Result<Option<Self::Refusal>, AllocError>
        requires fits { Fits entry.now.what }
        requires body { bytes.now ≡ body entry.now.what }
        ensures same { form self.new ≡ form self.old }
        ensures took { (entries : List TimedEntry) → length entries + 1 < 2 ^ 64 → took self.old entries
            → IfOk result (TakesEntry (form self.old).text rules.rejects (took self.new) (gathered self.old) (gathered self.new) entries entry.now) };

    /// Takes the entry that ends in a piece from its bytes, if no value need be made of it, and answers how many bytes of the
    /// piece it took. If it takes none, the entry is to be read. An error says that memory ran out.
    fn take_raw(
        &mut self,
        reader: &mut LogReader,
        room: &mut ReadBuffers,
        piece: &[u8],
    ) -> Result<Option<usize>, AllocError>
        requires { total reader.old + length piece.now < 2 ^ 64 }
        ensures same { form self.new ≡ form self.old }
        ensures kept { IfOk result (λ used. IfNone used ((reader.new ≡ reader.old) × (self.new ≡ self.old))) }
        ensures fresh { IfOk result (λ used. IfSome used (λ n. reader.new.fault ≡ None)) }
        ensures counts { IfOk result (λ used. IfSome used (CountsUp reader.old piece.now reader.new)) }
        ensures history { (entries : List TimedEntry) → (bytes : List ℕ) → HasRead entries bytes reader.old → took self.old entries
            → IfOk result (λ used. IfSome used (λ n. Passes (form self.old).text (took self.new) (gathered self.old) (gathered self.new) entries (bytes ++ take n piece.now) reader.new)) }
    {
        Ok(None)
    }

    /// The text that was gathered.
    fn gathered(&self) -> &[u8]
        ensures { result.now ≡ gathered self.now };

    /// Drops the text that was gathered.
    fn clear(&mut self)
        ensures empty { gathered self.new ≡ [] }
        ensures same { form self.new ≡ form self.old }
        ensures took { (entries : List TimedEntry) → took self.old entries → took self.new entries };

    /// What is written at the end of a log of the entries that it took, or why it refuses that log. An error says that memory ran
    /// out.
    fn close(&self, alloc: Global) -> Result<Closing<Self::Refusal>, AllocError>
        requires { (entries : List TimedEntry) × took self.now entries }
        ensures { (entries : List TimedEntry) → took self.now entries → IfOk result (Closes rules entries) };

    /// The text of entries is that of each of them, one after another.
    ghost each: { (s : Self) → IsEach (form s).text };

    /// It goes on after the entries that it took.
    ghost accepted: { (s : Self) (entries : List TimedEntry) → took s entries → rules.accepts entries };

    /// It refuses no log that it is to read whole.
    ghost unrefused: { (entries : List TimedEntry) → rules.completes entries → IsAccepted rules entries };
}
