//! The lines of `holders` in a page: they end at the first entry that has a fault, and the page does not.

ghost use Rattle.std.specs.Prelude.{◌≡◌, ◌+◌, ◌<◌, ◌^◌, ◌++◌, ◌∷◌, [], List, length, false, None, IfOk, IsTrue, IsFalse, OnOk};
ghost use Rattle.fw_log_entry.specs.Log.{Fits, body};
ghost use Rattle.fw_log_entry.specs.declared.entry.Entry.{Entry as AnEntry};
ghost use Rattle.fw_log_entry.specs.declared.entry.Timed.{Timed as TimedEntry};
ghost use Rattle.fw_log.specs.Passing.{HasBody};
ghost use Rattle.fw_holders.specs.Told.{table_of};
ghost use Rattle.fw_log_loop.specs.Readings.{TakesEntry};
ghost use Rattle.fw_log_reports.specs.Holdings.{holders_form, Takes};
ghost use Rattle.fw_log_reports.specs.Verdicts.{RejectsUnsound};
ghost use Rattle.fw_log_words.specs.Stops.{stop_of};
ghost use Rattle.fw_log_words.specs.Pages.{held_lines, held_end, stop_line};
ghost use Rattle.fw_log_words.specs.Paged.{Follows, Passed};
ghost use Rattle.fw_log_reports.specs.declared.holding.Holding.{Holding as AHolding};

use crate::LogRefusal;
use crate::marked::put_lines;
use fw_log::{PlainBody, Timed};
use fw_log_loop::Reading;
use fw_log_names::put_word;
use fw_log_reports::{Holding, Unsound, unsound_text};
use fw_page::{HOLDERS, put_marked};
use std::alloc::{AllocError, Global};

// Appends that `holders` stops.
fn put_stop(text: &mut Vec<u8>, unsound: &Unsound) -> Result<(), AllocError>
    ensures { OnOk result (text.new.items ≡ text.old.items ++ stop_line unsound.now) }
{
    put_word(text, ":holders 9 ")?;
    text.extend_from_slice(unsound_text(unsound).as_slice())?;
    put_word(text, "\n")
}

/// Who holds what after the entries that were taken, up to the first that has a fault.
#[derive(Drop)]
pub(crate) struct Held {
    holding: Holding,
    // An entry had a fault: no more are taken.
    stopped: bool,
}

impl Held {
    /// Of no entries. An error says that memory ran out.
    pub(crate) fn new(alloc: Global) -> Result<Held, AllocError>
        ensures { IfOk result (λ h. Follows h []) }
    {
        Ok(Held {
            holding: Holding::new(alloc)?,
            stopped: false,
        })
    }

    // Appends the line of the entry that was taken, if it has one, or that `holders` stops at it.
    fn put_taken(
        &mut self,
        text: &mut Vec<u8>,
        refusal: Option<LogRefusal>,
    ) -> Result<(), AllocError>
        ensures { (before : AHolding) (entries : List TimedEntry) (t : TimedEntry) → self.old.stopped ≡ false → stop_of entries ≡ None → Takes before entries → before.holders.text ≡ []
            → TakesEntry holders_form.text RejectsUnsound (Takes self.old.holding) before.holders.text self.old.holding.holders.text entries t refusal
            → OnOk result ((text.new.items ≡ text.old.items ++ held_lines entries t) × Follows self.new (entries ++ t ∷ [])) }
    {
        match refusal {
            None => put_lines(text, HOLDERS, &mut self.holding),
            Some(refused) => match refused {
                LogRefusal::Audit(unsound) => {
                    self.stopped = true;
                    put_stop(text, &unsound)
                }
                // No audit says so.
                LogRefusal::Map(_) => Ok(()),
            },
        }
    }

    /// Appends what `holders` says of the next entry, whose body these bytes are. An error says that memory ran out.
    pub(crate) fn put(
        &mut self,
        text: &mut Vec<u8>,
        entry: &Timed,
        bytes: &[u8],
    ) -> Result<(), AllocError>
        requires fits { Fits entry.now.what }
        requires body { bytes.now ≡ body entry.now.what }
        ensures { (entries : List TimedEntry) → length entries + 1 < 2 ^ 64 → Follows self.old entries
            → OnOk result ((text.new.items ≡ text.old.items ++ held_lines entries entry.now) × Follows self.new (entries ++ entry.now ∷ [])) }
    {
        if self.stopped {
            return Ok(());
        }
        let refusal = self.holding.take(entry, bytes)?;
        self.put_taken(text, refusal)
    }

    /// Takes the entry of this cycle that has this body, if a short look finds that it has no fault, and answers whether it did. If it
    /// did not nothing is changed, and `put` takes the entry. An error says that memory ran out.
    #[inline(always)]
    pub(crate) fn pass_body(&mut self, cycle: u64, body: &PlainBody) -> Result<bool, AllocError>
        requires { (e : AnEntry) × HasBody body.now e }
        ensures passed { (entries : List TimedEntry) (t : TimedEntry) → t.cycle ≡ cycle → HasBody body.now t.what → length entries + 1 < 2 ^ 64 → Follows self.old entries
            → IfOk result (λ passed. IsTrue passed → Passed entries t self.new) }
        ensures kept { IfOk result (λ passed. IsFalse passed → self.new ≡ self.old) }
    {
        if self.stopped {
            return Ok(true);
        }
        self.holding.pass_body(cycle, body)
    }

    /// Appends the line of an entry that was passed, if it has one. An error says that memory ran out.
    pub(crate) fn put_passed(&mut self, text: &mut Vec<u8>) -> Result<(), AllocError>
        ensures { (entries : List TimedEntry) (t : TimedEntry) → Passed entries t self.old
            → OnOk result ((text.new.items ≡ text.old.items ++ held_lines entries t) × Follows self.new (entries ++ t ∷ [])) }
    {
        put_lines(text, HOLDERS, &mut self.holding)
    }

    /// Appends the table at the end of a log, unless an entry had a fault. An error says that memory ran out.
    pub(crate) fn put_table(&self, text: &mut Vec<u8>, alloc: Global) -> Result<(), AllocError>
        ensures { (entries : List TimedEntry) → Follows self.now entries → OnOk result (text.new.items ≡ text.old.items ++ held_end (stop_of entries) (table_of entries)) }
    {
        if self.stopped {
            return Ok(());
        }
        put_marked(text, HOLDERS, &self.holding.table(alloc)?)
    }
}
