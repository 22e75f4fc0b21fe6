//! What the latest bus reset told: mostly the next one tells the same.

ghost use Rattle.std.specs.Prelude.{◌≡◌, ◌++◌, IsTrue, OnOk, drop};
ghost use Rattle.fw_log_entry.specs.Log.{ResetFits, body};
ghost use Rattle.fw_log_entry.specs.declared.entry.Entry.TheVariants.{Reset};
ghost use Rattle.fw_log_entry.specs.declared.entry.ResetEntry.{ResetEntry as AReset};
ghost use Rattle.fw_log_explain.specs.Resets.{epoch_text, later_text};

use fw_log_entry::ResetEntry;
use fw_log_explain::{put_epoch, put_later};
use std::alloc::{AllocError, Global};
use std::marker::Model;

/// The bytes and the text of the latest bus reset after its epoch. Contracts see it as the text.
#[derive(Drop)]
pub(crate) struct LatestReset {
    // Whether there is one.
    is_kept: bool,
    // The bytes of its body after its epoch.
    bytes: Vec<u8>,
    // What is said of it after its epoch.
    text: Vec<u8>,
}

impl Model for LatestReset {
    ghost use Rattle.std.specs.Prelude.{List, ℕ, ◌≡◌, IsTrue, drop};
    ghost use Rattle.fw_log_entry.specs.Log.{ResetFits, body};
    ghost use Rattle.fw_log_entry.specs.declared.entry.Entry.TheVariants.{Reset};
    ghost use Rattle.fw_log_entry.specs.declared.entry.ResetEntry.{ResetEntry as AReset};
    ghost use Rattle.fw_log_explain.specs.Resets.{later_text};

    ghost Value = { List ℕ };

    ghost view = { λ l. l.text.items };

    ghost invariant = { λ l. IsTrue l.is_kept → (r : AReset) × ResetFits r × (drop 4 (body (Reset r)) ≡ l.bytes.items) × (l.text.items ≡ later_text r) };
}

// Appends a text that is at hand.
#[inline(always)]
fn put_text(text: &mut Vec<u8>, more: &[u8]) -> Result<(), AllocError>
    ensures { OnOk result (text.new.items ≡ text.old.items ++ more.now) }
{
    text.extend_from_slice(more)
}

impl LatestReset {
    /// None so far. An error says that memory ran out.
    pub(crate) fn new(alloc: Global) -> Result<LatestReset, AllocError> {
        Ok(LatestReset {
            is_kept: false,
            bytes: Vec::new(alloc),
            text: Vec::new(alloc),
        })
    }

    /// These bytes stand after the epoch in its body.
    pub(crate) fn is(&self, later: &[u8]) -> bool
        ensures { IsTrue result → (r : AReset) × ResetFits r × (drop 4 (body (Reset r)) ≡ later.now) × (self.now ≡ later_text r) }
    {
        self.is_kept && self.bytes.as_slice() == later
    }

    /// Goes on to this bus reset, in whose body these bytes stand after the epoch.
    pub(crate) fn keep(&mut self, r: &ResetEntry, later: &[u8]) -> Result<(), AllocError>
        requires fits { ResetFits r.now }
        requires later { drop 4 (body (Reset r.now)) ≡ later.now }
        ensures { OnOk result (self.new ≡ later_text r.now) }
    {
        self.is_kept = false;
        self.bytes.clear();
        self.bytes.extend_from_slice(later)?;
        self.text.clear();
        put_later(&mut self.text, r)?;
        self.is_kept = true;
        Ok(())
    }

    /// Appends what is said of a bus reset that has this epoch and is else as the latest.
    pub(crate) fn put(&self, text: &mut Vec<u8>, epoch: u32) -> Result<(), AllocError>
        ensures { OnOk result (text.new.items ≡ text.old.items ++ (epoch_text epoch ++ self.now)) }
    {
        put_epoch(text, epoch)?;
        put_text(text, &self.text)
    }
}
