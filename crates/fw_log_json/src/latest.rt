//! What the latest bus reset told: mostly the next one tells the same.

ghost use Rattle.std.specs.Prelude.{◌≡◌, IsTrue, OnOk, drop};
ghost use Rattle.fw_log_entry.specs.Log.{ResetFits, body};
ghost use Rattle.fw_log_entry.specs.declared.entry.Entry.TheVariants.{Reset};
ghost use Rattle.fw_log_entry.specs.declared.entry.ResetEntry.{ResetEntry as AReset};
ghost use Rattle.fw_log_json.specs.Objects.{later_fields};

use crate::reset::put_later;
use fw_log_entry::ResetEntry;
use std::alloc::{AllocError, Global};
use std::marker::Model;

/// The bytes and the text of the latest bus reset after its epoch. Contracts see it as the text.
#[derive(Drop)]
pub(crate) struct LatestReset {
    // Whether there is one.
    is_kept: bool,
    // The bytes of its body after its epoch.
    bytes: Vec<u8>,
    // What its object tells after its epoch.
    text: Vec<u8>,
}

impl Model for LatestReset {
    ghost use Rattle.std.specs.Prelude.{List, ℕ, ◌≡◌, IsTrue, drop};
    ghost use Rattle.fw_log_entry.specs.Log.{ResetFits, body};
    ghost use Rattle.fw_log_entry.specs.declared.entry.Entry.TheVariants.{Reset};
    ghost use Rattle.fw_log_entry.specs.declared.entry.ResetEntry.{ResetEntry as AReset};
    ghost use Rattle.fw_log_json.specs.Objects.{later_fields};

    ghost Value = { List ℕ };

    ghost view = { λ l. l.text.items };

    ghost invariant = { λ l. IsTrue l.is_kept → (r : AReset) × ResetFits r × (drop 4 (body (Reset r)) ≡ l.bytes.items) × (l.text.items ≡ later_fields r) };
}

impl LatestReset {
    /// None so far. An error says that memory ran out.
    pub(crate) fn new(alloc: Global) -> Result<LatestReset, AllocError> {
        Ok(LatestReset {
            is_kept: false,
            bytes: Vec::new(alloc),
            text: Vec::new(alloc),
        })
    }

    /// These bytes stand after the epoch in its body.
    pub(crate) fn is(&self, later: &[u8]) -> bool
        ensures { IsTrue result → (r : AReset) × ResetFits r × (drop 4 (body (Reset r)) ≡ later.now) × (self.now ≡ later_fields r) }
    {
        self.is_kept && self.bytes.as_slice() == later
    }

    /// Goes on to this bus reset, in whose body these bytes stand after the epoch.
    pub(crate) fn keep(&mut self, r: &ResetEntry, later: &[u8]) -> Result<(), AllocError>
        requires fits { ResetFits r.now }
        requires later { drop 4 (body (Reset r.now)) ≡ later.now }
        ensures { OnOk result (self.new ≡ later_fields r.now) }
    {
        self.is_kept = false;
        self.bytes.clear();
        self.bytes.extend_from_slice(later)?;
        self.text.clear();
        put_later(&mut self.text, r)?;
        self.is_kept = true;
        Ok(())
    }

    /// What its object tells after its epoch.
    pub(crate) fn as_slice(&self) -> &[u8]
        ensures { result.now ≡ self.now }
    {
        &self.text
    }
}
