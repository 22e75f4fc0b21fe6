//! What was told: the bytes of the lines, and how many of them are findings.

ghost use Rattle.std.specs.Prelude.{◌≡◌, [], IfOk, OnOk};
ghost use Rattle.fw_watch_remarks.specs.Remarks.{with_line, said, counted};

use crate::count::counted;
use crate::remark::Remark;
use crate::texts::put_line;
use fw_log_names::{CycleRow, Pairs};
use std::alloc::{AllocError, Global};
use std::marker::Model;

/// How many bytes of text there is room for at first: more than the lines mostly have of 4,096 bytes of a log.
const TEXT_ROOM: usize = 16_384;

/// The lines that were told and not yet written, and how many findings were told in all.
#[derive(Drop)]
pub struct Journal {
    text: Vec<u8>,
    findings: u64,
    // The cycle that a line begins with.
    row: CycleRow,
    pairs: Pairs,
}

impl Model for Journal {
    ghost use Rattle.fw_watch_remarks.specs.Remarks.{WatchOutput};

    ghost Value = { WatchOutput };

    ghost view = { λ j. record { text = j.text.items; findings = j.findings } };
}

impl Journal {
    /// No lines.
    pub fn new(alloc: Global) -> Result<Journal, AllocError>
        ensures { IfOk result (λ j. j ≡ record { text = []; findings = 0 }) }
    {
        Ok(Journal {
            text: Vec::with_capacity(alloc, TEXT_ROOM)?,
            findings: 0,
            row: CycleRow::of(0),
            pairs: Pairs::new(),
        })
    }

    /// The lines that are not yet written.
    pub fn as_slice(&self) -> &[u8]
        ensures { result.now ≡ self.now.text }
    {
        &self.text
    }

    /// How many findings were told.
    pub fn findings(&self) -> u64
        ensures { result ≡ self.now.findings }
    {
        self.findings
    }

    /// Drops the lines.
    pub fn clear(&mut self)
        ensures { self.new ≡ record self.old { text = [] } }
    {
        self.text.clear();
    }

    /// Tells a remark in a line of its own.
    #[tactic(auto, unfolding(crate::specs::Remarks::with_line))]
    pub fn say(&mut self, cycle: u64, remark: Remark) -> Result<(), AllocError>
        ensures { OnOk result (self.new ≡ with_line self.old (said cycle remark)) }
    {
        put_line(&mut self.text, &self.pairs, &mut self.row, cycle, &remark)?;
        if remark.is_finding() {
            self.findings = counted(self.findings);
        }
        Ok(())
    }
}
