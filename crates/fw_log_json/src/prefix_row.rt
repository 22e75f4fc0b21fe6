//! What each object begins with, kept for the next one.

ghost use Rattle.std.specs.Prelude.{◌≡◌, ◌≤◌, IfSome, OnOk, take};
ghost use Rattle.fw_log_json.specs.Objects.{prefix_fields};

use crate::prefix::put_prefix;
use fw_log_json_packets::PREFIX;
use std::alloc::{AllocError, Global};
use std::marker::Model;

/// The beginning of the latest object: many entries have the cycle and the kind of the one before. Contracts see it as its text.
#[derive(Drop)]
pub(crate) struct PrefixRow {
    // The cycle and the kind in it.
    cycle: Option<u64>,
    kind: u8,
    // The prefix, and others after it.
    bytes: Vec<u8>,
    // How many bytes the beginning has.
    size: usize,
}

impl Model for PrefixRow {
    ghost use Rattle.std.specs.Prelude.{List, ℕ, ◌≡◌, ◌≤◌, IfSome, length, take};
    ghost use Rattle.fw_log_json.specs.Objects.{prefix_fields};

    ghost Value = { List ℕ };

    ghost view = { λ r. take r.size r.bytes.items };

    ghost invariant = { λ r. (r.size ≤ length r.bytes.items) × IfSome r.cycle (λ n. take r.size r.bytes.items ≡ prefix_fields n r.kind) };
}

impl PrefixRow {
    /// That of no entry. An error says that memory ran out.
    pub(crate) fn new(alloc: Global) -> Result<PrefixRow, AllocError> {
        Ok(PrefixRow {
            cycle: None,
            kind: 0,
            bytes: Vec::with_capacity(alloc, 2 * PREFIX)?,
            size: 0,
        })
    }

    // Makes the beginning of another cycle or kind.
    fn make(&mut self, cycle: u64, kind: u8) -> Result<(), AllocError>
        ensures { OnOk result (self.new ≡ prefix_fields cycle kind) }
    {
        self.cycle = None;
        self.size = 0;
        self.bytes.clear();
        put_prefix(&mut self.bytes, cycle, kind)?;
        self.size = self.bytes.len();
        self.bytes.extend_from_slice(&[0; PREFIX])?;
        self.kind = kind;
        self.cycle = Some(cycle);
        Ok(())
    }

    /// Goes on to the beginning of this cycle and kind.
    #[inline(always)]
    pub(crate) fn set(&mut self, cycle: u64, kind: u8) -> Result<(), AllocError>
        ensures { OnOk result (self.new ≡ prefix_fields cycle kind) }
    {
        if self.cycle == Some(cycle) && self.kind == kind {
            return Ok(());
        }
        self.make(cycle, kind)
    }

    /// The bytes that begin with it, and its length, if it is short.
    #[inline(always)]
    pub(crate) fn row(&self) -> Option<(&[u8; PREFIX], usize)>
        ensures { IfSome result (λ r. (r.1 ≤ 64) × (take r.1 r.0.now ≡ self.now)) }
    {
        match self.bytes.split_first_chunk::<PREFIX>() {
            Some((row, _)) if self.size <= PREFIX => Some((row, self.size)),
            _ => None,
        }
    }

    /// The text.
    pub(crate) fn as_slice(&self) -> &[u8]
        ensures { result.now ≡ self.now }
    {
        &self.bytes[..self.size]
    }
}
