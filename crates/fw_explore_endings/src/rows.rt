//! Endings, each once, in the order of their first interleavings.

ghost use Rattle.std.specs.Prelude.{◌≡◌, ◌≢◌, ◌+◌, ◌-◌, ◌^◌, ◌<◌, [], ℕ, min, length, OnOk, OnErr, MatchOption, slice_index_or};
ghost use Rattle.std.specs.List.{All};
ghost use Rattle.fw_explore_levels.specs.Counting.{most_told};
ghost use Rattle.fw_explore_levels.specs.Tables.{IsReached};
ghost use Rattle.fw_explore_endings.specs.Tallies.{ended_entries, cut_entries, KeepsLast};
ghost use Rattle.fw_explore_endings.specs.declared.rows.Row.{Row as ARow};

use std::alloc::{AllocError, Global};

/// An ending, and how it is reached. A count is exact below 2^128 - 1, and may be more from there on.
#[derive(Drop)]
pub struct Row {
    /// What is told of it, a remark a line.
    pub ending: Vec<u8>,
    /// By how many interleavings it is reached that ended.
    pub ended: u128,
    /// And by how many that were cut off.
    pub cut: u128,
    /// The moves of the first of both, by the places of their movers.
    pub first: Vec<u8>,
    /// The lines that were carried out after it, each with its line feed.
    pub lines: Vec<u8>,
}

/// All endings, and the numbers of all interleavings.
#[derive(Drop)]
pub struct Rows {
    /// Each ending once, in the order of their first interleavings.
    pub list: Vec<Row>,
    /// How many interleavings ended.
    pub ended: u128,
    /// How many were cut off.
    pub cut: u128,
    /// The moves of the longest interleaving.
    pub longest: u32,
}

// The place of the row with this ending.
fn place_of(list: &[Row], ending: &[u8]) -> Option<usize>
    ensures { MatchOption result (All (λ r. r.ending.items ≢ ending.now) list.now) (λ k. (k < length list.now) × ((d : ARow) → (slice_index_or list.now k d).ending.items ≡ ending.now)) }
{
    for place in 0..list.len() {
        if list[place].ending.as_slice() == ending {
            return Some(place);
        }
    }
    None
}

impl Row {
    // So many interleavings more come to it.
    fn count(&mut self, ended: u128, cut: u128)
        ensures { self.new ≡ record self.old { ended = min most_told (self.old.ended + ended); cut = min most_told (self.old.cut + cut) } }
    {
        self.ended = self.ended.saturating_add(ended);
        self.cut = self.cut.saturating_add(cut);
    }
}

impl Rows {
    /// No ending.
    pub fn new(alloc: Global) -> Rows
        ensures list { result.list.items ≡ [] }
        ensures ended { result.ended ≡ 0 }
        ensures cut { result.cut ≡ 0 }
    {
        Rows {
            list: Vec::new(alloc),
            ended: 0,
            cut: 0,
            longest: 0,
        }
    }

    /// So many interleavings more come to an ending: it is counted again, or is a row more. An error says that memory ran out.
    pub fn reach(&mut self, row: Row) -> Result<(), AllocError>
        ensures ended { OnOk result (IsReached (ended_entries self.old.list.items) (ended_entries self.new.list.items) row.ending.items row.ended row.first.items) }
        ensures cut { OnOk result (IsReached (cut_entries self.old.list.items) (cut_entries self.new.list.items) row.ending.items row.cut row.first.items) }
        ensures rows { OnOk result (KeepsLast self.old.list.items self.new.list.items row) }
        ensures all_ended { OnOk result (self.new.ended ≡ min most_told (self.old.ended + row.ended)) }
        ensures all_cut { OnOk result (self.new.cut ≡ min most_told (self.old.cut + row.cut)) }
        ensures longest { self.new.longest ≡ self.old.longest }
    {
        self.ended = self.ended.saturating_add(row.ended);
        self.cut = self.cut.saturating_add(row.cut);
        let Some(place) = place_of(self.list.as_slice(), row.ending.as_slice()) else {
            self.list.push(row)?;
            return Ok(());
        };
        self.list[place].count(row.ended, row.cut);
        Ok(())
    }
}
