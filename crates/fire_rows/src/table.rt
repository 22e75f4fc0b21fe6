//! The tables of rows.

use crate::miss::Miss;
use crate::row::Row;
use crate::{Program, calls, damages, dubs, faults, lines, refusals};

/// A table, by its file.
#[derive(Clone, Copy)]
pub(crate) enum Table {
    Calls,
    Damages,
    Faults,
    Dubs,
    Lines,
    Refusals,
}

impl Table {
    /// The table of this file.
    pub(crate) fn of(file: &str) -> Option<Table> {
        match file {
            "calls.txt" => Some(Table::Calls),
            "damages.txt" => Some(Table::Damages),
            "faults.txt" => Some(Table::Faults),
            "dubs.txt" => Some(Table::Dubs),
            "lines.txt" => Some(Table::Lines),
            "refusals.txt" => Some(Table::Refusals),
            _ => None,
        }
    }

    /// Makes the calls of a row: they end, tell and write what the row says, or how else is answered.
    pub(crate) fn check<P: Program>(
        self,
        program: &P,
        rt: &HostRuntime,
        line: &str,
    ) -> Result<(), Miss> {
        let row = Row::of(line);
        match self {
            Table::Calls => calls::check(program, rt, &row),
            Table::Damages => damages::check(program, rt, &row),
            Table::Faults => faults::check(program, rt, &row),
            Table::Dubs => dubs::check(program, rt, &row),
            Table::Lines => lines::check(program, rt, &row),
            Table::Refusals => refusals::check(program, rt, &row),
        }
    }
}
