//! The count of a table's rows.

use crate::miss::Miss;
use std::io;

/// How many rows there were, and how many of them are otherwise than the table says.
#[derive(Clone, Copy)]
pub(crate) struct Tally {
    rows: u64,
    otherwise: u64,
}

impl Tally {
    pub(crate) const NEW: Tally = Tally {
        rows: 0,
        otherwise: 0,
    };

    /// Counts a row, and tells of one that does not hold what was expected and what was found. A fault of a file ends all.
    pub(crate) fn count(
        &mut self,
        rt: &HostRuntime,
        row: &str,
        found: Result<(), Miss>,
    ) -> io::Result<()> {
        self.rows = self.rows.saturating_add(1);
        match found {
            Ok(()) => Ok(()),
            Err(Miss::Failed(error)) => Err(error),
            Err(Miss::Otherwise(lines)) => self.miss(rt, row, &lines),
            Err(Miss::NoRow(lacks)) => {
                let lines = format!(in rt.alloc();
                    "  it is no row of this table: it lacks {lacks}\n"
                )?;
                self.miss(rt, row, &lines)
            }
        }
    }

    fn miss(&mut self, rt: &HostRuntime, row: &str, lines: &str) -> io::Result<()> {
        self.otherwise = self.otherwise.saturating_add(1);
        println!(rt; "otherwise: {row}")?;
        print!(rt; "{lines}")
    }

    /// How many rows there were.
    pub(crate) fn rows(self) -> u64 {
        self.rows
    }

    /// Tells the counts of a file's rows, and answers whether all hold.
    pub(crate) fn tell(self, rt: &HostRuntime, file: &str) -> io::Result<bool> {
        let Tally { rows, otherwise } = self;
        println!(rt; "{file}: {rows} rows, {otherwise} otherwise")?;
        Ok(otherwise == 0)
    }
}
