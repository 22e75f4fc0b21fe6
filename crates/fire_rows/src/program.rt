//! What the rows ask of the program.

use crate::Portions;
use fw_outside::MemSink;
use std::alloc::Global;

/// A program of which the rows say how its calls end.
pub trait Program {
    /// Does what the words say over a source, writes into one sink and its notes into another, and answers the status.
    fn call(
        &self,
        alloc: Global,
        words: &[String],
        source: &mut Portions<'_>,
        output: &mut MemSink,
        notes: &mut MemSink,
    ) -> u8;
}
