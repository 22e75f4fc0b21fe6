//! A law of the lines that a command caused, as the contract of an empty function.

ghost use Rattle.fw_trace_lines.specs.Laws.{TellsAll};

/// Nothing is left out: a command's lines, a request and its answer counted as two, are as many as the entries that it wrote, but for
/// cycle starts and packets of streams.
pub fn all_entries_are_told()
    ensures { TellsAll }
{}
