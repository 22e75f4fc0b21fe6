use fw_bus::RuleFault;
use fw_outside::Stop;

/// How a call that runs a script ends.
#[derive(Clone, Copy)]
pub enum RunEnding {
    /// The script was read to its end, nothing of it was refused, and all that is due was written.
    Done,
    /// The first line that is refused, by its form or by a rule of the bus.
    Refused(Refused),
    /// A read or a write failed, the script passes 1,048,576 bytes and nothing within them is refused, or memory ran out.
    Stopped(Stop),
}

/// A refused line, by its number from 1.
#[derive(Clone, Copy)]
pub struct Refused {
    pub line: u32,
    pub why: Refusal,
}

/// Why a line of a script was refused.
#[derive(Clone, Copy)]
pub enum Refusal {
    /// The line has none of the forms, or follows `end`.
    BadLine,
    /// The line has more than 256 bytes, be it a skipped one.
    LineTooLong,
    /// The input ended without `end`; the line is the one after the last.
    NoEnd,
    /// The line's command breaks a rule of the bus.
    Rule(RuleFault),
}
