//! Scripts: lines that are read as commands, one after the other.
//!
//! A script is lines that end with a line feed; the last may lack it. Empty lines and lines that begin with `#`
//! are skipped. All other lines have the form of a `Command`.
#![tactic(auto)]

mod laws;
mod line;
mod reader;
mod stage;

pub use laws::{calls_give_the_script, lines_are_read_one_by_one, scripts_say_one_thing};
pub use reader::{Said, ScriptReader};
use thiserror::Error;

/// Why a script is refused, or not read.
#[derive(Clone, Copy, Debug, PartialEq, Eq, Error)]
pub enum ScriptFault {
    /// The line has none of the forms, or follows `end`.
    #[error("BadLine")]
    BadLine,
    /// The line has more than 256 bytes, be it a skipped one. It is tested before `BadLine`.
    #[error("LineTooLong")]
    LineTooLong,
    /// The input ended without `end`; the line is the one after the last.
    #[error("NoEnd")]
    NoEnd,
    /// The source failed.
    #[error("ReadFault")]
    ReadFault,
    /// The script has more than 1,048,576 bytes, and no line within them is refused. A line is within them if
    /// its line feed is; one whose 257th byte is counts too.
    #[error("TooLong")]
    TooLong,
}
