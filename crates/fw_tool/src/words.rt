//! The words of the command line.

use crate::about::About;
use crate::scripts::ScriptWord;
use fw_log_words::LogWord;

/// What the words of the command line say.
#[derive(Clone, Copy)]
pub enum Word {
    /// `run`, `trace`, `dub` or `check`: to run the script that is read.
    Script(ScriptWord),
    /// `gen NUMBER`: to run the script that the number makes.
    Gen(u32),
    /// A word of `LogWord`: to read a log.
    Log(LogWord),
    /// `explore`, with any words after it: to explore how the script that is read can go on.
    Explore,
    /// `help` or `version`, in their spellings: to say so of the program itself.
    About(About),
}
