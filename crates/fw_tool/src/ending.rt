use crate::Refused;
use fw_explore_movers::WordFault;
use fw_log::LogFault;
use fw_log_words::{NoMap, Unsound};
use fw_outside::Stop;

/// How a call ends. It is the table of statuses: each ending has its status and its note, which is one line on the notes.
#[derive(Clone, Copy)]
pub enum Ending {
    /// 0, no note: the input was read to its end, nothing of it was refused, and all was written.
    Done,
    /// 2, `usage`: the words are no listed form. Nothing was read or written.
    Usage,
    /// 3, `line N: NAME`: line N of the script is the first that is refused, by its form or by a rule of the bus. The log of
    /// the lines before it was written.
    Refused(Refused),
    /// 4, `byte N: NAME`: the bytes are no log; the first refused part is at byte N. What the entries before it give was written.
    NoLog(LogFault),
    /// 5, `read fault`: the source failed. What the input up to there gives was written. 6, `write fault`: the sink failed. A prefix
    /// of what the input gives was written. 7, `too long`: the script passes 1,048,576 bytes, or the log 268,435,456, and nothing
    /// within that limit is refused. 8, `no memory`: memory was refused.
    Stopped(Stop),
    /// 9, `entry N: NAME VALUES`: entry N of the log, counted from 0, is the first that has a fault, and this is its first fault, with
    /// its values as eight hexadecimal digits each. If locks up to it were not judged, `, not judged M locks with labels other than 0`
    /// stands behind it. `audit` wrote nothing, and `holders` the lines of the entries before.
    Unsound(Unsound),
    /// 10, `no reset`, or `node N: NAME`: the log has no bus reset, or no tree has the self-ID packets of its last one, and node N is
    /// the first that shows it. Nothing was written.
    NoMap(NoMap),
    /// 11, `word N: NAME`, or `too large`: a word after `explore` is refused, or there is too much to explore. Nothing was written.
    Unexplored(Unexplored),
}

/// Why nothing was explored.
#[derive(Clone, Copy)]
pub enum Unexplored {
    /// Word N after `explore`, counted from 1, is the first that is refused: by its form, or since it names a device that the script does
    /// not declare.
    Word(WordFault),
    /// There are more places than fit.
    TooLarge,
}
