//! The words that read a log.

ghost use Rattle.std.specs.Prelude.{◌≡◌};
ghost use Rattle.fw_tool.specs.Logs.{by_log};

use crate::ending::Ending;
use fw_log_words::{LogEnding, LogRefusal};

/// How a call ends whose word has read a log to this ending.
pub(crate) fn ending_of_log(ending: LogEnding<LogRefusal>) -> Ending
    ensures { result ≡ by_log ending }
{
    match ending {
        LogEnding::Done => Ending::Done,
        LogEnding::NoLog(fault) => Ending::NoLog(fault),
        LogEnding::Refused(LogRefusal::Audit(unsound)) => Ending::Unsound(unsound),
        LogEnding::Refused(LogRefusal::Map(no_map)) => Ending::NoMap(no_map),
        LogEnding::Stopped(stop) => Ending::Stopped(stop),
    }
}
