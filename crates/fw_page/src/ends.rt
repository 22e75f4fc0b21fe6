//! How a log ended, as a line.

ghost use Rattle.std.specs.Prelude.{◌≡◌, ◌++◌, OnOk};
ghost use Rattle.fw_page.specs.Ends.{why_text, log_line};

use fw_log::LogWhy;
use fw_log_loop::LogEnd;
use fw_log_names::{put_number, put_word};
use std::alloc::AllocError;

// The name of a fault of a log.
fn why_text(why: LogWhy) -> &'static str
    ensures { result.now ≡ why_text why }
{
    match why {
        LogWhy::AfterEnd => ": AfterEnd\n",
        LogWhy::BadHeader => ": BadHeader\n",
        LogWhy::BadKind => ": BadKind\n",
        LogWhy::BadLength => ": BadLength\n",
        LogWhy::TimeBack => ": TimeBack\n",
        LogWhy::BadBody(_) => ": BadBody\n",
        LogWhy::Cut => ": Cut\n",
        LogWhy::NoEnd => ": NoEnd\n",
        LogWhy::BadEpoch(_) => ": BadEpoch\n",
    }
}

/// Appends the last line of a page: the status and the note of a word that reads the log and refuses none, as `decode`. An error says
/// that memory ran out.
pub fn put_log_line(text: &mut Vec<u8>, end: LogEnd) -> Result<(), AllocError>
    ensures { OnOk result (text.new.items ≡ text.old.items ++ log_line end) }
{
    match end {
        LogEnd::Whole => put_word(text, ":log 0\n"),
        LogEnd::TooLong => put_word(text, ":log 7 too long\n"),
        LogEnd::NoLog(fault) => {
            put_word(text, ":log 4 byte ")?;
            put_number(text, fault.place)?;
            put_word(text, why_text(fault.why))
        }
    }
}
