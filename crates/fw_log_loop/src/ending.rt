ghost use Rattle.std.specs.Prelude.{◌≡◌, IfOk, IfErr};
ghost use Rattle.fw_log_loop.specs.Readings.{closing_of};

use fw_log::LogFault;
use fw_outside::Stop;

/// How a call that reads a log ends, if R is what a word refuses a log with.
#[derive(Clone, Copy)]
pub enum LogEnding<R> {
    /// The input was read to its end and is a log, and all that is due was written.
    Done,
    /// The bytes are no log: the first fault.
    NoLog(LogFault),
    /// The word refuses the log, at an entry or at its end.
    Refused(R),
    /// A read or a write failed, more than 268,435,456 bytes came, or memory ran out.
    Stopped(Stop),
}

/// What a word makes of the end of a log.
#[derive(Drop)]
pub enum Closing<R> {
    /// What is written there.
    Text(String),
    /// The bytes that are written there.
    Bytes(Vec<u8>),
    /// Why the log is refused.
    Refused(R),
}

impl<R> Closing<R> {
    // What is written, or why the log is refused.
    pub(crate) fn into_bytes(self) -> Result<Vec<u8>, R>
        ensures written { IfOk result (λ bytes. closing_of self ≡ Ok bytes.items) }
        ensures refused { IfErr result (λ refusal. closing_of self ≡ Err refusal) }
    {
        match self {
            Closing::Text(text) => Ok(text.into_bytes()),
            Closing::Bytes(bytes) => Ok(bytes),
            Closing::Refused(refusal) => Err(refusal),
        }
    }
}

/// How the reading of a log ends if what is written of it gets an end. If a read or a write fails, or memory runs out, nothing more
/// is written.
#[derive(Clone, Copy)]
pub enum LogEnd {
    /// As it should.
    Whole,
    /// The bytes are no log: the first fault.
    NoLog(LogFault),
    /// More bytes came than are read of a log.
    TooLong,
}

impl LogEnd {
    ghost use Rattle.std.specs.Prelude.{◌≡◌};
    ghost use Rattle.fw_log_loop.specs.Endings.{end_of};

    // How a log ended, if what is written of it gets an end.
    pub(crate) fn of<R>(ending: &LogEnding<R>) -> Option<LogEnd>
        ensures { result ≡ end_of ending.now }
    {
        match ending {
            LogEnding::Done => Some(LogEnd::Whole),
            LogEnding::NoLog(fault) => Some(LogEnd::NoLog(*fault)),
            LogEnding::Stopped(Stop::TooLong) => Some(LogEnd::TooLong),
            LogEnding::Refused(_) | LogEnding::Stopped(_) => None,
        }
    }
}
