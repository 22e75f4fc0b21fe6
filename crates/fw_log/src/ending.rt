//! What a reader answers of the log as a whole: its version, and whether it is whole at the input's end.

ghost use Rattle.std.specs.Prelude.{ℕ, ◌≡◌, ◌<◌, ◌^◌, List, None};
ghost use Rattle.std.specs.Result.{result_err};
ghost use Rattle.fw_log.specs.Reader.{total, version_read, known, finish_of};
ghost use Rattle.fw_log.specs.History.{HasRead, Finishes};
ghost use Rattle.fw_log_entry.specs.declared.entry.Timed.{Timed};

use crate::log_position::{LogPosition, skip};
use crate::read::LogReader;
use crate::version::version_read;
use crate::{LogFault, LogWhy, Version};

impl LogReader {
    // The version, as far as it is known.
    fn known(&self) -> Option<Version>
        ensures { result ≡ known self.now }
    {
        match self.stand {
            LogPosition::Header => version_read(self.taken.as_slice()),
            LogPosition::Entries { version, .. } | LogPosition::Ended { version, .. } => Some(
                version,
            ),
        }
    }

    /// The version of the log: none exactly if fewer than eight bytes were taken, or one of the two quadlets of them was refused.
    pub fn version(&self) -> Option<Version>
        ensures known { result ≡ known self.now }
        ensures read { (entries : List Timed) → (bytes : List ℕ) → HasRead entries bytes self.now → result ≡ version_read bytes }
    {
        self.known()
    }

    // The fault that the input's end is, if it is one.
    fn end_fault(&self) -> Option<LogFault>
        requires { self.now.fault ≡ None → total self.now < 2 ^ 64 }
        ensures { result ≡ finish_of self.now }
    {
        if self.fault.is_some() || matches!(self.stand, LogPosition::Ended { .. }) {
            return self.fault;
        }
        let why = if self.taken.as_slice().len() == skip(self.stand) {
            LogWhy::NoEnd
        } else {
            LogWhy::Cut
        };
        Some(LogFault {
            place: self.stand.start() + self.taken.as_slice().len() as u64,
            why,
        })
    }

    /// Whether the log is whole, at the input's end. `Cut` comes if the input ended inside the header or an entry,
    /// `NoEnd` if it ended after one of them and the last entry was not the end; a fault of `feed` is answered again.
    pub fn finish(&self) -> Result<(), LogFault>
        requires { self.now.fault ≡ None → total self.now < 2 ^ 64 }
        ensures fault { result_err result ≡ finish_of self.now }
        ensures log { (entries : List Timed) → (bytes : List ℕ) → HasRead entries bytes self.now → Finishes entries bytes result }
    {
        match self.end_fault() {
            Some(fault) => Err(fault),
            None => Ok(()),
        }
    }
}
