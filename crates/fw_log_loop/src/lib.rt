//! One loop over logs: what a word makes of the entries of a log is a `Reading`, and `read_log` reads the log for it.
//!
//! A log is read in pieces of 65,536 bytes at most, and a piece in parts of 4,096. What an entry gives is gathered as the entry ends, and
//! written once a part; all that the sink keeps back is passed on before more is read. Room for it is made once, so memory does not grow
//! with the log. The first fault that is met decides how a call ends.
#![tactic(auto)]

mod ending;
mod framing;
mod log;
mod parts;
mod piece;
mod reading;

pub use ending::{Closing, LogEnd, LogEnding};
pub use framing::{Framed, read_framed};
pub use fw_outside::Stop;
pub use log::read_log;
pub use reading::Reading;
