//! The words that run a script: `run` reads one and writes the log of its commands, `dub` reads one and writes what was recorded in its
//! run; `check` reads one and writes what it has, or why a line of it is refused; `gen` makes one from a seed, runs it in memory, and writes a summary of its log.
//!
//! All carry out command after command by the same step, each command as it is read.
#![tactic(auto)]

mod checking;
mod ending;
mod laws;
mod recording;
mod script;
mod seed;
mod step;

pub use checking::check;
pub use ending::{Refusal, Refused, RunEnding};
pub use laws::{runs_go_on_line_by_line, scripts_have_one_log};
pub use recording::{dub, record_run};
pub use script::run;
pub use seed::{in_memory, run_seed};
pub use step::{carry_known, carry_next};
