//! The word `trace`: a script, each line followed by what it caused, with the names that the script gives its devices. It is run as `run`
//! runs it, by the same step; in place of the log it writes the text of a `Tracer`.
#![tactic(auto)]

mod bodies;
mod entries;
mod lack;
mod laws;
mod line;
mod passed;
mod step;
mod telling;
mod word;

pub use laws::traces_leave_nothing_out;
pub use word::trace;
