//! The text of a script's lines, and of what each of them caused, with the names that the script gives its devices.
//!
//! A `Tracer` makes it, line by line and entry by entry. What it keeps from line to line are the names of the devices, the nodes of the
//! latest bus reset, the latest request of each node under each label, and the jobs that an outcome may be of.
#![tactic(auto)]

mod events;
mod job;
mod jobs;
mod laws;
mod line;
mod streams;
mod tracer;
mod traffic;

pub use job::{Connection, TracedConnection};
pub use laws::all_entries_are_told;
pub use streams::Stream;
pub use tracer::Tracer;
