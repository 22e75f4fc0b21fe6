//! The script that a seed makes, and what is counted of the log of its run.
#![tactic(auto)]

mod seed;
mod tally;

pub use seed::gen_script;
pub use tally::{CountFull, Tally};
