//! Laws of the rows of an exploration: each is the rest of a script, which `run` carries out and which ends as the row says.
#![tactic(auto)]

mod laws;

pub use laws::{paragraphs_are_rests, rests_are_run, rows_are_rests};
