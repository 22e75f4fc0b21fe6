//! Theorems of what `check` tells of a refused line: laws, and no code. No crate of the program stands on this one.
#![tactic(auto)]

mod laws;

pub use laws::{calls_tell_their_note, refusals_are_told};
