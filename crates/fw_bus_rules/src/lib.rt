//! The rules by which commands are refused: what a command orders of a machine, or the first rule that it breaks.
#![tactic(auto)]

mod candidates;
mod commands;
mod connections;
mod decks;
mod transactions;

pub use commands::decide;
