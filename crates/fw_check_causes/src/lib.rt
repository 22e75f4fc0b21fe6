//! What stands against a command that breaks a rule of the bus, read of what the bus keeps before its line.
#![tactic(auto)]

mod cables;
mod controllers;
mod names;
mod of_rule;
mod registers;

pub use of_rule::cause;
