//! Theorems of what stands against commands, over its definitions: laws, and no code. No crate of the program stands on this one.
#![tactic(auto)]

mod laws;

pub use laws::{broken_rules_have_a_cause, causes_are_so};
