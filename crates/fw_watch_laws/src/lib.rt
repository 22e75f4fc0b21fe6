//! Theorems of `watch`, over its definitions: laws, and no code. No crate stands on this one.
#![tactic(auto)]

mod laws;

pub use laws::{changed_words_are_told, two_senders_are_told};
