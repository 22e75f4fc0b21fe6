//! Rows in the order in which they came, of which mostly the first is taken away.
#![tactic(auto)]

mod queue;

pub use queue::Queue;
