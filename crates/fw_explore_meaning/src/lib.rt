//! What an exploration tells: moves, schedules, interleavings and their endings, and that a walk over the places of all lengths tells
//! each ending once, counted exactly, with its first interleaving.
#![tactic(auto)]

mod theorem;

pub use theorem::{moves_have_one_ending, what_is_told_is_one_text, whole_walks_tell_all};
