//! Level by level through lists of moves that are merged if they lead to the same place: each place once, by how many
//! lists it is reached, and the first of them.
//!
//! A place is told by its key, bytes that two lists of moves have alike exactly if they lead to the same place. What the moves are and
//! what the bytes mean is the caller's. That each place's count is the number of all lists that lead there, and that its list is the first of
//! them, follows for any moves and keys from what `Levels` ensures (proofs/WalkLaws.antt, proofs/RowLaws.antt).
#![tactic(auto)]

mod level;
mod levels;
mod spot;
mod steps;

pub use levels::Levels;
