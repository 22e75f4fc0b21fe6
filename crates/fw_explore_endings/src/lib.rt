//! Endings: each once, by how many interleavings it is reached, and the first of these; and the text of all.
#![tactic(auto)]

mod names;
mod rows;
mod text;

pub use names::names_of;
pub use rows::{Row, Rows};
pub use text::text_of;
