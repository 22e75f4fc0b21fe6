//! Parts of large values, each kept once under a number, and lists of numbers as bytes.
#![tactic(auto)]

mod full;
mod laws;
mod part;
mod table;
mod words;

pub use full::Full;
pub use laws::numbers_are_read_back;
pub use part::{Part, mixed};
pub use table::Table;
pub use words::{are_numbers, put_words, read_words};
