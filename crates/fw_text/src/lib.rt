//! A text that is said piece by piece and never fails in the middle: memory that is refused is kept in mind, and asked about once.
#![tactic(auto)]

mod hex;
mod names;
mod numbers;
mod pairs;
mod text;

pub use names::{name_in, words_in};
pub use pairs::{eight, four, of_four, six, twelve, two};
pub use text::Text;
