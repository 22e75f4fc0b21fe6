//! The words after `explore`: a bound for half steps, the movers, and the lines that come after each interleaving; and which
//! word is the first that is refused, before any script is read.
#![tactic(auto)]

mod fault;
mod forms;
mod mover;
mod reading;
mod words;

pub use fault::{WordFault, WordWhy, WordsFault};
pub use mover::{Explored, Line, MOST_MOVERS, Mover, MoverKind};
pub use words::read_words;
