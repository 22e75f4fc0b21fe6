//! Names in place of numbers: what a trace says of nodes, of devices and of registers, with the names that its script gives the devices.
//! The text goes to the end of a list of bytes.
#![tactic(auto)]

mod ends;
mod naming;
mod parts;
mod registers;

pub use ends::{TOLD, put_ends, put_whole_line};
pub use naming::Names;
pub use parts::{put_cycle, put_named_part, put_part, put_row};
pub use registers::{put_named_told, put_named_word};
