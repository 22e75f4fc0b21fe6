//! What is told of the entries that moves and lines wrote: kept as values in the order in which they were written, and put
//! as text by device at the end.
#![tactic(auto)]

mod entries;
mod past;
mod telling;

pub use past::{Past, ToldEntry, tells};
pub use telling::{put_left, put_remark, put_said};
