//! The rows of the tables of sessions: how they are read, which calls they ask for, and how what is found differs from what they say.
//! The program itself is handed in (`Program`), so all of this is proved without it. The form of the rows stands in the README of the
//! tables, in `fire_sessions/data`.
#![tactic(auto)]

mod call;
mod calls;
mod changes;
mod damages;
mod dubs;
mod due;
mod ended;
mod faults;
mod files;
mod lines;
mod miss;
mod names;
mod numbers;
mod parts;
mod pieces;
mod portions;
mod program;
mod refusals;
mod row;
mod sessions;
mod table;
mod tally;

pub use portions::Portions;
pub use program::Program;
pub use sessions::hold;
