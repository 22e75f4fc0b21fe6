//! The AV/C unit of a deck or camcorder (AV/C General 3.0): what it answers to a command frame, by its own table of commands
//! and by that of its tape subunit, and the notices of changes that controllers asked for.
#![tactic(auto)]

mod answer;
mod company;
mod copies;
mod laws;
mod notify;
mod row;
mod unit;
mod vendor;

pub use company::COMPANY_ID;
pub use laws::{frames_change_what_they_command, notices_tell_the_first_change};
pub use notify::{Kept, Watched};
pub use row::UnitRow;
pub use unit::Unit;
