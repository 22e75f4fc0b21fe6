//! Who holds what: a `Holders` takes a log entry by entry, audits it, and writes a line each time that an allocation or a
//! connection changes, and at the end a table of all that is held.
#![tactic(auto)]

mod death;
mod held;
mod held_line;
mod holders;
mod holding;
mod judged;
mod lines;
mod moves;
mod owners;
mod place;
mod plugs;
mod table;

pub use holders::Holders;
