//! A `Ledger` takes a log entry by entry, and tells what the registers hold: it keeps the account of the entries in tables.
#![tactic(auto)]

mod answer;
mod counts;
mod entry;
mod event;
mod ledger;
mod packet;
mod refused;
mod renew;
mod reset;
mod swap;

pub use answer::Answer;
pub use ledger::Ledger;
pub use refused::Refused;
