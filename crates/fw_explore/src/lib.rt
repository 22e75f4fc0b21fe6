//! The word `explore`: every interleaving of half steps and lines after a script, and how each ends.
//!
//! The interleavings of one length are many, the places that they lead to few: a place is the lines that were carried out, what was told so
//! far, and the machine. The contract of `Bus::change` speaks of every run for whose state a machine stands, so one call carries all
//! schedules of a place on.
#![tactic(auto)]

mod begin;
mod carry;
mod cut;
mod explorer;
mod fault;
mod finish;
mod keeper;
mod keeping;
mod kept_bus;
mod key;
mod names;
mod past;
mod since;
mod step;
mod there;
mod unknown;
mod word;

pub use fault::ExploreEnding;
pub use keeper::Keeper;
pub use word::{MOST_PLACES, explore};
