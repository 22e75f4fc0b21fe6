//! What is kept of a machine so that it can be given back: each of its parts once, under a number.
//!
//! Most steps of a bus change few parts, so machines that differ share most of theirs, and the numbers of its parts are all that
//! is kept of one.
#![tactic(auto)]

mod giving;
mod guesses;
mod halves;
mod numbers;
mod places;
mod rest;

pub use places::Places;
