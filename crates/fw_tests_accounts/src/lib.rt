//! Tests of controllers and of the account of a log. Nothing stands on this crate.
#![tactic(auto)]

#[cfg(test)]
mod account;
#[cfg(test)]
mod controllers;
#[cfg(test)]
mod decks;
#[cfg(test)]
mod entries;
#[cfg(test)]
mod swaps;
