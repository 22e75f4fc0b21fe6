//! Tests of scripts, and of trees of cables. Nothing stands on this crate.
#![tactic(auto)]

#[cfg(test)]
mod cablings;
#[cfg(test)]
mod commands;
#[cfg(test)]
mod forms;
#[cfg(test)]
mod scripts;
#[cfg(test)]
mod trees;
