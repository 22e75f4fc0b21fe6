//! Tests of the program's top call, over scripts and logs whole, that are no rows of `fire_sessions`. Nothing stands on this crate.
#![tactic(auto)]

#[cfg(test)]
mod calls;
#[cfg(test)]
mod decodes;
#[cfg(test)]
mod program;
#[cfg(test)]
mod runs;
#[cfg(test)]
mod seeds;
